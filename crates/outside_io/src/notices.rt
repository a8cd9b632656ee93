// Answers as pieces. They take no memory, so that want of memory can be told too.
ghost use Rattle.std.specs.Prelude.{◌≡◌};
ghost use Rattle.outside_io.specs.Notices.{notice_text, word_of};
ghost use Rattle.outside_io.specs.Pieces.{text_of};

use crate::pieces::Piece;

/// Why there is no result, by the words of the SZS ontology.
#[derive(Clone, Copy, Debug, PartialEq, Eq)]
pub enum Status {
    /// A text is not read.
    SyntaxError,
    /// A text is of a language, or has a feature, that is not the program's.
    Inappropriate,
    /// A file is absent, too long, or not one that is asked for.
    InputError,
    /// A file could not be read.
    OsError,
    /// The words of the command line are not read.
    UsageError,
    /// A budget ran out.
    ResourceOut,
    /// Memory was wanted and not given.
    MemoryOut,
}

impl Status {
    fn word(self) -> &'static [u8]
        ensures { result.now ≡ word_of self }
    {
        match self {
            Status::SyntaxError => b"SyntaxError",
            Status::Inappropriate => b"Inappropriate",
            Status::InputError => b"InputError",
            Status::OsError => b"OSError",
            Status::UsageError => b"UsageError",
            Status::ResourceOut => b"ResourceOut",
            Status::MemoryOut => b"MemoryOut",
        }
    }
}

/// The pieces of a line. Pieces that are left over have no bytes, here and below.
pub type Line<'a> = [Piece<'a>; 7];

/// The pieces of an answer.
pub type Pieces<'a> = [Piece<'a>; 12];

/// The text as a line.
pub fn text_line(text: &[u8]) -> Line<'_>
    ensures { text_of result ≡ text.now }
{
    let none = Piece::Text(b"");
    [Piece::Text(text), none, none, none, none, none, none]
}

/// The line alone.
pub fn one_line(line: Line<'_>) -> Pieces<'_>
    ensures { text_of result ≡ text_of line.entry }
{
    let [a, b, c, d, e, f, g] = line;
    let none = Piece::Text(b"");
    [a, b, c, d, e, f, g, none, none, none, none, none]
}

/// The text alone, which is whole already.
pub fn whole_text(text: &[u8]) -> Pieces<'_>
    ensures { text_of result ≡ text.now }
{
    let none = Piece::Text(b"");
    [
        Piece::Text(text),
        none,
        none,
        none,
        none,
        none,
        none,
        none,
        none,
        none,
        none,
        none,
    ]
}

/// The line that tells the status of what has this name, and behind it the line that tells the reason.
pub fn notice<'a>(status: Status, name: &'a [u8], reason: Line<'a>) -> Pieces<'a>
    ensures { text_of result ≡ notice_text status name.now (text_of reason.entry) }
{
    let [a, b, c, d, e, f, g] = reason;
    [
        Piece::Text(b"% SZS status "),
        Piece::Text(status.word()),
        Piece::Text(b" for "),
        Piece::Text(name),
        Piece::Text(b"\n"),
        a,
        b,
        c,
        d,
        e,
        f,
        g,
    ]
}
