// What is told of a file that gives no answer.
ghost use Rattle.std.specs.Prelude.{◌≡◌, [], ◌∷◌, codes, decimal};
ghost use Rattle.std.specs.List.{concat};
ghost use Rattle.outside_io.specs.Pieces.{bytes_of, text_of};
ghost use Rattle.dimacs_front.specs.Notices.{fault_reason, fault_status, refusal_reason, refusal_status};

use crate::error::DimacsError;
use crate::file::SatError;
use outside_io::{Line, Piece, Status, text_line};

// A line that names the line of a text.
fn place_line<'a>(lead: &'a [u8], line: usize, name: &'a [u8]) -> Line<'a>
    ensures { text_of result ≡ concat (lead.now ∷ decimal line ∷ codes " of " ∷ name.now ∷ codes "\n" ∷ []) }
{
    let none = Piece::Text(b"");
    [
        Piece::Text(lead),
        Piece::Number(line as u64),
        Piece::Text(b" of "),
        Piece::Text(name),
        Piece::Text(b"\n"),
        none,
        none,
    ]
}

// A line with a word behind its lead.
fn word_line<'a>(lead: &'a [u8], word: Piece<'a>) -> Line<'a>
    ensures { text_of result ≡ concat (lead.now ∷ bytes_of word.entry ∷ codes "\n" ∷ []) }
{
    let none = Piece::Text(b"");
    [
        Piece::Text(lead),
        word,
        Piece::Text(b"\n"),
        none,
        none,
        none,
        none,
    ]
}

impl DimacsError {
    fn status(self) -> Status
        ensures { result ≡ fault_status self }
    {
        match self {
            DimacsError::Syntax { .. } => Status::SyntaxError,
            DimacsError::Range { .. }
            | DimacsError::Count { .. }
            | DimacsError::Limit
            | DimacsError::Twice { .. } => Status::InputError,
            DimacsError::Memory => Status::MemoryOut,
        }
    }

    fn reason(self, name: &[u8]) -> Line<'_>
        ensures { text_of result ≡ fault_reason name.now self }
    {
        match self {
            DimacsError::Syntax { line } => place_line(b"% syntax: line ", line, name),
            DimacsError::Range { line } => place_line(b"% literal: line ", line, name),
            DimacsError::Count { found } => word_line(b"% clauses ", Piece::Number(found as u64)),
            DimacsError::Limit => text_line(b"% limit variables\n"),
            DimacsError::Twice { line } => { place_line(b"% quantified twice: line ", line, name) }
            DimacsError::Memory => text_line(b""),
        }
    }
}

impl SatError {
    /// The status that is told.
    pub fn status(self) -> Status
        ensures { result ≡ refusal_status self }
    {
        match self {
            SatError::Absent | SatError::TooLong => Status::InputError,
            SatError::ReadFault => Status::OsError,
            SatError::Text(fault) => fault.status(),
            SatError::Memory => Status::MemoryOut,
        }
    }

    /// The line that tells the reason, where the file has this name. Want of memory has none.
    pub fn reason(self, name: &[u8]) -> Line<'_>
        ensures { text_of result ≡ refusal_reason name.now self }
    {
        match self {
            SatError::Absent => word_line(b"% absent: ", Piece::Text(name)),
            SatError::TooLong => text_line(b"% limit bytes\n"),
            SatError::ReadFault => text_line(b"% read fault\n"),
            SatError::Text(fault) => fault.reason(name),
            SatError::Memory => text_line(b""),
        }
    }
}
