// What is told of a fault.
ghost use Rattle.std.specs.Prelude.{◌≡◌};
ghost use Rattle.outside_io.specs.Pieces.{text_of};
ghost use Rattle.cert_front.specs.Texts.{fault_reason, fault_status};

use crate::fault::CertFault;
use outside_io::{Line, Piece, Status};

impl CertFault {
    /// The status that is told.
    pub fn status(&self) -> Status
        ensures { result ≡ fault_status self.now }
    {
        match self {
            CertFault::Absent
            | CertFault::TooLong
            | CertFault::Version { .. }
            | CertFault::NoSaturation => Status::InputError,
            CertFault::ReadFault => Status::OsError,
            CertFault::Syntax { .. } => Status::SyntaxError,
            CertFault::Memory => Status::MemoryOut,
        }
    }

    /// The line that tells the reason, where the file has this name. Want of memory has none.
    pub fn reason<'a>(&'a self, name: &'a [u8]) -> Line<'a>
        ensures { text_of result ≡ fault_reason name.now self.now }
    {
        let none = Piece::Text(b"");
        let name = Piece::Text(name);
        let end = Piece::Text(b"\n");
        match self {
            CertFault::Absent => [
                Piece::Text(b"% absent: "),
                name,
                end,
                none,
                none,
                none,
                none,
            ],
            CertFault::TooLong => [
                Piece::Text(b"% limit bytes\n"),
                none,
                none,
                none,
                none,
                none,
                none,
            ],
            CertFault::ReadFault => [
                Piece::Text(b"% read fault\n"),
                none,
                none,
                none,
                none,
                none,
                none,
            ],
            CertFault::Syntax { line } => [
                Piece::Text(b"% syntax: line "),
                Piece::Number(*line as u64),
                Piece::Text(b" of "),
                name,
                end,
                none,
                none,
            ],
            CertFault::Version { word } => [
                Piece::Text(b"% version: "),
                Piece::Text(word.bytes()),
                end,
                none,
                none,
                none,
                none,
            ],
            CertFault::NoSaturation => [
                Piece::Text(b"% no saturation: "),
                name,
                end,
                none,
                none,
                none,
                none,
            ],
            CertFault::Memory => [none, none, none, none, none, none, none],
        }
    }
}
