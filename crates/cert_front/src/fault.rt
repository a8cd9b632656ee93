// Why a file gives no certificate, or not one of the form that is asked.
ghost use Rattle.std.specs.Prelude.{◌≡◌};
ghost use Rattle.cert_front.specs.Faults.{fault_of_file, fault_of_text};
ghost use Rattle.cert_front.specs.declared.fault.CertFault.TheVariants as faults;

use cert_reader::CertError;
use inst_logic::{Memory, Name};
use outside_io::FileError;
use thiserror::Error;

/// Why a file gives no certificate, or not one of the form that is asked.
#[derive(Debug, Drop, Error)]
pub enum CertFault {
    /// There is no such file.
    #[error("the file is absent")]
    Absent,
    /// The file has more than 268,435,456 bytes.
    #[error("the file is too long")]
    TooLong,
    /// A call of the library failed.
    #[error("a read failed")]
    ReadFault,
    /// This line is the first that stands there in the text of no certificate, counted from 1.
    #[error("line {line} is not one of a certificate")]
    Syntax { line: usize },
    /// The certificate is of another format: these are the digits of its number.
    #[error("the certificate is of another format")]
    Version { word: Name },
    /// The certificate is a refutation, and only a saturation can be asked for an atom.
    #[error("the certificate is no saturation")]
    NoSaturation,
    /// Memory was wanted and not given.
    #[error("out of memory")]
    Memory,
}

impl From<Memory> for CertFault {
    ghost from_gives = { λ _ e. e ≡ faults.Memory };

    fn from(_e: Memory) -> CertFault {
        CertFault::Memory
    }
}

// Why the bytes of a file were not read.
pub(crate) fn of_file(error: FileError) -> CertFault
    ensures { result ≡ fault_of_file error }
{
    match error {
        FileError::Absent => CertFault::Absent,
        FileError::TooLong => CertFault::TooLong,
        FileError::ReadFault => CertFault::ReadFault,
        FileError::Memory => CertFault::Memory,
    }
}

// Why a text is not read.
pub(crate) fn of_text(error: CertError) -> CertFault
    ensures { result ≡ fault_of_text error }
{
    match error {
        CertError::Syntax { line } => CertFault::Syntax { line },
        CertError::Version { word } => CertFault::Version { word },
        CertError::Memory => CertFault::Memory,
    }
}
