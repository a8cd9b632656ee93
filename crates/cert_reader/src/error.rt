// Why a text gives no certificate: its first bad line, a format that is not read, or want of memory.
ghost use Rattle.std.specs.Prelude.{◌≡◌};
ghost use Rattle.cert_reader.specs.declared.error.CertError.TheVariants as errors;

use inst_logic::{Memory, Name};
use thiserror::Error;

/// Why a text gives no certificate.
#[derive(Debug, Drop, Error)]
pub enum CertError {
    /// This line is the first that stands there in the text of no certificate. Lines count from 1; where the text ends too early
    /// it is the line behind the last whole one.
    #[error("line {line} is not one of a certificate")]
    Syntax { line: usize },
    /// The text begins as one of a certificate, in a format that is not read: these are the digits of its number.
    #[error("the certificate is of another format")]
    Version { word: Name },
    /// Memory was wanted and not given.
    #[error("out of memory")]
    Memory,
}

impl From<Memory> for CertError {
    ghost from_gives = { λ _ e. e ≡ errors.Memory };

    fn from(_e: Memory) -> CertError {
        CertError::Memory
    }
}
