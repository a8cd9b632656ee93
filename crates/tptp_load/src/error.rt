// Why a file gives no problem. Want of memory is one case here, wherever it comes from: it is no fault of a text, and needs
// no name of a file.
ghost use Rattle.std.specs.Prelude.{◌≡◌};
ghost use Rattle.tptp_load.specs.declared.error.LoadError.TheVariants as errors;

use inst_logic::{Memory, Name};
use thiserror::Error;
use tptp_read::ReadError;

/// Why a file gives no problem.
#[derive(Debug, Drop, Error)]
pub enum LoadError {
    /// A statement of the file is not read. The file has the name under which it was begun, and the fault is never want of memory.
    #[error("a statement is not read")]
    Text { file: Name, fault: ReadError },
    /// There is no such file. The name is that of the include.
    #[error("a file is absent")]
    Absent { wanted: Name },
    /// A name that an include selects is that of no statement of the included file. The file has the name that the include has.
    #[error("a selected statement is absent")]
    NotSelected { file: Name, wanted: Name },
    /// An include at the seventeenth level. The file has the name that the include has.
    #[error("includes are too deep")]
    IncludeDepth { file: Name },
    /// More than 16,777,216 bytes over all files, each reading counted.
    #[error("the files are too long")]
    TooLong,
    /// A call of the library failed.
    #[error("a read failed")]
    ReadFault,
    /// Memory was wanted and not given.
    #[error("out of memory")]
    Memory,
}

impl From<Memory> for LoadError {
    ghost from_gives = { λ _ e. e ≡ errors.Memory };

    fn from(_e: Memory) -> LoadError {
        LoadError::Memory
    }
}
