// Files, read whole, up to what is left of the bytes of the problem.
ghost use Rattle.std.specs.Prelude.{◌≡◌, ◌≤◌, IfOk, IfErr};
ghost use Rattle.outside_io.specs.Told.{Follows};
ghost use Rattle.tptp_load.specs.Loading.{limit};
ghost use Rattle.tptp_load.specs.Reading.{IsHeld, IsUnread};

use crate::error::LoadError;
use inst_logic::ByteList;
use outside_io::{FileError, Library, read_whole};
use std::alloc::Global;

// The most bytes over all files.
const LIMIT: usize = 16_777_216;

// All bytes of the file of this name, or none where it is absent. So many bytes were read before it.
pub(crate) fn read_named<L: Library>(
    alloc: Global,
    name: &str,
    used: usize,
    files: &mut L,
) -> Result<Option<ByteList>, LoadError>
    requires used { used ≤ limit }
    ensures follows { Follows (L.told files.old) (L.told files.new) }
    ensures ok { IfOk result (IsHeld (L.told files.old).files name.now used) }
    ensures err { IfErr result (λ why. IsUnread (L.told files.old).files (L.told files.old).faults (L.told files.new).faults name.now used why) }
{
    match read_whole(alloc, files, name, LIMIT - used) {
        Ok(bytes) => Ok(Some(ByteList::from(bytes))),
        Err(FileError::Absent) => Ok(None),
        Err(FileError::TooLong) => Err(LoadError::TooLong),
        Err(FileError::ReadFault) => Err(LoadError::ReadFault),
        Err(FileError::Memory) => Err(LoadError::Memory),
    }
}
