// A file, read whole, in blocks. A short read is not its end; only a read of nothing is.
ghost use Rattle.std.specs.Prelude.{◌+◌, IfOk, IfErr, length};
ghost use Rattle.std.specs.Io.KnownBytes.{IsAtEnd};
ghost use Rattle.outside_io.specs.Causes.{RisesAtMost};
ghost use Rattle.outside_io.specs.Told.{Follows};
ghost use Rattle.outside_io.specs.WholeFiles.{IsCutOff, IsHeld, IsUnread, IsWhole};

use crate::library::{Library, Trouble};
use std::alloc::Global;

/// Why a file was not read whole.
#[derive(Clone, Copy, Debug, PartialEq, Eq)]
pub enum FileError {
    /// There is no such file.
    Absent,
    /// The file has more bytes than the limit.
    TooLong,
    /// A call of the library failed.
    ReadFault,
    /// Memory was wanted and not given.
    Memory,
}

// How many bytes are asked for at once.
const ROOM: usize = 65_536;

// Reads the rest of the file that was begun.
fn read_rest<L: Library>(alloc: Global, files: &mut L, limit: usize) -> Result<Vec<u8>, FileError>
    ensures follows { Follows (L.told files.old) (L.told files.new) }
    ensures reads { RisesAtMost (limit + 1) (L.reads files.old) (L.reads files.new) }
    ensures one_a_byte { IfOk result (λ bytes. RisesAtMost (length bytes.items + 1) (L.reads files.old) (L.reads files.new)) }
    ensures ok { IfOk result (λ bytes. IsWhole limit (L.told files.old).rest bytes.items) }
    ensures err { IfErr result (IsCutOff limit (L.told files.old) (L.told files.new)) }
{
    let mut bytes = Vec::new(alloc);
    let mut room = [0u8; ROOM];
    loop {
        let Ok(count) = files.read(&mut room) else {
            return Err(FileError::ReadFault);
        };
        if count == 0 {
            return Ok(bytes);
        }
        if count > limit - bytes.len() {
            return Err(FileError::TooLong);
        }
        if bytes.extend_from_slice(&room[..count]).is_err() {
            return Err(FileError::Memory);
        }
    }
}

/// All bytes of the file of this name, of which there are at most `limit`. Each read but the last takes a byte at least.
pub fn read_whole<L: Library>(
    alloc: Global,
    files: &mut L,
    name: &str,
    limit: usize,
) -> Result<Vec<u8>, FileError>
    ensures follows { Follows (L.told files.old) (L.told files.new) }
    ensures finished { IsAtEnd (L.told files.new).rest }
    ensures reads { RisesAtMost (limit + 1) (L.reads files.old) (L.reads files.new) }
    ensures one_a_byte { IfOk result (λ bytes. RisesAtMost (length bytes.items + 1) (L.reads files.old) (L.reads files.new)) }
    ensures ok { IfOk result (λ bytes. IsHeld limit (L.told files.old).files name.now bytes.items) }
    ensures err { IfErr result (IsUnread limit (L.told files.old) (L.told files.new) name.now) }
{
    match files.begin(name) {
        Ok(true) => {
            let bytes = read_rest(alloc, files, limit);
            files.finish();
            bytes
        }
        Ok(false) => Err(FileError::Absent),
        Err(Trouble::Failed) => Err(FileError::ReadFault),
        Err(Trouble::Memory) => Err(FileError::Memory),
    }
}
