// Where files are read from: one at a time, in pieces. A call that gave a whole file would have no place for a read that
// fails in mid-stream, and would take memory of a size that its caller does not know.
ghost use Rattle.std.specs.Prelude.{ℕ, Option, ◌≡◌, ◌≢◌, true, IfOk, OnErr};
ghost use Rattle.std.specs.Io.{ReadsAtMost};
ghost use Rattle.std.specs.Io.KnownBytes.{ReadConsumes, IsAtEnd};
ghost use Rattle.outside_io.specs.Causes.{Rose, RisesByOne};
ghost use Rattle.outside_io.specs.Files.{Begins};
ghost use Rattle.outside_io.specs.Told.{Told, Follows};

use inst_logic::{ByteList, ListOf, Name};

/// A read that failed.
#[derive(Clone, Copy, Debug, PartialEq, Eq)]
pub struct Failed;

/// Why a file was not begun, or bytes were not taken. `Memory` is want of memory and means nothing else.
#[derive(Clone, Copy, Debug, PartialEq, Eq)]
pub enum Trouble {
    Failed,
    Memory,
}

/// A file with its name.
#[derive(Drop, Debug)]
pub struct NamedFile {
    pub name: Name,
    pub bytes: ByteList,
}

/// Of two files with one name the first counts.
pub type FileList = ListOf<NamedFile>;

/// Files by their names, of which one at a time is read.
///
/// What a library has `told` is what its files hold and what is left of the one that was begun, where these are told, and the
/// number of calls that failed. Nothing is left where no file is begun. The number never falls, and one that stands at u64::MAX
/// need not rise. How many `reads` there were is told by some, up to u64::MAX.
pub trait Library {
    ghost told: { Self → Told };

    ghost reads: { Self → Option ℕ };

    /// Finishes a file that was begun before, and begins the one of this name. `Ok(false)`: there is none.
    fn begin(&mut self, name: &str) -> Result<bool, Trouble>
        ensures follows { Follows (told self.old) (told self.new) }
        ensures begun { IfOk result (Begins (told self.old).files name.now (told self.new).rest) }
        ensures not_begun { result ≢ Ok true → IsAtEnd (told self.new).rest }
        ensures reads { reads self.new ≡ reads self.old }
        ensures failed { result ≡ Err Trouble.Failed → Rose (told self.old).faults (told self.new).faults };

    /// Puts the next bytes at the front of `buf`, and answers how many. `Ok(0)` with room: the end of the file, or no
    /// file is begun.
    fn read(&mut self, buf: &mut [u8]) -> Result<usize, Failed>
        ensures follows { Follows (told self.old) (told self.new) }
        ensures bound { ReadsAtMost result buf.new }
        ensures bytes { ReadConsumes (told self.old).rest (told self.new).rest result buf.new }
        ensures reads { RisesByOne (reads self.old) (reads self.new) }
        ensures failed { OnErr result (Rose (told self.old).faults (told self.new).faults) };

    /// Leaves no file begun.
    fn finish(&mut self)
        ensures follows { Follows (told self.old) (told self.new) }
        ensures reads { reads self.new ≡ reads self.old }
        ensures not_begun { IsAtEnd (told self.new).rest };
}
