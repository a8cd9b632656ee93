// Where answers are written to. A write may take a part, as the system's does; one that takes nothing is a fault, so that
// writing ends.
ghost use Rattle.std.specs.Prelude.{◌≡◌, ◌≤◌, ◌<◌, IfOk, IsTrue, length};
ghost use Rattle.std.specs.Io.{WritesAtMost};
ghost use Rattle.std.specs.Io.KnownBytes.{WriteAppends};
ghost use Rattle.outside_io.specs.Causes.{Rose};
ghost use Rattle.outside_io.specs.Seen.{Seen, Writes};

use crate::library::Trouble;

/// What takes bytes.
///
/// What it has `seen` are the bytes taken so far, where these are told, the number of calls that failed, and whether a call may
/// want memory. The number never falls, and one that stands at u64::MAX need not rise.
pub trait Sink {
    ghost seen: { Self → Seen };

    /// Takes bytes from the front of `piece`, and answers how many.
    fn write(&mut self, piece: &[u8]) -> Result<usize, Trouble>
        ensures bound { WritesAtMost result piece.now }
        ensures taken { WriteAppends (seen self.old).taken (seen self.new).taken result piece.now }
        // where nothing of a piece that is not empty is taken, that is a fault
        ensures some { IfOk result (λ n. 0 < length piece.now → 0 < n) }
        ensures later { (seen self.old).faults ≤ (seen self.new).faults }
        ensures failed { result ≡ Err Trouble.Failed → Rose (seen self.old).faults (seen self.new).faults }
        ensures memory { result ≡ Err Trouble.Memory → IsTrue (seen self.old).may_want }
        ensures no_fault { result ≡ Err Trouble.Memory → (seen self.new).faults ≡ (seen self.old).faults }
        ensures may_want { (seen self.new).may_want ≡ (seen self.old).may_want };
}

/// Writes the whole piece, in as many calls as that takes. After an error a proper prefix of it was taken.
pub fn write_all<K: Sink>(out: &mut K, piece: &[u8]) -> Result<(), Trouble>
    ensures { Writes (K.seen out.old) (K.seen out.new) piece.now result }
{
    let mut done = 0;
    while done < piece.len() {
        done += out.write(&piece[done..])?;
    }
    Ok(())
}
