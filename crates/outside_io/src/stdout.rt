// Standard output, without a buffer: what is written here is whole before its first byte.
ghost use Rattle.std.specs.Prelude.{◌≡◌, ◌≢◌, ◌≤◌, ◌<◌, IfOk, IsTrue, OnOk, None, length};
ghost use Rattle.std.specs.Io.{WritesAtMost};
ghost use Rattle.std.specs.Io.KnownBytes.{WriteAppends};
ghost use Rattle.outside_io.specs.Causes.{Rose, one_more};
ghost use Rattle.outside_io.specs.RealFiles.{real_seen};

use crate::library::Trouble;
use crate::sink::Sink;
use std::marker::Model;

/// Standard output. It tells nothing of what it took. Contracts see the count of its errors, which rises by one at each.
#[derive(Drop)]
pub struct OutSink<'a, R: Print> {
    rt: &'a R,
    faults: u64,
}

impl<'a, R: Print> Model for OutSink<'a, R> {
    ghost use Rattle.std.specs.Prelude.{ℕ};

    ghost Value = { ℕ };

    ghost view = { λ a. a.faults };
}

impl<'a, R: Print> OutSink<'a, R> {
    /// Nothing is written yet.
    pub fn new(rt: &'a R) -> OutSink<'a, R>
        ensures { result ≡ 0 }
    {
        OutSink { rt, faults: 0 }
    }
}

impl<R: Print> Sink for OutSink<'_, R> {
    ghost seen = { real_seen };

    fn write(&mut self, piece: &[u8]) -> Result<usize, Trouble>
        ensures bound { WritesAtMost result piece.now }
        ensures untold { WriteAppends None None result piece.now }
        ensures some { IfOk result (λ n. 0 < length piece.now → 0 < n) }
        ensures later { self.old ≤ self.new }
        ensures failed { result ≡ Err Trouble.Failed → Rose self.old self.new }
        ensures one { result ≡ Err Trouble.Failed → self.new ≡ one_more self.old }
        ensures same { OnOk result (self.new ≡ self.old) }
        ensures memory { result ≡ Err Trouble.Memory → IsTrue (real_seen self.old).may_want }
        ensures no_fault { result ≡ Err Trouble.Memory → self.new ≡ self.old }
        ensures no_memory { result ≢ Err Trouble.Memory }
    {
        match self.rt.write_some(piece) {
            Ok(count) if count > 0 || piece.is_empty() => Ok(count),
            _ => {
                self.faults = self.faults.saturating_add(1);
                Err(Trouble::Failed)
            }
        }
    }
}
