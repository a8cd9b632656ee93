// Bytes in memory, of which chosen writes fail and each write is short: what a real output may do at any call is done here at
// the calls that a test names.
ghost use Rattle.std.specs.Prelude.{◌≡◌, ◌<◌, ◌↔◌, IsTrue, IfOk, Some, [], true, length, min};
ghost use Rattle.std.specs.Io.KnownBytes.{WriteAppends};
ghost use Rattle.outside_io.specs.FailingCalls.{fails_next, after_call};

use crate::failing_calls::{CallList, FailingCalls};
use crate::library::Trouble;
use crate::sink::Sink;
use std::alloc::Global;
use std::marker::Model;

/// Bytes in memory. The writes that `fail` lists, counted from 1, answer Failed, and a write takes at most `most`
/// bytes. After usize::MAX writes none fails.
#[derive(Drop)]
pub struct MemSink {
    bytes: Vec<u8>,
    most: usize,
    failing: FailingCalls,
}

impl Model for MemSink {
    ghost use Rattle.std.specs.Prelude.{◌<◌};
    ghost use Rattle.outside_io.specs.InMemory.{LimitedWriting};

    ghost Value = { LimitedWriting };

    ghost view = { λ a. record { taken = a.bytes.items; most = a.most; failing = a.failing } };

    ghost invariant = { λ a. 0 < a.most };
}

impl MemSink {
    /// A write takes at most `most` bytes, which is at least 1. `fail` has the numbers of the calls that fail, from 1.
    pub fn new(alloc: Global, most: usize, fail: CallList) -> MemSink
        requires { 0 < most }
        ensures taken { result.taken ≡ [] }
        ensures most { result.most ≡ most }
        ensures fail { result.failing.fail ≡ fail }
        ensures calls { result.failing.calls ≡ 0 }
        ensures faults { result.failing.faults ≡ 0 }
    {
        MemSink {
            bytes: Vec::new(alloc),
            most,
            failing: FailingCalls::new(fail),
        }
    }

    /// What was taken.
    pub fn bytes(&self) -> &[u8]
        ensures { result.now ≡ self.now.taken }
    {
        self.bytes.as_slice()
    }
}

impl Sink for MemSink {
    ghost seen = { λ s. record { taken = Some s.taken; faults = s.failing.faults; may_want = true } };

    fn write(&mut self, piece: &[u8]) -> Result<usize, Trouble>
        ensures count { IfOk result (λ n. n ≡ min (length piece.now) self.old.most) }
        ensures taken { WriteAppends (Some self.old.taken) (Some self.new.taken) result piece.now }
        ensures some { IfOk result (λ n. 0 < length piece.now → 0 < n) }
        ensures failed { result ≡ Err Trouble.Failed ↔ IsTrue (fails_next self.old.failing) }
        ensures counted { self.new.failing ≡ after_call self.old.failing }
        ensures most { self.new.most ≡ self.old.most }
    {
        if self.failing.count_call() {
            return Err(Trouble::Failed);
        }
        let count = piece.len().min(self.most);
        match self.bytes.extend_from_slice(&piece[..count]) {
            Ok(()) => Ok(count),
            Err(_) => Err(Trouble::Memory),
        }
    }
}
