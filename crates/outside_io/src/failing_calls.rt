// Which calls of a device in memory fail: those of the numbers that it is given, so that a test can have each call fail in
// turn.
ghost use Rattle.std.specs.Prelude.{◌≡◌};
ghost use Rattle.outside_io.specs.FailingCalls.{fails_next, after_call};

use inst_logic::ListOf;
use std::marker::Model;

/// Numbers of calls, counted from 1.
pub type CallList = ListOf<usize>;

// The calls so far, of which those that `fail` lists failed.
#[derive(Drop)]
pub struct FailingCalls {
    fail: CallList,
    calls: usize,
    faults: u64,
}

impl Model for FailingCalls {
    ghost use Rattle.outside_io.specs.FailingCalls.{FailingCalls};

    ghost Value = { FailingCalls };

    ghost view = { λ a. record { fail = a.fail; calls = a.calls; faults = a.faults } };
}

impl FailingCalls {
    // No call was made yet. The numbers count from 1.
    pub fn new(fail: CallList) -> FailingCalls
        ensures fail { result.fail ≡ fail }
        ensures calls { result.calls ≡ 0 }
        ensures faults { result.faults ≡ 0 }
    {
        FailingCalls {
            fail,
            calls: 0,
            faults: 0,
        }
    }

    // Counts one more call, and answers whether it is one that fails.
    pub fn count_call(&mut self) -> bool
        ensures fails { result ≡ fails_next self.old }
        ensures counted { self.new ≡ after_call self.old }
    {
        if self.calls == usize::MAX {
            return false;
        }
        self.calls += 1;
        let fails = self.fail.as_slice().contains(&self.calls);
        if fails {
            self.faults = self.faults.saturating_add(1);
        }
        fails
    }
}
