// Files in memory, of which chosen calls fail and each read is short: what a real library may do at any call is done here at
// the calls that a test names.
ghost use Rattle.std.specs.Prelude.{◌≡◌, ◌≢◌, ◌<◌, ◌↔◌, IsTrue, IsErr, IfOk, Some, [], true, length, min};
ghost use Rattle.std.specs.Io.{ReadsAtMost};
ghost use Rattle.std.specs.Io.KnownBytes.{ReadConsumes};
ghost use Rattle.outside_io.specs.Causes.{one_more};
ghost use Rattle.outside_io.specs.FailingCalls.{fails_next, after_call};
ghost use Rattle.outside_io.specs.Files.{Begins};

use crate::failing_calls::{CallList, FailingCalls};
use crate::file_reader::FileReader;
use crate::library::{Failed, FileList, Library, Trouble};
use std::alloc::Global;
use std::marker::Model;

/// Files in memory. The calls of `begin` and `read` that `fail` lists, counted together from 1, answer Failed, and a
/// read gives at most `most` bytes. After usize::MAX calls none fails.
#[derive(Drop)]
pub struct MemLibrary {
    reader: FileReader,
    most: usize,
    failing: FailingCalls,
}

impl Model for MemLibrary {
    ghost use Rattle.std.specs.Prelude.{◌<◌};
    ghost use Rattle.outside_io.specs.InMemory.{LimitedReading};

    ghost Value = { LimitedReading };

    ghost view = { λ a. record { files = a.reader.files; rest = a.reader.rest; reads = a.reader.reads; most = a.most; failing = a.failing } };

    ghost invariant = { λ a. 0 < a.most };
}

impl MemLibrary {
    /// A read gives at most `most` bytes, which is at least 1. `fail` has the numbers of the calls of `begin` and `read`, counted
    /// together from 1, that fail.
    pub fn new(_alloc: Global, files: FileList, most: usize, fail: CallList) -> MemLibrary
        requires { 0 < most }
        ensures files { result.files ≡ files }
        ensures rest { result.rest ≡ [] }
        ensures reads { result.reads ≡ 0 }
        ensures most { result.most ≡ most }
        ensures fail { result.failing.fail ≡ fail }
        ensures calls { result.failing.calls ≡ 0 }
        ensures faults { result.failing.faults ≡ 0 }
    {
        MemLibrary {
            reader: FileReader::new(files),
            most,
            failing: FailingCalls::new(fail),
        }
    }
}

impl Library for MemLibrary {
    ghost told = { λ s. record { files = Some s.files; rest = Some s.rest; faults = s.failing.faults } };

    ghost reads = { λ s. Some s.reads };

    fn begin(&mut self, name: &str) -> Result<bool, Trouble>
        ensures files { self.new.files ≡ self.old.files }
        ensures begun { IfOk result (Begins (Some self.old.files) name.now (Some self.new.rest)) }
        ensures not_begun { result ≢ Ok true → self.new.rest ≡ [] }
        ensures failed { result ≡ Err Trouble.Failed ↔ IsTrue (fails_next self.old.failing) }
        ensures memory { result ≢ Err Trouble.Memory }
        ensures reads { self.new.reads ≡ self.old.reads }
        ensures counted { self.new.failing ≡ after_call self.old.failing }
        ensures most { self.new.most ≡ self.old.most }
    {
        let fails = self.failing.count_call();
        if fails {
            self.reader.finish();
            return Err(Trouble::Failed);
        }
        Ok(self.reader.begin(name))
    }

    fn read(&mut self, buf: &mut [u8]) -> Result<usize, Failed>
        ensures files { self.new.files ≡ self.old.files }
        ensures bound { ReadsAtMost result buf.new }
        ensures count { IfOk result (λ n. n ≡ min (min (length self.old.rest) self.old.most) (length buf.new)) }
        ensures bytes { ReadConsumes (Some self.old.rest) (Some self.new.rest) result buf.new }
        ensures reads { self.new.reads ≡ one_more self.old.reads }
        ensures failed { IsErr result ↔ IsTrue (fails_next self.old.failing) }
        ensures counted { self.new.failing ≡ after_call self.old.failing }
        ensures most { self.new.most ≡ self.old.most }
    {
        if self.failing.count_call() {
            self.reader.count_read();
            return Err(Failed);
        }
        Ok(self.reader.read(self.most, buf))
    }

    fn finish(&mut self)
        ensures files { self.new.files ≡ self.old.files }
        ensures not_begun { self.new.rest ≡ [] }
        ensures reads { self.new.reads ≡ self.old.reads }
        ensures failing { self.new.failing ≡ self.old.failing }
        ensures most { self.new.most ≡ self.old.most }
    {
        self.reader.finish();
    }
}
