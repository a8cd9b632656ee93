// Devices in memory of which no call fails: with these the answer of the program is told by its words and files alone.
ghost use Rattle.std.specs.Prelude.{◌≡◌, ◌≢◌, IsOk, IfOk, [], Some, true, length, min};
ghost use Rattle.std.specs.Io.{ReadsAtMost};
ghost use Rattle.std.specs.Io.KnownBytes.{ReadConsumes, WriteAppends};
ghost use Rattle.outside_io.specs.Causes.{one_more};
ghost use Rattle.outside_io.specs.Files.{Begins};

use crate::file_reader::FileReader;
use crate::library::{Failed, FileList, Library, Trouble};
use crate::sink::Sink;
use std::alloc::Global;
use std::marker::Model;

/// Files in memory, of which no call fails.
#[derive(Drop)]
pub struct SureLibrary {
    reader: FileReader,
}

impl Model for SureLibrary {
    ghost use Rattle.outside_io.specs.InMemory.{Reading};

    ghost Value = { Reading };

    ghost view = { λ a. a.reader };
}

impl SureLibrary {
    /// No file is begun.
    pub fn new(_alloc: Global, files: FileList) -> SureLibrary
        ensures files { result.files ≡ files }
        ensures rest { result.rest ≡ [] }
        ensures reads { result.reads ≡ 0 }
    {
        SureLibrary {
            reader: FileReader::new(files),
        }
    }
}

impl Library for SureLibrary {
    ghost told = { λ s. record { files = Some s.files; rest = Some s.rest; faults = 0 } };

    ghost reads = { λ s. Some s.reads };

    fn begin(&mut self, name: &str) -> Result<bool, Trouble>
        ensures files { self.new.files ≡ self.old.files }
        ensures ok { IsOk result }
        ensures begun { IfOk result (Begins (Some self.old.files) name.now (Some self.new.rest)) }
        ensures not_begun { result ≢ Ok true → self.new.rest ≡ [] }
        ensures reads { self.new.reads ≡ self.old.reads }
    {
        Ok(self.reader.begin(name))
    }

    fn read(&mut self, buf: &mut [u8]) -> Result<usize, Failed>
        ensures files { self.new.files ≡ self.old.files }
        ensures ok { IsOk result }
        ensures bound { ReadsAtMost result buf.new }
        ensures count { IfOk result (λ n. n ≡ min (length self.old.rest) (length buf.new)) }
        ensures bytes { ReadConsumes (Some self.old.rest) (Some self.new.rest) result buf.new }
        ensures reads { self.new.reads ≡ one_more self.old.reads }
    {
        Ok(self.reader.read(usize::MAX, buf))
    }

    fn finish(&mut self) {
        self.reader.finish();
    }
}

/// Bytes in memory. Contracts see the list of those taken.
#[derive(Drop)]
pub struct SureSink {
    bytes: Vec<u8>,
}

impl Model for SureSink {
    ghost use Rattle.std.specs.Prelude.{ℕ, List};

    ghost Value = { List ℕ };

    ghost view = { λ a. a.bytes.items };
}

impl SureSink {
    /// Nothing is taken yet.
    pub fn new(alloc: Global) -> SureSink
        ensures { result ≡ [] }
    {
        SureSink {
            bytes: Vec::new(alloc),
        }
    }

    /// What was taken.
    pub fn bytes(&self) -> &[u8]
        ensures { result.now ≡ self.now }
    {
        self.bytes.as_slice()
    }
}

impl Sink for SureSink {
    ghost seen = { λ s. record { taken = Some s; faults = 0; may_want = true } };

    fn write(&mut self, piece: &[u8]) -> Result<usize, Trouble>
        ensures whole { IfOk result (λ n. n ≡ length piece.now) }
        ensures taken { WriteAppends (Some self.old) (Some self.new) result piece.now }
        ensures failed { result ≢ Err Trouble.Failed }
    {
        match self.bytes.extend_from_slice(piece) {
            Ok(()) => Ok(piece.len()),
            Err(_) => Err(Trouble::Memory),
        }
    }
}
