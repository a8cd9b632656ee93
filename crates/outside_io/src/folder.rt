// Real files. A missing one is an answer and no fault, so that an include can be looked for in two places; the count of
// faults tells every other error.
ghost use Rattle.std.specs.Prelude.{◌≡◌, ◌≢◌, ◌↔◌, IsTrue, IfOk, OnOk, OnErr, None, true, false};
ghost use Rattle.std.specs.Io.{ReadsAtMost};
ghost use Rattle.std.specs.Io.KnownBytes.{ReadConsumes};
ghost use Rattle.outside_io.specs.Causes.{Rose, one_more};
ghost use Rattle.outside_io.specs.Files.{Begins};
ghost use Rattle.outside_io.specs.RealFiles.{real_told};
ghost use Rattle.outside_io.specs.Told.{Follows};

use crate::library::{Failed, Library, Trouble};
use std::alloc::Global;
use std::fs;
use std::io::{ErrorKind, Read};
use std::marker::Model;
use std::rt::Files;

/// The files of the system, by their paths. It tells nothing of what they hold. Its count rises by one at each error.
#[derive(Drop)]
pub struct FolderLibrary<'a, R: Files> {
    rt: &'a R,
    file: Option<R::File>,
    faults: u64,
}

impl<'a, R: Files> Model for FolderLibrary<'a, R> {
    ghost use Rattle.std.specs.Prelude.{is_some};
    ghost use Rattle.outside_io.specs.RealFiles.{RealFiles};

    ghost Value = { RealFiles };

    ghost view = { λ a. record { begun = is_some a.file; faults = a.faults } };
}

impl<'a, R: Files> FolderLibrary<'a, R> {
    /// No file is begun.
    pub fn new(rt: &'a R, _alloc: Global) -> FolderLibrary<'a, R>
        ensures not_begun { result.begun ≡ false }
        ensures faults { result.faults ≡ 0 }
    {
        FolderLibrary {
            rt,
            file: None,
            faults: 0,
        }
    }
}

impl<R: Files> Library for FolderLibrary<'_, R> {
    ghost told = { real_told };

    ghost reads = { λ files. None };

    fn begin(&mut self, name: &str) -> Result<bool, Trouble>
        ensures untold { IfOk result (Begins None name.now None) }
        ensures begun { IsTrue self.new.begun ↔ (result ≡ Ok true) }
        ensures follows { Follows (real_told self.old) (real_told self.new) }
        ensures failed { result ≡ Err Trouble.Failed → Rose self.old.faults self.new.faults }
        ensures one { result ≡ Err Trouble.Failed → self.new.faults ≡ one_more self.old.faults }
        ensures same { result ≢ Err Trouble.Failed → self.new.faults ≡ self.old.faults }
    {
        self.file = None;
        match fs::open(self.rt, name) {
            Ok(file) => {
                self.file = Some(file);
                Ok(true)
            }
            // a missing file is an answer, and want of memory is no fault
            Err(error) => match error.kind() {
                ErrorKind::NotFound => Ok(false),
                ErrorKind::OutOfMemory => Err(Trouble::Memory),
                _ => {
                    self.faults = self.faults.saturating_add(1);
                    Err(Trouble::Failed)
                }
            },
        }
    }

    fn read(&mut self, buf: &mut [u8]) -> Result<usize, Failed>
        ensures bound { ReadsAtMost result buf.new }
        ensures untold { ReadConsumes None None result buf.new }
        ensures begun { self.new.begun ≡ self.old.begun }
        ensures not_begun { self.old.begun ≡ false → result ≡ Ok 0 }
        ensures follows { Follows (real_told self.old) (real_told self.new) }
        ensures failed { OnErr result (Rose self.old.faults self.new.faults) }
        ensures one { OnErr result (self.new.faults ≡ one_more self.old.faults) }
        ensures same { OnOk result (self.new.faults ≡ self.old.faults) }
    {
        let Some(file) = &mut self.file else {
            return Ok(0);
        };
        match file.read(buf) {
            Ok(count) => Ok(count),
            Err(_) => {
                self.faults = self.faults.saturating_add(1);
                Err(Failed)
            }
        }
    }

    fn finish(&mut self)
        ensures not_begun { self.new.begun ≡ false }
        ensures follows { Follows (real_told self.old) (real_told self.new) }
        ensures same { self.new.faults ≡ self.old.faults }
    {
        self.file = None;
    }
}
