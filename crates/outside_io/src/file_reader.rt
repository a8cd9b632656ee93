// Files in memory, and where a reader of them stands: what both libraries in memory have in common.
ghost use Rattle.std.specs.Prelude.{◌≡◌, ◌≤◌, ◌<◌, ◌-◌, length, take, drop, min, Some, [], position, false};
ghost use Rattle.outside_io.specs.Causes.{one_more};
ghost use Rattle.outside_io.specs.Files.{Begins, bytes_at, is_named};

use crate::library::{FileList, NamedFile};
use std::marker::Model;

// The file at `place` is begun, and none where that is past the last; `done` bytes of it were read. So many `reads` there were.
#[derive(Drop)]
pub struct FileReader {
    files: FileList,
    place: usize,
    done: usize,
    reads: usize,
}

impl Model for FileReader {
    ghost use Rattle.std.specs.Prelude.{◌≤◌, length, drop};
    ghost use Rattle.outside_io.specs.Files.{bytes_at};
    ghost use Rattle.outside_io.specs.InMemory.{Reading};

    ghost Value = { Reading };

    ghost view = { λ a. record { files = a.files; rest = drop a.done (bytes_at a.files a.place); reads = a.reads } };

    ghost invariant = { λ a. a.done ≤ length (bytes_at a.files a.place) };
}

// The first file of this name.
fn place_of(files: &[NamedFile], name: &[u8]) -> Option<usize>
    ensures { result ≡ position (is_named name.now) files.now }
{
    files.iter().position(|file| file.name.bytes() == name)
}

// Puts the front of `from`, at most `most` bytes, at the front of `buf`, and answers how many.
fn put_front(from: &[u8], most: usize, buf: &mut [u8]) -> usize
    ensures count { result ≡ min (min (length from.now) most) (length buf.new) }
    ensures bytes { take result buf.new ≡ take result from.now }
{
    let count = from.len().min(most).min(buf.len());
    buf[..count].copy_from_slice(&from[..count]);
    count
}

// The bytes of the file at a place, and none past the last.
fn bytes_of(files: &[NamedFile], place: usize) -> &[u8]
    ensures { result.now ≡ bytes_at files.now place }
{
    match files.get(place) {
        Some(file) => file.bytes.as_slice(),
        None => &[],
    }
}

impl FileReader {
    // No file is begun.
    pub fn new(files: FileList) -> FileReader
        ensures files { result.files ≡ files }
        ensures rest { result.rest ≡ [] }
        ensures reads { result.reads ≡ 0 }
    {
        let place = files.len();
        FileReader {
            files,
            place,
            done: 0,
            reads: 0,
        }
    }

    // Whether there is a file of this name, which is then begun; else none is.
    pub fn begin(&mut self, name: &str) -> bool
        ensures files { self.new.files ≡ self.old.files }
        ensures begun { Begins (Some self.old.files) name.now (Some self.new.rest) result }
        ensures not_begun { result ≡ false → self.new.rest ≡ [] }
        ensures reads { self.new.reads ≡ self.old.reads }
    {
        match place_of(self.files.as_slice(), name.as_bytes()) {
            Some(place) => {
                self.done = 0;
                self.place = place;
                true
            }
            None => {
                self.finish();
                false
            }
        }
    }

    // Leaves no file begun.
    pub fn finish(&mut self)
        ensures files { self.new.files ≡ self.old.files }
        ensures rest { self.new.rest ≡ [] }
        ensures reads { self.new.reads ≡ self.old.reads }
    {
        self.done = 0;
        self.place = self.files.len();
    }

    // Counts a read, of which nothing comes.
    pub fn count_read(&mut self)
        ensures files { self.new.files ≡ self.old.files }
        ensures rest { self.new.rest ≡ self.old.rest }
        ensures reads { self.new.reads ≡ one_more self.old.reads }
    {
        self.reads = self.reads.saturating_add(1);
    }

    // Puts the next bytes, at most `most`, at the front of `buf`, and answers how many.
    pub fn read(&mut self, most: usize, buf: &mut [u8]) -> usize
        ensures files { self.new.files ≡ self.old.files }
        ensures count { result ≡ min (min (length self.old.rest) most) (length buf.new) }
        ensures bytes { take result buf.new ≡ take result self.old.rest }
        ensures rest { self.new.rest ≡ drop result self.old.rest }
        ensures reads { self.new.reads ≡ one_more self.old.reads }
    {
        self.count_read();
        let bytes = bytes_of(self.files.as_slice(), self.place);
        let count = put_front(&bytes[self.done..], most, buf);
        self.done += count;
        count
    }
}
