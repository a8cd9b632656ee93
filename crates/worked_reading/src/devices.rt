// Short reads, a failing call in mid-stream, and the real devices. What the calls on a device answer is gathered by a function
// that borrows it, and compared once.
use inst_logic::{ByteList, Memory, Name};
use outside_io::{
    CallList, Failed, FileError, FileList, FolderLibrary, Library, MemLibrary, MemSink, NamedFile,
    OutSink, Sink, SureLibrary, SureSink, Trouble, read_whole, write_all,
};
use std::alloc::Global;
use std::fs::Files;
use std::io::Print;
use std::{fs, io};
use tptp_write::{push_bytes, push_number};

fn named(alloc: Global, name: &[u8], bytes: &[u8]) -> Result<NamedFile, Memory> {
    Ok(NamedFile {
        name: Name::of(alloc, name)?,
        bytes: ByteList::from(bytes.to_vec(alloc)?),
    })
}

fn two_of_one_name(alloc: Global) -> Result<FileList, Memory> {
    let mut files = FileList::new(alloc);
    files.push(named(alloc, b"a", b"first")?)?;
    files.push(named(alloc, b"a", b"second")?)?;
    Ok(files)
}

fn the_call(alloc: Global, number: usize) -> Result<CallList, Memory> {
    let mut calls = CallList::new(alloc);
    calls.push(number)?;
    Ok(calls)
}

// What three calls of `begin` and four of `read` answer, with the bytes of the first file.
fn two_files_by(
    library: &mut SureLibrary,
) -> (
    [Result<bool, Trouble>; 3],
    [Result<usize, Failed>; 4],
    [u8; 8],
) {
    let mut buf = [0; 8];
    let before = library.read(&mut buf);
    let begun = library.begin("a");
    let whole = library.read(&mut buf);
    let at_end = library.read(&mut buf);
    let again = library.begin("a");
    library.finish();
    let finished = library.read(&mut buf);
    let absent = library.begin("b");
    (
        [begun, again, absent],
        [before, whole, at_end, finished],
        buf,
    )
}

fn two_files(
    alloc: Global,
) -> Result<
    (
        [Result<bool, Trouble>; 3],
        [Result<usize, Failed>; 4],
        [u8; 8],
    ),
    Memory,
> {
    let mut library = SureLibrary::new(alloc, two_of_one_name(alloc)?);
    Ok(two_files_by(&mut library))
}

// What `begin` and then five calls of `read` answer, with the bytes of the third of these.
fn pieces_by(
    library: &mut MemLibrary,
) -> (Result<bool, Trouble>, [Result<usize, Failed>; 5], [u8; 8]) {
    let mut buf = [0; 8];
    let begun = library.begin("a");
    let first = library.read(&mut buf);
    let second = library.read(&mut buf);
    let third = library.read(&mut buf);
    let found = buf;
    let fourth = library.read(&mut buf);
    let fifth = library.read(&mut buf);
    (begun, [first, second, third, fourth, fifth], found)
}

fn pieces(
    alloc: Global,
) -> Result<(Result<bool, Trouble>, [Result<usize, Failed>; 5], [u8; 8]), Memory> {
    let mut library = MemLibrary::new(alloc, two_of_one_name(alloc)?, 2, the_call(alloc, 3)?);
    Ok(pieces_by(&mut library))
}

// What three calls of `begin` answer, and a call of `read` after the second and the third.
fn begun_by(library: &mut MemLibrary) -> ([Result<bool, Trouble>; 3], [Result<usize, Failed>; 2]) {
    let mut buf = [0; 8];
    let first = library.begin("a");
    let second = library.begin("a");
    let nothing = library.read(&mut buf);
    let third = library.begin("a");
    let whole = library.read(&mut buf);
    ([first, second, third], [nothing, whole])
}

fn begun(
    alloc: Global,
) -> Result<([Result<bool, Trouble>; 3], [Result<usize, Failed>; 2]), Memory> {
    let mut library = MemLibrary::new(alloc, two_of_one_name(alloc)?, 8, the_call(alloc, 2)?);
    Ok(begun_by(&mut library))
}

// Whether the two pieces are taken whole.
fn takes_two_by(sink: &mut SureSink) -> Result<bool, Trouble> {
    write_all(sink, b"hello ")?;
    write_all(sink, b"there")?;
    Ok(sink.bytes() == b"hello there".as_slice())
}

fn takes_two(alloc: Global) -> Result<bool, Trouble> {
    let mut sink = SureSink::new(alloc);
    takes_two_by(&mut sink)
}

// Whether a piece is taken whole that is longer than what one call takes.
fn takes_long_by(sink: &mut MemSink) -> Result<bool, Trouble> {
    write_all(sink, b"hello")?;
    Ok(sink.bytes() == b"hello".as_slice())
}

fn takes_long(alloc: Global) -> Result<bool, Trouble> {
    let mut sink = MemSink::new(alloc, 2, CallList::new(alloc));
    takes_long_by(&mut sink)
}

// What a piece and the rest of it are answered, each with whether these bytes were taken by then.
fn fails_by(sink: &mut MemSink) -> ((Result<(), Trouble>, bool), (Result<usize, Trouble>, bool)) {
    let failed = write_all(sink, b"hello");
    let taken = sink.bytes() == b"he".as_slice();
    let written = sink.write(b"llo");
    let all = sink.bytes() == b"hell".as_slice();
    ((failed, taken), (written, all))
}

fn fails(
    alloc: Global,
) -> Result<((Result<(), Trouble>, bool), (Result<usize, Trouble>, bool)), Memory> {
    let mut sink = MemSink::new(alloc, 2, the_call(alloc, 2)?);
    Ok(fails_by(&mut sink))
}

// What `begin` answers, three calls of `read` and one after `finish`, with the buffer of three bytes after them.
type RealFile = (Result<bool, Trouble>, [Result<usize, Failed>; 4], [u8; 3]);

fn read_real_file<L: Library>(library: &mut L) -> RealFile {
    let mut buf = [0; 3];
    let begun = library.begin("outside_io_test.txt");
    let first = library.read(&mut buf);
    let second = library.read(&mut buf);
    let third = library.read(&mut buf);
    library.finish();
    let after = library.read(&mut buf);
    (begun, [first, second, third, after], buf)
}

// What a real file gives that is made and removed, with what `begin` answers when it is gone.
fn real_file_by<R: Files>(
    rt: &R,
    folder: &mut FolderLibrary<'_, R>,
) -> io::Result<(RealFile, Result<bool, Trouble>)> {
    fs::write(rt, "outside_io_test.txt", "p(a).")?;
    let found = read_real_file(folder);
    fs::remove_file(rt, "outside_io_test.txt")?;
    Ok((found, folder.begin("outside_io_test.txt")))
}

fn real_file<R: Files>(rt: &R, alloc: Global) -> io::Result<(RealFile, Result<bool, Trouble>)> {
    let mut folder = FolderLibrary::new(rt, alloc);
    real_file_by(rt, &mut folder)
}

// What `begin` and `read` answer of a folder, and of a name that no file can have.
fn no_files_by<L: Library>(library: &mut L) -> [(Result<bool, Trouble>, Result<usize, Failed>); 2] {
    let mut buf = [0; 3];
    let folder = library.begin(".");
    let failed = library.read(&mut buf);
    let no_name = library.begin("name\0name");
    let nothing = library.read(&mut buf);
    [(folder, failed), (no_name, nothing)]
}

fn no_files<R: Files>(
    rt: &R,
    alloc: Global,
) -> [(Result<bool, Trouble>, Result<usize, Failed>); 2] {
    let mut folder = FolderLibrary::new(rt, alloc);
    no_files_by(&mut folder)
}

// More bytes than are asked for at once, in no order that repeats.
fn push_numbers(text: &mut Vec<u8>) -> Result<(), Memory> {
    for number in 0..30_000 {
        push_number(text, number)?;
        push_bytes(text, b" ")?;
    }
    Ok(())
}

// Whether a real file of these bytes is read whole by as many, and not by one fewer.
fn is_read_whole<R: Files>(
    rt: &R,
    alloc: Global,
    folder: &mut FolderLibrary<'_, R>,
    text: &[u8],
) -> io::Result<bool> {
    fs::write(rt, "outside_io_long.txt", text)?;
    let found = read_whole(alloc, folder, "outside_io_long.txt", text.len());
    let cut = read_whole(
        alloc,
        folder,
        "outside_io_long.txt",
        text.len().saturating_sub(1),
    );
    fs::remove_file(rt, "outside_io_long.txt")?;
    let whole = found.is_ok_and(|bytes| bytes.as_slice() == text);
    Ok(whole && cut.err() == Some(FileError::TooLong))
}

fn long_file<R: Files>(rt: &R, alloc: Global) -> io::Result<bool> {
    let mut text = Vec::new(alloc);
    if push_numbers(&mut text).is_err() {
        return Ok(false);
    }
    let mut folder = FolderLibrary::new(rt, alloc);
    is_read_whole(rt, alloc, &mut folder, text.as_slice())
}

/// Whether the devices in memory answer so: the first file of a name is read, and nothing before a file is begun, at its end, and
/// after `finish`; a call fails in mid-stream, and a `begin`, and the next one does not; a piece is written whole; and a write
/// fails.
pub fn are_memories_right(alloc: Global) -> Result<[bool; 6], Memory> {
    Ok([
        two_files(alloc)?
            == (
                [Ok(true), Ok(true), Ok(false)],
                [Ok(0), Ok(5), Ok(0), Ok(0)],
                *b"first\0\0\0",
            ),
        pieces(alloc)?
            == (
                Ok(true),
                [Ok(2), Err(Failed), Ok(2), Ok(1), Ok(0)],
                *b"rs\0\0\0\0\0\0",
            ),
        begun(alloc)? == ([Ok(true), Err(Trouble::Failed), Ok(true)], [Ok(0), Ok(5)]),
        takes_two(alloc) == Ok(true),
        takes_long(alloc) == Ok(true),
        fails(alloc)? == ((Err(Trouble::Failed), true), (Ok(2), true)),
    ])
}

/// Whether the real ones do: a file is read, whose second read changes the front of the buffer alone; a file of more than 64 KiB is
/// read whole; what is no file fails; and standard output takes a piece.
pub fn are_real_ones_right<R: Files + Print>(rt: &R, alloc: Global) -> io::Result<[bool; 4]> {
    let mut out = OutSink::new(rt);
    let is_read = real_file(rt, alloc)?
        == ((Ok(true), [Ok(3), Ok(2), Ok(0), Ok(0)], *b").a"), Ok(false));
    let fails = no_files(rt, alloc) == [(Ok(true), Err(Failed)), (Err(Trouble::Failed), Ok(0))];
    Ok([
        is_read,
        long_file(rt, alloc)?,
        fails,
        write_all(&mut out, b"% written\n").is_ok(),
    ])
}
