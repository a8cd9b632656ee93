// Runs of the top call over files and an output in memory, from texts that say the words and the files. What a run owns is in one
// function with one way out, since a proof pays at each way out for all that is owned.
use inst_logic::{ByteList, Memory, Name};
use outside_io::{FileList, Library, NamedFile, SureLibrary, SureSink};
use std::alloc::Global;
use szs_prove::{Exit, run};
use tptp_write::{push_bytes, push_number};

fn push_words(alloc: Global, words: &mut Vec<String>, text: &str) -> Result<(), Memory> {
    for (i, word) in text.split('|').enumerate() {
        if i > 0 {
            words.push(String::from_str(alloc, word)?)?;
        }
    }
    Ok(())
}

/// The words of the text, each behind a bar.
pub fn words_of(alloc: Global, text: &str) -> Result<Vec<String>, Memory> {
    let mut words = Vec::new(alloc);
    push_words(alloc, &mut words, text)?;
    Ok(words)
}

pub fn add_file(
    alloc: Global,
    files: &mut FileList,
    name: &str,
    bytes: &[u8],
) -> Result<(), Memory> {
    files.push(NamedFile {
        name: Name::of(alloc, name.as_bytes())?,
        bytes: ByteList::from(bytes.to_vec(alloc)?),
    })
}

/// Adds the files of the text, each its name, `@` and its bytes, with `@` between them.
pub fn push_files(alloc: Global, files: &mut FileList, text: &str) -> Result<(), Memory> {
    let mut name = None;
    for part in text.split('@') {
        match name {
            None => name = Some(part),
            Some(named) => {
                add_file(alloc, files, named, part.as_bytes())?;
                name = None;
            }
        }
    }
    Ok(())
}

/// The files of the text.
pub fn files_of(alloc: Global, text: &str) -> Result<FileList, Memory> {
    let mut files = FileList::new(alloc);
    push_files(alloc, &mut files, text)?;
    Ok(files)
}

/// One file of this name, with these bytes.
pub fn file_of(alloc: Global, name: &str, bytes: &[u8]) -> Result<FileList, Memory> {
    let mut files = FileList::new(alloc);
    add_file(alloc, &mut files, name, bytes)?;
    Ok(files)
}

fn push_told(text: &mut Vec<u8>, exit: Exit, written: &[u8]) -> Result<(), Memory> {
    push_number(text, usize::from(exit.code()))?;
    push_bytes(text, b" ")?;
    push_bytes(text, written)
}

/// The status, a blank, and what was written.
pub fn told_of(alloc: Global, exit: Exit, written: &[u8]) -> Result<Vec<u8>, Memory> {
    let mut text = Vec::new(alloc);
    push_told(&mut text, exit, written)?;
    Ok(text)
}

/// What is told of the run with these words over the library.
pub fn told<L: Library>(
    alloc: Global,
    words: &[String],
    library: &mut L,
) -> Result<Vec<u8>, Memory> {
    let mut out = SureSink::new(alloc);
    let exit = run(alloc, words, library, &mut out);
    told_of(alloc, exit, out.bytes())
}

/// What is told of the run with the words of the text, where there are these files.
pub fn answer_of(alloc: Global, words: &str, files: FileList) -> Result<Vec<u8>, Memory> {
    let words = words_of(alloc, words)?;
    let mut library = SureLibrary::new(alloc, files);
    told(alloc, words.as_slice(), &mut library)
}

/// Whether that is the wanted text.
pub fn is_answer(
    alloc: Global,
    words: &str,
    files: FileList,
    wanted: &str,
) -> Result<bool, Memory> {
    let answer = answer_of(alloc, words, files)?;
    Ok(answer.as_slice() == wanted.as_bytes())
}

/// The four parts of the row.
pub fn four_parts(row: &str) -> Option<(&str, &str, &str, &str)> {
    let (first, rest) = row.split_once("@")?;
    let (second, rest) = rest.split_once("@")?;
    let (third, fourth) = rest.split_once("@")?;
    Some((first, second, third, fourth))
}
