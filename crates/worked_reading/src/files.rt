// Files in memory.
use inst_logic::{ByteList, Memory, Name};
use outside_io::{FileList, NamedFile};
use std::alloc::Global;

fn add_file(alloc: Global, files: &mut FileList, name: &str, bytes: &[u8]) -> Result<(), Memory> {
    files.push(NamedFile {
        name: Name::of(alloc, name.as_bytes())?,
        bytes: ByteList::from(bytes.to_vec(alloc)?),
    })
}

fn push_files(alloc: Global, files: &mut FileList, text: &str) -> Result<(), Memory> {
    for file in text.split('^') {
        if let Some((name, bytes)) = file.split_once("=") {
            add_file(alloc, files, name, bytes.as_bytes())?;
        }
    }
    Ok(())
}

/// The files of the text, with `^` between them, each its name, `=` and its bytes.
pub fn files_of(alloc: Global, text: &str) -> Result<FileList, Memory> {
    let mut files = FileList::new(alloc);
    push_files(alloc, &mut files, text)?;
    Ok(files)
}
