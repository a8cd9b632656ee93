// Problems that are loaded, from files in memory and from the same files in a folder that the test makes and removes.
use crate::files::files_of;
use inst_logic::{Memory, Problem};
use outside_io::{FolderLibrary, Library, SureLibrary};
use std::alloc::Global;
use std::fs::Files;
use std::{fs, io};
use tptp_load::{LoadError, load};
use tptp_write::{push_bytes, push_clause};

// The root for includes, the problem's names and clauses or why there is none, and the files, of which reading_rows/m.p is loaded.
const ROWS: &str = "\
#@b: p(X0)\ng: ~p(c)\n@\
reading_rows/m.p=include('ax.p',[b]). cnf(g,negated_conjecture,~p(c)).^\
reading_rows/ax.p=cnf(a,axiom,q(c)). cnf(b,axiom,p(X)).\
#reading_rows/lib@a: q\nb: p | q\n@\
reading_rows/m.p=include('x.ax'). include('y.ax').^\
reading_rows/lib/x.ax=cnf(a,axiom,q).^\
reading_rows/lib/y.ax=cnf(b,axiom,p|q|p).\
#reading_rows/lib@absent: y.ax@\
reading_rows/m.p=include('x.ax'). include('y.ax').^\
reading_rows/lib/x.ax=cnf(a,axiom,q).\
#@b: p(X0,X1)\n@\
reading_rows/m.p=cnf(a,axiom,$true|p). cnf(b,axiom,p(Y,X)).\
";

fn push_problem(text: &mut Vec<u8>, problem: &Problem) -> Result<(), Memory> {
    for (name, c) in problem
        .names
        .as_slice()
        .iter()
        .zip(problem.clauses.as_slice())
    {
        push_bytes(text, name.bytes())?;
        push_bytes(text, b": ")?;
        push_clause(text, c)?;
        push_bytes(text, b"\n")?;
    }
    Ok(())
}

fn push_error(text: &mut Vec<u8>, error: &LoadError) -> Result<(), Memory> {
    match error {
        LoadError::Absent { wanted } => {
            push_bytes(text, b"absent: ")?;
            push_bytes(text, wanted.bytes())
        }
        _ => push_bytes(text, b"another error"),
    }
}

fn push_answer<L: Library>(
    alloc: Global,
    library: &mut L,
    text: &mut Vec<u8>,
    root: Option<&str>,
) -> Result<(), Memory> {
    match load(alloc, library, "reading_rows/m.p", root) {
        Ok(problem) => push_problem(text, &problem),
        Err(error) => push_error(text, &error),
    }
}

fn is_loaded_by<L: Library>(
    alloc: Global,
    library: &mut L,
    text: &mut Vec<u8>,
    root: Option<&str>,
    wanted: &str,
) -> Result<bool, Memory> {
    push_answer(alloc, library, text, root)?;
    Ok(text.as_slice() == wanted.as_bytes())
}

// Whether this is the problem that is loaded from the library, or why there is none.
fn is_loaded<L: Library>(
    alloc: Global,
    library: &mut L,
    root: Option<&str>,
    wanted: &str,
) -> Result<bool, Memory> {
    let mut text = Vec::new(alloc);
    is_loaded_by(alloc, library, &mut text, root, wanted)
}

fn from_memory(
    alloc: Global,
    files: &str,
    root: Option<&str>,
    wanted: &str,
) -> Result<bool, Memory> {
    let files = files_of(alloc, files)?;
    let mut library = SureLibrary::new(alloc, files);
    is_loaded(alloc, &mut library, root, wanted)
}

fn from_library<R: Files>(
    rt: &R,
    alloc: Global,
    root: Option<&str>,
    wanted: &str,
) -> Result<bool, Memory> {
    let mut library = FolderLibrary::new(rt, alloc);
    is_loaded(alloc, &mut library, root, wanted)
}

fn write_files(rt: &impl Files, files: &str) -> io::Result<()> {
    for file in files.split('^') {
        if let Some((name, text)) = file.split_once("=") {
            fs::write(rt, name, text)?;
        }
    }
    Ok(())
}

fn remove_files(rt: &impl Files, files: &str) -> io::Result<()> {
    for file in files.split('^') {
        if let Some((name, _)) = file.split_once("=") {
            fs::remove_file(rt, name)?;
        }
    }
    Ok(())
}

fn from_folder<R: Files>(
    rt: &R,
    alloc: Global,
    files: &str,
    root: Option<&str>,
    wanted: &str,
) -> io::Result<bool> {
    write_files(rt, files)?;
    let is_right = from_library(rt, alloc, root, wanted) == Ok(true);
    remove_files(rt, files)?;
    Ok(is_right && from_memory(alloc, files, root, wanted) == Ok(true))
}

fn root_of(root: &str) -> Option<&str> {
    if root.is_empty() { None } else { Some(root) }
}

// Whether the row's problem is loaded from the folder and from memory.
fn is_right<R: Files>(rt: &R, alloc: Global, row: &str) -> io::Result<bool> {
    let Some((root, rest)) = row.split_once("@") else {
        return Ok(false);
    };
    match rest.split_once("@") {
        Some((wanted, files)) => from_folder(rt, alloc, files, root_of(root), wanted),
        None => Ok(false),
    }
}

// The place of the first row that is not loaded so, from 1.
fn first_wrong<R: Files>(rt: &R, alloc: Global, rows: &str) -> io::Result<Option<usize>> {
    for (i, row) in rows.split('#').enumerate() {
        if i > 0 && !is_right(rt, alloc, row)? {
            return Ok(Some(i));
        }
    }
    Ok(None)
}

/// The place of the first row that is not loaded as it says, in a folder that is made and removed.
pub fn first_wrong_in_folder<R: Files>(rt: &R, alloc: Global) -> io::Result<Option<usize>> {
    fs::create_dir_all(rt, "reading_rows/lib")?;
    let wrong = first_wrong(rt, alloc, ROWS)?;
    fs::remove_dir(rt, "reading_rows/lib")?;
    fs::remove_dir(rt, "reading_rows")?;
    Ok(wrong)
}
