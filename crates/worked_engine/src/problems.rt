// Problems from texts.
ghost use Rattle.std.specs.Prelude.{IfOk};
ghost use Rattle.tptp_load.specs.Problems.{IsGoodProblem};

use inst_logic::{ByteList, Memory, Name, Problem};
use outside_io::{FileList, NamedFile, SureLibrary};
use std::alloc::Global;
use std::test::Fail;
use tptp_load::load;

// One file with this text.
fn one_file(alloc: Global, text: &str) -> Result<FileList, Memory> {
    let mut files = FileList::new(alloc);
    files.push(NamedFile {
        name: Name::of(alloc, b"r.p")?,
        bytes: ByteList::from(text.as_bytes().to_vec(alloc)?),
    })?;
    Ok(files)
}

// The problem of that file.
fn loaded(alloc: Global, files: FileList) -> Result<Problem, Fail>
    ensures { IfOk result IsGoodProblem }
{
    let mut library = SureLibrary::new(alloc, files);
    Ok(load(alloc, &mut library, "r.p", None)?)
}

// The problem of the text.
pub fn problem_of(alloc: Global, text: &str) -> Result<Problem, Fail>
    ensures { IfOk result IsGoodProblem }
{
    loaded(alloc, one_file(alloc, text)?)
}
