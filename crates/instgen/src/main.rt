// `instgen prove FILE` decides the clauses of FILE, and writes a certificate of its answer. `command_words` has all commands, and
// `szs_prove` says what comes of each.
#![tactic(auto)]

ghost use Rattle.std.specs.Prelude.{◌≡◌};
ghost use Rattle.std.specs.Process.{exit_status};
ghost use Rattle.szs_prove.specs.Texts.{code_of};

mod words;

use outside_io::{FolderLibrary, OutSink};
use std::process::ExitCode;
use szs_prove::{Exit, run};

// The exit's number as the status of the process.
fn status(exit: Exit) -> ExitCode
    ensures { exit_status result ≡ code_of exit }
{
    ExitCode::from(exit.code())
}

fn main(rt: HostRuntime) -> ExitCode {
    // Where the words cannot be had, nothing is written, and the status tells.
    let words = match words::words(&rt, rt.alloc()) {
        Ok(words) => words,
        Err(exit) => return status(exit),
    };
    let mut files = FolderLibrary::new(&rt, rt.alloc());
    let mut out = OutSink::new(&rt);
    status(run(rt.alloc(), words.as_slice(), &mut files, &mut out))
}
