// Runs a part of the program alone, so that a script can take the time.
//
// `speed index KIND CONSTANTS STORED ROUNDS` builds the atoms of the kind over so many constants, stores the first ones in a tree,
// asks each query of the kind in so many rounds, and writes how many entries were given. `speed engine FILE BUDGET` runs the engine
// on a file, and writes how the run ended, and how many members, steps, solves and appended entries it had. Its status is then 20 for
// refuted, 10 for saturated and 1 for a budget that ran out.
#![tactic(auto)]

mod asking;
mod atoms;
mod counting;
mod running;
mod words;

use crate::asking::entries_given;
use crate::counting::Counts;
use crate::running::counts_on;
use crate::words::{Task, task_of, words};
use outside_io::FolderLibrary;
use std::fmt::{Display, Error, Formatter, Write};
use std::process::ExitCode;

// What is written of a run.
#[derive(Clone, Copy, Drop)]
enum Told {
    Given(usize),
    Run(Counts),
}

impl Display for Told {
    fn fmt<W: Write>(&self, f: &mut Formatter<W>) -> Result<(), Error> {
        match self {
            Told::Given(entries) => write!(f, "{entries}"),
            Told::Run(counts) => write!(f, "{counts}"),
        }
    }
}

// The status of the process once that is written.
fn status(told: &Told) -> u8 {
    match told {
        Told::Given(_) => 0,
        Told::Run(counts) => counts.code(),
    }
}

fn run(rt: &HostRuntime) -> Option<Told> {
    let words = words(rt, rt.alloc())?;
    match task_of(words.as_slice())? {
        Task::Index(queries) => Some(Told::Given(entries_given(rt.alloc(), queries).ok()?)),
        Task::Engine { file, budget } => {
            let mut files = FolderLibrary::new(rt, rt.alloc());
            Some(Told::Run(counts_on(rt.alloc(), &mut files, file, budget)?))
        }
    }
}

fn main(rt: HostRuntime) -> ExitCode {
    match run(&rt) {
        None => ExitCode::from(2),
        Some(told) => match println!(rt; "{told}") {
            Ok(()) => ExitCode::from(status(&told)),
            Err(_) => ExitCode::from(2),
        },
    }
}
