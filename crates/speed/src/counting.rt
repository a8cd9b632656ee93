// What is told of a run.
use cert_values::Base;
use instgen_loop::{Event, Journal, Outcome};
use std::fmt::{Display, Error, Formatter, Write};

/// How a run ended, and how many members, steps, solves and appended entries it had.
#[derive(Clone, Copy, Drop)]
pub struct Counts {
    status: &'static str,
    code: u8,
    members: usize,
    steps: usize,
    solves: usize,
    appended: usize,
}

impl Display for Counts {
    fn fmt<W: Write>(&self, f: &mut Formatter<W>) -> Result<(), Error> {
        write!(
            f,
            "{} members={} steps={} solves={} appended={}",
            self.status, self.members, self.steps, self.solves, self.appended
        )
    }
}

fn solves_in(journal: &Journal) -> usize {
    journal
        .as_slice()
        .iter()
        .filter(|event| matches!(**event, Event::Solved(_)))
        .count()
}

impl Counts {
    /// The status of the process: 20 where the problem is refuted, 10 where it is saturated, 1 where the budget ran out.
    pub fn code(&self) -> u8 {
        self.code
    }
}

fn code_of(outcome: &Outcome) -> u8 {
    match outcome {
        Outcome::Refuted { .. } => 20,
        Outcome::Saturated { .. } => 10,
        Outcome::OutOfBudget { .. } => 1,
    }
}

fn counted(status: &'static str, code: u8, base: &Base, steps: usize, journal: &Journal) -> Counts {
    let solves = solves_in(journal);
    Counts {
        status,
        code,
        members: base.members.len(),
        steps,
        solves,
        appended: journal.len().wrapping_sub(solves),
    }
}

/// The counts of a run that ended so.
pub fn counts_of(outcome: &Outcome) -> Counts {
    let code = code_of(outcome);
    match outcome {
        Outcome::Refuted { cert, journal } => {
            counted("refuted", code, &cert.base, cert.steps.len(), journal)
        }
        Outcome::Saturated { cert, journal } => counted("saturated", code, &cert.base, 0, journal),
        Outcome::OutOfBudget { state, journal, .. } => {
            counted("open", code, &state.base, 0, journal)
        }
    }
}
