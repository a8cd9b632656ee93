// How a run ends. The certificate and the journal are made only once the run is gone, so that its memory serves for them.
ghost use Rattle.std.specs.Prelude.{◌≡◌, [], IfOk};
ghost use Rattle.instgen_loop.specs.Endings.{IsEnding, IsEndingAfter, entries_left};
ghost use Rattle.instgen_run.specs.Marks.{IsLogOf, events_of};
ghost use Rattle.instgen_loop.specs.Outcomes.{journal_of};
ghost use Rattle.instgen_loop.specs.Starting.{IsNew};
ghost use Rattle.instgen_loop.specs.Tasks.{IsOutcomeFor};

use crate::finish::{SettledRun, saturation_of};
use crate::outcome::Outcome;
use crate::refuted::{RefutedRun, refutation_of};
use crate::task::Task;
use cert_values::{Refutation, Saturation};
use inst_logic::Memory;
use instgen_run::{EventLog, Journal, Origins};
use prop_logic::Solver;
use std::alloc::Global;

/// What an outcome is made of, beside its journal.
#[derive(Drop)]
pub enum Ending {
    Refuted(RefutedRun),
    Saturated(SettledRun),
    OutOfBudget {
        left: u64,
        wanted: u64,
        state: SettledRun,
    },
}

// What the ending leaves of the run's entries.
fn entries_of(ending: &Ending) -> &Origins
    ensures { result.now.entries ≡ entries_left ending.now }
{
    match ending {
        Ending::Refuted(run) => &run.remains.clauses,
        Ending::Saturated(run) => &run.remains.clauses,
        Ending::OutOfBudget { state, .. } => &state.remains.clauses,
    }
}

// The events of a run that ends so.
fn events_before(alloc: Global, ending: &Ending, log: &EventLog) -> Result<Journal, Memory>
    requires { IsLogOf log.now (entries_left ending.now) }
    ensures { IfOk result (λ j. j ≡ events_of log.now (entries_left ending.now)) }
{
    log.journal(alloc, entries_of(ending))
}

// The outcome that ends so after these events.
fn outcome_after<S: Solver>(
    alloc: Global,
    task: &Task<'_>,
    ending: Ending,
    last: S,
    journal: Journal,
) -> Result<Outcome, Memory>
    requires ending { IsEnding task.now ending journal }
    requires last { IsNew S.atoms S.added last }
    ensures outcome { IfOk result (IsOutcomeFor task.now) }
    ensures journal { IfOk result (λ o. journal_of o ≡ journal) }
{
    match ending {
        Ending::Refuted(run) => {
            let cert = refutation_of(alloc, task.problem, run, last, &journal)?;
            Ok(Outcome::Refuted { cert, journal })
        }
        Ending::Saturated(run) => {
            let cert = saturation_of(alloc, task.problem, run)?;
            Ok(Outcome::Saturated { cert, journal })
        }
        Ending::OutOfBudget {
            left,
            wanted,
            state,
        } => {
            let state = saturation_of(alloc, task.problem, state)?;
            Ok(Outcome::OutOfBudget {
                left,
                wanted,
                state,
                journal,
            })
        }
    }
}

/// The outcome of a run with this log that ends so. The fresh solver serves a refutation alone.
pub fn outcome_of<S: Solver>(
    alloc: Global,
    task: &Task<'_>,
    ending: Ending,
    last: S,
    log: &EventLog,
) -> Result<Outcome, Memory>
    requires ending { IsEndingAfter task.now ending log.now }
    requires last { IsNew S.atoms S.added last }
    ensures outcome { IfOk result (IsOutcomeFor task.now) }
    ensures journal { IfOk result (λ o. journal_of o ≡ events_of log.now (entries_left ending)) }
{
    match events_before(alloc, &ending, log) {
        Ok(journal) => outcome_after(alloc, task, ending, last, journal),
        Err(Memory) => Err(Memory),
    }
}
