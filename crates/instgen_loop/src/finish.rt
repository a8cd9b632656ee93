// The end of a run at rest: a saturation, or the conclusions that the budget left open.
ghost use Rattle.std.specs.Prelude.{◌≡◌, Some, None, IfOk};
ghost use Rattle.cert_format.specs.Printable.{IsPrintableProblem};
ghost use Rattle.instgen_loop.specs.Ending.{IsFinished, settled_from, saturation_from};
ghost use Rattle.instgen_loop.specs.Endings.{IsEndingAfter, entries_left};
ghost use Rattle.instgen_run.specs.Marks.{events_of};
ghost use Rattle.instgen_run.specs.Running.{events_so_far};

use crate::ending::Ending;
use crate::hand_over::{Remains, base_of, hand_over};
use crate::start::Given;
use crate::task::Task;
use cert_values::Saturation;
use inst_logic::{Memory, Problem};
use instgen_run::{Partners, Run, Selection, decide};
use prop_logic::Solver;
use std::alloc::Global;
use std::mem::replace;
use term_index::PartnerIndex;

/// What a saturation is made of: what the run leaves, and the places of its entries.
#[derive(Drop)]
pub struct SettledRun {
    pub remains: Remains,
    pub selection: Selection,
}

/// The run's entries with their places.
pub fn saturation_of(alloc: Global, p: &Problem, run: SettledRun) -> Result<Saturation, Memory>
    ensures { IfOk result (λ s. s ≡ saturation_from p.now.names run) }
{
    let places = run.selection.place_list(alloc)?;
    // Its memory serves for the members.
    drop(run.selection);
    let base = base_of(alloc, p, run.remains)?;
    Ok(Saturation { base, places })
}

// Takes of the run what a saturation is made of.
fn settled_run<S: Solver, I: PartnerIndex>(
    alloc: Global,
    run: &mut Run<S, I>,
    given: Given,
) -> SettledRun
    ensures taken { result ≡ settled_from run.old given }
    ensures log { run.new.log ≡ run.old.log }
{
    let selection = replace(&mut run.selection, Selection::new(alloc));
    let remains = hand_over(alloc, run, given);
    SettledRun { remains, selection }
}

// What is left of a budget that is not enough.
fn left_of<S: Solver, I: PartnerIndex>(run: &Run<S, I>) -> u64
    requires { ¬ (run.now.left ≡ None) }
    ensures { run.now.left ≡ Some result }
{
    match run.left {
        Some(left) => left,
        None => unreachable!(),
    }
}

/// Looks at what was held back once more, and hands the bank and the entries with their places over. Only the run's log
/// serves for anything after.
pub fn finish<S: Solver, I: PartnerIndex>(
    alloc: Global,
    _task: &Task<'_>,
    run: &mut Run<S, I>,
    _partners: &Partners<I>,
    given: Given,
) -> Result<Ending, Memory>
    requires finished { IsFinished S.atoms S.added I.pairs I.fits _task.now run.old _partners.now given }
    requires printable { IsPrintableProblem _task.now.problem.now }
    ensures ending { IfOk result (λ e. IsEndingAfter _task.now e run.new.log) }
    ensures events { IfOk result (λ e. events_of run.new.log (entries_left e) ≡ events_so_far run.old) }
{
    match decide(alloc, run)? {
        None => Ok(Ending::Saturated(settled_run(alloc, run, given))),
        Some(wanted) => {
            let left = left_of(run);
            let state = settled_run(alloc, run, given);
            Ok(Ending::OutOfBudget {
                left,
                wanted,
                state,
            })
        }
    }
}
