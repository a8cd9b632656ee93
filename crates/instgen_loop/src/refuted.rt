// The end of a run whose abstractions are refuted.
ghost use Rattle.std.specs.Prelude.{◌≡◌, [], IfOk, OnOk};
ghost use Rattle.cert_format.specs.Printable.{IsPrintableProblem};
ghost use Rattle.prop_logic.specs.Solving.{Refutes};
ghost use Rattle.instgen_loop.specs.Endings.{IsEndingAfter, IsRefuted, entries_left};
ghost use Rattle.instgen_loop.specs.Lines.{AreLinesOf};
ghost use Rattle.instgen_run.specs.Loops.{IsConsistent};
ghost use Rattle.instgen_loop.specs.Outcomes.{IsRefutedRun};
ghost use Rattle.instgen_loop.specs.Refuting.{refuted_from};
ghost use Rattle.instgen_loop.specs.ShownRuns.{IsMadeOf, IsShownOf};
ghost use Rattle.instgen_run.specs.Marks.{events_of};
ghost use Rattle.instgen_run.specs.Running.{IsRunningFor, events_so_far};
ghost use Rattle.instgen_loop.specs.Starting.{IsNew, IsOfProblem};
ghost use Rattle.instgen_loop.specs.Tasks.{all_clauses};

use crate::derived::derive;
use crate::ending::Ending;
use crate::hand_over::{Remains, base_of, hand_over};
use crate::line_numbers::line_numbers;
use crate::lines::ground_lines;
use crate::records::records_of;
use crate::start::Given;
use crate::steps::ground_steps;
use crate::task::Task;
use cert_values::{GroundLineList, GroundStepList, Refutation};
use compact_lists::FlatClauses;
use ground_abs::Abstraction;
use inst_logic::{Memory, Problem, Sym};
use instgen_run::{Journal, Run};
use prop_logic::{Derivation, Solver};
use std::alloc::Global;
use std::mem::replace;
use term_index::PartnerIndex;

/// What a refutation is made of: what the run leaves, its abstractions, and the derivation over their atoms.
#[derive(Drop)]
pub struct RefutedRun {
    pub remains: Remains,
    pub abstraction: Abstraction,
    pub literals: FlatClauses,
    pub derivation: Derivation,
}

// The ground lines of the run. Its bank has grown by their terms.
fn lines_of(
    alloc: Global,
    _p: &Problem,
    run: &mut RefutedRun,
    _journal: &Journal,
) -> Result<GroundLineList, Memory>
    requires refuted { IsRefuted _p.now.clauses _p.now.names run.old _journal.now }
    ensures refuted { OnOk result (IsRefuted _p.now.clauses _p.now.names run.new _journal.now) }
    ensures lines { IfOk result (AreLinesOf _p.now.clauses run.new) }
{
    let bot = run.abstraction.bot().clone()?;
    let made = records_of(alloc, &mut run.remains.bank, &bot, &run.remains.clauses)?;
    let lines = ground_lines(
        alloc,
        &mut run.remains.bank,
        &bot,
        &run.remains.given,
        &made,
    )?;
    Ok(lines)
}

// The lines, the steps over them, and the constant that both have.
#[derive(Drop)]
struct Shown {
    bot: Sym,
    grounds: GroundLineList,
    steps: GroundStepList,
}

// What is shown by a derivation over the lines of the run, which `last` gives where the run has none. The bank has grown by the
// terms of the lines.
fn shown_of<S: Solver>(
    alloc: Global,
    p: &Problem,
    run: &mut RefutedRun,
    last: S,
    journal: &Journal,
) -> Result<Shown, Memory>
    requires refuted { IsRefuted p.now.clauses p.now.names run.old journal.now }
    requires last { IsNew S.atoms S.added last }
    ensures shown { IfOk result (IsShownOf p.now.clauses p.now.names run.new journal.now) }
{
    let grounds = lines_of(alloc, p, run, journal)?;
    let bot = run.abstraction.bot().clone()?;
    derive(alloc, run, last, &grounds)?;
    let numbers = line_numbers(alloc, &run.abstraction, &run.literals, &grounds)?;
    let steps = ground_steps(alloc, &run.abstraction, &numbers, &run.derivation)?;
    Ok(Shown {
        bot,
        grounds,
        steps,
    })
}

// The refutation of what remains of the run.
fn made_of(alloc: Global, p: &Problem, remains: Remains, shown: Shown) -> Result<Refutation, Memory>
    ensures { IfOk result (IsMadeOf p.now.names remains shown) }
{
    let base = base_of(alloc, p, remains)?;
    Ok(Refutation {
        base,
        bot: shown.bot,
        grounds: shown.grounds,
        steps: shown.steps,
    })
}

/// The refutation of a refuted run. Its ground lines are those of the unrolled lists of the entries, with the constant for every
/// variable, each once. The fresh solver is asked for a derivation from the lines where an entry is a part of a conclusion.
pub fn refutation_of<S: Solver>(
    alloc: Global,
    p: &Problem,
    mut run: RefutedRun,
    last: S,
    journal: &Journal,
) -> Result<Refutation, Memory>
    requires refuted { IsRefuted p.now.clauses p.now.names run journal.now }
    requires last { IsNew S.atoms S.added last }
    ensures refutation { IfOk result (λ r. IsRefutedRun p.now.clauses p.now.names r journal.now) }
{
    match shown_of(alloc, p, &mut run, last, journal) {
        Ok(shown) => made_of(alloc, p, run.remains, shown),
        Err(Memory) => Err(Memory),
    }
}

// Takes of the run what a refutation is made of.
fn refuted_run<S: Solver, I: PartnerIndex>(
    alloc: Global,
    run: &mut Run<S, I>,
    given: Given,
    derivation: Derivation,
) -> Result<RefutedRun, Memory>
    ensures taken { IfOk result (λ r. r ≡ refuted_from run.old given derivation) }
    ensures log { OnOk result (run.new.log ≡ run.old.log) }
{
    let none = Abstraction::new(alloc, run.ground.abstraction.bot().clone()?);
    let abstraction = replace(&mut run.ground.abstraction, none);
    let literals = replace(&mut run.ground.literals, FlatClauses::new(alloc));
    let remains = hand_over(alloc, run, given);
    Ok(RefutedRun {
        remains,
        abstraction,
        literals,
        derivation,
    })
}

/// What the refutation is made of that the derivation gives. It takes the bank, the entries and their abstractions of the run, of
/// which only the log serves for anything after.
pub fn refuted_ending<S: Solver, I: PartnerIndex>(
    alloc: Global,
    _task: &Task<'_>,
    run: &mut Run<S, I>,
    given: Given,
    derivation: Derivation,
) -> Result<Ending, Memory>
    requires safe { IsConsistent S.atoms I.pairs I.fits run.old }
    requires running { IsRunningFor S.atoms S.added run.old (all_clauses _task.now) _task.now.budget }
    requires refutes { Refutes (S.atoms run.old.ground.solver) (S.added run.old.ground.solver) [] [] derivation }
    requires problem { IsOfProblem run.old given _task.now.problem.now.clauses }
    requires printable { IsPrintableProblem _task.now.problem.now }
    ensures ending { IfOk result (λ e. IsEndingAfter _task.now e run.new.log) }
    ensures events { IfOk result (λ e. events_of run.new.log (entries_left e) ≡ events_so_far run.old) }
{
    let refuted = refuted_run(alloc, run, given, derivation)?;
    Ok(Ending::Refuted(refuted))
}
