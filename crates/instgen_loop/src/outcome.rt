// What the engine answers.
ghost use Rattle.std.specs.Prelude.{◌≡◌, ◌≤◌, [], suc, length, true, false, Some, None, All, IsTrue, IsFalse, IsSome, IfOk, IfSome, OnOk};
ghost use Rattle.inst_logic.specs.Measure.{is_function_free};
ghost use Rattle.inst_logic.specs.Printing.{is_readable_name};
ghost use Rattle.cert_format.specs.Printable.{IsPrintableClause, IsPrintableProblem};
ghost use Rattle.inst_logic.specs.WellFormed.{is_constant};
ghost use Rattle.inst_calculus.specs.Abstraction.{IsBot};
ghost use Rattle.instgen_loop.specs.Endings.{IsEndingAfter, entries_left};
ghost use Rattle.instgen_run.specs.Marks.{events_of};
ghost use Rattle.instgen_loop.specs.Starting.{IsNew, IsFresh, IsAllowed};
ghost use Rattle.instgen_loop.specs.Tasks.{IsOutcomeFor, IsWithinBudget};
ghost use Rattle.instgen_loop.specs.Outcomes.{IsOutcome, IsDecided, appended_count, journal_of};

use crate::choices::Choices;
use crate::cycle::{Stop, cycle};
use crate::ending::{Ending, outcome_of};
use crate::finish::finish;
use crate::refuted::refuted_ending;
use crate::start::{Solvers, new_run, start};
use crate::task::Task;
use cert_values::{Refutation, Saturation};
use ground_abs::bot_of;
use inst_logic::{Memory, Problem, function_free};
use instgen_run::{EventLog, Journal, Partners, Run};
use prop_logic::Solver;
use std::alloc::Global;
use std::mem::replace;
use term_index::PartnerIndex;

/// A certificate, or what the budget left open. The ids of the journal are those of the certificate's bank.
#[derive(Drop)]
pub enum Outcome {
    Refuted {
        cert: Refutation,
        journal: Journal,
    },
    Saturated {
        cert: Saturation,
        journal: Journal,
    },
    /// What is left of the budget, and the size of the least conclusion that did not fit, in symbols; `u64::MAX` where it is
    /// larger.
    OutOfBudget {
        left: u64,
        wanted: u64,
        state: Saturation,
        journal: Journal,
    },
}

// Starts a run, lets it work, and ends it. The run keeps its log. Nothing comes where it was given up.
fn drive<S: Solver, I: PartnerIndex>(
    alloc: Global,
    task: &Task<'_>,
    run: &mut Run<S, I>,
    mut partners: Partners<I>,
    choices: Choices<S>,
) -> Result<Option<Ending>, Memory>
    requires fresh { IsFresh S.atoms S.added I.pairs run.old }
    requires allowed { IsAllowed run.old task.now.problem.now.clauses task.now.budget }
    requires bot { IsBot task.now.problem.now.clauses run.old.ground.abstraction.bot }
    requires constant { IsTrue (is_constant run.old.ground.abstraction.bot) }
    requires bot_name { IsTrue (is_readable_name run.old.ground.abstraction.bot.name) }
    requires positive { I.pairs partners.positive ≡ [] }
    requires negative { I.pairs partners.negative ≡ [] }
    requires printable { IsPrintableProblem task.now.problem.now }
    ensures ending { IfOk result (λ o. IfSome o (λ e. IsEndingAfter task.now e run.new.log)) }
    ensures appended { IfOk result (λ o. IfSome o (λ e. IsWithinBudget task.now (events_of run.new.log (entries_left e)))) }
    ensures unbounded { choices.most_entries ≡ None → IfOk result IsSome }
{
    let Choices {
        first_values,
        most_entries,
    } = choices;
    let given = start(alloc, task, run, first_values)?;
    match cycle(alloc, run, &mut partners, task, most_entries)? {
        Stop::Refuted(derivation) => {
            let ending = refuted_ending(alloc, task, run, given, derivation)?;
            Ok(Some(ending))
        }
        Stop::Finished => {
            let ending = finish(alloc, task, run, &partners, given)?;
            Ok(Some(ending))
        }
        Stop::GivenUp => Ok(None),
    }
}

// What is left of the budget at first.
fn left_at_first(task: &Task<'_>) -> Option<u64>
    ensures free { is_function_free task.now.problem.now.clauses ≡ true → result ≡ None }
    ensures budgeted { is_function_free task.now.problem.now.clauses ≡ false → result ≡ Some task.now.budget }
{
    if function_free(task.problem) {
        None
    } else {
        Some(task.budget)
    }
}

// The indexes of a run without entries: of the selected literals, and of the entries' first literals.
#[derive(Drop)]
struct Indexes<I: PartnerIndex> {
    selected: Partners<I>,
    first: I,
}

// How a run ended, where it was not given up, and its log.
#[derive(Drop)]
struct EndedRun {
    ending: Option<Ending>,
    log: EventLog,
}

// Makes the run, and lets it work until it ends. It is gone when the certificate and the journal are made, as are its indexes. It
// stands in a box: a function that holds so many maps by itself takes long to prove.
fn ended_run<S: Solver, I: PartnerIndex>(
    alloc: Global,
    task: &Task<'_>,
    solvers: Solvers<S>,
    indexes: Indexes<I>,
    choices: Choices<S>,
) -> Result<EndedRun, Memory>
    requires abstractions { IsNew S.atoms S.added solvers.abstractions }
    requires known { IsNew S.atoms S.added solvers.known }
    requires positive { I.pairs indexes.selected.positive ≡ [] }
    requires negative { I.pairs indexes.selected.negative ≡ [] }
    requires first { I.pairs indexes.first ≡ [] }
    requires printable { IsPrintableProblem task.now.problem.now }
    requires budget { task.now.budget ≤ 1000000000000 }
    ensures ending { IfOk result (λ r. IfSome r.ending (λ e. IsEndingAfter task.now e r.log)) }
    ensures appended { IfOk result (λ r. IfSome r.ending (λ e. IsWithinBudget task.now (events_of r.log (entries_left e)))) }
    ensures unbounded { choices.most_entries ≡ None → IfOk result (λ r. IsSome r.ending) }
{
    let bot = bot_of(alloc, task.problem)?;
    let Indexes { selected, first } = indexes;
    let mut run = Box::new(
        alloc,
        new_run(alloc, solvers, first, bot, left_at_first(task)),
    )?;
    let ending = drive(alloc, task, &mut run, selected, choices)?;
    let log = replace(&mut run.log, EventLog::new(alloc));
    Ok(EndedRun { ending, log })
}

// The outcome of the run, or nothing where it was given up. What is not needed is let go here.
fn outcome_where_ended<S: Solver>(
    alloc: Global,
    task: &Task<'_>,
    run: EndedRun,
    last: S,
) -> Result<Option<Outcome>, Memory>
    requires ending { IfSome run.ending (λ e. IsEndingAfter task.now e run.log) }
    requires appended { IfSome run.ending (λ e. IsWithinBudget task.now (events_of run.log (entries_left e))) }
    requires last { IsNew S.atoms S.added last }
    ensures outcome { IfOk result (λ o. IfSome o (IsOutcomeFor task.now)) }
    ensures appended { IfOk result (λ o. IfSome o (λ it. IsWithinBudget task.now (journal_of it))) }
    ensures ended { IsSome run.ending → IfOk result IsSome }
{
    let EndedRun { ending, log } = run;
    match ending {
        Some(ending) => {
            let outcome = outcome_of(alloc, task, ending, last, &log)?;
            Ok(Some(outcome))
        }
        None => Ok(None),
    }
}

/// Runs the engine on the problem's clauses and their axioms of equality. The solver `known` has the clauses of the entries, and a
/// conclusion of which they imply a proper part is cut to such a part; `last` is asked for a derivation from the ground lines of a
/// refutation whose members have such parts. The budget counts the symbols and variables of the entries that are appended; it does
/// not count on problems without function symbols, where the entries are bounded anyway. An empty part has no symbols, and nothing
/// is appended after one. There is room for 2^32 - 1 literals of entries, for as many changes of atoms over all solves, and for 2^31
/// different ground atoms: beyond that it wants memory.
pub fn run<S: Solver, I: PartnerIndex>(
    alloc: Global,
    p: &Problem,
    solver: S,
    known: S,
    last: S,
    positive: I,
    negative: I,
    first: I,
    budget: u64,
) -> Result<Outcome, Memory>
    requires solver { IsNew S.atoms S.added solver }
    requires known { IsNew S.atoms S.added known }
    requires last { IsNew S.atoms S.added last }
    requires positive { I.pairs positive ≡ [] }
    requires negative { I.pairs negative ≡ [] }
    requires first { I.pairs first ≡ [] }
    requires clauses { All IsPrintableClause p.now.clauses }
    requires named { length p.now.names ≡ length p.now.clauses }
    requires readable { All (λ n. IsTrue (is_readable_name n)) p.now.names }
    requires budget { budget ≤ 1000000000000 }
    ensures outcome { IfOk result (IsOutcome p.now.clauses p.now.names budget) }
    ensures function_free { IfOk result (λ o. IsTrue (is_function_free p.now.clauses) → IsDecided o) }
    ensures appended { IfOk result (λ o. IsFalse (is_function_free p.now.clauses) → appended_count (journal_of o) ≤ suc budget) }
{
    match run_with(
        alloc,
        p,
        solver,
        known,
        last,
        positive,
        negative,
        first,
        budget,
        Choices::plain(),
    )? {
        Some(outcome) => Ok(outcome),
        None => unreachable!(),
    }
}

/// What `run` does, with these choices: what it asks for is the same, and so is what it answers, clause for clause, where it is not
/// given up. Nothing comes where it is.
pub fn run_with<S: Solver, I: PartnerIndex>(
    alloc: Global,
    p: &Problem,
    solver: S,
    known: S,
    last: S,
    positive: I,
    negative: I,
    first: I,
    budget: u64,
    choices: Choices<S>,
) -> Result<Option<Outcome>, Memory>
    requires solver { IsNew S.atoms S.added solver }
    requires known { IsNew S.atoms S.added known }
    requires last { IsNew S.atoms S.added last }
    requires positive { I.pairs positive ≡ [] }
    requires negative { I.pairs negative ≡ [] }
    requires first { I.pairs first ≡ [] }
    requires clauses { All IsPrintableClause p.now.clauses }
    requires named { length p.now.names ≡ length p.now.clauses }
    requires readable { All (λ n. IsTrue (is_readable_name n)) p.now.names }
    requires budget { budget ≤ 1000000000000 }
    ensures outcome { IfOk result (λ o. IfSome o (IsOutcome p.now.clauses p.now.names budget)) }
    ensures function_free { IfOk result (λ o. IfSome o (λ it. IsTrue (is_function_free p.now.clauses) → IsDecided it)) }
    ensures appended { IfOk result (λ o. IfSome o (λ it. IsFalse (is_function_free p.now.clauses) → appended_count (journal_of it) ≤ suc budget)) }
    ensures unbounded { choices.most_entries ≡ None → IfOk result IsSome }
{
    let task = Task { problem: p, budget };
    let solvers = Solvers {
        abstractions: solver,
        known,
    };
    let indexes = Indexes {
        selected: Partners { positive, negative },
        first,
    };
    let run = ended_run(alloc, &task, solvers, indexes, choices)?;
    outcome_where_ended(alloc, &task, run, last)
}
