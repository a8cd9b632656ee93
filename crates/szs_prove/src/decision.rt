// What is decided of a problem.
ghost use Rattle.std.specs.Prelude.{◌≡◌, ◌≤◌, ℕ, [], IsSome, IsTrue, None, IfOk, IfSome};
ghost use Rattle.inst_logic.specs.Measure.{is_function_free};
ghost use Rattle.cert_front.specs.Kinds.{covered_value, refutation_value};
ghost use Rattle.instgen_loop.specs.Outcomes.{IsOutcome, IsRefutedRun, IsSaturatedRun};
ghost use Rattle.cert_format.specs.Printable.{IsPrintableProblem};
ghost use Rattle.szs_prove.specs.Decisions.{IsDecision, IsShownBy, IsStopped, IsVerdict};
ghost use Rattle.szs_prove.specs.declared.decision.Decision.TheVariants as decision;

use cdcl_core::Cdcl;
use cert_check::{CheckedCovered, CheckedRefutation};
use cert_format::covers::names_are_printable;
use cert_format::laws::valid_certificates_certify;
use cert_front::{accept_refutation, accept_saturation};
use cert_values::{Refutation, Saturation, refutation_numbers, saturation_numbers};
use inst_logic::{Memory, Problem, function_free};
use instgen_loop::{Choices, Journal, Outcome, run_with};
use std::alloc::Global;
use term_index::Tree;

// How many entries runs may have that are to decide soon or not at all, beside two for each clause of the problem: the usual one,
// and the one with new atoms true first.
const FEW_USUAL: usize = 4_000;

const FEW_TRUE_FIRST: usize = 8_000;

/// A certificate that the checker accepted, or what the budget left open.
#[derive(Drop)]
pub enum Decision {
    Unsatisfiable(CheckedRefutation),
    Satisfiable(CheckedCovered),
    /// What is left of the budget, and the size of the least conclusion that did not fit, in symbols; `u64::MAX` where it is
    /// larger.
    OutOfBudget { left: u64, wanted: u64 },
}

// The journal is let go here: it shows that the members come from a run, and no certificate has it.
fn checked_refutation(
    alloc: Global,
    p: &Problem,
    cert: Refutation,
    journal: Journal,
) -> Result<CheckedRefutation, Memory>
    requires problem { IsPrintableProblem p.now }
    requires outcome { IsRefutedRun p.now.clauses p.now.names cert journal }
    ensures { IfOk result (λ c. IsShownBy p.now (refutation_value c)) }
{
    refutation_numbers(&cert);
    valid_certificates_certify();
    drop(journal);
    accept_refutation(alloc, cert)
}

// What covers its clauses is found once, and checked once.
fn checked_saturation(
    alloc: Global,
    p: &Problem,
    cert: Saturation,
    journal: Journal,
) -> Result<CheckedCovered, Memory>
    requires problem { IsPrintableProblem p.now }
    requires outcome { IsSaturatedRun p.now.clauses p.now.names cert journal }
    ensures { IfOk result (λ c. IsShownBy p.now (covered_value c)) }
{
    saturation_numbers(&cert);
    valid_certificates_certify();
    names_are_printable();
    drop(journal);
    accept_saturation(alloc, cert)
}

// The decision of a run that ended with a refutation.
fn refutation_decision(
    alloc: Global,
    p: &Problem,
    cert: Refutation,
    journal: Journal,
) -> Result<Decision, Memory>
    requires problem { IsPrintableProblem p.now }
    requires outcome { IsRefutedRun p.now.clauses p.now.names cert journal }
    ensures { (budget : ℕ) → IfOk result (IsDecision p.now budget) }
{
    let checked = checked_refutation(alloc, p, cert, journal)?;
    Ok(Decision::Unsatisfiable(checked))
}

// The decision of a run that ended with a saturation.
fn saturation_decision(
    alloc: Global,
    p: &Problem,
    cert: Saturation,
    journal: Journal,
) -> Result<Decision, Memory>
    requires problem { IsPrintableProblem p.now }
    requires outcome { IsSaturatedRun p.now.clauses p.now.names cert journal }
    ensures { (budget : ℕ) → IfOk result (IsDecision p.now budget) }
{
    let checked = checked_saturation(alloc, p, cert, journal)?;
    Ok(Decision::Satisfiable(checked))
}

// The decision of a run that ended for want of budget. Where the run stopped is let go here.
fn open_decision(left: u64, wanted: u64, state: Saturation, journal: Journal) -> Decision
    ensures { result ≡ decision.OutOfBudget left wanted }
{
    drop(state);
    drop(journal);
    Decision::OutOfBudget { left, wanted }
}

// Has the checker judge what the engine answered in this budget. Each arm gives all that it owns to one call: a function that held a
// part of an outcome at a second way out would take long to prove.
fn decision_of(
    alloc: Global,
    p: &Problem,
    _budget: u64,
    outcome: Outcome,
) -> Result<Decision, Memory>
    requires problem { IsPrintableProblem p.now }
    requires outcome { IsOutcome p.now.clauses p.now.names _budget outcome }
    ensures { IfOk result (IsDecision p.now _budget) }
{
    match outcome {
        Outcome::Refuted { cert, journal } => refutation_decision(alloc, p, cert, journal),
        Outcome::Saturated { cert, journal } => saturation_decision(alloc, p, cert, journal),
        Outcome::OutOfBudget {
            left,
            wanted,
            state,
            journal,
        } => Ok(open_decision(left, wanted, state, journal)),
    }
}

// Makes one run, whose first solver has no atoms, with these choices, and has the checker judge what it answers. Nothing comes where
// it was given up.
fn decision_of_run(
    alloc: Global,
    p: &Problem,
    budget: u64,
    solver: Cdcl,
    choices: Choices<Cdcl>,
) -> Result<Option<Decision>, Memory>
    requires problem { IsPrintableProblem p.now }
    requires budget { budget ≤ 1000000000000 }
    requires atoms { solver.atoms ≡ 0 }
    requires added { solver.added ≡ [] }
    ensures decision { IfOk result (λ d. IfSome d (IsDecision p.now budget)) }
    ensures unbounded { choices.most_entries ≡ None → IfOk result IsSome }
{
    match run_with(
        alloc,
        p,
        solver,
        Cdcl::new(alloc),
        Cdcl::new(alloc),
        Tree::new(alloc),
        Tree::new(alloc),
        Tree::new(alloc),
        budget,
        choices,
    )? {
        Some(outcome) => {
            let decision = decision_of(alloc, p, budget, outcome)?;
            Ok(Some(decision))
        }
        None => Ok(None),
    }
}

// The order that is made to its end: new atoms are false first, but where their first value is known.
fn usual_choices(alloc: Global, most_entries: Option<usize>) -> Choices<Cdcl>
    ensures { result.most_entries ≡ most_entries }
{
    Choices {
        first_values: Some(Cdcl::new(alloc)),
        most_entries,
    }
}

// Makes the usual run to its end.
fn last_decision(alloc: Global, p: &Problem, budget: u64) -> Result<Decision, Memory>
    requires problem { IsPrintableProblem p.now }
    requires budget { budget ≤ 1000000000000 }
    ensures { IfOk result (IsDecision p.now budget) }
{
    let choices = usual_choices(alloc, None);
    match decision_of_run(alloc, p, budget, Cdcl::new(alloc), choices)? {
        Some(decision) => Ok(decision),
        None => unreachable!(),
    }
}

// The number `few`, and two for each clause of the problem.
fn entries_beside(p: &Problem, few: usize) -> usize {
    p.clauses.len().saturating_mul(2).saturating_add(few)
}

// What the usual run says where no run gives a verdict: the numbers with which it ended for want of budget; or it is made anew to
// its end, since it was given up.
fn decision_of_usual_run(
    alloc: Global,
    p: &Problem,
    budget: u64,
    left_open: Option<(u64, u64)>,
) -> Result<Decision, Memory>
    requires problem { IsPrintableProblem p.now }
    requires budget { budget ≤ 1000000000000 }
    requires left_open { IfSome left_open (λ o. IsStopped p.now budget o.0 o.1) }
    ensures { IfOk result (IsDecision p.now budget) }
{
    match left_open {
        Some((left, wanted)) => Ok(Decision::OutOfBudget { left, wanted }),
        None => last_decision(alloc, p, budget),
    }
}

// A run in which new atoms are true first, and what the usual run says where that gives no verdict.
fn decision_true_first(
    alloc: Global,
    p: &Problem,
    budget: u64,
    left_open: Option<(u64, u64)>,
) -> Result<Decision, Memory>
    requires problem { IsPrintableProblem p.now }
    requires budget { budget ≤ 1000000000000 }
    requires left_open { IfSome left_open (λ o. IsStopped p.now budget o.0 o.1) }
    ensures { IfOk result (IsDecision p.now budget) }
{
    let choices = Choices {
        first_values: None,
        most_entries: Some(entries_beside(p, FEW_TRUE_FIRST)),
    };
    match decision_of_run(alloc, p, budget, Cdcl::true_first(alloc), choices)? {
        None | Some(Decision::OutOfBudget { .. }) => {
            decision_of_usual_run(alloc, p, budget, left_open)
        }
        Some(decision) => Ok(decision),
    }
}

// The usual run, and others where that gives no verdict.
fn decision_by_turns(alloc: Global, p: &Problem, budget: u64) -> Result<Decision, Memory>
    requires problem { IsPrintableProblem p.now }
    requires budget { budget ≤ 1000000000000 }
    ensures { IfOk result (IsDecision p.now budget) }
{
    let choices = usual_choices(alloc, Some(entries_beside(p, FEW_USUAL)));
    match decision_of_run(alloc, p, budget, Cdcl::new(alloc), choices)? {
        Some(Decision::OutOfBudget { left, wanted }) => {
            decision_true_first(alloc, p, budget, Some((left, wanted)))
        }
        Some(decision) => Ok(decision),
        None => decision_true_first(alloc, p, budget, None),
    }
}

/// Runs the engine with clause learning and discrimination trees, and has the checker judge what it answers. The budget
/// counts as the engine's does: the symbols and variables of the instances that it appends, and only where the problem has
/// function symbols with arguments. On such problems what a run decides it mostly decides soon: so the usual run is given up
/// where it has many entries. Where it gives no verdict, one is made with new atoms true first, which is given up likewise, and
/// behind that the usual one anew, to its end, unless it came to its end before. Each has the whole budget, and the numbers of
/// an answer for want of it are those of the usual run.
pub fn decide(alloc: Global, p: &Problem, budget: u64) -> Result<Decision, Memory>
    requires problem { IsPrintableProblem p.now }
    requires budget { budget ≤ 1000000000000 }
    ensures decision { IfOk result (IsDecision p.now budget) }
    ensures function_free { IfOk result (λ d. IsTrue (is_function_free p.now.clauses) → IsVerdict d) }
{
    if function_free(p) {
        last_decision(alloc, p, budget)
    } else {
        decision_by_turns(alloc, p, budget)
    }
}
