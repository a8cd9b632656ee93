// Worked derivations over two atoms.
ghost use Rattle.std.specs.Prelude.{◌≡◌, ◌<◌, IfOk};
ghost use Rattle.prop_logic.specs.Literal.{AtomsBelow, AllAtomsBelow, StepsBelow};

use inst_logic::Memory;
use proof_log::{BadStep, Checker};
use prop_logic::{Derivation, Hint, HintList, Lit, LitList, LitLists, Step};
use std::alloc::Global;

fn literal(atom: usize, positive: bool) -> Lit
    requires { atom < 2 }
    ensures { result.atom < 2 }
{
    Lit { positive, atom }
}

fn two_literals(alloc: Global, a: Lit, b: Lit) -> Result<LitList, Memory>
    requires a { a.atom < 2 }
    requires b { b.atom < 2 }
    ensures { IfOk result (AtomsBelow 2) }
{
    let mut clause = LitList::new(alloc);
    clause.push(a)?;
    clause.push(b)?;
    Ok(clause)
}

fn two_clauses(alloc: Global, a: LitList, b: LitList) -> Result<LitLists, Memory>
    requires a { AtomsBelow 2 a }
    requires b { AtomsBelow 2 b }
    ensures { IfOk result (AllAtomsBelow 2) }
{
    let mut clauses = LitLists::new(alloc);
    clauses.push(a)?;
    clauses.push(b)?;
    Ok(clauses)
}

fn one_step(alloc: Global, clause: LitList, hints: HintList) -> Result<Derivation, Memory>
    requires { AtomsBelow 2 clause }
    ensures { IfOk result (StepsBelow 2) }
{
    let mut steps = Derivation::new(alloc);
    steps.push(Step { clause, hints })?;
    Ok(steps)
}

// 0 | 1 and ~0.
fn either_and_not_zero(alloc: Global) -> Result<LitLists, Memory>
    ensures { IfOk result (AllAtomsBelow 2) }
{
    let first = two_literals(alloc, literal(0, true), literal(1, true))?;
    let second = two_literals(alloc, literal(0, false), literal(0, false))?;
    two_clauses(alloc, first, second)
}

// 1 and ~1.
fn one_and_not_one(alloc: Global) -> Result<LitLists, Memory>
    ensures { IfOk result (AllAtomsBelow 2) }
{
    let first = two_literals(alloc, literal(1, true), literal(1, true))?;
    let second = two_literals(alloc, literal(1, false), literal(1, false))?;
    two_clauses(alloc, first, second)
}

// The step that shows 1 by these clauses.
fn shows_one(alloc: Global, hints: &[Hint]) -> Result<Derivation, Memory>
    ensures { IfOk result (StepsBelow 2) }
{
    let clause = two_literals(alloc, literal(1, true), literal(1, true))?;
    let hints = HintList::from(hints.to_vec(alloc)?);
    one_step(alloc, clause, hints)
}

// The step that shows the empty clause by these clauses.
fn shows_empty(alloc: Global, hints: &[Hint]) -> Result<Derivation, Memory>
    ensures { IfOk result (StepsBelow 2) }
{
    let hints = HintList::from(hints.to_vec(alloc)?);
    one_step(alloc, LitList::new(alloc), hints)
}

// Whether the steps 0, 1 and 2 are shown, and what is answered of all steps.
type Checked = ([bool; 3], Result<(), BadStep>);

fn checked_by(checker: &mut Checker, given: &LitLists, derivation: &Derivation) -> Checked
    requires room { checker.old ≡ 2 }
    requires given { AllAtomsBelow 2 given.now }
    requires derivation { StepsBelow 2 derivation.now }
{
    let shown = [
        checker.step(given, derivation, 0),
        checker.step(given, derivation, 1),
        checker.step(given, derivation, 2),
    ];
    (shown, checker.refutes(given, derivation))
}

fn checked(alloc: Global, given: &LitLists, derivation: &Derivation) -> Result<Checked, Memory>
    requires given { AllAtomsBelow 2 given.now }
    requires derivation { StepsBelow 2 derivation.now }
{
    let mut checker = Checker::with_room(alloc, 2, given, derivation)?;
    Ok(checked_by(&mut checker, given, derivation))
}

fn last_step(alloc: Global) -> Result<Checked, Memory> {
    let given = either_and_not_zero(alloc)?;
    let derivation = shows_one(alloc, &[Hint::Added(2), Hint::Added(1)])?;
    checked(alloc, &given, &derivation)
}

/// From `0 | 1` and `~0` the step `1` is shown.
pub fn last_step_is_not_empty(alloc: Global) -> Result<bool, Memory> {
    Ok(last_step(alloc)? == ([false, true, false], Err(BadStep::NotEmpty)))
}

// What one checker answers of three derivations.
fn refuted_by(
    checker: &mut Checker,
    given: &LitLists,
    shown: &Derivation,
    unshown: &Derivation,
    none: &Derivation,
) -> [Result<(), BadStep>; 3]
    requires room { checker.old ≡ 2 }
    requires given { AllAtomsBelow 2 given.now }
    requires shown { StepsBelow 2 shown.now }
    requires unshown { StepsBelow 2 unshown.now }
    requires none { StepsBelow 2 none.now }
{
    [
        checker.refutes(given, shown),
        checker.refutes(given, unshown),
        checker.refutes(given, none),
    ]
}

fn refuted(
    alloc: Global,
    given: &LitLists,
    shown: &Derivation,
    unshown: &Derivation,
) -> Result<[Result<(), BadStep>; 3], Memory>
    requires given { AllAtomsBelow 2 given.now }
    requires shown { StepsBelow 2 shown.now }
    requires unshown { StepsBelow 2 unshown.now }
{
    let none = Derivation::new(alloc);
    let mut checker = Checker::with_room(alloc, 2, given, shown)?;
    Ok(refuted_by(&mut checker, given, shown, unshown, &none))
}

fn empty_clauses(alloc: Global) -> Result<[Result<(), BadStep>; 3], Memory> {
    let given = one_and_not_one(alloc)?;
    let shown = shows_empty(alloc, &[Hint::Added(1), Hint::Added(1), Hint::Added(2)])?;
    let unshown = shows_empty(alloc, &[Hint::Added(1)])?;
    refuted(alloc, &given, &shown, &unshown)
}

/// `1` and `~1` are refuted, and a repeated hint is no fault; without the last hint the step is not shown.
pub fn empty_clause_is_shown(alloc: Global) -> Result<bool, Memory> {
    Ok(empty_clauses(alloc)? == [Ok(()), Err(BadStep::Step(1)), Err(BadStep::NotEmpty)])
}
