// The check of the steps of a refutation, as steps over numbers. An atom's id serves as its number: equal atoms have equal ids,
// so no table is built.
ghost use Rattle.std.specs.Prelude.{◌≡◌, ◌↔◌, ℕ, All, IfErr, IfOk, IsTrue, OnOk, ◌+◌, ◌<◌, length, map};
ghost use Rattle.inst_calculus.specs.Steps.{EndsEmpty};
ghost use Rattle.term_bank.specs.Forest.{Forest, clause_at};
ghost use Rattle.cert_values.specs.Values.{step_of};
ghost use Rattle.cert_values.specs.Wholes.{IsWholeClause};
ghost use Rattle.prop_logic.specs.Literal.{AllAtomsBelow, StepsBelow};
ghost use Rattle.cert_check.specs.Answers.{IsCheckCause};
ghost use Rattle.cert_check.specs.Firsts.{IsFirstWrongOf};
ghost use Rattle.cert_check.specs.Numbered.{IsRightNumber, numbered_hint, numbered_step};
ghost use Rattle.cert_check.specs.Stages.{IsRightStepNumber, StepsPass};

use crate::error::CheckError;
use cert_format::Complaint;
use cert_values::{GroundHint, GroundHintList, GroundLineList, GroundStepList};
use inst_logic::{Memory, Signed};
use proof_log::Checker;
use prop_logic::{Derivation, Hint, HintList, LitList, LitLists, Step};
use std::alloc::Global;
use term_bank::{Bank, IdClause, IdClauseList};

fn numbered_clause(alloc: Global, c: &IdClause) -> Result<LitList, Memory>
    ensures { IfOk result (λ d. d ≡ c.now) }
{
    let mut literals = LitList::from(Vec::with_capacity(alloc, c.len())?);
    for l in c.as_slice() {
        literals.push(Signed {
            positive: l.positive,
            atom: l.atom.number(),
        })?;
    }
    Ok(literals)
}

// The clauses with the number of each atom in its place.
pub fn numbered_clauses(alloc: Global, clauses: &IdClauseList) -> Result<LitLists, Memory>
    ensures { IfOk result (λ ds. ds ≡ clauses.now) }
{
    let mut lists = LitLists::from(Vec::with_capacity(alloc, clauses.len())?);
    for c in clauses.as_slice() {
        lists.push(numbered_clause(alloc, c)?)?;
    }
    Ok(lists)
}

// The clauses of the lines with the number of each atom in its place.
pub fn numbered_lines(alloc: Global, lines: &GroundLineList) -> Result<LitLists, Memory>
    ensures { IfOk result (λ ds. ds ≡ map (λ l. l.clause) lines.now) }
{
    let mut lists = LitLists::from(Vec::with_capacity(alloc, lines.len())?);
    for line in lines.as_slice() {
        lists.push(numbered_clause(alloc, &line.clause)?)?;
    }
    Ok(lists)
}

fn numbered_hint(hint: &GroundHint) -> Hint
    ensures { result ≡ numbered_hint hint.now }
{
    match hint {
        GroundHint::Ground(n) => Hint::Added(*n),
        GroundHint::Step(n) => Hint::Step(*n),
    }
}

fn numbered_hints(alloc: Global, hints: &GroundHintList) -> Result<HintList, Memory>
    ensures { IfOk result (λ hs. hs ≡ map numbered_hint hints.now) }
{
    let mut list = HintList::from(Vec::with_capacity(alloc, hints.len())?);
    for hint in hints.as_slice() {
        list.push(numbered_hint(hint))?;
    }
    Ok(list)
}

// The steps with the number of each atom in its place.
fn numbered_steps(alloc: Global, steps: &GroundStepList) -> Result<Derivation, Memory>
    ensures { IfOk result (λ ds. ds ≡ map numbered_step steps.now) }
{
    let mut derivation = Derivation::from(Vec::with_capacity(alloc, steps.len())?);
    for step in steps.as_slice() {
        let clause = numbered_clause(alloc, &step.clause)?;
        let hints = numbered_hints(alloc, &step.hints)?;
        derivation.push(Step { clause, hints })?;
    }
    Ok(derivation)
}

// Whether step `i`, counted from 0, has a hint and is shown.
fn is_right(checker: &mut Checker, given: &LitLists, derivation: &Derivation, i: usize) -> bool
    requires given { AllAtomsBelow checker.old given.now }
    requires derivation { StepsBelow checker.old derivation.now }
    requires within { i < length derivation.now }
    ensures room { checker.new ≡ checker.old }
    ensures right { IsTrue result ↔ IsRightNumber given.now derivation.now (i + 1) }
{
    if derivation.as_slice()[i].hints.is_empty() {
        return false;
    }
    checker.step(given, derivation, i + 1)
}

// The number of the first step that has no hint or is not shown.
fn first_wrong(checker: &mut Checker, given: &LitLists, derivation: &Derivation) -> Option<usize>
    requires given { AllAtomsBelow checker.old given.now }
    requires derivation { StepsBelow checker.old derivation.now }
    ensures { IsFirstWrongOf (IsRightNumber given.now derivation.now) result }
{
    for i in 0..derivation.len() {
        if !is_right(checker, given, derivation, i) {
            return Some(i + 1);
        }
    }
    None
}

// The number of the first step that has no hint or is not shown from the given clauses and the steps before it.
fn wrong_step(
    alloc: Global,
    bank: &Bank,
    given: &LitLists,
    steps: &GroundStepList,
) -> Result<Option<usize>, Memory>
    requires given { AllAtomsBelow (length bank.now.trees) given.now }
    requires steps { All (λ s. IsWholeClause bank.now s.clause) steps.now }
    ensures { IfOk result (IsFirstWrongOf (IsRightStepNumber (map (clause_at bank.now) given.now) (map (step_of bank.now) steps.now))) }
{
    let derivation = numbered_steps(alloc, steps)?;
    let mut checker = Checker::with_room(alloc, bank.len(), given, &derivation)?;
    Ok(first_wrong(&mut checker, given, &derivation))
}

// Whether there is a last step and it is the empty clause.
fn ends_empty(steps: &GroundStepList) -> bool
    ensures { (f : Forest) → IsTrue result ↔ EndsEmpty (map (step_of f) steps.now) }
{
    match steps.as_slice().last() {
        Some(step) => step.clause.is_empty(),
        None => false,
    }
}

// The first complaint about the steps, if there is one: of a step, or else of the end.
pub fn check_steps(
    alloc: Global,
    bank: &Bank,
    given: &LitLists,
    steps: &GroundStepList,
) -> Result<(), CheckError>
    requires given { AllAtomsBelow (length bank.now.trees) given.now }
    requires steps { All (λ s. IsWholeClause bank.now s.clause) steps.now }
    ensures shown { OnOk result ((n : ℕ) → IsRightStepNumber (map (clause_at bank.now) given.now) (map (step_of bank.now) steps.now) n) }
    ensures empty { OnOk result (EndsEmpty (map (step_of bank.now) steps.now)) }
    ensures complaint { IfErr result (IsCheckCause (StepsPass (map (clause_at bank.now) given.now) (map (step_of bank.now) steps.now))) }
{
    if let Some(n) = wrong_step(alloc, bank, given, steps)? {
        return Err(CheckError::Complaint(Complaint::Step { n }));
    }
    if !ends_empty(steps) {
        return Err(CheckError::Complaint(Complaint::NotEmpty));
    }
    Ok(())
}
