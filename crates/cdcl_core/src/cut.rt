// Derivations without the steps that their last step does not need, which are found from the last one back (Goldberg and Novikov,
// Verification of proofs of unsatisfiability for CNF formulas, 2003). The log keeps the steps of all questions, and an answer
// needs few of them. Even so a mark and a number for each step of the log cost less than ordered sets of the steps that are kept.
ghost use Rattle.std.specs.Prelude.{◌≡◌, ◌<◌, ◌≤◌, ◌+◌, ◌++◌, ◌∷◌, [], ℕ, length, Some, All, slice_get, IfOk};
ghost use Rattle.std.specs.List.{AllZip};
ghost use Rattle.prop_logic.specs.declared.literal.Step.{Step};
ghost use Rattle.prop_logic.specs.Cut.{IsCutOf};
ghost use Rattle.cdcl_core.specs.Cut.{CitesOnly, Rises, IsMarked, AreNeeded, AreNumbers, IsRenamed, IsCopy};

use crate::packed_hint::PackedHint;
use crate::steps::{Steps, unpack};
use inst_logic::Memory;
use prop_logic::{Derivation, Hint, HintList, LitList, Step};
use std::alloc::Global;
use std::marker::Model;

// The step that an answer ends its derivation with. It is not in the log.
#[derive(Drop)]
pub(crate) struct LastStep {
    pub(crate) clause: LitList,
    pub(crate) hints: Vec<PackedHint>,
}

impl Model for LastStep {
    ghost use Rattle.prop_logic.specs.declared.literal.Step.{Step};

    ghost Value = { Step };

    ghost view = { λ s. record { clause = s.clause; hints = s.hints.items } };
}

// Marks the step that the hint cites, if its place is below `limit`.
fn mark_cited(needed: &mut [bool], limit: usize, hint: Hint)
    requires { limit ≤ length needed.old }
    ensures cited { CitesOnly (IsMarked needed.new) limit hint }
    ensures kept { (k : ℕ) → IsMarked needed.old k → IsMarked needed.new k }
    ensures above { (k : ℕ) → limit ≤ k → IsMarked needed.new k → IsMarked needed.old k }
{
    if let Hint::Step(n) = hint {
        if 0 < n && n <= limit {
            needed[n - 1] = true;
        }
    }
}

// Marks the steps that the hints cite, of those whose places are below `limit`.
fn mark_all(needed: &mut [bool], limit: usize, hints: &[PackedHint])
    requires { limit ≤ length needed.old }
    ensures cited { All (CitesOnly (IsMarked needed.new) limit) hints.now }
    ensures kept { (k : ℕ) → IsMarked needed.old k → IsMarked needed.new k }
    ensures above { (k : ℕ) → limit ≤ k → IsMarked needed.new k → IsMarked needed.old k }
{
    for hint in hints {
        mark_cited(needed, limit, hint.hint());
    }
}

// The hints of the step at the place, where one more stands behind the others.
fn hints_at<'a>(steps: &'a Steps, last: &'a LastStep, place: usize) -> &'a [PackedHint]
    requires { place ≤ length steps.now }
    ensures { (s : Step) → slice_get (steps.now ++ last.now ∷ []) place ≡ Some s → result.now ≡ s.hints }
{
    match steps.hints(place) {
        Some(hints) => hints,
        None => last.hints.as_slice(),
    }
}

// A copy of the clause of the step at the place.
fn clause_at(alloc: Global, steps: &Steps, last: &LastStep, place: usize) -> Result<LitList, Memory>
    requires { place ≤ length steps.now }
    ensures { IfOk result (λ clause. (s : Step) → slice_get (steps.now ++ last.now ∷ []) place ≡ Some s → clause ≡ s.clause) }
{
    match steps.clause(place) {
        Some(clause) => Ok(LitList::from(unpack(alloc, clause)?)),
        None => Ok(LitList::from(Vec::from_slice(alloc, last.clause.as_slice())?)),
    }
}

// The places of the steps that the last one needs, and its own, which is behind the others. They are gone through from the
// last on, so that what a step cites is marked before its turn comes.
fn needed_places(
    alloc: Global,
    steps: &Steps,
    last: &LastStep,
    count: usize,
) -> Result<Vec<usize>, Memory>
    requires { count ≡ length steps.now + 1 }
    ensures { IfOk result (λ places. AreNeeded (steps.now ++ last.now ∷ []) places.items) }
{
    let mut needed = vec![in alloc; false; count]?;
    let mut places = Vec::new(alloc);
    needed[count - 1] = true;
    for place in (0..needed.len()).rev() {
        if needed[place] {
            places.push(place)?;
            mark_all(&mut needed, place, hints_at(steps, last, place));
        }
    }
    places.reverse();
    Ok(places)
}

// For each of the places, which are below `count`, its number among them, counted from 1. At other places stands 0.
fn numbers_of(alloc: Global, places: &[usize], count: usize) -> Result<Vec<usize>, Memory>
    requires rising { Rises places.now }
    requires within { All (λ k. k < count) places.now }
    ensures { IfOk result (λ numbers. AreNumbers places.now numbers.items) }
{
    let mut numbers = vec![in alloc; 0; count]?;
    for (i, place) in places.iter().enumerate() {
        numbers[*place] = i + 1;
    }
    Ok(numbers)
}

// The hint with the new number of its step. Number 0 names no step.
fn renumber_one(numbers: &[usize], hint: Hint) -> Hint
    ensures { IsRenamed numbers.now hint result }
{
    match hint {
        Hint::Added(n) => Hint::Added(n),
        Hint::Step(n) => {
            if 0 < n && n <= numbers.len() {
                Hint::Step(numbers[n - 1])
            } else {
                Hint::Step(0)
            }
        }
    }
}

fn renumber(alloc: Global, numbers: &[usize], hints: &[PackedHint]) -> Result<HintList, Memory>
    ensures { IfOk result (AllZip (IsRenamed numbers.now) hints.now) }
{
    let mut others = Vec::with_capacity(alloc, hints.len())?;
    for hint in hints {
        others.push(renumber_one(numbers, hint.hint()))?;
    }
    Ok(HintList::from(others))
}

// A copy of the step at the place.
fn copy(
    alloc: Global,
    numbers: &[usize],
    steps: &Steps,
    last: &LastStep,
    place: usize,
) -> Result<Step, Memory>
    requires { place ≤ length steps.now }
    ensures { IfOk result (λ t. (s : Step) → slice_get (steps.now ++ last.now ∷ []) place ≡ Some s → IsCopy numbers.now s t) }
{
    let clause = clause_at(alloc, steps, last, place)?;
    let hints = renumber(alloc, numbers, hints_at(steps, last, place))?;
    Ok(Step { clause, hints })
}

// The steps that the last one needs, in their order, and a copy of it behind them.
pub(crate) fn needed_steps(
    alloc: Global,
    steps: &Steps,
    last: &LastStep,
) -> Result<Derivation, Memory>
    ensures { IfOk result (IsCutOf (steps.now ++ last.now ∷ [])) }
{
    let count = steps.len().checked_add(1).ok_or(Memory)?;
    let places = needed_places(alloc, steps, last, count)?;
    let numbers = numbers_of(alloc, &places, count)?;
    let mut kept = Derivation::new(alloc);
    for place in places.as_slice() {
        kept.push(copy(alloc, &numbers, steps, last, *place)?)?;
    }
    Ok(kept)
}
