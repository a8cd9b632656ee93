// The checker of derivations. Its room is taken once, before the first step, so that a check has no answer but yes and no.
ghost use Rattle.std.specs.Prelude.{◌≡◌, ◌↔◌, ℕ, [], IsTrue, IfOk, OnOk, IsOk, MatchOption};
ghost use Rattle.std.specs.Result.{IsErrOf};
ghost use Rattle.inst_logic.specs.Truth.{IsRefuted};
ghost use Rattle.prop_logic.specs.Literal.{IsShownDerivation, AllAtomsBelow, StepsBelow};
ghost use Rattle.prop_logic.specs.Solving.{EndsWith};
ghost use Rattle.proof_log.specs.declared.checker.BadStep.TheVariants.{Step as NotShown, NotEmpty};
ghost use Rattle.proof_log.specs.Shown.{IsShownNumber, IsFirstNotShown};
ghost use Rattle.proof_log.specs.Marks.{room};

use crate::marks::Marks;
use crate::propagation::is_shown;
use inst_logic::Memory;
use prop_logic::{Derivation, LitList, LitLists, Step};
use std::alloc::Global;
use std::marker::Model;

/// Why a derivation does not refute the given clauses.
#[derive(Clone, Copy, Debug, PartialEq, Eq)]
pub enum BadStep {
    /// The number of the first step that is not shown, counted from 1.
    Step(usize),
    /// All steps are shown, but there is none, or the last one is not the empty clause.
    NotEmpty,
}

/// A checker of derivations, seen as the number of atoms that it has room for (reverse unit propagation; Goldberg and
/// Novikov, Verification of proofs of unsatisfiability for CNF formulas, 2003; here with hints, as in Cruz-Filipe and others,
/// Efficient certified RAT verification, 2017). A step takes time in proportion to its literals and those of the clauses that
/// its hints cite.
#[derive(Drop)]
pub struct Checker {
    marks: Marks,
}

impl Model for Checker {
    ghost use Rattle.std.specs.Prelude.{ℕ};
    ghost use Rattle.proof_log.specs.Marks.{room};

    ghost Value = { ℕ };

    ghost view = { λ a. room a.marks };
}

// The number of the first step that is not shown, counted from 1.
fn first_not_shown(marks: &mut Marks, given: &[LitList], steps: &[Step]) -> Option<usize>
    requires given { AllAtomsBelow (room marks.old) given.now }
    requires steps { StepsBelow (room marks.old) steps.now }
    ensures room { room marks.new ≡ room marks.old }
    ensures first { MatchOption result (IsShownDerivation given.now steps.now) (λ n. IsFirstNotShown given.now steps.now n) }
{
    for (i, step) in steps.iter().enumerate() {
        if !is_shown(marks, given, &steps[..i], step) {
            return Some(i + 1);
        }
    }
    None
}

// Whether there is a last step and it is the empty clause.
fn ends_empty(steps: &[Step]) -> bool
    ensures { IsTrue result ↔ EndsWith steps.now [] }
{
    match steps.last() {
        None => false,
        Some(step) => step.clause.is_empty(),
    }
}

impl Checker {
    /// A checker for derivations over the atoms below `atoms`. It takes two numbers of 64 bits for each atom, and nothing for
    /// the clauses and steps, which only its contract names.
    pub fn with_room(
        alloc: Global,
        atoms: usize,
        given: &LitLists,
        derivation: &Derivation,
    ) -> Result<Checker, Memory>
        requires given { AllAtomsBelow atoms given.now }
        requires derivation { StepsBelow atoms derivation.now }
        ensures { IfOk result (λ checker. checker ≡ atoms) }
    {
        let marks = Marks::new(alloc, atoms)?;
        Ok(Checker { marks })
    }

    /// Whether step `n`, counted from 1, is shown from the given clauses and the steps before it. No where there is no such
    /// step.
    pub fn step(&mut self, given: &LitLists, derivation: &Derivation, n: usize) -> bool
        requires given { AllAtomsBelow self.old given.now }
        requires derivation { StepsBelow self.old derivation.now }
        ensures room { self.new ≡ self.old }
        ensures shown { IsTrue result ↔ IsShownNumber given.now derivation.now n }
    {
        let steps = derivation.as_slice();
        if n == 0 || steps.len() < n {
            return false;
        }
        is_shown(
            &mut self.marks,
            given.as_slice(),
            &steps[..n - 1],
            &steps[n - 1],
        )
    }

    /// Whether all steps are shown and the last one is the empty clause.
    pub fn refutes(&mut self, given: &LitLists, derivation: &Derivation) -> Result<(), BadStep>
        requires given { AllAtomsBelow self.old given.now }
        requires derivation { StepsBelow self.old derivation.now }
        ensures room { self.new ≡ self.old }
        ensures ok { IsOk result ↔ (IsShownDerivation given.now derivation.now × EndsWith derivation.now []) }
        ensures step { (n : ℕ) → IsErrOf result (NotShown n) ↔ IsFirstNotShown given.now derivation.now n }
        ensures not_empty { IsErrOf result NotEmpty ↔ (IsShownDerivation given.now derivation.now × ¬ EndsWith derivation.now []) }
        ensures refuted { OnOk result (IsRefuted given.now) }
    {
        let steps = derivation.as_slice();
        if let Some(n) = first_not_shown(&mut self.marks, given.as_slice(), steps) {
            return Err(BadStep::Step(n));
        }
        if !ends_empty(steps) {
            return Err(BadStep::NotEmpty);
        }
        Ok(())
    }
}
