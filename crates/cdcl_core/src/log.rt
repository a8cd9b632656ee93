// The added clauses and the steps, and by which of these a clause is known to the trail. The trail's number of a forgotten
// clause may be given again, while its step stays here, since other steps may cite it: so the two kinds of numbers are kept
// apart.
ghost use Rattle.std.specs.Prelude.{◌≡◌, [], ◌∷◌, ◌<◌, ℕ, List, Some, IsTrue, length, map, slice_get, option_copied};
ghost use Rattle.inst_logic.specs.declared.signed.Signed.{Signed};
ghost use Rattle.inst_logic.specs.Derivations.{at_number};
ghost use Rattle.prop_logic.specs.Literal.{cited, AtomsBelow, AllAtomsBelow, StepsBelow};
ghost use Rattle.prop_logic.specs.declared.literal.Hint.{Hint};
ghost use Rattle.cdcl_trail.specs.declared.entry.Entry.{Entry};
ghost use Rattle.cdcl_trail.specs.Propagation.{GivesUnit};
ghost use Rattle.cdcl_core.specs.Log.{IsNamed};

use crate::names::Names;
use crate::packed_hint::PackedHint;
use crate::steps::Steps;
use compact_lists::{FlatClauses, PackedLit};
use prop_logic::{Hint, Lit};
use std::alloc::Global;

// `names` has for the number of each clause what cites it here, and `units` for some atoms the step that has their literal
// alone. No proof rests on `units`: what it has is looked at before it is used.
#[derive(Drop)]
pub(crate) struct Log {
    pub(crate) added: FlatClauses,
    pub(crate) steps: Steps,
    pub(crate) names: Names,
    pub(crate) units: Names,
}

impl Log {
    pub(crate) fn new(alloc: Global) -> Log
        ensures added { result.added ≡ [] }
        ensures steps { result.steps ≡ [] }
    {
        Log {
            added: FlatClauses::new(alloc),
            steps: Steps::new(alloc),
            names: Names::new(alloc),
            units: Names::new(alloc),
        }
    }

    // What cites the clause of this number. Number 0 of the added clauses is none.
    pub(crate) fn hint_of(&self, number: usize) -> PackedHint
        ensures { (h : Hint) → slice_get self.now.names number ≡ Some h → result ≡ h }
    {
        self.names.get(number).unwrap_or(PackedHint::none())
    }

    // The added clause of this number, counted from 1.
    fn added_clause(&self, number: usize) -> Option<&[PackedLit]>
        ensures { option_copied result ≡ at_number self.now.added number }
    {
        if number == 0 {
            return None;
        }
        self.added.get(number - 1)
    }

    // The clause of the step of this number, counted from 1.
    fn step_clause(&self, number: usize) -> Option<&[PackedLit]>
        ensures { option_copied result ≡ at_number (map (λ s. s.clause) self.now.steps) number }
    {
        if number == 0 {
            return None;
        }
        self.steps.clause(number - 1)
    }

    // The clause that the hint cites, if it cites one.
    fn find(&self, hint: PackedHint) -> Option<&[PackedLit]>
        ensures { option_copied result ≡ cited self.now.added self.now.steps hint }
    {
        match hint.hint() {
            Hint::Added(number) => self.added_clause(number),
            Hint::Step(number) => self.step_clause(number),
        }
    }

    // The clause that the hint cites, or no literals where it cites none.
    pub(crate) fn cited_clause(&self, hint: PackedHint) -> &[PackedLit]
        ensures below { (n : ℕ) → AllAtomsBelow n self.now.added → StepsBelow n self.now.steps → AtomsBelow n result.now }
        ensures clause { (c : List (Signed ℕ)) → cited self.now.added self.now.steps hint ≡ Some c → result.now ≡ c }
        ensures some { 0 < length result.now → cited self.now.added self.now.steps hint ≡ Some result.now }
    {
        match self.find(hint) {
            Some(clause) => clause,
            None => &[],
        }
    }

    // Whether the hint cites the literal alone.
    pub(crate) fn is_unit(&self, hint: PackedHint, lit: Lit) -> bool
        ensures { IsTrue result → cited self.now.added self.now.steps hint ≡ Some (lit ∷ []) }
    {
        let clause = self.cited_clause(hint);
        clause.len() == 1 && clause[0].lit() == lit
    }

    // What cites the literal alone, if that is known, and else the clause of this number, which gave it.
    pub(crate) fn given_by(&self, lit: Lit, number: usize) -> PackedHint
        ensures { (before : List Entry) (c : List (Signed ℕ)) → IsNamed self.now number c → GivesUnit before c lit → (d : List (Signed ℕ)) × (cited self.now.added self.now.steps result ≡ Some d) × GivesUnit before d lit }
    {
        let unit = self.units.get(lit.atom).unwrap_or(PackedHint::none());
        if self.is_unit(unit, lit) {
            return unit;
        }
        self.hint_of(number)
    }
}
