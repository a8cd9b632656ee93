// The steps of a log, each a clause with the hints that show it, as in LRAT (Cruz-Filipe and others, Efficient certified RAT
// verification, 2017). Their clauses lie one after the other in one list, and so do their hints, each literal and each hint in
// four bytes: a search keeps all its steps, and a derivation, whose steps own lists of sixteen bytes an item, takes four times as
// much and more.
ghost use Rattle.std.specs.Prelude.{◌≡◌, ◌++◌, ◌∷◌, [], length, map, slice_get, option_copied, IfOk, OnOk, OnErr};

use crate::packed_hint::PackedHint;
use compact_lists::{FlatClauses, FlatLists, PackedLit};
use inst_logic::Memory;
use prop_logic::Lit;
use std::alloc::Global;
use std::marker::Model;

// The literals in a list of their own.
pub(crate) fn unpack(alloc: Global, clause: &[PackedLit]) -> Result<Vec<Lit>, Memory>
    ensures { IfOk result (λ literals. literals.items ≡ clause.now) }
{
    let mut literals = Vec::with_capacity(alloc, clause.len())?;
    for packed in clause {
        literals.push(packed.lit())?;
    }
    Ok(literals)
}

// The clause of each step, and its hints.
#[derive(Drop)]
pub(crate) struct Steps {
    clauses: FlatClauses,
    hints: FlatLists<PackedHint>,
}

impl Model for Steps {
    ghost use Rattle.std.specs.Prelude.{◌≡◌, List, length};
    ghost use Rattle.prop_logic.specs.declared.literal.Step.{Step};
    ghost use Rattle.cdcl_core.specs.Steps.{steps_of};

    ghost Value = { List Step };

    ghost view = { λ s. steps_of s.clauses s.hints };

    ghost invariant = { λ s. length s.hints ≡ length s.clauses };
}

impl Steps {
    // No steps.
    pub(crate) fn new(alloc: Global) -> Steps
        ensures { result ≡ [] }
    {
        Steps {
            clauses: FlatClauses::new(alloc),
            hints: FlatLists::new(alloc),
        }
    }

    // How many steps.
    pub(crate) fn len(&self) -> usize
        ensures { result ≡ length self.now }
    {
        self.clauses.len()
    }

    // The clause of the step at the place, counted from 0.
    pub(crate) fn clause(&self, place: usize) -> Option<&[PackedLit]>
        ensures { option_copied result ≡ slice_get (map (λ s. s.clause) self.now) place }
    {
        self.clauses.get(place)
    }

    // Its hints.
    pub(crate) fn hints(&self, place: usize) -> Option<&[PackedHint]>
        ensures { option_copied result ≡ slice_get (map (λ s. s.hints) self.now) place }
    {
        self.hints.get(place)
    }

    // Ends the steps with this one. Where memory is refused nothing is changed.
    pub(crate) fn push(&mut self, clause: &[Lit], hints: &[PackedHint]) -> Result<(), Memory>
        ensures ok { OnOk result (self.new ≡ self.old ++ (record { clause = clause.now; hints = hints.now }) ∷ []) }
        ensures err { OnErr result (self.new ≡ self.old) }
    {
        self.hints.push(hints)?;
        let pushed = self.clauses.push(clause);
        if pushed.is_err() {
            self.hints.truncate(self.clauses.len());
        }
        pushed
    }
}
