// Clauses with values of their atoms that make all of them true, or all but the loose ones.
ghost use Rattle.std.specs.Prelude.{◌≡◌, ◌+◌, ◌<◌, ◌≤◌, ◌++◌, ◌∷◌, [], All, length, true, IfOk, OnOk, OnErr};
ghost use Rattle.prop_logic.specs.Literal.{AtomsBelow, AllAtomsBelow};
ghost use Rattle.inst_logic.specs.Truth.{IsTrueClause};
ghost use Rattle.prop_logic.specs.Valuation.{IsHeld};
ghost use Rattle.global_subs.specs.Notes.{KeepsNotes};
ghost use Rattle.global_subs.specs.Keeping.{AreKeptBy, IsMoved, AreMoved, HaveRoom, CanBeFalse};

use crate::fixed::Fixed;
use crate::moves::{clear_changed, move_changed, note_all};
use crate::notes::Notes;
use crate::repair::falsify;
use crate::turn::add_clause;
use crate::values::take_values;
use crate::witnesses::Witnesses;
use compact_lists::FlatClauses;
use inst_logic::Memory;
use prop_logic::{Lit, Valuation, changes};
use std::alloc::Global;
use std::marker::Model;

// Each clause that is not loose is noted at one literal that is true, so where an atom turns only the clauses that are noted
// at its literal are looked at (as with watched literals). A loose clause need not be true. The fixed atoms are
// those that are not turned for the last question.
#[derive(Drop)]
pub struct Kept {
    alloc: Global,
    clauses: FlatClauses,
    witnesses: Witnesses,
    fixed: Fixed,
}

impl Model for Kept {
    ghost use Rattle.std.specs.Prelude.{length};
    ghost use Rattle.global_subs.specs.Keeping.{AreKeptBy, Keeping};

    ghost Value = { Keeping };

    ghost view = { λ k. record { clauses = k.clauses; atoms = length k.witnesses.values } };

    ghost invariant = { λ k. AreKeptBy k.clauses k.witnesses };
}

// Notes the clauses at literals that the values make true: those at a literal of these atoms, and the loose ones.
fn note_again(
    clauses: &FlatClauses,
    notes: &mut Notes,
    loose: &[usize],
    values: &Valuation,
    atoms: &[usize],
) -> Result<(), Memory>
    requires room { HaveRoom clauses.now (length notes.old) }
    requires within { All (λ a. a + a + 1 < length notes.old) atoms.now }
    ensures len { length notes.new ≡ length notes.old }
    ensures keeps { KeepsNotes notes.old notes.new }
    ensures moved { OnOk result (AreMoved clauses.now notes.old notes.new values.now atoms.now) }
    ensures noted { OnOk result (All (IsMoved clauses.now notes.new values.now) loose.now) }
{
    move_changed(clauses, notes, values, atoms)?;
    note_all(clauses, notes, values, loose)?;
    Ok(())
}

// Takes other values, which make all clauses true.
fn adopt_values(
    alloc: Global,
    clauses: &FlatClauses,
    witnesses: &mut Witnesses,
    new: &Valuation,
) -> Result<(), Memory>
    requires within { length new.now ≤ length witnesses.old.values }
    requires holds { All (IsTrueClause (IsHeld new.now)) clauses.now }
    requires kept { AreKeptBy clauses.now witnesses.old }
    ensures kept { AreKeptBy clauses.now witnesses.new }
    ensures width { length witnesses.new.values ≡ length witnesses.old.values }
{
    let atoms = changes(alloc, &witnesses.values, new)?;
    note_again(clauses, &mut witnesses.notes, &witnesses.loose, new, &atoms)?;
    take_values(&mut witnesses.values, new, &atoms);
    clear_changed(&mut witnesses.notes, new, &atoms);
    witnesses.loose.truncate(0);
    Ok(())
}

impl Kept {
    // No clauses and atoms, which take no memory.
    pub fn new(alloc: Global) -> Kept
        ensures { result ≡ record { clauses = []; atoms = 0 } }
    {
        Kept {
            alloc,
            clauses: FlatClauses::new(alloc),
            witnesses: Witnesses::new(alloc),
            fixed: Fixed::new(alloc),
        }
    }

    // How many clauses.
    pub fn len(&self) -> usize
        ensures { result ≡ length self.now.clauses }
    {
        self.clauses.len()
    }

    // The atoms of the clauses are numbers below that of the atoms.
    pub fn below(&self)
        ensures { AllAtomsBelow self.now.atoms self.now.clauses }
    {
        let _ = self.clauses.len();
    }

    // Whether there is a loose clause.
    pub fn is_loose(&self) -> bool {
        !self.witnesses.loose.is_empty()
    }

    // One more atom, which is false.
    pub fn grow(&mut self) -> Result<(), Memory>
        ensures clauses { self.new.clauses ≡ self.old.clauses }
        ensures atoms { OnOk result (self.new.atoms ≡ self.old.atoms + 1) }
    {
        self.witnesses.notes.grow()?;
        self.witnesses.values.push(false)?;
        Ok(())
    }

    // Puts one more clause to the others.
    pub fn add(&mut self, c: &[Lit]) -> Result<(), Memory>
        requires { AtomsBelow self.old.atoms c.now }
        ensures atoms { self.new.atoms ≡ self.old.atoms }
        ensures added { OnOk result (self.new.clauses ≡ self.old.clauses ++ c.now ∷ []) }
        ensures held { OnErr result (self.new.clauses ≡ self.old.clauses) }
    {
        add_clause(&mut self.clauses, &mut self.witnesses, c)?;
        Ok(())
    }

    // Whether values are found that make the clause false and the others true, which are then kept.
    pub fn falsifies(&mut self, c: &[Lit]) -> Result<bool, Memory>
        requires { AtomsBelow self.old.atoms c.now }
        ensures same { self.new ≡ self.old }
        ensures refuted { IfOk result (λ refuted. refuted ≡ true → CanBeFalse self.old.clauses c.now) }
    {
        falsify(&self.clauses, &mut self.witnesses, &mut self.fixed, c)
    }

    // Takes other values, which make all clauses true.
    pub fn adopt(&mut self, new: &Valuation) -> Result<(), Memory>
        requires within { length new.now ≤ self.old.atoms }
        requires holds { All (IsTrueClause (IsHeld new.now)) self.old.clauses }
        ensures { self.new ≡ self.old }
    {
        adopt_values(self.alloc, &self.clauses, &mut self.witnesses, new)
    }
}
