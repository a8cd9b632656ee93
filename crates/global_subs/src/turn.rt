// One more clause is made true by the turn of one atom, where that leaves the others true.
ghost use Rattle.std.specs.Prelude.{◌≡◌, ◌+◌, ◌<◌, ◌≤◌, ◌++◌, ◌∷◌, [], ℕ, List, All, Contains, length, true, false, not, IfOk, IfSome, OnOk, OnErr};
ghost use Rattle.inst_logic.specs.declared.signed.Signed.{Signed};
ghost use Rattle.prop_logic.specs.Literal.{AtomsBelow, AllAtomsBelow};
ghost use Rattle.prop_logic.specs.Valuation.{value_at};
ghost use Rattle.global_subs.specs.Keeping.{IsTrueIn, AreWitnessed, AreKept, AreKeptBy};

use crate::moves::{are_true, move_notes};
use crate::notes::Notes;
use crate::values::true_of;
use crate::witnesses::Witnesses;
use compact_lists::FlatClauses;
use inst_logic::Memory;
use prop_logic::{Lit, Valuation, complement};

// Makes a false literal true, where the clauses that are noted at its complement have other true literals.
fn turn(
    clauses: &FlatClauses,
    notes: &mut Notes,
    values: &mut Valuation,
    l: Lit,
) -> Result<bool, Memory>
    requires within { l.atom < length values.old }
    requires below { AllAtomsBelow (length values.old) clauses.now }
    requires room { length values.old + length values.old ≤ length notes.old }
    requires untrue { value_at values.old l.atom ≡ not l.positive }
    ensures kept { (loose : List ℕ) → AreWitnessed clauses.now notes.old values.old loose → AreWitnessed clauses.now notes.new values.new loose }
    ensures len { length notes.new ≡ length notes.old }
    ensures width { length values.new ≡ length values.old }
    ensures yes { IfOk result (λ turned. turned ≡ true → IsTrueIn values.new l) }
    ensures no { IfOk result (λ turned. turned ≡ false → (a : ℕ) → value_at values.new a ≡ value_at values.old a) }
{
    let other = complement(l);
    values.set(l.atom, l.positive);
    if !are_true(clauses, notes.at(other), values) {
        values.set(l.atom, !l.positive);
        return Ok(false);
    }
    match move_notes(clauses, notes, values, other) {
        Ok(()) => {
            notes.clear(other);
            Ok(true)
        }
        Err(error) => {
            values.set(l.atom, !l.positive);
            Err(error)
        }
    }
}

// Makes one of the literals, which are all false, true, where one can be turned.
fn turn_one(
    clauses: &FlatClauses,
    notes: &mut Notes,
    values: &mut Valuation,
    c: &[Lit],
) -> Result<Option<Lit>, Memory>
    requires within { AtomsBelow (length values.old) c.now }
    requires below { AllAtomsBelow (length values.old) clauses.now }
    requires room { length values.old + length values.old ≤ length notes.old }
    requires untrue { All (λ l. value_at values.old l.atom ≡ not l.positive) c.now }
    ensures kept { (loose : List ℕ) → AreWitnessed clauses.now notes.old values.old loose → AreWitnessed clauses.now notes.new values.new loose }
    ensures len { length notes.new ≡ length notes.old }
    ensures width { length values.new ≡ length values.old }
    ensures some { IfOk result (λ o. IfSome o (λ l. Contains c.now l × IsTrueIn values.new l)) }
{
    for l in c {
        if turn(clauses, notes, values, *l)? {
            return Ok(Some(*l));
        }
    }
    Ok(None)
}

// A true literal of the clause, for which one may have been turned.
fn make_one_true(
    clauses: &FlatClauses,
    notes: &mut Notes,
    values: &mut Valuation,
    c: &[Lit],
) -> Result<Option<Lit>, Memory>
    requires within { AtomsBelow (length values.old) c.now }
    requires below { AllAtomsBelow (length values.old) clauses.now }
    requires room { length values.old + length values.old ≤ length notes.old }
    ensures kept { (loose : List ℕ) → AreKept clauses.now notes.old values.old loose → AreKept clauses.now notes.new values.new loose }
    ensures width { length values.new ≡ length values.old }
    ensures some { IfOk result (λ o. IfSome o (λ l. Contains c.now l × IsTrueIn values.new l)) }
{
    match true_of(c, values) {
        Some(l) => Ok(Some(l)),
        None => turn_one(clauses, notes, values, c),
    }
}

// Notes one more clause, which is not among them yet, where it is or can be made true, and else puts it to the loose ones.
fn take_in(clauses: &FlatClauses, witnesses: &mut Witnesses, c: &[Lit]) -> Result<(), Memory>
    requires within { AtomsBelow (length witnesses.old.values) c.now }
    requires kept { AreKeptBy clauses.now witnesses.old }
    ensures kept { AreKeptBy clauses.now witnesses.new }
    ensures width { length witnesses.new.values ≡ length witnesses.old.values }
    ensures next { OnOk result (AreKeptBy (clauses.now ++ c.now ∷ []) witnesses.new) }
{
    let k = clauses.len();
    match make_one_true(clauses, &mut witnesses.notes, &mut witnesses.values, c)? {
        Some(l) => witnesses.notes.add(l, k)?,
        None => witnesses.loose.push(k)?,
    }
    Ok(())
}

// Puts one more clause to the others.
pub fn add_clause(
    clauses: &mut FlatClauses,
    witnesses: &mut Witnesses,
    c: &[Lit],
) -> Result<(), Memory>
    requires within { AtomsBelow (length witnesses.old.values) c.now }
    requires kept { AreKeptBy clauses.old witnesses.old }
    ensures kept { AreKeptBy clauses.new witnesses.new }
    ensures width { length witnesses.new.values ≡ length witnesses.old.values }
    ensures added { OnOk result (clauses.new ≡ clauses.old ++ c.now ∷ []) }
    ensures held { OnErr result (clauses.new ≡ clauses.old) }
{
    take_in(clauses, witnesses, c)?;
    clauses.push(c)?;
    Ok(())
}
