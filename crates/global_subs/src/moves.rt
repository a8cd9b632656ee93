// Clauses that are noted at a literal which becomes false: whether they have other true literals, and their move to these.
ghost use Rattle.std.specs.Prelude.{◌≡◌, ◌+◌, ◌<◌, ◌≤◌, ℕ, List, All, Contains, length, slice_get, true, Some, OnOk, not};
ghost use Rattle.inst_logic.specs.declared.signed.Signed.{Signed};
ghost use Rattle.prop_logic.specs.Valuation.{value_at};
ghost use Rattle.compact_lists.specs.Codes.{code_of};
ghost use Rattle.global_subs.specs.Notes.{numbers_at, IsNotedAt, KeepsNotes};
ghost use Rattle.global_subs.specs.Keeping.{AreTrueAt, IsMoved, AreMoved, IsTrueIn, KeepsFalse, HaveRoom};

use crate::notes::Notes;
use crate::values::true_in;
use compact_lists::FlatClauses;
use inst_logic::Memory;
use prop_logic::{Lit, Valuation};

// Whether the clause of this number, if there is one, has a true literal.
fn is_true_at(clauses: &FlatClauses, k: usize, values: &Valuation) -> bool
    ensures { result ≡ true → AreTrueAt clauses.now values.now k }
{
    match clauses.get(k) {
        Some(clause) => true_in(clause, values).is_some(),
        None => true,
    }
}

// Whether each clause of these numbers has a true literal.
pub fn are_true(clauses: &FlatClauses, numbers: &[usize], values: &Valuation) -> bool
    ensures { result ≡ true → All (AreTrueAt clauses.now values.now) numbers.now }
{
    for k in numbers {
        if !is_true_at(clauses, *k, values) {
            return false;
        }
    }
    true
}

// Notes the clause at a true literal of it, if it has one.
fn note_true(
    clauses: &FlatClauses,
    notes: &mut Notes,
    values: &Valuation,
    k: usize,
) -> Result<(), Memory>
    requires room { HaveRoom clauses.now (length notes.old) }
    ensures len { length notes.new ≡ length notes.old }
    ensures keeps { KeepsNotes notes.old notes.new }
    ensures others { KeepsFalse values.now notes.old notes.new }
    ensures noted { OnOk result (IsMoved clauses.now notes.new values.now k) }
{
    if let Some(clause) = clauses.get(k) {
        if let Some(l) = true_in(clause, values) {
            notes.add(l, k)?;
        }
    }
    Ok(())
}

// Notes each of the clauses at a true literal of it, if it has one.
pub fn note_all(
    clauses: &FlatClauses,
    notes: &mut Notes,
    values: &Valuation,
    numbers: &[usize],
) -> Result<(), Memory>
    requires room { HaveRoom clauses.now (length notes.old) }
    ensures len { length notes.new ≡ length notes.old }
    ensures keeps { KeepsNotes notes.old notes.new }
    ensures others { KeepsFalse values.now notes.old notes.new }
    ensures noted { OnOk result (All (IsMoved clauses.now notes.new values.now) numbers.now) }
{
    for k in numbers {
        note_true(clauses, notes, values, *k)?;
    }
    Ok(())
}

// Notes each clause that is noted at the literal, which is false, at a true literal of it, if it has one.
pub fn move_notes(
    clauses: &FlatClauses,
    notes: &mut Notes,
    values: &Valuation,
    from: Lit,
) -> Result<(), Memory>
    requires room { HaveRoom clauses.now (length notes.old) }
    requires within { code_of from < length notes.old }
    requires untrue { value_at values.now from.atom ≡ not from.positive }
    ensures len { length notes.new ≡ length notes.old }
    ensures keeps { KeepsNotes notes.old notes.new }
    ensures noted { OnOk result (All (IsMoved clauses.now notes.new values.now) (numbers_at notes.old from)) }
{
    for i in 0..notes.at(from).len() {
        let k = notes.at(from)[i];
        note_true(clauses, notes, values, k)?;
    }
    Ok(())
}

// Notes each clause that is noted at a literal of these atoms which is false at a true literal of it, if it has one.
pub fn move_changed(
    clauses: &FlatClauses,
    notes: &mut Notes,
    values: &Valuation,
    atoms: &[usize],
) -> Result<(), Memory>
    requires room { HaveRoom clauses.now (length notes.old) }
    requires within { All (λ a. a + a + 1 < length notes.old) atoms.now }
    ensures len { length notes.new ≡ length notes.old }
    ensures keeps { KeepsNotes notes.old notes.new }
    ensures noted { OnOk result (AreMoved clauses.now notes.old notes.new values.now atoms.now) }
{
    for a in atoms {
        let from = Lit {
            positive: !values.value(*a),
            atom: *a,
        };
        move_notes(clauses, notes, values, from)?;
    }
    Ok(())
}

// Takes away what is noted at the literals of these atoms which are false.
pub fn clear_changed(notes: &mut Notes, values: &Valuation, atoms: &[usize])
    requires within { All (λ a. a + a + 1 < length notes.old) atoms.now }
    ensures len { length notes.new ≡ length notes.old }
    ensures others { (l : Signed ℕ) → IsTrueIn values.now l → numbers_at notes.new l ≡ numbers_at notes.old l }
{
    for a in atoms {
        let from = Lit {
            positive: !values.value(*a),
            atom: *a,
        };
        notes.clear(from);
    }
}
