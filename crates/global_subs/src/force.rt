// A false literal is made true, whatever that breaks: clauses that are left without a true literal become loose.
ghost use Rattle.std.specs.Prelude.{◌≡◌, ◌<◌, All, length, not, OnOk};
ghost use Rattle.prop_logic.specs.Literal.{AtomsBelow};
ghost use Rattle.prop_logic.specs.Valuation.{value_at};
ghost use Rattle.compact_lists.specs.Codes.{code_of};
ghost use Rattle.ground_abs.specs.Abstracts.{Grows};
ghost use Rattle.global_subs.specs.Notes.{numbers_at, KeepsNotes};
ghost use Rattle.global_subs.specs.Keeping.{IsTrueIn, AreKeptBy, IsPlaced, KeepsFalse, HaveRoom};

use crate::notes::Notes;
use crate::values::{is_true, true_in};
use crate::witnesses::Witnesses;
use compact_lists::FlatClauses;
use inst_logic::Memory;
use prop_logic::{Lit, Valuation, complement};

// Notes the clause at a true literal of it, or puts it to the loose ones where it has none.
fn place(
    clauses: &FlatClauses,
    notes: &mut Notes,
    values: &Valuation,
    loose: &mut Vec<usize>,
    k: usize,
) -> Result<(), Memory>
    requires room { HaveRoom clauses.now (length notes.old) }
    ensures len { length notes.new ≡ length notes.old }
    ensures keeps { KeepsNotes notes.old notes.new }
    ensures others { KeepsFalse values.now notes.old notes.new }
    ensures loose { Grows loose.old.items loose.new.items }
    ensures placed { OnOk result (IsPlaced clauses.now notes.new values.now loose.new.items k) }
{
    if let Some(clause) = clauses.get(k) {
        match true_in(clause, values) {
            Some(l) => notes.add(l, k)?,
            None => loose.push(k)?,
        }
    }
    Ok(())
}

// Places each clause that is noted at the literal, which is false, so.
fn place_all(
    clauses: &FlatClauses,
    notes: &mut Notes,
    values: &Valuation,
    loose: &mut Vec<usize>,
    from: Lit,
) -> Result<(), Memory>
    requires room { HaveRoom clauses.now (length notes.old) }
    requires within { code_of from < length notes.old }
    requires untrue { value_at values.now from.atom ≡ not from.positive }
    ensures len { length notes.new ≡ length notes.old }
    ensures keeps { KeepsNotes notes.old notes.new }
    ensures loose { Grows loose.old.items loose.new.items }
    ensures placed { OnOk result (All (IsPlaced clauses.now notes.new values.now loose.new.items) (numbers_at notes.old from)) }
{
    for i in 0..notes.at(from).len() {
        let k = notes.at(from)[i];
        place(clauses, notes, values, loose, k)?;
    }
    Ok(())
}

// Makes a false literal true.
pub fn force(clauses: &FlatClauses, witnesses: &mut Witnesses, l: Lit) -> Result<(), Memory>
    requires within { l.atom < length witnesses.old.values }
    requires untrue { value_at witnesses.old.values l.atom ≡ not l.positive }
    requires kept { AreKeptBy clauses.now witnesses.old }
    ensures kept { AreKeptBy clauses.now witnesses.new }
    ensures width { length witnesses.new.values ≡ length witnesses.old.values }
    ensures len { length witnesses.new.notes ≡ length witnesses.old.notes }
    ensures loose { Grows witnesses.old.loose.items witnesses.new.loose.items }
    ensures holds { OnOk result (IsTrueIn witnesses.new.values l) }
{
    let other = complement(l);
    witnesses.values.set(l.atom, l.positive);
    match place_all(
        clauses,
        &mut witnesses.notes,
        &witnesses.values,
        &mut witnesses.loose,
        other,
    ) {
        Ok(()) => {
            witnesses.notes.clear(other);
            Ok(())
        }
        Err(error) => {
            witnesses.values.set(l.atom, !l.positive);
            Err(error)
        }
    }
}

// Makes the literal false.
fn make_false(clauses: &FlatClauses, witnesses: &mut Witnesses, l: Lit) -> Result<(), Memory>
    requires within { l.atom < length witnesses.old.values }
    requires kept { AreKeptBy clauses.now witnesses.old }
    ensures kept { AreKeptBy clauses.now witnesses.new }
    ensures width { length witnesses.new.values ≡ length witnesses.old.values }
{
    if !is_true(&witnesses.values, l) {
        return Ok(());
    }
    let other = complement(l);
    force(clauses, witnesses, other)
}

// Makes the literals false, of which no two are complements.
pub fn make_all_false(
    clauses: &FlatClauses,
    witnesses: &mut Witnesses,
    c: &[Lit],
) -> Result<(), Memory>
    requires within { AtomsBelow (length witnesses.old.values) c.now }
    requires kept { AreKeptBy clauses.now witnesses.old }
    ensures kept { AreKeptBy clauses.now witnesses.new }
    ensures width { length witnesses.new.values ≡ length witnesses.old.values }
{
    for l in c {
        make_false(clauses, witnesses, *l)?;
    }
    Ok(())
}
