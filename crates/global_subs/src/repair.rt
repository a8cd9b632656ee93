// Whether values can make all clauses true and one clause false, tried by turns of single atoms: the literals of that clause are
// made false, and then each clause that is left without a true literal gets one, by the turn that breaks fewest others.
ghost use Rattle.std.specs.Prelude.{◌≡◌, [], ◌+◌, ◌<◌, ◌≤◌, All, Contains, length, true, not, IfOk, IfSome};
ghost use Rattle.prop_logic.specs.Literal.{AtomsBelow};
ghost use Rattle.prop_logic.specs.Valuation.{value_at};
ghost use Rattle.ground_abs.specs.Abstracts.{Grows};
ghost use Rattle.global_subs.specs.Keeping.{AreKept, AreKeptBy, IsTrueIn, IsWitnessedAt, CanBeFalse};

use crate::fixed::Fixed;
use crate::force::{force, make_all_false};
use crate::notes::Notes;
use crate::values::{is_true, true_in, true_of};
use crate::witnesses::Witnesses;
use compact_lists::{FlatClauses, PackedLit};
use inst_logic::Memory;
use prop_logic::{Lit, Valuation, complement};

// How many loose clauses are looked at for one question, beside those that were loose when its literals were made false.
const MOST_TURNS: usize = 32;

// Whether the clause has a true literal beside this one.
fn has_other(clause: &[PackedLit], values: &Valuation, except: Lit) -> bool {
    for packed in clause {
        let l = packed.lit();
        if l != except && is_true(values, l) {
            return true;
        }
    }
    false
}

// Whether the clause of this number has no true literal beside this one.
fn hangs_on(clauses: &FlatClauses, values: &Valuation, k: usize, l: Lit) -> bool {
    match clauses.get(k) {
        Some(clause) => !has_other(clause, values, l),
        None => false,
    }
}

// How many of the clauses of these numbers have no true literal beside this one, counted up to `most`.
fn broken_by(
    clauses: &FlatClauses,
    numbers: &[usize],
    values: &Valuation,
    l: Lit,
    most: usize,
) -> usize {
    let mut count: usize = 0;
    for k in numbers {
        if hangs_on(clauses, values, *k, l) {
            count = count.saturating_add(1);
            if most <= count {
                return count;
            }
        }
    }
    count
}

// How many clauses the turn of the literal, which is false, breaks, counted up to `most`; so many where its atom is fixed.
fn cost(clauses: &FlatClauses, witnesses: &Witnesses, fixed: &Fixed, l: Lit, most: usize) -> usize
    requires within { l.atom < length witnesses.now.values }
    requires room { length witnesses.now.values + length witnesses.now.values ≤ length witnesses.now.notes }
{
    if most == 0 || fixed.contains(l.atom) {
        return most;
    }
    let other = complement(l);
    broken_by(
        clauses,
        witnesses.notes.at(other),
        &witnesses.values,
        other,
        most,
    )
}

// The literal whose turn breaks fewest clauses, of those whose atom isn't fixed.
fn cheapest(
    clauses: &FlatClauses,
    witnesses: &Witnesses,
    fixed: &Fixed,
    clause: &[PackedLit],
) -> Option<Lit>
    requires within { AtomsBelow (length witnesses.now.values) clause.now }
    requires room { length witnesses.now.values + length witnesses.now.values ≤ length witnesses.now.notes }
    ensures some { IfSome result (Contains clause.now) }
{
    let mut found = None;
    let mut least = usize::MAX;
    for packed in clause {
        let l = packed.lit();
        let count = cost(clauses, witnesses, fixed, l, least);
        if count < least {
            least = count;
            found = Some(l);
        }
    }
    found
}

// Makes one of the literals, which are all false, true, where one can be turned.
fn turn_cheapest(
    clauses: &FlatClauses,
    witnesses: &mut Witnesses,
    fixed: &mut Fixed,
    clause: &[PackedLit],
) -> Result<Option<Lit>, Memory>
    requires within { AtomsBelow (length witnesses.old.values) clause.now }
    requires untrue { All (λ l. value_at witnesses.old.values l.atom ≡ not l.positive) clause.now }
    requires kept { AreKeptBy clauses.now witnesses.old }
    ensures kept { AreKeptBy clauses.now witnesses.new }
    ensures width { length witnesses.new.values ≡ length witnesses.old.values }
    ensures loose { Grows witnesses.old.loose.items witnesses.new.loose.items }
    ensures some { IfOk result (λ o. IfSome o (λ l. Contains clause.now l × IsTrueIn witnesses.new.values l)) }
{
    match cheapest(clauses, witnesses, fixed, clause) {
        None => Ok(None),
        Some(l) => {
            fixed.insert(l.atom)?;
            force(clauses, witnesses, l)?;
            Ok(Some(l))
        }
    }
}

// A true literal of the clause, for which one may have been turned.
fn make_true(
    clauses: &FlatClauses,
    witnesses: &mut Witnesses,
    fixed: &mut Fixed,
    clause: &[PackedLit],
) -> Result<Option<Lit>, Memory>
    requires within { AtomsBelow (length witnesses.old.values) clause.now }
    requires kept { AreKeptBy clauses.now witnesses.old }
    ensures kept { AreKeptBy clauses.now witnesses.new }
    ensures width { length witnesses.new.values ≡ length witnesses.old.values }
    ensures loose { Grows witnesses.old.loose.items witnesses.new.loose.items }
    ensures some { IfOk result (λ o. IfSome o (λ l. Contains clause.now l × IsTrueIn witnesses.new.values l)) }
{
    match true_in(clause, &witnesses.values) {
        Some(l) => Ok(Some(l)),
        None => turn_cheapest(clauses, witnesses, fixed, clause),
    }
}

// Notes the clause of this number at a true literal, where it has one or gets one by a turn.
fn settle(
    clauses: &FlatClauses,
    witnesses: &mut Witnesses,
    fixed: &mut Fixed,
    k: usize,
) -> Result<bool, Memory>
    requires kept { AreKeptBy clauses.now witnesses.old }
    ensures kept { AreKeptBy clauses.now witnesses.new }
    ensures width { length witnesses.new.values ≡ length witnesses.old.values }
    ensures loose { Grows witnesses.old.loose.items witnesses.new.loose.items }
    ensures noted { IfOk result (λ noted. noted ≡ true → IsWitnessedAt clauses.now witnesses.new.notes witnesses.new.values k) }
{
    match clauses.get(k) {
        None => Ok(true),
        Some(clause) => match make_true(clauses, witnesses, fixed, clause)? {
            None => Ok(false),
            Some(l) => {
                witnesses.notes.add(l, k)?;
                Ok(true)
            }
        },
    }
}

// Notes the first loose clause so, which is then no longer loose.
fn settle_first(
    clauses: &FlatClauses,
    witnesses: &mut Witnesses,
    fixed: &mut Fixed,
) -> Result<bool, Memory>
    requires some { 0 < length witnesses.old.loose.items }
    requires kept { AreKeptBy clauses.now witnesses.old }
    ensures kept { AreKeptBy clauses.now witnesses.new }
    ensures width { length witnesses.new.values ≡ length witnesses.old.values }
{
    let k = witnesses.loose[0];
    if !settle(clauses, witnesses, fixed, k)? {
        return Ok(false);
    }
    witnesses.loose.swap_remove(0);
    Ok(true)
}

// Notes loose clauses so, until none is loose, one has no literal that can be turned, or enough were turned.
fn repair(clauses: &FlatClauses, witnesses: &mut Witnesses, fixed: &mut Fixed) -> Result<(), Memory>
    requires kept { AreKeptBy clauses.now witnesses.old }
    ensures kept { AreKeptBy clauses.now witnesses.new }
    ensures width { length witnesses.new.values ≡ length witnesses.old.values }
{
    for _ in 0..witnesses.loose.len().saturating_add(MOST_TURNS) {
        if witnesses.loose.is_empty() {
            return Ok(());
        }
        if !settle_first(clauses, witnesses, fixed)? {
            return Ok(());
        }
    }
    Ok(())
}

// Fixes the atoms of the clause, and no others.
fn fix_atoms(fixed: &mut Fixed, c: &[Lit]) -> Result<(), Memory> {
    fixed.clear();
    for l in c {
        fixed.insert(l.atom)?;
    }
    Ok(())
}

// Whether the values, which make all clauses true, make this one false.
fn is_refuted(_clauses: &FlatClauses, _notes: &Notes, values: &Valuation, c: &[Lit]) -> bool
    requires { AreKept _clauses.now _notes.now values.now [] }
    ensures { result ≡ true → CanBeFalse _clauses.now c.now }
{
    match true_of(c, values) {
        Some(_) => false,
        None => true,
    }
}

// Whether values are found that make the clause false and the others true.
pub fn falsify(
    clauses: &FlatClauses,
    witnesses: &mut Witnesses,
    fixed: &mut Fixed,
    c: &[Lit],
) -> Result<bool, Memory>
    requires within { AtomsBelow (length witnesses.old.values) c.now }
    requires kept { AreKeptBy clauses.now witnesses.old }
    ensures kept { AreKeptBy clauses.now witnesses.new }
    ensures width { length witnesses.new.values ≡ length witnesses.old.values }
    ensures refuted { IfOk result (λ refuted. refuted ≡ true → CanBeFalse clauses.now c.now) }
{
    fix_atoms(fixed, c)?;
    make_all_false(clauses, witnesses, c)?;
    repair(clauses, witnesses, fixed)?;
    if !witnesses.loose.is_empty() {
        return Ok(false);
    }
    Ok(is_refuted(clauses, &witnesses.notes, &witnesses.values, c))
}
