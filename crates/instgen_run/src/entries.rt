// The entries, and what finds those that may cover a conclusion.
ghost use Rattle.std.specs.Prelude.{◌≡◌, ◌<◌, ◌≤◌, ◌+◌, ◌++◌, ◌∷◌, [], ◌↔◌, ℕ, length, IsTrue, IfOk, OnOk, true, false, Some, All, Contains, slice_get};
ghost use Rattle.inst_logic.specs.declared.signed.Signed.{Signed};
ghost use Rattle.inst_logic.specs.Clauses.{TreeClause, IsCanonical};
ghost use Rattle.inst_calculus.specs.Saturation.{IsCovered};
ghost use Rattle.term_bank.specs.Forest.{clause_at, IsClauseOf};
ghost use Rattle.instgen_run.specs.Clauses.{AreEntries, AreFirsts, IsEntry, IsUnit, IsNoUnit, HasShorterPart, IsSought, HasSought, IsPastSought, AreUnsought, Item, clauses_in};
ghost use Rattle.cert_values.specs.declared.member.Origin.{Origin};

use crate::origin::{Origins, PackedOrigin};
use crate::scratch::Scratch;
use crate::tested::Tested;
use clause_form::{long_tautology, subsumes};
use inst_logic::Memory;
use std::alloc::Global;
use term_bank::{Bank, IdClause, IdLiteral};
use term_index::{PartnerIndex, View};

/// The clauses of the entries with their origins, by their numbers, over one bank, and what finds those with an instance
/// within a conclusion that are shorter than its premise. The longest are shorter than no premise, and the empty clause covers
/// everything. A ground unit clause has an instance within those that have its literal: it is looked up among the entries, and
/// stands in no index. Of each other entry that is shorter than the longest an index has the first literal's atom, which is
/// among the generalisations of the atoms of a conclusion that has an instance of the entry within it.
#[derive(Drop)]
pub struct Entries<I: PartnerIndex> {
    pub bank: Bank,
    pub clauses: Origins,
    pub first: I,
    pub has_empty: bool,
    /// No entry has more literals.
    pub longest: usize,
}

// Whether the clause is its first literal alone, which has no variables.
fn is_ground_unit(bank: &Bank, clause: &IdClause, l: IdLiteral) -> bool
    requires atom { l.atom < length bank.now.trees }
    requires first { slice_get clause.now 0 ≡ Some l }
    ensures { IsTrue result ↔ IsUnit bank.now clause.now l }
{
    clause.len() == 1 && bank.ground(l.atom)
}

// Whether the index has the first literal of such a clause: it may be shorter than a premise, and is no ground unit.
fn is_indexed<I: PartnerIndex>(entries: &Entries<I>, clause: &IdClause, l: IdLiteral) -> bool
    requires atom { l.atom < length entries.now.bank.trees }
    requires first { slice_get clause.now 0 ≡ Some l }
    ensures yes { result ≡ true → (length clause.now < entries.now.longest) × ¬ IsUnit entries.now.bank clause.now l }
    ensures no { result ≡ false → length clause.now < entries.now.longest → IsUnit entries.now.bank clause.now l }
{
    clause.len() < entries.longest && !is_ground_unit(&entries.bank, clause, l)
}

// Stores the first literal's atom under the number.
fn add_shorter<I: PartnerIndex>(
    entries: &mut Entries<I>,
    clause: &IdClause,
    l: IdLiteral,
    number: usize,
) -> Result<(), Memory>
    requires clause { IsClauseOf entries.old.bank clause.now }
    requires first { slice_get clause.now 0 ≡ Some l }
    requires fits { I.fits entries.old.bank entries.old.first }
    requires firsts { AreFirsts I.pairs entries.old entries.old.clauses.entries }
    requires number { number ≡ length entries.old.clauses.entries + 1 }
    requires bounded { length clause.now ≤ entries.old.longest }
    ensures firsts { OnOk result ((origin : Origin) → AreFirsts I.pairs entries.new (entries.old.clauses.entries ++ (clause.now, origin) ∷ [])) }
    ensures fits { OnOk result (I.fits entries.new.bank entries.new.first) }
    ensures bank { entries.new.bank ≡ entries.old.bank }
    ensures clauses { entries.new.clauses.entries ≡ entries.old.clauses.entries }
    ensures longest { entries.new.longest ≡ entries.old.longest }
{
    entries.first.insert(&entries.bank, l.atom, number)
}

// Stores what finds the clause, where there is anything to store.
fn add_first<I: PartnerIndex>(
    entries: &mut Entries<I>,
    clause: &IdClause,
    number: usize,
) -> Result<(), Memory>
    requires clause { IsClauseOf entries.old.bank clause.now }
    requires fits { I.fits entries.old.bank entries.old.first }
    requires firsts { AreFirsts I.pairs entries.old entries.old.clauses.entries }
    requires number { number ≡ length entries.old.clauses.entries + 1 }
    requires bounded { length clause.now ≤ entries.old.longest }
    ensures firsts { OnOk result ((origin : Origin) → AreFirsts I.pairs entries.new (entries.old.clauses.entries ++ (clause.now, origin) ∷ [])) }
    ensures fits { OnOk result (I.fits entries.new.bank entries.new.first) }
    ensures bank { entries.new.bank ≡ entries.old.bank }
    ensures clauses { entries.new.clauses.entries ≡ entries.old.clauses.entries }
    ensures longest { entries.new.longest ≡ entries.old.longest }
{
    match clause.get(0) {
        None => {
            entries.has_empty = true;
            Ok(())
        }
        Some(l) => {
            if is_indexed(entries, clause, *l) {
                add_shorter(entries, clause, *l, number)
            } else {
                Ok(())
            }
        }
    }
}

/// Puts a new clause at the end.
pub fn push_entry<I: PartnerIndex>(
    entries: &mut Entries<I>,
    clause: IdClause,
    origin: PackedOrigin,
) -> Result<(), Memory>
    requires clause { IsClauseOf entries.old.bank clause }
    requires fits { I.fits entries.old.bank entries.old.first }
    requires firsts { AreFirsts I.pairs entries.old entries.old.clauses.entries }
    requires bounded { length clause ≤ entries.old.longest }
    requires new { (e : Item) → Contains entries.old.clauses.entries e → ¬ (e.0 ≡ clause) }
    ensures firsts { OnOk result (AreFirsts I.pairs entries.new entries.new.clauses.entries) }
    ensures longest { OnOk result (entries.new.longest ≡ entries.old.longest) }
    ensures fits { OnOk result (I.fits entries.new.bank entries.new.first) }
    ensures bank { OnOk result (entries.new.bank ≡ entries.old.bank) }
    ensures pushed { OnOk result (entries.new.clauses.entries ≡ entries.old.clauses.entries ++ (clause, origin) ∷ []) }
{
    let number = entries.clauses.len() + 1;
    add_first(entries, &clause, number)?;
    entries.clauses.insert(clause, origin)?;
    Ok(())
}

// What is sought among the entries: one with fewer literals than `len`, and an instance within the clause.
#[derive(Clone, Copy)]
struct Sought<'a> {
    clause: &'a IdClause,
    len: usize,
}

// Whether entry `k` is sought.
fn is_shorter_part<I: PartnerIndex>(
    alloc: Global,
    entries: &Entries<I>,
    k: usize,
    sought: &Sought<'_>,
) -> Result<bool, Memory>
    requires entries { AreEntries entries.now.bank entries.now.clauses.entries }
    requires clause { IsClauseOf entries.now.bank sought.now.clause.now }
    ensures { IfOk result (λ r. IsTrue r ↔ IsSought entries.now sought.now k) }
{
    if k == 0 {
        return Ok(false);
    }
    match entries.clauses.get_index(k - 1) {
        None => Ok(false),
        Some((e, _)) => {
            if e.len() < sought.len {
                subsumes(alloc, &entries.bank, e, sought.clause)
            } else {
                Ok(false)
            }
        }
    }
}

// Whether entry `k` is sought, where those that were tested before are none: they are not tested again.
fn is_untested_part<I: PartnerIndex>(
    alloc: Global,
    entries: &Entries<I>,
    k: usize,
    sought: &Sought<'_>,
    tested: &mut Tested,
) -> Result<bool, Memory>
    requires entries { AreEntries entries.now.bank entries.now.clauses.entries }
    requires clause { IsClauseOf entries.now.bank sought.now.clause.now }
    requires tested { AreUnsought entries.now sought.now tested.old }
    ensures answer { IfOk result (λ r. IsTrue r ↔ IsSought entries.now sought.now k) }
    ensures tested { IfOk result (λ r. r ≡ false → AreUnsought entries.now sought.now tested.new) }
{
    if tested.contains(k) {
        return Ok(false);
    }
    if is_shorter_part(alloc, entries, k, sought)? {
        return Ok(true);
    }
    tested.insert(k)?;
    Ok(false)
}

// Whether some entry of the index whose first atom is more general than the literal's is sought.
fn has_shorter_at<I: PartnerIndex>(
    alloc: Global,
    entries: &Entries<I>,
    l: IdLiteral,
    sought: &Sought<'_>,
    tested: &mut Tested,
) -> Result<bool, Memory>
    requires entries { AreEntries entries.now.bank entries.now.clauses.entries }
    requires clause { IsClauseOf entries.now.bank sought.now.clause.now }
    requires atom { l.atom < length entries.now.bank.trees }
    requires fits { I.fits entries.now.bank entries.now.first }
    requires tested { AreUnsought entries.now sought.now tested.old }
    ensures yes { IfOk result (λ r. r ≡ true → HasSought entries.now sought.now) }
    ensures no { IfOk result (λ r. r ≡ false → IsPastSought I.pairs entries.now sought.now l) }
    ensures tested { IfOk result (λ r. r ≡ false → AreUnsought entries.now sought.now tested.new) }
{
    let mut cursor = entries
        .first
        .start(&entries.bank, l.atom, View::Generalisations)?;
    loop {
        match entries.first.next(&mut cursor)? {
            None => return Ok(false),
            Some(k) => {
                if is_untested_part(alloc, entries, k, sought, tested)? {
                    return Ok(true);
                }
            }
        }
    }
}

// Whether some entry of the index is sought. The first literals of many entries are more general than several literals of a wide
// clause: each entry is tested once.
fn has_shorter_first<I: PartnerIndex>(
    alloc: Global,
    entries: &Entries<I>,
    sought: &Sought<'_>,
    tested: &mut Tested,
) -> Result<bool, Memory>
    requires entries { AreEntries entries.now.bank entries.now.clauses.entries }
    requires clause { IsClauseOf entries.now.bank sought.now.clause.now }
    requires fits { I.fits entries.now.bank entries.now.first }
    ensures yes { IfOk result (λ r. r ≡ true → HasSought entries.now sought.now) }
    ensures no { IfOk result (λ r. r ≡ false → All (IsPastSought I.pairs entries.now sought.now) sought.now.clause.now) }
{
    tested.clear();
    for l in sought.clause.as_slice() {
        if has_shorter_at(alloc, entries, *l, sought, tested)? {
            return Ok(true);
        }
    }
    Ok(false)
}

// Whether the literal alone is an entry, where it has no variables.
fn is_unit<I: PartnerIndex>(
    entries: &Entries<I>,
    l: IdLiteral,
    scratch: &mut Scratch,
) -> Result<bool, Memory>
    requires { l.atom < length entries.now.bank.trees }
    ensures yes { IfOk result (λ r. r ≡ true → IsEntry entries.now.clauses.entries l) }
    ensures no { IfOk result (λ r. r ≡ false → IsNoUnit entries.now.bank entries.now.clauses.entries l) }
{
    if !entries.bank.ground(l.atom) {
        return Ok(false);
    }
    let key = scratch.alone(l)?;
    Ok(entries.clauses.contains_key(key))
}

// Whether some literal of the clause is a unit.
fn has_unit<I: PartnerIndex>(
    entries: &Entries<I>,
    d: &IdClause,
    scratch: &mut Scratch,
) -> Result<bool, Memory>
    requires { IsClauseOf entries.now.bank d.now }
    ensures yes { IfOk result (λ r. r ≡ true → (l : Signed ℕ) × Contains d.now l × IsEntry entries.now.clauses.entries l) }
    ensures no { IfOk result (λ r. r ≡ false → All (IsNoUnit entries.now.bank entries.now.clauses.entries) d.now) }
{
    for l in d.as_slice() {
        if is_unit(entries, *l, scratch)? {
            return Ok(true);
        }
    }
    Ok(false)
}

// Whether some entry with a literal has fewer than `len`, and an instance within the clause. None has fewer than one.
fn has_shorter<I: PartnerIndex>(
    alloc: Global,
    entries: &Entries<I>,
    d: &IdClause,
    len: usize,
    scratch: &mut Scratch,
) -> Result<bool, Memory>
    requires entries { AreEntries entries.now.bank entries.now.clauses.entries }
    requires firsts { AreFirsts I.pairs entries.now entries.now.clauses.entries }
    requires clause { IsClauseOf entries.now.bank d.now }
    requires bounded { len ≤ entries.now.longest }
    requires fits { I.fits entries.now.bank entries.now.first }
    ensures yes { IfOk result (λ r. r ≡ true → HasShorterPart entries.now.bank entries.now.clauses.entries d.now len) }
    ensures no { IfOk result (λ r. r ≡ false → entries.now.has_empty ≡ false → ¬ HasShorterPart entries.now.bank entries.now.clauses.entries d.now len) }
{
    // A literal that a unit becomes then has the unit's id.
    entries.bank.distinct();
    if len <= 1 {
        return Ok(false);
    }
    if has_unit(entries, d, scratch)? {
        return Ok(true);
    }
    let sought = Sought { clause: d, len };
    has_shorter_first(alloc, entries, &sought, scratch.tested_entries())
}

/// Whether the entries cover the clause in canonical form, as an instance of a clause with so many literals: it is a tautology or
/// an entry, or has an instance of a shorter entry within it. The index is walked only where no literal is a unit.
pub fn is_covered<I: PartnerIndex>(
    alloc: Global,
    entries: &Entries<I>,
    d: &IdClause,
    len: usize,
    scratch: &mut Scratch,
) -> Result<bool, Memory>
    requires entries { AreEntries entries.now.bank entries.now.clauses.entries }
    requires firsts { AreFirsts I.pairs entries.now entries.now.clauses.entries }
    requires clause { IsClauseOf entries.now.bank d.now }
    requires bounded { len ≤ entries.now.longest }
    requires canonical { IsCanonical (clause_at entries.now.bank d.now) }
    requires literal { 0 < len }
    requires fits { I.fits entries.now.bank entries.now.first }
    ensures new { IfOk result (λ r. r ≡ false → (e : Item) → Contains entries.now.clauses.entries e → ¬ (e.0 ≡ d.now)) }
    ensures covered { IfOk result (λ r. (c : TreeClause) → length c ≡ len → IsTrue r ↔ IsCovered (clauses_in entries.now.bank entries.now.clauses.entries) c (clause_at entries.now.bank d.now)) }
{
    // A variant, whose canonical form is equal, then has an equal key.
    entries.bank.distinct();
    if entries.has_empty {
        return Ok(true);
    }
    if long_tautology(alloc, d)? {
        return Ok(true);
    }
    if entries.clauses.contains_key(d) {
        return Ok(true);
    }
    has_shorter(alloc, entries, d, len, scratch)
}
