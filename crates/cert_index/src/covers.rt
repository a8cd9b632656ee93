// Covered instances. A variant is one look-up, and a unit clause of a literal as it stands one for each literal. Other covers are
// shorter members, and of these only those are tried whose selected literal has the head of a literal of the instance, and a
// fingerprint that allows it, since it has to go onto one; trying all members would cost their number at each pair.
ghost use Rattle.std.specs.Prelude.{◌≡◌, ◌<◌, ◌∷◌, ℕ, List, [], length, All, Any, IfNone, IfOk, IfSome, true, false};
ghost use Rattle.std.specs.Cmp.Lexicographic.{pointwise};
ghost use Rattle.std.specs.List.{HoldsAt};
ghost use Rattle.indexmap.specs.IndexMap.{get};
ghost use Rattle.clause_form.specs.Literals.{id_eq};
ghost use Rattle.inst_logic.specs.declared.signed.Signed.{Signed};
ghost use Rattle.term_bank.specs.Forest.{IsClauseOf, tree_at};
ghost use Rattle.cert_index.specs.Shorter.{IsUnitOf, ShorterOf};
ghost use Rattle.cert_index.specs.Fingerprints.{HasFingerprint};
ghost use Rattle.cert_index.specs.Lookups.{AreClausesOf, AreUnsoughtBy, IsLookup, IsSearch, IsSought, IsUnsoughtAt};
ghost use Rattle.cert_index.specs.Places.{IsPlaceOf};

use crate::fingerprint::{Fingerprint, fingerprint_of};
use crate::lookup::Lookup;
use cert_values::Member;
use clause_form::subsumes;
use inst_logic::Memory;
use std::alloc::Global;
use term_bank::{Bank, IdClause, IdLiteral};

// A clause that is an instance of one with `len` literals, and the members among which one with fewer that subsumes it is sought.
#[derive(Clone, Copy)]
struct Sought<'a> {
    bank: &'a Bank,
    members: &'a [Member],
    lookup: &'a Lookup,
    len: usize,
    clause: &'a IdClause,
}

// Whether the member at the place, counted from 0, which has fewer literals, is sought. It is not tried where the fingerprint of
// its selected literal excludes that one with this fingerprint is an instance.
fn is_shorter_at(
    alloc: Global,
    sought: &Sought<'_>,
    fingerprint: &Fingerprint,
    k: usize,
) -> Result<bool, Memory>
    requires ready { IsSearch sought.now }
    requires within { k < length sought.now.members.now }
    requires shorter { HoldsAt (λ m. length m.clause < sought.now.len) sought.now.members.now k }
    ensures yes { IfOk result (λ r. r ≡ true → IsPlaceOf (IsSought sought.now) sought.now.members.now k) }
    ensures no { IfOk result (λ r. r ≡ false → (l : Signed ℕ) → HasFingerprint sought.now.bank.now (tree_at sought.now.bank.now l.atom) fingerprint.now → IsUnsoughtAt sought.now l k) }
{
    if sought.lookup.fingerprints[k].differs(fingerprint) {
        return Ok(false);
    }
    subsumes(alloc, sought.bank, &sought.members[k].clause, sought.clause)
}

// The place of a member that is sought whose selected literal has the head of this one. The shortest come first.
fn shorter_by(
    alloc: Global,
    sought: &Sought<'_>,
    literal: &IdLiteral,
) -> Result<Option<usize>, Memory>
    requires ready { IsSearch sought.now }
    requires literal { literal.now.atom < length sought.now.bank.now.trees }
    ensures some { IfOk result (λ o. IfSome o (IsPlaceOf (IsSought sought.now) sought.now.members.now)) }
    ensures none { IfOk result (λ o. IfNone o (AreUnsoughtBy sought.now literal.now)) }
{
    let lengths = &sought.lookup.lengths;
    let mut j = lengths.first_place(sought.bank, literal);
    if !lengths.is_below(j, sought.len) {
        return Ok(None);
    }
    let fingerprint = fingerprint_of(sought.bank, literal.atom);
    while lengths.is_below(j, sought.len) {
        let k = lengths.ranked[j].place;
        if is_shorter_at(alloc, sought, &fingerprint, k)? {
            return Ok(Some(k));
        }
        j = lengths.same[j];
    }
    Ok(None)
}

// The place of a member that is sought, found by its selected literal. This one has an instance in the clause, so only those with
// the head of one of the clause's literals are tried.
fn shorter_by_heads(alloc: Global, sought: &Sought<'_>) -> Result<Option<usize>, Memory>
    requires { IsSearch sought.now }
    ensures some { IfOk result (λ o. IfSome o (IsPlaceOf (IsSought sought.now) sought.now.members.now)) }
    ensures none { IfOk result (λ o. IfNone o (¬ (Any (IsSought sought.now) sought.now.members.now))) }
{
    let literals = sought.clause.as_slice();
    for literal in literals {
        if let Some(k) = shorter_by(alloc, sought, literal)? {
            return Ok(Some(k));
        }
    }
    Ok(None)
}

fn unit_clause(alloc: Global, literal: &IdLiteral) -> Result<IdClause, Memory>
    ensures { IfOk result (λ c. c ≡ literal.now ∷ []) }
{
    Ok(IdClause::from(vec![in alloc; *literal]?))
}

// The place of a member whose clause is one literal of the clause as it stands.
fn unit_place(
    alloc: Global,
    _members: &[Member],
    lookup: &Lookup,
    c: &IdClause,
) -> Result<Option<usize>, Memory>
    requires { AreClausesOf _members.now (get (pointwise id_eq) lookup.now.clauses) }
    ensures some { IfOk result (λ o. IfSome o (IsPlaceOf (IsUnitOf c.now) _members.now)) }
    ensures none { IfOk result (λ o. IfNone o (¬ (Any (IsUnitOf c.now) _members.now))) }
{
    let literals = c.as_slice();
    for literal in literals {
        let unit = unit_clause(alloc, literal)?;
        if let Some(k) = lookup.place_of(&unit) {
            return Ok(Some(k));
        }
    }
    Ok(None)
}

// The place of a member that is so. One literal is fewer than two, so unit clauses are looked up before others are tried.
pub fn shorter_place(
    alloc: Global,
    bank: &Bank,
    members: &[Member],
    lookup: &Lookup,
    len: usize,
    c: &IdClause,
) -> Result<Option<usize>, Memory>
    requires members { All (λ m. IsClauseOf bank.now m.clause) members.now }
    requires lookup { IsLookup bank.now members.now lookup.now }
    requires clause { IsClauseOf bank.now c.now }
    ensures some { IfOk result (λ o. IfSome o (IsPlaceOf (ShorterOf bank.now len c.now) members.now)) }
    ensures none { IfOk result (λ o. IfNone o (¬ (Any (ShorterOf bank.now len c.now) members.now))) }
{
    if len > 1 {
        if let Some(k) = unit_place(alloc, members, lookup, c)? {
            return Ok(Some(k));
        }
    }
    let sought = Sought {
        bank,
        members,
        lookup,
        len,
        clause: c,
    };
    shorter_by_heads(alloc, &sought)
}
