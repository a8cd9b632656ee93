// Parts of conclusions: the literals at places that leave out at least one.
ghost use Rattle.std.specs.Prelude.{◌≡◌, ◌↔◌, ◌+◌, ◌<◌, All, IfOk, IsTrue, length, map};
ghost use Rattle.std.specs.List.Sorted.{IsStrictlyIncreasing};
ghost use Rattle.inst_logic.specs.Clauses.{canonical_form};
ghost use Rattle.inst_calculus.specs.Conclusions.{IsPartOfConclusion};
ghost use Rattle.inst_calculus.specs.Parts.{AreWithin, IsProperPart, chosen};
ghost use Rattle.term_bank.specs.Forest.{AreFormed, Extends, IsClauseOf, clause_at};
ghost use Rattle.cert_values.specs.Values.{entry_of};
ghost use Rattle.cert_values.specs.Wholes.{IsWholeClause};
ghost use Rattle.cert_check.specs.Parts.{IsPartGiven};

use crate::origin::is_canonical_form;
use cert_inference::{PairRoom, Premises, conclusion, numbered_item};
use cert_values::Member;
use inst_logic::Memory;
use std::alloc::Global;
use term_bank::{Bank, IdClause};

/// What is claimed of member `i`, counted from 0: that its clause is the part, by the places, of what the premises give.
#[derive(Clone, Copy)]
pub struct PartClaim<'a> {
    pub i: usize,
    pub premises: Premises,
    pub keep: &'a [usize],
    pub clause: &'a IdClause,
}

// Whether each place is below the next one.
fn are_rising(places: &[usize]) -> bool
    ensures { IsTrue result ↔ IsStrictlyIncreasing places.now }
{
    for k in 1..places.len() {
        if places[k] <= places[k - 1] {
            return false;
        }
    }
    true
}

// Whether each number is one of those from 1 up to the count.
pub fn are_within(count: usize, numbers: &[usize]) -> bool
    ensures { IsTrue result ↔ AreWithin count numbers.now }
{
    numbers.iter().all(|n| 0 < *n && *n <= count)
}

// Whether the places rise, are those of so many literals, and leave out at least one.
fn is_proper_part(count: usize, keep: &[usize]) -> bool
    ensures { IsTrue result ↔ IsProperPart count keep.now }
{
    keep.len() < count && are_rising(keep) && are_within(count, keep)
}

// The literals at the places.
fn chosen_literals(alloc: Global, whole: &IdClause, keep: &[usize]) -> Result<IdClause, Memory>
    ensures { IfOk result (λ c. c ≡ chosen whole.now keep.now) }
{
    let mut literals = IdClause::from(Vec::with_capacity(alloc, keep.len())?);
    for place in keep {
        if let Some(l) = numbered_item(whole.as_slice(), *place) {
            literals.push(*l)?;
        }
    }
    Ok(literals)
}

// Whether the clause is the canonical form of the literals at the places, which leave out at least one.
fn is_part_of(
    alloc: Global,
    bank: &mut Bank,
    whole: &IdClause,
    keep: &[usize],
    clause: &IdClause,
) -> Result<bool, Memory>
    requires whole { IsClauseOf bank.old whole.now }
    requires clause { IsClauseOf bank.old clause.now }
    ensures part { IfOk result (λ r. IsTrue r ↔ (IsProperPart (length whole.now) keep.now × (clause_at bank.old clause.now ≡ canonical_form (chosen (clause_at bank.old whole.now) keep.now)))) }
    ensures extends { Extends bank.old bank.new }
    ensures formed { AreFormed bank.old → AreFormed bank.new }
{
    if !is_proper_part(whole.len(), keep) {
        return Ok(false);
    }
    let literals = chosen_literals(alloc, whole, keep)?;
    is_canonical_form(alloc, bank, &literals, clause)
}

// Whether the clause is a part, by the places, of what the members conclude.
fn is_part(
    alloc: Global,
    bank: &mut Bank,
    room: &mut PairRoom,
    members: &[Member],
    claim: &PartClaim<'_>,
) -> Result<bool, Memory>
    requires members { All (λ m. IsWholeClause bank.old m.clause) members.now }
    requires clause { IsClauseOf bank.old claim.now.clause.now }
    ensures part { IfOk result (λ r. IsTrue r ↔ IsPartOfConclusion (map (entry_of bank.old) members.now) claim.now.premises.from claim.now.premises.place claim.now.premises.partner claim.now.premises.other claim.now.keep.now (clause_at bank.old claim.now.clause.now)) }
    ensures extends { Extends bank.old bank.new }
    ensures formed { AreFormed bank.old → AreFormed bank.new }
{
    match conclusion(bank, room, members, claim.premises)? {
        None => Ok(false),
        Some(whole) => is_part_of(alloc, bank, &whole, claim.keep, claim.clause),
    }
}

// Whether both members come before the one that the claim is about, and the clause is a part, by the places, of what they
// conclude.
pub fn members_give_part(
    alloc: Global,
    bank: &mut Bank,
    room: &mut PairRoom,
    members: &[Member],
    claim: &PartClaim<'_>,
) -> Result<bool, Memory>
    requires members { All (λ m. IsWholeClause bank.old m.clause) members.now }
    requires clause { IsClauseOf bank.old claim.now.clause.now }
    ensures gives { IfOk result (λ r. IsTrue r ↔ IsPartGiven (map (entry_of bank.old) members.now) (claim.now.i + 1) claim.now.premises.from claim.now.premises.place claim.now.premises.partner claim.now.premises.other claim.now.keep.now (clause_at bank.old claim.now.clause.now)) }
    ensures extends { Extends bank.old bank.new }
    ensures formed { AreFormed bank.old → AreFormed bank.new }
{
    if claim.premises.from > claim.i || claim.premises.partner > claim.i {
        return Ok(false);
    }
    is_part(alloc, bank, room, members, claim)
}
