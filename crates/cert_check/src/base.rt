// The check of what all certificates have: the axioms of equality and the members, in this order. One set of bindings serves
// all members.
ghost use Rattle.std.specs.Prelude.{◌+◌, ◌<◌, ◌↔◌, IfErr, IfOk, IsTrue, OnOk, length, ℕ};
ghost use Rattle.cert_format.specs.Validity.{IsRightAxiom, IsRightMember};
ghost use Rattle.cert_check.specs.Answers.{IsCheckCause};
ghost use Rattle.cert_check.specs.Firsts.{IsFirstWrongOf};
ghost use Rattle.cert_check.specs.Stages.{IsAllowedMember, IsAllowedOrigin, MembersPass};
ghost use Rattle.cert_values.specs.Values.{base_of, origin_of};
ghost use Rattle.cert_values.specs.Wholes.{IsWholeBase, KeepsBase};

use crate::axioms::intern_clauses;
use crate::difference::difference;
use crate::error::CheckError;
use crate::origin::input_gives;
use crate::part::{PartClaim, are_within, members_give_part};
use crate::walk::symbols_in;
use cert_format::Complaint;
use cert_inference::{Claim, PairRoom, Premises, members_give};
use cert_values::{Base, Origin};
use equality_axioms::axioms_from;
use inst_logic::Memory;
use std::alloc::Global;

/// Whether members may be lemmas: those of the first format may not.
#[derive(Clone, Copy)]
pub enum Lemmas {
    Allowed,
    Refused,
}

// The number of the first axiom that is not the one that the inputs have there.
fn wrong_axiom(alloc: Global, base: &mut Base) -> Result<Option<usize>, Memory>
    requires { IsWholeBase base.old }
    ensures kept { KeepsBase base.old base.new }
    ensures whole { OnOk result (IsWholeBase base.new) }
    ensures first { IfOk result (IsFirstWrongOf (IsRightAxiom (base_of base.old))) }
{
    let symbols = symbols_in(alloc, &base.bank, &base.inputs)?;
    let axioms = axioms_from(alloc, &symbols)?;
    let ids = intern_clauses(alloc, &mut base.bank, &axioms)?;
    Ok(difference(&base.bank, &base.axioms, &ids))
}

// Whether member `i`, counted from 0, is what its origin gives. `room` is room to work in.
fn is_right(alloc: Global, base: &mut Base, room: &mut PairRoom, i: usize) -> Result<bool, Memory>
    requires whole { IsWholeBase base.old }
    requires within { i < length base.old.members }
    requires axioms { (n : ℕ) → IsRightAxiom (base_of base.old) n }
    ensures kept { KeepsBase base.old base.new }
    ensures whole { OnOk result (IsWholeBase base.new) }
    ensures right { IfOk result (λ r. IsTrue r ↔ IsRightMember (base_of base.old) (i + 1)) }
{
    let members = base.members.as_slice();
    let member = &members[i];
    let clause = &member.clause;
    let bank = &mut base.bank;
    match member.origin {
        Origin::Input(k) => input_gives(alloc, bank, &base.inputs, &base.axioms, k, clause),
        Origin::Inst {
            from,
            place,
            partner,
            other,
        } => {
            let claim = Claim {
                i,
                premises: Premises::new(from, place, partner, other),
                clause,
            };
            members_give(bank, room, members, &claim)
        }
        Origin::Lemma {
            from,
            place,
            partner,
            other,
            ref keep,
            ref premises,
        } => {
            if !are_within(i, premises.as_slice()) {
                return Ok(false);
            }
            let claim = PartClaim {
                i,
                premises: Premises::new(from, place, partner, other),
                keep: keep.as_slice(),
                clause,
            };
            members_give_part(alloc, bank, room, members, &claim)
        }
    }
}

// Whether the member may have the origin.
fn is_allowed_origin(lemmas: Lemmas, origin: &Origin) -> bool
    ensures { IsTrue result ↔ IsAllowedOrigin lemmas (origin_of origin.now) }
{
    match (lemmas, origin) {
        (Lemmas::Refused, Origin::Lemma { .. }) => false,
        _ => true,
    }
}

// Whether member `i`, counted from 0, is what its origin gives and is allowed. `room` is room to work in.
fn is_allowed(
    alloc: Global,
    base: &mut Base,
    lemmas: Lemmas,
    room: &mut PairRoom,
    i: usize,
) -> Result<bool, Memory>
    requires whole { IsWholeBase base.old }
    requires within { i < length base.old.members }
    requires axioms { (n : ℕ) → IsRightAxiom (base_of base.old) n }
    ensures kept { KeepsBase base.old base.new }
    ensures whole { OnOk result (IsWholeBase base.new) }
    ensures allowed { IfOk result (λ r. IsTrue r ↔ IsAllowedMember lemmas (base_of base.old) (i + 1)) }
{
    let member = &base.members.as_slice()[i];
    if !is_allowed_origin(lemmas, &member.origin) {
        return Ok(false);
    }
    is_right(alloc, base, room, i)
}

// The number of the first member that is not what its origin gives, or not allowed. `room` is room to work in.
fn wrong_member_by(
    alloc: Global,
    base: &mut Base,
    lemmas: Lemmas,
    room: &mut PairRoom,
) -> Result<Option<usize>, Memory>
    requires whole { IsWholeBase base.old }
    requires axioms { (n : ℕ) → IsRightAxiom (base_of base.old) n }
    ensures kept { KeepsBase base.old base.new }
    ensures whole { OnOk result (IsWholeBase base.new) }
    ensures first { IfOk result (IsFirstWrongOf (IsAllowedMember lemmas (base_of base.old))) }
{
    for i in 0..base.members.len() {
        if !is_allowed(alloc, base, lemmas, room, i)? {
            return Ok(Some(i + 1));
        }
    }
    Ok(None)
}

// The number of the first member that is not what its origin gives, or not allowed.
fn wrong_member(alloc: Global, base: &mut Base, lemmas: Lemmas) -> Result<Option<usize>, Memory>
    requires whole { IsWholeBase base.old }
    requires axioms { (n : ℕ) → IsRightAxiom (base_of base.old) n }
    ensures kept { KeepsBase base.old base.new }
    ensures whole { OnOk result (IsWholeBase base.new) }
    ensures first { IfOk result (IsFirstWrongOf (IsAllowedMember lemmas (base_of base.old))) }
{
    let mut room = PairRoom::new(alloc);
    wrong_member_by(alloc, base, lemmas, &mut room)
}

// The first complaint about the axioms and then about the members, if there is one.
pub fn check_base(alloc: Global, base: &mut Base, lemmas: Lemmas) -> Result<(), CheckError>
    requires { IsWholeBase base.old }
    ensures kept { KeepsBase base.old base.new }
    ensures whole { OnOk result (IsWholeBase base.new) }
    ensures axioms { OnOk result ((n : ℕ) → IsRightAxiom (base_of base.old) n) }
    ensures members { OnOk result ((n : ℕ) → IsAllowedMember lemmas (base_of base.old) n) }
    ensures complaint { IfErr result (IsCheckCause (MembersPass lemmas (base_of base.old))) }
{
    if let Some(n) = wrong_axiom(alloc, base)? {
        return Err(CheckError::Complaint(Complaint::Axiom { n }));
    }
    if let Some(n) = wrong_member(alloc, base, lemmas)? {
        return Err(CheckError::Complaint(Complaint::Member { n }));
    }
    Ok(())
}
