// Conclusions of two members: found anew, not matched against what the certificate has. The clause of an origin is compared with
// the conclusion before that is built.
ghost use Rattle.std.specs.Prelude.{◌≡◌, ◌+◌, ◌<◌, ◌↔◌, All, IfOk, IsTrue, false, length, map, option_copied, true};
ghost use Rattle.inst_logic.specs.Derivations.{at_number};
ghost use Rattle.cert_format.specs.Validity.{IsConclusion};
ghost use Rattle.term_bank.specs.Forest.{AreFormed, Extends, IsClauseOf, clause_at, tree_at};
ghost use Rattle.cert_values.specs.Values.{entry_of};
ghost use Rattle.cert_values.specs.Wholes.{IsWholeClause};
ghost use Rattle.cert_inference.specs.Conclusions.{Concludes, HasNoProper, IsAtomOf, IsConcluded, IsProperlyUnified, MembersConclude, MembersGive, literal_of};

use crate::comparison::is_instance;
use crate::instance::Instance;
use crate::rooms::PairRoom;
use cert_values::Member;
use inst_logic::Memory;
use term_bank::{Bank, IdClause, IdLiteral, TermId};
use unify_core::{Bindings, Side};

// Literal `place` of member `from` with literal `other` of member `partner`, all counted from 1.
#[derive(Clone, Copy, Debug, PartialEq, Eq, Hash)]
pub struct Premises {
    pub from: usize,
    pub place: usize,
    pub partner: usize,
    pub other: usize,
}

impl Premises {
    pub fn new(from: usize, place: usize, partner: usize, other: usize) -> Premises
        ensures { result ≡ record { from = from; place = place; partner = partner; other = other } }
    {
        Premises {
            from,
            place,
            partner,
            other,
        }
    }
}

/// What is claimed of member `i`, counted from 0: that the premises give its clause.
#[derive(Clone, Copy)]
pub struct Claim<'a> {
    pub i: usize,
    pub premises: Premises,
    pub clause: &'a IdClause,
}

// Item `n`, counted from 1.
pub fn numbered_item<T>(items: &[T], n: usize) -> Option<&T>
    ensures { option_copied result ≡ at_number items.now n }
{
    if n == 0 {
        return None;
    }
    items.get(n - 1)
}

// The literal at the place of the member of this number, both counted from 1.
pub fn literal_at(members: &[Member], number: usize, place: usize) -> Option<IdLiteral>
    ensures { result ≡ literal_of members.now number place }
{
    match numbered_item(members, number) {
        None => None,
        Some(member) => numbered_item(member.clause.as_slice(), place).copied(),
    }
}

// Whether the atoms, renamed apart, have a most general unifier that is proper for the first.
fn unify_properly(
    bank: &Bank,
    bindings: &mut Bindings,
    a: TermId,
    b: TermId,
) -> Result<bool, Memory>
    requires left { a < length bank.now.trees }
    requires right { b < length bank.now.trees }
    ensures yes { IfOk result (λ r. r ≡ true → IsProperlyUnified bank.now bindings.new.entries (tree_at bank.now a) (tree_at bank.now b)) }
    ensures no { IfOk result (λ r. r ≡ false → HasNoProper (tree_at bank.now a) (tree_at bank.now b)) }
{
    if !bindings.unify(bank, a, b)? {
        return Ok(false);
    }
    Ok(bindings.proper(bank, Side::Left))
}

// The instance of the clause, whose literal `l` is, under the proper most general unifier of `l` and `m`, in canonical form.
fn conclude_at(
    bank: &mut Bank,
    room: &mut PairRoom,
    clause: &IdClause,
    l: IdLiteral,
    m: IdLiteral,
) -> Result<Option<IdClause>, Memory>
    requires clause { IsWholeClause bank.old clause.now }
    requires left { IsAtomOf bank.old l }
    requires right { IsAtomOf bank.old m }
    ensures concludes { IfOk result (Concludes bank.old bank.new clause.now l m) }
    ensures extends { Extends bank.old bank.new }
    ensures formed { AreFormed bank.old → AreFormed bank.new }
{
    if l.positive == m.positive {
        return Ok(None);
    }
    if !unify_properly(bank, &mut room.bindings, l.atom, m.atom)? {
        return Ok(None);
    }
    let conclusion = room
        .workspace
        .conclude_clause(bank, &room.bindings, Side::Left, clause)?;
    Ok(Some(conclusion))
}

// What the first member gives with the second, if they conclude something.
pub fn conclusion(
    bank: &mut Bank,
    room: &mut PairRoom,
    members: &[Member],
    premises: Premises,
) -> Result<Option<IdClause>, Memory>
    requires members { All (λ m. IsWholeClause bank.old m.clause) members.now }
    ensures concludes { IfOk result (MembersConclude bank.new (map (entry_of bank.old) members.now) premises.from premises.place premises.partner premises.other) }
    ensures extends { Extends bank.old bank.new }
    ensures formed { AreFormed bank.old → AreFormed bank.new }
{
    let Some(member) = numbered_item(members, premises.from) else {
        return Ok(None);
    };
    let Some(l) = literal_at(members, premises.from, premises.place) else {
        return Ok(None);
    };
    let Some(m) = literal_at(members, premises.partner, premises.other) else {
        return Ok(None);
    };
    conclude_at(bank, room, &member.clause, l, m)
}

// Whether the clause is the instance of the other one, whose literal `l` is, under the proper most general unifier of `l` and
// `m`, in canonical form.
fn is_concluded_at(
    bank: &mut Bank,
    room: &mut PairRoom,
    from: &IdClause,
    l: IdLiteral,
    m: IdLiteral,
    clause: &IdClause,
) -> Result<bool, Memory>
    requires from { IsWholeClause bank.old from.now }
    requires left { IsAtomOf bank.old l }
    requires right { IsAtomOf bank.old m }
    requires clause { IsClauseOf bank.old clause.now }
    ensures concluded { IfOk result (λ r. IsTrue r ↔ IsConcluded bank.old bank.old from.now l m clause.now) }
    ensures extends { Extends bank.old bank.new }
    ensures formed { AreFormed bank.old → AreFormed bank.new }
{
    if l.positive == m.positive {
        return Ok(false);
    }
    if !unify_properly(bank, &mut room.bindings, l.atom, m.atom)? {
        return Ok(false);
    }
    let of = Instance {
        bindings: &room.bindings,
        side: Side::Left,
        clause: from,
    };
    is_instance(&mut room.workspace, bank, &mut room.comparison, &of, clause)
}

// Whether the members conclude the clause.
fn is_conclusion(
    bank: &mut Bank,
    room: &mut PairRoom,
    members: &[Member],
    claim: &Claim<'_>,
) -> Result<bool, Memory>
    requires members { All (λ m. IsWholeClause bank.old m.clause) members.now }
    requires clause { IsClauseOf bank.old claim.now.clause.now }
    ensures gives { IfOk result (λ r. IsTrue r ↔ IsConclusion (map (entry_of bank.old) members.now) claim.now.premises.from claim.now.premises.place claim.now.premises.partner claim.now.premises.other (clause_at bank.old claim.now.clause.now)) }
    ensures extends { Extends bank.old bank.new }
    ensures formed { AreFormed bank.old → AreFormed bank.new }
{
    let premises = claim.premises;
    let Some(member) = numbered_item(members, premises.from) else {
        return Ok(false);
    };
    let Some(l) = literal_at(members, premises.from, premises.place) else {
        return Ok(false);
    };
    let Some(m) = literal_at(members, premises.partner, premises.other) else {
        return Ok(false);
    };
    is_concluded_at(bank, room, &member.clause, l, m, claim.clause)
}

// Whether both members come before the one that the claim is about, and conclude the clause.
pub fn members_give(
    bank: &mut Bank,
    room: &mut PairRoom,
    members: &[Member],
    claim: &Claim<'_>,
) -> Result<bool, Memory>
    requires members { All (λ m. IsWholeClause bank.old m.clause) members.now }
    requires clause { IsClauseOf bank.old claim.now.clause.now }
    ensures gives { IfOk result (λ r. IsTrue r ↔ MembersGive (map (entry_of bank.old) members.now) (claim.now.i + 1) claim.now.premises.from claim.now.premises.place claim.now.premises.partner claim.now.premises.other (clause_at bank.old claim.now.clause.now)) }
    ensures extends { Extends bank.old bank.new }
    ensures formed { AreFormed bank.old → AreFormed bank.new }
{
    if claim.premises.from > claim.i || claim.premises.partner > claim.i {
        return Ok(false);
    }
    is_conclusion(bank, room, members, claim)
}
