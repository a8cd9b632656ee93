// The covers of what is due, found for one pair after the other. An instance is the clause of its cover. It is not built where a
// cover that was found before serves again, and built twice where such a cover was tried and is another's.
ghost use Rattle.std.specs.Prelude.{◌≡◌, ◌↔◌, ◌<◌, ◌++◌, ◌∷◌, List, [], suc, length, false, true, All, IfNone, IfOk, IfSome, IsTrue, None, OnOk};
ghost use Rattle.cert_format.specs.Dues.{Due, AreDue};
ghost use Rattle.cert_format.specs.Validity.{IsRightPair, IsValidBase};
ghost use Rattle.unify_core.specs.Chains.{AreBindings};
ghost use Rattle.unify_core.specs.Terms.{AreTerms};
ghost use Rattle.cert_values.specs.Values.{base_of, covered_of, saturation_of};
ghost use Rattle.cert_values.specs.Wholes.{HasPlaces, IsWholeCover, IsWholeCovered, IsWholeSaturation, KeepsSaturation};
ghost use Rattle.cert_check.specs.Closings.{IsPairClosed, IsProperSomewhere, IsSideClosed, IsSideCovered};
ghost use Rattle.cert_check.specs.DueSteps.{AreNamed, GivesMeeting, GivesPair, GivesRow, GivesSide, GrowsCovers};
ghost use Rattle.cert_check.specs.Sides.{left_number, right_number};
ghost use Rattle.cert_check.specs.FirstPairs.{IsFirstWrongPairOf};
ghost use Rattle.cert_check.specs.Firsts.{IsFirstWrongOf};
ghost use Rattle.cert_index.specs.Lookups.{IsReady};
ghost use Rattle.cert_index.specs.Meetings.{LeadsOn};
ghost use Rattle.cert_check.specs.Names.{NamesSide};

use crate::compare::is_named;
use crate::due_side::DueSide;
use crate::naming::{Named, named_instance};
use crate::rooms::CoverRoom;
use crate::seen::code_of;
use cert_index::{Lookup, clause_copy};
use cert_inference::{Instance, PairRoom};
use cert_values::{By, Cover, CoverList, Covered, Member, Saturation, selected};
use clause_form::Workspace;
use inst_logic::Memory;
use std::alloc::Global;
use term_bank::{Bank, TermIdList};
use unify_core::{Bindings, Side};

// Whether the unifier that the bindings stand for makes a variable on some side a term that is no variable.
fn is_proper(bank: &Bank, bindings: &Bindings) -> bool
    requires { AreBindings bank.now bindings.now.entries }
    ensures { IsProperSomewhere bank.now bindings.now.entries result }
{
    if bindings.proper(bank, Side::Left) {
        return true;
    }
    bindings.proper(bank, Side::Right)
}

// The instance of the side's member under the bindings, and what covers it.
fn named_side(
    workspace: &mut Workspace,
    cert: &mut Saturation,
    lookup: &Lookup,
    bindings: &Bindings,
    due: DueSide,
) -> Result<Option<Named>, Memory>
    requires ready { IsReady cert.old lookup.now }
    requires within { due.own < length cert.old.base.members }
    requires bindings { AreBindings cert.old.base.bank bindings.now.entries }
    requires terms { AreTerms cert.old.base.bank bindings.now.entries }
    ensures kept { KeepsSaturation cert.old cert.new }
    ensures whole { OnOk result (IsWholeSaturation cert.new) }
    ensures some { IfOk result (λ o. IfSome o (NamesSide cert.old cert.new bindings.now.entries due.side (suc due.own))) }
    ensures covered { IfOk result (λ o. IfSome o (λ _. IsSideCovered cert.old bindings.now.entries due.side (suc due.own) true)) }
    ensures none { IfOk result (λ o. IfNone o (IsSideCovered cert.old bindings.now.entries due.side (suc due.own) false)) }
{
    let members = cert.base.members.as_slice();
    let member = &members[due.own];
    let of = Instance {
        bindings,
        side: due.side,
        clause: &member.clause,
    };
    named_instance(workspace, &mut cert.base.bank, members, lookup, &of)
}

// A copy of what covers a clause.
fn by_copy(alloc: Global, by: &By) -> Result<By, Memory>
    ensures { IfOk result (λ b. b ≡ by.now) }
{
    match by {
        By::Tautology => Ok(By::Tautology),
        By::Variant(number) => Ok(By::Variant(*number)),
        By::Part { member, terms } => Ok(By::Part {
            member: *member,
            terms: TermIdList::from(Vec::from_slice(alloc, terms.as_slice())?),
        }),
    }
}

// What covers the side's instance by the cover at the place, where that one serves again: its clause is the instance then.
fn seen_side(
    cert: &mut Saturation,
    covers: &[Cover],
    pair: &mut PairRoom,
    due: DueSide,
    place: Option<usize>,
) -> Result<Option<Named>, Memory>
    requires whole { IsWholeSaturation cert.old }
    requires covers { All (IsWholeCover cert.old.base.bank) covers.now }
    requires base { IsValidBase (base_of cert.old.base) }
    requires placed { HasPlaces (saturation_of cert.old) }
    requires within { due.own < length cert.old.base.members }
    requires bindings { AreBindings cert.old.base.bank pair.old.bindings.entries }
    requires terms { AreTerms cert.old.base.bank pair.old.bindings.entries }
    ensures kept { KeepsSaturation cert.old cert.new }
    ensures whole { OnOk result (IsWholeSaturation cert.new) }
    ensures some { IfOk result (λ o. IfSome o (NamesSide cert.old cert.new pair.old.bindings.entries due.side (suc due.own))) }
    ensures covered { IfOk result (λ o. IfSome o (λ _. IsSideCovered cert.old pair.old.bindings.entries due.side (suc due.own) true)) }
    ensures bindings { pair.new.bindings ≡ pair.old.bindings }
{
    let Some(at) = place else {
        return Ok(None);
    };
    let Some(cover) = covers.get(at) else {
        return Ok(None);
    };
    if !is_named(cert, pair, due, cover)? {
        return Ok(None);
    }
    let alloc = pair.workspace.alloc();
    let clause = clause_copy(alloc, &cover.clause)?;
    let by = by_copy(alloc, &cover.by)?;
    Ok(Some(Named { clause, by }))
}

// The instance of the side's member, and what covers it. A cover that was found for such an instance is tried first.
fn find_side(
    cert: &mut Saturation,
    covers: &[Cover],
    lookup: &Lookup,
    room: &mut CoverRoom,
    due: DueSide,
) -> Result<Option<Named>, Memory>
    requires ready { IsReady cert.old lookup.now }
    requires covers { All (IsWholeCover cert.old.base.bank) covers.now }
    requires within { due.own < length cert.old.base.members }
    requires bindings { AreBindings cert.old.base.bank room.old.pair.bindings.entries }
    requires terms { AreTerms cert.old.base.bank room.old.pair.bindings.entries }
    ensures kept { KeepsSaturation cert.old cert.new }
    ensures whole { OnOk result (IsWholeSaturation cert.new) }
    ensures some { IfOk result (λ o. IfSome o (NamesSide cert.old cert.new room.old.pair.bindings.entries due.side (suc due.own))) }
    ensures covered { IfOk result (λ o. IfSome o (λ _. IsSideCovered cert.old room.old.pair.bindings.entries due.side (suc due.own) true)) }
    ensures none { IfOk result (λ o. IfNone o (IsSideCovered cert.old room.old.pair.bindings.entries due.side (suc due.own) false)) }
    ensures bindings { room.new.pair.bindings ≡ room.old.pair.bindings }
{
    let CoverRoom { pair, seen } = room;
    let atom = selected(cert, due.own).atom;
    let code = code_of(&cert.base.bank, &pair.bindings, due.side, due.own, atom);
    if let Some(named) = seen_side(cert, covers, pair, due, seen.place_of(code))? {
        return Ok(Some(named));
    }
    seen.put(code, covers.len());
    named_side(&mut pair.workspace, cert, lookup, &pair.bindings, due)
}

// Puts the cover of the side at the end.
fn push_cover(
    covers: &mut CoverList,
    members: &[Member],
    due: DueSide,
    named: Named,
) -> Result<(), Memory>
    requires own { due.own < length members.now }
    requires other { due.other < length members.now }
    ensures { OnOk result (covers.new ≡ covers.old ++ record { left = left_number due.side due.own due.other; right = right_number due.side due.own due.other; side = due.side; clause = named.clause; by = named.by } ∷ []) }
{
    let Named { clause, by } = named;
    covers.push(Cover {
        left: due.left_number(members),
        right: due.right_number(members),
        side: due.side,
        clause,
        by,
    })
}

// Adds the cover of the side where the unifier is proper on it. False comes where nothing covers it.
fn cover_side(
    cert: &mut Covered,
    lookup: &Lookup,
    room: &mut CoverRoom,
    due: DueSide,
) -> Result<bool, Memory>
    requires whole { IsWholeCovered cert.old }
    requires ready { IsReady cert.old.cert lookup.now }
    requires own { due.own < length cert.old.cert.base.members }
    requires other { due.other < length cert.old.cert.base.members }
    requires bindings { AreBindings cert.old.cert.base.bank room.old.pair.bindings.entries }
    requires terms { AreTerms cert.old.cert.base.bank room.old.pair.bindings.entries }
    ensures kept { GrowsCovers cert.old cert.new }
    ensures whole { OnOk result (IsWholeCovered cert.new) }
    ensures closed { IfOk result (IsSideClosed cert.old.cert room.old.pair.bindings.entries due.side (suc due.own) (suc due.other)) }
    ensures gives { IfOk result (λ r. r ≡ true → GivesSide (saturation_of cert.old.cert) cert.old.cert.base.bank room.old.pair.bindings.entries due.side due.own due.other (AreNamed (covered_of cert.old)) (AreNamed (covered_of cert.new))) }
    ensures bindings { room.new.pair.bindings ≡ room.old.pair.bindings }
{
    if !room.pair.bindings.proper(&cert.cert.base.bank, due.side) {
        return Ok(true);
    }
    match find_side(&mut cert.cert, cert.covers.as_slice(), lookup, room, due)? {
        None => Ok(false),
        Some(named) => {
            push_cover(
                &mut cert.covers,
                cert.cert.base.members.as_slice(),
                due,
                named,
            )?;
            Ok(true)
        }
    }
}

// Adds the covers of members `i` and `j`, counted from 0, for the unifier that the bindings stand for. False comes where they
// are not closed for it.
fn cover_meeting(
    cert: &mut Covered,
    lookup: &Lookup,
    room: &mut CoverRoom,
    i: usize,
    j: usize,
) -> Result<bool, Memory>
    requires whole { IsWholeCovered cert.old }
    requires ready { IsReady cert.old.cert lookup.now }
    requires left { i < length cert.old.cert.base.members }
    requires right { j < length cert.old.cert.base.members }
    requires bindings { AreBindings cert.old.cert.base.bank room.old.pair.bindings.entries }
    requires terms { AreTerms cert.old.cert.base.bank room.old.pair.bindings.entries }
    ensures kept { GrowsCovers cert.old cert.new }
    ensures whole { OnOk result (IsWholeCovered cert.new) }
    ensures closed { IfOk result (IsPairClosed cert.old.cert room.old.pair.bindings.entries (suc i) (suc j)) }
    ensures gives { IfOk result (λ r. r ≡ true → GivesMeeting (saturation_of cert.old.cert) cert.old.cert.base.bank room.old.pair.bindings.entries i j (AreNamed (covered_of cert.old)) (AreNamed (covered_of cert.new))) }
{
    if !is_proper(&cert.cert.base.bank, &room.pair.bindings) {
        return Ok(false);
    }
    let left = DueSide {
        side: Side::Left,
        own: i,
        other: j,
    };
    if !cover_side(cert, lookup, room, left)? {
        return Ok(false);
    }
    let right = DueSide {
        side: Side::Right,
        own: j,
        other: i,
    };
    cover_side(cert, lookup, room, right)
}

// Adds the covers of members `i` and `j`, counted from 0. False comes where they meet and are not closed.
fn cover_pair(
    cert: &mut Covered,
    lookup: &Lookup,
    room: &mut CoverRoom,
    i: usize,
    j: usize,
) -> Result<bool, Memory>
    requires whole { IsWholeCovered cert.old }
    requires ready { IsReady cert.old.cert lookup.now }
    requires left { i < j }
    requires right { j < length cert.old.cert.base.members }
    ensures kept { GrowsCovers cert.old cert.new }
    ensures whole { OnOk result (IsWholeCovered cert.new) }
    ensures right { IfOk result (λ r. IsTrue r ↔ IsRightPair (saturation_of cert.old.cert) (suc i) (suc j)) }
    ensures gives { IfOk result (λ r. r ≡ true → GivesPair (saturation_of cert.old.cert) (suc i) (suc j) (AreNamed (covered_of cert.old)) (AreNamed (covered_of cert.new))) }
{
    let l = *selected(&cert.cert, i);
    let m = *selected(&cert.cert, j);
    if l.positive == m.positive {
        return Ok(true);
    }
    if !room
        .pair
        .bindings
        .unify(&cert.cert.base.bank, l.atom, m.atom)?
    {
        return Ok(true);
    }
    cover_meeting(cert, lookup, room, i, j)
}

// Adds the covers of member `i`, counted from 0, with each of the list, up to the first with which it is not closed, whose
// number is the answer.
fn cover_among(
    cert: &mut Covered,
    lookup: &Lookup,
    room: &mut CoverRoom,
    i: usize,
    partners: &[usize],
) -> Result<Option<usize>, Memory>
    requires whole { IsWholeCovered cert.old }
    requires ready { IsReady cert.old.cert lookup.now }
    requires within { i < length cert.old.cert.base.members }
    requires partners { LeadsOn (saturation_of cert.old.cert) i (suc i) partners.now }
    ensures kept { GrowsCovers cert.old cert.new }
    ensures whole { OnOk result (IsWholeCovered cert.new) }
    ensures first { IfOk result (IsFirstWrongOf (IsRightPair (saturation_of cert.old.cert) (suc i))) }
    ensures gives { IfOk result (λ o. o ≡ None → GivesRow (saturation_of cert.old.cert) i (AreNamed (covered_of cert.old)) (AreNamed (covered_of cert.new))) }
{
    for j in partners {
        if !cover_pair(cert, lookup, room, i, *j)? {
            return Ok(Some(*j + 1));
        }
    }
    Ok(None)
}

// Adds the covers of member `i`, counted from 0, with each later member, up to the first with which it is not closed.
fn cover_row(
    cert: &mut Covered,
    lookup: &Lookup,
    room: &mut CoverRoom,
    partners: &mut Vec<usize>,
    i: usize,
) -> Result<Option<usize>, Memory>
    requires whole { IsWholeCovered cert.old }
    requires ready { IsReady cert.old.cert lookup.now }
    requires within { i < length cert.old.cert.base.members }
    ensures kept { GrowsCovers cert.old cert.new }
    ensures whole { OnOk result (IsWholeCovered cert.new) }
    ensures first { IfOk result (IsFirstWrongOf (IsRightPair (saturation_of cert.old.cert) (suc i))) }
    ensures gives { IfOk result (λ o. o ≡ None → GivesRow (saturation_of cert.old.cert) i (AreNamed (covered_of cert.old)) (AreNamed (covered_of cert.new))) }
{
    lookup.meetings.later_partners(partners, &cert.cert, i)?;
    cover_among(cert, lookup, room, i, partners.as_slice())
}

// Adds the covers of all members, with room to work in.
fn cover_rows(
    cert: &mut Covered,
    lookup: &Lookup,
    room: &mut CoverRoom,
    partners: &mut Vec<usize>,
) -> Result<Option<(usize, usize)>, Memory>
    requires whole { IsWholeCovered cert.old }
    requires ready { IsReady cert.old.cert lookup.now }
    requires none { cert.old.covers ≡ [] }
    ensures kept { GrowsCovers cert.old cert.new }
    ensures whole { OnOk result (IsWholeCovered cert.new) }
    ensures first { IfOk result (IsFirstWrongPairOf (IsRightPair (saturation_of cert.old.cert))) }
    ensures named { IfOk result (λ o. o ≡ None → (ds : List Due) × AreDue (saturation_of cert.old.cert) ds × AreNamed (covered_of cert.new) ds) }
{
    room.seen.reserve(cert.cert.base.members.len())?;
    for i in 0..cert.cert.base.members.len() {
        if let Some(right) = cover_row(cert, lookup, room, partners, i)? {
            return Ok(Some((i + 1, right)));
        }
    }
    Ok(None)
}

// Adds the covers of all that is due, up to the first two members that are not closed, whose numbers are the answer.
pub fn cover_pairs(
    alloc: Global,
    cert: &mut Covered,
    lookup: &Lookup,
) -> Result<Option<(usize, usize)>, Memory>
    requires whole { IsWholeCovered cert.old }
    requires ready { IsReady cert.old.cert lookup.now }
    requires none { cert.old.covers ≡ [] }
    ensures kept { GrowsCovers cert.old cert.new }
    ensures whole { OnOk result (IsWholeCovered cert.new) }
    ensures first { IfOk result (IsFirstWrongPairOf (IsRightPair (saturation_of cert.old.cert))) }
    ensures named { IfOk result (λ o. o ≡ None → (ds : List Due) × AreDue (saturation_of cert.old.cert) ds × AreNamed (covered_of cert.new) ds) }
{
    let mut room = CoverRoom::new(alloc);
    let mut partners = Vec::new(alloc);
    cover_rows(cert, lookup, &mut room, &mut partners)
}
