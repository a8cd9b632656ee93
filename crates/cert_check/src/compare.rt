// The comparison of the covers that are named with what is due, one pair after the other. Nothing is searched for. The first wrong
// cover is kept while the pairs go on, since a pair with a unifier that is proper on neither side comes before it.
ghost use Rattle.std.specs.Prelude.{◌≡◌, ◌↔◌, ◌+◌, ◌<◌, ◌≤◌, List, suc, length, false, true, IfOk, IsTrue, None, OnOk};
ghost use Rattle.cert_format.specs.Certificate as format;
ghost use Rattle.cert_format.specs.Dues.{Due, AreDue};
ghost use Rattle.cert_format.specs.Validity.{IsProperPair, IsRightCover, IsValidBase};
ghost use Rattle.unify_core.specs.Chains.{AreBindings};
ghost use Rattle.unify_core.specs.Terms.{AreTerms};
ghost use Rattle.cert_values.specs.Values.{base_of, covered_of, saturation_of};
ghost use Rattle.cert_values.specs.Wholes.{IsWholeCover, IsWholeCovered, IsWholeSaturation, KeepsCovered, KeepsSaturation};
ghost use Rattle.cert_index.specs.Chains.{AreMeetings};
ghost use Rattle.cert_check.specs.Closings.{IsProperOn, IsProperSomewhere};
ghost use Rattle.cert_check.specs.DueSteps.{AreCompared, GivesMeeting, GivesPair, GivesRow, GivesSide};
ghost use Rattle.cert_check.specs.FirstPairs.{IsFirstWrongPairOf};
ghost use Rattle.cert_check.specs.Firsts.{IsFirstWrongOf};
ghost use Rattle.cert_check.specs.Compared.{IsComparable, IsCoverRight, IsNamedRight};
ghost use Rattle.cert_index.specs.Meetings.{LeadsOn};

use crate::due_side::{DueSide, number_at};
use crate::made::{is_made, is_of, pass_made};
use crate::rooms::RowRoom;
use cert_index::Meetings;
use cert_inference::{Instance, PairRoom, is_instance};
use cert_names::holds_by;
use cert_values::{Cover, Covered, Saturation, selected};
use inst_logic::Memory;
use std::alloc::Global;
use unify_core::Side;

/// How many covers are right from the first on, and whether the next one is known to be wrong.
#[derive(Clone, Copy)]
pub struct Progress {
    pub count: usize,
    pub wrong: bool,
}

// Whether the cover's clause is the instance of the side's member under the bindings, and what it names covers it.
pub fn is_named(
    cert: &mut Saturation,
    rooms: &mut PairRoom,
    due: DueSide,
    cover: &Cover,
) -> Result<bool, Memory>
    requires whole { IsWholeSaturation cert.old }
    requires base { IsValidBase (base_of cert.old.base) }
    requires within { due.own < length cert.old.base.members }
    requires cover { IsWholeCover cert.old.base.bank cover.now }
    requires bindings { AreBindings cert.old.base.bank rooms.old.bindings.entries }
    requires terms { AreTerms cert.old.base.bank rooms.old.bindings.entries }
    ensures kept { KeepsSaturation cert.old cert.new }
    ensures whole { OnOk result (IsWholeSaturation cert.new) }
    ensures named { IfOk result (IsNamedRight cert.old rooms.old.bindings.entries due.side (suc due.own) cover.now) }
    ensures bindings { rooms.new.bindings ≡ rooms.old.bindings }
{
    let members = cert.base.members.as_slice();
    let member = &members[due.own];
    let of = Instance {
        bindings: &rooms.bindings,
        side: due.side,
        clause: &member.clause,
    };
    let bank = &mut cert.base.bank;
    let workspace = &mut rooms.workspace;
    if !is_instance(workspace, bank, &mut rooms.comparison, &of, &cover.clause)? {
        return Ok(false);
    }
    let alloc = rooms.workspace.alloc();
    holds_by(
        alloc,
        &mut cert.base.bank,
        &cert.base.members,
        member.clause.len(),
        &cover.clause,
        &cover.by,
    )
}

// Whether the cover at the place, counted from 0, is that of the side.
fn is_right_cover(
    cert: &mut Covered,
    rooms: &mut PairRoom,
    due: DueSide,
    place: usize,
) -> Result<bool, Memory>
    requires comparable { IsComparable cert.old }
    requires own { due.own < length cert.old.cert.base.members }
    requires other { due.other < length cert.old.cert.base.members }
    requires bindings { AreBindings cert.old.cert.base.bank rooms.old.bindings.entries }
    requires terms { AreTerms cert.old.cert.base.bank rooms.old.bindings.entries }
    ensures kept { KeepsCovered cert.old cert.new }
    ensures whole { OnOk result (IsWholeCovered cert.new) }
    ensures right { IfOk result (IsCoverRight cert.old rooms.old.bindings.entries due place) }
    ensures within { IfOk result (λ r. r ≡ true → place < length cert.old.covers) }
    ensures bindings { rooms.new.bindings ≡ rooms.old.bindings }
{
    let Some(cover) = cert.covers.get(place) else {
        return Ok(false);
    };
    if !is_of(cover, cert.cert.base.members.as_slice(), due) {
        return Ok(false);
    }
    if is_made(&cert.cert, due, cover) {
        return Ok(true);
    }
    is_named(&mut cert.cert, rooms, due, cover)
}

// Notes whether the next cover is right.
fn note(progress: &mut Progress, _covers: &[Cover], right: bool)
    requires { right ≡ true → progress.old.count < length _covers.now }
    ensures yes { right ≡ true → progress.new ≡ record { count = progress.old.count + 1; wrong = progress.old.wrong } }
    ensures no { right ≡ false → progress.new ≡ record { count = progress.old.count; wrong = true } }
{
    if right {
        progress.count += 1;
    } else {
        progress.wrong = true;
    }
}

// Compares the next cover with the side, where the unifier is proper on it and no cover was wrong. The answer is
// whether the unifier is proper on the side.
fn compare_side(
    cert: &mut Covered,
    rooms: &mut PairRoom,
    due: DueSide,
    progress: &mut Progress,
) -> Result<bool, Memory>
    requires comparable { IsComparable cert.old }
    requires own { due.own < length cert.old.cert.base.members }
    requires other { due.other < length cert.old.cert.base.members }
    requires bindings { AreBindings cert.old.cert.base.bank rooms.old.bindings.entries }
    requires terms { AreTerms cert.old.cert.base.bank rooms.old.bindings.entries }
    requires counted { progress.old.count ≤ length cert.old.covers }
    ensures kept { KeepsCovered cert.old cert.new }
    ensures whole { OnOk result (IsWholeCovered cert.new) }
    ensures counted { progress.new.count ≤ length cert.new.covers }
    ensures proper { IfOk result (IsProperOn cert.old.cert.base.bank rooms.old.bindings.entries due.side) }
    ensures gives { OnOk result (GivesSide (saturation_of cert.old.cert) cert.old.cert.base.bank rooms.old.bindings.entries due.side due.own due.other (AreCompared (covered_of cert.old) progress.old) (AreCompared (covered_of cert.old) progress.new)) }
    ensures bindings { rooms.new.bindings ≡ rooms.old.bindings }
{
    if !rooms.bindings.proper(&cert.cert.base.bank, due.side) {
        return Ok(false);
    }
    if progress.wrong {
        return Ok(true);
    }
    let right = is_right_cover(cert, rooms, due, progress.count)?;
    note(progress, cert.covers.as_slice(), right);
    Ok(true)
}

// Compares the covers of members `i` and `j`, counted from 0, for the unifier that the bindings stand for. False comes where it
// is proper on neither side.
fn compare_meeting(
    cert: &mut Covered,
    rooms: &mut PairRoom,
    i: usize,
    j: usize,
    progress: &mut Progress,
) -> Result<bool, Memory>
    requires comparable { IsComparable cert.old }
    requires left { i < length cert.old.cert.base.members }
    requires right { j < length cert.old.cert.base.members }
    requires bindings { AreBindings cert.old.cert.base.bank rooms.old.bindings.entries }
    requires terms { AreTerms cert.old.cert.base.bank rooms.old.bindings.entries }
    requires counted { progress.old.count ≤ length cert.old.covers }
    ensures kept { KeepsCovered cert.old cert.new }
    ensures whole { OnOk result (IsWholeCovered cert.new) }
    ensures counted { progress.new.count ≤ length cert.new.covers }
    ensures proper { IfOk result (IsProperSomewhere cert.old.cert.base.bank rooms.old.bindings.entries) }
    ensures gives { IfOk result (λ r. r ≡ true → GivesMeeting (saturation_of cert.old.cert) cert.old.cert.base.bank rooms.old.bindings.entries i j (AreCompared (covered_of cert.old) progress.old) (AreCompared (covered_of cert.old) progress.new)) }
{
    let left = DueSide {
        side: Side::Left,
        own: i,
        other: j,
    };
    let on_left = compare_side(cert, rooms, left, progress)?;
    let right = DueSide {
        side: Side::Right,
        own: j,
        other: i,
    };
    let on_right = compare_side(cert, rooms, right, progress)?;
    Ok(on_left || on_right)
}

// Compares the covers of members `i` and `j`, counted from 0, for their unifier. False comes where they meet and it is proper on
// neither side.
fn compare_unified(
    cert: &mut Covered,
    rooms: &mut PairRoom,
    i: usize,
    j: usize,
    progress: &mut Progress,
) -> Result<bool, Memory>
    requires comparable { IsComparable cert.old }
    requires left { i < j }
    requires right { j < length cert.old.cert.base.members }
    requires counted { progress.old.count ≤ length cert.old.covers }
    ensures kept { KeepsCovered cert.old cert.new }
    ensures whole { OnOk result (IsWholeCovered cert.new) }
    ensures counted { progress.new.count ≤ length cert.new.covers }
    ensures proper { IfOk result (λ r. IsTrue r ↔ IsProperPair (saturation_of cert.old.cert) (suc i) (suc j)) }
    ensures gives { IfOk result (λ r. r ≡ true → GivesPair (saturation_of cert.old.cert) (suc i) (suc j) (AreCompared (covered_of cert.old) progress.old) (AreCompared (covered_of cert.old) progress.new)) }
{
    let l = *selected(&cert.cert, i);
    let m = *selected(&cert.cert, j);
    if l.positive == m.positive {
        return Ok(true);
    }
    if !rooms.bindings.unify(&cert.cert.base.bank, l.atom, m.atom)? {
        return Ok(true);
    }
    compare_meeting(cert, rooms, i, j, progress)
}

// Compares the covers of members `i` and `j`, counted from 0. Nothing is unified where origins tell what is due. False comes
// where the members meet and the unifier is proper on neither side.
fn compare_pair(
    cert: &mut Covered,
    rooms: &mut PairRoom,
    i: usize,
    j: usize,
    progress: &mut Progress,
) -> Result<bool, Memory>
    requires comparable { IsComparable cert.old }
    requires left { i < j }
    requires right { j < length cert.old.cert.base.members }
    requires counted { progress.old.count ≤ length cert.old.covers }
    ensures kept { KeepsCovered cert.old cert.new }
    ensures whole { OnOk result (IsWholeCovered cert.new) }
    ensures counted { progress.new.count ≤ length cert.new.covers }
    ensures proper { IfOk result (λ r. IsTrue r ↔ IsProperPair (saturation_of cert.old.cert) (suc i) (suc j)) }
    ensures gives { IfOk result (λ r. r ≡ true → GivesPair (saturation_of cert.old.cert) (suc i) (suc j) (AreCompared (covered_of cert.old) progress.old) (AreCompared (covered_of cert.old) progress.new)) }
{
    if pass_made(cert, i, j, progress) {
        return Ok(true);
    }
    compare_unified(cert, rooms, i, j, progress)
}

// Compares the covers of member `i`, counted from 0, with each of the list, up to the first with which its unifier is proper on
// neither side, whose number is the answer.
fn compare_among(
    cert: &mut Covered,
    rooms: &mut PairRoom,
    i: usize,
    partners: &[usize],
    progress: &mut Progress,
) -> Result<Option<usize>, Memory>
    requires comparable { IsComparable cert.old }
    requires within { i < length cert.old.cert.base.members }
    requires partners { LeadsOn (saturation_of cert.old.cert) i (suc i) partners.now }
    requires counted { progress.old.count ≤ length cert.old.covers }
    ensures kept { KeepsCovered cert.old cert.new }
    ensures whole { OnOk result (IsWholeCovered cert.new) }
    ensures counted { progress.new.count ≤ length cert.new.covers }
    ensures first { IfOk result (IsFirstWrongOf (IsProperPair (saturation_of cert.old.cert) (suc i))) }
    ensures gives { IfOk result (λ o. o ≡ None → GivesRow (saturation_of cert.old.cert) i (AreCompared (covered_of cert.old) progress.old) (AreCompared (covered_of cert.old) progress.new)) }
{
    for j in partners {
        if !compare_pair(cert, rooms, i, *j, progress)? {
            let members = cert.cert.base.members.as_slice();
            return Ok(Some(number_at(members, *j)));
        }
    }
    Ok(None)
}

// Compares the covers of member `i`, counted from 0, with each later member, as far as the unifiers are proper on a side.
fn compare_row(
    cert: &mut Covered,
    meetings: &Meetings,
    rooms: &mut RowRoom,
    i: usize,
    progress: &mut Progress,
) -> Result<Option<usize>, Memory>
    requires comparable { IsComparable cert.old }
    requires meetings { AreMeetings (saturation_of cert.old.cert) meetings.now }
    requires within { i < length cert.old.cert.base.members }
    requires counted { progress.old.count ≤ length cert.old.covers }
    ensures kept { KeepsCovered cert.old cert.new }
    ensures whole { OnOk result (IsWholeCovered cert.new) }
    ensures counted { progress.new.count ≤ length cert.new.covers }
    ensures first { IfOk result (IsFirstWrongOf (IsProperPair (saturation_of cert.old.cert) (suc i))) }
    ensures gives { IfOk result (λ o. o ≡ None → GivesRow (saturation_of cert.old.cert) i (AreCompared (covered_of cert.old) progress.old) (AreCompared (covered_of cert.old) progress.new)) }
{
    let RowRoom { pair, partners } = rooms;
    meetings.later_partners(partners, &cert.cert, i)?;
    compare_among(cert, pair, i, partners.as_slice(), progress)
}

// Compares the covers of all members, with room to work in.
fn compare_rows(
    cert: &mut Covered,
    meetings: &Meetings,
    rooms: &mut RowRoom,
    progress: &mut Progress,
) -> Result<Option<(usize, usize)>, Memory>
    requires comparable { IsComparable cert.old }
    requires meetings { AreMeetings (saturation_of cert.old.cert) meetings.now }
    requires start { (progress.old.count ≡ 0) × (progress.old.wrong ≡ false) }
    ensures kept { KeepsCovered cert.old cert.new }
    ensures whole { OnOk result (IsWholeCovered cert.new) }
    ensures counted { progress.new.count ≤ length cert.new.covers }
    ensures first { IfOk result (IsFirstWrongPairOf (IsProperPair (saturation_of cert.old.cert))) }
    ensures compared { IfOk result (λ o. o ≡ None → (ds : List Due) × AreDue (saturation_of cert.old.cert) ds × AreCompared (covered_of cert.old) progress.new ds) }
{
    for i in 0..cert.cert.base.members.len() {
        if let Some(right) = compare_row(cert, meetings, rooms, i, progress)? {
            return Ok(Some((i + 1, right)));
        }
    }
    Ok(None)
}

// Compares all covers, up to the first two members whose unifier is proper on neither side, whose numbers are the answer.
pub fn compare_pairs(
    alloc: Global,
    cert: &mut Covered,
    meetings: &Meetings,
    progress: &mut Progress,
) -> Result<Option<(usize, usize)>, Memory>
    requires comparable { IsComparable cert.old }
    requires meetings { AreMeetings (saturation_of cert.old.cert) meetings.now }
    requires start { (progress.old.count ≡ 0) × (progress.old.wrong ≡ false) }
    ensures kept { KeepsCovered cert.old cert.new }
    ensures whole { OnOk result (IsWholeCovered cert.new) }
    ensures counted { progress.new.count ≤ length cert.new.covers }
    ensures first { IfOk result (IsFirstWrongPairOf (IsProperPair (saturation_of cert.old.cert))) }
    ensures compared { IfOk result (λ o. o ≡ None → (ds : List Due) × AreDue (saturation_of cert.old.cert) ds × AreCompared (covered_of cert.old) progress.new ds) }
{
    let mut rooms = RowRoom::new(alloc);
    compare_rows(cert, meetings, &mut rooms, progress)
}

// The number of the first wrong cover, or of the first past what is due, where all pairs were compared.
pub fn wrong_cover(progress: Progress, covers: &[Cover]) -> Option<usize>
    requires { progress.count ≤ length covers.now }
    ensures { (v : format.Covered) → length v.covers ≡ length covers.now → (ds : List Due) → AreDue v.saturation ds → AreCompared v progress ds → IsFirstWrongOf (IsRightCover v) result }
{
    if progress.wrong {
        return Some(progress.count + 1);
    }
    if progress.count < covers.len() {
        return Some(progress.count + 1);
    }
    None
}
