// Covers that are told by the origins of the members that they name. The origins were checked before, so the selected literals
// of such a member's premises unify, the unifier is proper for the first, and the member's clause is the instance.
ghost use Rattle.std.specs.Prelude.{◌≡◌, ◌↔◌, ◌<◌, IfSome, IsTrue, false, length, suc, true};
ghost use Rattle.cert_values.specs.Values.{saturation_of};
ghost use Rattle.cert_values.specs.Wholes.{HasPlaces, IsWholeSaturation};
ghost use Rattle.cert_check.specs.Compared.{IsComparable, IsMadeCover};
ghost use Rattle.cert_check.specs.Made.{AreMade, HasGroundAtom, IsMadeAt, IsPassed};
ghost use Rattle.cert_check.specs.Origins.{origin_from};
ghost use Rattle.cert_check.specs.Sides.{left_number, right_number};

use crate::compare::Progress;
use crate::due_side::DueSide;
use cert_inference::{Premises, numbered_item, same_clause};
use cert_values::{By, Cover, Covered, Member, Origin, Saturation, selected};
use unify_core::Side;

// Whether the cover has the numbers and the side.
pub fn is_of(cover: &Cover, members: &[Member], due: DueSide) -> bool
    requires own { due.own < length members.now }
    requires other { due.other < length members.now }
    ensures { IsTrue result ↔ ((cover.now.left ≡ left_number due.side due.own due.other) × (cover.now.right ≡ right_number due.side due.own due.other) × (cover.now.side ≡ due.side)) }
{
    cover.left == due.left_number(members)
        && cover.right == due.right_number(members)
        && cover.side == due.side
}

// Whether the origin is that of the premises.
fn is_from(origin: &Origin, premises: Premises) -> bool
    ensures { result ≡ true → origin.now ≡ origin_from premises }
{
    match origin {
        Origin::Inst {
            from,
            place,
            partner,
            other,
        } => {
            *from == premises.from
                && *place == premises.place
                && *partner == premises.partner
                && *other == premises.other
        }
        Origin::Input(_) | Origin::Lemma { .. } => false,
    }
}

// Whether the cover names a member that has its clause and was made from the selected literals of the two members. The origins
// were checked before, so the clause is the instance, which then is not built.
pub fn is_made(cert: &Saturation, due: DueSide, cover: &Cover) -> bool
    requires own { due.own < length cert.now.base.members }
    requires other { due.other < length cert.now.base.members }
    ensures { result ≡ true → IsMadeCover cert.now due cover.now }
{
    let By::Variant(number) = &cover.by else {
        return false;
    };
    let Some(member) = numbered_item(cert.base.members.as_slice(), *number) else {
        return false;
    };
    let Some(place) = cert.places.get(due.own) else {
        return false;
    };
    let Some(other) = cert.places.get(due.other) else {
        return false;
    };
    let premises = Premises::new(due.own + 1, *place, due.other + 1, *other);
    is_from(&member.origin, premises) && same_clause(&member.clause, &cover.clause)
}

// Whether the cover at the place, counted from 0, is that of the side, and is made so.
fn is_made_at(cert: &Saturation, covers: &[Cover], due: DueSide, place: usize) -> bool
    requires own { due.own < length cert.now.base.members }
    requires other { due.other < length cert.now.base.members }
    ensures { result ≡ true → IsMadeAt cert.now covers.now due place }
{
    let Some(cover) = covers.get(place) else {
        return false;
    };
    if !is_of(cover, cert.base.members.as_slice(), due) {
        return false;
    }
    is_made(cert, due, cover)
}

// Whether the selected atom of member `i`, counted from 0, has no variables, so that no unifier is proper for it.
fn has_ground_atom(cert: &Saturation, i: usize) -> bool
    requires whole { IsWholeSaturation cert.now }
    requires placed { HasPlaces (saturation_of cert.now) }
    requires within { i < length cert.now.base.members }
    ensures { result ≡ true → HasGroundAtom cert.now (suc i) }
{
    let l = *selected(cert, i);
    cert.base.bank.ground(l.atom)
}

// How many covers from the place on are those of members `i` and `j`, counted from 0, where the origins tell that they are all
// that is due of them.
fn made_covers(
    cert: &Saturation,
    covers: &[Cover],
    i: usize,
    j: usize,
    place: usize,
) -> Option<usize>
    requires whole { IsWholeSaturation cert.now }
    requires placed { HasPlaces (saturation_of cert.now) }
    requires left { i < length cert.now.base.members }
    requires right { j < length cert.now.base.members }
    ensures { IfSome result (AreMade cert.now covers.now i j place) }
{
    let left = DueSide {
        side: Side::Left,
        own: i,
        other: j,
    };
    let right = DueSide {
        side: Side::Right,
        own: j,
        other: i,
    };
    if is_made_at(cert, covers, left, place) {
        if has_ground_atom(cert, j) {
            return Some(1);
        }
        if is_made_at(cert, covers, right, place + 1) {
            return Some(2);
        }
        return None;
    }
    if is_made_at(cert, covers, right, place) && has_ground_atom(cert, i) {
        return Some(1);
    }
    None
}

// Whether the cover at the place, counted from 0, names a member as a variant. Of others no origin tells.
fn names_variant(covers: &[Cover], place: usize) -> bool {
    match covers.get(place) {
        Some(cover) => matches!(cover.by, By::Variant(_)),
        None => false,
    }
}

// Passes the next covers where no cover was wrong and the origins tell that they are all that is due of members `i` and `j`,
// counted from 0.
pub fn pass_made(cert: &Covered, i: usize, j: usize, progress: &mut Progress) -> bool
    requires comparable { IsComparable cert.now }
    requires left { i < length cert.now.cert.base.members }
    requires right { j < length cert.now.cert.base.members }
    ensures yes { result ≡ true → IsPassed cert.now i j progress.old progress.new }
    ensures no { result ≡ false → progress.new ≡ progress.old }
{
    let covers = cert.covers.as_slice();
    if progress.wrong || !names_variant(covers, progress.count) {
        return false;
    }
    match made_covers(&cert.cert, covers, i, j, progress.count) {
        Some(count) => {
            progress.count += count;
            true
        }
        None => false,
    }
}
