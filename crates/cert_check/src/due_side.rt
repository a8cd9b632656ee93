// A side of two members that meet.
ghost use Rattle.std.specs.Prelude.{◌≡◌, ◌<◌, length, suc};
ghost use Rattle.cert_check.specs.Sides.{left_number, right_number};

use cert_values::Member;
use unify_core::Side;

/// The side, the place of its member, and that of the member on the other side, counted from 0.
#[derive(Clone, Copy)]
pub struct DueSide {
    pub side: Side,
    pub own: usize,
    pub other: usize,
}

// The number of the member at the place, counted from 0.
pub fn number_at(_members: &[Member], i: usize) -> usize
    requires { i < length _members.now }
    ensures { result ≡ suc i }
{
    i + 1
}

impl DueSide {
    /// The number of the left member.
    pub fn left_number(&self, _members: &[Member]) -> usize
        requires own { self.now.own < length _members.now }
        requires other { self.now.other < length _members.now }
        ensures { result ≡ left_number self.now.side self.now.own self.now.other }
    {
        match self.side {
            Side::Left => self.own + 1,
            Side::Right => self.other + 1,
        }
    }

    /// The number of the right member.
    pub fn right_number(&self, _members: &[Member]) -> usize
        requires own { self.now.own < length _members.now }
        requires other { self.now.other < length _members.now }
        ensures { result ≡ right_number self.now.side self.now.own self.now.other }
    {
        match self.side {
            Side::Left => self.other + 1,
            Side::Right => self.own + 1,
        }
    }
}
