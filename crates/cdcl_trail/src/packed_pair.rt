// The pairs that clauses watch, packed: 12 bytes a clause. A literal is packed as the place of its watch list. Beside them stands
// where the last look for an open literal of the clause ended: the next one goes on from there, and round (Gent, Optimal
// Implementation of Watched Literals and More General Techniques, 2013).
ghost use Rattle.std.specs.Prelude.{◌≡◌, ◌+◌, ◌<◌, ◌^◌, Some, None};
ghost use Rattle.cdcl_trail.specs.Watch.{slot_of};

use crate::lists::{literal_at, slot};
use crate::watch::WatchedPair;
use std::marker::Model;

// No literal has this place.
const NONE: u32 = 0xffff_ffff;

// The pair that a clause watches, or none.
#[derive(Drop)]
pub struct PackedPair {
    first: u32,
    second: u32,
    from: u32,
}

impl Model for PackedPair {
    ghost use Rattle.std.specs.Prelude.{Option};
    ghost use Rattle.cdcl_trail.specs.declared.watch.WatchedPair.{WatchedPair};

    ghost Value = { Option WatchedPair };

    ghost use Rattle.cdcl_trail.specs.Packed.{pair_at_slots};

    ghost view = { λ p. pair_at_slots p.first p.second };
}

const _: () = prove!(size_of::<PackedPair>() == 12);

// The place, or 0 where it is none of a u32.
fn low_place(place: usize) -> u32 {
    match u32::try_from(place) {
        Ok(place) => place,
        Err(_) => 0,
    }
}

impl PackedPair {
    pub(crate) fn none() -> PackedPair
        ensures { result ≡ None }
    {
        PackedPair {
            first: NONE,
            second: NONE,
            from: 0,
        }
    }

    pub(crate) fn of(pair: WatchedPair) -> PackedPair
        requires first { slot_of pair.first + 1 < 2 ^ 32 }
        requires second { slot_of pair.second < 2 ^ 32 }
        ensures { result ≡ Some pair }
    {
        PackedPair::with_place(pair, 0)
    }

    // The pair, with the place at which the last look ended.
    pub(crate) fn with_place(pair: WatchedPair, place: usize) -> PackedPair
        requires first { slot_of pair.first + 1 < 2 ^ 32 }
        requires second { slot_of pair.second < 2 ^ 32 }
        ensures { result ≡ Some pair }
    {
        PackedPair {
            first: slot(pair.first) as u32,
            second: slot(pair.second) as u32,
            from: low_place(place),
        }
    }

    // The place at which the last look ended, or 0. Any place will do: it decides where the next look begins, and not what
    // comes of it.
    pub(crate) fn from(&self) -> usize {
        self.from as usize
    }

    pub(crate) fn get(&self) -> Option<WatchedPair>
        ensures { result ≡ self.now }
    {
        if self.first == NONE {
            return None;
        }
        Some(WatchedPair {
            first: literal_at(self.first),
            second: literal_at(self.second),
        })
    }
}
