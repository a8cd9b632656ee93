// The watches of the lists, packed: 8 bytes each. The blocker is packed as the place of its watch list, and the number with a
// bit beside it.
ghost use Rattle.std.specs.Prelude.{◌≡◌, ◌<◌, ◌^◌, ◌/◌, ◌%◌, ◌==◌};
ghost use Rattle.cdcl_trail.specs.Watch.{slot_of};

use crate::lists::{literal_at, slot};
use crate::watch::Watch;
use prop_logic::Lit;
use std::marker::Model;

// Larger numbers of clauses have no room beside the bit.
pub(crate) const MOST_NUMBER: usize = 0x7fff_ffff;

// A watch of a list. The word is twice the number, and one more where the clause has two literals.
#[derive(Clone, Copy)]
pub struct PackedWatch {
    word: u32,
    blocker: u32,
}

impl Model for PackedWatch {
    ghost use Rattle.cdcl_trail.specs.declared.watch.Watch.{Watch};

    ghost Value = { Watch };

    ghost use Rattle.std.specs.Prelude.{◌/◌, ◌%◌, ◌==◌};
    ghost use Rattle.cdcl_trail.specs.Packed.{literal_of};

    ghost view = { λ w. record { number = w.word / 2; blocker = literal_of w.blocker; binary = w.word % 2 == 1 } };

    ghost use Rattle.std.proofs.Common.{ap₂, ℕ, ◌+◌, cond};
    ghost use Rattle.cdcl_trail.specs.Watch.{slot_of};
    ghost use Rattle.cdcl_trail.specs.PackedPlaces.{place_again};

    ghost inverse = { λ w. record { word = w.number + w.number + cond w.binary 1 0; blocker = slot_of w.blocker } };

    ghost inverse_ok = { λ w h. ap₂ (λ (a : ℕ) (b : ℕ). record { word = a; blocker = b }) (place_again w.word) (place_again w.blocker) };
}

const _: () = prove!(size_of::<PackedWatch>() == 8);

// The number with the bit beside it.
fn word(number: usize, binary: bool) -> u32
    requires { number < 2 ^ 31 }
    ensures number { result / 2 ≡ number }
    ensures binary { (result % 2 == 1) ≡ binary }
{
    let twice = number as u32 * 2;
    if binary { twice + 1 } else { twice }
}

impl PackedWatch {
    pub(crate) fn of(watch: Watch) -> PackedWatch
        requires number { watch.number < 2 ^ 31 }
        requires blocker { slot_of watch.blocker < 2 ^ 32 }
        ensures { result ≡ watch }
    {
        PackedWatch {
            word: word(watch.number, watch.binary),
            blocker: slot(watch.blocker) as u32,
        }
    }

    pub(crate) fn blocker(&self) -> Lit
        ensures { result ≡ self.now.blocker }
    {
        literal_at(self.blocker)
    }

    pub(crate) fn get(&self) -> Watch
        ensures watch { result ≡ self.now }
        ensures number { result.number < 2 ^ 31 }
    {
        Watch {
            number: self.word as usize / 2,
            blocker: literal_at(self.blocker),
            binary: self.word % 2 == 1,
        }
    }
}
