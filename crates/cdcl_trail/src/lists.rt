// The watch lists of all literals, in one vector: for atom a, at place 2a that of its negative literal and at 2a + 1 that of
// its positive one.
ghost use Rattle.std.specs.Prelude.{◌≡◌, ◌<◌, ◌≤◌, ◌^◌, length, slice_get, slice_set, Some};
ghost use Rattle.std.specs.List.{swap_remove};
ghost use Rattle.cdcl_trail.specs.Packed.{literal_of};
ghost use Rattle.cdcl_trail.specs.Watch.{slot_of, list_at};

use crate::watch::Watch;
use crate::watch_list::WatchList;
use inst_logic::Memory;
use prop_logic::Lit;

// The place of the literal's list.
pub(crate) fn slot(l: Lit) -> usize
    requires { slot_of l ≤ usize.MAX }
    ensures { result ≡ slot_of l }
{
    if l.positive {
        l.atom + l.atom + 1
    } else {
        l.atom + l.atom
    }
}

// The literal whose list is at this place.
pub(crate) fn literal_at(place: u32) -> Lit
    ensures { result ≡ literal_of place }
{
    Lit {
        positive: place % 2 == 1,
        atom: place as usize / 2,
    }
}

// How many clauses watch the literal.
pub(crate) fn count_at(lists: &[WatchList], l: Lit) -> usize
    requires { slot_of l < length lists.now }
    ensures { result ≡ length (list_at lists.now (slot_of l)) }
{
    lists[slot(l)].len()
}

pub(crate) fn watch_at(lists: &[WatchList], l: Lit, place: usize) -> Watch
    requires slot { slot_of l < length lists.now }
    requires place { place < length (list_at lists.now (slot_of l)) }
    ensures watch { slice_get (list_at lists.now (slot_of l)) place ≡ Some result }
    ensures number { result.number < 2 ^ 31 }
{
    lists[slot(l)].at(place).get()
}

pub(crate) fn drop_watch(lists: &mut [WatchList], l: Lit, place: usize) -> Watch
    requires slot { slot_of l < length lists.old }
    requires place { place < length (list_at lists.old (slot_of l)) }
    ensures value { slice_get (list_at lists.old (slot_of l)) place ≡ Some result }
    ensures dropped { lists.new ≡ slice_set lists.old (slot_of l) (swap_remove (list_at lists.old (slot_of l)) place result) }
{
    lists[slot(l)].swap_remove(place)
}
