// What propagation works on. The lists are reached in place, and not as a slice: of a slice its length is handed on too, in the
// loop that costs most.
ghost use Rattle.std.specs.Prelude.{◌≡◌, ◌++◌, ◌∷◌, [], ◌<◌, ◌^◌, length, slice_get, slice_set, Some, OnOk};
ghost use Rattle.std.specs.List.{swap_remove};
ghost use Rattle.cdcl_trail.specs.Watch.{slot_of, list_at, pair_at};

use crate::lists::slot;
use crate::packed_pair::PackedPair;
use crate::packed_watch::PackedWatch;
use crate::values::Values;
use crate::visit::pair_of_clause;
use crate::watch::{Spot, Watch, WatchedPair};
use crate::watch_list::WatchList;
use inst_logic::Memory;
use prop_logic::Lit;

// The values of the atoms, and the watches by which propagation finds what follows: the lists by the slots of literals, and the
// pairs by the numbers of clauses.
#[derive(Drop)]
pub(crate) struct WatchedValues {
    pub(crate) values: Values,
    pub(crate) lists: Vec<WatchList>,
    pub(crate) pairs: Vec<PackedPair>,
}

impl WatchedValues {
    // How many clauses watch the literal.
    pub(crate) fn count_at(&self, l: Lit) -> usize
        requires { slot_of l < length self.now.lists.items }
        ensures { result ≡ length (list_at self.now.lists.items (slot_of l)) }
    {
        self.lists[slot(l)].len()
    }

    pub(crate) fn watch_at(&self, spot: Spot) -> &PackedWatch
        requires slot { slot_of spot.l < length self.now.lists.items }
        requires place { spot.place < length (list_at self.now.lists.items (slot_of spot.l)) }
        ensures { slice_get (list_at self.now.lists.items (slot_of spot.l)) spot.place ≡ Some result.now }
    {
        self.lists[slot(spot.l)].at(spot.place)
    }

    // What the clause of this number watches, if it watches.
    pub(crate) fn pair_of_clause(&self, number: usize) -> Option<WatchedPair>
        ensures { result ≡ pair_at self.now.pairs.items number }
    {
        pair_of_clause(&self.pairs, number)
    }

    pub(crate) fn add_watch(&mut self, l: Lit, watch: Watch) -> Result<(), Memory>
        requires slot { slot_of l < length self.old.lists.items }
        requires number { watch.number < 2 ^ 31 }
        requires blocker { slot_of watch.blocker < 2 ^ 32 }
        ensures added { OnOk result (self.new.lists.items ≡ slice_set self.old.lists.items (slot_of l) (list_at self.old.lists.items (slot_of l) ++ watch ∷ [])) }
        ensures size { length self.new.lists.items ≡ length self.old.lists.items }
        ensures values { self.new.values ≡ self.old.values }
        ensures pairs { self.new.pairs ≡ self.old.pairs }
    {
        self.lists[slot(l)].push(watch)
    }

    pub(crate) fn drop_watch(&mut self, spot: Spot) -> Watch
        requires slot { slot_of spot.l < length self.old.lists.items }
        requires place { spot.place < length (list_at self.old.lists.items (slot_of spot.l)) }
        ensures value { slice_get (list_at self.old.lists.items (slot_of spot.l)) spot.place ≡ Some result }
        ensures dropped { self.new.lists.items ≡ slice_set self.old.lists.items (slot_of spot.l) (swap_remove (list_at self.old.lists.items (slot_of spot.l)) spot.place result) }
        ensures values { self.new.values ≡ self.old.values }
        ensures pairs { self.new.pairs ≡ self.old.pairs }
    {
        self.lists[slot(spot.l)].swap_remove(spot.place)
    }

    pub(crate) fn put_watch(&mut self, spot: Spot, watch: Watch)
        requires slot { slot_of spot.l < length self.old.lists.items }
        requires place { spot.place < length (list_at self.old.lists.items (slot_of spot.l)) }
        requires number { watch.number < 2 ^ 31 }
        requires blocker { slot_of watch.blocker < 2 ^ 32 }
        ensures lists { self.new.lists.items ≡ slice_set self.old.lists.items (slot_of spot.l) (slice_set (list_at self.old.lists.items (slot_of spot.l)) spot.place watch) }
        ensures values { self.new.values ≡ self.old.values }
        ensures pairs { self.new.pairs ≡ self.old.pairs }
    {
        self.lists[slot(spot.l)].put(spot.place, watch);
    }
}
