// The watches of one literal. They have no order, so that one is taken away in one step.
ghost use Rattle.std.specs.Prelude.{◌≡◌, ◌++◌, ◌∷◌, [], ◌<◌, ◌^◌, length, slice_get, slice_set, Some, OnOk};
ghost use Rattle.std.specs.List.{swap_remove, slice_index_or};
ghost use Rattle.cdcl_trail.specs.Watch.{slot_of};

use crate::packed_watch::PackedWatch;
use crate::watch::Watch;
use inst_logic::Memory;
use std::alloc::Global;
use std::marker::Model;

// The clauses that watch a literal, in no order. It is a plain vector, as in MiniSat: a list that keeps one watch in place and
// more behind a pointer takes one read of memory more for each list that has more.
#[derive(Drop)]
pub struct WatchList {
    items: Vec<PackedWatch>,
}

impl Model for WatchList {
    ghost use Rattle.std.specs.Prelude.{List};
    ghost use Rattle.cdcl_trail.specs.declared.watch.Watch.{Watch};

    ghost Value = { List Watch };

    ghost view = { λ l. l.items.items };
}

impl WatchList {
    pub(crate) fn new(alloc: Global) -> WatchList
        ensures { result ≡ [] }
    {
        WatchList {
            items: Vec::new(alloc),
        }
    }

    pub(crate) fn len(&self) -> usize
        ensures { result ≡ length self.now }
    {
        self.items.len()
    }

    pub(crate) fn at(&self, place: usize) -> &PackedWatch
        requires { place < length self.now }
        ensures { slice_get self.now place ≡ Some result.now }
    {
        &self.items[place]
    }

    pub(crate) fn push(&mut self, watch: Watch) -> Result<(), Memory>
        requires number { watch.number < 2 ^ 31 }
        requires blocker { slot_of watch.blocker < 2 ^ 32 }
        ensures { OnOk result (self.new ≡ self.old ++ watch ∷ []) }
    {
        self.items.push(PackedWatch::of(watch))?;
        Ok(())
    }

    // Takes the watch away, and puts the last one in its place.
    pub(crate) fn swap_remove(&mut self, place: usize) -> Watch
        requires { place < length self.old }
        ensures value { slice_get self.old place ≡ Some result }
        ensures items { self.new ≡ swap_remove self.old place result }
    {
        self.items.swap_remove(place).get()
    }

    pub(crate) fn put(&mut self, place: usize, watch: Watch)
        requires place { place < length self.old }
        requires number { watch.number < 2 ^ 31 }
        requires blocker { slot_of watch.blocker < 2 ^ 32 }
        ensures { self.new ≡ slice_set self.old place watch }
    {
        self.items[place] = PackedWatch::of(watch);
    }
}
