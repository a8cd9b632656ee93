// Places of the trail that an analysis has still to meet, of which the last is taken first. MiniSat looks at each place down the
// trail; here the walk goes by a heap from one of these places to the next, and looks at none between them.
ghost use Rattle.std.specs.Prelude.{◌≡◌, ◌∷◌, [], ◌<◌, ℕ, IfSome, IfNone, OnOk, Contains};
ghost use Rattle.std.specs.BinaryHeap.{heap_items, IsHeap};
ghost use Rattle.std.specs.List.Sorted.{IsPermutation};
ghost use Rattle.std.specs.Ordering.{nat_cmp};
ghost use Rattle.cdcl_core.specs.Places.{IsTaken};

use inst_logic::Memory;
use std::alloc::Global;
use std::collections::BinaryHeap;
use std::marker::Model;

// Takes the last place below the limit out of the heap, and with it those from the limit on.
fn take_below(heap: &mut BinaryHeap<usize>, limit: usize) -> Option<usize>
    requires { IsHeap nat_cmp (heap_items heap.old) }
    ensures order { IsHeap nat_cmp (heap_items heap.new) }
    ensures some { IfSome result (IsTaken limit (heap_items heap.old) (heap_items heap.new)) }
    ensures none { IfNone result ((k : ℕ) → k < limit → ¬ Contains (heap_items heap.old) k) }
{
    while let Some(place) = heap.pop() {
        if place < limit {
            return Some(place);
        }
    }
    None
}

#[derive(Drop)]
pub(crate) struct Places {
    heap: BinaryHeap<usize>,
}

impl Model for Places {
    ghost use Rattle.std.specs.Prelude.{ℕ, List};
    ghost use Rattle.std.specs.BinaryHeap.{heap_items, IsHeap};
    ghost use Rattle.std.specs.Ordering.{nat_cmp};

    ghost Value = { List ℕ };

    ghost view = { λ p. heap_items p.heap };

    ghost invariant = { λ p. IsHeap nat_cmp (heap_items p.heap) };
}

impl Places {
    pub(crate) fn new(alloc: Global) -> Places
        ensures { result ≡ [] }
    {
        Places {
            heap: BinaryHeap::new(alloc),
        }
    }

    pub(crate) fn push(&mut self, place: usize) -> Result<(), Memory>
        ensures { OnOk result (IsPermutation (place ∷ self.old) self.new) }
    {
        self.heap.push(place)?;
        Ok(())
    }

    // Takes the last place below the limit out, and with it those from the limit on.
    pub(crate) fn take_below(&mut self, limit: usize) -> Option<usize>
        ensures some { IfSome result (IsTaken limit self.old self.new) }
        ensures none { IfNone result ((k : ℕ) → k < limit → ¬ Contains self.old k) }
    {
        take_below(&mut self.heap, limit)
    }
}
