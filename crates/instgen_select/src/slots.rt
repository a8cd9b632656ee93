// What waits, found by age and by size. The slots have what was put, in order; a heap names them by size. What one way takes
// out of its slot is passed over by the other way when it comes to it, so that a pick takes logarithmic time a put.
ghost use Rattle.std.specs.Prelude.{◌≡◌, ◌<◌, ◌≤◌, ◌+◌, ℕ, [], ◌∷◌, ◌++◌, length, IfSome, IfNone, OnOk, OnErr};
ghost use Rattle.std.specs.BinaryHeap.{heap_items};
ghost use Rattle.instgen_select.specs.Slots.{IsAt, IsTakenAt, AreGapsBefore, AreGaps, IsOldestTaken, IsLeastTaken, IsRanking};

use std::cmp::Reverse;
use std::collections::BinaryHeap;

// How many slots are kept for what is put next, where nothing waits.
pub(crate) const FEW: usize = 64;

// An entry's number and its size.
#[derive(Clone, Copy)]
pub(crate) struct Item {
    pub(crate) number: usize,
    pub(crate) size: u64,
}

// A size, a number and the place of a slot, the least first.
pub(crate) type Ranked = Reverse<(u64, usize, usize)>;

pub(crate) fn take_at(slots: &mut Vec<Option<Item>>, place: usize) -> Option<Item>
    ensures some { IfSome result (λ item. IsTakenAt slots.old.items slots.new.items place item) }
    ensures none { IfNone result ((slots.new.items ≡ slots.old.items) × ((item : Item) → ¬ IsAt slots.old.items place item)) }
{
    if slots.len() <= place {
        return None;
    }
    match slots[place] {
        None => None,
        Some(item) => {
            slots[place] = None;
            Some(item)
        }
    }
}

// Takes the item of the first slot that has one.
pub(crate) fn take_oldest(slots: &mut Vec<Option<Item>>, front: &mut usize) -> Option<Item>
    requires gaps { AreGapsBefore slots.old.items front.old }
    requires within { front.old ≤ length slots.old.items }
    ensures some { IfSome result (λ item. IsOldestTaken slots.old.items slots.new.items item) }
    ensures none { IfNone result ((slots.new.items ≡ slots.old.items) × AreGaps slots.old.items) }
    ensures gaps { AreGapsBefore slots.new.items front.new }
    ensures within { front.new ≤ length slots.new.items }
{
    while *front < slots.len() {
        let taken = take_at(slots, *front);
        *front += 1;
        if taken.is_some() {
            return taken;
        }
    }
    None
}

// Takes the least item by size and number.
pub(crate) fn take_least(
    slots: &mut Vec<Option<Item>>,
    heap: &mut BinaryHeap<Ranked>,
) -> Option<Item>
    requires ranking { IsRanking slots.old.items (heap_items heap.old) }
    ensures some { IfSome result (λ item. IsLeastTaken slots.old.items slots.new.items item) }
    ensures none { IfNone result ((slots.new.items ≡ slots.old.items) × AreGaps slots.old.items) }
    ensures ranking { IsRanking slots.new.items (heap_items heap.new) }
{
    while let Some(Reverse((_, _, place))) = heap.pop() {
        let taken = take_at(slots, place);
        if taken.is_some() {
            return taken;
        }
    }
    None
}
