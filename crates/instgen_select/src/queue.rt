// The queue of the entries that wait to be worked. Every other pick is the oldest, so that none waits forever behind smaller
// ones.
ghost use Rattle.std.specs.Prelude.{◌≡◌, [], ◌∷◌, ◌++◌, length, false, true, not, Contains, IfSome, IfNone, OnSome, OnOk, OnErr, IsTrue, IsErr};
ghost use Rattle.instgen_select.specs.Queues.{numbers, IsPicked};

use crate::slots::{FEW, Item, Ranked, take_least, take_oldest};
use inst_logic::Memory;
use std::alloc::Global;
use std::cmp::Reverse;
use std::collections::BinaryHeap;
use std::marker::Model;

/// Numbers with their sizes. A pick takes logarithmic time for each put, taken over all of them.
#[derive(Drop)]
pub struct Queue {
    alloc: Global,
    slots: Vec<Option<Item>>,
    front: usize,
    heap: BinaryHeap<Ranked>,
    even: bool,
    spent: bool,
}

impl Model for Queue {
    ghost use Rattle.std.specs.BinaryHeap.{heap_items};
    ghost use Rattle.instgen_select.specs.Queues.{Waiting_list};
    ghost use Rattle.instgen_select.specs.Slots.{waiting_of, AreSlots};

    ghost Value = { Waiting_list };

    ghost view = { λ q. record { items = waiting_of q.slots.items; even = q.even; spent = q.spent } };

    ghost invariant = { λ q. AreSlots q.slots.items q.front (heap_items q.heap) };
}

impl Queue {
    /// An empty queue. Its first pick that gives a number is an odd one.
    pub fn new(alloc: Global) -> Queue
        ensures { result ≡ record { items = []; even = false; spent = false } }
    {
        Queue {
            alloc,
            slots: Vec::new(alloc),
            front: 0,
            heap: BinaryHeap::new(alloc),
            even: false,
            spent: false,
        }
    }

    // Begins with new slots where nothing waits, since they are all gaps then: else each put of a long run would keep one. Many
    // slots give their memory back, and so does the heap, which had room for as many.
    fn begin_anew(&mut self)
        ensures items { self.new.items ≡ self.old.items }
        ensures even { self.new.even ≡ self.old.even }
        ensures spent { self.new.spent ≡ self.old.spent }
    {
        if self.heap.peek().is_some() {
            return;
        }
        self.front = 0;
        if self.slots.len() > FEW {
            self.slots = Vec::new(self.alloc);
            self.heap = BinaryHeap::new(self.alloc);
        } else {
            self.slots.clear();
        }
    }

    // The slot is made before the heap names it, and is a gap until then.
    fn store(&mut self, item: Item) -> Result<(), Memory>
        ensures ok { OnOk result (self.new.items ≡ self.old.items ++ (item.number, item.size) ∷ []) }
        ensures err { OnErr result (self.new.items ≡ self.old.items) }
        ensures even { self.new.even ≡ self.old.even }
        ensures spent { self.new.spent ≡ self.old.spent }
    {
        let place = self.slots.len();
        self.slots.push(None)?;
        self.heap.push(Reverse((item.size, item.number, place)))?;
        self.slots[place] = Some(item);
        Ok(())
    }

    // Puts the number at the end, whether or not it is there already.
    pub(crate) fn append(&mut self, number: usize, size: u64) -> Result<(), Memory>
        ensures ok { OnOk result (self.new ≡ record { items = self.old.items ++ (number, size) ∷ []; even = self.old.even; spent = false }) }
        ensures err { OnErr result (self.new ≡ record { items = self.old.items; even = self.old.even; spent = true }) }
        ensures stays_spent { IsTrue self.old.spent → IsErr result }
    {
        if self.spent {
            return Err(Memory);
        }
        self.begin_anew();
        let stored = self.store(Item { number, size });
        self.spent = stored.is_err();
        stored
    }

    /// Puts the number at the end. After want of memory it is not there, what was there is, and every later put is refused;
    /// picks go on.
    pub fn put(&mut self, number: usize, size: u64) -> Result<(), Memory>
        requires absent { ¬ Contains (numbers self.old.items) number }
        ensures ok { OnOk result (self.new ≡ record { items = self.old.items ++ (number, size) ∷ []; even = self.old.even; spent = false }) }
        ensures err { OnErr result (self.new ≡ record { items = self.old.items; even = self.old.even; spent = true }) }
        ensures stays_spent { IsTrue self.old.spent → IsErr result }
    {
        self.append(number, size)
    }

    // The oldest, or the least.
    fn take(&mut self, oldest: bool) -> Option<Item>
        ensures none { IfNone result ((self.old.items ≡ []) × (self.new.items ≡ self.old.items)) }
        ensures some { IfSome result (λ item. IsPicked oldest self.old.items self.new.items item.number) }
        ensures even { self.new.even ≡ self.old.even }
        ensures spent { self.new.spent ≡ self.old.spent }
    {
        if oldest {
            take_oldest(&mut self.slots, &mut self.front)
        } else {
            take_least(&mut self.slots, &mut self.heap)
        }
    }

    /// Takes a number out: the least by size and number, and every other time the one that was put longest ago. `None` where
    /// none is left, which does not count as a time.
    pub fn pick(&mut self) -> Option<usize>
        ensures none { IfNone result ((self.old.items ≡ []) × (self.new ≡ self.old)) }
        ensures some { IfSome result (λ number. IsPicked self.old.even self.old.items self.new.items number) }
        ensures turn { OnSome result (self.new.even ≡ not self.old.even) }
        ensures spent { self.new.spent ≡ self.old.spent }
    {
        match self.take(self.even) {
            None => None,
            Some(item) => {
                self.even = !self.even;
                Some(item.number)
            }
        }
    }
}
