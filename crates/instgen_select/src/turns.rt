// What waits, picked by three orders in turn. Each entry stands in three heaps, and what one of them takes is passed over by the
// others when they come to it.
ghost use Rattle.std.specs.Prelude.{◌≡◌, ℕ, [], ◌∷◌, ◌++◌, false, true, IfSome, IfNone, OnOk, OnErr, IfOk, IsTrue, IsErr};
ghost use Rattle.std.specs.BinaryHeap.{heap_items};
ghost use Rattle.instgen_select.specs.Queues.{IsTakenOut};
ghost use Rattle.instgen_select.specs.Naming.{IsNamed, AreNamed, IsNaming, AreNaming, IsOneTaken};
ghost use Rattle.instgen_select.specs.Slots.{AreGaps, waiting_of};

use crate::rounds::{Order, Rounds};
use crate::slots::{FEW, Item, take_at};
use inst_logic::Memory;
use std::alloc::Global;
use std::cmp::Reverse;
use std::collections::BinaryHeap;
use std::marker::Model;

/// An entry that waits, with what the orders go by: its number, its size, how many variables it has, and how many picks were made
/// before it came.
#[derive(Clone, Copy)]
pub struct Arrival {
    pub number: usize,
    pub size: u64,
    pub variables: usize,
    pub generation: u32,
}

// More slots than so many for each entry that waits are not kept.
const SPARSE: usize = 4;

// What the orders go by beside the number and the size, kept for when the entry is put anew.
#[derive(Clone, Copy)]
struct Rank {
    variables: u32,
    generation: u32,
}

// Three keys and the place of a slot, the least first.
pub(crate) type Placed = Reverse<(u32, u32, u32, u32)>;

// One heap for each order.
#[derive(Drop)]
pub(crate) struct Heaps {
    pub(crate) latest: BinaryHeap<Placed>,
    pub(crate) newest: BinaryHeap<Placed>,
    pub(crate) least: BinaryHeap<Placed>,
}

// The number in four bytes, or the greatest one where it is larger.
fn saturating_u32(n: u64) -> u32 {
    u32::try_from(n).unwrap_or(u32::MAX)
}

// The keys of an entry in the order.
fn keys_at(order: Order, arrival: &Arrival, place: u32) -> Placed
    ensures { result.0.3 ≡ place }
{
    let number = saturating_u32(arrival.number as u64);
    let newest = u32::MAX - number;
    match order {
        Order::Latest => Reverse((
            u32::MAX - arrival.generation,
            saturating_u32(arrival.variables as u64),
            newest,
            place,
        )),
        Order::Newest => Reverse((newest, 0, 0, place)),
        Order::Least => Reverse((saturating_u32(arrival.size), number, 0, place)),
    }
}

// One more in a heap.
fn push_placed(heap: &mut BinaryHeap<Placed>, x: Placed) -> Result<(), Memory>
    ensures kept { (k : ℕ) → IsNamed (heap_items heap.old) k → IsNamed (heap_items heap.new) k }
    ensures named { OnOk result (IsNamed (heap_items heap.new) x.0.3) }
{
    heap.push(x)?;
    Ok(())
}

// One more in each heap.
fn push_all(heaps: &mut Heaps, arrival: &Arrival, place: u32) -> Result<(), Memory>
    ensures kept { (k : ℕ) → AreNamed heaps.old k → AreNamed heaps.new k }
    ensures named { OnOk result (AreNamed heaps.new place) }
{
    push_placed(&mut heaps.latest, keys_at(Order::Latest, arrival, place))?;
    push_placed(&mut heaps.newest, keys_at(Order::Newest, arrival, place))?;
    push_placed(&mut heaps.least, keys_at(Order::Least, arrival, place))?;
    Ok(())
}

// Takes the first item of the heap that still waits.
fn take_first(slots: &mut Vec<Option<Item>>, heap: &mut BinaryHeap<Placed>) -> Option<Item>
    requires naming { IsNaming slots.old.items (heap_items heap.old) }
    ensures some { IfSome result (λ item. IsOneTaken slots.old.items slots.new.items item) }
    ensures none { IfNone result ((slots.new.items ≡ slots.old.items) × AreGaps slots.old.items) }
    ensures naming { IsNaming slots.new.items (heap_items heap.new) }
{
    while let Some(Reverse((_, _, _, place))) = heap.pop() {
        let taken = take_at(slots, place as usize);
        if taken.is_some() {
            return taken;
        }
    }
    None
}

// Takes the first item of the order's heap that still waits.
fn take_of(slots: &mut Vec<Option<Item>>, heaps: &mut Heaps, order: Order) -> Option<Item>
    requires naming { AreNaming slots.old.items heaps.old }
    ensures some { IfSome result (λ item. IsOneTaken slots.old.items slots.new.items item) }
    ensures none { IfNone result ((slots.new.items ≡ slots.old.items) × AreGaps slots.old.items) }
    ensures naming { AreNaming slots.new.items heaps.new }
{
    match order {
        Order::Latest => take_first(slots, &mut heaps.latest),
        Order::Newest => take_first(slots, &mut heaps.newest),
        Order::Least => take_first(slots, &mut heaps.least),
    }
}

/// Entries that wait, picked by three orders in turn: those that came with the latest pick first, of these those with the fewest
/// variables, and of these the newest; the newest first; the least first. A pick takes logarithmic time for each put, taken over
/// all of them. Memory is in proportion to the most that waited at once. Past 2³² slots `put` answers want of memory with memory at
/// hand: at least 2³⁰ entries wait then.
#[derive(Drop)]
pub struct Turns {
    alloc: Global,
    slots: Vec<Option<Item>>,
    ranks: Vec<Rank>,
    heaps: Heaps,
    rounds: Rounds,
    waiting: usize,
    spent: bool,
}

impl Model for Turns {
    ghost use Rattle.instgen_select.specs.Queues.{Turn_list};
    ghost use Rattle.instgen_select.specs.Slots.{waiting_of};
    ghost use Rattle.instgen_select.specs.Naming.{AreNaming};

    ghost Value = { Turn_list };

    ghost view = { λ t. record { items = waiting_of t.slots.items; spent = t.spent } };

    ghost invariant = { λ t. AreNaming t.slots.items t.heaps };
}

impl Turns {
    /// Nothing waits, and the first order has its turn.
    pub fn new(alloc: Global) -> Turns
        ensures { result ≡ record { items = []; spent = false } }
    {
        Turns {
            alloc,
            slots: Vec::new(alloc),
            ranks: Vec::new(alloc),
            heaps: no_heaps(alloc),
            rounds: Rounds::new(),
            waiting: 0,
            spent: false,
        }
    }

    // The slot is made before the heaps name it, and is a gap until then.
    fn store(&mut self, arrival: &Arrival) -> Result<(), Memory>
        ensures ok { OnOk result (self.new.items ≡ self.old.items ++ (arrival.now.number, arrival.now.size) ∷ []) }
        ensures err { OnErr result (self.new.items ≡ self.old.items) }
        ensures spent { self.new.spent ≡ self.old.spent }
    {
        let slot = self.slots.len();
        let place = place_of(slot)?;
        self.ranks.push(rank_of(arrival))?;
        self.slots.push(None)?;
        push_all(&mut self.heaps, arrival, place)?;
        self.slots[slot] = Some(Item {
            number: arrival.number,
            size: arrival.size,
        });
        self.waiting = self.waiting.saturating_add(1);
        Ok(())
    }

    fn store_slot(&mut self, slot: Option<Item>, rank: Rank) -> Result<(), Memory>
        ensures ok { OnOk result (self.new.items ≡ self.old.items ++ waiting_of (slot ∷ [])) }
        ensures spent { self.new.spent ≡ self.old.spent }
    {
        match slot {
            None => Ok(()),
            Some(item) => self.store(&arrival_of(item, rank)),
        }
    }

    // Puts what waits in the slots, in their order.
    fn store_all(&mut self, slots: &[Option<Item>], ranks: &[Rank]) -> Result<(), Memory>
        ensures ok { OnOk result (self.new.items ≡ self.old.items ++ waiting_of slots.now) }
        ensures spent { self.new.spent ≡ self.old.spent }
    {
        for i in 0..slots.len() {
            self.store_slot(slots[i], rank_at(ranks, i))?;
        }
        Ok(())
    }

    // A copy with these entries in this turn, without gaps.
    fn copy_without_gaps(&self) -> Result<Turns, Memory>
        ensures { IfOk result (λ turns. turns ≡ self.now) }
    {
        let mut turns = Turns::new(self.alloc);
        turns.rounds = self.rounds;
        turns.spent = self.spent;
        turns.store_all(&self.slots, &self.ranks)?;
        Ok(turns)
    }

    // Begins anew where most slots are gaps: else each put of a long run would keep one, and a name in each heap.
    fn begin_anew(&mut self) -> Result<(), Memory>
        ensures { self.new ≡ self.old }
    {
        if self.slots.len() <= FEW {
            return Ok(());
        }
        if self.slots.len() / SPARSE > self.waiting {
            *self = self.copy_without_gaps()?;
        }
        Ok(())
    }

    fn append(&mut self, arrival: &Arrival) -> Result<(), Memory>
        ensures ok { OnOk result (self.new.items ≡ self.old.items ++ (arrival.now.number, arrival.now.size) ∷ []) }
        ensures err { OnErr result (self.new.items ≡ self.old.items) }
        ensures spent { self.new.spent ≡ self.old.spent }
    {
        self.begin_anew()?;
        self.store(arrival)
    }

    /// Puts the entry at the end. After want of memory it is not there, what was there is, and every later put is refused; picks go
    /// on.
    pub fn put(&mut self, arrival: &Arrival) -> Result<(), Memory>
        ensures ok { OnOk result (self.new ≡ record { items = self.old.items ++ (arrival.now.number, arrival.now.size) ∷ []; spent = false }) }
        ensures err { OnErr result (self.new ≡ record { items = self.old.items; spent = true }) }
        ensures stays_spent { IsTrue self.old.spent → IsErr result }
    {
        if self.spent {
            return Err(Memory);
        }
        let stored = self.append(arrival);
        self.spent = stored.is_err();
        stored
    }

    // The first one of the order whose turn it is.
    fn take(&mut self) -> Option<Item>
        ensures none { IfNone result ((self.old.items ≡ []) × (self.new.items ≡ self.old.items)) }
        ensures some { IfSome result (λ item. IsTakenOut self.old.items self.new.items item.number) }
        ensures spent { self.new.spent ≡ self.old.spent }
    {
        take_of(&mut self.slots, &mut self.heaps, self.rounds.order)
    }

    /// Takes a number out: the first one by the order whose turn it is. `None` where none is left, which is no pick.
    pub fn pick(&mut self) -> Option<usize>
        ensures none { IfNone result ((self.old.items ≡ []) × (self.new ≡ self.old)) }
        ensures some { IfSome result (λ number. IsTakenOut self.old.items self.new.items number) }
        ensures spent { self.new.spent ≡ self.old.spent }
    {
        match self.take() {
            None => None,
            Some(item) => {
                self.waiting = self.waiting.saturating_sub(1);
                self.rounds.advance();
                Some(item.number)
            }
        }
    }
}

fn no_heaps(alloc: Global) -> Heaps
    ensures { (k : ℕ) → ¬ AreNamed result k }
{
    Heaps {
        latest: BinaryHeap::new(alloc),
        newest: BinaryHeap::new(alloc),
        least: BinaryHeap::new(alloc),
    }
}

fn rank_of(arrival: &Arrival) -> Rank {
    Rank {
        variables: saturating_u32(arrival.variables as u64),
        generation: arrival.generation,
    }
}

// The rank beside a slot, of which each has one.
fn rank_at(ranks: &[Rank], place: usize) -> Rank {
    match ranks.get(place) {
        Some(rank) => *rank,
        None => Rank {
            variables: 0,
            generation: 0,
        },
    }
}

fn arrival_of(item: Item, rank: Rank) -> Arrival
    ensures number { result.number ≡ item.number }
    ensures size { result.size ≡ item.size }
{
    Arrival {
        number: item.number,
        size: item.size,
        variables: rank.variables as usize,
        generation: rank.generation,
    }
}

// The place of a slot; want of memory past the last one.
fn place_of(slot: usize) -> Result<u32, Memory>
    ensures { IfOk result (λ place. place ≡ slot) }
{
    match u32::try_from(slot) {
        Ok(place) => Ok(place),
        Err(_) => Err(Memory),
    }
}
