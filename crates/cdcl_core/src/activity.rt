// The activity of atoms, by which they are decided: those that were in recent conflicts first (VSIDS: Moskewicz and others, Chaff,
// 2001; with a heap and a weight that grows: Eén and Sörensson, An extensible SAT-solver, 2003). Nothing is proved of the order:
// who asks tests what it gives, and looks elsewhere where it has nothing more.
ghost use Rattle.std.specs.Prelude.{◌≡◌, ◌<◌, ◌/◌, length, None, IfSome};
ghost use Rattle.cdcl_trail.specs.Trail.{level_of};

use cdcl_trail::Trail;
use inst_logic::Memory;
use std::alloc::Global;

const HIGHEST: u64 = 1 << 60;

// From one conflict to the next, what a raise counts grows by one part of so many.
const DECAY: u64 = 30;

// A heap of atoms by activity, with the place of each atom in it. What moves in it leaves a hole, which others move into, and is
// written once. An atom that is no `u32` is not put in.
#[derive(Drop)]
pub(crate) struct Activity {
    heap: Vec<u32>,
    places: Vec<u32>,
    activities: Vec<u64>,
    step: u64,
}

// The number in 32 bits. Places are below the number of the atoms in the heap, so none is too high.
fn narrow(number: usize) -> u32 {
    u32::try_from(number).unwrap_or(u32::MAX)
}

impl Activity {
    pub(crate) fn new(alloc: Global) -> Activity {
        Activity {
            heap: Vec::new(alloc),
            places: Vec::new(alloc),
            activities: Vec::new(alloc),
            step: 1 << 10,
        }
    }

    // Takes the room of one more atom, which is the last.
    pub(crate) fn grow(&mut self) -> Result<(), Memory> {
        let atom = self.places.len();
        self.activities.push(0)?;
        self.places.push(0)?;
        self.insert(atom);
        Ok(())
    }

    fn activity(&self, atom: u32) -> u64 {
        self.activities.get(atom as usize).copied().unwrap_or(0)
    }

    // Puts the atom at the place.
    fn put(&mut self, place: usize, atom: u32)
        ensures { length self.new.heap.items ≡ length self.old.heap.items }
    {
        if place < self.heap.len() {
            self.heap[place] = atom;
        }
        let index = atom as usize;
        if index < self.places.len() {
            self.places[index] = narrow(place);
        }
    }

    // Moves the atom at the place up, past those that are less active.
    fn rise(&mut self, from: usize)
        ensures { length self.new.heap.items ≡ length self.old.heap.items }
    {
        let Some(atom) = self.heap.get(from).copied() else {
            return;
        };
        let activity = self.activity(atom);
        let mut hole = from;
        while 0 < hole {
            let parent = (hole - 1) / 2;
            let above = self.heap.get(parent).copied().unwrap_or(0);
            if activity <= self.activity(above) {
                break;
            }
            self.put(hole, above);
            hole = parent;
        }
        self.put(hole, atom);
    }

    // The more active of the two below the place.
    fn best_below(&self, place: usize) -> usize
        requires { place < length self.now.heap.items / 2 }
        ensures { place < result }
    {
        let left = 2 * place + 1;
        let first = self.heap.get(left).copied().unwrap_or(0);
        match self.heap.get(left + 1) {
            Some(second) => {
                if self.activity(first) < self.activity(*second) {
                    return left + 1;
                }
            }
            None => {}
        }
        left
    }

    // Moves the atom at the place down, past those that are more active.
    fn sink(&mut self, from: usize)
        ensures { length self.new.heap.items ≡ length self.old.heap.items }
    {
        let Some(atom) = self.heap.get(from).copied() else {
            return;
        };
        let activity = self.activity(atom);
        let mut hole = from;
        while hole < self.heap.len() / 2 {
            let place = self.best_below(hole);
            let below = self.heap.get(place).copied().unwrap_or(0);
            if self.activity(below) <= activity {
                break;
            }
            self.put(hole, below);
            hole = place;
        }
        self.put(hole, atom);
    }

    // Takes the most active atom out.
    fn pop(&mut self) -> Option<usize>
        ensures some { IfSome result (λ atom. length self.new.heap.items < length self.old.heap.items) }
    {
        let last = self.heap.pop()?;
        if self.heap.is_empty() {
            return Some(last as usize);
        }
        let top = self.heap[0];
        self.put(0, last);
        self.sink(0);
        Some(top as usize)
    }

    // Takes atoms out until one has no value.
    pub(crate) fn pick(&mut self, trail: &Trail, atoms: usize) -> Option<usize>
        requires { atoms ≡ trail.now.trail.atoms }
        ensures { IfSome result (λ atom. (atom < trail.now.trail.atoms) × (level_of trail.now.trail.entries atom ≡ None)) }
    {
        while let Some(atom) = self.pop() {
            if atom < atoms && trail.level_of(atom).is_none() {
                return Some(atom);
            }
        }
        None
    }

    // The place that the atom had last, or 0.
    fn place_of(&self, atom: usize) -> usize {
        self.places.get(atom).copied().unwrap_or(0) as usize
    }

    fn holds(&self, atom: usize) -> bool {
        match self.heap.get(self.place_of(atom)) {
            Some(held) => *held as usize == atom,
            None => false,
        }
    }

    // Puts the atom in again, if it is not there.
    pub(crate) fn insert(&mut self, atom: usize) {
        if self.holds(atom) {
            return;
        }
        let Ok(number) = u32::try_from(atom) else {
            return;
        };
        let place = self.heap.len();
        if self.heap.push(number).is_err() {
            return;
        }
        self.put(place, number);
        self.rise(place);
    }

    // Makes all activities smaller; close ones become equal.
    fn shrink(&mut self) {
        for place in 0..self.activities.len() {
            if place < self.activities.len() {
                self.activities[place] = self.activities[place] >> 40;
            }
        }
        self.step = (self.step >> 40).max(1);
    }

    // The atom was in a conflict.
    fn raise(&mut self, atom: usize) {
        if atom >= self.activities.len() {
            return;
        }
        let activity = self.activities[atom].saturating_add(self.step);
        self.activities[atom] = activity;
        if HIGHEST < activity {
            self.shrink();
        }
        if self.holds(atom) {
            self.rise(self.place_of(atom));
        }
    }

    // A conflict met these atoms, in this order. It counts more than those before it.
    pub(crate) fn see_conflict(&mut self, atoms: &[usize]) {
        self.step = self.step.saturating_add(self.step / DECAY);
        for atom in atoms {
            self.raise(*atom);
        }
    }
}
