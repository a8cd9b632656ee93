// Covers that may serve again. Many partners give one instance of a member, so the place of a cover is kept by a number for the
// member and what its selected atom becomes. Such a place is a guess: the cover there is compared with the instance. Where it is
// right, that is cheaper than to build the instance and to look for what covers it; where it is wrong, the instance is built
// twice.
ghost use Rattle.std.specs.Prelude.{◌<◌, length};
ghost use Rattle.unify_core.specs.Chains.{AreBindings};

use inst_logic::Memory;
use std::alloc::Global;
use term_bank::{Bank, TermId};
use unify_core::{Bindings, Bound, Side};

// How many slots there are at least and at most, and for each member in between.
const LEAST: usize = 64;

const MOST: usize = 65_536;

const EACH: usize = 32;

// An odd number, by which a code is spread over all bits (Knuth, The Art of Computer Programming, volume 3, 1973).
const FACTOR: usize = 0x9E37_79B9_7F4A_7C15;

// The place of a cover, and the code of its instance.
#[derive(Clone, Copy)]
struct Seen {
    code: usize,
    place: usize,
}

/// The places of covers by the codes of their instances. Of those that share a slot the last one is kept.
#[derive(Drop)]
pub struct SeenCovers {
    slots: Vec<Seen>,
}

// A number for what the argument becomes: that of its term where it is ground, and else none.
fn mark_of(bank: &Bank, bindings: &Bindings, argument: Bound) -> usize
    requires bindings { AreBindings bank.now bindings.now.entries }
    requires within { argument.term < length bank.now.trees }
{
    let end = bindings.follow(bank, argument);
    if bank.ground(end.term) {
        return end.term.number().wrapping_add(1);
    }
    0
}

// The code, with what the arguments of the term become.
fn code_with(bank: &Bank, bindings: &Bindings, at: Bound, code: usize) -> usize
    requires bindings { AreBindings bank.now bindings.now.entries }
    requires within { at.term < length bank.now.trees }
{
    let mut code = code;
    for term in bank.args(at.term) {
        let argument = Bound {
            side: at.side,
            term: *term,
        };
        code = (code ^ mark_of(bank, bindings, argument)).wrapping_mul(FACTOR);
    }
    code
}

// The code, with what the argument becomes, and where that is not ground with what its own arguments become.
fn code_below(bank: &Bank, bindings: &Bindings, argument: Bound, code: usize) -> usize
    requires bindings { AreBindings bank.now bindings.now.entries }
    requires within { argument.term < length bank.now.trees }
{
    let end = bindings.follow(bank, argument);
    if bank.ground(end.term) {
        return (code ^ end.term.number().wrapping_add(1)).wrapping_mul(FACTOR);
    }
    code_with(bank, bindings, end, code.wrapping_mul(FACTOR))
}

/// A number for the instance of the member at the place, whose selected atom this is, by what the arguments become, and their
/// arguments. Instances that differ may have one number: variables count as one, as do terms that differ further below.
pub fn code_of(bank: &Bank, bindings: &Bindings, side: Side, own: usize, atom: TermId) -> usize
    requires bindings { AreBindings bank.now bindings.now.entries }
    requires within { atom < length bank.now.trees }
{
    let mut code = own.wrapping_mul(FACTOR);
    for term in bank.args(atom) {
        code = code_below(bank, bindings, Bound { side, term: *term }, code);
    }
    code
}

// The slot for the code among so many, which are a power of two. The high bits of a code are those that are spread best.
fn slot_of(count: usize, code: usize) -> usize {
    (code ^ code >> 32) & count.wrapping_sub(1)
}

// How many slots serve for so many members.
fn count_for(members: usize) -> usize {
    members
        .saturating_mul(EACH)
        .clamp(LEAST, MOST)
        .next_power_of_two()
}

impl SeenCovers {
    /// Without slots; takes no memory.
    pub fn new(alloc: Global) -> SeenCovers {
        SeenCovers {
            slots: Vec::new(alloc),
        }
    }

    /// Makes slots for the covers of so many members.
    pub fn reserve(&mut self, members: usize) -> Result<(), Memory> {
        let empty = Seen {
            code: 0,
            place: usize::MAX,
        };
        self.slots.resize(count_for(members), empty)?;
        Ok(())
    }

    /// The place of a cover whose instance has the code.
    pub fn place_of(&self, code: usize) -> Option<usize> {
        match self.slots.get(slot_of(self.slots.len(), code)) {
            Some(seen) if seen.code == code => Some(seen.place),
            _ => None,
        }
    }

    /// Keeps the place of a cover for the code of its instance.
    pub fn put(&mut self, code: usize, place: usize) {
        let slot = slot_of(self.slots.len(), code);
        if slot < self.slots.len() {
            self.slots[slot] = Seen { code, place };
        }
    }
}
