// The entries by atom, packed: 24 bytes an atom, since levels and places stay below the number of atoms.
ghost use Rattle.std.specs.Prelude.{◌≡◌, ◌≤◌, ◌<◌, ◌^◌, [], ◌∷◌, ◌++◌, length, slice_get, slice_set, Some, None, IfSome, IfNone, OnOk, OnErr};
ghost use Rattle.std.specs.List.{slice_index_or};
ghost use Rattle.cdcl_trail.specs.declared.entry.Entry.{Entry};
ghost use Rattle.cdcl_trail.specs.Slots.{entry_in};

use crate::entry::Entry;
use inst_logic::Memory;
use prop_logic::Lit;
use std::alloc::Global;
use std::marker::Model;

// Whether an atom has a value, and how it came.
#[derive(Clone, Copy)]
enum State {
    Unset,
    Decided,
    Implied,
}

// The entry of an atom, and the place of its literal. The reason counts only where the value was implied, and the other
// fields only where there is one.
#[derive(Clone, Copy)]
struct Slot {
    reason: usize,
    atom: u32,
    level: u32,
    place: u32,
    state: State,
    positive: bool,
}

const _: () = prove!(size_of::<Slot>() == 24);

// For each atom its entry, if it has a value, and the place of its literal.
#[derive(Drop)]
pub struct EntryTable {
    slots: Vec<Slot>,
}

impl Model for EntryTable {
    ghost use Rattle.cdcl_trail.specs.EntriesByAtom.{EntriesByAtom};

    ghost Value = { EntriesByAtom };

    ghost use Rattle.std.specs.Prelude.{map};
    ghost use Rattle.cdcl_trail.specs.Slots.{entry_in};

    ghost view = { λ t. record { items = map entry_in t.slots.items; places = map (λ s. s.place) t.slots.items } };
}

// The slot of an atom without a value.
fn unset() -> Slot
    ensures entry { entry_in result ≡ None }
    ensures place { result.place ≡ 0 }
{
    Slot {
        reason: 0,
        atom: 0,
        level: 0,
        place: 0,
        state: State::Unset,
        positive: false,
    }
}

fn slot_of(entry: Entry, place: usize) -> Slot
    requires atom { entry.lit.atom < 2 ^ 32 }
    requires level { entry.level < 2 ^ 32 }
    requires place { place < 2 ^ 32 }
    ensures entry { entry_in result ≡ Some entry }
    ensures place { result.place ≡ place }
{
    let (state, reason) = match entry.reason {
        Some(number) => (State::Implied, number),
        None => (State::Decided, 0),
    };
    Slot {
        reason,
        atom: entry.lit.atom as u32,
        level: entry.level as u32,
        place: place as u32,
        state,
        positive: entry.lit.positive,
    }
}

fn entry_of(slot: Slot) -> Option<Entry>
    ensures { result ≡ entry_in slot }
{
    let reason = match slot.state {
        State::Unset => return None,
        State::Decided => None,
        State::Implied => Some(slot.reason),
    };
    Some(Entry {
        lit: Lit {
            positive: slot.positive,
            atom: slot.atom as usize,
        },
        level: slot.level as usize,
        reason,
    })
}

// The sign of the slot's literal, or `None` where its atom has no value.
fn sign_in(slot: Slot) -> Option<bool>
    ensures some { IfSome result (λ positive. (e : Entry) × (entry_in slot ≡ Some e) × (e.lit.positive ≡ positive)) }
    ensures none { IfNone result (entry_in slot ≡ None) }
{
    match slot.state {
        State::Unset => None,
        State::Decided => Some(slot.positive),
        State::Implied => Some(slot.positive),
    }
}

impl EntryTable {
    pub(crate) fn new(alloc: Global) -> EntryTable
        ensures items { result.items ≡ [] }
        ensures places { result.places ≡ [] }
    {
        EntryTable {
            slots: Vec::new(alloc),
        }
    }

    pub(crate) fn len(&self) -> usize
        ensures { result ≡ length self.now.items }
    {
        self.slots.len()
    }

    // Makes an atom without a value.
    pub(crate) fn push(&mut self) -> Result<(), Memory>
        ensures items { OnOk result (self.new.items ≡ self.old.items ++ None ∷ []) }
        ensures places { OnOk result (self.new.places ≡ self.old.places ++ 0 ∷ []) }
        ensures err { OnErr result (self.new ≡ self.old) }
    {
        self.slots.push(unset())?;
        Ok(())
    }

    // The entry of the atom, or `None` where it has no value.
    pub(crate) fn entry(&self, atom: usize) -> Option<Entry>
        requires { atom < length self.now.items }
        ensures { slice_get self.now.items atom ≡ Some result }
    {
        entry_of(self.slots[atom])
    }

    // The sign of the atom's literal, or `None` where it has no value.
    pub(crate) fn sign(&self, atom: usize) -> Option<bool>
        requires { atom < length self.now.items }
        ensures some { IfSome result (λ positive. (e : Entry) × (slice_get self.now.items atom ≡ Some (Some e)) × (e.lit.positive ≡ positive)) }
        ensures none { IfNone result (slice_get self.now.items atom ≡ Some None) }
    {
        sign_in(self.slots[atom])
    }

    // The place of the atom's literal, which counts only where the atom has a value.
    pub(crate) fn place(&self, atom: usize) -> usize
        requires { atom < length self.now.items }
        ensures { result ≡ slice_index_or self.now.places atom 0 }
    {
        self.slots[atom].place as usize
    }

    // Gives the atom of the entry its value, with the place of its literal.
    pub(crate) fn put(&mut self, entry: Entry, place: usize)
        requires inside { entry.lit.atom < length self.old.items }
        requires atom { entry.lit.atom < 2 ^ 32 }
        requires level { entry.level < 2 ^ 32 }
        requires place { place < 2 ^ 32 }
        ensures items { self.new.items ≡ slice_set self.old.items entry.lit.atom (Some entry) }
        ensures places { self.new.places ≡ slice_set self.old.places entry.lit.atom place }
    {
        self.slots[entry.lit.atom] = slot_of(entry, place);
    }

    // Takes the value of the atom back.
    pub(crate) fn clear(&mut self, atom: usize)
        requires { atom < length self.old.items }
        ensures items { self.new.items ≡ slice_set self.old.items atom None }
        ensures places { self.new.places ≡ slice_set self.old.places atom 0 }
    {
        self.slots[atom] = unset();
    }
}
