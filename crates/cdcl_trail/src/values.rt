// The values of atoms, kept twice: in the order in which they came, so that the last ones are taken back in one step each,
// and by atom, so that each is read in one step. The places by atom lead from one to the other.
ghost use Rattle.std.specs.Prelude.{◌≡◌, ◌+◌, ◌<◌, ◌≤◌, ◌^◌, ◌∷◌, ◌++◌, [], List, false, length, take, IsTrue, All, AllPairs, Contains, MatchBool, IfOk, IfSome, IfNone, OnErr, ℕ, Some, slice_get};
ghost use Rattle.inst_logic.specs.declared.signed.Signed.{Signed};
ghost use Rattle.cdcl_trail.specs.Trail.{IsUnset, IsPlaceOf, value_of, literals_of, entries_up_to};
ghost use Rattle.cdcl_trail.specs.Propagation.{IsFalseIn};
ghost use Rattle.cdcl_trail.specs.declared.entry.Entry.{Entry};
ghost use Rattle.cdcl_trail.specs.Values.{AreValues, entries_of, found};

use crate::entry::Entry;
use crate::entry_table::EntryTable;
use inst_logic::Memory;
use prop_logic::Lit;
use std::alloc::Global;

// As many atoms as fit into half of a u32 with room for one number that is no literal.
const MOST_ATOMS: usize = 0x7fff_ffff;

// The true literals in their order, with room for one of each atom, and for each atom its entry and the place of its literal.
#[derive(Drop)]
pub(crate) struct Values {
    pub(crate) literals: Vec<Lit>,
    pub(crate) entries: EntryTable,
}

impl Values {
    pub(crate) fn new(alloc: Global) -> Values
        ensures values { AreValues result }
        ensures entries { entries_of result ≡ [] }
        ensures atoms { length result.entries.items ≡ 0 }
    {
        Values {
            literals: Vec::new(alloc),
            entries: EntryTable::new(alloc),
        }
    }

    // Makes an atom, and answers its number. Past the largest number of atoms there is no room.
    pub(crate) fn grow(&mut self) -> Result<usize, Memory>
        requires { AreValues self.old }
        ensures values { AreValues self.new }
        ensures entries { entries_of self.new ≡ entries_of self.old }
        ensures number { IfOk result (λ n. n ≡ length self.old.entries.items) }
        ensures ok { IfOk result (λ n. length self.new.entries.items ≡ length self.old.entries.items + 1) }
        ensures err { OnErr result (length self.new.entries.items ≡ length self.old.entries.items) }
    {
        let atom = self.entries.len();
        if atom == MOST_ATOMS {
            return Err(Memory);
        }
        self.literals.reserve(atom + 1 - self.literals.len())?;
        self.entries.push()?;
        Ok(atom)
    }

    pub(crate) fn atoms(&self) -> usize
        ensures { result ≡ length self.now.entries.items }
    {
        self.entries.len()
    }

    // Takes back all values but the first `count`.
    pub(crate) fn undo_to(&mut self, count: usize)
        requires { AreValues self.old }
        ensures values { AreValues self.new }
        ensures entries { entries_of self.new ≡ take count (entries_of self.old) }
        ensures atoms { length self.new.entries.items ≡ length self.old.entries.items }
    {
        while count < self.literals.len() {
            self.undo();
        }
    }

    // The entry of the atom.
    pub(crate) fn entry(&self, atom: usize) -> Option<Entry>
        requires values { AreValues self.now }
        requires atom { atom < length self.now.entries.items }
        ensures { result ≡ found (entries_of self.now) atom }
    {
        self.entries.entry(atom)
    }

    // The place of the atom's literal, or `None` where it has no value.
    pub(crate) fn place(&self, atom: usize) -> Option<usize>
        requires values { AreValues self.now }
        requires atom { atom < length self.now.entries.items }
        ensures some { IfSome result (IsPlaceOf (entries_of self.now) atom) }
        ensures none { IfNone result (IsUnset (entries_of self.now) atom) }
    {
        match self.entries.sign(atom) {
            Some(_) => Some(self.entries.place(atom)),
            None => None,
        }
    }

    // The value of the literal, or `None` where its atom has none.
    pub(crate) fn value(&self, l: Lit) -> Option<bool>
        requires values { AreValues self.now }
        requires atom { l.atom < length self.now.entries.items }
        ensures { result ≡ value_of (entries_of self.now) l }
    {
        match self.entries.sign(l.atom) {
            Some(positive) => Some(positive == l.positive),
            None => None,
        }
    }

    pub(crate) fn is_false(&self, l: Lit) -> bool
        requires values { AreValues self.now }
        requires atom { l.atom < length self.now.entries.items }
        ensures { MatchBool result (IsFalseIn (entries_of self.now) l) (¬ IsFalseIn (entries_of self.now) l) }
    {
        match self.value(l) {
            Some(held) => !held,
            None => false,
        }
    }

    pub(crate) fn is_true(&self, l: Lit) -> bool
        requires values { AreValues self.now }
        requires atom { l.atom < length self.now.entries.items }
        ensures { MatchBool result (Contains (literals_of (entries_of self.now)) l) (¬ Contains (literals_of (entries_of self.now)) l) }
    {
        match self.value(l) {
            Some(held) => held,
            None => false,
        }
    }

    // Gives the atom of the entry its value.
    pub(crate) fn put(&mut self, entry: Entry)
        requires values { AreValues self.old }
        requires atom { entry.lit.atom < length self.old.entries.items }
        requires unset { IsUnset (entries_of self.old) entry.lit.atom }
        requires level { entry.level < 2 ^ 32 }
        ensures values { AreValues self.new }
        ensures entries { entries_of self.new ≡ entries_of self.old ++ entry ∷ [] }
        ensures atoms { length self.new.entries.items ≡ length self.old.entries.items }
    {
        self.entries.put(entry, self.literals.len());
        self.literals.push_reserved(entry.lit);
    }

    // Whether the last value is of a level above this one.
    fn ends_above(&self, level: usize) -> bool
        requires values { AreValues self.now }
        requires rising { AllPairs (λ a b. a.level ≤ b.level) (entries_of self.now) }
        ensures above { IsTrue result → (es : List Entry) × (e : Entry) × (entries_of self.now ≡ es ++ e ∷ []) × (level < e.level) }
        ensures rest { result ≡ false → All (λ e. e.level ≤ level) (entries_of self.now) }
    {
        match self.literals.last() {
            Some(l) => match self.entries.entry(l.atom) {
                Some(entry) => level < entry.level,
                None => false,
            },
            None => false,
        }
    }

    // Takes the last value back.
    fn undo(&mut self)
        requires { AreValues self.old }
        ensures values { AreValues self.new }
        ensures entries { (es : List Entry) (e : Entry) → entries_of self.old ≡ es ++ e ∷ [] → entries_of self.new ≡ es }
        ensures atoms { length self.new.entries.items ≡ length self.old.entries.items }
    {
        if let Some(l) = self.literals.pop() {
            self.entries.clear(l.atom);
        }
    }

    // Takes back the values of the levels above this one.
    pub(crate) fn back_to(&mut self, level: usize)
        requires values { AreValues self.old }
        requires rising { AllPairs (λ a b. a.level ≤ b.level) (entries_of self.old) }
        ensures values { AreValues self.new }
        ensures entries { entries_of self.new ≡ entries_up_to (entries_of self.old) level }
        ensures atoms { length self.new.entries.items ≡ length self.old.entries.items }
    {
        while self.ends_above(level) {
            self.undo();
        }
    }
}
