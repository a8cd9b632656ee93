// Valuations of numbered atoms, packed into words so that two of them are compared 64 atoms at a time.
ghost use Rattle.std.specs.Prelude.{◌≡◌, ◌↔◌, ◌≢◌, ◌+◌, ◌*◌, ◌<◌, ◌≤◌, ◌%◌, ◌/◌, ◌==◌, ℕ, [], ◌∷◌, ◌++◌, false, length, IsTrue, IfOk, OnOk, OnErr, slice_get, slice_set, option_copied};
ghost use Rattle.std.specs.Int.{bit_at};
ghost use Rattle.std.specs.List.{slice_index_or};
ghost use Rattle.prop_logic.specs.Valuation.{IsHeld, value_at};
ghost use Rattle.prop_logic.specs.Packed.{bit_of, values_of};

use crate::bits::{has_bit, with_bit, word_at};
use inst_logic::Memory;
use std::alloc::Global;
use std::marker::Model;

/// The values of the atoms: item `n` is that of atom `n`. Atoms past the end are false. Each takes a bit, 64 to a word.
#[derive(Drop, Debug)]
pub struct Valuation {
    words: Vec<u64>,
    len: usize,
}

impl Model for Valuation {
    ghost use Rattle.std.specs.Prelude.{◌≡◌, ◌+◌, ◌*◌, ◌^◌, ◌≤◌, ℕ, List, Bool, length};
    ghost use Rattle.prop_logic.specs.Packed.{bit_of, values_of};

    ghost Value = { List Bool };

    ghost view = { λ v. values_of v.words.items v.len };

    ghost invariant = { λ v. (v.len + 128 ≤ 2 ^ 64) × (v.len ≤ 64 * length v.words.items) × ((k : ℕ) → v.len ≤ k → bit_of v.words.items k ≡ 0) };
}

// Takes the room of one value more.
fn take_room(words: &mut Vec<u64>, len: usize) -> Result<(), Memory>
    requires { len ≤ 64 * length words.old.items }
    ensures room { OnOk result (len + 1 ≤ 64 * length words.new.items) }
    ensures bits { (k : ℕ) → bit_of words.new.items k ≡ bit_of words.old.items k }
    ensures values { (n : ℕ) → values_of words.new.items n ≡ values_of words.old.items n }
    ensures err { OnErr result (words.new.items ≡ words.old.items) }
{
    if len / 64 == words.len() {
        words.push(0)?;
    }
    Ok(())
}

// The first place from one on at which the words differ, and `end` where they are the same up to it.
fn first_other_word(old: &[u64], new: &[u64], from: usize, end: usize) -> usize
    requires order { from ≤ end }
    requires old { end ≤ length old.now }
    requires new { end ≤ length new.now }
    ensures after { from ≤ result }
    ensures same { (p : ℕ) → from ≤ p → p < result → slice_index_or old.now p 0 ≡ slice_index_or new.now p 0 }
{
    let mut place = from;
    while place < end && old[place] == new[place] {
        place += 1;
    }
    place
}

impl Valuation {
    /// No values, which take no memory.
    pub fn new(alloc: Global) -> Self
        ensures { result ≡ [] }
    {
        Valuation {
            words: Vec::new(alloc),
            len: 0,
        }
    }

    /// A copy of the values, which takes a word for 64 atoms.
    pub fn copy(&self, alloc: Global) -> Result<Valuation, Memory>
        ensures { IfOk result (λ valuation. valuation ≡ self.now) }
    {
        let words = Vec::from_slice(alloc, self.words.as_slice())?;
        Ok(Valuation {
            words,
            len: self.len,
        })
    }

    /// How many atoms have a value: those whose numbers are below it.
    pub fn len(&self) -> usize
        ensures { result ≡ length self.now }
    {
        self.len
    }

    /// Whether no atom has a value.
    pub fn is_empty(&self) -> bool
        ensures { IsTrue result ↔ (self.now ≡ []) }
    {
        self.len() == 0
    }

    /// The value of atom `i`, counted from 0; `None` past the last.
    pub fn get(&self, i: usize) -> Option<&bool>
        ensures { option_copied result ≡ slice_get self.now i }
    {
        if self.len() <= i {
            return None;
        }
        if self.bit(i) {
            Some(&true)
        } else {
            Some(&false)
        }
    }

    /// The value of the atom, false past the end.
    pub fn value(&self, atom: usize) -> bool
        ensures { IsTrue result ↔ IsHeld self.now atom }
    {
        self.bit(atom)
    }

    pub(crate) fn bit(&self, atom: usize) -> bool
        ensures { result ≡ value_at self.now atom }
    {
        has_bit(word_at(self.words.as_slice(), atom / 64), atom % 64)
    }

    /// Gives the next atom this value. A refused push leaves the valuation as it was. Pushes are refused too once there are
    /// `usize::MAX - 128` values, so that numbers of words never overflow.
    pub fn push(&mut self, value: bool) -> Result<(), Memory>
        ensures ok { OnOk result (self.new ≡ self.old ++ value ∷ []) }
        ensures err { OnErr result (self.new ≡ self.old) }
    {
        let atom = self.len();
        self.grow()?;
        self.set(atom, value);
        Ok(())
    }

    // Gives the next atom the value false.
    fn grow(&mut self) -> Result<(), Memory>
        ensures ok { OnOk result (self.new ≡ self.old ++ false ∷ []) }
        ensures err { OnErr result (self.new ≡ self.old) }
    {
        if usize::MAX - 128 <= self.len {
            return Err(Memory);
        }
        take_room(&mut self.words, self.len)?;
        self.len += 1;
        Ok(())
    }

    /// Gives the atom another value, or the same.
    pub fn set(&mut self, atom: usize, value: bool)
        requires { atom < length self.old }
        ensures { self.new ≡ slice_set self.old atom value }
    {
        let word = word_at(self.words.as_slice(), atom / 64);
        self.words[atom / 64] = with_bit(word, atom % 64, value);
    }

    // The values of 64 atoms.
    pub(crate) fn word(&self, place: usize) -> u64
        ensures { (k : ℕ) → k / 64 ≡ place → value_at self.now k ≡ (bit_at result (k % 64) == 1) }
    {
        word_at(self.words.as_slice(), place)
    }

    // The first place from one on whose 64 values may differ from those of the other: those of the places between are the same.
    pub(crate) fn first_difference(&self, other: &Valuation, from: usize) -> usize
        ensures after { from ≤ result }
        ensures same { (k : ℕ) → 64 * from ≤ k → k < 64 * result → value_at self.now k ≡ value_at other.now k }
    {
        let end = self.words.len().min(other.words.len());
        if end < from {
            return from;
        }
        first_other_word(self.words.as_slice(), other.words.as_slice(), from, end)
    }

    // How many words there are, 64 values each.
    pub(crate) fn word_count(&self) -> usize
        ensures enough { length self.now ≤ 64 * result }
        ensures bound { 64 * result ≤ usize.MAX }
    {
        self.len / 64 + 1
    }
}
