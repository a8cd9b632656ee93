// Fingerprints of atoms (Schulz, Fingerprint indexing for paramodulation and rewriting, 2012): the symbols at a few places. Two
// atoms with different symbols at one place have no unifier, whatever stands elsewhere, so most pairs of members cost a few
// comparisons. A variable says nothing of its place and of those below it.
ghost use Rattle.std.proofs.Common.{rules};
ghost use Rattle.std.specs.Cmp.Rules.{hashing};
ghost use Rattle.std.specs.Hash as fed;
ghost use Rattle.std.specs.Prelude.{◌≡◌, ◌<◌, ◌++◌, ℕ, length, map, true, IfOk, IfSome, Some, option_map};
ghost use Rattle.cert_values.specs.Values.{saturation_of};
ghost use Rattle.cert_values.specs.Wholes.{HasPlaces, IsWholeSaturation};
ghost use Rattle.term_bank.specs.Forest.{tree_at};
ghost use Rattle.cert_index.specs.Fingerprints.{AreDifferent, Differ, DifferInMarks, HasFingerprint, HasMarks, IsFingerprintOf, IsMark, TellApart, argument_of, fingerprint_at, joined, mark_of, top_marks};

use cert_values::{Saturation, selected};
use inst_logic::Memory;
use std::alloc::Global;
use std::hash::{Hash, Hasher};
use term_bank::{Bank, TermId};

// The marks of the symbols at the tops of a tree's first four arguments; 0 for a variable, and where there is no argument.
#[derive(Clone, Copy, PartialEq, Eq)]
pub struct Marks {
    first: u32,
    second: u32,
    third: u32,
    fourth: u32,
}

// Two marks as one number.
fn pair_key(m: u32, n: u32) -> u64
    ensures { result ≡ joined m n }
{
    m as u64 + (n as u64) * 4294967296
}

// Marks are hashed two at a time: a number of two takes as long as a single mark.
impl Hash for Marks {
    ghost hash_input = { λ m. fed.u64 (joined m.first m.second) ++ fed.u64 (joined m.third m.fourth) };

    ghost respects_eq = { Prim.search (hashing, rules) };

    fn hash<H: Hasher>(&self, state: &mut H) {
        state.write_u64(pair_key(self.first, self.second));
        state.write_u64(pair_key(self.third, self.fourth));
    }
}

const UNMARKED: Marks = Marks {
    first: 0,
    second: 0,
    third: 0,
    fourth: 0,
};

// The marks of an atom and of its first two arguments.
#[derive(Clone, Copy, PartialEq, Eq, Hash)]
pub struct Fingerprint {
    own: Marks,
    first: Marks,
    second: Marks,
}

// Different marks are those of different symbols.
fn mark_of(number: usize) -> u32
    ensures { result ≡ mark_of (Some number) }
{
    if number < u32::MAX as usize {
        number as u32 + 1
    } else {
        u32::MAX
    }
}

fn argument(bank: &Bank, tree: TermId, place: usize) -> Option<TermId>
    requires { tree < length bank.now.trees }
    ensures is { option_map (tree_at bank.now) result ≡ argument_of (Some (tree_at bank.now tree)) place }
    ensures within { IfSome result (λ id. id < length bank.now.trees) }
{
    bank.args(tree).get(place).copied()
}

// The mark of the symbol at the top of the argument.
fn mark(bank: &Bank, tree: TermId, place: usize) -> u32
    requires { tree < length bank.now.trees }
    ensures { IsMark bank.now (argument_of (Some (tree_at bank.now tree)) place) result }
{
    match argument(bank, tree, place) {
        None => 0,
        Some(id) => match bank.symbol_number(id) {
            None => 0,
            Some(number) => mark_of(number),
        },
    }
}

fn marks_in(bank: &Bank, tree: TermId) -> Marks
    requires { tree < length bank.now.trees }
    ensures { HasMarks bank.now (Some (tree_at bank.now tree)) result }
{
    Marks {
        first: mark(bank, tree, 0),
        second: mark(bank, tree, 1),
        third: mark(bank, tree, 2),
        fourth: mark(bank, tree, 3),
    }
}

// The marks in the argument.
fn marks_below(bank: &Bank, tree: TermId, place: usize) -> Marks
    requires { tree < length bank.now.trees }
    ensures { HasMarks bank.now (argument_of (Some (tree_at bank.now tree)) place) result }
{
    match argument(bank, tree, place) {
        None => UNMARKED,
        Some(id) => marks_in(bank, id),
    }
}

pub fn fingerprint_of(bank: &Bank, atom: TermId) -> Fingerprint
    requires { atom < length bank.now.trees }
    ensures { HasFingerprint bank.now (tree_at bank.now atom) result }
{
    Fingerprint {
        own: marks_in(bank, atom),
        first: marks_below(bank, atom, 0),
        second: marks_below(bank, atom, 1),
    }
}

// The fingerprint of the selected atom of member `i`, counted from 0.
fn selected_fingerprint(cert: &Saturation, i: usize) -> Fingerprint
    requires whole { IsWholeSaturation cert.now }
    requires placed { HasPlaces (saturation_of cert.now) }
    requires within { i < length cert.now.base.members }
    ensures { IsFingerprintOf cert.now i result }
{
    fingerprint_of(&cert.base.bank, selected(cert, i).atom)
}

// The fingerprint of each member's selected atom.
pub fn find_fingerprints(alloc: Global, cert: &Saturation) -> Result<Vec<Fingerprint>, Memory>
    requires whole { IsWholeSaturation cert.now }
    requires placed { HasPlaces (saturation_of cert.now) }
    ensures count { IfOk result (λ ps. length ps.items ≡ length cert.now.base.members) }
    ensures each { IfOk result (λ ps. (k : ℕ) → k < length ps.items → IsFingerprintOf cert.now k (fingerprint_at ps.items k)) }
    ensures apart { IfOk result (λ ps. TellApart (saturation_of cert.now) ps.items) }
{
    let mut fingerprints = Vec::with_capacity(alloc, cert.base.members.len())?;
    for i in 0..cert.base.members.len() {
        let fingerprint = selected_fingerprint(cert, i);
        fingerprints.push(fingerprint)?;
    }
    Ok(fingerprints)
}

// The marks of the atoms themselves alone.
pub fn tops_of(alloc: Global, fingerprints: &[Fingerprint]) -> Result<Vec<Fingerprint>, Memory>
    ensures { IfOk result (λ ps. ps.items ≡ map top_marks fingerprints.now) }
{
    let mut tops = Vec::with_capacity(alloc, fingerprints.len())?;
    for fingerprint in fingerprints {
        let top = fingerprint.top();
        tops.push(top)?;
    }
    Ok(tops)
}

fn are_different(m: u32, n: u32) -> bool
    ensures { result ≡ true → AreDifferent m n }
{
    m != n && m != 0 && n != 0
}

impl Marks {
    fn differ(&self, other: &Marks) -> bool
        ensures { result ≡ true → DifferInMarks self.now other.now }
    {
        are_different(self.first, other.first)
            || are_different(self.second, other.second)
            || are_different(self.third, other.third)
            || are_different(self.fourth, other.fourth)
    }
}

impl Fingerprint {
    /// The mark of the first argument.
    pub fn first_mark(&self) -> u32
        ensures { result ≡ self.now.own.first }
    {
        self.own.first
    }

    // The marks of the atom itself alone.
    fn top(&self) -> Fingerprint
        ensures { result ≡ top_marks self.now }
    {
        Fingerprint {
            own: self.own,
            first: UNMARKED,
            second: UNMARKED,
        }
    }

    /// Whether the fingerprints have different symbols at one place.
    pub fn differs(&self, other: &Fingerprint) -> bool
        ensures { result ≡ true → Differ self.now other.now }
    {
        self.own.differ(&other.own)
            || self.first.differ(&other.first)
            || self.second.differ(&other.second)
    }
}
