// The literals of one clause, read in the same way whether they are packed or not.
ghost use Rattle.std.specs.Prelude.{◌≡◌, ◌↔◌, ◌<◌, [], length, slice_get, Some, IsTrue};

use crate::packed::PackedLit;
use prop_logic::Lit;
use std::marker::Model;

// Where they are.
#[derive(Drop)]
pub enum Kept<'a> {
    Packed(&'a [PackedLit]),
    Plain(&'a [Lit]),
}

fn packed_at(literals: &[PackedLit], place: usize) -> Lit
    requires { place < length literals.now }
    ensures { slice_get literals.now place ≡ Some result }
{
    literals[place].lit()
}

fn plain_at(literals: &[Lit], place: usize) -> Lit
    requires { place < length literals.now }
    ensures { slice_get literals.now place ≡ Some result }
{
    literals[place]
}

/// The literals of a clause that is kept packed, or of one that is kept as literals.
#[derive(Drop)]
pub struct Literals<'a> {
    kept: Kept<'a>,
}

impl<'a> Model for Literals<'a> {
    ghost use Rattle.std.specs.Prelude.{List, ℕ};
    ghost use Rattle.inst_logic.specs.declared.signed.Signed.{Signed};

    ghost Value = { List (Signed ℕ) };

    ghost use Rattle.compact_lists.specs.Literals.{literals_in};

    ghost view = { λ l. literals_in l.kept };
}

impl<'a> Literals<'a> {
    /// The literals of a clause that is kept packed.
    pub fn of_packed(literals: &'a [PackedLit]) -> Self
        ensures { result ≡ literals.now }
    {
        Literals {
            kept: Kept::Packed(literals),
        }
    }

    /// The literals of a clause that is kept as literals.
    pub fn plain(literals: &'a [Lit]) -> Self
        ensures { result ≡ literals.now }
    {
        Literals {
            kept: Kept::Plain(literals),
        }
    }

    /// How many literals.
    pub fn len(&self) -> usize
        ensures { result ≡ length self.now }
    {
        match &self.kept {
            Kept::Packed(literals) => literals.len(),
            Kept::Plain(literals) => literals.len(),
        }
    }

    /// Whether there is no literal.
    pub fn is_empty(&self) -> bool
        ensures { IsTrue result ↔ (self.now ≡ []) }
    {
        self.len() == 0
    }

    /// The literal at the place, counted from 0.
    pub fn at(&self, place: usize) -> Lit
        requires { place < length self.now }
        ensures { slice_get self.now place ≡ Some result }
    {
        match &self.kept {
            Kept::Packed(literals) => packed_at(literals, place),
            Kept::Plain(literals) => plain_at(literals, place),
        }
    }
}
