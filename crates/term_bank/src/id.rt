// The numbers of interned trees, in a type of their own so that none is taken for another number, and clauses over them.
ghost use Rattle.std.specs.Prelude.{◌≡◌, ◌<◌, ◌^◌};

use inst_logic::{ListOf, Signed};
use std::marker::Model;

/// The number of a tree in its bank, counted from 0.
#[derive(Clone, Copy, Debug, PartialEq, Eq, Hash)]
pub struct TermId(pub(crate) u32);

impl Model for TermId {
    ghost use Rattle.std.specs.Prelude.{ℕ};

    ghost Value = { ℕ };

    ghost view = { λ t. t.0 };

    ghost inverse = { λ n. record { 0 = n } };
}

impl TermId {
    /// Below the length of its bank, and different for different ids.
    pub fn number(self) -> usize
        ensures { result ≡ self }
    {
        self.0 as usize
    }

    pub(crate) fn of(number: usize) -> TermId
        requires { number < 2 ^ 32 }
        ensures { result ≡ number }
    {
        TermId(number as u32)
    }
}

/// A list of ids of one bank: an id of another bank may be the number of another tree.
pub type TermIdList = ListOf<TermId>;

/// A sign and the id of an atom.
pub type IdLiteral = Signed<TermId>;

/// A disjunction of literals, each over the id of its atom.
pub type IdClause = ListOf<IdLiteral>;

/// A list of clauses over one bank, which `get` counts from 0.
pub type IdClauseList = ListOf<IdClause>;
