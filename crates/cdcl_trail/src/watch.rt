// Watched literals (Moskewicz and others, Chaff, 2001) with blockers (Sörensson and Eén, MiniSat 2.1, 2008).

use prop_logic::Lit;

/// A clause that watches the literal of its list, and another literal of it: where that one is true, the clause need not be
/// looked at. Nor need it be read at all where it is known to have two literals, which are then these (Chu, Harwood and
/// Stuckey, Cache Conscious Data Structures for Boolean Satisfiability Solvers, 2009).
#[derive(Clone, Copy, Debug, PartialEq, Eq)]
pub struct Watch {
    pub number: usize,
    pub blocker: Lit,
    pub binary: bool,
}

/// A place of the literal's watch list.
#[derive(Clone, Copy, Debug, PartialEq, Eq)]
pub struct Spot {
    pub l: Lit,
    pub place: usize,
}

/// The two literals that a clause watches.
#[derive(Clone, Copy, Debug, PartialEq, Eq)]
pub struct WatchedPair {
    pub first: Lit,
    pub second: Lit,
}

/// How far propagation came: before this place of the trail, and before this place of the loose clauses.
#[derive(Clone, Copy, Debug, PartialEq, Eq)]
pub struct Head {
    pub place: u32,
    pub passed: u32,
}
