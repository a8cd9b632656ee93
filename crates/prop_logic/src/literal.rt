// Literals of numbered atoms, clauses and derivations. A step names the clauses that show it, in the order in which they are
// used (as in Cruz-Filipe and others, Efficient certified RAT verification, 2017), so that a check needs no search. Added
// clauses and steps have numbers of their own, so no step is renumbered where a clause is added later.
ghost use Rattle.std.specs.Prelude.{◌≡◌, ◌≢◌, ℕ, List, Some, All, Contains, MatchBool, IfOk, map};
ghost use Rattle.inst_logic.specs.declared.signed.Signed.{Signed};
ghost use Rattle.inst_logic.specs.Signed.{complement};
ghost use Rattle.prop_logic.specs.Literal.{cited};

use inst_logic::{ListOf, Memory, Signed};
use std::alloc::Global;

/// An atom with a sign. Atoms are counted from 0.
pub type Lit = Signed<usize>;

/// A clause, as the list of its literals in the order in which they were given. Repeats and complements may stand in it.
pub type LitList = ListOf<Lit>;

/// Clauses in their order: `get` counts them from 0, and hints from 1.
pub type LitLists = ListOf<LitList>;

/// What a step cites: an added clause or an earlier step, by its number. Both are counted from 1.
#[derive(Clone, Copy, Debug, PartialEq, Eq)]
pub enum Hint {
    Added(usize),
    Step(usize),
}

/// The hints of a step, in the order in which they are used.
pub type HintList = ListOf<Hint>;

/// A clause with the hints that show it, in the order in which they are resolved.
#[derive(Drop, Debug)]
pub struct Step {
    pub clause: LitList,
    pub hints: HintList,
}

/// Steps, each shown by what its hints cite of the added clauses and of the steps before it: `get` counts them from 0, and
/// hints from 1.
pub type Derivation = ListOf<Step>;

/// The literal of this atom with the other sign.
pub fn complement(lit: Lit) -> Lit
    ensures { result ≡ complement lit }
{
    Lit {
        positive: !lit.positive,
        atom: lit.atom,
    }
}

/// The complements of the literals, in their order.
pub fn complements(alloc: Global, literals: &[Lit]) -> Result<LitList, Memory>
    ensures { IfOk result (λ others. others ≡ map complement literals.now) }
{
    let mut others = LitList::new(alloc);
    for lit in literals {
        others.push(complement(*lit))?;
    }
    Ok(others)
}

/// The clause that the hint cites, or an empty slice where it cites none: who asks knows that it cites one.
pub fn cited_clause<'a>(clauses: &'a [LitList], steps: &'a [Step], hint: Hint) -> &'a [Lit]
    ensures { (c : List (Signed ℕ)) → cited clauses.now steps.now hint ≡ Some c → result.now ≡ c }
{
    match hint {
        Hint::Added(n) => {
            if 0 < n && n <= clauses.len() {
                return clauses[n - 1].as_slice();
            }
        }
        Hint::Step(n) => {
            if 0 < n && n <= steps.len() {
                return steps[n - 1].clause.as_slice();
            }
        }
    }
    &[]
}

// Whether the literal is one of the clause.
pub(crate) fn contains(clause: &[Lit], lit: Lit) -> bool
    ensures { MatchBool result (Contains clause.now lit) (All (λ l. l ≢ lit) clause.now) }
{
    for other in clause {
        if other.atom == lit.atom && other.positive == lit.positive {
            return true;
        }
    }
    false
}
