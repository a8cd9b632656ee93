// What every solver is to the layers above: the boundary on which the engine is proved.
ghost use Rattle.std.specs.Prelude.{◌≡◌, ◌+◌, ◌∷◌, [], ◌++◌, ℕ, Bool, false, List, length, IsTrue, IsErr, IfOk, OnOk, OnErr};
ghost use Rattle.inst_logic.specs.declared.signed.Signed.{Signed};
ghost use Rattle.prop_logic.specs.Literal.{AtomsBelow};
ghost use Rattle.prop_logic.specs.Solving.{IsAnswer};

use crate::literal::{Derivation, Lit, LitList};
use crate::valuation::Valuation;
use inst_logic::Memory;

/// Whether the added clauses and the assumptions can be true together.
#[derive(Drop, Debug)]
pub enum Answer {
    /// A valuation that makes them true, where an atom past its end is false.
    Sat(Valuation),
    /// Assumptions that can't be true with the clauses, and steps that show it, of which the last has the complements of
    /// these assumptions for its clause.
    Unsat {
        core: LitList,
        derivation: Derivation,
    },
}

/// Clauses over numbered atoms that are added one by one, and the question whether they can be true under assumptions
/// (Eén and Sörensson, An extensible SAT-solver, 2003). A solver may keep what it learned from one question to the next.
pub trait Solver: Drop {
    /// How many atoms there are: their numbers are those below.
    ghost atoms: { Self → ℕ };

    /// The clauses that were added, in their order. Clause n of them is what `Hint::Added(n)` cites.
    ghost added: { Self → List (List (Signed ℕ)) };

    /// Whether a call was refused memory. From then on every call is.
    ghost spent: { Self → Bool };

    /// Makes an atom, and answers its number, counted from 0.
    fn new_atom(&mut self) -> Result<usize, Memory>
        ensures number { IfOk result (λ n. n ≡ atoms self.old) }
        ensures grown { OnOk result (atoms self.new ≡ atoms self.old + 1) }
        ensures kept { OnOk result (added self.new ≡ added self.old) }
        ensures ok { OnOk result (spent self.new ≡ false) }
        ensures err { OnErr result (IsTrue (spent self.new)) }
        ensures stays_spent { IsTrue (spent self.old) → IsErr result };

    /// Adds a clause, and answers its number, counted from 1. Derivations cite the clause by it.
    fn add(&mut self, clause: &[Lit]) -> Result<usize, Memory>
        requires { AtomsBelow (atoms self.old) clause.now }
        ensures number { IfOk result (λ n. n ≡ length (added self.new)) }
        ensures grown { OnOk result (added self.new ≡ added self.old ++ clause.now ∷ []) }
        ensures kept { OnOk result (atoms self.new ≡ atoms self.old) }
        ensures ok { OnOk result (spent self.new ≡ false) }
        ensures err { OnErr result (IsTrue (spent self.new)) }
        ensures stays_spent { IsTrue (spent self.old) → IsErr result };

    /// Whether the clauses and the assumptions can be true together. The assumptions are for this question alone; they may
    /// come in any order, with repeats, and with complements of each other.
    fn solve(&mut self, assumptions: &[Lit]) -> Result<Answer, Memory>
        requires { AtomsBelow (atoms self.old) assumptions.now }
        ensures atoms { atoms self.new ≡ atoms self.old }
        ensures added { added self.new ≡ added self.old }
        ensures answer { IfOk result (IsAnswer (atoms self.old) (added self.old) assumptions.now) }
        ensures ok { OnOk result (spent self.new ≡ false) }
        ensures err { OnErr result (IsTrue (spent self.new)) }
        ensures stays_spent { IsTrue (spent self.old) → IsErr result };

    /// How much the searches learned so far, by steps that answer conflicts; 0 from a solver that keeps no count. Nothing is promised
    /// of it.
    fn conflicts(&self) -> u64 {
        0
    }

    /// Tells the value that searches may try first for an atom that has none yet; a number that is no atom is passed over. It
    /// takes no memory, and no answer is another by it: nothing else is promised.
    fn prefer(&mut self, _atom: usize, _value: bool)
        ensures atoms { atoms self.new ≡ atoms self.old }
        ensures added { added self.new ≡ added self.old }
        ensures spent { spent self.new ≡ spent self.old }
    {}
}

/// Makes so many atoms.
pub fn make_atoms<S: Solver>(solver: &mut S, count: usize) -> Result<(), Memory>
    ensures atoms { OnOk result (S.atoms solver.new ≡ S.atoms solver.old + count) }
    ensures added { OnOk result (S.added solver.new ≡ S.added solver.old) }
    ensures err { OnErr result (IsTrue (S.spent solver.new)) }
{
    for _ in 0..count {
        solver.new_atom()?;
    }
    Ok(())
}
