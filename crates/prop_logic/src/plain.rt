// A plain solver, beside which a fast one can be seen to answer the same. It has no watched literals, and forgets what it
// learned with each question.
ghost use Rattle.std.specs.Prelude.{◌≡◌, ◌++◌, ◌∷◌, [], false, OnOk, OnErr};

use crate::literal::{Lit, LitList, LitLists};
use crate::search::decide;
use crate::solver::{Answer, Solver};
use inst_logic::Memory;
use std::alloc::Global;
use std::marker::Model;

/// A solver that gives the atoms values one after the other and goes back from a clause that is false to the last choice that
/// it depends on (Davis, Logemann and Loveland, A machine program for theorem-proving, 1962). It is written to be seen right,
/// and looks at all clauses at each value; each question begins anew.
#[derive(Drop)]
pub struct Plain {
    alloc: Global,
    atoms: usize,
    added: LitLists,
    spent: bool,
}

impl Model for Plain {
    ghost use Rattle.prop_logic.specs.Literal.{AllAtomsBelow};
    ghost use Rattle.prop_logic.specs.Plain.{State};

    ghost Value = { State };

    ghost view = { λ s. record { atoms = s.atoms; added = s.added; spent = s.spent } };

    ghost invariant = { λ s. AllAtomsBelow s.atoms s.added };
}

// Adds a copy of the clause.
fn add_clause(alloc: Global, clauses: &mut LitLists, clause: &[Lit]) -> Result<(), Memory>
    ensures ok { OnOk result (clauses.new ≡ clauses.old ++ clause.now ∷ []) }
    ensures err { OnErr result (clauses.new ≡ clauses.old) }
{
    let copy = LitList::from(Vec::from_slice(alloc, clause)?);
    clauses.push(copy)
}

impl Plain {
    /// A solver without atoms and clauses.
    pub fn new(alloc: Global) -> Self
        ensures { result ≡ (record { atoms = 0; added = []; spent = false }) }
    {
        Plain {
            alloc,
            atoms: 0,
            added: LitLists::new(alloc),
            spent: false,
        }
    }
}

impl Solver for Plain {
    ghost atoms = { λ s. s.atoms };

    ghost added = { λ s. s.added };

    ghost spent = { λ s. s.spent };

    fn new_atom(&mut self) -> Result<usize, Memory> {
        if self.spent || self.atoms == usize::MAX {
            self.spent = true;
            return Err(Memory);
        }
        let atom = self.atoms;
        self.atoms += 1;
        Ok(atom)
    }

    fn add(&mut self, clause: &[Lit]) -> Result<usize, Memory> {
        if self.spent {
            return Err(Memory);
        }
        match add_clause(self.alloc, &mut self.added, clause) {
            Ok(()) => Ok(self.added.len()),
            Err(error) => {
                self.spent = true;
                Err(error)
            }
        }
    }

    fn solve(&mut self, assumptions: &[Lit]) -> Result<Answer, Memory> {
        if self.spent {
            return Err(Memory);
        }
        match decide(self.alloc, self.atoms, self.added.as_slice(), assumptions) {
            Ok(answer) => Ok(answer),
            Err(error) => {
                self.spent = true;
                Err(error)
            }
        }
    }
}
