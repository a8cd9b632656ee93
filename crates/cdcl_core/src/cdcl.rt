// The solver as its callers see it: the search, the restarts of the last question, the number of atoms, and whether memory was
// refused. Once it was, the search is never entered again, so nothing needs to be known of what a refused call left there.
ghost use Rattle.std.specs.Prelude.{◌≡◌, ◌≤◌, [], false};

use crate::restart::Restarts;
use crate::search::Search;
use crate::settings::Settings;
use inst_logic::Memory;
use prop_logic::{Answer, Lit, Solver};
use std::alloc::Global;
use std::marker::Model;

/// A solver that learns the clause of the first unique implication point from each conflict. What it learned and did not
/// forget, the values that it gave and the last values of the atoms stay from one question to the next, until the answers to
/// questions under assumptions have copied many steps: then it forgets all that it learned. There is room for 2^31 - 1 clauses
/// and as many steps, for 2^32 - 1 literals of clauses and as many of steps, and for 2^32 - 1 hints: beyond that it answers as
/// for want of memory.
#[derive(Drop)]
pub struct Cdcl {
    search: Search,
    restarts: Restarts,
    atoms: usize,
    spent: bool,
}

impl Model for Cdcl {
    ghost use Rattle.std.specs.Prelude.{◌≡◌, ◌-◌, false};
    ghost use Rattle.cdcl_core.specs.Solver.{State};

    ghost Value = { State };

    ghost use Rattle.cdcl_core.specs.Search.{IsIdle};

    ghost view = { λ s. record { atoms = s.atoms; added = s.search.log.added; spent = s.spent; restarts = 4096 - s.restarts.left } };

    ghost invariant = { λ s. s.spent ≡ false → IsIdle s.atoms s.search };
}

// A solver of these settings, without atoms and clauses.
fn with_settings(alloc: Global, settings: Settings) -> Cdcl
    ensures { result ≡ (record { atoms = 0; added = []; spent = false; restarts = 0 }) }
{
    Cdcl {
        search: Search::new(alloc, settings),
        restarts: Restarts::new(),
        atoms: 0,
        spent: false,
    }
}

impl Cdcl {
    /// A solver without atoms and clauses.
    pub fn new(alloc: Global) -> Self
        ensures { result ≡ (record { atoms = 0; added = []; spent = false; restarts = 0 }) }
    {
        with_settings(alloc, Settings::usual())
    }

    /// A solver for one question without assumptions that may take long: it first looks for literals that lead to a conflict by
    /// propagation alone, and learns that they are false.
    pub fn for_one_question(alloc: Global) -> Self
        ensures { result ≡ (record { atoms = 0; added = []; spent = false; restarts = 0 }) }
    {
        with_settings(
            alloc,
            Settings {
                probes: true,
                ..Settings::usual()
            },
        )
    }

    /// A solver that tries a new atom true first, where `new` tries it false; `prefer` tells it otherwise.
    pub fn true_first(alloc: Global) -> Self
        ensures { result ≡ (record { atoms = 0; added = []; spent = false; restarts = 0 }) }
    {
        with_settings(
            alloc,
            Settings {
                first_value: true,
                ..Settings::usual()
            },
        )
    }

    /// A solver that forgets all that it learned once answers have copied so many steps, before the next question under
    /// assumptions. `new` does so after 50,000, and 4 for each added clause.
    pub fn forgetting_after(alloc: Global, steps: usize) -> Self
        ensures { result ≡ (record { atoms = 0; added = []; spent = false; restarts = 0 }) }
    {
        with_settings(
            alloc,
            Settings {
                copied: steps,
                copied_each: 0,
                ..Settings::usual()
            },
        )
    }

    /// How often the search for the last answer began again from its assumptions.
    pub fn restarts(&self) -> u64
        ensures made { result ≡ self.now.restarts }
        ensures bounded { result ≤ 4096 }
    {
        self.restarts.restart_count()
    }
}

impl Solver for Cdcl {
    ghost atoms = { λ s. s.atoms };

    ghost added = { λ s. s.added };

    ghost spent = { λ s. s.spent };

    fn new_atom(&mut self) -> Result<usize, Memory> {
        if self.spent {
            return Err(Memory);
        }
        match self.search.new_atom() {
            Ok(atom) => {
                self.atoms = self.search.atoms();
                Ok(atom)
            }
            Err(error) => {
                self.spent = true;
                Err(error)
            }
        }
    }

    fn add(&mut self, clause: &[Lit]) -> Result<usize, Memory> {
        if self.spent {
            return Err(Memory);
        }
        match self.search.add(clause) {
            Ok(number) => Ok(number),
            Err(error) => {
                self.spent = true;
                Err(error)
            }
        }
    }

    fn solve(&mut self, assumptions: &[Lit]) -> Result<Answer, Memory> {
        if self.spent {
            return Err(Memory);
        }
        match self.search.answer(&mut self.restarts, assumptions) {
            Ok(answer) => Ok(answer),
            Err(error) => {
                self.spent = true;
                Err(error)
            }
        }
    }

    fn prefer(&mut self, atom: usize, value: bool) {
        if !self.spent {
            self.search.prefer(atom, value);
        }
    }

    // Each conflict is answered by a learned clause, but not the last of a question that is refuted.
    fn conflicts(&self) -> u64 {
        self.search.learned.conflicts
    }
}
