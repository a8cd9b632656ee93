// A run of the engine with the fast solver and the fast index, and the choices of the command `prove`.
ghost use Rattle.std.specs.Prelude.{IfOk};
ghost use Rattle.tptp_load.specs.Problems.{IsGoodProblem};

use crate::counting::{Counts, counts_of};
use cdcl_core::Cdcl;
use inst_logic::{Memory, Problem};
use instgen_loop::{Choices, Outcome, run_with};
use outside_io::Library;
use std::alloc::Global;
use term_index::Tree;
use tptp_load::load;

#[tactic(auto, using(std::proofs::lemmas::Grind::common_steps, worked_engine::proofs::Printable::printable_clauses, worked_engine::proofs::Printable::readable_names))]
fn outcome(alloc: Global, p: &Problem, budget: u32) -> Result<Option<Outcome>, Memory>
    requires { IsGoodProblem p.now }
{
    let choices = Choices {
        first_values: Some(Cdcl::new(alloc)),
        most_entries: None,
    };
    run_with(
        alloc,
        p,
        Cdcl::new(alloc),
        Cdcl::new(alloc),
        Cdcl::new(alloc),
        Tree::new(alloc),
        Tree::new(alloc),
        Tree::new(alloc),
        u64::from(budget),
        choices,
    )
}

// What the run had. It is let go by a call: where the end of a scope lets it go, that takes a minute to prove.
fn counts_in(outcome: Outcome) -> Counts {
    let counts = counts_of(&outcome);
    drop(outcome);
    counts
}

// What the run had, where it ended.
fn counts_where_ended(answer: Result<Option<Outcome>, Memory>) -> Option<Counts> {
    match answer {
        Ok(Some(outcome)) => Some(counts_in(outcome)),
        Ok(None) | Err(Memory) => None,
    }
}

// What a run on the problem had, which is let go.
fn counts_for(alloc: Global, p: Problem, budget: u32) -> Option<Counts>
    requires { IsGoodProblem p }
{
    let answer = outcome(alloc, &p, budget);
    counts_where_ended(answer)
}

/// What a run on the file had. Nothing comes where there is no such problem or the memory does not do.
pub fn counts_on<L: Library>(
    alloc: Global,
    files: &mut L,
    name: &str,
    budget: u32,
) -> Option<Counts> {
    match load(alloc, files, name, None) {
        Ok(p) => counts_for(alloc, p, budget),
        Err(_) => None,
    }
}
