//! Minimal cores: refuted sub-lists of clauses of which no clause can be spared (Bruni, Approximating minimal unsatisfiable
//! subformulae by means of adaptive core search, 2003). They are found by deletion, and each refutation drops at once what it
//! doesn't cite (Dershowitz, Hanna and Nadel, A scalable algorithm for minimal unsatisfiable core extraction, 2006). The
//! definitions stand in `specs/`, and the theorems are the contracts of public functions with empty bodies.
#![tactic(auto)]

mod deletion;
pub mod examples;
mod laws;
mod sub_lists;
mod verdict;

pub use deletion::{SubListTest, core_places};
pub use laws::{
    core_is_minimal, deletion_begins, deletion_drops, deletion_ends, deletion_keeps,
    deletion_shrinks, needed_is_cited,
};
pub use sub_lists::{axioms_of_sub_list, refuted_when_grown, satisfiable_when_shrunk};
pub use verdict::Verdict;
