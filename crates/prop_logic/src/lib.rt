//! Propositional clauses over numbered atoms, the trait of their solvers, and a plain solver. An engine and a fast solver
//! meet in the trait alone, so each is proved without the other.
#![tactic(auto)]

mod bits;
mod core_of;
mod differences;
pub mod literal;
pub mod plain;
mod resolution;
mod search;
pub mod solver;
pub mod valuation;

pub use differences::changes;
pub use literal::{
    Derivation, Hint, HintList, Lit, LitList, LitLists, Step, cited_clause, complement, complements,
};
pub use plain::Plain;
pub use solver::{Answer, Solver, make_atoms};
pub use valuation::Valuation;
