//! Clauses over a bank: canonical forms, variants, tautologies, subsumption and conclusions. Clauses are compared by the ids
//! of their atoms, since equal trees have equal ids; only subsumption and conclusions look into terms.
#![tactic(auto)]

mod clashes;
pub mod compare;
pub mod complements;
pub mod conclusion;
pub mod laws;
mod literals;
mod order;
mod renumber;
mod subsuming;
pub mod subsumption;
mod terms;
mod walk;

pub use compare::{clause_size, greatest_variable, tautology, variant};
pub use complements::long_tautology;
pub use conclusion::{Conclusion, conclude, conclude_clause, under};
pub use renumber::canonical;
pub use subsuming::subsuming_terms;
pub use subsumption::subsumes;
pub use terms::terms_under;
pub use walk::Workspace;
