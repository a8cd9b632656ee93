//! The axioms of equality of a problem: reflexivity, symmetry, transitivity, and congruence for each symbol with arguments.
//! The calculus has no rules for equality, so these clauses stand beside the problem's, and their number grows with its
//! symbols.
#![tactic(auto)]

pub mod axioms;
pub mod congruence;
pub mod symbols;

pub use axioms::{axioms_from, axioms_of};
pub use symbols::{SymList, symbols_in};
