//! Quantified Boolean formulas decided by instances: the problem of a formula, and what its certificates say of the formula.
#![tactic(auto)]

mod atoms;
mod certified;
mod clauses;
pub mod examples;
mod problem;

pub use certified::answers_from_certificates;
pub use problem::problem_of;
