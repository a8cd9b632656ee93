//! The engine: a saturation loop over instances (Ganzinger and Korovin, New directions in instantiation-based theorem proving,
//! 2003), generic over its solver and its indexes. It solves the abstractions of its entries, selects a true literal of each,
//! and works the entries whose literals changed with all others, until the abstractions are refuted, nothing is open any more,
//! or the budget is spent. The run and its steps are those of `instgen_run`; here it begins, makes its steps in turn, and ends with
//! a certificate.
#![tactic(auto)]

mod bounds;
mod choices;
mod cycle;
mod derived;
mod ending;
mod finish;
mod first_values;
mod hand_over;
pub mod laws;
mod line_numbers;
mod lines;
mod outcome;
mod part_terms;
mod records;
mod refuted;
mod start;
mod steps;
mod task;

pub use choices::Choices;
pub use instgen_run::{Event, FlipList, Journal};
pub use outcome::{Outcome, run, run_with};
