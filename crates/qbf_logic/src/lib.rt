//! Quantified Boolean formulas, and clauses without function symbols that say the same. The definitions stand in `specs/`, and
//! the theorems are the contracts of public functions with empty bodies.
#![tactic(auto)]

pub mod examples;
mod formulas;
mod measure;
mod quant;
mod scopes;
mod shape;
mod translation;

pub use formulas::{value_by_outer, value_of_matrix};
pub use measure::measure_of;
pub use quant::Quant;
pub use scopes::{Scope, Scopes, scopes_of};
pub use shape::{measure_is_size, translation_is_flat, translation_is_readable};
pub use translation::{
    false_where_refuted, instances_of_true, strategy_where_made, true_where_made,
};
