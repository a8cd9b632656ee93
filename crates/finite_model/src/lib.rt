//! Finite models (McCune, A Davis-Putnam program and its application to finite first-order model search, 1994; Claessen and
//! Sörensson, New techniques that improve MACE-style finite model finding, 2003). Clauses have a model with k elements exactly
//! where their flattened form, which has no function symbols but the constants for the elements, is satisfiable. `flatten` makes
//! it, and `read_tables` reads a model off a truth test of it. The theorems are the contracts of public functions with empty
//! bodies.
#![tactic(auto)]

mod cell_reading;
mod clauses;
pub mod examples;
mod flattening;
mod graph;
mod models;
mod numbering;
mod places;
mod problem;
mod reading;
mod rows;
mod table_reading;
mod tables;
mod width;

pub use cell_reading::TruthTest;
pub use flattening::{flattened_form, flattened_is_named};
pub use models::{
    cells_are_counted, model_that_is_read, no_model_where_refuted, one_value_is_read,
};
pub use problem::flatten;
pub use reading::{cells_in_order, filled_is_read, model_exists};
pub use rows::row_at;
pub use table_reading::read_tables;
pub use tables::{Table, TableList, Tables};
pub use width::is_too_wide;
