//! The values of atoms by levels with their reasons, and unit propagation: the state of a solver that learns clauses
//! (Marques-Silva and Sakallah, GRASP, 1999; Eén and Sörensson, An extensible SAT-solver, 2003).
#![tactic(auto)]

mod arena;
pub mod clauses;
mod detach;
pub mod entry;
mod entry_table;
mod lists;
mod loose;
mod packed_pair;
mod packed_watch;
mod propagation;
mod scan;
pub mod trail;
mod values;
mod visit;
mod visit_list;
mod visit_trail;
mod watch;
mod watch_list;
mod watched_values;

pub use clauses::Clauses;
pub use entry::Entry;
pub use trail::Trail;
