//! Interned terms and atoms: a bank stores each tree once, and equal trees have equal ids. So trees are compared in one step,
//! and an instance costs only the nodes that are new in it. No tree is taken out: an id serves as long as its bank.
#![tactic(auto)]

pub mod bank;
mod boxed_list;
pub mod id;
pub mod intern;
pub mod laws;
mod measure_list;
mod node;
mod store;
mod walk;

pub use bank::{Bank, Root, Shape};
pub use id::{IdClause, IdClauseList, IdLiteral, TermId, TermIdList};
