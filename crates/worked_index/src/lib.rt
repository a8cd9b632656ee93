//! What worked examples of the indexes are built of: an index that refuses, and rows that both kinds are to answer.
#![tactic(auto)]

pub mod building;
pub mod partners;
pub mod refusing;

pub use refusing::Refusing;
