//! Lists that take little room, for who keeps many of them: lists of which most have one item or none, lists in one flat list, and
//! clauses over numbered atoms in one.
#![tactic(auto)]

mod clauses;
mod lists;
mod literals;
mod packed;
mod pieces;
mod short;

pub use clauses::FlatClauses;
pub use lists::FlatLists;
pub use literals::Literals;
pub use packed::PackedLit;
pub use short::ShortList;

#[cfg(test)]
mod tests;
