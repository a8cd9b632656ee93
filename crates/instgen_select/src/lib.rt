//! The two choices of an engine: the literal of a clause that is selected, and the entry that is worked next. Neither needs a
//! term: clauses are over numbered atoms here, and entries are numbers with sizes.
#![tactic(auto)]

mod choice;
mod passive;
mod queue;
mod rounds;
mod slots;
#[cfg(test)]
mod tests;
mod turns;

pub use choice::{choose, choose_among};
pub use passive::Passive;
pub use queue::Queue;
pub use turns::{Arrival, Turns};
