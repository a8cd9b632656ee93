//! One inference: what two members conclude under the most general unifier of two of their literals, and whether a clause is that.
//! A clause is compared with the conclusion first, which is built only where that doesn't decide.
#![tactic(auto)]

mod comparison;
mod equal;
mod inference;
mod instance;
mod rooms;

pub use comparison::{Comparison, is_instance};
pub use equal::{same_clause, same_trees};
pub use inference::{Claim, Premises, conclusion, literal_at, members_give, numbered_item};
pub use instance::Instance;
pub use rooms::PairRoom;
