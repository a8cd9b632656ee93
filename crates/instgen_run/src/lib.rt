//! A run of the engine: its entries, what it selects of each, the queue of those that wait, and its steps. A step works an entry
//! with its partners, appends what they conclude where the entries do not cover it, or solves the abstractions and selects anew.
//! How a run begins and ends, and in which order it makes its steps, is told by `instgen_loop`.
#![tactic(auto)]

mod ask;
mod entries;
mod event;
mod event_log;
mod flips;
mod ground;
mod infer;
mod open_conclusions;
mod origin;
mod premises;
mod queue;
mod reselect;
mod scratch;
mod selection;
pub mod settle;
mod small;
mod state;
mod tested;
mod work;

pub use entries::Entries;
pub use event::{Event, FlipList, Journal};
pub use event_log::EventLog;
pub use ground::{Ground, add_entry, clause_after};
pub use infer::{kept_literals, literal_at};
pub use open_conclusions::decide;
pub use origin::{Origins, PackedOrigin, origin_of};
pub use premises::Premises;
pub use queue::{Partners, work_queue};
pub use scratch::Scratch;
pub use selection::Selection;
pub use state::{Run, append};
