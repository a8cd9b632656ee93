//! The items of a certificate's text: bytes to clauses over a bank, with what stands behind them. Each reader finds what is at the
//! front of the text exactly where something printable is there in its one spelling, in one pass and without recursion.
#![tactic(auto)]

mod by;
mod canonical;
mod clause;
pub mod group;
mod hint_list;
pub mod item;
pub mod item_reader;
mod literals;
pub mod mark;
pub mod name;
pub mod note;
mod notes;
pub mod number;
mod number_list;
mod order;
mod origin;
mod place;
mod printable;
mod recent;
pub mod shape;
pub mod symbol;
mod term_list;
mod terms;
mod text_bank;

pub use group::Group;
pub use item::{Item, read_item};
pub use item_reader::ItemReader;
pub use note::Note;
pub use shape::TextShape;
