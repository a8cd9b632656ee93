//! What the words of the command line ask. `clap` splits them, as one simple command for each command word, and takes every
//! value as text; what a value may be is judged here.
#![tactic(auto)]

mod commands;
pub mod examples;
mod judges;
pub mod laws;
mod matched;
mod request;

pub use request::{Request, read_words};
