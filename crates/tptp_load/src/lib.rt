//! From files to a problem: statements with includes expanded in place and selections applied. What a file gives is defined
//! by a recursion over the levels of includes, on a map of files; the order in which files are read shows only in which
//! refusal comes first.
#![tactic(auto)]

pub mod error;
mod file;
mod includes;
pub mod laws;
mod paths;
pub mod problem;
mod stated;

pub use error::LoadError;
pub use problem::load;
