//! Worked questions to the solvers, and worked calls on their trails. They stand here and not beside what they test, since a
//! crate with tests is proved once more with them.
#![tactic(auto)]

#[cfg(test)]
mod choices;
#[cfg(test)]
mod derivations;
#[cfg(test)]
mod questions;
#[cfg(test)]
mod tests;
#[cfg(test)]
mod trails;
#[cfg(test)]
mod valuations;
