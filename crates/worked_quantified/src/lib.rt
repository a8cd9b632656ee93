//! Worked rows of quantified Boolean formulas, as tests: what texts are read as or why they are not read, and the problems of
//! formulas. They stand here and not beside what they test, since a crate with tests is proved once more with them.
#![tactic(auto)]

#[cfg(test)]
mod formulas;
#[cfg(test)]
mod limits;
#[cfg(test)]
mod problems;
#[cfg(test)]
mod tables;
