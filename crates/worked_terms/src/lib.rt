//! Worked terms: what the bank, unification, the calls on clauses and the indexes answer for clauses that are read from small
//! texts. They stand here and not beside what they test, since a crate with tests is proved once more with them, and since no
//! reader stands below those crates.
#![tactic(auto)]

#[cfg(test)]
mod abstractions;
#[cfg(test)]
mod building;
#[cfg(test)]
mod clauses;
#[cfg(test)]
mod conclusions;
#[cfg(test)]
mod indexes;
#[cfg(test)]
mod tables;
#[cfg(test)]
mod terms;
#[cfg(test)]
mod unification;
