//! Worked finite models and cores, from small texts: what the calls make of clauses that are read. They stand here and not beside
//! what they test, since no reader stands below those crates.
#![tactic(auto)]

#[cfg(test)]
mod cores;
#[cfg(test)]
mod models;
