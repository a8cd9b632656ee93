//! Worked rows of the crates that read problems, words and certificates, print clauses and answer propositional ones, as tests.
//! They stand here and not beside what they test, since a crate with tests is proved once more with them.
#![tactic(auto)]

#[cfg(test)]
mod atoms;
#[cfg(test)]
mod axiom_lists;
#[cfg(test)]
mod calls;
#[cfg(test)]
mod certificates;
#[cfg(test)]
mod clauses;
#[cfg(test)]
mod counts;
#[cfg(test)]
mod devices;
#[cfg(test)]
mod dimacs;
#[cfg(test)]
mod files;
#[cfg(test)]
mod loading;
#[cfg(test)]
mod statements;
#[cfg(test)]
mod tables;
#[cfg(test)]
mod token_kinds;
#[cfg(test)]
mod words;
