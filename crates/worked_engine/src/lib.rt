//! Worked runs of the engine: small problems, each with how a run on it ends and with clauses that its certificate has. They
//! stand here and not beside the engine, which is proved without a reader, a solver or an index.
#![tactic(auto)]

#[cfg(test)]
mod engines;
#[cfg(test)]
mod outcomes;
#[cfg(test)]
mod problems;
#[cfg(test)]
mod tests;
