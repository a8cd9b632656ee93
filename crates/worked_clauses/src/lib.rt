//! Worked certificates, mostly built from texts: what the checker and the truth test say of them. They stand here and not
//! beside the checker, which is proved without a reader.
#![tactic(auto)]

#[cfg(test)]
mod answers;
#[cfg(test)]
mod building;
#[cfg(test)]
mod judging;
#[cfg(test)]
mod reading;
#[cfg(test)]
mod shared;
#[cfg(test)]
mod tables;
#[cfg(test)]
mod tests;
