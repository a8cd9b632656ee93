//! Worked rows of the top call, as tests over files and an output in memory: what is printed, and that memory, where there is
//! enough, gives answers.
#![tactic(auto)]

#[cfg(test)]
mod certificates;
#[cfg(test)]
mod chains;
#[cfg(test)]
mod checks;
#[cfg(test)]
mod cores;
#[cfg(test)]
mod cuts;
#[cfg(test)]
mod faults;
#[cfg(test)]
mod further_rows;
#[cfg(test)]
mod long_rows;
#[cfg(test)]
mod refused_texts;
#[cfg(test)]
mod refutations;
#[cfg(test)]
mod rows;
#[cfg(test)]
mod runs;
#[cfg(test)]
mod scarce;
#[cfg(test)]
mod tables;
