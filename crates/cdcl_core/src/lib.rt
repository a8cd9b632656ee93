//! A solver that learns a clause from each conflict and keeps what it learned from one question to the next
//! (Marques-Silva and Sakallah, GRASP, 1999; Moskewicz and others, Chaff, 2001; Eén and Sörensson, An extensible
//! SAT-solver, 2003).
#![tactic(auto)]

mod activity;
mod analysis;
mod cdcl;
mod clause_activity;
mod cut;
mod fresh_start;
mod learned;
mod log;
mod memo;
mod names;
mod packed_hint;
mod phases;
mod places;
mod probing;
mod reasons;
mod redundancy;
mod restart;
mod search;
mod seen;
mod settings;
mod steps;
mod units;

pub use cdcl::Cdcl;
