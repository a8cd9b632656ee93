//! The checker's index of a certificate's members, made from the certificate alone: which members can have selected literals that
//! unify, and which shorter member subsumes a clause. What it leaves out is proved to be neither, so nobody who uses it needs to
//! know how it looks.
#![tactic(auto)]

mod buckets;
mod covers;
mod fingerprint;
mod lengths;
mod links;
mod lookup;
mod meetings;
mod narrow;
mod partners;

pub use covers::shorter_place;
pub use lookup::{Lookup, clause_copy, find_lookup};
pub use meetings::{Meetings, meetings_of};
