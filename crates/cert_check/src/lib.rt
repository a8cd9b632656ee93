//! The separate checker of certificates. It uses no crate of an engine and no solver, and no index but its own (`cert_index`).
//! What it finds is decided by the certificate alone, and its contract by definitions that say nothing of how a certificate
//! is found.
#![tactic(auto)]

mod axioms;
mod base;
mod compare;
pub mod covered;
mod covering;
mod difference;
mod due_side;
pub mod error;
pub mod first;
mod grounds;
mod inputs;
mod made;
mod naming;
mod origin;
mod part;
mod places;
pub mod refutation;
mod rooms;
pub mod saturation;
mod seen;
mod shown;
mod source;
mod steps;
mod upgrading;
mod walk;

pub use cert_format::Complaint;
pub use cert_inference::same_clause;
pub use covered::{CheckedCovered, check_covered, cover};
pub use error::CheckError;
pub use first::{CheckedFirst, check_first};
pub use refutation::{CheckedRefutation, check_refutation};
pub use saturation::{CheckedSaturation, check_saturation};
pub use upgrading::upgrade;
