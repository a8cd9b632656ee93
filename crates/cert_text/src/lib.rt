//! The text of a certificate, written from its value into one growing list of bytes: no text of a part is made first, no
//! clause is copied, and terms that are shared are spelled out wherever they stand. What reads such a text is passed on, so that
//! who reads and writes names one crate.
#![tactic(auto)]

mod clauses;
mod lines;
mod listing;
mod lists;
mod pen;
mod text;
mod walk;
mod whole;

pub use cert_reader::{CertError, Certificate, ReadCert, read_certificate, readings_are_one};
pub use text::{covered_text, refutation_text};
