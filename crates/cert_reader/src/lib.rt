//! The texts of certificates: bytes to a certificate over a bank of its own, line by line, in one pass and without recursion. A
//! text is read exactly where it is the one text of a printable certificate; otherwise the first line that cannot stand there is
//! named.
#![tactic(auto)]

mod body;
pub mod certificate;
pub mod error;
mod groups;
pub mod laws;
mod lines;
mod next;
mod read;
mod start;

pub use certificate::{Certificate, ReadCert};
pub use error::CertError;
pub use laws::readings_are_one;
pub use read::read_certificate;
