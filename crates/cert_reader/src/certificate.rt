// The certificate that a text gives, with its name and format.
use cert_values::{Covered, FirstRefutation, Refutation, Saturation};
use inst_logic::Name;

/// A certificate of any kind, as it was read; nobody has checked it.
#[derive(Drop)]
pub enum Certificate {
    /// A refutation of the first format.
    First(FirstRefutation),
    /// A refutation of the second or the third format.
    Refutation(Refutation),
    /// A saturation of the first or the second format.
    Saturation(Saturation),
    /// A saturation of the third format.
    Covered(Covered),
}

/// A certificate with the name and the number of the format that its text gives.
#[derive(Drop)]
pub struct ReadCert {
    pub name: Name,
    pub format: u64,
    pub cert: Certificate,
}
