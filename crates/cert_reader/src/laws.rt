// Laws of reading: a text is read as one thing, whoever reads it.
ghost use Rattle.std.specs.Prelude.{◌≡◌, ℕ, List};
ghost use Rattle.cert_format.specs.ValueLines.{IsCertificateText};
ghost use Rattle.cert_reader.specs.Reads.{IsVersion};

use cert_format::texts_are_one;

/// A text names at most one format that is not read, and where it names one it is no certificate's. That a text is the text of at most one
/// certificate is a law of certificates.
pub fn readings_are_one()
    ensures versions { (text v w : List ℕ) → IsVersion text v → IsVersion text w → v ≡ w }
    ensures apart { (text word : List ℕ) → IsVersion text word → ¬ IsCertificateText text }
{
    texts_are_one();
}
