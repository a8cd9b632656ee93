// The texts of checked certificates. Each is made whole in memory before its first byte is written anywhere: where memory is
// refused there is no text that breaks off.
ghost use Rattle.std.specs.Prelude.{◌≡◌, IfOk};
ghost use Rattle.cert_format.specs.Certificate.{covered, refutation};
ghost use Rattle.cert_format.specs.Printable.{HasPrintableParts, IsTextName};
ghost use Rattle.cert_format.specs.Text.{written_text};
ghost use Rattle.cert_format.specs.ValueLines.{IsCertificateText};
ghost use Rattle.cert_values.specs.Values.{covered_of, refutation_of};

use crate::pen::Pen;
use crate::whole::{push_covered, push_refutation};
use cert_check::{CheckedCovered, CheckedRefutation};
use cert_values::{covered_numbers, refutation_numbers};
use inst_logic::{ByteList, Memory};
use std::alloc::Global;

/// The text of the refutation under this name, in the format in which certificates are written.
pub fn refutation_text(
    alloc: Global,
    name: &[u8],
    c: &CheckedRefutation,
) -> Result<ByteList, Memory>
    ensures text { IfOk result (λ text. text ≡ written_text name.now (refutation (refutation_of c.now))) }
    ensures taken { IsTextName name.now → HasPrintableParts (refutation (refutation_of c.now)) → IfOk result IsCertificateText }
{
    let cert = c.cert();
    refutation_numbers(cert);
    let mut pen = Pen::new(alloc);
    push_refutation(&mut pen, name, cert)?;
    Ok(pen.into_text())
}

/// The text of the saturation with its covers under this name, in the format in which certificates are written.
pub fn covered_text(alloc: Global, name: &[u8], c: &CheckedCovered) -> Result<ByteList, Memory>
    ensures text { IfOk result (λ text. text ≡ written_text name.now (covered (covered_of c.now))) }
    ensures taken { IsTextName name.now → HasPrintableParts (covered (covered_of c.now)) → IfOk result IsCertificateText }
{
    let cert = c.cert();
    covered_numbers(cert);
    let mut pen = Pen::new(alloc);
    push_covered(&mut pen, name, cert)?;
    Ok(pen.into_text())
}
