// The texts of the certificates that the checker accepted, under a file's name. Each certificate is let go where its text is made,
// so that one function owns it, and by a call: where its scope ends, the proof takes long.
ghost use Rattle.std.specs.Prelude.{◌≡◌, IfOk};
ghost use Rattle.cert_format.specs.Text.{written_text};
ghost use Rattle.cert_front.specs.Kinds.{covered_value, refutation_value};

use cert_check::{CheckedCovered, CheckedRefutation};
use cert_text::{covered_text, refutation_text};
use inst_logic::{ByteList, Memory};
use std::alloc::Global;

/// The text of a refutation.
pub fn refutation_text_of(
    alloc: Global,
    file: &str,
    cert: CheckedRefutation,
) -> Result<ByteList, Memory>
    ensures { IfOk result (λ text. text ≡ written_text file.now (refutation_value cert)) }
{
    let text = refutation_text(alloc, file.as_bytes(), &cert);
    drop(cert);
    text
}

/// The text of a saturation with its covers.
pub fn saturation_text_of(
    alloc: Global,
    file: &str,
    cert: CheckedCovered,
) -> Result<ByteList, Memory>
    ensures { IfOk result (λ text. text ≡ written_text file.now (covered_value cert)) }
{
    let text = covered_text(alloc, file.as_bytes(), &cert);
    drop(cert);
    text
}
