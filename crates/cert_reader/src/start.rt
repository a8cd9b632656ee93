// The first three lines of a text.
ghost use Rattle.std.specs.Prelude.{◌≡◌, ℕ, List, IsTrue};
ghost use Rattle.cert_format.specs.LineMachine as lines;
ghost use Rattle.cert_format.specs.LineTexts.{line, is_text_name};
ghost use Rattle.cert_reader.specs.Starts.{IsStart};

use crate::lines::{format, format_of, is_other_format, opening, status};
use cert_items::TextShape;

/// How a text begins.
pub enum Start<'a> {
    /// As that of a certificate, of this shape, under this name; and what follows the first three lines.
    Begun(TextShape, &'a [u8], &'a [u8]),
    /// This line is the first that stands there in the text of no certificate.
    Bad(usize),
    /// As that of a certificate in a format that is not read, whose number has these digits.
    Other(&'a [u8]),
}

// What the third line says.
fn third<'a>(refutation: bool, name: &'a [u8], bytes: &'a [u8]) -> Start<'a>
    ensures { (text : List ℕ) → IsTrue (is_text_name name.now) → text ≡ line (lines.status refutation name.now) (line (lines.opening refutation name.now) bytes.now) → IsStart text result }
{
    match format(bytes) {
        None => Start::Bad(3),
        Some((digits, rest)) => match format_of(digits) {
            Some(format) => Start::Begun(TextShape { refutation, format }, name, rest),
            None => {
                if is_other_format(digits) {
                    Start::Other(digits)
                } else {
                    Start::Bad(3)
                }
            }
        },
    }
}

/// How the text begins.
pub fn begin(text: &[u8]) -> Start<'_>
    ensures { IsStart text.now result }
{
    match status(text) {
        None => Start::Bad(1),
        Some((refutation, name, after)) => match opening(refutation, name, after) {
            None => Start::Bad(2),
            Some(behind) => third(refutation, name, behind),
        },
    }
}
