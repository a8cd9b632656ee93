// The lines around the items, at the front of what is left of a text.
ghost use Rattle.std.specs.Prelude.{◌≡◌, ◌≢◌, ◌++◌, ◌∷◌, ◌≤◌, ℕ, List, [], Bool, length, false, IsTrue, IfSome, IfNone, codes, decimal};
ghost use Rattle.std.specs.List.{list_all};
ghost use Rattle.std.specs.Char.{is_ascii_digit};
ghost use Rattle.inst_logic.specs.Printing.{is_readable_name};
ghost use Rattle.cert_format.specs.Formats.{is_known};
ghost use Rattle.cert_format.specs.Names.{IsNameText};
ghost use Rattle.cert_format.specs.Runs.{run};
ghost use Rattle.cert_format.specs.LineMachine as lines;
ghost use Rattle.cert_format.specs.LineTexts.{line, is_text_name};
ghost use Rattle.cert_format.specs.LineTexts as texts;
ghost use Rattle.cert_reader.specs.Reads.{format_line, IsOtherFormat};
ghost use Rattle.cert_reader.specs.Starts.{NoFormat};
ghost use Rattle.inst_logic.specs.Codes as byte;

use cert_items::mark::{mark, word};
use cert_items::name::name;
use cert_items::number::digits_len;

fn is_name_byte(byte: u8) -> bool
    ensures { result ≡ texts.is_name_byte byte }
{
    b' ' <= byte && byte != 127
}

// How many bytes at the front may stand in the name of a text.
fn name_len(bytes: &[u8]) -> usize
    ensures is { result ≡ run texts.is_name_byte bytes.now }
    ensures within { result ≤ length bytes.now }
{
    let mut n = 0;
    while n < bytes.len() && is_name_byte(bytes[n]) {
        n += 1;
    }
    n
}

// The name that stands up to the end of the line, and what follows the line.
fn text_name(bytes: &[u8]) -> Option<(&[u8], &[u8])>
    ensures some { IfSome result (λ r. (bytes.now ≡ r.0.now ++ byte.line_feed ∷ r.1.now) × IsTrue (is_text_name r.0.now)) }
    ensures none { IfNone result ((n rest : List ℕ) → IsTrue (is_text_name n) → bytes.now ≢ n ++ byte.line_feed ∷ rest) }
{
    let (name, after) = bytes.split_at(name_len(bytes));
    if name.is_empty() || name.len() > 4096 {
        return None;
    }
    match mark(after, b'\n') {
        None => None,
        Some(rest) => Some((name, rest)),
    }
}

// The name behind the words, up to the end of the line, and what follows the line.
fn name_behind<'a>(words: &[u8], bytes: &'a [u8]) -> Option<(&'a [u8], &'a [u8])>
    ensures some { IfSome result (λ r. (bytes.now ≡ words.now ++ (r.0.now ++ byte.line_feed ∷ r.1.now)) × IsTrue (is_text_name r.0.now)) }
    ensures none { IfNone result ((n rest : List ℕ) → IsTrue (is_text_name n) → bytes.now ≢ words.now ++ (n ++ byte.line_feed ∷ rest)) }
{
    match word(bytes, words) {
        None => None,
        Some(after) => text_name(after),
    }
}

/// Whether the status at the front is a refutation's, its name, and what follows the line.
pub fn status(bytes: &[u8]) -> Option<(bool, &[u8], &[u8])>
    ensures some { IfSome result (λ r. (bytes.now ≡ line (lines.status r.0 r.1.now) r.2.now) × IsTrue (is_text_name r.1.now)) }
    ensures none { IfNone result ((r : Bool) (n rest : List ℕ) → IsTrue (is_text_name n) → bytes.now ≢ line (lines.status r n) rest) }
{
    match name_behind(b"% SZS status Unsatisfiable for ", bytes) {
        Some((name, rest)) => Some((true, name, rest)),
        None => match name_behind(b"% SZS status Satisfiable for ", bytes) {
            Some((name, rest)) => Some((false, name, rest)),
            None => None,
        },
    }
}

// What follows the line of these words and this name.
fn about<'a>(words: &[u8], name: &[u8], bytes: &'a [u8]) -> Option<&'a [u8]>
    ensures some { IfSome result (λ rest. bytes.now ≡ words.now ++ (name.now ++ byte.line_feed ∷ rest.now)) }
    ensures none { IfNone result ((rest : List ℕ) → bytes.now ≢ words.now ++ (name.now ++ byte.line_feed ∷ rest)) }
{
    match word(bytes, words) {
        None => None,
        Some(after) => match word(after, name) {
            None => None,
            Some(behind) => mark(behind, b'\n'),
        },
    }
}

/// What follows the line in which the output starts, under this name.
pub fn opening<'a>(refutation: bool, name: &[u8], bytes: &'a [u8]) -> Option<&'a [u8]>
    ensures some { IfSome result (λ rest. bytes.now ≡ line (lines.opening refutation name.now) rest.now) }
    ensures none { IfNone result ((rest : List ℕ) → bytes.now ≢ line (lines.opening refutation name.now) rest) }
{
    if refutation {
        about(b"% SZS output start CNFRefutation for ", name, bytes)
    } else {
        about(b"% SZS output start Saturation for ", name, bytes)
    }
}

// What follows the line in which the output ends, under this name.
fn ending<'a>(refutation: bool, name: &[u8], bytes: &'a [u8]) -> Option<&'a [u8]>
    ensures some { IfSome result (λ rest. bytes.now ≡ line (lines.closing refutation name.now) rest.now) }
    ensures none { IfNone result ((rest : List ℕ) → bytes.now ≢ line (lines.closing refutation name.now) rest) }
{
    if refutation {
        about(b"% SZS output end CNFRefutation for ", name, bytes)
    } else {
        about(b"% SZS output end Saturation for ", name, bytes)
    }
}

/// What follows the line in which the output ends, under this name. The first byte tells other lines from it.
pub fn closing<'a>(refutation: bool, name: &[u8], bytes: &'a [u8]) -> Option<&'a [u8]>
    ensures some { IfSome result (λ rest. bytes.now ≡ line (lines.closing refutation name.now) rest.now) }
    ensures none { IfNone result ((rest : List ℕ) → bytes.now ≢ line (lines.closing refutation name.now) rest) }
{
    match bytes {
        [b'%', ..] => ending(refutation, name, bytes),
        _ => None,
    }
}

/// The digits of the format's number, however many, and what follows the line.
pub fn format(bytes: &[u8]) -> Option<(&[u8], &[u8])>
    ensures some { IfSome result (λ r. bytes.now ≡ format_line r.0.now r.1.now) }
    ensures digits { IfSome result (λ r. IsTrue (list_all is_ascii_digit r.0.now)) }
    ensures none { IfNone result (NoFormat bytes.now) }
{
    match word(bytes, b"% instgen certificate ") {
        None => None,
        Some(after) => {
            let (digits, behind) = after.split_at(digits_len(after));
            match mark(behind, b'\n') {
                None => None,
                Some(rest) => Some((digits, rest)),
            }
        }
    }
}

// Whether this is the digit alone.
fn is_digit(digits: &[u8], digit: u8) -> bool
    ensures yes { IsTrue result → digits.now ≡ digit ∷ [] }
    ensures no { result ≡ false → digits.now ≢ digit ∷ [] }
{
    match digits {
        [] => false,
        [first, rest @ ..] => *first == digit && rest.is_empty(),
    }
}

/// The format of which these digits are the number, where it is one that is read.
pub fn format_of(digits: &[u8]) -> Option<u64>
    ensures some { IfSome result (λ format. (digits.now ≡ decimal format) × IsTrue (is_known format)) }
    ensures none { IfNone result ((format : ℕ) → IsTrue (is_known format) → digits.now ≢ decimal format) }
{
    if is_digit(digits, b'1') {
        Some(1)
    } else if is_digit(digits, b'2') {
        Some(2)
    } else if is_digit(digits, b'3') {
        Some(3)
    } else {
        None
    }
}

/// Whether these digits are the number of a format that is not read.
pub fn is_other_format(digits: &[u8]) -> bool
    requires digits { IsTrue (list_all is_ascii_digit digits.now) }
    ensures yes { IsTrue result → IsOtherFormat digits.now }
    ensures no { result ≡ false → ¬ IsOtherFormat digits.now }
{
    match digits {
        [] => false,
        [first, ..] => *first != b'0' && digits.len() <= 18 && format_of(digits).is_none(),
    }
}

/// The name of the constant as it is printed, and what follows the line.
pub fn constant(bytes: &[u8]) -> Option<(&[u8], &[u8])>
    ensures some { IfSome result (λ r. (bytes.now ≡ codes "% ground constant " ++ (r.0.now ++ byte.line_feed ∷ r.1.now)) × IsNameText r.0.now) }
    ensures none { IfNone result ((c rest : List ℕ) → IsTrue (is_readable_name c) → bytes.now ≢ line (lines.constant c) rest) }
{
    match word(bytes, b"% ground constant ") {
        None => None,
        Some(after) => match name(after) {
            None => None,
            Some((text, behind)) => match mark(behind, b'\n') {
                None => None,
                Some(rest) => Some((text, rest)),
            },
        },
    }
}
