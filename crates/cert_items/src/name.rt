// Names as they are printed: bare, or in quotes.
ghost use Rattle.std.specs.Prelude.{◌≡◌, ◌≢◌, ◌++◌, ◌<◌, ◌≤◌, ℕ, List, [], length, false, IsTrue, IfSome, IfNone};
ghost use Rattle.std.specs.List.{list_all};
ghost use Rattle.inst_logic.specs.Printing as printing;
ghost use Rattle.inst_logic.specs.Printing.{is_word_byte, is_readable_name, name_text};
ghost use Rattle.cert_format.specs.Runs.{run, begins, Ends};
ghost use Rattle.cert_format.specs.Names.{closing, name_len, IsNameText};
ghost use Rattle.inst_logic.specs.Codes as character;

fn is_lower(byte: u8) -> bool
    ensures { result ≡ printing.is_lower byte }
{
    b'a' <= byte && byte <= b'z'
}

pub fn is_word_byte(byte: u8) -> bool
    ensures { result ≡ is_word_byte byte }
{
    is_lower(byte) || b'A' <= byte && byte <= b'Z' || b'0' <= byte && byte <= b'9' || byte == b'_'
}

fn is_printed(byte: u8) -> bool
    ensures { result ≡ printing.is_between character.space character.tilde byte }
{
    b' ' <= byte && byte <= b'~'
}

// How many bytes at the front belong to a word.
fn word_len(bytes: &[u8]) -> usize
    ensures is { result ≡ run is_word_byte bytes.now }
    ensures within { result ≤ length bytes.now }
{
    let mut n = 0;
    while n < bytes.len() && is_word_byte(bytes[n]) {
        n += 1;
    }
    n
}

fn begins_word(bytes: &[u8]) -> bool
    ensures { result ≡ begins is_word_byte bytes.now }
{
    match bytes {
        [] => false,
        [first, ..] => is_word_byte(*first),
    }
}

// How many bytes of a quoted name come up to and including the closing quote.
fn closing(bytes: &[u8]) -> Option<usize>
    ensures is { result ≡ closing false bytes.now }
    ensures within { IfSome result (λ n. n ≤ length bytes.now) }
{
    let mut escaped = false;
    let mut n = 0;
    while n < bytes.len() {
        let b = bytes[n];
        n += 1;
        if escaped {
            if b != b'\'' && b != b'\\' {
                return None;
            }
            escaped = false;
        } else {
            if b == b'\'' {
                return Some(n);
            }
            if !is_printed(b) {
                return None;
            }
            escaped = b == b'\\';
        }
    }
    None
}

fn are_word_bytes(bytes: &[u8]) -> bool
    ensures { result ≡ list_all is_word_byte bytes.now }
{
    for byte in bytes {
        if !is_word_byte(*byte) {
            return false;
        }
    }
    true
}

// Whether this is a lower word.
pub fn is_lower_word(bytes: &[u8]) -> bool
    ensures { result ≡ printing.is_lower_word bytes.now }
{
    match bytes {
        [] => false,
        [first, rest @ ..] => is_lower(*first) && are_word_bytes(rest),
    }
}

// How many bytes the name at the front has as it is printed, and 0 where there is none.
fn name_len(bytes: &[u8]) -> usize
    ensures is { result ≡ name_len bytes.now }
    ensures within { result ≤ length bytes.now }
{
    match bytes {
        [] => 0,
        [b'\'', rest @ ..] => match closing(rest) {
            None => 0,
            Some(n) => {
                let content = &rest[..n - 1];
                if content.is_empty() || is_lower_word(content) {
                    0
                } else {
                    n + 1
                }
            }
        },
        [first, rest @ ..] => {
            if is_lower(*first) {
                word_len(rest) + 1
            } else {
                0
            }
        }
    }
}

/// The name at the front as it is printed, and what follows it, which is no byte of a word.
pub fn name(bytes: &[u8]) -> Option<(&[u8], &[u8])>
    ensures some { IfSome result (λ r. (bytes.now ≡ r.0.now ++ r.1.now) × IsNameText r.0.now × Ends is_word_byte r.1.now) }
    ensures none { IfNone result ((n rest : List ℕ) → IsTrue (is_readable_name n) → Ends is_word_byte rest → bytes.now ≢ name_text n ++ rest) }
{
    let (text, rest) = bytes.split_at(name_len(bytes));
    if text.is_empty() || begins_word(rest) {
        return None;
    }
    Some((text, rest))
}
