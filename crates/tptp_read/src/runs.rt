// Classes of bytes, and runs of one class. A run is a count: tokens are slices of the text, and nothing is copied.
ghost use Rattle.std.specs.Prelude.{◌≡◌, ◌≤◌, length, false, true, IfSome};
ghost use Rattle.std.specs.Char.{is_ascii_digit};
ghost use Rattle.tptp_read.specs.Bytes.{is_word_byte, is_sign, is_blank, is_no_line_feed, is_printed, is_mark, run, closing, comment_end};

pub(crate) fn is_word_byte(b: u8) -> bool
    ensures { result ≡ is_word_byte b }
{
    b.is_ascii_alphanumeric() || b == b'_'
}

pub(crate) fn is_sign(b: u8) -> bool
    ensures { result ≡ is_sign b }
{
    b == b'+' || b == b'-'
}

pub(crate) fn is_blank(b: u8) -> bool
    ensures { result ≡ is_blank b }
{
    (b'\t' <= b && b <= b'\r') || b == b' '
}

pub(crate) fn is_printed(b: u8) -> bool
    ensures { result ≡ is_printed b }
{
    b' ' <= b && b <= b'~'
}

pub(crate) fn is_mark(b: u8) -> bool
    ensures { result ≡ is_mark b }
{
    b == b'('
        || b == b')'
        || b == b','
        || b == b'.'
        || b == b':'
        || b == b'='
        || b == b'['
        || b == b']'
        || b == b'|'
        || b == b'~'
}

// How many bytes at the front belong to a word.
pub(crate) fn word_len(bytes: &[u8]) -> usize
    ensures is { result ≡ run is_word_byte bytes.now }
    ensures within { result ≤ length bytes.now }
{
    let mut n = 0;
    while n < bytes.len() && is_word_byte(bytes[n]) {
        n += 1;
    }
    n
}

// How many digits are at the front.
pub(crate) fn digits_len(bytes: &[u8]) -> usize
    ensures is { result ≡ run is_ascii_digit bytes.now }
    ensures within { result ≤ length bytes.now }
{
    let mut n = 0;
    while n < bytes.len() && bytes[n].is_ascii_digit() {
        n += 1;
    }
    n
}

// How many bytes come before the line's end.
pub(crate) fn line_len(bytes: &[u8]) -> usize
    ensures is { result ≡ run is_no_line_feed bytes.now }
    ensures within { result ≤ length bytes.now }
{
    let mut n = 0;
    while n < bytes.len() && bytes[n] != b'\n' {
        n += 1;
    }
    n
}

// How many bytes up to and including the closing mark.
pub(crate) fn closing(bytes: &[u8], mark: u8) -> Option<usize>
    ensures is { result ≡ closing mark false bytes.now }
    ensures within { IfSome result (λ n. n ≤ length bytes.now) }
{
    let mut escaped = false;
    let mut n = 0;
    while n < bytes.len() {
        let b = bytes[n];
        n += 1;
        if escaped {
            if b != mark && b != b'\\' {
                return None;
            }
            escaped = false;
        } else {
            if b == mark {
                return Some(n);
            }
            if !is_printed(b) {
                return None;
            }
            escaped = b == b'\\';
        }
    }
    None
}

// How many bytes up to and including the first `*/`.
pub(crate) fn comment_end(bytes: &[u8]) -> Option<usize>
    ensures is { result ≡ comment_end false bytes.now }
    ensures within { IfSome result (λ n. n ≤ length bytes.now) }
{
    let mut star = false;
    let mut n = 0;
    while n < bytes.len() {
        let b = bytes[n];
        n += 1;
        if star && b == b'/' {
            return Some(n);
        }
        star = b == b'*';
    }
    None
}
