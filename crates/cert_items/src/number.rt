// Numbers in decimal, without leading zeros.
ghost use Rattle.std.specs.Prelude.{◌≡◌, ◌≢◌, ◌++◌, ◌+◌, ◌-◌, ◌*◌, ◌∷◌, false, ◌<◌, ◌≤◌, ◌^◌, ℕ, List, length, take, IsTrue, IfSome, IfNone, decimal};
ghost use Rattle.std.specs.Char.{is_ascii_digit};
ghost use Rattle.cert_format.specs.Runs.{run, Ends};
ghost use Rattle.cert_format.specs.Digits.{value, is_plain};
ghost use Rattle.inst_logic.specs.Codes as byte;

use crate::mark::mark;

/// How many digits are at the front.
pub fn digits_len(bytes: &[u8]) -> usize
    ensures is { result ≡ run is_ascii_digit bytes.now }
    ensures within { result ≤ length bytes.now }
{
    let mut n = 0;
    while n < bytes.len() && bytes[n].is_ascii_digit() {
        n += 1;
    }
    n
}

// Any number of at most so many digits is a `usize`.
const SAFE_DIGITS: usize = 19;

// The value of the digits at the front, at most 19 of them, and how many these are. Inlined, each digit would set what its callers
// give for the case that it is the last.
#[inline(never)]
fn first_digits(bytes: &[u8]) -> (usize, usize)
    ensures value { result.0 ≡ value 0 (take result.1 bytes.now) }
    ensures short { result.1 < 19 → result.1 ≡ run is_ascii_digit bytes.now }
    ensures within { result.1 ≤ length bytes.now }
    ensures fits { result.0 < 2 ^ 64 }
{
    let most = bytes.len().min(SAFE_DIGITS);
    let mut n: usize = 0;
    let mut len = 0;
    while len < most && bytes[len].is_ascii_digit() {
        n = n * 10 + usize::from(bytes[len] - b'0');
        len += 1;
    }
    (n, len)
}

// The number with one more digit, and `None` where it is no `usize`.
fn with_digit(n: usize, digit: u8) -> Option<usize>
    requires { IsTrue (is_ascii_digit digit) }
    ensures some { IfSome result (λ m. m ≡ n * 10 + (digit - byte.digit_zero)) }
    ensures fits { IfSome result (λ m. m < 2 ^ 64) }
    ensures none { IfNone result (2 ^ 64 ≤ n * 10 + (digit - byte.digit_zero)) }
{
    let tens = n.checked_mul(10)?;
    tens.checked_add(usize::from(digit - b'0'))
}

// The value of the digits at the front, and how many there are; `None` where it is no `usize`. Hardly any number is so long that it
// comes to this.
#[inline(never)]
fn digits_value(bytes: &[u8]) -> Option<(usize, usize)>
    ensures count { IfSome result (λ r. r.1 ≡ run is_ascii_digit bytes.now) }
    ensures within { IfSome result (λ r. r.1 ≤ length bytes.now) }
    ensures some { IfSome result (λ r. r.0 ≡ value 0 (take r.1 bytes.now)) }
    ensures fits { IfSome result (λ r. r.0 < 2 ^ 64) }
    ensures none { IfNone result (2 ^ 64 ≤ value 0 (take (run is_ascii_digit bytes.now) bytes.now)) }
{
    let mut n: usize = 0;
    let mut len = 0;
    while len < bytes.len() && bytes[len].is_ascii_digit() {
        n = with_digit(n, bytes[len])?;
        len += 1;
    }
    Some((n, len))
}

// Whether the digits have no leading zero.
fn is_plain(digits: &[u8]) -> bool
    ensures { result ≡ is_plain digits.now }
{
    match digits {
        [] => false,
        [first, rest @ ..] => *first != b'0' || rest.is_empty(),
    }
}

// The number of this value, whose digits are so many bytes at the front, and what follows them.
fn split_number(bytes: &[u8], n: usize, len: usize) -> Option<(usize, &[u8])>
    requires count { len ≡ run is_ascii_digit bytes.now }
    requires within { len ≤ length bytes.now }
    requires value { n ≡ value 0 (take len bytes.now) }
    requires fits { n < 2 ^ 64 }
    ensures some { IfSome result (λ r. (bytes.now ≡ decimal r.0 ++ r.1.now) × Ends is_ascii_digit r.1.now) }
    ensures fits { IfSome result (λ r. r.0 < 2 ^ 64) }
    ensures none { IfNone result ((n : ℕ) (rest : List ℕ) → n < 2 ^ 64 → Ends is_ascii_digit rest → bytes.now ≢ decimal n ++ rest) }
{
    let (digits, rest) = bytes.split_at(len);
    if !is_plain(digits) {
        return None;
    }
    Some((n, rest))
}

/// The number at the front, and what follows its digits.
pub fn number(bytes: &[u8]) -> Option<(usize, &[u8])>
    ensures some { IfSome result (λ r. (bytes.now ≡ decimal r.0 ++ r.1.now) × Ends is_ascii_digit r.1.now) }
    ensures fits { IfSome result (λ r. r.0 < 2 ^ 64) }
    ensures none { IfNone result ((n : ℕ) (rest : List ℕ) → n < 2 ^ 64 → Ends is_ascii_digit rest → bytes.now ≢ decimal n ++ rest) }
{
    let (n, len) = first_digits(bytes);
    if len < SAFE_DIGITS {
        return split_number(bytes, n, len);
    }
    let (n, len) = digits_value(bytes)?;
    split_number(bytes, n, len)
}

/// The number at the front and the mark behind it, and what follows.
pub fn number_before(bytes: &[u8], byte: u8) -> Option<(usize, &[u8])>
    requires { is_ascii_digit byte ≡ false }
    ensures some { IfSome result (λ r. bytes.now ≡ decimal r.0 ++ byte ∷ r.1.now) }
    ensures fits { IfSome result (λ r. r.0 < 2 ^ 64) }
    ensures none { IfNone result ((n : ℕ) (rest : List ℕ) → n < 2 ^ 64 → bytes.now ≢ decimal n ++ byte ∷ rest) }
{
    let (n, after) = number(bytes)?;
    let rest = mark(after, byte)?;
    Some((n, rest))
}
