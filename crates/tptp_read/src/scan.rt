// The longest token at the front of a text. The first byte tells its kind, but for the three kinds of numbers, of which the
// longest is taken; so no byte is looked at by several spellings.
ghost use Rattle.std.specs.Prelude.{◌≡◌, ◌+◌, ◌≤◌, ◌<◌, ◌==◌, length, IfSome};
ghost use Rattle.std.specs.Char.{is_ascii_lowercase};
ghost use Rattle.tptp_read.specs.Bytes.{is_sign};
ghost use Rattle.tptp_read.specs.Scan.{begins, optional, digits_after, exponent, number_at, dollar_at, quoted_at, distinct_at, token_at};
ghost use Rattle.inst_logic.specs.Codes as byte;

use crate::kind::TokenKind;
use crate::runs::{closing, digits_len, is_mark, is_sign, word_len};

// 1 where a sign is at the front, else 0.
fn sign_len(bytes: &[u8]) -> usize
    ensures is { result ≡ optional is_sign bytes.now }
    ensures within { result ≤ length bytes.now }
{
    match bytes {
        [b, ..] if is_sign(*b) => 1,
        _ => 0,
    }
}

// The length of the mark with its digits, or 0 where these are not at the front.
fn digits_after(bytes: &[u8], mark: u8) -> usize
    ensures is { result ≡ digits_after mark bytes.now }
    ensures within { result ≤ length bytes.now }
{
    match bytes {
        [b, rest @ ..] if *b == mark => {
            let n = digits_len(rest);
            if n == 0 { 0 } else { n + 1 }
        }
        _ => 0,
    }
}

// The length of the exponent at the front, or 0 where none is there.
fn exponent_len(bytes: &[u8]) -> usize
    ensures is { result ≡ exponent bytes.now }
    ensures within { result ≤ length bytes.now }
{
    match bytes {
        [b, rest @ ..] if *b == b'E' || *b == b'e' => {
            let sign = sign_len(rest);
            let n = digits_len(&rest[sign..]);
            if n == 0 { 0 } else { sign + n + 1 }
        }
        _ => 0,
    }
}

#[tactic(auto, unfolding(crate::specs::Scan::number_at))]
fn number_at(bytes: &[u8]) -> Option<(TokenKind, usize)>
    ensures is { result ≡ number_at bytes.now }
    ensures within { IfSome result (λ c. (0 < c.1) × (c.1 ≤ length bytes.now)) }
{
    let sign = sign_len(bytes);
    let digits = digits_len(&bytes[sign..]);
    if digits == 0 {
        return None;
    }
    let whole = sign + digits;
    let after = &bytes[whole..];
    let quotient = digits_after(after, b'/');
    if quotient != 0 {
        return Some((TokenKind::Rational, whole + quotient));
    }
    let fraction = digits_after(after, b'.');
    let exponent = exponent_len(&after[fraction..]);
    if fraction + exponent == 0 {
        Some((TokenKind::Integer, whole))
    } else {
        Some((TokenKind::Real, whole + (fraction + exponent)))
    }
}

// 1 where a second dollar sign is at the front, else 0.
fn dollar_len(bytes: &[u8]) -> usize
    ensures is { result ≡ optional (λ b. b == byte.dollar) bytes.now }
    ensures within { result ≤ length bytes.now }
{
    match bytes {
        [b'$', ..] => 1,
        _ => 0,
    }
}

// The dollar word whose first dollar sign stands before these bytes.
#[tactic(auto, unfolding(crate::specs::Scan::dollar_at))]
fn dollar_at(bytes: &[u8]) -> Option<(TokenKind, usize)>
    ensures is { result ≡ dollar_at bytes.now }
    ensures within { IfSome result (λ c. (0 < c.1) × (c.1 ≤ length bytes.now + 1)) }
{
    let second = dollar_len(bytes);
    let rest = &bytes[second..];
    match rest {
        [b, ..] if b.is_ascii_lowercase() => {
            let n = word_len(rest);
            Some((TokenKind::DollarWord, second + n + 1))
        }
        _ => None,
    }
}

// The quoted word whose first quote stands before these bytes.
#[tactic(auto, unfolding(crate::specs::Scan::quoted_at))]
fn quoted_at(bytes: &[u8]) -> Option<(TokenKind, usize)>
    ensures is { result ≡ quoted_at bytes.now }
    ensures within { IfSome result (λ c. (0 < c.1) × (c.1 ≤ length bytes.now + 1)) }
{
    let n = closing(bytes, b'\'')?;
    if n == 1 {
        None
    } else {
        Some((TokenKind::QuotedWord, n + 1))
    }
}

// The distinct object whose first quote stands before these bytes.
#[tactic(auto, unfolding(crate::specs::Scan::distinct_at))]
fn distinct_at(bytes: &[u8]) -> Option<(TokenKind, usize)>
    ensures is { result ≡ distinct_at bytes.now }
    ensures within { IfSome result (λ c. (0 < c.1) × (c.1 ≤ length bytes.now + 1)) }
{
    let n = closing(bytes, b'"')?;
    Some((TokenKind::DistinctObject, n + 1))
}

fn begins_equals(bytes: &[u8]) -> bool
    ensures { result ≡ begins (λ c. c == byte.equals_sign) bytes.now }
{
    match bytes {
        [b'=', ..] => true,
        _ => false,
    }
}

// The longest token at the front, by its kind and its length.
#[tactic(auto, unfolding(crate::specs::Scan::token_at))]
pub(crate) fn token_at(bytes: &[u8]) -> Option<(TokenKind, usize)>
    ensures is { result ≡ token_at bytes.now }
    ensures within { IfSome result (λ c. (0 < c.1) × (c.1 ≤ length bytes.now)) }
{
    match bytes {
        [] => None,
        [b, rest @ ..] => {
            if b.is_ascii_lowercase() {
                let n = word_len(rest);
                Some((TokenKind::LowerWord, n + 1))
            } else if b.is_ascii_uppercase() {
                let n = word_len(rest);
                Some((TokenKind::Variable, n + 1))
            } else if *b == b'$' {
                dollar_at(rest)
            } else if *b == b'\'' {
                quoted_at(rest)
            } else if *b == b'"' {
                distinct_at(rest)
            } else if is_sign(*b) || b.is_ascii_digit() {
                number_at(bytes)
            } else if *b == b'!' {
                if begins_equals(rest) {
                    Some((TokenKind::Punctuation, 2))
                } else {
                    None
                }
            } else if is_mark(*b) {
                Some((TokenKind::Punctuation, 1))
            } else {
                None
            }
        }
    }
}
