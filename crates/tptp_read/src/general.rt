// Annotations: they are read and not kept, so only where they end is found, without memory.
ghost use Rattle.std.specs.Prelude.{◌≡◌, ◌≤◌, ◌<◌, IfSome, drop, length};
ghost use Rattle.std.specs.Option.{option_map};
ghost use Rattle.tptp_read.specs.LexemeView.{toks};
ghost use Rattle.tptp_read.specs.Skim.{after_general, after_thing, after_listing, after_bracket};

use crate::lexeme::Lexeme;
use crate::words::{is_head, is_plain, stands_at};

// Where the tokens go on behind a general term. A chain of colons takes no stack.
#[cycle(general)]
pub(crate) fn general(tokens: &[Lexeme], at: usize) -> Option<usize>
    ensures is { option_map (λ x. toks (drop x tokens.now)) result ≡ after_general (toks (drop at tokens.now)) }
    ensures within { IfSome result (λ x. (at < x) × (x ≤ length tokens.now)) }
{
    let mut next = at;
    loop {
        if stands_at(tokens, next, b'[') {
            return bracket(tokens, next + 1);
        }
        let after = thing(tokens, next)?;
        if !stands_at(tokens, after, b':') {
            return Some(after);
        }
        next = after + 1;
    }
}

// Behind a token, or a word with general terms.
#[cycle(general)]
fn thing(tokens: &[Lexeme], at: usize) -> Option<usize>
    ensures is { option_map (λ x. toks (drop x tokens.now)) result ≡ after_thing (toks (drop at tokens.now)) }
    ensures within { IfSome result (λ x. (at < x) × (x ≤ length tokens.now)) }
{
    if at >= tokens.len() {
        return None;
    }
    let kind = tokens[at].kind;
    if is_head(kind) && stands_at(tokens, at + 1, b'(') {
        listing(tokens, at + 2, b')')
    } else if is_plain(kind) {
        Some(at + 1)
    } else {
        None
    }
}

// Behind a list whose bracket is open.
#[cycle(general)]
pub(crate) fn bracket(tokens: &[Lexeme], at: usize) -> Option<usize>
    ensures is { option_map (λ x. toks (drop x tokens.now)) result ≡ after_bracket (toks (drop at tokens.now)) }
    ensures within { IfSome result (λ x. (at < x) × (x ≤ length tokens.now)) }
{
    if stands_at(tokens, at, b']') {
        Some(at + 1)
    } else {
        listing(tokens, at, b']')
    }
}

// Behind one or more general terms and the mark that closes.
#[cycle(general)]
fn listing(tokens: &[Lexeme], at: usize, close: u8) -> Option<usize>
    ensures is { option_map (λ x. toks (drop x tokens.now)) result ≡ after_listing close (toks (drop at tokens.now)) }
    ensures within { IfSome result (λ x. (at < x) × (x ≤ length tokens.now)) }
{
    let mut next = general(tokens, at)?;
    while stands_at(tokens, next, b',') {
        next = general(tokens, next + 1)?;
    }
    if stands_at(tokens, next, close) {
        Some(next + 1)
    } else {
        None
    }
}
