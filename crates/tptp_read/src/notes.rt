// What may stand behind the formula of a statement, and its end: a source, which is any general term, and a list of notes,
// which has brackets. Neither is kept.
ghost use Rattle.std.specs.Prelude.{◌≡◌, ◌≤◌, IfSome, drop, length};
ghost use Rattle.std.specs.Option.{option_map};
ghost use Rattle.tptp_read.specs.LexemeView.{toks};
ghost use Rattle.tptp_read.specs.ParseForm.{is_tail};
ghost use Rattle.tptp_read.specs.Skim.{after_note};

use crate::general::{bracket, general};
use crate::lexeme::Lexeme;
use crate::words::stands_at;

// Where the tokens go on behind the source and the list of notes, if they stand there.
pub(crate) fn notes(tokens: &[Lexeme], at: usize) -> Option<usize>
    ensures is { option_map (λ x. toks (drop x tokens.now)) result ≡ after_note (length tokens.now) (toks (drop at tokens.now)) }
    ensures within { at ≤ length tokens.now → IfSome result (λ x. (at ≤ x) × (x ≤ length tokens.now)) }
{
    if !stands_at(tokens, at, b',') {
        return Some(at);
    }
    let after = general(tokens, at + 1)?;
    if !stands_at(tokens, after, b',') {
        return Some(after);
    }
    if !stands_at(tokens, after + 1, b'[') {
        return None;
    }
    bracket(tokens, after + 2)
}

// Whether `)` and `.` stand at this place, and nothing behind them.
pub(crate) fn ends_at(tokens: &[Lexeme], at: usize) -> bool
    ensures { result ≡ is_tail (toks (drop at tokens.now)) }
{
    if !stands_at(tokens, at, b')') {
        return false;
    }
    if !stands_at(tokens, at + 1, b'.') {
        return false;
    }
    tokens.len() == at + 2
}
