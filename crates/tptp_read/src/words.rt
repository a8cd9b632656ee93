// Which tokens may stand where, and the names of words. The name of a quoted word is what stands between the quotes, without
// the escapes: so a word has one name with quotes and without.
ghost use Rattle.std.specs.Prelude.{◌≡◌, ◌<◌, IfOk, IsTrue, length, true, false, drop};
ghost use Rattle.tptp_read.specs.Lexemes.{is_mark_token, is_head, is_plain, is_quoted_kind, is_variable_kind, is_dollar_kind, is_feature, is_punctuation};
ghost use Rattle.tptp_read.specs.Parse.{begins_with};
ghost use Rattle.tptp_read.specs.Meaning.{name_of, unquoted};
ghost use Rattle.tptp_read.specs.LexemeView.{tok, toks};

use crate::kind::TokenKind;
use crate::lexeme::Lexeme;
use inst_logic::{Memory, Name};
use std::alloc::Global;

pub(crate) fn is_head(kind: TokenKind) -> bool
    ensures { result ≡ is_head kind }
{
    match kind {
        TokenKind::LowerWord | TokenKind::DollarWord | TokenKind::QuotedWord => true,
        _ => false,
    }
}

pub(crate) fn is_plain(kind: TokenKind) -> bool
    ensures { result ≡ is_plain kind }
{
    match kind {
        TokenKind::Punctuation => false,
        _ => true,
    }
}

pub(crate) fn is_punctuation(kind: TokenKind) -> bool
    ensures { result ≡ is_punctuation kind }
{
    match kind {
        TokenKind::Punctuation => true,
        _ => false,
    }
}

pub(crate) fn is_quoted(kind: TokenKind) -> bool
    ensures { result ≡ is_quoted_kind kind }
{
    match kind {
        TokenKind::QuotedWord => true,
        _ => false,
    }
}

pub(crate) fn is_variable(kind: TokenKind) -> bool
    ensures { result ≡ is_variable_kind kind }
{
    match kind {
        TokenKind::Variable => true,
        _ => false,
    }
}

pub(crate) fn is_dollar(kind: TokenKind) -> bool
    ensures { result ≡ is_dollar_kind kind }
{
    match kind {
        TokenKind::DollarWord => true,
        _ => false,
    }
}

pub(crate) fn is_feature(kind: TokenKind) -> bool
    ensures { result ≡ is_feature kind }
{
    match kind {
        TokenKind::DollarWord
        | TokenKind::DistinctObject
        | TokenKind::Integer
        | TokenKind::Rational
        | TokenKind::Real => true,
        _ => false,
    }
}

pub(crate) fn is_mark(l: &Lexeme, b: u8) -> bool
    ensures { result ≡ is_mark_token b (tok l.now) }
{
    is_punctuation(l.kind) && l.text == [b].as_slice()
}

// Whether the mark stands at this place.
pub(crate) fn stands_at(tokens: &[Lexeme], at: usize, b: u8) -> bool
    ensures is { result ≡ begins_with b (toks (drop at tokens.now)) }
    ensures within { IsTrue result → at < length tokens.now }
{
    if at >= tokens.len() {
        return false;
    }
    is_mark(&tokens[at], b)
}

fn unquoted_of(alloc: Global, text: &[u8]) -> Result<Vec<u8>, Memory>
    ensures { IfOk result (λ v. v.items ≡ unquoted false text.now) }
{
    let mut out = Vec::new(alloc);
    let mut escaped = false;
    for b in text {
        let b = *b;
        if escaped {
            out.push(b)?;
            escaped = false;
        } else if b == b'\'' {
            return Ok(out);
        } else if b == b'\\' {
            escaped = true;
        } else {
            out.push(b)?;
        }
    }
    Ok(out)
}

pub(crate) fn name_of(alloc: Global, l: &Lexeme) -> Result<Name, Memory>
    ensures { IfOk result (λ n. n ≡ name_of (tok l.now)) }
{
    if is_quoted(l.kind) {
        if l.text.len() == 0 {
            return Name::of(alloc, l.text);
        }
        let bytes = unquoted_of(alloc, &l.text[1..])?;
        Name::of(alloc, bytes.as_slice())
    } else {
        Name::of(alloc, l.text)
    }
}
