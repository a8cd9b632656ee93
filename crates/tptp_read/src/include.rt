// Includes. Nothing is opened here: whether there is such a file, and such names in it, is the loader's matter. A selection
// has one name at least.
ghost use Rattle.std.specs.Prelude.{◌≡◌, ◌<◌, ◌≤◌, ◌&&◌, ◌+◌, IfOk, IsTrue, Ok, [], ◌∷◌, drop, length};
ghost use Rattle.std.specs.Option.{option_map};
ghost use Rattle.tptp_read.specs.Meaning.{judged, name_of};
ghost use Rattle.tptp_read.specs.Parse.{begins_with, many_at};
ghost use Rattle.tptp_read.specs.ParseForm.{one_of, include_at, is_quoted, is_tail};
ghost use Rattle.tptp_read.specs.Grammar.{is_name};
ghost use Rattle.tptp_read.specs.LexemeView.{tok, toks, Gives};
ghost use Rattle.tptp_read.specs.Selected.{in_names, starts};
ghost use Rattle.inst_logic.specs.Codes as byte;

use crate::kind::TokenKind;
use crate::lexeme::Lexeme;
use crate::notes::ends_at;
use crate::statement::Statement;
use crate::stop::Stop;
use crate::words::{is_quoted, name_of, stands_at};
use inst_logic::NameList;
use std::alloc::Global;

// Whether the token at this place may name a statement.
pub(crate) fn name_at(tokens: &[Lexeme], at: usize) -> bool
    ensures is { result ≡ starts is_name (toks (drop at tokens.now)) }
    ensures within { IsTrue result → at < length tokens.now }
{
    if at >= tokens.len() {
        return false;
    }
    match tokens[at].kind {
        TokenKind::LowerWord | TokenKind::QuotedWord | TokenKind::Integer => true,
        _ => false,
    }
}

// Whether a quoted word stands at this place.
fn quoted_at(tokens: &[Lexeme], at: usize) -> bool
    ensures is { result ≡ starts is_quoted (toks (drop at tokens.now)) }
    ensures within { IsTrue result → at < length tokens.now }
{
    if at >= tokens.len() {
        return false;
    }
    is_quoted(tokens[at].kind)
}

// Whether the name of a file stands behind the word `include`.
fn has_file(tokens: &[Lexeme]) -> bool
    ensures is { result ≡ (begins_with byte.opening_parenthesis (toks (drop 1 tokens.now)) && starts is_quoted (toks (drop 2 tokens.now))) }
    ensures within { IsTrue result → 2 < length tokens.now }
{
    stands_at(tokens, 1, b'(') && quoted_at(tokens, 2)
}

// Whether names are selected behind the name of the file.
fn has_names(tokens: &[Lexeme]) -> bool
    ensures is { result ≡ (begins_with byte.comma (toks (drop 3 tokens.now)) && (begins_with byte.opening_bracket (toks (drop 4 tokens.now)) && starts is_name (toks (drop 5 tokens.now)))) }
    ensures within { IsTrue result → 5 < length tokens.now }
{
    stands_at(tokens, 3, b',') && stands_at(tokens, 4, b'[') && name_at(tokens, 5)
}

// Whether the selection and the statement end at this place.
fn closes_at(tokens: &[Lexeme], at: usize) -> bool
    ensures { result ≡ (begins_with byte.closing_bracket (toks (drop at tokens.now)) && is_tail (toks (drop (at + 1) tokens.now))) }
{
    stands_at(tokens, at, b']') && ends_at(tokens, at + 1)
}

// The names behind the first one, each with a comma before it, and where the tokens go on.
fn selection(
    alloc: Global,
    first: &Lexeme,
    tokens: &[Lexeme],
    at: usize,
) -> Result<(NameList, usize), Stop>
    ensures is { Gives (λ x. (x.0, toks (drop x.1 tokens.now))) result (in_names (name_of (tok first.now) ∷ []) (many_at byte.comma (one_of is_name) (length (toks (drop at tokens.now))) (toks (drop at tokens.now)))) }
    ensures within { at ≤ length tokens.now → IfOk result (λ x. (at ≤ x.1) × (x.1 ≤ length tokens.now)) }
{
    let mut names = NameList::new(alloc);
    let name = name_of(alloc, first)?;
    names.push(name)?;
    let mut next = at;
    while stands_at(tokens, next, b',') {
        if !name_at(tokens, next + 1) {
            return Err(Stop::Wrong);
        }
        let name = name_of(alloc, &tokens[next + 1])?;
        names.push(name)?;
        next += 2;
    }
    Ok((names, next))
}

// What stands behind the word `include`.
pub(crate) fn include(alloc: Global, tokens: &[Lexeme]) -> Result<Statement, Stop>
    ensures { Gives (λ s. Ok s) result (option_map judged (include_at (toks (drop 1 tokens.now)))) }
{
    if !has_file(tokens) {
        return Err(Stop::Wrong);
    }
    let file = name_of(alloc, &tokens[2])?;
    if ends_at(tokens, 3) {
        return Ok(Statement::Include {
            file,
            selection: None,
        });
    }
    if !has_names(tokens) {
        return Err(Stop::Wrong);
    }
    let (names, after) = selection(alloc, &tokens[5], tokens, 6)?;
    if !closes_at(tokens, after) {
        return Err(Stop::Wrong);
    }
    Ok(Statement::Include {
        file,
        selection: Some(names),
    })
}
