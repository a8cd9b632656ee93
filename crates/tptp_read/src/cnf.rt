// Statements that are clauses. The whole form is read before the role, the symbols and their arguments are judged: what is no
// statement of the grammar is refused for that, whatever else is wrong with it.
ghost use Rattle.std.specs.Prelude.{◌≡◌, ◌&&◌, ◌<◌, IfOk, IsTrue, drop, length};
ghost use Rattle.tptp_read.specs.declared.refusal.Refusal.TheVariants as refusals;
ghost use Rattle.tptp_read.specs.Parse.{begins_with};
ghost use Rattle.tptp_read.specs.ParseForm.{cnf_at, is_lower};
ghost use Rattle.tptp_read.specs.Grammar.{is_name};
ghost use Rattle.tptp_read.specs.LexemeView.{toks};
ghost use Rattle.tptp_read.specs.Selected.{starts};
ghost use Rattle.tptp_read.specs.Text.{IsFormedStatement};
ghost use Rattle.tptp_read.specs.Verdicts.{judged_form, Tells};
ghost use Rattle.inst_logic.specs.Codes as byte;

use crate::body::body_at;
use crate::front::is_lower;
use crate::include::name_at;
use crate::lexeme::Lexeme;
use crate::notes::{ends_at, notes};
use crate::refusal::Refusal;
use crate::statement::Statement;
use crate::value::cnf_value;
use crate::words::stands_at;
use std::alloc::Global;

// Whether a word of lower letters stands at this place.
fn lower_at(tokens: &[Lexeme], at: usize) -> bool
    ensures is { result ≡ starts is_lower (toks (drop at tokens.now)) }
    ensures within { IsTrue result → at < length tokens.now }
{
    if at >= tokens.len() {
        return false;
    }
    is_lower(tokens[at].kind)
}

// Whether a name and a role stand behind the word `cnf`.
fn has_head(tokens: &[Lexeme]) -> bool
    ensures is { result ≡ (begins_with byte.opening_parenthesis (toks (drop 1 tokens.now)) && (starts is_name (toks (drop 2 tokens.now)) && (begins_with byte.comma (toks (drop 3 tokens.now)) && (starts is_lower (toks (drop 4 tokens.now)) && begins_with byte.comma (toks (drop 5 tokens.now)))))) }
    ensures within { IsTrue result → 5 < length tokens.now }
{
    stands_at(tokens, 1, b'(')
        && name_at(tokens, 2)
        && stands_at(tokens, 3, b',')
        && lower_at(tokens, 4)
        && stands_at(tokens, 5, b',')
}

// What stands behind the word `cnf`.
pub(crate) fn cnf<'a>(alloc: Global, tokens: &[Lexeme<'a>]) -> Result<Statement, Refusal<'a>>
    ensures { Tells result (judged_form (cnf_at (length tokens.now) (toks (drop 1 tokens.now)))) }
{
    if !has_head(tokens) {
        return Err(Refusal::Syntax);
    }
    let (body, after) = match body_at(alloc, tokens, 6) {
        Ok(read) => read,
        Err(why) => return Err(Refusal::from(why)),
    };
    let end = match notes(tokens, after) {
        Some(end) => end,
        None => return Err(Refusal::Syntax),
    };
    if !ends_at(tokens, end) {
        return Err(Refusal::Syntax);
    }
    cnf_value(alloc, &tokens[2], &tokens[4], body)
}
