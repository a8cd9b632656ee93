// The statement that stands first in a text. Its faults are judged in one order: another language, tokens that reach no full
// stop, nesting, and then its form.
ghost use Rattle.std.specs.Prelude.{◌≡◌, ◌&&◌, IfOk, codes, drop};
ghost use Rattle.std.specs.Str.{bytes_eq};
ghost use Rattle.tptp_read.specs.LexemeView.{toks};
ghost use Rattle.tptp_read.specs.Selected.{starts};
ghost use Rattle.tptp_read.specs.Text.{IsFormedStatement};
ghost use Rattle.tptp_read.specs.Verdicts.{verdict, Tells, StepOf};
ghost use Rattle.tptp_read.specs.Words.{is_word};

use crate::cnf::cnf;
use crate::front::{Front, MOST_NESTING, front_of, is_lower, nesting_of};
use crate::include::include;
use crate::lexeme::Lexeme;
use crate::refusal::Refusal;
use crate::statement::{Statement, Which};
use std::alloc::Global;

// Whether the first token is this word.
fn begins_with(tokens: &[Lexeme], word: &[u8]) -> bool
    ensures { result ≡ starts (is_word word.now) (toks tokens.now) }
{
    match tokens {
        [first, ..] => is_lower(first.kind) && first.text == word,
        _ => false,
    }
}

// The statement of these tokens.
fn statement_of<'a>(alloc: Global, tokens: &[Lexeme<'a>]) -> Result<Statement, Refusal<'a>>
    ensures { Tells result (verdict (toks tokens.now)) }
{
    if begins_with(tokens, b"cnf") {
        return cnf(alloc, tokens);
    }
    if !begins_with(tokens, b"include") {
        return Err(Refusal::Syntax);
    }
    match include(alloc, tokens) {
        Ok(statement) => Ok(statement),
        Err(why) => Err(Refusal::from(why)),
    }
}

// The first statement, and where the text goes on; nothing where blanks and comments alone are left.
pub(crate) fn step<'a>(
    alloc: Global,
    text: &'a [u8],
) -> Result<Option<(Statement, usize)>, Refusal<'a>>
    ensures { StepOf text.now result }
{
    match front_of(alloc, text)? {
        Front::Done => Ok(None),
        Front::Language(word) => Err(Refusal::Language(word)),
        Front::Unfinished => Err(Refusal::Syntax),
        Front::Whole { tokens, end } => {
            if nesting_of(tokens.as_slice()) > MOST_NESTING {
                return Err(Refusal::Limit(Which::Nesting));
            }
            let statement = statement_of(alloc, tokens.as_slice())?;
            Ok(Some((statement, end)))
        }
    }
}
