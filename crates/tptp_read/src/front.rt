// The tokens of a statement: up to and including the first full stop. They are gathered before any is read by the grammar,
// since another language, a place without a token and the nesting are judged first, on tokens alone.
ghost use Rattle.std.specs.Prelude.{◌≡◌, ◌≤◌, IfOk};
ghost use Rattle.std.specs.Option.{option_map};
ghost use Rattle.tptp_read.specs.Lexemes.{is_lower_kind};
ghost use Rattle.tptp_read.specs.Rules.{is_language, nesting, nesting_from, opens, closes};
ghost use Rattle.tptp_read.specs.Atoms.{nesting_within};
ghost use Rattle.tptp_read.specs.LexemeView.{tok, toks};
ghost use Rattle.tptp_read.specs.Fronts.{FrontOf, other_word};

use crate::kind::TokenKind;
use crate::lexeme::Lexeme;
use crate::tokens::tokens;
use crate::words::is_mark;
use inst_logic::Memory;
use std::alloc::Global;

// What stands first in a text.
#[derive(Drop)]
pub(crate) enum Front<'a> {
    // Nothing but blanks and comments.
    Done,
    // The name of another language and a parenthesis; what follows is not looked at.
    Language(&'a [u8]),
    // The text ends, or no token begins, before a full stop.
    Unfinished,
    // The tokens, and where the text goes on behind them.
    Whole { tokens: Vec<Lexeme<'a>>, end: usize },
}

// Whether it names another language of formulas.
fn is_language(word: &[u8]) -> bool
    ensures { result ≡ is_language word.now }
{
    word == b"fof".as_slice()
        || word == b"tff".as_slice()
        || word == b"tcf".as_slice()
        || word == b"thf".as_slice()
        || word == b"tpi".as_slice()
}

pub(crate) fn is_lower(kind: TokenKind) -> bool
    ensures { result ≡ is_lower_kind kind }
{
    match kind {
        TokenKind::LowerWord => true,
        _ => false,
    }
}

// The name of another language, where the tokens are two.
fn other_language<'a>(found: &[Lexeme<'a>]) -> Option<&'a [u8]>
    ensures { option_map (λ w. w.now) result ≡ other_word (toks found.now) }
{
    match found {
        [first, second] => {
            if is_mark(second, b'(') && is_lower(first.kind) && is_language(first.text) {
                Some(first.text)
            } else {
                None
            }
        }
        _ => None,
    }
}

// The first tokens of the text. Each is looked at once.
pub(crate) fn front_of<'a>(alloc: Global, text: &'a [u8]) -> Result<Front<'a>, Memory>
    ensures { IfOk result (FrontOf text.now) }
{
    let mut stream = tokens(text);
    let mut found = Vec::new(alloc);
    while let Some(t) = stream.next() {
        let lexeme = Lexeme {
            kind: t.kind,
            text: &text[t.start..t.end],
        };
        let stops = is_mark(&lexeme, b'.');
        found.push(lexeme)?;
        if stops {
            return Ok(Front::Whole {
                tokens: found,
                end: stream.place(),
            });
        }
        if let Some(word) = other_language(found.as_slice()) {
            return Ok(Front::Language(word));
        }
    }
    if found.as_slice().is_empty() && stream.place() == text.len() {
        return Ok(Front::Done);
    }
    Ok(Front::Unfinished)
}

fn opens(l: &Lexeme) -> bool
    ensures { result ≡ opens (tok l.now) }
{
    is_mark(l, b'(') || is_mark(l, b'[')
}

fn closes(l: &Lexeme) -> bool
    ensures { result ≡ closes (tok l.now) }
{
    is_mark(l, b')') || is_mark(l, b']')
}

// The most brackets that are open at a token, where so many are open before the first.
fn nesting_behind(mut opened: usize, tokens: &[Lexeme]) -> usize
    requires { opened ≤ 1 }
    ensures { result ≡ nesting_from opened 0 (toks tokens.now) }
{
    let mut closed: usize = 0;
    let mut deepest: usize = 0;
    for l in tokens {
        if opens(l) {
            opened += 1;
        }
        let here = opened.saturating_sub(closed);
        deepest = deepest.max(here);
        if closes(l) {
            closed += 1;
        }
    }
    deepest
}

// How many brackets may be open at once.
pub(crate) const MOST_NESTING: usize = 256;

// The most brackets that are open at a token.
pub(crate) fn nesting_of(tokens: &[Lexeme]) -> usize
    ensures { result ≡ nesting (toks tokens.now) }
{
    nesting_behind(0, tokens)
}

// The most brackets that are open at a token, with one bracket open before the first.
pub(crate) fn nesting_within(tokens: &[Lexeme]) -> usize
    ensures { result ≡ nesting_within (toks tokens.now) }
{
    nesting_behind(1, tokens)
}
