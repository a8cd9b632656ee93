// Literals. What stands first is read as a term, since only the token behind it tells whether it is the left side of an
// equation. `~` is for the whole equation: `~ t = u` is `t != u`. Behind `~` there may be parentheses, read by recursion,
// which the limit on nesting bounds, and no `!=`.
ghost use Rattle.std.specs.Prelude.{◌≡◌, ◌≤◌, ◌<◌, IfOk, IsTrue, drop, length};
ghost use Rattle.tptp_read.specs.Grammar.{single, is_atom};
ghost use Rattle.tptp_read.specs.Meaning.{from_negated, from_simple};
ghost use Rattle.tptp_read.specs.ParseClause.{is_unequal, negated_at, simple_at};
ghost use Rattle.tptp_read.specs.LexemeView.{tok, toks, texts, Gives};
ghost use Rattle.tptp_read.specs.Shapes.{seen, shape, shape_of, truth_of, IsOfTerm, negated_plain, simple_plain};

use crate::lexeme::Lexeme;
use crate::reader::Reader;
use crate::stop::Stop;
use crate::terms::term;
use crate::words::{is_dollar, is_head, is_punctuation, stands_at};
use inst_logic::Term;

// An atom or an equation with its sign, and whether it is `$true` or `$false`.
#[derive(Drop)]
pub(crate) struct Atomic {
    pub(crate) positive: bool,
    pub(crate) left: Term,
    pub(crate) right: Option<Term>,
    pub(crate) truth: Option<bool>,
}

// Whether `!=` stands at this place.
fn unequal_at(tokens: &[Lexeme], at: usize) -> bool
    ensures is { result ≡ is_unequal (toks (drop at tokens.now)) }
    ensures within { IsTrue result → at < length tokens.now }
{
    if at >= tokens.len() {
        return false;
    }
    let l = &tokens[at];
    is_punctuation(l.kind) && l.text == b"!=".as_slice()
}

// Which of `$true` and `$false` the token is.
fn truth(l: &Lexeme) -> Option<bool>
    ensures { result ≡ truth_of (single (tok l.now)) }
{
    if !is_dollar(l.kind) {
        None
    } else if l.text == b"$true".as_slice() {
        Some(true)
    } else if l.text == b"$false".as_slice() {
        Some(false)
    } else {
        None
    }
}

// Which of `$true` and `$false` the term at this place is.
fn truth_at(tokens: &[Lexeme], at: usize) -> Option<bool>
    ensures { IsOfTerm truth_of (toks (drop at tokens.now)) result }
{
    if at >= tokens.len() {
        return None;
    }
    let first = &tokens[at];
    if is_head(first.kind) && stands_at(tokens, at + 1, b'(') {
        return None;
    }
    truth(first)
}

// Whether the term at this place may be an atom.
fn atom_at(tokens: &[Lexeme], at: usize) -> bool
    ensures { IsOfTerm is_atom (toks (drop at tokens.now)) result }
{
    if at >= tokens.len() {
        return false;
    }
    is_head(tokens[at].kind)
}

// What stands behind `~`, without parentheses.
#[tactic(auto, using(crate::proofs::Reading::behind_toks), unfolding(crate::specs::Shapes::negated_plain))]
fn negated_atomic(reader: &Reader<'_, '_>, depth: usize, at: usize) -> Result<(Atomic, usize), Stop>
    ensures is { Gives (λ x. (shape x.0, toks (drop x.1 reader.now.tokens.now))) result (seen (λ n. shape_of (texts reader.now.vars.now.keys) (from_negated n)) (negated_plain depth (toks (drop at reader.now.tokens.now)))) }
    ensures within { IfOk result (λ x. (at < x.1) × (x.1 ≤ length reader.now.tokens.now)) }
{
    let (left, after) = term(reader, depth, at)?;
    if stands_at(reader.tokens, after, b'=') {
        let (right, after) = term(reader, depth, after + 1)?;
        let equation = Atomic {
            positive: false,
            left,
            right: Some(right),
            truth: None,
        };
        return Ok((equation, after));
    }
    if !atom_at(reader.tokens, at) {
        return Err(Stop::Wrong);
    }
    let atom = Atomic {
        positive: false,
        left,
        right: None,
        truth: truth_at(reader.tokens, at),
    };
    Ok((atom, after))
}

// What stands behind `~`.
#[tactic(auto, using(crate::proofs::Reading::behind_toks), unfolding(crate::specs::ParseClause::negated_at, crate::specs::ParseClause::negated_with))]
fn negative_literal(
    reader: &Reader<'_, '_>,
    nesting: usize,
    depth: usize,
    at: usize,
) -> Result<(Atomic, usize), Stop>
    ensures is { Gives (λ x. (shape x.0, toks (drop x.1 reader.now.tokens.now))) result (seen (λ n. shape_of (texts reader.now.vars.now.keys) (from_negated n)) (negated_at nesting depth (toks (drop at reader.now.tokens.now)))) }
    ensures within { IfOk result (λ x. (at < x.1) × (x.1 ≤ length reader.now.tokens.now)) }
{
    if !stands_at(reader.tokens, at, b'(') {
        return negated_atomic(reader, depth, at);
    }
    if nesting == 0 {
        return Err(Stop::Wrong);
    }
    let (inner, after) = negative_literal(reader, nesting - 1, depth, at + 1)?;
    if !stands_at(reader.tokens, after, b')') {
        return Err(Stop::Wrong);
    }
    Ok((inner, after + 1))
}

// A literal without `~`.
#[tactic(auto, using(crate::proofs::Reading::behind_toks), unfolding(crate::specs::Shapes::simple_plain))]
fn simple_atomic(reader: &Reader<'_, '_>, depth: usize, at: usize) -> Result<(Atomic, usize), Stop>
    ensures is { Gives (λ x. (shape x.0, toks (drop x.1 reader.now.tokens.now))) result (seen (λ s. shape_of (texts reader.now.vars.now.keys) (from_simple s)) (simple_plain depth (toks (drop at reader.now.tokens.now)))) }
    ensures within { IfOk result (λ x. (at < x.1) × (x.1 ≤ length reader.now.tokens.now)) }
{
    let (left, after) = term(reader, depth, at)?;
    if stands_at(reader.tokens, after, b'=') {
        let (right, after) = term(reader, depth, after + 1)?;
        let equation = Atomic {
            positive: true,
            left,
            right: Some(right),
            truth: None,
        };
        return Ok((equation, after));
    }
    if unequal_at(reader.tokens, after) {
        let (right, after) = term(reader, depth, after + 1)?;
        let equation = Atomic {
            positive: false,
            left,
            right: Some(right),
            truth: None,
        };
        return Ok((equation, after));
    }
    if !atom_at(reader.tokens, at) {
        return Err(Stop::Wrong);
    }
    let atom = Atomic {
        positive: true,
        left,
        right: None,
        truth: truth_at(reader.tokens, at),
    };
    Ok((atom, after))
}

// A literal.
#[tactic(auto, using(crate::proofs::Reading::behind_toks), unfolding(crate::specs::ParseClause::simple_at))]
pub(crate) fn literal(
    reader: &Reader<'_, '_>,
    depth: usize,
    at: usize,
) -> Result<(Atomic, usize), Stop>
    ensures is { Gives (λ x. (shape x.0, toks (drop x.1 reader.now.tokens.now))) result (seen (λ s. shape_of (texts reader.now.vars.now.keys) (from_simple s)) (simple_at depth (toks (drop at reader.now.tokens.now)))) }
    ensures within { IfOk result (λ x. (at < x.1) × (x.1 ≤ length reader.now.tokens.now)) }
{
    if stands_at(reader.tokens, at, b'~') {
        return negative_literal(reader, depth, depth, at + 1);
    }
    simple_atomic(reader, depth, at)
}
