// Terms. Nested ones are read by recursion, which the limit on nesting bounds, and those side by side by a loop. Every word
// is a function symbol here; whoever reads a literal makes the outermost one a predicate.
ghost use Rattle.std.specs.Prelude.{◌≡◌, ◌≤◌, ◌<◌, IfOk, drop, [], ◌∷◌, length};
ghost use Rattle.inst_logic.specs.View.{tree};
ghost use Rattle.tptp_read.specs.Meaning.{tree_of};
ghost use Rattle.tptp_read.specs.Grammar.{single};
ghost use Rattle.tptp_read.specs.Parse.{many_at, applied_at, term_at};
ghost use Rattle.tptp_read.specs.LexemeView.{tok, toks, texts, in_trees, in_lists, Gives};
ghost use Rattle.inst_logic.specs.Codes as byte;

use crate::lexeme::Lexeme;
use crate::numbers::place_of;
use crate::reader::Reader;
use crate::stop::Stop;
use crate::words::{is_head, is_plain, is_variable, name_of, stands_at};
use indexmap::IndexSet;
use inst_logic::{Kind, Memory, Sym, Term, TermList};
use std::alloc::Global;

// A term of one token.
fn single_of(alloc: Global, vars: &IndexSet<&[u8]>, l: &Lexeme) -> Result<Term, Memory>
    ensures { IfOk result (λ t. tree t ≡ tree_of (texts vars.now.keys) (single (tok l.now))) }
{
    if is_variable(l.kind) {
        Ok(Term::Var(place_of(vars, l.text)))
    } else {
        let name = name_of(alloc, l)?;
        Ok(Term::App(
            Sym {
                kind: Kind::Function,
                name,
                arity: 0,
            },
            TermList::new(alloc),
        ))
    }
}

// A term in which at most `depth` parentheses are open at once.
#[cycle(term)]
#[tactic(auto, unfolding(crate::specs::Parse::term_at, crate::specs::Parse::term_with))]
pub(crate) fn term(reader: &Reader<'_, '_>, depth: usize, at: usize) -> Result<(Term, usize), Stop>
    ensures is { Gives (λ x. (tree x.0, toks (drop x.1 reader.now.tokens.now))) result (in_trees (texts reader.now.vars.now.keys) (term_at depth (toks (drop at reader.now.tokens.now)))) }
    ensures within { IfOk result (λ x. (at < x.1) × (x.1 ≤ length reader.now.tokens.now)) }
{
    if at >= reader.tokens.len() {
        return Err(Stop::Wrong);
    }
    let first = &reader.tokens[at];
    if is_head(first.kind) && stands_at(reader.tokens, at + 1, b'(') {
        if depth == 0 {
            return Err(Stop::Wrong);
        }
        application(reader, depth - 1, first, at + 2)
    } else if is_plain(first.kind) {
        let t = single_of(reader.alloc, reader.vars, first)?;
        Ok((t, at + 1))
    } else {
        Err(Stop::Wrong)
    }
}

// What stands behind a word and its parenthesis.
#[cycle(term)]
#[tactic(auto, unfolding(crate::specs::Parse::applied_at))]
fn application(
    reader: &Reader<'_, '_>,
    depth: usize,
    head: &Lexeme,
    at: usize,
) -> Result<(Term, usize), Stop>
    ensures is { Gives (λ x. (tree x.0, toks (drop x.1 reader.now.tokens.now))) result (in_trees (texts reader.now.vars.now.keys) (applied_at (term_at depth) (tok head.now) (toks (drop at reader.now.tokens.now)))) }
    ensures within { IfOk result (λ x. (at < x.1) × (x.1 ≤ length reader.now.tokens.now)) }
{
    let (first, after) = term(reader, depth, at)?;
    let (args, after) = arguments(reader, depth, first, after)?;
    if !stands_at(reader.tokens, after, b')') {
        return Err(Stop::Wrong);
    }
    let name = name_of(reader.alloc, head)?;
    let arity = args.len();
    let sym = Sym {
        kind: Kind::Function,
        name,
        arity,
    };
    Ok((Term::App(sym, args), after + 1))
}

// The list in no more memory than it takes: a list that was pushed to has room for more.
pub(crate) fn shrink_list(args: TermList) -> TermList
    ensures { result ≡ args }
{
    let mut items: Vec<Term> = Vec::from(args);
    items.shrink_to_fit();
    TermList::from(items)
}

// The terms behind the first, each with a comma before it.
#[cycle(term)]
fn arguments(
    reader: &Reader<'_, '_>,
    depth: usize,
    first: Term,
    at: usize,
) -> Result<(TermList, usize), Stop>
    ensures is { Gives (λ x. (x.0, toks (drop x.1 reader.now.tokens.now))) result (in_lists (texts reader.now.vars.now.keys) (tree first ∷ []) (many_at byte.comma (term_at depth) (length (toks (drop at reader.now.tokens.now))) (toks (drop at reader.now.tokens.now)))) }
    ensures within { at ≤ length reader.now.tokens.now → IfOk result (λ x. (at ≤ x.1) × (x.1 ≤ length reader.now.tokens.now)) }
{
    let mut args = TermList::new(reader.alloc);
    args.push(first)?;
    let mut next = at;
    while stands_at(reader.tokens, next, b',') {
        let (t, after) = term(reader, depth, next + 1)?;
        args.push(t)?;
        next = after;
    }
    Ok((shrink_list(args), next))
}
