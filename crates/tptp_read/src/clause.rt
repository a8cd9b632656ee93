// Disjunctions, read from tokens. Parentheses are read by recursion, which the limit on nesting bounds; it is judged before.
// What is joined by `|` is read by a loop.
ghost use Rattle.std.specs.Prelude.{◌≡◌, ◌++◌, ◌∷◌, [], ◌≤◌, ◌<◌, IfOk, OnOk, drop, length, fold};
ghost use Rattle.std.specs.Option.{option_map};
ghost use Rattle.inst_logic.specs.View.{tree};
ghost use Rattle.tptp_read.specs.Meaning.{from_simple, from_item, from_items, first_feature};
ghost use Rattle.tptp_read.specs.Parse.{many_at};
ghost use Rattle.tptp_read.specs.ParseClause.{simple_at, item_at, items_of};
ghost use Rattle.tptp_read.specs.LexemeView.{toks, texts, Gives};
ghost use Rattle.tptp_read.specs.Shapes.{seen, shape};
ghost use Rattle.tptp_read.specs.Gathered.{gathered, gather, atom_literals, equation_literal, side_literals, is_so, put};
ghost use Rattle.inst_logic.specs.Codes as byte;

use crate::lexeme::Lexeme;
use crate::literals::{Atomic, literal};
use crate::reader::Reader;
use crate::stop::Stop;
use crate::terms::shrink_list;
use crate::words::{is_feature, stands_at};
use inst_logic::{Clause, Kind, Literal, Memory, Name, Sym, Term, TermList};
use std::alloc::Global;

// What is read of a clause: its literals, whether one of them is always true, and the first token that is not supported.
#[derive(Drop)]
pub(crate) struct Literals<'a> {
    pub(crate) clause: Clause,
    pub(crate) always: bool,
    pub(crate) feature: Option<&'a [u8]>,
}

// The first token that is not supported.
pub(crate) fn feature_in<'a>(tokens: &[Lexeme<'a>]) -> Option<&'a [u8]>
    ensures { option_map (λ b. b.now) result ≡ first_feature (toks tokens.now) }
{
    for l in tokens {
        if is_feature(l.kind) {
            return Some(l.text);
        }
    }
    None
}

// Puts an atom at the end. A variable is none.
fn push_atom(clause: &mut Clause, positive: bool, atom: Term) -> Result<(), Memory>
    ensures { OnOk result (clause.new ≡ clause.old ++ atom_literals positive (tree atom)) }
{
    match atom {
        Term::Var(_) => Ok(()),
        Term::App(sym, args) => {
            let sym = Sym {
                kind: Kind::Predicate,
                name: sym.name,
                arity: sym.arity,
            };
            clause.push(Literal {
                positive,
                sym,
                args,
            })
        }
    }
}

fn push_equation(
    alloc: Global,
    clause: &mut Clause,
    positive: bool,
    left: Term,
    right: Term,
) -> Result<(), Memory>
    ensures { OnOk result (clause.new ≡ clause.old ++ equation_literal positive (tree left) (tree right) ∷ []) }
{
    let mut args = TermList::new(alloc);
    args.push(left)?;
    args.push(right)?;
    let sym = Sym {
        kind: Kind::Equality,
        name: Name::of(alloc, b"=")?,
        arity: 2,
    };
    clause.push(Literal {
        positive,
        sym,
        args: shrink_list(args),
    })
}

fn push_sides(
    alloc: Global,
    clause: &mut Clause,
    positive: bool,
    left: Term,
    right: Option<Term>,
) -> Result<(), Memory>
    ensures { OnOk result (clause.new ≡ clause.old ++ side_literals positive (tree left) (option_map tree right)) }
{
    match right {
        None => push_atom(clause, positive, left),
        Some(right) => push_equation(alloc, clause, positive, left, right),
    }
}

// Whether `$true` or `$false` holds with this sign.
fn is_so(positive: bool, truth: bool) -> bool
    ensures { result ≡ is_so positive truth }
{
    if positive { truth } else { !truth }
}

// Puts in the literal that was read from these tokens.
fn add<'a>(
    alloc: Global,
    into: &mut Literals<'a>,
    read: Atomic,
    tokens: &[Lexeme<'a>],
) -> Result<(), Memory>
    ensures { OnOk result (gathered into.new ≡ put (gathered into.old) (shape read) (first_feature (toks tokens.now))) }
{
    match read.truth {
        Some(truth) => {
            into.always = into.always || is_so(read.positive, truth);
            Ok(())
        }
        None => {
            into.feature = match into.feature {
                Some(first) => Some(first),
                None => feature_in(tokens),
            };
            push_sides(
                alloc,
                &mut into.clause,
                read.positive,
                read.left,
                read.right,
            )
        }
    }
}

// Reads a literal.
pub(crate) fn single<'a>(
    reader: &Reader<'_, 'a>,
    depth: usize,
    at: usize,
    into: &mut Literals<'a>,
) -> Result<usize, Stop>
    ensures is { Gives (λ x. (gathered into.new, toks (drop x reader.now.tokens.now))) result (seen (λ s. gather (texts reader.now.vars.now.keys) (gathered into.old) (from_simple s)) (simple_at depth (toks (drop at reader.now.tokens.now)))) }
    ensures within { IfOk result (λ x. (at < x) × (x ≤ length reader.now.tokens.now)) }
{
    let (read, after) = literal(reader, depth, at)?;
    add(reader.alloc, into, read, &reader.tokens[at..after])?;
    Ok(after)
}

// Reads a literal, or a disjunction in parentheses.
#[cycle(items)]
pub(crate) fn item<'a>(
    reader: &Reader<'_, 'a>,
    nesting: usize,
    depth: usize,
    at: usize,
    into: &mut Literals<'a>,
) -> Result<usize, Stop>
    ensures is { Gives (λ x. (gathered into.new, toks (drop x reader.now.tokens.now))) result (seen (λ i. fold (gather (texts reader.now.vars.now.keys)) (gathered into.old) (from_item i)) (item_at nesting depth (toks (drop at reader.now.tokens.now)))) }
    ensures within { IfOk result (λ x. (at < x) × (x ≤ length reader.now.tokens.now)) }
{
    if !stands_at(reader.tokens, at, b'(') {
        return single(reader, depth, at, into);
    }
    if nesting == 0 {
        return Err(Stop::Wrong);
    }
    let after = item(reader, nesting - 1, depth, at + 1, into)?;
    let after = items(reader, nesting - 1, depth, after, into)?;
    if !stands_at(reader.tokens, after, b')') {
        return Err(Stop::Wrong);
    }
    Ok(after + 1)
}

// Reads what follows the first of a disjunction.
#[cycle(items)]
pub(crate) fn items<'a>(
    reader: &Reader<'_, 'a>,
    nesting: usize,
    depth: usize,
    at: usize,
    into: &mut Literals<'a>,
) -> Result<usize, Stop>
    ensures is { Gives (λ x. (gathered into.new, toks (drop x reader.now.tokens.now))) result (seen (λ is. fold (gather (texts reader.now.vars.now.keys)) (gathered into.old) (from_items (items_of is))) (many_at byte.bar (item_at nesting depth) (length (toks (drop at reader.now.tokens.now))) (toks (drop at reader.now.tokens.now)))) }
    ensures within { at ≤ length reader.now.tokens.now → IfOk result (λ x. (at ≤ x) × (x ≤ length reader.now.tokens.now)) }
{
    let mut next = at;
    while stands_at(reader.tokens, next, b'|') {
        next = item(reader, nesting, depth, next + 1, into)?;
    }
    Ok(next)
}
