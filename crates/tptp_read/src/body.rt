// Bodies of statements, read from tokens. Variables get their numbers before the clause is read, from all tokens that are
// left: those of an annotation come later, and so change no number.
ghost use Rattle.std.specs.Prelude.{◌≡◌, ◌≤◌, ◌<◌, IfOk, drop, length, fold, nat_le};
ghost use Rattle.std.specs.List.{list_any};
ghost use Rattle.tptp_read.specs.LexemeView.{toks, texts, Gives};
ghost use Rattle.tptp_read.specs.Shapes.{seen};
ghost use Rattle.tptp_read.specs.Gathered.{gathered, gather, nothing};
ghost use Rattle.tptp_read.specs.Bodies.{disjunction_at, wrotes, body, body_of};

use crate::clause::{Literals, item, items};
use crate::lexeme::Lexeme;
use crate::numbers::variables_of;
use crate::reader::Reader;
use crate::stop::Stop;
use crate::width::is_wide;
use inst_logic::{Clause, Literal};
use std::alloc::Global;

// The most different variables that a statement may have.
const MOST_VARIABLES: usize = 10_000;

// The clause of a statement, with what may be wrong with it: a token that is not supported, a symbol with too many arguments,
// too many different variables.
#[derive(Drop)]
pub(crate) struct Body<'a> {
    pub(crate) literals: Literals<'a>,
    pub(crate) wide: bool,
    pub(crate) crowded: bool,
}

// The clause in no more memory than it takes: a list that was pushed to has room for more.
fn shrink_clause(clause: Clause) -> Clause
    ensures { result ≡ clause }
{
    let mut literals: Vec<Literal> = Vec::from(clause);
    literals.shrink_to_fit();
    Clause::from(literals)
}

// The literals of a disjunction.
fn disjunction<'a>(reader: &Reader<'_, 'a>, at: usize) -> Result<(Literals<'a>, usize), Stop>
    ensures is { Gives (λ x. (gathered x.0, toks (drop x.1 reader.now.tokens.now))) result (seen (λ p. fold (gather (texts reader.now.vars.now.keys)) nothing (wrotes p)) (disjunction_at (length reader.now.tokens.now) (toks (drop at reader.now.tokens.now)))) }
    ensures within { IfOk result (λ x. (at < x.1) × (x.1 ≤ length reader.now.tokens.now)) }
{
    let mut literals = Literals {
        clause: Clause::new(reader.alloc),
        always: false,
        feature: None,
    };
    let depth = reader.tokens.len();
    let after = item(reader, depth, depth, at, &mut literals)?;
    let after = items(reader, depth, depth, after, &mut literals)?;
    literals.clause = shrink_clause(literals.clause);
    Ok((literals, after))
}

// The body of a statement. Its variables are numbered by first occurrence.
pub(crate) fn body_at<'a>(
    alloc: Global,
    tokens: &[Lexeme<'a>],
    at: usize,
) -> Result<(Body<'a>, usize), Stop>
    requires { at ≤ length tokens.now }
    ensures is { Gives (λ x. (body x.0, toks (drop x.1 tokens.now))) result (seen (λ p. body_of (wrotes p)) (disjunction_at (length tokens.now) (toks (drop at tokens.now)))) }
    ensures within { IfOk result (λ x. (at < x.1) × (x.1 ≤ length tokens.now)) }
{
    let vars = variables_of(alloc, &tokens[at..])?;
    let reader = Reader {
        alloc,
        vars: &vars,
        tokens,
    };
    let (literals, after) = disjunction(&reader, at)?;
    let own = variables_of(alloc, &tokens[at..after])?;
    let body = Body {
        wide: is_wide(&literals.clause),
        crowded: own.len() > MOST_VARIABLES,
        literals,
    };
    Ok((body, after))
}
