// From the parts of a `cnf` statement to the statement. Its faults are judged in one order: the role, tokens that are not
// supported, arguments, variables.
ghost use Rattle.std.specs.Prelude.{◌≡◌};
ghost use Rattle.tptp_read.specs.Meaning.{role_of};
ghost use Rattle.tptp_read.specs.LexemeView.{tok};
ghost use Rattle.tptp_read.specs.Bodies.{body as body_view, judged_as, judged_body};
ghost use Rattle.tptp_read.specs.Verdicts.{Tells};

use crate::body::Body;
use crate::lexeme::Lexeme;
use crate::refusal::Refusal;
use crate::statement::{Role, Statement, Which};
use crate::words::name_of;
use std::alloc::Global;

fn role_of(word: &[u8]) -> Option<Role>
    ensures { result ≡ role_of word.now }
{
    if word == b"axiom".as_slice() {
        Some(Role::Axiom)
    } else if word == b"hypothesis".as_slice() {
        Some(Role::Hypothesis)
    } else if word == b"definition".as_slice() {
        Some(Role::Definition)
    } else if word == b"assumption".as_slice() {
        Some(Role::Assumption)
    } else if word == b"lemma".as_slice() {
        Some(Role::Lemma)
    } else if word == b"theorem".as_slice() {
        Some(Role::Theorem)
    } else if word == b"corollary".as_slice() {
        Some(Role::Corollary)
    } else if word == b"negated_conjecture".as_slice() {
        Some(Role::NegatedConjecture)
    } else if word == b"plain".as_slice() {
        Some(Role::Plain)
    } else {
        None
    }
}

// The statement, or the first of the faults that its body has.
fn statement<'a>(
    alloc: Global,
    name: &Lexeme,
    role: Role,
    body: Body<'a>,
) -> Result<Statement, Refusal<'a>>
    ensures { Tells result (judged_as (tok name.now) role (body_view body.entry)) }
{
    if let Some(word) = body.literals.feature {
        return Err(Refusal::Feature(word));
    }
    if body.wide {
        return Err(Refusal::Limit(Which::Arity));
    }
    if body.crowded {
        return Err(Refusal::Limit(Which::Variables));
    }
    Ok(Statement::Cnf {
        name: name_of(alloc, name)?,
        role,
        always: body.literals.always,
        clause: body.literals.clause,
    })
}

// The statement with this name, role and body, or the first of its faults.
pub(crate) fn cnf_value<'a>(
    alloc: Global,
    name: &Lexeme,
    role: &Lexeme<'a>,
    body: Body<'a>,
) -> Result<Statement, Refusal<'a>>
    ensures { Tells result (judged_body (tok name.now) (tok role.now) (body_view body.entry)) }
{
    match role_of(role.text) {
        None => Err(Refusal::Role(role.text)),
        Some(known) => statement(alloc, name, known, body),
    }
}
