// Atoms without variables. They are read by the reader of a clause's literals, and what is not one positive literal of all
// the tokens is refused then: a grammar of their own would be the same again.
ghost use Rattle.std.specs.Prelude.{◌≡◌, [], ◌∷◌, length, MatchOption};
ghost use Rattle.inst_logic.specs.LiteralView.{literal};
ghost use Rattle.tptp_read.specs.Atoms.{has_variable};
ghost use Rattle.tptp_read.specs.LexemeView.{toks};
ghost use Rattle.tptp_read.specs.AtomReading.{FormOf, AtomOf};

use crate::clause::{Literals, feature_in, single};
use crate::lexeme::Lexeme;
use crate::reader::Reader;
use crate::statement::Which;
use crate::stop::Stop;
use crate::text::ReadError;
use crate::width::literal_is_wide;
use crate::words::is_variable;
use indexmap::IndexSet;
use inst_logic::{Clause, Literal, Name};
use std::alloc::Global;

fn has_variable(tokens: &[Lexeme]) -> bool
    ensures { result ≡ has_variable (toks tokens.now) }
{
    for l in tokens {
        if is_variable(l.kind) {
            return true;
        }
    }
    false
}

// The literal of a clause that has one.
fn only(clause: Clause) -> Option<Literal>
    ensures { MatchOption result (length clause ≡ 1 → ⊥) (λ l. clause ≡ literal l ∷ []) }
{
    let mut literals: Vec<Literal> = Vec::from(clause);
    if literals.len() != 1 {
        return None;
    }
    literals.pop()
}

// The literal that the tokens are.
fn form(alloc: Global, tokens: &[Lexeme]) -> Result<Literal, Stop>
    ensures { FormOf (toks tokens.now) result }
{
    if has_variable(tokens) {
        return Err(Stop::Wrong);
    }
    let vars = IndexSet::new(alloc);
    let mut read = Literals {
        clause: Clause::new(alloc),
        always: false,
        feature: None,
    };
    let reader = Reader {
        alloc,
        vars: &vars,
        tokens,
    };
    let after = single(&reader, tokens.len(), 0, &mut read)?;
    if after != tokens.len() {
        return Err(Stop::Wrong);
    }
    match only(read.clause) {
        None => Err(Stop::Wrong),
        Some(l) => {
            if !l.positive {
                return Err(Stop::Wrong);
            }
            Ok(l)
        }
    }
}

// The atom that the tokens are, as a positive literal. A refusal speaks of statement 1.
pub(crate) fn atom_of(alloc: Global, tokens: &[Lexeme]) -> Result<Literal, ReadError>
    ensures { AtomOf (toks tokens.now) result }
{
    let atom = match form(alloc, tokens) {
        Ok(atom) => atom,
        Err(Stop::Memory) => return Err(ReadError::Memory),
        Err(Stop::Wrong) => return Err(ReadError::Syntax { statement: 1 }),
    };
    if let Some(word) = feature_in(tokens) {
        return Err(ReadError::Feature {
            statement: 1,
            word: Name::of(alloc, word)?,
        });
    }
    if literal_is_wide(&atom) {
        return Err(ReadError::Limit {
            statement: 1,
            which: Which::Arity,
        });
    }
    Ok(atom)
}
