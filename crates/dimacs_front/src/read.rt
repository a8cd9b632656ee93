// The reader of the DIMACS form (Second DIMACS Implementation Challenge, Satisfiability: Suggested Format, 1993), of which
// each clause is kept as it stands.
ghost use Rattle.std.specs.Prelude.{◌≡◌, ◌≢◌, ℕ, Err, IfOk, IfErr};
ghost use Rattle.dimacs_front.specs.declared.error.DimacsError.TheVariants as errors;
ghost use Rattle.prop_logic.specs.Literal.{AllAtomsBelow};
ghost use Rattle.dimacs_front.specs.Dimacs.{IsDimacs};
ghost use Rattle.dimacs_front.specs.Refusals.{IsRefusedFor};
ghost use Rattle.dimacs_front.specs.Numbers.{IsMarkBelow};
ghost use Rattle.dimacs_front.specs.Lines.{placed};
ghost use Rattle.dimacs_front.specs.Tokens.{coming, end_of};
ghost use Rattle.dimacs_front.specs.Form.{clauses_in, judged, reading, within, IsRead};

use crate::cnf::Cnf;
use crate::error::DimacsError;
use crate::header::{Header, read_header};
use crate::numbers::{Mark, mark_of};
use crate::stream::{Token, Tokens};
use prop_logic::{LitList, LitLists};
use std::alloc::Global;

// What a token behind the header says.
fn judge(token: &Token, header: &Header) -> Result<Mark, DimacsError>
    ensures is { result ≡ judged header.now (placed token.now.line token.now.text.now) }
    ensures below { IfOk result (IsMarkBelow header.now.vars) }
{
    let line = token.line;
    if line == header.line {
        return Err(DimacsError::Syntax { line });
    }
    match mark_of(token.text) {
        None => Err(DimacsError::Syntax { line }),
        Some(Mark::End) => Ok(Mark::End),
        Some(Mark::Literal(literal)) => {
            if literal.atom < header.vars {
                Ok(Mark::Literal(literal))
            } else {
                Err(DimacsError::Range { line })
            }
        }
    }
}

// The clauses behind the header.
pub(crate) fn read_clauses(
    alloc: Global,
    tokens: &mut Tokens,
    header: &Header,
) -> Result<LitLists, DimacsError>
    ensures is { IsRead (clauses_in (end_of tokens.old) header.now (coming tokens.old)) result }
    ensures below { IfOk result (AllAtomsBelow header.now.vars) }
{
    let mut clauses = LitLists::new(alloc);
    let mut clause = LitList::new(alloc);
    while let Some(token) = tokens.next() {
        match judge(&token, header)? {
            Mark::End => {
                clauses.push(clause)?;
                clause = LitList::new(alloc);
            }
            Mark::Literal(literal) => clause.push(literal)?,
        }
    }
    if !clause.is_empty() {
        return Err(DimacsError::Syntax {
            line: tokens.end_line(),
        });
    }
    Ok(clauses)
}

// What is read of the text.
fn read_text(alloc: Global, text: &[u8]) -> Result<Cnf, DimacsError>
    ensures read { IsRead (reading text.now) result }
    ensures below { IfOk result (λ cnf. AllAtomsBelow cnf.vars cnf.clauses) }
{
    let mut tokens = Tokens::new(text);
    let header = read_header(&mut tokens)?;
    let clauses = read_clauses(alloc, &mut tokens, &header)?;
    let found = clauses.len();
    if found != header.count {
        return Err(DimacsError::Count { found });
    }
    Ok(Cnf {
        vars: header.vars,
        clauses,
    })
}

/// The clauses of a text in the DIMACS form, in their order, each with its literals in their order, or the first refusal in the
/// order of the tokens. It takes time in proportion to the text.
pub fn read_dimacs(alloc: Global, text: &[u8]) -> Result<Cnf, DimacsError>
    ensures dimacs { IfOk result (IsDimacs text.now) }
    ensures refused { IfErr result (IsRefusedFor text.now) }
    ensures read { IsRead (reading text.now) result }
    ensures below { IfOk result (λ cnf. AllAtomsBelow cnf.vars cnf.clauses) }
    ensures once { (line : ℕ) → result ≢ Err (errors.Twice line) }
{
    read_text(alloc, text)
}
