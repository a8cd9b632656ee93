// Clauses alone and in pairs: tautologies, sizes, greatest variables, and subsumption.
ghost use Rattle.std.specs.Prelude.{All};
ghost use Rattle.term_bank.specs.Forest.{IsClauseOf};

use crate::building::clause_at;
use clause_form::{clause_size, greatest_variable, subsumes, tautology};
use inst_logic::Memory;
use std::alloc::Global;
use std::test::Fail;
use term_bank::{Bank, IdClause, IdClauseList};
use tptp_write::{push_bytes, push_number};

// Whether the clause is a tautology, its greatest variable and its size.
pub const CLAUSES: &str = "\
#cnf(c,axiom,p(X)|~p(X)).@tautology X0 4\
#cnf(c,axiom,p(X)|~p(Y)).@X1 4\
#cnf(c,axiom,p(a)|q).@ground 3\
";

// Whether the first clause subsumes the second one. Literals may share a candidate, a variable has one term, and the first
// candidate may be a dead end.
pub const SUBSUMPTION: &str = "\
#cnf(f,axiom,p(X)|p(Y)). cnf(c,axiom,p(a)|q).@yes\
#cnf(f,axiom,p(X)|q(X)). cnf(c,axiom,p(a)|q(b)).@no\
#cnf(f,axiom,p(X)|q(X)). cnf(c,axiom,p(a)|p(b)|q(b)).@yes\
";

fn push_greatest(answer: &mut Vec<u8>, greatest: Option<usize>) -> Result<(), Memory> {
    match greatest {
        Some(variable) => {
            push_bytes(answer, b"X")?;
            push_number(answer, variable)
        }
        None => push_bytes(answer, b"ground"),
    }
}

fn push_told(answer: &mut Vec<u8>, bank: &Bank, c: &IdClause) -> Result<(), Memory>
    requires { IsClauseOf bank.now c.now }
{
    if tautology(c) {
        push_bytes(answer, b"tautology ")?;
    }
    push_greatest(answer, greatest_variable(bank, c))?;
    push_bytes(answer, b" ")?;
    push_number(answer, clause_size(bank, c) as usize)
}

/// Puts what is told of the first clause at the end of the answer.
pub fn push_facts(answer: &mut Vec<u8>, bank: &Bank, clauses: &IdClauseList) -> Result<(), Memory>
    requires { All (IsClauseOf bank.now) clauses.now }
{
    match clause_at(bank, clauses, 0) {
        Some(c) => push_told(answer, bank, c),
        None => push_bytes(answer, b"nothing"),
    }
}

// Whether the first clause subsumes the second one.
pub fn subsumed(alloc: Global, bank: &Bank, clauses: &IdClauseList) -> Result<Option<bool>, Fail>
    requires { All (IsClauseOf bank.now) clauses.now }
{
    let (Some(f), Some(c)) = (clause_at(bank, clauses, 0), clause_at(bank, clauses, 1)) else {
        return Ok(None);
    };
    Ok(Some(subsumes(alloc, bank, f, c)?))
}
