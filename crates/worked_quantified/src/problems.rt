// The clauses of formulas, with their names.
ghost use Rattle.qbf_logic.specs.Formulas.{IsFormula};

use crate::formulas::push_error;
use dimacs_front::{Qbf, read_qdimacs};
use inst_logic::{Clause, Memory, Name, Problem};
use qbf_front::problem_of;
use std::alloc::Global;
use tptp_write::{push_bytes, push_clause, push_name};

// Both worked rows; variables without a quantifier; a universal variable behind an existential one, and one that stands in no
// clause; variables of clauses in the order in which they occur there; a repeated literal; no clause, and one without literals.
pub const ROWS: &str = "\
#p cnf 2 2\na 1 0\ne 2 0\n1 -2 0\n-1 2 0\n@t v(t); f ~v(f); c1 v(X0) | ~e2(X0); c2 ~v(X0) | e2(X0);\
#p cnf 2 2\ne 2 0\na 1 0\n1 -2 0\n-1 2 0\n@t v(t); f ~v(f); c1 v(X0) | ~e2; c2 ~v(X0) | e2;\
#p cnf 2 2\n1 -2 0\n-1 2 0\n@t v(t); f ~v(f); c1 e1 | ~e2; c2 ~e1 | e2;\
#p cnf 5 2\na 1 0\ne 2 0\na 3 0\ne 4 0\n4 -2 5 0\n3 1 -4 3 0\n@t v(t); f ~v(f); c1 e4(X0,X1) | ~e2(X0) | e5; c2 v(X0) | v(X1) | ~e4(X1,X0);\
#p cnf 2 0\na 1 0\n@t v(t); f ~v(f);\
#p cnf 12 1\ne 12 0\n0\n@t v(t); f ~v(f); c1 $false;\
";

fn push_named(answer: &mut Vec<u8>, name: &Name, clause: &Clause) -> Result<(), Memory> {
    push_name(answer, name.bytes())?;
    push_bytes(answer, b" ")?;
    push_clause(answer, clause)?;
    push_bytes(answer, b";")
}

fn push_all(answer: &mut Vec<u8>, problem: &Problem) -> Result<(), Memory> {
    for (i, (name, clause)) in (problem.names.as_slice().iter())
        .zip(problem.clauses.as_slice().iter())
        .enumerate()
    {
        push_bytes(answer, if i > 0 { b" " } else { b"" })?;
        push_named(answer, name, clause)?;
    }
    Ok(())
}

fn push_translated(alloc: Global, answer: &mut Vec<u8>, formula: &Qbf) -> Result<(), Memory>
    requires { IsFormula formula.now.matrix.vars formula.now.prefix formula.now.matrix.clauses }
{
    let problem = problem_of(alloc, formula)?;
    push_all(answer, &problem)
}

/// Puts the clauses of the problem of the text's formula at the end of the answer, or why there is none.
pub fn push_problem(alloc: Global, answer: &mut Vec<u8>, text: &[u8]) -> Result<(), Memory> {
    match read_qdimacs(alloc, text) {
        Ok(formula) => push_translated(alloc, answer, &formula),
        Err(error) => push_error(answer, &error),
    }
}
