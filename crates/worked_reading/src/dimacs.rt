// Texts in the DIMACS form: as what they are read, where they are refused, and their answers.
ghost use Rattle.prop_logic.specs.Literal.{AllAtomsBelow};

use dimacs_front::{Cnf, DimacsError, SatAnswer, answer, read_dimacs};
use inst_logic::Memory;
use prop_logic::{Lit, LitList};
use std::alloc::Global;
use tptp_write::{push_bytes, push_number};

// Whole texts, with the number of variables and the literals, and 0 at the end of each clause; no header, or one that ends too
// early; tokens of the header out of place; too many variables, whatever follows; tokens among the clauses out of place; the end
// within a clause; the number of a literal, before what follows it; and the number of clauses, where all else is in place.
pub const ROWS: &str = "\
#p cnf 0 0@0:\
#c one\n\n \t\np\tcnf  2 1\r\n1 -2\r\n0\r\n@2: 1 -2 0\
# p cnf 007 01\n0000000007 0@7: 7 0\
#p cnf 1000000 1\n1000000 0\n@1000000: 1000000 0\
#p cnf 1 2\n0\nc 9 9\n0\n%\n7 7\n@1: 0 0\
#p cnf 1 1 \n1 0 \n@1: 1 0\
#@syntax 1\
#\n@syntax 2\
#c only\nc comments@syntax 3\
#%\np cnf 0 0\n@syntax 1\
#c one\n% p cnf 0 0\n@syntax 2\
#p@syntax 1\
#\np cnf@syntax 2\
#p cnf 3\n1 0\n@syntax 1\
#p cnf 3\n@syntax 1\
#p\ncnf 1 0\n@syntax 1\
#1 0\n@syntax 1\
#q cnf 1 0\n@syntax 1\
#p cnff 1 0\n@syntax 1\
#p cnf -1 0\n@syntax 1\
#p cnf 12345678901 0\n@syntax 1\
#p cnf 1 12345678901\n@syntax 1\
#p cnf 00 0\n@syntax 1\
#p cnf 1 0 0\n@syntax 1\
#p cnf 1000001@limit\
#p cnf 9999999999 x\n@limit\
#p cnf 2 1\n1 -0\n@syntax 2\
#p cnf 2 1\n1\n00\n@syntax 3\
#p cnf 2 1\n+1 0\n@syntax 2\
#p cnf 2 1\n1 --2 0\n@syntax 2\
#p cnf 2 1\n1 - 2 0\n@syntax 2\
#p cnf 2 1\n1 00000000002 0\n@syntax 2\
#p cnf 2 1\n1 % 0\n@syntax 2\
#p cnf 2 1\n1 2 c 0\n@syntax 2\
#p cnf 2 1\np cnf 2 1\n@syntax 2\
#p cnf 2 1\n1 2@syntax 3\
#p cnf 2 1\n1 2\n%\n0\n@syntax 3\
#p cnf 1 1\n2 0\n@literal 2\
#p cnf 1 9\n1 0\n-1\n-2 x@literal 4\
#p cnf 1 1\n@clauses 0\
#p cnf 1 1\n1 0\n-1 0 0\n@clauses 3\
#c a clause over several lines, a repeated literal, and clauses without literals\n p cnf 12 5\n1\nc within\n\n-12 1 0 0\n2 -2 0\n0 -3 0\n@12: 1 -12 1 0 0 2 -2 0 0 -3 0\
";

// Hints may stand in either order where each of two clauses is of one literal, so such a text has two answers.
pub const SOLVED: &str = "\
#p cnf 2 2\n1 2 0\n-1 0\n@s SATISFIABLE\nv -1 2 0\n\
#p cnf 0 0\n@s SATISFIABLE\nv 0\n\
#p cnf 2 3\n1 0 1 -1 0 -2 0@s SATISFIABLE\nv 1 -2 0\n\
#p cnf 1 2\n1 0\n-1 0\n@s UNSATISFIABLE\nr 3 0 1 2 0\n@s UNSATISFIABLE\nr 3 0 2 1 0\n\
#p cnf 0 1\n0\n@s UNSATISFIABLE\nr 2 0 1 0\n\
#p cnf 2 4\n2 -2 0\n1 0\n2 1 2 0\n-1 0\n@s UNSATISFIABLE\nr 5 0 2 4 0\n@s UNSATISFIABLE\nr 5 0 4 2 0\n\
";

fn push_literal(answer: &mut Vec<u8>, literal: Lit) -> Result<(), Memory> {
    push_bytes(answer, if literal.positive { b" " } else { b" -" })?;
    push_number(answer, literal.atom.saturating_add(1))
}

fn push_clause(answer: &mut Vec<u8>, clause: &LitList) -> Result<(), Memory> {
    for literal in clause.as_slice() {
        push_literal(answer, *literal)?;
    }
    push_bytes(answer, b" 0")
}

fn push_cnf(answer: &mut Vec<u8>, cnf: &Cnf) -> Result<(), Memory> {
    push_number(answer, cnf.vars)?;
    push_bytes(answer, b":")?;
    for clause in cnf.clauses.as_slice() {
        push_clause(answer, clause)?;
    }
    Ok(())
}

fn push_counted(answer: &mut Vec<u8>, word: &[u8], n: usize) -> Result<(), Memory> {
    push_bytes(answer, word)?;
    push_number(answer, n)
}

fn push_error(answer: &mut Vec<u8>, error: &DimacsError) -> Result<(), Memory> {
    match error {
        DimacsError::Syntax { line } => push_counted(answer, b"syntax ", *line),
        DimacsError::Range { line } => push_counted(answer, b"literal ", *line),
        DimacsError::Count { found } => push_counted(answer, b"clauses ", *found),
        DimacsError::Limit => push_bytes(answer, b"limit"),
        DimacsError::Twice { line } => push_counted(answer, b"twice ", *line),
        DimacsError::Memory => Err(Memory),
    }
}

/// Puts the clauses of the text at the end of the answer, or why there are none.
pub fn push_clauses(alloc: Global, answer: &mut Vec<u8>, text: &[u8]) -> Result<(), Memory> {
    match read_dimacs(alloc, text) {
        Ok(cnf) => push_cnf(answer, &cnf),
        Err(error) => push_error(answer, &error),
    }
}

fn push_decided(text: &mut Vec<u8>, decided: &SatAnswer) -> Result<(), Memory> {
    match decided {
        SatAnswer::Satisfiable(found) => push_bytes(text, found.as_slice()),
        SatAnswer::Unsatisfiable(found) => push_bytes(text, found.as_slice()),
    }
}

fn push_decision(alloc: Global, text: &mut Vec<u8>, cnf: &Cnf) -> Result<(), Memory>
    requires { AllAtomsBelow cnf.now.vars cnf.now.clauses }
{
    let decided = answer(alloc, cnf)?;
    push_decided(text, &decided)
}

/// Puts the text of the answer to the clauses of the text at the end, or why there are none.
pub fn push_solved(alloc: Global, answer: &mut Vec<u8>, text: &[u8]) -> Result<(), Memory> {
    match read_dimacs(alloc, text) {
        Ok(cnf) => push_decision(alloc, answer, &cnf),
        Err(error) => push_error(answer, &error),
    }
}
