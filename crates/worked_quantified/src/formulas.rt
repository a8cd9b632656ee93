// What texts are read as: the number of variables, the quantifiers as they are written, and the clauses with 0 at the end of each;
// or the refusal.
use dimacs_front::{DimacsError, Qbf, read_qdimacs};
use inst_logic::Memory;
use prop_logic::{Lit, LitList};
use qbf_logic::Quant;
use std::alloc::Global;
use tptp_write::{push_bytes, push_number};

// Both orders of quantifiers; lines of one kind after each other, and one without variables; variables without a quantifier; no
// clause, and a clause without literals; comments and blank lines between the lines of quantifiers; tokens out of place on lines of
// quantifiers and behind them, a line that is not ended, and quantifiers behind clauses; numbers above the header's, before a second
// quantifier on the same line; and the number of clauses, where all else is in place.
pub const ROWS: &str = "\
#p cnf 2 2\na 1 0\ne 2 0\n1 -2 0\n-1 2 0\n@2: a1 e2: 1 -2 0 -1 2 0\
#p cnf 2 2\ne 2 0\na 1 0\n1 -2 0\n-1 2 0\n@2: e2 a1: 1 -2 0 -1 2 0\
#p cnf 4 1\na 1 0\na 3 2 0\ne 0\ne 4 0\n4 -3 0\n@4: a1 a3 a2 e4: 4 -3 0\
#p cnf 3 2\na 2 0\n1 -2 3 0 -1 0\n@3: a2: 1 -2 3 0 -1 0\
#p cnf 2 1\n1\n-2 0\n@2:: 1 -2 0\
#p cnf 2 0\ne 2 1 0\n@2: e2 e1:\
#p cnf 0 0@0::\
#p cnf 1 1\na 1 0\n0\n@1: a1: 0\
#p cnf 2 1\nc a 1 0\na 01 0\r\n\n c\n%\n@syntax 5\
#p cnf 2 1\nc a 1 0\n  a\t01  0\r\n\nce 1 0\ne 2 0\n2 1 0\n%\na@2: a1 e2: 2 1 0\
#p cnf 1 0 a 1 0\n@syntax 1\
#p cnf 2 1\na 1 0 1 0\n@syntax 2\
#p cnf 2 1\na 1\n0\n1 0\n@syntax 2\
#p cnf 2 1\na 1\n2 0\n1 0\n@syntax 2\
#p cnf 2 0\na 1 0\ne 2@syntax 3\
#p cnf 2 0\ne@syntax 2\
#p cnf 2 0\na -1 0\n@syntax 2\
#p cnf 2 0\na 1 00\n@syntax 2\
#p cnf 2 0\na 1 e 2 0\n@syntax 2\
#p cnf 2 0\na1 0\n@syntax 2\
#p cnf 2 0\nA 1 0\n@syntax 2\
#p cnf 2 1\n1 0\na 2 0\n@syntax 3\
#p cnf 2 1\ne 2 0\n1\na 2 0\n@syntax 4\
#p cnf 2 1\na 1 0\n1 2@syntax 4\
#p cnf 2 0\na 1 3 0\n@literal 2\
#p cnf 2 0\na 1 0\ne 2\n 3 0\n@syntax 3\
#p cnf 2 1\na 1 0\n2 -3 0\n@literal 3\
#p cnf 2 0\na 1 0\ne 2 1 0\n@twice 3\
#p cnf 2 0\ne 2 2 3 0\n@twice 2\
#p cnf 2 0\ne 2 3 2 0\n@literal 2\
#p cnf 2 1\na 1 0\n@clauses 0\
#p cnf 2 1\na 1 0\n1 0 0\n@clauses 2\
#p cnf 1000001 0\na 1 0\n@limit\
";

fn push_quantifier(answer: &mut Vec<u8>, q: Quant) -> Result<(), Memory> {
    push_bytes(answer, if q.all { b" a" } else { b" e" })?;
    push_number(answer, q.var.saturating_add(1))
}

fn push_prefix(answer: &mut Vec<u8>, prefix: &[Quant]) -> Result<(), Memory> {
    for q in prefix {
        push_quantifier(answer, *q)?;
    }
    push_bytes(answer, b":")
}

fn push_literal(answer: &mut Vec<u8>, literal: Lit) -> Result<(), Memory> {
    push_bytes(answer, if literal.positive { b" " } else { b" -" })?;
    push_number(answer, literal.atom.saturating_add(1))
}

fn push_clause(answer: &mut Vec<u8>, clause: &LitList) -> Result<(), Memory> {
    for literal in clause.as_slice() {
        push_literal(answer, *literal)?;
    }
    push_bytes(answer, b" 0")
}

fn push_clauses(answer: &mut Vec<u8>, clauses: &[LitList]) -> Result<(), Memory> {
    for clause in clauses {
        push_clause(answer, clause)?;
    }
    Ok(())
}

fn push_qbf(answer: &mut Vec<u8>, formula: &Qbf) -> Result<(), Memory> {
    push_number(answer, formula.matrix.vars)?;
    push_bytes(answer, b":")?;
    push_prefix(answer, formula.prefix.as_slice())?;
    push_clauses(answer, formula.matrix.clauses.as_slice())
}

fn push_counted(answer: &mut Vec<u8>, word: &[u8], n: usize) -> Result<(), Memory> {
    push_bytes(answer, word)?;
    push_number(answer, n)
}

/// Puts the refusal at the end of the answer.
pub fn push_error(answer: &mut Vec<u8>, error: &DimacsError) -> Result<(), Memory> {
    match error {
        DimacsError::Syntax { line } => push_counted(answer, b"syntax ", *line),
        DimacsError::Range { line } => push_counted(answer, b"literal ", *line),
        DimacsError::Count { found } => push_counted(answer, b"clauses ", *found),
        DimacsError::Limit => push_bytes(answer, b"limit"),
        DimacsError::Twice { line } => push_counted(answer, b"twice ", *line),
        DimacsError::Memory => Err(Memory),
    }
}

/// Puts the formula of the text at the end of the answer, or why there is none.
pub fn push_formula(alloc: Global, answer: &mut Vec<u8>, text: &[u8]) -> Result<(), Memory> {
    match read_qdimacs(alloc, text) {
        Ok(formula) => push_qbf(answer, &formula),
        Err(error) => push_error(answer, &error),
    }
}
