// Texts that are read, and their statements as they are printed.
use inst_logic::{Clause, Memory, Name, NameList};
use std::alloc::Global;
use tptp_read::{ReadError, Statement, StatementList, read_text};
use tptp_write::{clause_text, push_bytes};

// A text, and a line for each of its statements: the name, and the clause behind `always` where it holds always; or the file of
// an include, and the names that it selects.
pub const ROWS: &str = "\
#/* no statement */ % and none here@\
#cnf(one,axiom,'cat'|~ dog(X),file('x',one),[a:b,\"t\",3]). /* c */ cnf(2,axiom,(~ a = b)). % d\ncnf('three',hypothesis,~ (p)).@one: cat | ~dog(X0)\n2: a != b\nthree: ~p\n\
#cnf(several,plain,(p(Y,f(X,'A'),Y) | (X != g(Z) | ~ f(Y,Z) = X)) | ((~ (q(X)))) | ~ ((X = Y)) | 'it\\'s' = c).@several: p(X0,f(X1,'A'),X0) | X1 != g(X2) | f(X0,X2) != X1 | ~q(X1) | X1 != X0 | 'it\\'s' = c\n\
#cnf(eleven,lemma,p(A,B,C,D,E,F,G,H,I,J,K) | ~ '='(K,A)).@eleven: p(X0,X1,X2,X3,X4,X5,X6,X7,X8,X9,X10) | ~'='(X10,X0)\n\
#cnf(a,axiom,$true | p). cnf(b,axiom,$false). cnf(c,axiom,~ $true | q). cnf(d,axiom,~ ($false)).@a: always p\nb: $false\nc: q\nd: always $false\n\
#include('ax/x.ax'). include('y',[b,'two words',-3]).@include ax/x.ax\ninclude y [b] [two words] [-3]\n\
";

fn push_selection(text: &mut Vec<u8>, names: &NameList) -> Result<(), Memory> {
    for name in names.as_slice() {
        push_bytes(text, b" [")?;
        push_bytes(text, name.bytes())?;
        push_bytes(text, b"]")?;
    }
    Ok(())
}

fn push_named(
    alloc: Global,
    text: &mut Vec<u8>,
    name: &Name,
    always: bool,
    clause: &Clause,
) -> Result<(), Memory> {
    push_bytes(text, name.bytes())?;
    push_bytes(text, if always { b": always " } else { b": " })?;
    let clause = clause_text(alloc, clause)?;
    push_bytes(text, clause.as_slice())
}

fn push_include(
    text: &mut Vec<u8>,
    file: &Name,
    selection: &Option<NameList>,
) -> Result<(), Memory> {
    push_bytes(text, b"include ")?;
    push_bytes(text, file.bytes())?;
    match selection {
        None => Ok(()),
        Some(names) => push_selection(text, names),
    }
}

fn push_statement(alloc: Global, text: &mut Vec<u8>, statement: &Statement) -> Result<(), Memory> {
    match statement {
        Statement::Cnf {
            name,
            always,
            clause,
            ..
        } => push_named(alloc, text, name, *always, clause)?,
        Statement::Include { file, selection } => push_include(text, file, selection)?,
    }
    push_bytes(text, b"\n")
}

fn push_all(alloc: Global, text: &mut Vec<u8>, statements: &StatementList) -> Result<(), Memory> {
    for statement in statements.as_slice() {
        push_statement(alloc, text, statement)?;
    }
    Ok(())
}

fn push_outcome(
    alloc: Global,
    answer: &mut Vec<u8>,
    outcome: &Result<StatementList, ReadError>,
) -> Result<(), Memory> {
    match outcome {
        Ok(statements) => push_all(alloc, answer, statements),
        Err(ReadError::Memory) => Err(Memory),
        Err(_) => push_bytes(answer, b"refused"),
    }
}

/// Puts the statements of the text at the end of the answer.
pub fn push_statements(alloc: Global, answer: &mut Vec<u8>, text: &[u8]) -> Result<(), Memory> {
    let outcome = read_text(alloc, text);
    push_outcome(alloc, answer, &outcome)
}
