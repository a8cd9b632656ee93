// Texts that are readable, and how many statements they have.
use inst_logic::Memory;
use std::alloc::Global;
use tptp_read::{ReadError, StatementList, read_text};
use tptp_write::{push_bytes, push_number};

pub const ROWS: &str = "\
#@0\
# % only a comment@0\
#/* closed */@0\
#cnf(a,axiom,p). % no line feed at the end@1\
#cnf(a,axiom,p).@1\
#cnf ( a , axiom , p ) .@1\
#cnf(a,axiom,$false).@1\
#cnf(a,axiom,$true).@1\
#cnf(a,axiom,~ $false).@1\
#cnf(a,axiom,~ $true | p).@1\
#cnf(a,axiom,X = Y).@1\
#cnf(a,axiom,X != a).@1\
#cnf(a,axiom,~ X = a).@1\
#cnf(a,axiom,~ (X = a)).@1\
#cnf(a,axiom,~ ((X = a))).@1\
#cnf(a,axiom,(p)).@1\
#cnf(a,axiom,((p))).@1\
#cnf(a,axiom,(p | (q | ~ r)) | s).@1\
#cnf(a,axiom,p(a,f(b,X),X)).@1\
#cnf(a,axiom,'='(a,b)).@1\
#cnf(a,axiom,'cat' | cat).@1\
#cnf(a,axiom,'it\\'s' = 'b\\\\c').@1\
#cnf(007,axiom,p).@1\
#cnf(+7,axiom,p).@1\
#cnf('two words',axiom,p).@1\
#cnf(a,axiom,p). cnf(a,hypothesis,p). cnf(a,definition,p). cnf(a,assumption,p). cnf(a,lemma,p). cnf(a,theorem,p). cnf(a,corollary,p). cnf(a,negated_conjecture,p). cnf(a,plain,p).@9\
#cnf(a,axiom,p,s).@1\
#cnf(a,axiom,p,s,[]).@1\
#cnf(a,axiom,p,s,[a,b]).@1\
#cnf(a,axiom,p,a:b:c).@1\
#cnf(a,axiom,p,f(X,[1,\"o\"]):[]).@1\
#cnf(a,axiom,p,[[],[a]],[x]).@1\
#cnf(a,axiom,p,7).@1\
#cnf(a,axiom,p,$foo(1/2,2.5)).@1\
#include('x').@1\
#include('x',[a]).@1\
#include('x',[a,'b c',-3]).@1\
#cnf(a,axiom,(((((((((((((((((((((((((((((((((((((((((((((((((((((((((((((((((((((((((((((((((((((((((((((((((((((((((((((((((((((((((((((((((((((((((((((((((((((((((((((((((((((((((((((((((((((((((((((((((((((((((((((((((((((((((((((((((((((((((((((((((((((((((((((((p)))))))))))))))))))))))))))))))))))))))))))))))))))))))))))))))))))))))))))))))))))))))))))))))))))))))))))))))))))))))))))))))))))))))))))))))))))))))))))))))))))))))))))))))))))))))))))))))))))))))))))))))))))))))))))))))))))))))))))))))))))))))))))))))).@1\
";

fn push_length(
    answer: &mut Vec<u8>,
    outcome: &Result<StatementList, ReadError>,
) -> Result<(), Memory> {
    match outcome {
        Ok(statements) => push_number(answer, statements.len()),
        Err(ReadError::Memory) => Err(Memory),
        Err(_) => push_bytes(answer, b"refused"),
    }
}

/// Puts the number of the text's statements at the end of the answer.
pub fn push_count(alloc: Global, answer: &mut Vec<u8>, text: &[u8]) -> Result<(), Memory> {
    let outcome = read_text(alloc, text);
    push_length(answer, &outcome)
}
