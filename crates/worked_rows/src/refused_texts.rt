// Texts that are refused, and why.
use crate::runs::{answer_of, file_of};
use inst_logic::Memory;
use std::alloc::Global;
use std::str;

// A text, and what is refused.
pub const ROWS: &str = "\
#cnf(a,axiom,p). cnf(b,axiom,q). fof(x,axiom,p).@language fof: statement 3\
#cnf(a,axiom,p). cnf(b,axiom,q). cnf(x,axiom,p(\"obj\")).@feature \"obj\": statement 3\
#cnf(a,axiom,p). cnf(b,axiom,q). cnf(x,axiom,p(7)).@feature 7: statement 3\
#cnf(a,axiom,p). cnf(b,axiom,q). cnf(x,conjecture,p).@role conjecture: statement 3\
#cnf(a,axiom,p($true)).@feature $true: statement 1\
#cnf(a,axiom,$true = a).@feature $true: statement 1\
#cnf(a,axiom,$true(a)).@feature $true: statement 1\
#cnf(a,axiom,$foo).@feature $foo: statement 1\
#cnf(a,axiom,p | $$foo(X)).@feature $$foo: statement 1\
#cnf(a,axiom,p($int,7)).@feature $int: statement 1\
#cnf(a,axiom,1/2 = a).@feature 1/2: statement 1\
#cnf(a,axiom,a != 1.5).@feature 1.5: statement 1\
#cnf(a,axiom,p(f(-3))).@feature -3: statement 1\
#cnf(a,axiom,~ (p(2e5))).@feature 2e5: statement 1\
#cnf(a,axiom,q | 7 = 7 | \"x\" = a).@feature 7: statement 1\
#cnf(a,axioms,p).@role axioms: statement 1\
#cnf(a,conjecture,p(7)).@role conjecture: statement 1\
#cnf(a,unknown,p).@role unknown: statement 1\
#fof(a,axiom,@language fof: statement 1\
#tff(@language tff: statement 1\
#tcf ( !@language tcf: statement 1\
#thf/**/(@language thf: statement 1\
#tpi(x).@language tpi: statement 1\
#include('x').fof(a).@language fof: statement 2\
#cnf(a,axiom,((((((((((((((((((((((((((((((((((((((((((((((((((((((((((((((((((((((((((((((((((((((((((((((((((((((((((((((((((((((((((((((((((((((((((((((((((((((((((((((((((((((((((((((((((((((((((((((((((((((((((((((((((((((((((((((((((((((((((((((((((((((((((((((((p))))))))))))))))))))))))))))))))))))))))))))))))))))))))))))))))))))))))))))))))))))))))))))))))))))))))))))))))))))))))))))))))))))))))))))))))))))))))))))))))))))))))))))))))))))))))))))))))))))))))))))))))))))))))))))))))))))))))))))))))))))))))))))))))).@limit nesting: statement 1\
#cnf(a,axiom,[[[[[[[[[[[[[[[[[[[[[[[[[[[[[[[[[[[[[[[[[[[[[[[[[[[[[[[[[[[[[[[[[[[[[[[[[[[[[[[[[[[[[[[[[[[[[[[[[[[[[[[[[[[[[[[[[[[[[[[[[[[[[[[[[[[[[[[[[[[[[[[[[[[[[[[[[[[[[[[[[[[[[[[[[[[[[[[[[[[[[[[[[[[[[[[[[[[[[[[[[[[[[[[[[[[[[[[[[[[[[[[[[[[[[[[[[[[[[[[[[[[[[[[[[[[[[[[[).@limit nesting: statement 1\
#cnf(a,axiom,p). cnf(b,axiom,q). cnf(c,axiom,r). cnf(d,axiom,@syntax: statement 4\
#cnf@syntax: statement 1\
#cnf(a,axiom,p)..@syntax: statement 2\
#cnf(a,axiom,~ X != a).@syntax: statement 1\
#cnf(a,axiom,p |).@syntax: statement 1\
#cnf(a,axiom,p q).@syntax: statement 1\
#cnf(a,axiom,p(a)(b)).@syntax: statement 1\
#cnf(a,axiom,(a) = b).@syntax: statement 1\
#cnf(a,axiom,p & q).@syntax: statement 1\
#Cnf(a,axiom,p).@syntax: statement 1\
#cnf(a,'axiom',p).@syntax: statement 1\
#cnf(a,conjecture,p@syntax: statement 1\
#cnf(a,axiom,p,[]:a).@syntax: statement 1\
#cnf(a,axiom,p,s:).@syntax: statement 1\
#include(x).@syntax: statement 1\
#include 'x'.@syntax: statement 1\
#cnf(a,axiom,~ ~ p).@syntax: statement 1\
#/* not closed@syntax: statement 1\
#cnf(a,axiom,p). /* not closed@syntax: statement 2\
#.@syntax: statement 1\
#cnf(a,axiom,p)@syntax: statement 1\
#cnf(a,axiom,p).x@syntax: statement 2\
#cnf(a,axiom,7).@syntax: statement 1\
#cnf(a,axiom,\"x\").@syntax: statement 1\
#cnf(a,axiom,X).@syntax: statement 1\
#cnf(a,axiom,~ (X != a)).@syntax: statement 1\
#cnf(a,axiom,~ (p | q)).@syntax: statement 1\
#cnf(a,axiom,~ (~ p)).@syntax: statement 1\
#cnf(a,axiom,| p).@syntax: statement 1\
#cnf(a,axiom,()).@syntax: statement 1\
#cnf(a,axiom,).@syntax: statement 1\
#cnf(a,axiom,p()).@syntax: statement 1\
#cnf(a,axiom,p(a,)).@syntax: statement 1\
#cnf(a,axiom,p(a b)).@syntax: statement 1\
#cnf(a,axiom,X(a)).@syntax: statement 1\
#cnf(a,axiom,p(X(a))).@syntax: statement 1\
#cnf(a,axiom,a = b = c).@syntax: statement 1\
#cnf(a,axiom,p(a = b)).@syntax: statement 1\
#cnf(a,axiom,'').@syntax: statement 1\
#cnf(a,axiom,'a).@syntax: statement 1\
#cnf(a,axiom,p ! q).@syntax: statement 1\
#'cnf'(a,axiom,p).@syntax: statement 1\
#cnf[a,axiom,p].@syntax: statement 1\
#cnf(X,axiom,p).@syntax: statement 1\
#cnf(1.5,axiom,p).@syntax: statement 1\
#cnf($a,axiom,p).@syntax: statement 1\
#cnf(a,Axiom,p).@syntax: statement 1\
#cnf(a,axiom).@syntax: statement 1\
#cnf(a,,p).@syntax: statement 1\
#cnf(a,conjecture,p q).@syntax: statement 1\
#cnf(a,axiom,p,s,t).@syntax: statement 1\
#cnf(a,axiom,p,s,[],u).@syntax: statement 1\
#cnf(a,axiom,p,f()).@syntax: statement 1\
#cnf(a,axiom,p,7(a)).@syntax: statement 1\
#cnf(a,axiom,p,s,[a,]).@syntax: statement 1\
#cnf(a,axiom,p,).@syntax: statement 1\
#include('x',[]).@syntax: statement 1\
#include('x',a).@syntax: statement 1\
#include('x',[X]).@syntax: statement 1\
#include('x',[a],b).@syntax: statement 1\
#include('x',[a,]).@syntax: statement 1\
#'include'('x').@syntax: statement 1\
#fof@syntax: statement 1\
#fof.@syntax: statement 1\
#fof[@syntax: statement 1\
#'fof'(a,axiom,p).@syntax: statement 1\
#fofx(a,axiom,p).@syntax: statement 1\
#cnf(a,axiom,p;q).@syntax: statement 1\
#cnf(a.b,axiom,p).@syntax: statement 1\
#cnf(a,conjecture,((((((((((((((((((((((((((((((((((((((((((((((((((((((((((((((((((((((((((((((((((((((((((((((((((((((((((((((((((((((((((((((((((((((((((((((((((((((((((((((((((((((((((((((((((((((((((((((((((((((((((((((((((((((((((((((((((((((((((((((((((((((((((((((((p))))))))))))))))))))))))))))))))))))))))))))))))))))))))))))))))))))))))))))))))))))))))))))))))))))))))))))))))))))))))))))))))))))))))))))))))))))))))))))))))))))))))))))))))))))))))))))))))))))))))))))))))))))))))))))))))))))))))))))))))))))))))))))))))).@limit nesting: statement 1\
";

fn tells(answer: &[u8], reason: &str) -> bool {
    match str::from_utf8(answer) {
        Ok(text) => match text.strip_suffix(" of r.p\n") {
            Some(front) => front.starts_with("2 ") && front.ends_with(reason),
            None => false,
        },
        Err(_) => false,
    }
}

fn is_refused(alloc: Global, text: &str, reason: &str) -> Result<bool, Memory> {
    let files = file_of(alloc, "r.p", text.as_bytes())?;
    let answer = answer_of(alloc, "|prove|r.p", files)?;
    Ok(tells(answer.as_slice(), reason))
}

/// Whether the text of the row is refused for its reason.
pub fn is_right(alloc: Global, row: &str) -> Result<bool, Memory> {
    match row.split_once("@") {
        Some((text, reason)) => is_refused(alloc, text, reason),
        None => Ok(false),
    }
}
