// Formulas with quantifiers, models as tables, and cores: what is written whole, where the clauses settle it, and else how the
// answers begin, with the statuses of the certificates in them. Behind what is compared stand lines that the clauses do not settle,
// such as which literals are selected.
use crate::runs::{answer_of, files_of, four_parts};
use inst_logic::Memory;
use std::alloc::Global;
use std::str;
use tptp_write::push_bytes;

// What the row is about, the words, the status with what is written, and the files.
pub const WHOLE: &str = "\
#a variable with two quantifiers@|qbf|q.cnf@2 % SZS status InputError for q.cnf
% quantified twice: line 3 of q.cnf
@q.cnf@p cnf 2 0\na 1 0\ne 2 1 0\n\
#a quantifier behind a clause@|qbf|q.cnf@2 % SZS status SyntaxError for q.cnf
% syntax: line 3 of q.cnf
@q.cnf@p cnf 2 1\n1 0\na 2 0\n\
#a quantified variable above the number of variables@|qbf|q.cnf@2 % SZS status InputError for q.cnf
% literal: line 2 of q.cnf
@q.cnf@p cnf 2 0\na 1 3 0\n\
#a number of clauses that is not that of the header@|qbf|q.cnf@2 % SZS status InputError for q.cnf
% clauses 0
@q.cnf@p cnf 2 1\na 1 0\n\
#more variables than are read@|qbf|q.cnf@2 % SZS status InputError for q.cnf
% limit variables
@q.cnf@p cnf 1000001 0\n\
#a formula that is absent@|qbf|p.cnf@2 % SZS status InputError for p.cnf
% absent: p.cnf
@q.cnf@p cnf 0 0\n\
#a line of quantifiers for the other command@|sat|q.cnf@2 % SZS status SyntaxError for q.cnf
% syntax: line 2 of q.cnf
@q.cnf@p cnf 2 0\na 1 0\n\
#a function without a fixed point@|fmodel|2|m.p@0 % tables 2 for m.p
f(1) = 2
f(2) = 1
@m.p@cnf(x,axiom,f(X) != X).\
#four elements, in the order of the arguments@|fmodel|4|m.p@0 % tables 4 for m.p
g(1,1) = 1
g(1,2) = 1
g(1,3) = 1
g(1,4) = 1
g(2,1) = 2
g(2,2) = 2
g(2,3) = 2
g(2,4) = 2
g(3,1) = 3
g(3,2) = 3
g(3,3) = 3
g(3,4) = 3
g(4,1) = 4
g(4,2) = 4
g(4,3) = 4
g(4,4) = 4
p(1,1)
~p(1,2)
~p(1,3)
~p(1,4)
~p(2,1)
p(2,2)
~p(2,3)
~p(2,4)
~p(3,1)
~p(3,2)
p(3,3)
~p(3,4)
~p(4,1)
~p(4,2)
~p(4,3)
p(4,4)
@m.p@cnf(a,axiom,g(X,Y) = X). cnf(b,axiom,p(X,X)). cnf(c,axiom,~p(X,Y) | X = Y).\
#predicates@|fmodel|1|m.p@0 % tables 1 for m.p
c = 1
q
~p(1)
@m.p@cnf(x,axiom,q). cnf(y,axiom,~p(c)).\
#no clause@|fmodel|3|m.p@0 % tables 3 for m.p
@m.p@\
#an include under the root@|fmodel|1|d/m.p|--root|t@0 % tables 1 for d/m.p
p
@d/m.p@include('A/x.ax').@t/A/x.ax@cnf(a,axiom,p).\
#but not without it@|fmodel|1|d/m.p@2 % SZS status InputError for d/m.p
% absent: A/x.ax
@d/m.p@include('A/x.ax').@t/A/x.ax@cnf(a,axiom,p).\
#a statement without an end@|fmodel|2|m.p@2 % SZS status SyntaxError for m.p
% syntax: statement 2 of m.p
@m.p@cnf(a,axiom,p). cnf(b,axiom,q(\
#another language@|fmodel|2|m.p@2 % SZS status Inappropriate for m.p
% language fof: statement 2 of m.p
@m.p@cnf(a,axiom,p). fof(b,axiom,q).\
#tables that are too wide@|fmodel|64|m.p@2 % SZS status InputError for m.p
% limit tables
@m.p@cnf(a,axiom,p(X,X,X,X)).\
#a problem that is absent@|fmodel|2|n.p@2 % SZS status InputError for n.p
% absent: n.p
@m.p@\
#no elements@|fmodel|0|m.p@3 % SZS status UsageError for instgen
% usage
@m.p@\
#more elements than are counted@|fmodel|65|m.p@3 % SZS status UsageError for instgen
% usage
@m.p@\
#clauses with a model@|core|r9.p@0 % no core for r9.p
% SZS status Satisfiable for r9.p
% SZS output start Saturation for r9.p
% instgen certificate 3
cnf(i1,axiom,p(X0) | ~q(X0),named(a)).
cnf(i2,axiom,q(X0),named(b)).
cnf(m1,plain,p(X0) | ~q(X0),input(1),[selected(1)]).
cnf(m2,plain,q(X0),input(2),[selected(1)]).
cnf(q1,plain,p(X0) | ~q(X0),part(m1,[X0])).
cnf(q2,plain,q(X0),part(m2,[X0])).
% SZS output end Saturation for r9.p
@r9.p@cnf(a,axiom,p(X)|~q(X)). cnf(b,axiom,q(Y)).\
#a function with arguments@|core|r6.p@2 % SZS status Inappropriate for r6.p
% functions: clause 2
@r6.p@cnf(a,axiom,p(a)). cnf(b,axiom,~p(X) | p(f(X))). cnf(c,axiom,~p(f(f(a)))).\
#an include under the root, and no core@|core|d/m.p|--root|t@0 % no core for d/m.p
% SZS status Satisfiable for d/m.p
% SZS output start Saturation for d/m.p
% instgen certificate 3
cnf(i1,axiom,p,named(a)).
cnf(m1,plain,p,input(1),[selected(1)]).
cnf(q1,plain,p,part(m1,[])).
% SZS output end Saturation for d/m.p
@d/m.p@include('A/x.ax').@t/A/x.ax@cnf(a,axiom,p).\
#but not without it@|core|d/m.p@2 % SZS status InputError for d/m.p
% absent: A/x.ax
@d/m.p@include('A/x.ax').@t/A/x.ax@cnf(a,axiom,p).\
#a statement without an end@|core|m.p@2 % SZS status SyntaxError for m.p
% syntax: statement 2 of m.p
@m.p@cnf(a,axiom,p). cnf(b,axiom,q(\
#another language@|core|m.p@2 % SZS status Inappropriate for m.p
% language fof: statement 2 of m.p
@m.p@cnf(a,axiom,p). fof(b,axiom,q).\
#a problem that is absent@|core|n.p@2 % SZS status InputError for n.p
% absent: n.p
@m.p@\
";

// What the row is about, the words, the status with how what is written begins, the statuses of all certificates in it, each behind
// a plus, and the files.
pub const BEGINNINGS: &str = "\
#a variable that follows another@|qbf|q.cnf@10 s TRUE
% SZS status Satisfiable for q.cnf
% SZS output start Saturation for q.cnf
% instgen certificate 3
cnf(i1,axiom,v(t),named(t)).
cnf(i2,axiom,~v(f),named(f)).
cnf(i3,axiom,v(X0) | ~e2(X0),named(c1)).
cnf(i4,axiom,~v(X0) | e2(X0),named(c2)).
cnf(m1,@+Satisfiable@q.cnf@p cnf 2 2\na 1 0\ne 2 0\n1 -2 0\n-1 2 0\n\
#the same the other way round@|qbf|q.cnf@20 s FALSE
% SZS status Unsatisfiable for q.cnf
% SZS output start CNFRefutation for q.cnf
% instgen certificate 3
% ground constant bot_0
cnf(i1,axiom,v(t),named(t)).
cnf(i2,axiom,~v(f),named(f)).
cnf(i3,axiom,v(X0) | ~e2,named(c1)).
cnf(i4,axiom,~v(X0) | e2,named(c2)).
cnf(m1,@+Unsatisfiable@q.cnf@p cnf 2 2\ne 2 0\na 1 0\n1 -2 0\n-1 2 0\n\
#variables without a quantifier@|qbf|q.cnf@10 s TRUE
% SZS status Satisfiable for q.cnf
% SZS output start Saturation for q.cnf
% instgen certificate 3
cnf(i1,axiom,v(t),named(t)).
cnf(i2,axiom,~v(f),named(f)).
cnf(i3,axiom,~e1 | e2,named(c1)).
cnf(m1,@+Satisfiable@q.cnf@p cnf 2 1\n-1 2 0\n\
#five variables, of which the last but one is the sum of the universal ones before it@|qbf|q.cnf@10 s TRUE
% SZS status Satisfiable for q.cnf
% SZS output start Saturation for q.cnf
% instgen certificate 3
cnf(i1,axiom,v(t),named(t)).
cnf(i2,axiom,~v(f),named(f)).
cnf(i3,axiom,v(X0) | ~e2(X0) | e1,named(c1)).
cnf(i4,axiom,v(X0) | v(X1) | ~e4(X0,X1),named(c2)).
cnf(i5,axiom,~v(X0) | ~v(X1) | ~e4(X0,X1),named(c3)).
cnf(i6,axiom,v(X0) | ~v(X1) | e4(X0,X1),named(c4)).
cnf(i7,axiom,~v(X0) | v(X1) | e4(X0,X1),named(c5)).
cnf(m1,@+Satisfiable@q.cnf@p cnf 5 5\na 3 0\ne 2 0\na 5 0\ne 4 0\n3 -2 1 0\n3 5 -4 0\n-3 -5 -4 0\n3 -5 4 0\n-3 5 4 0\n\
#the same before the second of them is known@|qbf|q.cnf@20 s FALSE
% SZS status Unsatisfiable for q.cnf
% SZS output start CNFRefutation for q.cnf
% instgen certificate 3
% ground constant bot_0
cnf(i1,axiom,v(t),named(t)).
cnf(i2,axiom,~v(f),named(f)).
cnf(i3,axiom,v(X0) | ~e2(X0) | e1,named(c1)).
cnf(i4,axiom,v(X0) | v(X1) | ~e4(X0),named(c2)).
cnf(i5,axiom,~v(X0) | ~v(X1) | ~e4(X0),named(c3)).
cnf(i6,axiom,v(X0) | ~v(X1) | e4(X0),named(c4)).
cnf(i7,axiom,~v(X0) | v(X1) | e4(X0),named(c5)).
cnf(m1,@+Unsatisfiable@q.cnf@p cnf 5 5\na 3 0\ne 2 4 0\na 5 0\n3 -2 1 0\n3 5 -4 0\n-3 -5 -4 0\n3 -5 4 0\n-3 5 4 0\n\
#no clause@|qbf|q.cnf@10 s TRUE
% SZS status Satisfiable for q.cnf
@+Satisfiable@q.cnf@p cnf 1 0\na 1 0\n\
#a clause without literals@|qbf|q.cnf@20 s FALSE
% SZS status Unsatisfiable for q.cnf
@+Unsatisfiable@q.cnf@p cnf 1 1\na 1 0\n0\n\
#lines of one kind, and one without variables@|qbf|q.cnf@20 s FALSE
% SZS status Unsatisfiable for q.cnf
@+Unsatisfiable@q.cnf@p cnf 3 1\na 1 0\na 2 0\ne 0\na 3 0\n1 2 3 0\n\
#two constants in one element@|fmodel|1|m.p@0 % no tables 1 for m.p
% SZS status Unsatisfiable for m.p
% SZS output start CNFRefutation for m.p
% instgen certificate 3
% ground constant bot_0
cnf(i1,axiom,id(k1,k1),named(id)).
cnf(i2,axiom,f1(k1),named(f1)).
cnf(i3,axiom,f2(k1),named(f2)).
cnf(i4,axiom,~f1(X0) | ~f2(X1) | ~id(X0,X1),named(x)).
cnf(m1,@+Unsatisfiable@m.p@cnf(x,axiom,a != b).\
#a cycle of four elements@|fmodel|4|m.p@0 % tables 4 for m.p
f(1) = @@m.p@cnf(a,axiom,f(X) != X). cnf(b,axiom,f(f(X)) != X). cnf(c,axiom,f(f(f(f(X)))) = X).\
#which three have not@|fmodel|3|m.p@0 % no tables 3 for m.p
% SZS status Unsatisfiable for m.p
@+Unsatisfiable@m.p@cnf(a,axiom,f(X) != X). cnf(b,axiom,f(f(X)) != X). cnf(c,axiom,f(f(f(f(X)))) = X).\
#the empty clause@|fmodel|1|m.p@0 % no tables 1 for m.p
% SZS status Unsatisfiable for m.p
@+Unsatisfiable@m.p@cnf(a,axiom,$false).\
#three of four clauses@|core|r20.p@0 % core of r20.p: 1 3 4
% SZS status Unsatisfiable for r20.p
% SZS output start CNFRefutation for r20.p
% instgen certificate 3
% ground constant bot_0
cnf(i1,axiom,p(c),named(a)).
cnf(i2,axiom,~p(X0) | r(X0),named(d)).
cnf(i3,axiom,~r(c),named(e)).
cnf(m1,@+Unsatisfiable+Satisfiable+Satisfiable+Satisfiable@r20.p@cnf(a,axiom,p(c)). cnf(b,axiom,q(c)). cnf(d,axiom,~p(X)|r(X)). cnf(e,axiom,~r(c)).\
#an empty clause@|core|e.p@0 % core of e.p: 2
% SZS status Unsatisfiable for e.p
@+Unsatisfiable+Satisfiable@e.p@cnf(a,axiom,p). cnf(b,axiom,$false).\
#two equal clauses@|core|e.p@0 % core of e.p: @+Unsatisfiable+Satisfiable+Satisfiable@e.p@cnf(a,axiom,p). cnf(b,axiom,p). cnf(c,axiom,~p).\
#a core of all clauses@|core|e.p@0 % core of e.p: 1 2 3
% SZS status Unsatisfiable for e.p
@+Unsatisfiable+Satisfiable+Satisfiable+Satisfiable@e.p@cnf(a,axiom,p(c)). cnf(b,axiom,~p(X)|q(X)). cnf(c,axiom,~q(c)).\
#five of eight clauses@|core|e.p@0 % core of e.p: 2 3 5 6 8
% SZS status Unsatisfiable for e.p
@+Unsatisfiable+Satisfiable+Satisfiable+Satisfiable+Satisfiable+Satisfiable@e.p@cnf(a,axiom,q(c)|s(d)). cnf(b,axiom,p(c)). cnf(d,axiom,~p(X)|q(X)). cnf(e,axiom,~q(d)). cnf(f,axiom,~q(X)|r(X)). cnf(g,axiom,~r(X)|s(X)). cnf(h,axiom,r(d)). cnf(i,axiom,~s(c)).\
#equality in some clauses only@|core|e.p@0 % core of e.p: 1 2 4
% SZS status Unsatisfiable for e.p
@+Unsatisfiable+Satisfiable+Satisfiable+Satisfiable@e.p@cnf(a,axiom,c=d). cnf(b,axiom,p(c)). cnf(e,axiom,q(c)). cnf(f,axiom,~p(d)).\
";

// The status that the line tells, if it tells one.
fn status_in(line: &str) -> Option<&str> {
    let rest = line.strip_prefix("% SZS status ")?;
    let (word, _) = rest.split_once(" for ")?;
    Some(word)
}

fn push_statuses(words: &mut Vec<u8>, text: &str) -> Result<(), Memory> {
    for line in text.lines() {
        if let Some(word) = status_in(line) {
            push_bytes(words, b"+")?;
            push_bytes(words, word.as_bytes())?;
        }
    }
    Ok(())
}

// Whether the lines of the text tell these statuses, in order.
fn has_statuses(alloc: Global, text: &str, wanted: &str) -> Result<bool, Memory> {
    let mut words = Vec::new(alloc);
    push_statuses(&mut words, text)?;
    Ok(words.as_slice() == wanted.as_bytes())
}

fn is_told(alloc: Global, answer: &[u8], start: &str, statuses: &str) -> Result<bool, Memory> {
    match str::from_utf8(answer) {
        Ok(text) => {
            if !text.starts_with(start) {
                return Ok(false);
            }
            has_statuses(alloc, text, statuses)
        }
        Err(_) => Ok(false),
    }
}

fn is_answered(
    alloc: Global,
    words: &str,
    start: &str,
    statuses: &str,
    files: &str,
) -> Result<bool, Memory> {
    let files = files_of(alloc, files)?;
    let answer = answer_of(alloc, words, files)?;
    is_told(alloc, answer.as_slice(), start, statuses)
}

/// Whether the answer begins as the row has it, and has its statuses.
pub fn is_right(alloc: Global, row: &str) -> Result<bool, Memory> {
    match four_parts(row) {
        Some((_, words, start, rest)) => match rest.split_once("@") {
            Some((statuses, files)) => is_answered(alloc, words, start, statuses, files),
            None => Ok(false),
        },
        None => Ok(false),
    }
}
