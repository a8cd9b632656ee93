// One row each: the answer to some words where the files are told.
use crate::runs::{file_of, files_of, four_parts, is_answer};
use inst_logic::Memory;
use std::alloc::Global;

// What the row is about, the words, the status with what is written, and the files.
pub const ROWS: &str = "\
#an empty file@|prove|r.p@0 % SZS status Satisfiable for r.p
% SZS output start Saturation for r.p
% instgen certificate 3
% SZS output end Saturation for r.p
@r.p@\
#satisfiable clauses@|prove|r.p@0 % SZS status Satisfiable for r.p
% SZS output start Saturation for r.p
% instgen certificate 3
cnf(i1,axiom,p | q,named(a)).
cnf(i2,axiom,~p,named(b)).
cnf(m1,plain,p | q,input(1),[selected(2)]).
cnf(m2,plain,~p,input(2),[selected(1)]).
cnf(q1,plain,p | q,part(m1,[])).
cnf(q2,plain,~p,part(m2,[])).
% SZS output end Saturation for r.p
@r.p@cnf(a,axiom,p | q). cnf(b,axiom,~p).\
#tautologies and repeats are no members@|prove|r.p@0 % SZS status Satisfiable for r.p
% SZS output start Saturation for r.p
% instgen certificate 3
cnf(i1,axiom,p,named(a)).
cnf(i2,axiom,p,named(b)).
cnf(i3,axiom,q | ~q,named(c)).
cnf(m1,plain,p,input(1),[selected(1)]).
cnf(q1,plain,p,part(m1,[])).
cnf(q2,plain,p,part(m1,[])).
cnf(q3,plain,q | ~q,tautology).
% SZS output end Saturation for r.p
@r.p@cnf(a,axiom,p). cnf(b,axiom,p). cnf(c,axiom,q|~q).\
#names in quotes@|prove|t.p@0 % SZS status Satisfiable for t.p
% SZS output start Saturation for t.p
% instgen certificate 3
cnf(i1,axiom,p('A') | ~q(b),named(one)).
cnf(i2,axiom,~p('A') | 'P',named('it\\'s')).
cnf(m1,plain,p('A') | ~q(b),input(1),[selected(2)]).
cnf(m2,plain,~p('A') | 'P',input(2),[selected(1)]).
cnf(q1,plain,p('A') | ~q(b),part(m1,[])).
cnf(q2,plain,~p('A') | 'P',part(m2,[])).
% SZS output end Saturation for t.p
@t.p@cnf(one,axiom,p('A')|~q('b')). cnf('it\\'s',axiom,~p('A')|'P').\
#a file that is absent@|prove|s.p@2 % SZS status InputError for s.p
% absent: s.p
@r.p@\
#a variable@|prove|r.p@0 % SZS status Satisfiable for r.p
% SZS output start Saturation for r.p
% instgen certificate 3
cnf(i1,axiom,p,named(a)).
cnf(i2,axiom,p(X0),named(b)).
cnf(m1,plain,p,input(1),[selected(1)]).
cnf(m2,plain,p(X0),input(2),[selected(1)]).
cnf(q1,plain,p,part(m1,[])).
cnf(q2,plain,p(X0),part(m2,[X0])).
% SZS output end Saturation for r.p
@r.p@cnf(a,axiom,p). cnf(b,axiom,p(X)).\
#the empty clause@|prove|empty.p@0 % SZS status Unsatisfiable for empty.p
% SZS output start CNFRefutation for empty.p
% instgen certificate 3
% ground constant bot_0
cnf(i1,axiom,$false,named(a)).
cnf(m1,plain,$false,input(1)).
cnf(g1,plain,$false,ground(1,[])).
cnf(r1,plain,$false,rup([g1])).
% SZS output end CNFRefutation for empty.p
@empty.p@cnf(a,axiom,$false).\
#no constant but the one for abstractions@|prove|r9.p@0 % SZS status Satisfiable for r9.p
% SZS output start Saturation for r9.p
% instgen certificate 3
cnf(i1,axiom,p(X0) | ~q(X0),named(a)).
cnf(i2,axiom,q(X0),named(b)).
cnf(m1,plain,p(X0) | ~q(X0),input(1),[selected(1)]).
cnf(m2,plain,q(X0),input(2),[selected(1)]).
cnf(q1,plain,p(X0) | ~q(X0),part(m1,[X0])).
cnf(q2,plain,q(X0),part(m2,[X0])).
% SZS output end Saturation for r9.p
@r9.p@cnf(a,axiom,p(X) | ~q(X)). cnf(b,axiom,q(Y)).\
#a budget that the one conclusion does not fit@|prove|r7.p|--budget|3@1 % SZS status ResourceOut for r7.p
% budget 3, left 3, least conclusion 4
@r7.p@cnf(a,axiom,p(f(X))). cnf(b,axiom,~p(f(f(c)))).\
#the least of two conclusions@|prove|--budget=3|r.p@1 % SZS status ResourceOut for r.p
% budget 3, left 3, least conclusion 4
@r.p@cnf(a,axiom,p(f(X))). cnf(b,axiom,~p(f(f(c)))). cnf(d,axiom,~p(f(g(c)))).\
#a selection reaches nested includes@|prove|m.p@0 % SZS status Satisfiable for m.p
% SZS output start Saturation for m.p
% instgen certificate 3
cnf(i1,axiom,p,named(b)).
cnf(m1,plain,p,input(1),[selected(1)]).
cnf(q1,plain,p,part(m1,[])).
% SZS output end Saturation for m.p
@m.p@include('a.p',[b]).@a.p@include('b.p'). cnf(x,axiom,q).@b.p@cnf(b,axiom,p). cnf(c,axiom,r).\
#a selected statement that is absent@|prove|m.p@2 % SZS status InputError for m.p
% not selected: zz in ax.p
@m.p@include('ax.p',[b,zz]). cnf(g,negated_conjecture,~p(c)).@ax.p@cnf(a,axiom,q(c)). cnf(b,axiom,p(X)).\
#an include that is absent@|prove|m.p@2 % SZS status InputError for m.p
% absent: no.p
@m.p@include('no.p').\
#a file that includes itself@|prove|loop.p@2 % SZS status InputError for loop.p
% limit include depth: loop.p
@loop.p@include('loop.p').\
#an include under the root@|prove|d/m.p|--root|t@0 % SZS status Satisfiable for d/m.p
% SZS output start Saturation for d/m.p
% instgen certificate 3
cnf(i1,axiom,p,named(a)).
cnf(m1,plain,p,input(1),[selected(1)]).
cnf(q1,plain,p,part(m1,[])).
% SZS output end Saturation for d/m.p
@d/m.p@include('A/x.ax').@t/A/x.ax@cnf(a,axiom,p).\
#an include beside its file comes first@|prove|d/m.p|--root|t@0 % SZS status Satisfiable for d/m.p
% SZS output start Saturation for d/m.p
% instgen certificate 3
cnf(i1,axiom,q,named(b)).
cnf(m1,plain,q,input(1),[selected(1)]).
cnf(q1,plain,q,part(m1,[])).
% SZS output end Saturation for d/m.p
@d/m.p@include('A/x.ax').@t/A/x.ax@cnf(a,axiom,p).@d/A/x.ax@cnf(b,axiom,q).\
#another language@|prove|r.p@2 % SZS status Inappropriate for r.p
% language fof: statement 3 of r.p
@r.p@cnf(a,axiom,p). cnf(b,axiom,q). fof(x,axiom,p).\
#a distinct object@|prove|r.p@2 % SZS status Inappropriate for r.p
% feature \"obj\": statement 1 of r.p
@r.p@cnf(a,axiom,p(\"obj\")).\
#a number@|prove|r.p@2 % SZS status Inappropriate for r.p
% feature 7: statement 1 of r.p
@r.p@cnf(a,axiom,p(7)).\
#another role@|prove|r.p@2 % SZS status Inappropriate for r.p
% role conjecture: statement 1 of r.p
@r.p@cnf(a,conjecture,p).\
#a statement without an end@|prove|cut.p@2 % SZS status SyntaxError for cut.p
% syntax: statement 4 of cut.p
@cut.p@cnf(a,axiom,p). cnf(b,axiom,q). cnf(c,axiom,r). cnf(d,axiom,p(\
#another language in an include@|prove|m.p@2 % SZS status Inappropriate for m.p
% language fof: statement 2 of ax.p
@m.p@include('ax.p').@ax.p@cnf(a,axiom,p). fof(b,axiom,p).\
";

// Rows of files in the DIMACS form.
pub const DIMACS: &str = "\
#@|sat|d.cnf@10 s SATISFIABLE\nv -1 2 0\n@d.cnf@p cnf 2 2\n1 2 0\n-1 0\n\
#@|sat|d.cnf@20 s UNSATISFIABLE\nr 3 0 1 2 0\n@d.cnf@p cnf 1 2\n1 0\n-1 0\n\
#@|sat|d.cnf@20 s UNSATISFIABLE\nr 2 0 1 0\n@d.cnf@p cnf 0 1\n0\
#@|sat|d.cnf@10 s SATISFIABLE\nv 0\n@d.cnf@c\np cnf 0 0\n%\nx\
#@|sat|d.cnf@2 % SZS status SyntaxError for d.cnf\n% syntax: line 1 of d.cnf\n@d.cnf@\
#@|sat|d.cnf@2 % SZS status InputError for d.cnf\n% clauses 0\n@d.cnf@p cnf 1 1\n\
#@|sat|d.cnf@2 % SZS status InputError for d.cnf\n% limit variables\n@d.cnf@p cnf 1000001 0\n\
#@|sat|d.cnf@2 % SZS status InputError for d.cnf\n% literal: line 2 of d.cnf\n@d.cnf@p cnf 1 1\n2 0\n\
#@|sat|d.cnf@2 % SZS status InputError for d.cnf\n% clauses 1\n@d.cnf@p cnf 1 2\n1 0\n\
#@|sat|--|-e.cnf@2 % SZS status InputError for -e.cnf\n% absent: -e.cnf\n@d.cnf@\
";

// Words that are not read, though there is a file r.p.
pub const UNREAD: &str = "\
#\
#|prove\
#|prove|r.p|s.p\
#|prove|\
#|prove|-r.p\
#|prove|r\n.p\
#|prove|a|b\
#|verify|r.p\
#|stress|1\
#|stress|100001\
#|stress|r.p\
#|prove|r.p|--root\
#|prove|r.p|--root|-d\
#|prove|r.p|--budget|x\
#|prove|--help\
#|sat|r.p|--root|d\
#|prove|r.p|--root|d|e\
";

fn is_answered(alloc: Global, words: &str, wanted: &str, files: &str) -> Result<bool, Memory> {
    let files = files_of(alloc, files)?;
    is_answer(alloc, words, files, wanted)
}

/// Whether the words of the row have its answer, where there are its files.
pub fn is_right(alloc: Global, row: &str) -> Result<bool, Memory> {
    match four_parts(row) {
        Some((_, words, wanted, files)) => { is_answered(alloc, words, wanted, files) }
        None => Ok(false),
    }
}

/// Whether the words are not read.
pub fn is_unread(alloc: Global, words: &str) -> Result<bool, Memory> {
    let files = file_of(alloc, "r.p", b"")?;
    is_answer(
        alloc,
        words,
        files,
        "3 % SZS status UsageError for instgen\n% usage\n",
    )
}
