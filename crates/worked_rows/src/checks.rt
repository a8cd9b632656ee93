// Certificates that are checked and asked, as files of pieces: what is said of them, and why nothing is.
use crate::runs::{add_file, files_of, four_parts, is_answer};
use inst_logic::Memory;
use outside_io::FileList;
use std::alloc::Global;
use tptp_write::push_bytes;

// Pieces by their names: of a saturation with two literals of one weight that match the same atoms, and of a refutation.
const PIECES: &str = "\
#TIE@% SZS status Satisfiable for tie.p
% SZS output start Saturation for tie.p
% instgen certificate 1
cnf(i1,axiom,p(X0,a) | q(X0),named(one)).
cnf(i2,axiom,~p(b,X0) | s(X0),named(two)).
\
#M1@cnf(m1,plain,p(X0,a) | q(X0),input(1),[selected(1)]).\n\
#M2@cnf(m2,plain,~p(b,X0) | s(X0),input(2),[selected(1)]).\n\
#M3@cnf(m3,plain,p(b,a) | q(b),inst(m1,1,m2,1),[selected(2)]).\n\
#M4@cnf(m4,plain,~p(b,a) | s(a),inst(m2,1,m1,1),[selected(2)]).\n\
#TIE_END@% SZS output end Saturation for tie.p\n\
#START@% SZS status Unsatisfiable for r3.p
% SZS output start CNFRefutation for r3.p
\
#FORMAT@% instgen certificate 1\n\
#MEMBERS@% ground constant bot_0
cnf(i1,axiom,p(X0),named(one)).
cnf(i2,axiom,~p(c),named(two)).
cnf(m1,plain,p(X0),input(1)).
cnf(m2,plain,~p(c),input(2)).
cnf(m3,plain,p(c),inst(m1,1,m2,1)).
\
#G1@cnf(g1,plain,p(bot_0),ground(m1)).\n\
#GROUNDS@cnf(g2,plain,~p(c),ground(m2)).
cnf(g3,plain,p(c),ground(m3)).
\
#STEP@cnf(r1,plain,$false,rup([g2,g3])).\n\
#END@% SZS output end CNFRefutation for r3.p\n\
#NAMED@% SZS status Satisfiable for tie.p
% SZS output start Saturation for tie.p
% instgen certificate 3
cnf(i1,axiom,p(X0,a) | q(X0),named(one)).
cnf(i2,axiom,~p(b,X0) | s(X0),named(two)).
\
#Q1@cnf(q1,plain,p(X0,a) | q(X0),part(m1,[X0])).\n\
#Q2@cnf(q2,plain,~p(b,X0) | s(X0),part(m2,[X0])).\n\
#C1@cnf(c1,plain,p(b,a) | q(b),cover(m1,m2,left),[variant(m3)]).\n\
#C2@cnf(c2,plain,~p(b,a) | s(a),cover(m1,m2,right),[variant(m4)]).\n\
#SECOND@% instgen certificate 2\n\
#LINES@cnf(g1,plain,p(bot_0),ground(1,[bot_0])).
cnf(g2,plain,~p(c),ground(2,[])).
cnf(g3,plain,p(c),ground(1,[c])).
\
";

// The files that a certificate stands beside.
const PROBLEMS: &str = "\
tie.p@cnf(a,axiom,p(X,a) | q(X)). cnf(b,axiom,~p(b,Y) | s(Y)).@\
half.p@cnf(a,axiom,p(X,a) | q(X)).@\
bad.p@cnf(a,axiom,p(@\
d/m.p@include('tie.p').@\
t/tie.p@cnf(a,axiom,p(X,a) | q(X)). cnf(b,axiom,~p(b,Y) | s(Y)).";

// What the row is about, the words, the status with what is written, and the pieces of the certificate file `c`, by their names or
// as they are.
pub const ROWS: &str = "\
#@|check|c@0 valid Saturation\n@TIE+M1+M2+M3+M4+TIE_END\
#@|check|c@0 valid CNFRefutation\n@START+FORMAT+MEMBERS+G1+GROUNDS+STEP+END\
#a tie makes an atom false@|ask|c|p(b,a)@0 false\n@TIE+M1+M2+M3+M4+TIE_END\
#@|ask|c|p(c,a)@0 true\n@TIE+M1+M2+M3+M4+TIE_END\
#@|ask|c|p(b,c)@0 false\n@TIE+M1+M2+M3+M4+TIE_END\
#@|ask|c|s(a)@0 true\n@TIE+M1+M2+M3+M4+TIE_END\
#an atom over other symbols@|ask|c|t(f(a))@0 false\n@TIE+M1+M2+M3+M4+TIE_END\
#the problem of the certificate, and others@|check|c|--problem|tie.p@0 valid Saturation\n@TIE+M1+M2+M3+M4+TIE_END\
#@|check|c|--problem=half.p@7 invalid: problem 2\n@TIE+M1+M2+M3+M4+TIE_END\
#@|check|--problem|tie.p|c@7 invalid: problem 1\n@START+FORMAT+MEMBERS+G1+GROUNDS+STEP+END\
#which is compared before the certificate is checked@|check|c|--problem|half.p@7 invalid: problem 2\n@TIE+M1+M2+TIE_END\
#a problem that is refused@|check|c|--problem|no.p@2 % SZS status InputError for c\n% absent: no.p\n@TIE+M1+M2+M3+M4+TIE_END\
#@|check|c|--problem|bad.p@2 % SZS status SyntaxError for c\n% syntax: statement 1 of bad.p\n@TIE+M1+M2+M3+M4+TIE_END\
#@|check|c|--problem|bad.p@2 % SZS status SyntaxError for c\n% syntax: statement 1 of bad.p\n@TIE+M1+M2+TIE_END\
#an include is tried under the root too@|check|c|--problem|d/m.p@2 % SZS status InputError for c\n% absent: tie.p\n@TIE+M1+M2+M3+M4+TIE_END\
#@|check|c|--problem|d/m.p|--root|t@0 valid Saturation\n@TIE+M1+M2+M3+M4+TIE_END\
#complaints@|check|c@7 invalid: input 2\n@TIE+M1+TIE_END\
#@|check|c@7 invalid: pair 1 2\n@TIE+M1+M2+TIE_END\
#@|check|c@7 invalid: pair 3 4\n@TIE+M1+M2+cnf(m3,plain,p(b,a) | q(b),inst(m1,1,m2,1),[selected(1)]).\n+cnf(m4,plain,~p(b,a) | s(a),inst(m2,1,m1,1),[selected(1)]).\n+TIE_END\
#@|check|c@7 invalid: member 3\n@TIE+M1+M2+cnf(m3,plain,p(b,a) | q(a),inst(m1,1,m2,1),[selected(2)]).\n+M4+TIE_END\
#@|check|c@7 invalid: place 1\n@TIE+cnf(m1,plain,p(X0,a) | q(X0),input(1),[selected(3)]).\n+M2+M3+M4+TIE_END\
#@|check|c@7 invalid: step 1\n@START+FORMAT+MEMBERS+G1+GROUNDS+cnf(r1,plain,$false,rup([g1,g2])).\n+END\
#@|check|c@7 invalid: no empty clause\n@START+FORMAT+MEMBERS+G1+GROUNDS+END\
#@|check|c@7 invalid: ground 1\n@START+FORMAT+MEMBERS+cnf(g1,plain,p(a),ground(m1)).\n+GROUNDS+STEP+END\
#@|ask|c|p(c,a)@7 invalid: input 2\n@TIE+M1+TIE_END\
#another format, and texts that are none of certificates@|check|c@2 % SZS status InputError for c\n% version: 9\n@START+% instgen certificate 9\n+MEMBERS+G1+GROUNDS+STEP+END\
#@|ask|c|p(c)@2 % SZS status InputError for c\n% version: 9\n@START+% instgen certificate 9\n+MEMBERS+G1+GROUNDS+STEP+END\
#@|check|c@2 % SZS status SyntaxError for c\n% syntax: line 14 of c\n@START+FORMAT+MEMBERS+G1+GROUNDS+STEP\
#@|ask|c|p(c)@2 % SZS status SyntaxError for c\n% syntax: line 14 of c\n@START+FORMAT+MEMBERS+G1+GROUNDS+STEP\
#@|check|c@2 % SZS status SyntaxError for c\n% syntax: line 1 of c\n@\
#a text that is refused comes before a problem that is@|check|c|--problem|no.p@2 % SZS status SyntaxError for c\n% syntax: line 10 of c\n@TIE+M1+M2+M3+M4\
#no such file@|check|no.c@2 % SZS status InputError for no.c\n% absent: no.c\n@TIE+M1+M2+M3+M4+TIE_END\
#@|check|no.c|--problem|no.p@2 % SZS status InputError for no.c\n% absent: no.c\n@TIE+M1+M2+M3+M4+TIE_END\
#@|ask|no.c|p(c,a)@2 % SZS status InputError for no.c\n% absent: no.c\n@TIE+M1+M2+M3+M4+TIE_END\
#a refutation says nothing of an atom, valid or not@|ask|c|p(c)@2 % SZS status InputError for c\n% no saturation: c\n@START+FORMAT+MEMBERS+G1+GROUNDS+STEP+END\
#@|ask|c|p(c)@2 % SZS status InputError for c\n% no saturation: c\n@START+FORMAT+MEMBERS+G1+GROUNDS+END\
#named covers@|check|c@0 valid Saturation\n@NAMED+M1+M2+M3+M4+Q1+Q2+C1+C2+TIE_END\
#@|check|c@7 invalid: cover 2\n@NAMED+M1+M2+M3+M4+Q1+Q2+C1+cnf(c2,plain,~p(b,a) | s(a),cover(m2,m1,left),[variant(m4)]).\n+TIE_END\
#@|check|c@7 invalid: cover 2\n@NAMED+M1+M2+M3+M4+Q1+Q2+C1+TIE_END\
#@|check|c@7 invalid: cover 1\n@NAMED+M1+M2+M3+M4+Q1+Q2+cnf(c1,plain,p(b,a) | q(b),cover(m1,m2,left),[variant(m4)]).\n+C2+TIE_END\
#@|check|c@7 invalid: input 1\n@NAMED+M1+M2+M3+M4+cnf(q1,plain,p(X0,a) | q(X0),part(m1,[a])).\n+Q2+C1+C2+TIE_END\
#@|check|c@7 invalid: input 2\n@NAMED+M1+M2+M3+M4+Q1+cnf(q2,plain,~p(b,X0) | s(X0),tautology).\n+C1+C2+TIE_END\
#@|check|c@2 % SZS status SyntaxError for c\n% syntax: line 11 of c\n@NAMED+M1+M2+M3+M4+Q1+TIE_END\
#@|check|c|--problem|tie.p@0 valid Saturation\n@NAMED+M1+M2+M3+M4+Q1+Q2+C1+C2+TIE_END\
#@|ask|c|p(b,a)@0 false\n@NAMED+M1+M2+M3+M4+Q1+Q2+C1+C2+TIE_END\
#@|ask|c|p(c,a)@0 true\n@NAMED+M1+M2+M3+M4+Q1+Q2+C1+C2+TIE_END\
#@|ask|c|p(c,a)@7 invalid: cover 2\n@NAMED+M1+M2+M3+M4+Q1+Q2+C1+TIE_END\
#lines that name their inputs@|check|c@0 valid CNFRefutation\n@START+SECOND+MEMBERS+LINES+STEP+END\
#a ground line of no clause@|check|c@7 invalid: ground 1\n@START+SECOND+MEMBERS+cnf(g1,plain,p(bot_0),ground(9,[bot_0])).\n+cnf(g2,plain,~p(c),ground(2,[])).\n+cnf(g3,plain,p(c),ground(1,[c])).\n+STEP+END\
#too few terms@|check|c@7 invalid: ground 1\n@START+SECOND+MEMBERS+cnf(g1,plain,p(bot_0),ground(1,[])).\n+cnf(g2,plain,~p(c),ground(2,[])).\n+cnf(g3,plain,p(c),ground(1,[c])).\n+STEP+END\
#a term with a variable@|check|c@7 invalid: ground 1\n@START+SECOND+MEMBERS+cnf(g1,plain,p(X0),ground(1,[X0])).\n+cnf(g2,plain,~p(c),ground(2,[])).\n+cnf(g3,plain,p(c),ground(1,[c])).\n+STEP+END\
#another clause@|check|c@7 invalid: ground 1\n@START+SECOND+MEMBERS+cnf(g1,plain,p(c),ground(1,[bot_0])).\n+cnf(g2,plain,~p(c),ground(2,[])).\n+cnf(g3,plain,p(c),ground(1,[c])).\n+STEP+END\
#a part that members imply@|check|c@0 valid CNFRefutation\n@START+SECOND+MEMBERS+cnf(m4,plain,$false,lemma(m1,1,m2,1,[],[m2,m3])).\n+LINES+STEP+END\
#a premise that is not there before@|check|c@7 invalid: member 4\n@START+SECOND+MEMBERS+cnf(m4,plain,$false,lemma(m1,1,m2,1,[],[m4])).\n+LINES+STEP+END\
#a premise without a number@|check|c@7 invalid: member 4\n@START+SECOND+MEMBERS+cnf(m4,plain,$false,lemma(m1,1,m2,1,[],[m0])).\n+LINES+STEP+END\
#all literals are kept@|check|c@7 invalid: member 4\n@START+SECOND+MEMBERS+cnf(m4,plain,p(c),lemma(m1,1,m2,1,[1],[])).\n+LINES+STEP+END\
#a place that is none@|check|c@7 invalid: member 4\n@START+SECOND+MEMBERS+cnf(m4,plain,p(c),lemma(m1,1,m2,1,[2],[])).\n+LINES+STEP+END\
#more than the part@|check|c@7 invalid: member 4\n@START+SECOND+MEMBERS+cnf(m4,plain,p(c),lemma(m1,1,m2,1,[],[])).\n+LINES+STEP+END\
#a side that is not proper@|check|c@7 invalid: member 4\n@START+SECOND+MEMBERS+cnf(m4,plain,$false,lemma(m2,1,m1,1,[],[])).\n+LINES+STEP+END\
#the first format has no parts@|check|c@2 % SZS status SyntaxError for c\n% syntax: line 10 of c\n@START+FORMAT+MEMBERS+cnf(m4,plain,$false,lemma(m1,1,m2,1,[],[m2])).\n+G1+GROUNDS+STEP+END\
#a part of a saturation@|check|c@0 valid Saturation\n@NAMED+M1+M2+M3+M4+cnf(m5,plain,q(b),lemma(m1,1,m2,1,[2],[m3]),[selected(1)]).\n+Q1+Q2+C1+C2+TIE_END\
#places that do not rise@|check|c@7 invalid: member 5\n@NAMED+M1+M2+M3+M4+cnf(m5,plain,p(b,a),lemma(m1,1,m2,1,[1,1],[]),[selected(1)]).\n+Q1+Q2+C1+C2+TIE_END\
#an input shown by a variant@|check|c@7 invalid: input 1\n@NAMED+M1+M2+M3+M4+cnf(q1,plain,p(X0,a) | q(X0),variant(m1)).\n+Q2+C1+C2+TIE_END\
#an input shown by no member@|check|c@7 invalid: input 1\n@NAMED+M1+M2+M3+M4+cnf(q1,plain,p(X0,a) | q(X0),part(m9,[X0])).\n+Q2+C1+C2+TIE_END\
#an input shown with too few terms@|check|c@7 invalid: input 1\n@NAMED+M1+M2+M3+M4+cnf(q1,plain,p(X0,a) | q(X0),part(m1,[])).\n+Q2+C1+C2+TIE_END\
#variables with the largest numbers of four bytes, and with larger ones@|check|c@7 invalid: input 1\n@NAMED+M1+M2+M3+M4+cnf(q1,plain,p(X0,a) | q(X0),part(m1,[X4294967295])).\n+Q2+C1+C2+TIE_END\
#@|check|c@7 invalid: input 1\n@NAMED+M1+M2+M3+M4+cnf(q1,plain,p(X0,a) | q(X0),part(m1,[X4294967296])).\n+Q2+C1+C2+TIE_END\
#@|check|c@7 invalid: input 1\n@NAMED+M1+M2+M3+M4+cnf(q1,plain,p(X0,a) | q(X0),part(m1,[X18446744073709551615])).\n+Q2+C1+C2+TIE_END\
#@|check|c|--rewrite@7 invalid: input 1\n@NAMED+M1+M2+M3+M4+cnf(q1,plain,p(X0,a) | q(X0),part(m1,[X4294967296])).\n+Q2+C1+C2+TIE_END\
#@|ask|c|p(c,a)@7 invalid: input 1\n@NAMED+M1+M2+M3+M4+cnf(q1,plain,p(X0,a) | q(X0),part(m1,[X4294967296])).\n+Q2+C1+C2+TIE_END\
#@|check|c@7 invalid: ground 1\n@START+SECOND+MEMBERS+cnf(g1,plain,p(bot_0),ground(1,[X4294967295])).\n+cnf(g2,plain,~p(c),ground(2,[])).\n+cnf(g3,plain,p(c),ground(1,[c])).\n+STEP+END\
#@|check|c@7 invalid: ground 1\n@START+SECOND+MEMBERS+cnf(g1,plain,p(bot_0),ground(1,[X4294967296])).\n+cnf(g2,plain,~p(c),ground(2,[])).\n+cnf(g3,plain,p(c),ground(1,[c])).\n+STEP+END\
#@|check|c|--rewrite@7 invalid: ground 1\n@START+SECOND+MEMBERS+cnf(g1,plain,p(bot_0),ground(1,[X4294967296])).\n+cnf(g2,plain,~p(c),ground(2,[])).\n+cnf(g3,plain,p(c),ground(1,[c])).\n+STEP+END\
#@|ask|c|p(c)@2 % SZS status InputError for c\n% no saturation: c\n@START+SECOND+MEMBERS+cnf(g1,plain,p(bot_0),ground(1,[X4294967296])).\n+cnf(g2,plain,~p(c),ground(2,[])).\n+cnf(g3,plain,p(c),ground(1,[c])).\n+STEP+END\
#@|check|c@2 % SZS status SyntaxError for c\n% syntax: line 4 of c\n@% SZS status Satisfiable for t\n% SZS output start Saturation for t\n% instgen certificate 3\ncnf(i1,axiom,p(X4294967295),named(a)).\n% SZS output end Saturation for t\n\
#@|check|c@2 % SZS status SyntaxError for c\n% syntax: line 4 of c\n@% SZS status Satisfiable for t\n% SZS output start Saturation for t\n% instgen certificate 3\ncnf(i1,axiom,p(X4294967296),named(a)).\n% SZS output end Saturation for t\n\
#@|check|c|--rewrite@2 % SZS status SyntaxError for c\n% syntax: line 4 of c\n@% SZS status Satisfiable for t\n% SZS output start Saturation for t\n% instgen certificate 3\ncnf(i1,axiom,p(X4294967296),named(a)).\n% SZS output end Saturation for t\n\
#@|ask|c|p(c,a)@2 % SZS status SyntaxError for c\n% syntax: line 4 of c\n@% SZS status Satisfiable for t\n% SZS output start Saturation for t\n% instgen certificate 3\ncnf(i1,axiom,p(X4294967296),named(a)).\n% SZS output end Saturation for t\n\
#a cover of another clause@|check|c@7 invalid: cover 1\n@NAMED+M1+M2+M3+M4+Q1+Q2+cnf(c1,plain,p(b,a) | q(a),cover(m1,m2,left),[variant(m3)]).\n+C2+TIE_END\
#a cover by as many literals@|check|c@7 invalid: cover 1\n@NAMED+M1+M2+M3+M4+Q1+Q2+cnf(c1,plain,p(b,a) | q(b),cover(m1,m2,left),[part(m3,[])]).\n+C2+TIE_END\
#a cover by a tautology that is none@|check|c@7 invalid: cover 1\n@NAMED+M1+M2+M3+M4+Q1+Q2+cnf(c1,plain,p(b,a) | q(b),cover(m1,m2,left),[tautology]).\n+C2+TIE_END\
#a cover by no member@|check|c@7 invalid: cover 1\n@NAMED+M1+M2+M3+M4+Q1+Q2+cnf(c1,plain,p(b,a) | q(b),cover(m1,m2,left),[variant(m9)]).\n+C2+TIE_END\
#a place that is none@|check|c@7 invalid: place 3\n@NAMED+M1+M2+cnf(m3,plain,p(b,a) | q(b),inst(m1,1,m2,1),[selected(3)]).\n+M4+Q1+Q2+C1+C2+TIE_END\
#a pair that is proper on neither side@|check|c@7 invalid: pair 1 2
@% SZS status Satisfiable for t
% SZS output start Saturation for t
% instgen certificate 3
cnf(i1,axiom,p,named(a)).
cnf(i2,axiom,~p,named(b)).
cnf(m1,plain,p,input(1),[selected(1)]).
cnf(m2,plain,~p,input(2),[selected(1)]).
cnf(q1,plain,p,part(m1,[])).
cnf(q2,plain,~p,part(m2,[])).
% SZS output end Saturation for t
\
#an axiom that is not there@|check|c@7 invalid: axiom 1
@% SZS status Satisfiable for t
% SZS output start Saturation for t
% instgen certificate 3
cnf(i1,axiom,a = b,named(a)).
cnf(m1,plain,a = b,input(1),[selected(1)]).
cnf(q1,plain,a = b,part(m1,[])).
% SZS output end Saturation for t
\
#@|check|c@0 valid CNFRefutation\n@START+% instgen certificate 3\n+MEMBERS+LINES+STEP+END\
#@|check|c@2 % SZS status SyntaxError for c\n% syntax: line 10 of c\n@START+SECOND+MEMBERS+G1+GROUNDS+STEP+END\
#@|ask|c|p(c)@2 % SZS status InputError for c\n% no saturation: c\n@START+SECOND+MEMBERS+LINES+STEP+END\
#rewritten under its own name@|check|c|--rewrite@0 % SZS status Satisfiable for tie.p
% SZS output start Saturation for tie.p
% instgen certificate 3
cnf(i1,axiom,p(X0,a) | q(X0),named(one)).
cnf(i2,axiom,~p(b,X0) | s(X0),named(two)).
cnf(m1,plain,p(X0,a) | q(X0),input(1),[selected(1)]).
cnf(m2,plain,~p(b,X0) | s(X0),input(2),[selected(1)]).
cnf(m3,plain,p(b,a) | q(b),inst(m1,1,m2,1),[selected(2)]).
cnf(m4,plain,~p(b,a) | s(a),inst(m2,1,m1,1),[selected(2)]).
cnf(q1,plain,p(X0,a) | q(X0),part(m1,[X0])).
cnf(q2,plain,~p(b,X0) | s(X0),part(m2,[X0])).
cnf(c1,plain,p(b,a) | q(b),cover(m1,m2,left),[variant(m3)]).
cnf(c2,plain,~p(b,a) | s(a),cover(m1,m2,right),[variant(m4)]).
% SZS output end Saturation for tie.p
@TIE+M1+M2+M3+M4+TIE_END\
#@|check|--rewrite|c|--problem|tie.p@0 % SZS status Satisfiable for tie.p
% SZS output start Saturation for tie.p
% instgen certificate 3
cnf(i1,axiom,p(X0,a) | q(X0),named(one)).
cnf(i2,axiom,~p(b,X0) | s(X0),named(two)).
cnf(m1,plain,p(X0,a) | q(X0),input(1),[selected(1)]).
cnf(m2,plain,~p(b,X0) | s(X0),input(2),[selected(1)]).
cnf(m3,plain,p(b,a) | q(b),inst(m1,1,m2,1),[selected(2)]).
cnf(m4,plain,~p(b,a) | s(a),inst(m2,1,m1,1),[selected(2)]).
cnf(q1,plain,p(X0,a) | q(X0),part(m1,[X0])).
cnf(q2,plain,~p(b,X0) | s(X0),part(m2,[X0])).
cnf(c1,plain,p(b,a) | q(b),cover(m1,m2,left),[variant(m3)]).
cnf(c2,plain,~p(b,a) | s(a),cover(m1,m2,right),[variant(m4)]).
% SZS output end Saturation for tie.p
@TIE+M1+M2+M3+M4+TIE_END\
#@|check|c|--rewrite@0 % SZS status Satisfiable for tie.p
% SZS output start Saturation for tie.p
% instgen certificate 3
cnf(i1,axiom,p(X0,a) | q(X0),named(one)).
cnf(i2,axiom,~p(b,X0) | s(X0),named(two)).
cnf(m1,plain,p(X0,a) | q(X0),input(1),[selected(1)]).
cnf(m2,plain,~p(b,X0) | s(X0),input(2),[selected(1)]).
cnf(m3,plain,p(b,a) | q(b),inst(m1,1,m2,1),[selected(2)]).
cnf(m4,plain,~p(b,a) | s(a),inst(m2,1,m1,1),[selected(2)]).
cnf(q1,plain,p(X0,a) | q(X0),part(m1,[X0])).
cnf(q2,plain,~p(b,X0) | s(X0),part(m2,[X0])).
cnf(c1,plain,p(b,a) | q(b),cover(m1,m2,left),[variant(m3)]).
cnf(c2,plain,~p(b,a) | s(a),cover(m1,m2,right),[variant(m4)]).
% SZS output end Saturation for tie.p
@NAMED+M1+M2+M3+M4+Q1+Q2+C1+C2+TIE_END\
#@|check|c|--rewrite@0 % SZS status Unsatisfiable for r3.p
% SZS output start CNFRefutation for r3.p
% instgen certificate 3
% ground constant bot_0
cnf(i1,axiom,p(X0),named(one)).
cnf(i2,axiom,~p(c),named(two)).
cnf(m1,plain,p(X0),input(1)).
cnf(m2,plain,~p(c),input(2)).
cnf(m3,plain,p(c),inst(m1,1,m2,1)).
cnf(g1,plain,p(bot_0),ground(1,[bot_0])).
cnf(g2,plain,~p(c),ground(2,[])).
cnf(g3,plain,p(c),ground(1,[c])).
cnf(r1,plain,$false,rup([g2,g3])).
% SZS output end CNFRefutation for r3.p
@START+FORMAT+MEMBERS+G1+GROUNDS+STEP+END\
#@|check|c|--rewrite@0 % SZS status Unsatisfiable for r3.p
% SZS output start CNFRefutation for r3.p
% instgen certificate 3
% ground constant bot_0
cnf(i1,axiom,p(X0),named(one)).
cnf(i2,axiom,~p(c),named(two)).
cnf(m1,plain,p(X0),input(1)).
cnf(m2,plain,~p(c),input(2)).
cnf(m3,plain,p(c),inst(m1,1,m2,1)).
cnf(g1,plain,p(bot_0),ground(1,[bot_0])).
cnf(g2,plain,~p(c),ground(2,[])).
cnf(g3,plain,p(c),ground(1,[c])).
cnf(r1,plain,$false,rup([g2,g3])).
% SZS output end CNFRefutation for r3.p
@START+SECOND+MEMBERS+LINES+STEP+END\
#but not where it is not valid@|check|c|--rewrite@7 invalid: pair 1 2\n@TIE+M1+M2+TIE_END\
#@|check|c|--rewrite@7 invalid: step 1\n@START+FORMAT+MEMBERS+G1+GROUNDS+cnf(r1,plain,$false,rup([g1,g2])).\n+END\
#@|check|c|--rewrite|--problem=half.p@7 invalid: problem 2\n@TIE+M1+M2+M3+M4+TIE_END\
#@|check|c|--rewrite@2 % SZS status InputError for c\n% version: 9\n@START+% instgen certificate 9\n+MEMBERS+G1+GROUNDS+STEP+END\
#@|check|no.c|--rewrite|--problem|no.p@2 % SZS status InputError for no.c\n% absent: no.c\n@TIE+M1+M2+M3+M4+TIE_END\
#@|check|c|--rewrite|--problem|no.p@2 % SZS status InputError for c\n% absent: no.p\n@TIE+M1+M2+M3+M4+TIE_END\
#words that are not read@|check|c|c@3 % SZS status UsageError for instgen\n% usage\n@TIE+M1+M2+M3+M4+TIE_END\
#@|ask|c@3 % SZS status UsageError for instgen\n% usage\n@TIE+M1+M2+M3+M4+TIE_END\
#@|ask|c|p(X)@3 % SZS status UsageError for instgen\n% usage\n@TIE+M1+M2+M3+M4+TIE_END\
#@|ask|no.c|p(@3 % SZS status UsageError for instgen\n% usage\n@TIE+M1+M2+M3+M4+TIE_END\
";

fn piece_of<'a>(name: &'a str) -> &'a str {
    for row in PIECES.split('#') {
        if let Some((known, piece)) = row.split_once("@") {
            if known == name {
                return piece;
            }
        }
    }
    name
}

fn push_pieces(cert: &mut Vec<u8>, names: &str) -> Result<(), Memory> {
    for name in names.split('+') {
        push_bytes(cert, piece_of(name).as_bytes())?;
    }
    Ok(())
}

fn add_cert_by(
    alloc: Global,
    files: &mut FileList,
    cert: &mut Vec<u8>,
    names: &str,
) -> Result<(), Memory> {
    push_pieces(cert, names)?;
    add_file(alloc, files, "c", cert.as_slice())
}

fn add_cert(alloc: Global, files: &mut FileList, names: &str) -> Result<(), Memory> {
    let mut cert = Vec::new(alloc);
    add_cert_by(alloc, files, &mut cert, names)
}

fn is_judged(alloc: Global, words: &str, wanted: &str, names: &str) -> Result<bool, Memory> {
    let mut files = files_of(alloc, PROBLEMS)?;
    add_cert(alloc, &mut files, names)?;
    is_answer(alloc, words, files, wanted)
}

/// Whether the words of the row have its answer, where the certificate has its pieces.
pub fn is_right(alloc: Global, row: &str) -> Result<bool, Memory> {
    match four_parts(row) {
        Some((_, words, wanted, names)) => { is_judged(alloc, words, wanted, names) }
        None => Ok(false),
    }
}
