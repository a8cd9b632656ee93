// Texts of certificates, and what they are read as.
use cert_reader::{CertError, Certificate, ReadCert, read_certificate};
use inst_logic::Memory;
use std::alloc::Global;
use tptp_write::{push_bytes, push_number};

// A refutation of `p(X)` and `~p(c)`, and a saturation whose selected literals tie at an atom, in the first format and in the
// third. Each proper prefix of them is refused at the line behind its whole ones.
pub const WHOLES: &str = "\
#% SZS status Unsatisfiable for r3.p
% SZS output start CNFRefutation for r3.p
% instgen certificate 1
% ground constant bot_0
cnf(i1,axiom,p(X0),named(one)).
cnf(i2,axiom,~p(c),named(two)).
cnf(m1,plain,p(X0),input(1)).
cnf(m2,plain,~p(c),input(2)).
cnf(m3,plain,p(c),inst(m1,1,m2,1)).
cnf(g1,plain,p(bot_0),ground(m1)).
cnf(g2,plain,~p(c),ground(m2)).
cnf(g3,plain,p(c),ground(m3)).
cnf(r1,plain,$false,rup([g2,g3])).
% SZS output end CNFRefutation for r3.p
@first 1 of r3.p\
#% SZS status Satisfiable for tie.p
% SZS output start Saturation for tie.p
% instgen certificate 1
cnf(i1,axiom,p(X0,a) | q(X0),named(one)).
cnf(i2,axiom,~p(b,X0) | s(X0),named(two)).
cnf(m1,plain,p(X0,a) | q(X0),input(1),[selected(1)]).
cnf(m2,plain,~p(b,X0) | s(X0),input(2),[selected(1)]).
cnf(m3,plain,p(b,a) | q(b),inst(m1,1,m2,1),[selected(2)]).
cnf(m4,plain,~p(b,a) | s(a),inst(m2,1,m1,1),[selected(2)]).
% SZS output end Saturation for tie.p
@saturation 1 of tie.p\
#% SZS status Unsatisfiable for r3.p
% SZS output start CNFRefutation for r3.p
% instgen certificate 3
% ground constant bot_0
cnf(i1,axiom,p(X0),named(one)).
cnf(i2,axiom,~p(c),named(two)).
cnf(m1,plain,p(X0),input(1)).
cnf(m2,plain,~p(c),input(2)).
cnf(m3,plain,p(c),inst(m1,1,m2,1)).
cnf(m4,plain,p(c),lemma(m1,1,m2,1,[1,2],[m1,m3])).
cnf(g1,plain,p(bot_0),ground(1,[bot_0])).
cnf(g2,plain,~p(c),ground(2,[])).
cnf(g3,plain,p(c),ground(1,[c])).
cnf(r1,plain,$false,rup([g2,g3])).
% SZS output end CNFRefutation for r3.p
@refutation 3 of r3.p\
#% SZS status Satisfiable for tie.p
% SZS output start Saturation for tie.p
% instgen certificate 3
cnf(i1,axiom,p(X0,a) | q(X0),named(one)).
cnf(i2,axiom,~p(b,X0) | s(X0),named(two)).
cnf(m1,plain,p(X0,a) | q(X0),input(1),[selected(1)]).
cnf(m2,plain,~p(b,X0) | s(X0),input(2),[selected(1)]).
cnf(m3,plain,p(b,a) | q(b),inst(m1,1,m2,1),[selected(2)]).
cnf(m4,plain,~p(b,a) | s(a),inst(m2,1,m1,1),[selected(2)]).
cnf(q1,plain,p(X0,a) | q(X0),part(m1,[X0])).
cnf(q2,plain,~p(b,X0) | s(X0),part(m2,[X0])).
cnf(c1,plain,p(b,a) | q(b),cover(m1,m2,left),[variant(m3)]).
cnf(c2,plain,~p(b,a) | s(a),cover(m1,m2,right),[variant(m4)]).
% SZS output end Saturation for tie.p
@covered 3 of tie.p\
";

// What stands between the first two lines of a saturation and its last one.
pub const MIDDLES: &str = "\
#% instgen certificate 1\n@saturation 1 of a b\
#% instgen certificate 9\n@version 9\
#% instgen certificate 10\n@version 10\
#% instgen certificate 123456789012345678\n@version 123456789012345678\
#% instgen certificate 1234567890123456789\n@syntax 3\
#% instgen certificate 01\n@syntax 3\
#% instgen certificate 0\n@syntax 3\
#% instgen certificate \n@syntax 3\
#% instgen certificate 2 \n@syntax 3\
#@syntax 3\
#% instgen certificate 1\n\n@syntax 4\
#% instgen certificate 1\n% ground constant c\n@syntax 4\
#% instgen certificate 1\ncnf(i1,axiom,p,named(a)).\n@saturation 1 of a b\
#% instgen certificate 1\ncnf(i2,axiom,p,named(a)).\n@syntax 4\
#% instgen certificate 1\ncnf(i0,axiom,p,named(a)).\n@syntax 4\
#% instgen certificate 1\ncnf(i01,axiom,p,named(a)).\n@syntax 4\
#% instgen certificate 1\ncnf(i1,axiom,p,named(a)).\r\n@syntax 4\
#% instgen certificate 1\ncnf(i1,axiom,p(X1),named(a)).\n@syntax 4\
#% instgen certificate 1\ncnf(i1,axiom,p(X4294967295),named(a)).\n@syntax 4\
#% instgen certificate 1\ncnf(i1,axiom,p(X4294967296),named(a)).\n@syntax 4\
#% instgen certificate 1\ncnf(i1,axiom,p(X18446744073709551615),named(a)).\n@syntax 4\
#% instgen certificate 1\ncnf(i1,axiom,p,named('a')).\n@syntax 4\
#% instgen certificate 1\ncnf(e1,axiom,X0 = X0,equality).\n@saturation 1 of a b\
#% instgen certificate 1\ncnf(e1,axiom,X0 = X0,equality).\ncnf(i1,axiom,p,named(a)).\n@syntax 5\
#% instgen certificate 1\ncnf(i1,axiom,p,named(a)).\ncnf(i1,axiom,p,named(a)).\n@syntax 5\
#% instgen certificate 1\ncnf(m1,plain,p,input(7)).\n@syntax 4\
#% instgen certificate 1\ncnf(m1,plain,p,input(18446744073709551615),[selected(0)]).\n@saturation 1 of a b\
#% instgen certificate 1\ncnf(m1,plain,p,input(18446744073709551616),[selected(0)]).\n@syntax 4\
#% instgen certificate 2\n@saturation 2 of a b\
#% instgen certificate 3\n@covered 3 of a b\
#% instgen certificate 4\n@version 4\
#% instgen certificate 20\n@version 20\
#% instgen certificate 33\n@version 33\
#% instgen certificate 02\n@syntax 3\
#% instgen certificate 3 \n@syntax 3\
#% instgen certificate 4 \n@syntax 3\
#% instgen certificate +3\n@syntax 3\
#% instgen certificate 1\ncnf(m1,plain,p,lemma(m1,1,m2,1,[1],[m1]),[selected(1)]).\n@syntax 4\
#% instgen certificate 2\ncnf(m1,plain,p,lemma(m1,1,m2,1,[1],[m1]),[selected(1)]).\n@saturation 2 of a b\
#% instgen certificate 3\ncnf(m1,plain,p,lemma(m1,1,m2,1,[1],[m1]),[selected(1)]).\n@covered 3 of a b\
#% instgen certificate 2\ncnf(m1,plain,p,lemma(m9,0,m0,8,[],[]),[selected(1)]).\n@saturation 2 of a b\
#% instgen certificate 2\ncnf(m1,plain,p,lemma(m1,1,m2,1,[3,0,3],[m9,m0,m9]),[selected(1)]).\n@saturation 2 of a b\
#% instgen certificate 2\ncnf(m1,plain,p,lemma(m1,1,m2,1,[18446744073709551615],[m18446744073709551615]),[selected(1)]).\n@saturation 2 of a b\
#% instgen certificate 2\ncnf(m1,plain,p,lemma(m1,1,m2,1,[18446744073709551616],[]),[selected(1)]).\n@syntax 4\
#% instgen certificate 2\ncnf(m1,plain,p,lemma(m1,1,m2,1,[1 ],[]),[selected(1)]).\n@syntax 4\
#% instgen certificate 2\ncnf(m1,plain,p,lemma(m1,1,m2,1,[01],[]),[selected(1)]).\n@syntax 4\
#% instgen certificate 2\ncnf(m1,plain,p,lemma(m1,1,m2,1,[1],[1]),[selected(1)]).\n@syntax 4\
#% instgen certificate 2\ncnf(m1,plain,p,lemma(m1,1,m2,1,[m1],[m1]),[selected(1)]).\n@syntax 4\
#% instgen certificate 2\ncnf(m1,plain,p,lemma(m1,1,m2,1,[1,],[]),[selected(1)]).\n@syntax 4\
#% instgen certificate 2\ncnf(m1,plain,p,lemma(m1,1,m2,1,[1]),[selected(1)]).\n@syntax 4\
#% instgen certificate 2\ncnf(m1,plain,p,lemma(m1,1,m2,1,[1],[m1])).\n@syntax 4\
#% instgen certificate 2\ncnf(i1,axiom,p(X0),named(a)).\ncnf(m1,plain,p(X0),input(1),[selected(1)]).\ncnf(q1,plain,p(X0),tautology).\n@syntax 6\
#% instgen certificate 2\ncnf(i1,axiom,p(X0),named(a)).\ncnf(m1,plain,p(X0),input(1),[selected(1)]).\ncnf(c1,plain,p(a),cover(m1,m2,left),[tautology]).\n@syntax 6\
#% instgen certificate 1\ncnf(i1,axiom,p(X0),named(a)).\ncnf(m1,plain,p(X0),input(1),[selected(1)]).\ncnf(q1,plain,p(X0),tautology).\n@syntax 6\
#% instgen certificate 3\ncnf(i1,axiom,p(X0),named(a)).\ncnf(m1,plain,p(X0),input(1),[selected(1)]).\ncnf(q1,plain,p(X0),tautology).\n@covered 3 of a b\
#% instgen certificate 3\ncnf(i1,axiom,p(X0),named(a)).\ncnf(q1,plain,p(X0),tautology).\n@covered 3 of a b\
#% instgen certificate 3\ncnf(i1,axiom,p(X0),named(a)).\ncnf(m1,plain,p(X0),input(1),[selected(1)]).\n@syntax 6\
#% instgen certificate 3\ncnf(i1,axiom,p(X0),named(a)).\n@syntax 5\
#% instgen certificate 3\ncnf(i1,axiom,p(X0),named(a)).\ncnf(i2,axiom,~q,named(b)).\ncnf(m1,plain,p(X0),input(1),[selected(1)]).\ncnf(q1,plain,p(X0),tautology).\n@syntax 8\
#% instgen certificate 3\ncnf(i1,axiom,p(X0),named(a)).\ncnf(i2,axiom,~q,named(b)).\ncnf(m1,plain,p(X0),input(1),[selected(1)]).\ncnf(q1,plain,p(X0),tautology).\ncnf(q2,plain,~q,tautology).\n@covered 3 of a b\
#% instgen certificate 3\ncnf(i1,axiom,p(X0),named(a)).\ncnf(e1,axiom,X0 = X0,equality).\ncnf(m1,plain,p(X0),input(1),[selected(1)]).\ncnf(q1,plain,p(X0),tautology).\ncnf(q2,plain,X0 = X0,tautology).\n@covered 3 of a b\
#% instgen certificate 3\ncnf(i1,axiom,p(X0),named(a)).\ncnf(e1,axiom,X0 = X0,equality).\ncnf(m1,plain,p(X0),input(1),[selected(1)]).\ncnf(q1,plain,p(X0),tautology).\n@syntax 8\
#% instgen certificate 3\ncnf(i1,axiom,p(X0),named(a)).\ncnf(i2,axiom,~q,named(b)).\ncnf(m1,plain,p(X0),input(1),[selected(1)]).\ncnf(q2,plain,~q,tautology).\ncnf(q1,plain,p(X0),tautology).\n@syntax 7\
#% instgen certificate 3\ncnf(i1,axiom,p(X0),named(a)).\ncnf(i2,axiom,~q,named(b)).\ncnf(m1,plain,p(X0),input(1),[selected(1)]).\ncnf(q1,plain,p(X0),tautology).\ncnf(q1,plain,p(X0),tautology).\n@syntax 8\
#% instgen certificate 3\ncnf(i1,axiom,p(X0),named(a)).\ncnf(m1,plain,p(X0),input(1),[selected(1)]).\ncnf(q1,plain,p(X0),tautology).\ncnf(q2,plain,p(X0),tautology).\n@syntax 7\
#% instgen certificate 3\ncnf(q1,plain,p(X0),tautology).\n@syntax 4\
#% instgen certificate 3\ncnf(i1,axiom,p(X0),named(a)).\ncnf(q1,plain,p(X0),tautology).\ncnf(m1,plain,p(X0),input(1),[selected(1)]).\n@syntax 6\
#% instgen certificate 3\ncnf(q1,plain,p(X0),tautology).\ncnf(i1,axiom,p(X0),named(a)).\ncnf(m1,plain,p(X0),input(1),[selected(1)]).\n@syntax 4\
#% instgen certificate 3\ncnf(i1,axiom,p(X0),named(a)).\ncnf(m1,plain,p(X0),input(1),[selected(1)]).\ncnf(q1,plain,p(a),tautology).\n@syntax 6\
#% instgen certificate 3\ncnf(i1,axiom,p(X0),named(a)).\ncnf(m1,plain,p(X0),input(1),[selected(1)]).\ncnf(q1,plain,p(X1),tautology).\n@syntax 6\
#% instgen certificate 3\ncnf(i1,axiom,p(X0),named(a)).\ncnf(m1,plain,p(X0),input(1),[selected(1)]).\ncnf(q1,plain,~p(X0),tautology).\n@syntax 6\
#% instgen certificate 3\ncnf(i1,axiom,p(X0),named(a)).\ncnf(m1,plain,p(X0),input(1),[selected(1)]).\ncnf(q1,plain,p(X0) | p(X0),tautology).\n@syntax 6\
#% instgen certificate 3\ncnf(i1,axiom,p(X0),named(a)).\ncnf(m1,plain,p(X0),input(1),[selected(1)]).\ncnf(q1,plain,p(X0),variant(m7)).\n@covered 3 of a b\
#% instgen certificate 3\ncnf(i1,axiom,p(X0),named(a)).\ncnf(m1,plain,p(X0),input(1),[selected(1)]).\ncnf(q1,plain,p(X0),variant(m0)).\n@covered 3 of a b\
#% instgen certificate 3\ncnf(i1,axiom,p(X0),named(a)).\ncnf(m1,plain,p(X0),input(1),[selected(1)]).\ncnf(q1,plain,p(X0),variant(m18446744073709551616)).\n@syntax 6\
#% instgen certificate 3\ncnf(i1,axiom,p(X0),named(a)).\ncnf(m1,plain,p(X0),input(1),[selected(1)]).\ncnf(q1,plain,p(X0),variant(1)).\n@syntax 6\
#% instgen certificate 3\ncnf(i1,axiom,p(X0),named(a)).\ncnf(m1,plain,p(X0),input(1),[selected(1)]).\ncnf(q1,plain,p(X0),part(m1,[X0])).\n@covered 3 of a b\
#% instgen certificate 3\ncnf(i1,axiom,p(X0),named(a)).\ncnf(m1,plain,p(X0),input(1),[selected(1)]).\ncnf(q1,plain,p(X0),part(m9,[])).\n@covered 3 of a b\
#% instgen certificate 3\ncnf(i1,axiom,p(X0),named(a)).\ncnf(m1,plain,p(X0),input(1),[selected(1)]).\ncnf(q1,plain,p(X0),part(m0,[X7,f(X0,'A'),X0,X7,X1])).\n@covered 3 of a b\
#% instgen certificate 3\ncnf(i1,axiom,p(X0),named(a)).\ncnf(m1,plain,p(X0),input(1),[selected(1)]).\ncnf(q1,plain,p(X0),part(m1,[X4294967296,X18446744073709551615])).\n@covered 3 of a b\
#% instgen certificate 3\ncnf(i1,axiom,p(X0),named(a)).\ncnf(m1,plain,p(X0),input(1),[selected(1)]).\ncnf(q1,plain,p(X0),part(m1,[X07])).\n@syntax 6\
#% instgen certificate 3\ncnf(i1,axiom,p(X0),named(a)).\ncnf(m1,plain,p(X0),input(1),[selected(1)]).\ncnf(q1,plain,p(X0),part(m1,[X0, X1])).\n@syntax 6\
#% instgen certificate 3\ncnf(i1,axiom,p(X0),named(a)).\ncnf(m1,plain,p(X0),input(1),[selected(1)]).\ncnf(q1,plain,p(X0),part(m1,[Y])).\n@syntax 6\
#% instgen certificate 3\ncnf(i1,axiom,p(X0),named(a)).\ncnf(m1,plain,p(X0),input(1),[selected(1)]).\ncnf(q1,plain,p(X0),part(m1,[X0)).\n@syntax 6\
#% instgen certificate 3\ncnf(i1,axiom,p(X0),named(a)).\ncnf(m1,plain,p(X0),input(1),[selected(1)]).\ncnf(q1,plain,p(X0),part(m1)).\n@syntax 6\
#% instgen certificate 3\ncnf(i1,axiom,p(X0),named(a)).\ncnf(m1,plain,p(X0),input(1),[selected(1)]).\ncnf(q1,plain,p(X0),Tautology).\n@syntax 6\
#% instgen certificate 3\ncnf(i1,axiom,p(X0),named(a)).\ncnf(m1,plain,p(X0),input(1),[selected(1)]).\ncnf(q1,plain,p(X0),[tautology]).\n@syntax 6\
#% instgen certificate 3\ncnf(i1,axiom,p(X0),named(a)).\ncnf(m1,plain,p(X0),input(1),[selected(1)]).\ncnf(q1,plain,p(X0)).\n@syntax 6\
#% instgen certificate 3\ncnf(i1,axiom,p(X0),named(a)).\ncnf(m1,plain,p(X0),input(1),[selected(1)]).\ncnf(q1,plain,p(X0),tautology).\ncnf(c1,plain,p(a),cover(m1,m2,left),[tautology]).\n@covered 3 of a b\
#% instgen certificate 3\ncnf(i1,axiom,p(X0),named(a)).\ncnf(m1,plain,p(X0),input(1),[selected(1)]).\ncnf(q1,plain,p(X0),tautology).\ncnf(c1,plain,p(a),cover(m1,m2,left),[variant(m3)]).\n@covered 3 of a b\
#% instgen certificate 3\ncnf(i1,axiom,p(X0),named(a)).\ncnf(m1,plain,p(X0),input(1),[selected(1)]).\ncnf(q1,plain,p(X0),tautology).\ncnf(c1,plain,p(a),cover(m1,m2,left),[part(m3,[X5,a])]).\n@covered 3 of a b\
#% instgen certificate 3\ncnf(i1,axiom,p(X0),named(a)).\ncnf(m1,plain,p(X0),input(1),[selected(1)]).\ncnf(c1,plain,p(a),cover(m1,m2,left),[tautology]).\ncnf(q1,plain,p(X0),tautology).\n@syntax 6\
#% instgen certificate 3\ncnf(i1,axiom,p(X0),named(a)).\ncnf(i2,axiom,~q,named(b)).\ncnf(m1,plain,p(X0),input(1),[selected(1)]).\ncnf(q1,plain,p(X0),tautology).\ncnf(c1,plain,p(a),cover(m1,m2,left),[tautology]).\ncnf(q2,plain,~q,tautology).\n@syntax 8\
#% instgen certificate 3\ncnf(c1,plain,p(a),cover(m1,m2,left),[tautology]).\n@covered 3 of a b\
#% instgen certificate 3\ncnf(m1,plain,p(X0),input(1),[selected(1)]).\ncnf(c1,plain,p(a),cover(m1,m2,left),[tautology]).\n@covered 3 of a b\
#% instgen certificate 3\ncnf(c1,plain,p(a),cover(m1,m2,left),[tautology]).\ncnf(m1,plain,p(X0),input(1),[selected(1)]).\n@syntax 5\
#% instgen certificate 3\ncnf(c1,plain,p(a),cover(m1,m2,left),[tautology]).\ncnf(c1,plain,p(a),cover(m1,m2,left),[tautology]).\n@syntax 5\
#% instgen certificate 3\ncnf(c1,plain,p(a),cover(m1,m2,left),[tautology]).\ncnf(c2,plain,$false,cover(m0,m0,right),[tautology]).\n@covered 3 of a b\
#% instgen certificate 3\ncnf(c2,plain,p(a),cover(m1,m2,left),[tautology]).\n@syntax 4\
#% instgen certificate 3\ncnf(c1,plain,p(X1),cover(m1,m2,left),[tautology]).\n@syntax 4\
#% instgen certificate 3\ncnf(c1,plain,p(a),cover(m1,m2,Left),[tautology]).\n@syntax 4\
#% instgen certificate 3\ncnf(c1,plain,p(a),cover(m1,m2,left),tautology).\n@syntax 4\
#% instgen certificate 3\ncnf(c1,plain,p(a),cover(m1,m2,left),[]).\n@syntax 4\
#% instgen certificate 3\ncnf(c1,plain,p(a),cover(m1,m2,left),[tautology,tautology]).\n@syntax 4\
#% instgen certificate 3\ncnf(c1,plain,p(a),cover(m18446744073709551615,m18446744073709551615,left),[tautology]).\n@covered 3 of a b\
#% instgen certificate 3\ncnf(c1,plain,p(a),cover(m18446744073709551616,m2,left),[tautology]).\n@syntax 4\
#% instgen certificate 3\ncnf(i1,axiom,p(X0),named(a)).\n\ncnf(m1,plain,p(X0),input(1),[selected(1)]).\n@syntax 5\
";

// What stands between the first two lines of a refutation and its last one.
pub const REFUTATIONS: &str = "\
#% instgen certificate 1\n% ground constant k\n@first 1 of a b\
#% instgen certificate 2\n% ground constant k\n@refutation 2 of a b\
#% instgen certificate 3\n% ground constant k\n@refutation 3 of a b\
#% instgen certificate 4\n% ground constant k\n@version 4\
#% instgen certificate 1\n@syntax 4\
#% instgen certificate 2\n@syntax 4\
#% instgen certificate 3\n@syntax 4\
#% instgen certificate 1\n% ground constant k\ncnf(g1,plain,p(k),ground(m1)).\n@first 1 of a b\
#% instgen certificate 2\n% ground constant k\ncnf(g1,plain,p(k),ground(m1)).\n@syntax 5\
#% instgen certificate 3\n% ground constant k\ncnf(g1,plain,p(k),ground(m1)).\n@syntax 5\
#% instgen certificate 1\n% ground constant k\ncnf(g1,plain,p(k),ground(1,[k])).\n@syntax 5\
#% instgen certificate 2\n% ground constant k\ncnf(g1,plain,p(k),ground(1,[k])).\n@refutation 2 of a b\
#% instgen certificate 3\n% ground constant k\ncnf(g1,plain,p(k),ground(1,[k])).\n@refutation 3 of a b\
#% instgen certificate 3\n% ground constant k\ncnf(g1,plain,p(k),ground(1,[X4294967296])).\n@refutation 3 of a b\
#% instgen certificate 3\n% ground constant k\ncnf(g1,plain,p(k),ground(0,[])).\n@refutation 3 of a b\
#% instgen certificate 3\n% ground constant k\ncnf(g1,plain,p(k),ground(9,[k,k])).\n@refutation 3 of a b\
#% instgen certificate 3\n% ground constant k\ncnf(g1,plain,p(k),ground(18446744073709551615,[f(X0),X3])).\n@refutation 3 of a b\
#% instgen certificate 3\n% ground constant k\ncnf(g1,plain,p(k),ground(18446744073709551616,[])).\n@syntax 5\
#% instgen certificate 3\n% ground constant k\ncnf(g1,plain,p(k),ground(01,[])).\n@syntax 5\
#% instgen certificate 3\n% ground constant k\ncnf(g1,plain,p(k),ground(1,[k ])).\n@syntax 5\
#% instgen certificate 3\n% ground constant k\ncnf(g1,plain,p(k),ground(1,k)).\n@syntax 5\
#% instgen certificate 3\n% ground constant k\ncnf(g1,plain,p(k),ground(1)).\n@syntax 5\
#% instgen certificate 3\n% ground constant k\ncnf(g1,plain,p(k),ground(m1,[k])).\n@syntax 5\
#% instgen certificate 3\n% ground constant k\ncnf(g1,plain,p(k),ground(1,[k]])).\n@syntax 5\
#% instgen certificate 1\n% ground constant k\ncnf(m1,plain,p(k),lemma(m1,1,m2,1,[1],[m1])).\n@syntax 5\
#% instgen certificate 2\n% ground constant k\ncnf(m1,plain,p(k),lemma(m1,1,m2,1,[1],[m1])).\n@refutation 2 of a b\
#% instgen certificate 3\n% ground constant k\ncnf(m1,plain,p(k),lemma(m1,1,m2,1,[1],[m1])).\n@refutation 3 of a b\
#% instgen certificate 3\n% ground constant k\ncnf(m1,plain,p(k),input(1),[selected(1)]).\n@syntax 5\
#% instgen certificate 2\n% ground constant k\ncnf(g1,plain,p(k),ground(1,[k])).\ncnf(r1,plain,$false,rup([g1])).\n@refutation 2 of a b\
#% instgen certificate 3\n% ground constant k\ncnf(g1,plain,p(k),ground(1,[k])).\ncnf(r1,plain,$false,rup([g1])).\n@refutation 3 of a b\
#% instgen certificate 3\n% ground constant k\ncnf(r1,plain,$false,rup([g1])).\ncnf(g1,plain,p(k),ground(1,[k])).\n@syntax 6\
#% instgen certificate 3\n% ground constant k\ncnf(i1,axiom,p(X0),named(a)).\ncnf(q1,plain,p(X0),tautology).\n@syntax 6\
#% instgen certificate 3\n% ground constant k\ncnf(c1,plain,p(a),cover(m1,m2,left),[tautology]).\n@syntax 5\
#% instgen certificate 3\n% ground constant k\ncnf(r1,plain,$false,rup([])).\n@syntax 5\
";

// Whole texts that are none of a certificate, or of another format.
pub const OTHERS: &str = "\
#@syntax 1\
#\n@syntax 1\
#% SZS status Satisfiable for \n@syntax 1\
#% SZS status Unknown for a\n@syntax 1\
#% SZS status Satisfiable for a\n% SZS output start Saturation for b\n% instgen certificate 2\n@syntax 2\
#% SZS status Satisfiable for a\n% SZS output start CNFRefutation for a\n% instgen certificate 2\n@syntax 2\
#% SZS status Satisfiable for a\n% SZS output start Saturation for a\n% instgen certificate 1\n% SZS output end Saturation for b\n@syntax 4\
#% SZS status Satisfiable for a\n% SZS output start Saturation for a\n% instgen certificate 1\n% SZS output end Saturation for a\n\n@syntax 5\
#% SZS status Satisfiable for a\n% SZS output start Saturation for a\n% instgen certificate 4@syntax 3\
#% SZS status Unsatisfiable for a\n% SZS output start CNFRefutation for a\n% instgen certificate 4\n@version 4\
";

fn push_kind(answer: &mut Vec<u8>, cert: &Certificate) -> Result<(), Memory> {
    match cert {
        Certificate::First(_) => push_bytes(answer, b"first "),
        Certificate::Refutation(_) => push_bytes(answer, b"refutation "),
        Certificate::Saturation(_) => push_bytes(answer, b"saturation "),
        Certificate::Covered(_) => push_bytes(answer, b"covered "),
    }
}

fn push_read(answer: &mut Vec<u8>, read: &ReadCert) -> Result<(), Memory> {
    push_kind(answer, &read.cert)?;
    push_number(answer, usize::try_from(read.format).unwrap_or(0))?;
    push_bytes(answer, b" of ")?;
    push_bytes(answer, read.name.bytes())
}

fn push_outcome(answer: &mut Vec<u8>, outcome: &Result<ReadCert, CertError>) -> Result<(), Memory> {
    match outcome {
        Ok(read) => push_read(answer, read),
        Err(CertError::Syntax { line }) => {
            push_bytes(answer, b"syntax ")?;
            push_number(answer, *line)
        }
        Err(CertError::Version { word }) => {
            push_bytes(answer, b"version ")?;
            push_bytes(answer, word.bytes())
        }
        Err(CertError::Memory) => Err(Memory),
    }
}

/// Puts what the text is read as at the end of the answer.
pub fn push_reading(alloc: Global, answer: &mut Vec<u8>, text: &[u8]) -> Result<(), Memory> {
    let outcome = read_certificate(alloc, text);
    let pushed = push_outcome(answer, &outcome);
    drop(outcome);
    pushed
}

// The form of a certificate and what it says of the clauses.
#[derive(Clone, Copy)]
struct Form {
    status: &'static str,
    name: &'static str,
}

const SATURATION: Form = Form {
    status: "Satisfiable",
    name: "Saturation",
};

const REFUTATION: Form = Form {
    status: "Unsatisfiable",
    name: "CNFRefutation",
};

fn push_whole(whole: &mut Vec<u8>, form: Form, middle: &[u8]) -> Result<(), Memory> {
    push_bytes(whole, b"% SZS status ")?;
    push_bytes(whole, form.status.as_bytes())?;
    push_bytes(whole, b" for a b\n% SZS output start ")?;
    push_bytes(whole, form.name.as_bytes())?;
    push_bytes(whole, b" for a b\n")?;
    push_bytes(whole, middle)?;
    push_bytes(whole, b"% SZS output end ")?;
    push_bytes(whole, form.name.as_bytes())?;
    push_bytes(whole, b" for a b\n")
}

fn push_middle_by(
    alloc: Global,
    whole: &mut Vec<u8>,
    answer: &mut Vec<u8>,
    form: Form,
    middle: &[u8],
) -> Result<(), Memory> {
    push_whole(whole, form, middle)?;
    push_reading(alloc, answer, whole.as_slice())
}

/// Puts what the saturation under the name `a b` with these lines in its middle is read as at the end of the answer.
pub fn push_middle(alloc: Global, answer: &mut Vec<u8>, middle: &[u8]) -> Result<(), Memory> {
    let mut whole = Vec::new(alloc);
    push_middle_by(alloc, &mut whole, answer, SATURATION, middle)
}

/// Puts what the refutation under the name `a b` with these lines in its middle is read as at the end of the answer.
pub fn push_refutation(alloc: Global, answer: &mut Vec<u8>, middle: &[u8]) -> Result<(), Memory> {
    let mut whole = Vec::new(alloc);
    push_middle_by(alloc, &mut whole, answer, REFUTATION, middle)
}

fn whole_lines(text: &[u8]) -> usize {
    text.iter().filter(|b| **b == b'\n').count()
}

// Puts what a text is to be read as that is refused at the line behind its whole ones at the end.
fn push_refusal(wanted: &mut Vec<u8>, text: &[u8]) -> Result<(), Memory> {
    push_bytes(wanted, b"syntax ")?;
    push_number(wanted, whole_lines(text).saturating_add(1))
}

fn is_refused_by(
    alloc: Global,
    answer: &mut Vec<u8>,
    wanted: &mut Vec<u8>,
    text: &[u8],
) -> Result<bool, Memory> {
    push_reading(alloc, answer, text)?;
    push_refusal(wanted, text)?;
    Ok(answer.as_slice() == wanted.as_slice())
}

// Whether the text is refused there.
fn is_refused_behind(alloc: Global, text: &[u8]) -> Result<bool, Memory> {
    let mut answer = Vec::new(alloc);
    let mut wanted = Vec::new(alloc);
    is_refused_by(alloc, &mut answer, &mut wanted, text)
}

// The length of the first prefix, the whole text apart, that isn't refused so.
fn odd_prefix(alloc: Global, text: &[u8]) -> Result<Option<usize>, Memory> {
    for n in 0..text.len() {
        if !is_refused_behind(alloc, &text[..n])? {
            return Ok(Some(n));
        }
    }
    Ok(None)
}

/// Puts what the text is read as at the end of the answer, and the length of a proper prefix that isn't refused so, if there is
/// one.
pub fn push_prefixes(alloc: Global, answer: &mut Vec<u8>, text: &[u8]) -> Result<(), Memory> {
    push_reading(alloc, answer, text)?;
    match odd_prefix(alloc, text)? {
        None => Ok(()),
        Some(n) => {
            push_bytes(answer, b" odd prefix ")?;
            push_number(answer, n)
        }
    }
}
