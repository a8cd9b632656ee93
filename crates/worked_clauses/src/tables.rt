// Certificates of each format as pieces, and what the checker says of them. A table is one text and no array, since a function
// that uses an array is proved anew for each of its entries.

/// Pieces by their names: heads and ends of saturations and refutations, and lines of some.
pub const PIECES: &str = "\
#SAT1@% SZS status Satisfiable for c\n% SZS output start Saturation for c\n% instgen certificate 1\n\
#UNSAT1@% SZS status Unsatisfiable for c\n% SZS output start CNFRefutation for c\n% instgen certificate 1\n% ground constant bot_0\n\
#SAT2@% SZS status Satisfiable for c\n% SZS output start Saturation for c\n% instgen certificate 2\n\
#UNSAT2@% SZS status Unsatisfiable for c\n% SZS output start CNFRefutation for c\n% instgen certificate 2\n% ground constant bot_0\n\
#SAT3@% SZS status Satisfiable for c\n% SZS output start Saturation for c\n% instgen certificate 3\n\
#UNSAT3@% SZS status Unsatisfiable for c\n% SZS output start CNFRefutation for c\n% instgen certificate 3\n% ground constant bot_0\n\
#S@% SZS output end Saturation for c\n\
#R@% SZS output end CNFRefutation for c\n\
#TIE@cnf(i1,axiom,p(X0,a) | q(X0),named(one)).\ncnf(i2,axiom,~p(b,X0) | s(X0),named(two)).\n\
#TM1@cnf(m1,plain,p(X0,a) | q(X0),input(1),[selected(1)]).\n\
#TM2@cnf(m2,plain,~p(b,X0) | s(X0),input(2),[selected(1)]).\n\
#TM3@cnf(m3,plain,p(b,a) | q(b),inst(m1,1,m2,1),[selected(2)]).\n\
#TM4@cnf(m4,plain,~p(b,a) | s(a),inst(m2,1,m1,1),[selected(2)]).\n\
#TQ1@cnf(q1,plain,p(X0,a) | q(X0),part(m1,[X0])).\n\
#TQ2@cnf(q2,plain,~p(b,X0) | s(X0),part(m2,[X0])).\n\
#TC1@cnf(c1,plain,p(b,a) | q(b),cover(m1,m2,left),[variant(m3)]).\n\
#TC2@cnf(c2,plain,~p(b,a) | s(a),cover(m1,m2,right),[variant(m4)]).\n\
#PART@cnf(i1,axiom,p(X0,a) | q(X0),named(one)).\ncnf(i2,axiom,~p(b,X0) | s(X0),named(two)).\ncnf(i3,axiom,q(X0),named(three)).\n\
#PM3@cnf(m3,plain,q(X0),input(3),[selected(1)]).\n\
#PM4@cnf(m4,plain,~p(b,a) | s(a),inst(m2,1,m1,1),[selected(2)]).\n\
#PQ3@cnf(q3,plain,q(X0),part(m3,[X0])).\n\
#TAUT@cnf(i1,axiom,p(X0) | ~q(X0,X1) | q(a,X1),named(one)).\ncnf(i2,axiom,~p(a),named(two)).\ncnf(i3,axiom,r(X0) | ~r(X0),named(three)).\n\
#UM1@cnf(m1,plain,p(X0) | ~q(X0,X1) | q(a,X1),input(1),[selected(1)]).\n\
#UM2@cnf(m2,plain,~p(a),input(2),[selected(1)]).\n\
#UQ12@cnf(q1,plain,p(X0) | ~q(X0,X1) | q(a,X1),part(m1,[X0,X1])).\ncnf(q2,plain,~p(a),part(m2,[])).\n\
#UQ3@cnf(q3,plain,r(X0) | ~r(X0),tautology).\n\
#UC1@cnf(c1,plain,p(a) | ~q(a,X0) | q(a,X0),cover(m1,m2,left),[tautology]).\n\
#UNIT@cnf(i1,axiom,p(X0),named(one)).\ncnf(i2,axiom,~p(c),named(two)).\n\
#NM12@cnf(m1,plain,p(X0),input(1)).\ncnf(m2,plain,~p(c),input(2)).\n\
#NM3@cnf(m3,plain,p(c),inst(m1,1,m2,1)).\n\
#F1@cnf(g1,plain,p(bot_0),ground(m1)).\n\
#F23@cnf(g2,plain,~p(c),ground(m2)).\ncnf(g3,plain,p(c),ground(m3)).\n\
#NG1@cnf(g1,plain,p(bot_0),ground(1,[bot_0])).\n\
#NG23@cnf(g2,plain,~p(c),ground(2,[])).\ncnf(g3,plain,p(c),ground(1,[c])).\n\
#STEP@cnf(r1,plain,$false,rup([g2,g3])).\n\
#LEM@cnf(i1,axiom,p(X0) | q(X0),named(one)).\ncnf(i2,axiom,~p(c),named(two)).\ncnf(i3,axiom,~q(X0),named(three)).\n\
#LM@cnf(m1,plain,p(X0) | q(X0),input(1)).\ncnf(m2,plain,~p(c),input(2)).\n\
#LM3@cnf(m3,plain,q(c),lemma(m1,1,m2,1,[2],[m2,m1])).\n\
#LG@cnf(g1,plain,~p(c),ground(2,[])).\ncnf(g2,plain,~q(c),ground(3,[c])).\ncnf(g3,plain,p(c) | q(c),ground(1,[c])).\n\
#LR@cnf(r1,plain,$false,rup([g1,g2,g3])).\n\
#EQ@cnf(i1,axiom,a = b,named(one)).\ncnf(i2,axiom,p(a),named(two)).\ncnf(i3,axiom,~p(b),named(three)).\ncnf(e1,axiom,X0 = X0,equality).\ncnf(e2,axiom,X0 != X1 | X1 = X0,equality).\ncnf(e3,axiom,X0 != X1 | X1 != X2 | X0 = X2,equality).\n\
#E4@cnf(e4,axiom,X0 != X1 | ~p(X0) | p(X1),equality).\n\
#EG@cnf(g1,plain,a = b,ground(1,[])).\ncnf(g2,plain,p(a),ground(2,[])).\ncnf(g3,plain,~p(b),ground(3,[])).\n\
#EG4@cnf(g4,plain,a != b | ~p(a) | p(b),ground(7,[a,b])).\n\
#ER@cnf(r1,plain,$false,rup([g1,g2,g3,g4])).\n\
";

/// What the row is about, what is changed when the text is read, the pieces of the text by their names or as they are, and the
/// answer. What shows the inputs is taken away by `u`, and the inputs are by `w`. Behind `valid` stand the sources of ground lines
/// with the numbers of their terms, behind `covered` what shows each input and then the covers, where `v` is for a variant and `p`
/// for a part.
pub const ROWS: &str = "\
#a saturation in each format@@SAT1+TIE+TM1+TM2+TM3+TM4+S@valid\
#@@SAT2+TIE+TM1+TM2+TM3+TM4+S@covered p1/1 p2/1 1-2lv3 1-2rv4 valid\
#@@SAT3+TIE+TM1+TM2+TM3+TM4+TQ1+TQ2+TC1+TC2+S@valid\
#@@SAT2+S@covered valid\
#@@SAT3+S@valid\
#@@SAT2+TAUT+UM1+UM2+S@covered p1/2 p2/0 t 1-2lt valid\
#@@SAT3+TAUT+UM1+UM2+UQ12+UQ3+UC1+S@valid\
#@@SAT2+PART+TM1+TM2+PM3+PM4+S@covered p1/1 p2/1 p3/1 1-2lp3/1 1-2rv4 valid\
#@@SAT3+PART+TM1+TM2+PM3+PM4+TQ1+TQ2+PQ3+cnf(c1,plain,p(b,a) | q(b),cover(m1,m2,left),[part(m3,[b])]).\n+TC2+S@valid\
#complaints in each format@@SAT1+TIE+TM1+TM2+cnf(m3,plain,p(b,a) | q(a),inst(m1,1,m2,1),[selected(2)]).\n+TM4+S@member 3\
#@@SAT1+TIE+cnf(m1,plain,p(X0,a) | q(X0),input(1),[selected(3)]).\n+TM2+TM3+TM4+S@place 1\
#@@SAT1+TIE+TM1+S@input 2\
#@@SAT1+TIE+TM1+TM2+S@pair 1 2\
#@@SAT1+TIE+TM1+TM2+cnf(m3,plain,p(b,a) | q(b),inst(m1,1,m2,1),[selected(1)]).\n+cnf(m4,plain,~p(b,a) | s(a),inst(m2,1,m1,1),[selected(1)]).\n+S@pair 3 4\
#@@SAT1+EQ+S@axiom 4\
#@@SAT2+TIE+TM1+TM2+cnf(m3,plain,p(b,a) | q(a),inst(m1,1,m2,1),[selected(2)]).\n+TM4+S@member 3\
#@@SAT2+TIE+cnf(m1,plain,p(X0,a) | q(X0),input(1),[selected(3)]).\n+TM2+TM3+TM4+S@place 1\
#@@SAT2+TIE+TM1+S@input 2\
#@@SAT2+TIE+TM1+TM2+S@pair 1 2\
#@@SAT2+TIE+TM1+TM2+cnf(m3,plain,p(b,a) | q(b),inst(m1,1,m2,1),[selected(1)]).\n+cnf(m4,plain,~p(b,a) | s(a),inst(m2,1,m1,1),[selected(1)]).\n+S@pair 3 4\
#@@SAT2+EQ+S@axiom 4\
#@@SAT3+TIE+TM1+TM2+cnf(m3,plain,p(b,a) | q(a),inst(m1,1,m2,1),[selected(2)]).\n+TM4+TQ1+TQ2+TC1+TC2+S@member 3\
#@@SAT3+TIE+cnf(m1,plain,p(X0,a) | q(X0),input(1),[selected(3)]).\n+TM2+TM3+TM4+TQ1+TQ2+TC1+TC2+S@place 1\
#@@SAT3+TIE+TM1+TQ1+TQ2+S@input 2\
#@@SAT3+TIE+TM1+TM2+TQ1+TQ2+S@cover 1\
#@@SAT3+TIE+TM1+TM2+cnf(m3,plain,p(b,a) | q(b),inst(m1,1,m2,1),[selected(1)]).\n+cnf(m4,plain,~p(b,a) | s(a),inst(m2,1,m1,1),[selected(1)]).\n+TQ1+TQ2+S@pair 3 4\
#@@SAT3+EQ+cnf(q1,plain,a = b,tautology).\n+cnf(q2,plain,p(a),tautology).\n+cnf(q3,plain,~p(b),tautology).\n+cnf(q4,plain,X0 = X0,tautology).\n+cnf(q5,plain,X0 != X1 | X1 = X0,tautology).\n+cnf(q6,plain,X0 != X1 | X1 != X2 | X0 = X2,tautology).\n+S@axiom 4\
#what shows the inputs ends before them@u@SAT3+TIE+TM1+TM2+TM3+TM4+TQ1+TQ2+TC1+TC2+S@input 1\
#and goes on behind them@w@SAT3+cnf(i1,axiom,p | ~p,named(one)).\n+cnf(q1,plain,p | ~p,tautology).\n+S@input 1\
#@@SAT3+cnf(i1,axiom,p | ~p,named(one)).\n+cnf(q1,plain,p | ~p,tautology).\n+S@valid\
#@@SAT3+cnf(i1,axiom,p | ~p,named(one)).\n+S@not read\
#a variant shows no input@@SAT3+TIE+TM1+TM2+TM3+TM4+cnf(q1,plain,p(X0,a) | q(X0),variant(m1)).\n+TQ2+TC1+TC2+S@input 1\
#@@SAT3+TIE+TM1+TM2+TM3+TM4+TQ1+cnf(q2,plain,~p(b,X0) | s(X0),variant(m2)).\n+TC1+TC2+S@input 2\
#no tautology@@SAT3+TIE+TM1+TM2+TM3+TM4+cnf(q1,plain,p(X0,a) | q(X0),tautology).\n+TQ2+TC1+TC2+S@input 1\
#parts that are none@@SAT3+TIE+TM1+TM2+TM3+TM4+cnf(q1,plain,p(X0,a) | q(X0),part(m0,[X0])).\n+TQ2+TC1+TC2+S@input 1\
#@@SAT3+TIE+TM1+TM2+TM3+TM4+cnf(q1,plain,p(X0,a) | q(X0),part(m5,[X0])).\n+TQ2+TC1+TC2+S@input 1\
#@@SAT3+TIE+TM1+TM2+TM3+TM4+cnf(q1,plain,p(X0,a) | q(X0),part(m1,[])).\n+TQ2+TC1+TC2+S@input 1\
#@@SAT3+TIE+TM1+TM2+TM3+TM4+cnf(q1,plain,p(X0,a) | q(X0),part(m1,[X0,X0])).\n+TQ2+TC1+TC2+S@input 1\
#@@SAT3+TIE+TM1+TM2+TM3+TM4+cnf(q1,plain,p(X0,a) | q(X0),part(m1,[a])).\n+TQ2+TC1+TC2+S@input 1\
#@@SAT3+TIE+TM1+TM2+TM3+TM4+cnf(q1,plain,p(X0,a) | q(X0),part(m1,[X1])).\n+TQ2+TC1+TC2+S@input 1\
#@@SAT3+TIE+TM1+TM2+TM3+TM4+cnf(q1,plain,p(X0,a) | q(X0),part(m2,[X0])).\n+TQ2+TC1+TC2+S@input 1\
#@@SAT3+TIE+TM1+TM2+TM3+TM4+cnf(q1,plain,p(X0,a) | q(X0),part(m3,[])).\n+TQ2+TC1+TC2+S@input 1\
#@@SAT3+TIE+TM1+TM2+TM3+TM4+TQ1+cnf(q2,plain,~p(b,X0) | s(X0),part(m2,[])).\n+TC1+TC2+S@input 2\
#the first of two@@SAT3+TIE+TM1+TM2+TM3+TM4+cnf(q1,plain,p(X0,a) | q(X0),tautology).\n+cnf(q2,plain,~p(b,X0) | s(X0),tautology).\n+S@input 1\
#a shorter member@@SAT3+PART+TM1+TM2+PM3+PM4+cnf(q1,plain,p(X0,a) | q(X0),part(m3,[X0])).\n+TQ2+PQ3+cnf(c1,plain,p(b,a) | q(b),cover(m1,m2,left),[part(m3,[b])]).\n+TC2+S@valid\
#covers that are too few, and too many@@SAT3+TIE+TM1+TM2+TM3+TM4+TQ1+TQ2+S@cover 1\
#@@SAT3+TIE+TM1+TM2+TM3+TM4+TQ1+TQ2+TC1+S@cover 2\
#@@SAT3+TIE+TM1+TM2+TM3+TM4+TQ1+TQ2+TC1+TC2+cnf(c3,plain,p(b,a) | q(b),cover(m1,m2,left),[variant(m3)]).\n+S@cover 3\
#@@SAT3+cnf(c1,plain,$false,cover(m0,m0,left),[tautology]).\n+S@cover 1\
#in other order@@SAT3+TIE+TM1+TM2+TM3+TM4+TQ1+TQ2+TC1+cnf(c2,plain,~p(b,a) | s(a),cover(m2,m1,left),[variant(m4)]).\n+S@cover 2\
#@@SAT3+TIE+TM1+TM2+TM3+TM4+TQ1+TQ2+cnf(c1,plain,~p(b,a) | s(a),cover(m1,m2,right),[variant(m4)]).\n+cnf(c2,plain,p(b,a) | q(b),cover(m1,m2,left),[variant(m3)]).\n+S@cover 1\
#@@SAT3+TIE+TM1+TM2+TM3+TM4+TQ1+TQ2+cnf(c1,plain,p(b,a) | q(b),cover(m1,m2,right),[variant(m3)]).\n+TC2+S@cover 1\
#@@SAT3+TIE+TM1+TM2+TM3+TM4+TQ1+TQ2+cnf(c1,plain,p(b,a) | q(b),cover(m1,m3,left),[variant(m3)]).\n+TC2+S@cover 1\
#@@SAT3+TIE+TM1+TM2+TM3+TM4+TQ1+TQ2+cnf(c1,plain,p(b,a) | q(b),cover(m3,m2,left),[variant(m3)]).\n+TC2+S@cover 1\
#@@SAT3+TIE+TM1+TM2+TM3+TM4+TQ1+TQ2+TC1+cnf(c2,plain,~p(b,a) | s(a),cover(m1,m2,left),[variant(m4)]).\n+S@cover 2\
#another clause@@SAT3+TIE+TM1+TM2+TM3+TM4+TQ1+TQ2+cnf(c1,plain,p(b,a) | q(a),cover(m1,m2,left),[variant(m3)]).\n+TC2+S@cover 1\
#@@SAT3+TIE+TM1+TM2+TM3+TM4+TQ1+TQ2+cnf(c1,plain,q(b) | p(b,a),cover(m1,m2,left),[variant(m3)]).\n+TC2+S@cover 1\
#@@SAT3+TIE+TM1+TM2+TM3+TM4+TQ1+TQ2+cnf(c1,plain,p(X0,a) | q(X0),cover(m1,m2,left),[variant(m1)]).\n+TC2+S@cover 1\
#@@SAT3+TIE+TM1+TM2+TM3+TM4+TQ1+TQ2+TC1+cnf(c2,plain,~p(b,a),cover(m1,m2,right),[variant(m4)]).\n+S@cover 2\
#named by what covers it not@@SAT3+TIE+TM1+TM2+TM3+TM4+TQ1+TQ2+cnf(c1,plain,p(b,a) | q(b),cover(m1,m2,left),[tautology]).\n+TC2+S@cover 1\
#@@SAT3+TIE+TM1+TM2+TM3+TM4+TQ1+TQ2+cnf(c1,plain,p(b,a) | q(b),cover(m1,m2,left),[variant(m4)]).\n+TC2+S@cover 1\
#@@SAT3+TIE+TM1+TM2+TM3+TM4+TQ1+TQ2+cnf(c1,plain,p(b,a) | q(b),cover(m1,m2,left),[variant(m0)]).\n+TC2+S@cover 1\
#@@SAT3+TIE+TM1+TM2+TM3+TM4+TQ1+TQ2+cnf(c1,plain,p(b,a) | q(b),cover(m1,m2,left),[variant(m5)]).\n+TC2+S@cover 1\
#@@SAT3+TIE+TM1+TM2+TM3+TM4+TQ1+TQ2+cnf(c1,plain,p(b,a) | q(b),cover(m1,m2,left),[variant(m1)]).\n+TC2+S@cover 1\
#@@SAT3+TIE+TM1+TM2+TM3+TM4+TQ1+TQ2+cnf(c1,plain,p(b,a) | q(b),cover(m1,m2,left),[part(m3,[])]).\n+TC2+S@cover 1\
#@@SAT3+TIE+TM1+TM2+TM3+TM4+TQ1+TQ2+cnf(c1,plain,p(b,a) | q(b),cover(m1,m2,left),[part(m1,[b])]).\n+TC2+S@cover 1\
#@@SAT3+TIE+TM1+TM2+TM3+TM4+TQ1+TQ2+cnf(c1,plain,p(b,a) | q(b),cover(m1,m2,left),[part(m0,[])]).\n+TC2+S@cover 1\
#@@SAT3+TIE+TM1+TM2+TM3+TM4+TQ1+TQ2+cnf(c1,plain,p(b,a) | q(b),cover(m1,m2,left),[part(m9,[])]).\n+TC2+S@cover 1\
#parts that are none@@SAT3+PART+TM1+TM2+PM3+PM4+TQ1+TQ2+PQ3+cnf(c1,plain,p(b,a) | q(b),cover(m1,m2,left),[part(m3,[a])]).\n+TC2+S@cover 1\
#@@SAT3+PART+TM1+TM2+PM3+PM4+TQ1+TQ2+PQ3+cnf(c1,plain,p(b,a) | q(b),cover(m1,m2,left),[part(m3,[])]).\n+TC2+S@cover 1\
#@@SAT3+PART+TM1+TM2+PM3+PM4+TQ1+TQ2+PQ3+cnf(c1,plain,p(b,a) | q(b),cover(m1,m2,left),[part(m3,[b,b])]).\n+TC2+S@cover 1\
#@@SAT3+PART+TM1+TM2+PM3+PM4+TQ1+TQ2+PQ3+cnf(c1,plain,p(b,a) | q(b),cover(m1,m2,left),[part(m3,[X0])]).\n+TC2+S@cover 1\
#@@SAT3+PART+TM1+TM2+PM3+PM4+TQ1+TQ2+PQ3+cnf(c1,plain,p(b,a) | q(b),cover(m1,m2,left),[part(m9,[b])]).\n+TC2+S@cover 1\
#@@SAT3+PART+TM1+TM2+PM3+PM4+TQ1+TQ2+PQ3+cnf(c1,plain,p(b,a) | q(b),cover(m1,m2,left),[part(m2,[b])]).\n+TC2+S@cover 1\
#@@SAT3+PART+TM1+TM2+PM3+PM4+TQ1+TQ2+PQ3+cnf(c1,plain,p(b,a) | q(b),cover(m1,m2,left),[part(m1,[b])]).\n+TC2+S@cover 1\
#@@SAT3+PART+TM1+TM2+PM3+PM4+TQ1+TQ2+PQ3+cnf(c1,plain,p(b,a) | q(b),cover(m1,m2,left),[part(m3,[b])]).\n+S@cover 2\
#@@SAT3+TAUT+UM1+UM2+UQ12+UQ3+cnf(c1,plain,p(a) | ~q(a,X0) | q(a,X0),cover(m1,m2,left),[variant(m1)]).\n+S@cover 1\
#inputs come before pairs, and pairs before covers@@SAT3+TIE+TM1+TM2+cnf(m3,plain,p(b,a) | q(b),inst(m1,1,m2,1),[selected(1)]).\n+cnf(m4,plain,~p(b,a) | s(a),inst(m2,1,m1,1),[selected(1)]).\n+cnf(q1,plain,p(X0,a) | q(X0),tautology).\n+TQ2+S@input 1\
#@@SAT3+TIE+TM1+TM2+cnf(m3,plain,p(b,a) | q(b),inst(m1,1,m2,1),[selected(1)]).\n+cnf(m4,plain,~p(b,a) | s(a),inst(m2,1,m1,1),[selected(1)]).\n+TQ1+TQ2+cnf(c1,plain,p(b,a) | q(b),cover(m1,m2,left),[tautology]).\n+S@pair 3 4\
#a refutation in each format@@UNSAT1+UNIT+NM12+NM3+F1+F23+STEP+R@valid g1/1 g2/0 g1/1 valid\
#@@UNSAT2+UNIT+NM12+NM3+NG1+NG23+STEP+R@valid\
#@@UNSAT3+UNIT+NM12+NM3+NG1+NG23+STEP+R@valid\
#no member needs a ground line, nor the other way round@@UNSAT2+UNIT+NM12+NG1+NG23+STEP+R@valid\
#@@UNSAT2+UNIT+NG1+NG23+STEP+R@valid\
#@@UNSAT1+UNIT+NM12+NM3+cnf(g1,plain,p(a),ground(m1)).\n+F23+STEP+R@ground 1\
#ground lines that are none@@UNSAT2+UNIT+NM12+NM3+cnf(g1,plain,p(bot_0),ground(0,[bot_0])).\n+NG23+STEP+R@ground 1\
#@@UNSAT2+UNIT+NM12+NM3+cnf(g1,plain,p(bot_0),ground(3,[bot_0])).\n+NG23+STEP+R@ground 1\
#@@UNSAT2+UNIT+NM12+NM3+cnf(g1,plain,p(bot_0),ground(18446744073709551615,[bot_0])).\n+NG23+STEP+R@ground 1\
#@@UNSAT2+UNIT+NM12+NM3+cnf(g1,plain,p(bot_0),ground(1,[])).\n+NG23+STEP+R@ground 1\
#@@UNSAT2+UNIT+NM12+NM3+cnf(g1,plain,p(bot_0),ground(1,[bot_0,bot_0])).\n+NG23+STEP+R@ground 1\
#@@UNSAT2+UNIT+NM12+NM3+cnf(g1,plain,p(X0),ground(1,[X0])).\n+NG23+STEP+R@ground 1\
#@@UNSAT2+UNIT+NM12+NM3+cnf(g1,plain,p(bot_0),ground(1,[X0])).\n+NG23+STEP+R@ground 1\
#@@UNSAT2+UNIT+NM12+NM3+cnf(g1,plain,p(bot_0),ground(1,[c])).\n+NG23+STEP+R@ground 1\
#@@UNSAT2+UNIT+NM12+NM3+cnf(g1,plain,~p(bot_0),ground(1,[bot_0])).\n+NG23+STEP+R@ground 1\
#@@UNSAT2+UNIT+NM12+NM3+cnf(g1,plain,p(f(X0)),ground(1,[f(X0)])).\n+NG23+STEP+R@ground 1\
#@@UNSAT3+UNIT+NM12+NM3+NG1+cnf(g2,plain,~p(c),ground(2,[c])).\n+cnf(g3,plain,p(c),ground(1,[c])).\n+STEP+R@ground 2\
#any ground terms will do@@UNSAT2+UNIT+NM12+NM3+cnf(g1,plain,p(a),ground(1,[a])).\n+NG23+STEP+R@valid\
#@@UNSAT2+UNIT+NM12+NM3+NG1+NG23+cnf(r1,plain,$false,rup([g1,g2])).\n+R@step 1\
#@@UNSAT2+UNIT+NM12+NM3+NG1+NG23+R@no empty clause\
#@@UNSAT2+UNIT+NM12+cnf(m3,plain,p(a),inst(m1,1,m2,1)).\n+NG1+NG23+STEP+R@member 3\
#@@UNSAT2+EQ+R@axiom 4\
#@@UNSAT2+EQ+E4+EG+EG4+ER+R@valid\
#@@UNSAT2+EQ+E4+EG+cnf(g4,plain,a != b | ~p(a) | p(b),ground(8,[a,b])).\n+ER+R@ground 4\
#@@UNSAT2+EQ+E4+EG+cnf(g4,plain,a != b | ~p(a) | p(b),ground(7,[b,a])).\n+ER+R@ground 4\
#@@UNSAT3+UNIT+NM12+NM3+NG1+NG23+cnf(r1,plain,$false,rup([g1,g2])).\n+R@step 1\
#@@UNSAT3+UNIT+NM12+NM3+NG1+NG23+R@no empty clause\
#@@UNSAT3+UNIT+NM12+cnf(m3,plain,p(a),inst(m1,1,m2,1)).\n+NG1+NG23+STEP+R@member 3\
#@@UNSAT3+EQ+R@axiom 4\
#@@UNSAT3+EQ+E4+EG+EG4+ER+R@valid\
#@@UNSAT3+EQ+E4+EG+cnf(g4,plain,a != b | ~p(a) | p(b),ground(8,[a,b])).\n+ER+R@ground 4\
#@@UNSAT3+EQ+E4+EG+cnf(g4,plain,a != b | ~p(a) | p(b),ground(7,[b,a])).\n+ER+R@ground 4\
#repeats are dropped@@UNSAT2+cnf(i1,axiom,p(X0) | p(c),named(one)).\n+cnf(i2,axiom,~p(c),named(two)).\n+cnf(g1,plain,p(c),ground(1,[c])).\n+cnf(g2,plain,~p(c),ground(2,[])).\n+cnf(r1,plain,$false,rup([g1,g2])).\n+R@valid\
#lemmas@@UNSAT2+LEM+LM+LM3+LG+LR+R@valid\
#@@UNSAT3+LEM+LM+LM3+LG+LR+R@valid\
#@@UNSAT2+LEM+LM+cnf(m3,plain,q(c),lemma(m1,1,m2,1,[2],[])).\n+LG+LR+R@valid\
#@@UNSAT2+LEM+LM+cnf(m3,plain,q(c),lemma(m1,1,m2,1,[2],[m1,m1])).\n+LG+LR+R@valid\
#@@UNSAT2+LEM+LM+cnf(m3,plain,p(c),lemma(m1,1,m2,1,[1],[m2])).\n+LG+LR+R@valid\
#@@UNSAT2+LEM+LM+cnf(m3,plain,$false,lemma(m1,1,m2,1,[],[m1])).\n+LG+LR+R@valid\
#lemmas that are none@@UNSAT2+LEM+LM+cnf(m3,plain,q(c),lemma(m0,1,m2,1,[2],[m1])).\n+LG+LR+R@member 3\
#@@UNSAT2+LEM+LM+cnf(m3,plain,q(c),lemma(m3,1,m2,1,[2],[m1])).\n+LG+LR+R@member 3\
#@@UNSAT2+LEM+LM+cnf(m3,plain,q(c),lemma(m1,1,m0,1,[2],[m1])).\n+LG+LR+R@member 3\
#@@UNSAT2+LEM+LM+cnf(m3,plain,q(c),lemma(m1,1,m3,1,[2],[m1])).\n+LG+LR+R@member 3\
#@@UNSAT2+LEM+LM+cnf(m3,plain,q(c),lemma(m1,0,m2,1,[2],[m1])).\n+LG+LR+R@member 3\
#@@UNSAT2+LEM+LM+cnf(m3,plain,q(c),lemma(m1,3,m2,1,[2],[m1])).\n+LG+LR+R@member 3\
#@@UNSAT2+LEM+LM+cnf(m3,plain,q(c),lemma(m1,1,m2,0,[2],[m1])).\n+LG+LR+R@member 3\
#@@UNSAT2+LEM+LM+cnf(m3,plain,q(c),lemma(m1,1,m2,2,[2],[m1])).\n+LG+LR+R@member 3\
#@@UNSAT2+LEM+LM+cnf(m3,plain,q(c),lemma(m1,2,m2,1,[2],[m1])).\n+LG+LR+R@member 3\
#@@UNSAT2+LEM+LM+cnf(m3,plain,q(c),lemma(m1,1,m1,1,[2],[m1])).\n+LG+LR+R@member 3\
#@@UNSAT2+LEM+LM+cnf(m3,plain,$false,lemma(m2,1,m1,1,[],[m1])).\n+LG+LR+R@member 3\
#@@UNSAT2+LEM+LM+cnf(m3,plain,q(c),lemma(m1,1,m2,1,[2],[m0])).\n+LG+LR+R@member 3\
#@@UNSAT2+LEM+LM+cnf(m3,plain,q(c),lemma(m1,1,m2,1,[2],[m3])).\n+LG+LR+R@member 3\
#@@UNSAT2+LEM+LM+cnf(m3,plain,q(c),lemma(m1,1,m2,1,[2],[m1,m4])).\n+LG+LR+R@member 3\
#@@UNSAT2+LEM+LM+cnf(m3,plain,q(c),lemma(m1,1,m2,1,[0],[m1])).\n+LG+LR+R@member 3\
#@@UNSAT2+LEM+LM+cnf(m3,plain,q(c),lemma(m1,1,m2,1,[3],[m1])).\n+LG+LR+R@member 3\
#@@UNSAT2+LEM+LM+cnf(m3,plain,q(c) | p(c),lemma(m1,1,m2,1,[2,1],[m1])).\n+LG+LR+R@member 3\
#@@UNSAT2+LEM+LM+cnf(m3,plain,q(c),lemma(m1,1,m2,1,[2,2],[m1])).\n+LG+LR+R@member 3\
#@@UNSAT2+LEM+LM+cnf(m3,plain,p(c) | q(c),lemma(m1,1,m2,1,[1,2],[m1])).\n+LG+LR+R@member 3\
#@@UNSAT2+LEM+LM+cnf(m3,plain,q(c),lemma(m1,1,m2,1,[1],[m1])).\n+LG+LR+R@member 3\
#@@UNSAT2+LEM+LM+cnf(m3,plain,q(X0),lemma(m1,1,m2,1,[2],[m1])).\n+LG+LR+R@member 3\
#@@UNSAT2+LEM+LM+cnf(m3,plain,$false,lemma(m1,1,m2,1,[2],[m1])).\n+LG+LR+R@member 3\
#@@UNSAT2+LEM+LM+cnf(m3,plain,q(c),lemma(m1,1,m2,1,[],[m1])).\n+LG+LR+R@member 3\
#@@UNSAT2+cnf(i1,axiom,p(X0) | q(X1) | r(X1,X0),named(one)).\n+cnf(i2,axiom,~p(c),named(two)).\n+cnf(i3,axiom,$false,named(three)).\n+cnf(m1,plain,p(X0) | q(X1) | r(X1,X0),input(1)).\n+cnf(m2,plain,~p(c),input(2)).\n+cnf(m3,plain,q(X0),lemma(m1,1,m2,1,[2],[])).\n+cnf(m4,plain,r(X0,c),lemma(m1,1,m2,1,[3],[m3])).\n+cnf(g1,plain,$false,ground(3,[])).\n+cnf(r1,plain,$false,rup([g1])).\n+R@valid\
#@@UNSAT2+LEM+LM+LM3+cnf(m4,plain,q(c),lemma(m1,1,m2,1,[2],[m3])).\n+cnf(m5,plain,q(c),lemma(m3,1,m1,1,[],[m3])).\n+LG+LR+R@member 5\
#@@SAT2+LEM+cnf(m1,plain,p(X0) | q(X0),input(1),[selected(2)]).\n+cnf(m2,plain,~p(c),input(2),[selected(1)]).\n+cnf(m3,plain,q(c),lemma(m1,1,m2,1,[2],[m1]),[selected(1)]).\n+cnf(m4,plain,~q(X0),input(3),[selected(1)]).\n+S@pair 1 4\
";
