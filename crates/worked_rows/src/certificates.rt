// Certificates of clauses with variables, equality and function symbols: parts of what is printed, where the whole is not forced.
use crate::runs::{answer_of, files_of, four_parts};
use inst_logic::Memory;
use std::alloc::Global;
use std::str;

// What the row is about, the words, the status with the first line and parts that the text has, parts that it lacks, and the
// files.
pub const ROWS: &str = "\
#an instance is needed@|prove|r3.p@0 % SZS status Unsatisfiable for r3.p\n^% ground constant bot_0\n^cnf(m3,plain,p(c),inst(m1,1,m2,1)).\ncnf(g1,plain,p(bot_0),ground(1,[bot_0])).\ncnf(g2,plain,~p(c),ground(2,[])).\ncnf(g3,plain,p(c),ground(1,[c])).\ncnf(r1,plain,$false,rup([@cnf(m4^cnf(r2@r3.p@cnf(one,axiom,p(X)). cnf(two,axiom,~p(c)).\
#and is found without a budget@|prove|r3.p|--budget|0@0 % SZS status Unsatisfiable for r3.p\n^cnf(m3,plain,p(c),inst(m1,1,m2,1)).\n@cnf(m4@r3.p@cnf(one,axiom,p(X)). cnf(two,axiom,~p(c)).\
#the abstractions are refuted as they are@|prove|r4.p@0 % SZS status Unsatisfiable for r4.p\n^cnf(g1,plain,p(bot_0,bot_0),ground(1,[bot_0])).\ncnf(g2,plain,~p(bot_0,bot_0),ground(2,[bot_0,bot_0])).\n@inst(^cnf(m3@r4.p@cnf(a,axiom,p(X,X)). cnf(b,axiom,~p(Y,Z)).\
#@|prove|r5.p@0 % SZS status Satisfiable for r5.p\n^cnf(m2,plain,~p(a),input(2),[selected(1)]).\n@ground@r5.p@cnf(a,axiom,p(X)|q(X)). cnf(b,axiom,~p(a)).\
#a function symbol@|prove|r6.p@0 % SZS status Unsatisfiable for r6.p\n^,plain,~p(a) | p(f(a)),inst(^,plain,~p(f(a)) | p(f(f(a))),inst(@@r6.p@cnf(a,axiom,p(a)). cnf(b,axiom,~p(X) | p(f(X))). cnf(c,axiom,~p(f(f(a)))).\
#a budget that suffices@|prove|r7.p|--budget=4@0 % SZS status Unsatisfiable for r7.p\n^,plain,p(f(f(c))),inst(@@r7.p@cnf(a,axiom,p(f(X))). cnf(b,axiom,~p(f(f(c)))).\
#a second run goes from what is denied, where the budget does not suffice for the first@|prove|way.p|--budget|60@0 % SZS status Unsatisfiable for way.p\n^cnf(m8,plain,~n(o) | n(s(o)),inst(m2,2,m7,1)).\n@cnf(m9@way.p@cnf(a,axiom,n(o)). cnf(b,axiom,~n(X)|n(s(X))). cnf(c,axiom,~n(X)|n(t(X))). cnf(d,axiom,~n(s(s(s(s(o)))))).\
#equality by its axioms@|prove|r8.p@0 % SZS status Unsatisfiable for r8.p\n^cnf(e4,axiom,X0 != X1 | ~p(X0) | p(X1),equality).\n^,plain,a != b | ~p(a) | p(b),ground(@@r8.p@cnf(a,axiom,a = b). cnf(b,axiom,p(a)). cnf(c,axiom,~p(b)).\
#a selected clause of an include@|prove|m.p@0 % SZS status Unsatisfiable for m.p\n^cnf(i1,axiom,p(X0),named(b)).\ncnf(i2,axiom,~p(c),named(g)).\n@cnf(i3@m.p@include('ax.p',[b]). cnf(g,negated_conjecture,~p(c)).@ax.p@cnf(a,axiom,q(c)). cnf(b,axiom,p(X)).\
#a puzzle with equality@|prove|puzzle.p@0 % SZS status Unsatisfiable for puzzle.p\n^cnf(i15,axiom,~killed(agatha,agatha),named(not_suicide)).\ncnf(e1,axiom,X0 = X0,equality).\n^cnf(e7,axiom,@cnf(e8@puzzle.p@include('mansion.ax').
cnf(killer_lives,hypothesis,( lives(killer) )).
cnf(killer_killed,hypothesis,( killed(killer,agatha) )).
cnf(killer_hates,axiom,( ~ killed(X,Y) | hates(X,Y) )).
cnf(not_richer,axiom,( ~ killed(X,Y) | ~ richer(X,Y) )).
cnf(charles_hates,axiom,( ~ hates(agatha,X) | ~ hates(charles,X) )).
cnf(agatha_hates_agatha,axiom,( hates(agatha,agatha) )).
cnf(agatha_hates_charles,axiom,( hates(agatha,charles) )).
cnf(butler_hates_poor,axiom,( ~ lives(X) | richer(X,agatha) | hates(butler,X) )).
cnf(butler_copies,axiom,( ~ hates(agatha,X) | hates(butler,X) )).
cnf(none_hates_all,axiom,( ~ hates(X,agatha) | ~ hates(X,butler) | ~ hates(X,charles) )).
cnf(not_suicide,negated_conjecture,( ~ killed(agatha,agatha) )).
@mansion.ax@cnf(lives_a,axiom,( lives(agatha) )).
cnf(lives_b,axiom,( lives(butler) )).
cnf(lives_c,axiom,( lives(charles) )).
cnf(only_three,axiom,( ~ lives(X) | X = agatha | X = butler | X = charles )).
\
";

fn has_all(text: &str, parts: &str) -> bool {
    for (i, part) in parts.split('^').enumerate() {
        if i == 0 && !text.starts_with(part) || !text.contains(part) {
            return false;
        }
    }
    true
}

fn has_any(text: &str, parts: &str) -> bool {
    for part in parts.split('^') {
        if !part.is_empty() && text.contains(part) {
            return true;
        }
    }
    false
}

fn is_told(answer: &[u8], has: &str, lacks: &str) -> bool {
    match str::from_utf8(answer) {
        Ok(text) => has_all(text, has) && !has_any(text, lacks),
        Err(_) => false,
    }
}

fn is_answered(
    alloc: Global,
    words: &str,
    has: &str,
    lacks: &str,
    files: &str,
) -> Result<bool, Memory> {
    let files = files_of(alloc, files)?;
    let answer = answer_of(alloc, words, files)?;
    Ok(is_told(answer.as_slice(), has, lacks))
}

/// Whether the answer to the words of the row has these parts and lacks those.
pub fn is_right(alloc: Global, row: &str) -> Result<bool, Memory> {
    match four_parts(row) {
        Some((_, words, has, rest)) => match rest.split_once("@") {
            Some((lacks, files)) => is_answered(alloc, words, has, lacks, files),
            None => Ok(false),
        },
        None => Ok(false),
    }
}
