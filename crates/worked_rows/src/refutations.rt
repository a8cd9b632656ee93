// Refutations, of which the steps may be any valid ones.
use crate::runs::{answer_of, file_of, four_parts};
use inst_logic::Memory;
use std::alloc::Global;
use std::str;

// What the row is about, clauses, the status with the answer up to its steps, and a word that no step may have.
pub const ROWS: &str = "\
#@cnf(a,axiom,p(c)|q). cnf(b,axiom,~p(c)). cnf(d,axiom,~q).@0 % SZS status Unsatisfiable for r.p
% SZS output start CNFRefutation for r.p
% instgen certificate 3
% ground constant bot_0
cnf(i1,axiom,p(c) | q,named(a)).
cnf(i2,axiom,~p(c),named(b)).
cnf(i3,axiom,~q,named(d)).
cnf(m1,plain,p(c) | q,input(1)).
cnf(m2,plain,~p(c),input(2)).
cnf(m3,plain,~q,input(3)).
cnf(g1,plain,p(c) | q,ground(1,[])).
cnf(g2,plain,~p(c),ground(2,[])).
cnf(g3,plain,~q,ground(3,[])).
@bot_0\
#@cnf(one,axiom,p('A')). cnf('it\\'s',axiom,~ 'p'('A')). cnf(own,axiom,bot_0).@0 % SZS status Unsatisfiable for r.p
% SZS output start CNFRefutation for r.p
% instgen certificate 3
% ground constant bot_1
cnf(i1,axiom,p('A'),named(one)).
cnf(i2,axiom,~p('A'),named('it\\'s')).
cnf(i3,axiom,bot_0,named(own)).
cnf(m1,plain,p('A'),input(1)).
cnf(m2,plain,~p('A'),input(2)).
cnf(m3,plain,bot_0,input(3)).
cnf(g1,plain,p('A'),ground(1,[])).
cnf(g2,plain,~p('A'),ground(2,[])).
cnf(g3,plain,bot_0,ground(3,[])).
@bot_1\
#a derivation has what its last step needs@cnf(a,axiom,spare|more). cnf(b,axiom,spare|~more). cnf(c,axiom,p|q). cnf(d,axiom,p|~q). cnf(e,axiom,~p|q). cnf(f,axiom,~p|~q).@0 % SZS status Unsatisfiable for r.p
% SZS output start CNFRefutation for r.p
% instgen certificate 3
% ground constant bot_0
cnf(i1,axiom,spare | more,named(a)).
cnf(i2,axiom,spare | ~more,named(b)).
cnf(i3,axiom,p | q,named(c)).
cnf(i4,axiom,p | ~q,named(d)).
cnf(i5,axiom,~p | q,named(e)).
cnf(i6,axiom,~p | ~q,named(f)).
cnf(m1,plain,spare | more,input(1)).
cnf(m2,plain,spare | ~more,input(2)).
cnf(m3,plain,p | q,input(3)).
cnf(m4,plain,p | ~q,input(4)).
cnf(m5,plain,~p | q,input(5)).
cnf(m6,plain,~p | ~q,input(6)).
cnf(g1,plain,spare | more,ground(1,[])).
cnf(g2,plain,spare | ~more,ground(2,[])).
cnf(g3,plain,p | q,ground(3,[])).
cnf(g4,plain,p | ~q,ground(4,[])).
cnf(g5,plain,~p | q,ground(5,[])).
cnf(g6,plain,~p | ~q,ground(6,[])).
@spare\
";

const END: &str = "])).\n% SZS output end CNFRefutation for r.p\n";

// Whether the last step is that of the empty clause, and the word is in none.
fn are_steps(steps: &str, word: &str) -> bool {
    if steps.contains(word) || !steps.starts_with("cnf(r1,plain,") || !steps.ends_with(END) {
        return false;
    }
    match steps.rsplit_once("cnf(r") {
        Some((_, last)) => last.contains(",plain,$false,rup(["),
        None => false,
    }
}

fn is_told(answer: &[u8], start: &str, word: &str) -> bool {
    match str::from_utf8(answer) {
        Ok(text) => match text.strip_prefix(start) {
            Some(steps) => are_steps(steps, word),
            None => false,
        },
        Err(_) => false,
    }
}

fn is_refuted(alloc: Global, clauses: &str, start: &str, word: &str) -> Result<bool, Memory> {
    let files = file_of(alloc, "r.p", clauses.as_bytes())?;
    let answer = answer_of(alloc, "|prove|r.p", files)?;
    Ok(is_told(answer.as_slice(), start, word))
}

/// Whether the clauses of the row are refuted so.
pub fn is_right(alloc: Global, row: &str) -> Result<bool, Memory> {
    match four_parts(row) {
        Some((_, clauses, start, word)) => { is_refuted(alloc, clauses, start, word) }
        None => Ok(false),
    }
}
