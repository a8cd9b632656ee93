// The fronts of a text, each as a file.
use crate::runs::{answer_of, file_of};
use inst_logic::Memory;
use std::alloc::Global;
use std::test::Fail;

const TEXT: &[u8] = b"cnf(one,axiom,p(X)). cnf(two,axiom,~p(c)).";

const FIRST: &str = "2 % SZS status SyntaxError for cut.p\n% syntax: statement 1 of cut.p\n";

const SECOND: &str = "2 % SZS status SyntaxError for cut.p\n% syntax: statement 2 of cut.p\n";

// How the answer to the front of so many bytes begins: no statement, or the first, is satisfiable, and both are not.
fn start(length: usize) -> &'static str {
    match length {
        0 | 20 | 21 => "0 % SZS status Satisfiable for cut.p\n",
        1..=19 => FIRST,
        22..=41 => SECOND,
        _ => "0 % SZS status Unsatisfiable for cut.p\n",
    }
}

fn is_answered(alloc: Global, front: &[u8]) -> Result<bool, Memory> {
    let files = file_of(alloc, "cut.p", front)?;
    let answer = answer_of(alloc, "|prove|cut.p", files)?;
    Ok(answer.starts_with(start(front.len()).as_bytes()))
}

// The length of the first front that is not answered so.
fn first_wrong(alloc: Global) -> Result<Option<usize>, Memory> {
    for i in 0..TEXT.len() {
        if !is_answered(alloc, &TEXT[..i])? {
            return Ok(Some(i));
        }
    }
    let whole = is_answered(alloc, TEXT)?;
    Ok(if whole { None } else { Some(TEXT.len()) })
}

#[test]
fn cuts(rt: HostRuntime) -> Result<(), Fail> {
    assert_eq!(rt; first_wrong(rt.alloc())?, None);
    Ok(())
}
