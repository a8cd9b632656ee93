// Tables of texts and their answers: each row begins with `#`, and behind its text stand `@` and the answer.
use crate::{formulas, problems};
use inst_logic::Memory;
use std::alloc::Global;
use std::test::Fail;

/// What reads the rows of a table.
#[derive(Clone, Copy)]
enum Reader {
    Formulas,
    Problems,
}

// Puts the reader's answer to the text at the end.
fn push_answer(
    alloc: Global,
    reader: Reader,
    answer: &mut Vec<u8>,
    text: &str,
) -> Result<(), Memory> {
    match reader {
        Reader::Formulas => formulas::push_formula(alloc, answer, text.as_bytes()),
        Reader::Problems => problems::push_problem(alloc, answer, text.as_bytes()),
    }
}

fn is_answered(alloc: Global, reader: Reader, text: &str, wanted: &str) -> Result<bool, Memory> {
    let mut answer = Vec::new(alloc);
    push_answer(alloc, reader, &mut answer, text)?;
    Ok(answer.as_slice() == wanted.as_bytes())
}

fn is_right(alloc: Global, reader: Reader, row: &str) -> Result<bool, Memory> {
    match row.split_once("@") {
        Some((text, wanted)) => is_answered(alloc, reader, text, wanted),
        None => Ok(false),
    }
}

// The place of the first row that is not answered so, from 1.
fn first_wrong(alloc: Global, reader: Reader, table: &str) -> Result<Option<usize>, Memory> {
    for (i, row) in table.split('#').enumerate() {
        if i > 0 && !is_right(alloc, reader, row)? {
            return Ok(Some(i));
        }
    }
    Ok(None)
}

fn wrong_rows(alloc: Global) -> Result<[Option<usize>; 2], Memory> {
    Ok([
        first_wrong(alloc, Reader::Formulas, formulas::ROWS)?,
        first_wrong(alloc, Reader::Problems, problems::ROWS)?,
    ])
}

#[test]
fn texts_have_these_answers(rt: HostRuntime) -> Result<(), Fail> {
    assert_eq!(rt; wrong_rows(rt.alloc())?, [None; 2]);
    Ok(())
}
