// Tables of texts and their answers. A table is one text and no array, since a function that uses an array is proved anew for each
// of its entries.
use crate::{atoms, certificates, counts, dimacs, statements, token_kinds, words};
use inst_logic::Memory;
use std::alloc::Global;
use std::test::Fail;

/// What reads the rows of a table.
#[derive(Clone, Copy)]
enum Reader {
    Tokens,
    Counts,
    Statements,
    Atoms,
    Clauses,
    Solver,
    Certificates,
    Prefixes,
    Middles,
    Refutations,
    Words,
}

// Puts the reader's answer to the text at the end.
fn push_answer(
    alloc: Global,
    reader: Reader,
    answer: &mut Vec<u8>,
    text: &str,
) -> Result<(), Memory> {
    match reader {
        Reader::Tokens => token_kinds::push_tokens(answer, text.as_bytes()),
        Reader::Counts => counts::push_count(alloc, answer, text.as_bytes()),
        Reader::Statements => statements::push_statements(alloc, answer, text.as_bytes()),
        Reader::Atoms => atoms::push_atom(alloc, answer, text.as_bytes()),
        Reader::Clauses => dimacs::push_clauses(alloc, answer, text.as_bytes()),
        Reader::Solver => dimacs::push_solved(alloc, answer, text.as_bytes()),
        Reader::Certificates => certificates::push_reading(alloc, answer, text.as_bytes()),
        Reader::Prefixes => certificates::push_prefixes(alloc, answer, text.as_bytes()),
        Reader::Middles => certificates::push_middle(alloc, answer, text.as_bytes()),
        Reader::Refutations => certificates::push_refutation(alloc, answer, text.as_bytes()),
        Reader::Words => words::push_words(alloc, answer, text),
    }
}

fn is_among(answer: &[u8], wanted: &str) -> bool {
    for one in wanted.split('@') {
        if answer == one.as_bytes() {
            return true;
        }
    }
    false
}

fn is_answered_by(
    alloc: Global,
    reader: Reader,
    answer: &mut Vec<u8>,
    text: &str,
    wanted: &str,
) -> Result<bool, Memory> {
    push_answer(alloc, reader, answer, text)?;
    Ok(is_among(answer.as_slice(), wanted))
}

fn is_answered(alloc: Global, reader: Reader, text: &str, wanted: &str) -> Result<bool, Memory> {
    let mut answer = Vec::new(alloc);
    is_answered_by(alloc, reader, &mut answer, text, wanted)
}

fn is_right(alloc: Global, reader: Reader, row: &str) -> Result<bool, Memory> {
    match row.split_once("@") {
        Some((text, wanted)) => is_answered(alloc, reader, text, wanted),
        None => Ok(false),
    }
}

// The place of the first row that is not answered so, from 1.
fn first_wrong(alloc: Global, reader: Reader, table: &str) -> Result<Option<usize>, Memory> {
    for (i, row) in table.split('#').enumerate() {
        if i > 0 && !is_right(alloc, reader, row)? {
            return Ok(Some(i));
        }
    }
    Ok(None)
}

// The place of the first wrong row of each table. In a table a row begins with `#`, and behind the text stands `@` and the answer,
// or several of which it may be any.
fn wrong_rows(alloc: Global) -> Result<[Option<usize>; 11], Memory> {
    Ok([
        first_wrong(alloc, Reader::Tokens, token_kinds::ROWS)?,
        first_wrong(alloc, Reader::Counts, counts::ROWS)?,
        first_wrong(alloc, Reader::Statements, statements::ROWS)?,
        first_wrong(alloc, Reader::Atoms, atoms::ROWS)?,
        first_wrong(alloc, Reader::Clauses, dimacs::ROWS)?,
        first_wrong(alloc, Reader::Solver, dimacs::SOLVED)?,
        first_wrong(alloc, Reader::Prefixes, certificates::WHOLES)?,
        first_wrong(alloc, Reader::Certificates, certificates::OTHERS)?,
        first_wrong(alloc, Reader::Middles, certificates::MIDDLES)?,
        first_wrong(alloc, Reader::Refutations, certificates::REFUTATIONS)?,
        first_wrong(alloc, Reader::Words, words::ROWS)?,
    ])
}

#[test]
fn texts_have_these_answers(rt: HostRuntime) -> Result<(), Fail> {
    assert_eq!(rt; wrong_rows(rt.alloc())?, [None; 11]);
    Ok(())
}
