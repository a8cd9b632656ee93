// Chains that are refuted and the numbers that are told of them, and an output of the program that is asked.
use crate::runs::{add_file, answer_of, file_of, is_answer};
use inst_logic::Memory;
use outside_io::FileList;
use std::alloc::Global;
use std::str;
use std::test::Fail;
use tptp_write::{push_bytes, push_number};

fn push_numbered(text: &mut Vec<u8>, label: &[u8], number: usize) -> Result<(), Memory> {
    push_bytes(text, label)?;
    push_number(text, number)
}

fn push_edge(text: &mut Vec<u8>, number: usize) -> Result<(), Memory> {
    push_numbered(text, b"cnf(a,axiom,e(c", number)?;
    push_numbered(text, b",c", number.saturating_add(1))?;
    push_bytes(text, b")).\n")
}

// The clauses of the chain of so many constants, as statements.
fn push_statements(text: &mut Vec<u8>, number: usize) -> Result<(), Memory> {
    for i in 1..number {
        push_edge(text, i)?;
    }
    push_bytes(
        text,
        b"cnf(b,axiom,r(c1)). cnf(c,axiom,~r(X) | ~e(X,Y) | r(Y)).\n",
    )?;
    push_numbered(text, b"cnf(d,axiom,~r(c", number)?;
    push_bytes(text, b")).\n")
}

fn chain_file(alloc: Global, number: usize) -> Result<FileList, Memory> {
    let mut text = Vec::new(alloc);
    push_statements(&mut text, number)?;
    file_of(alloc, "c.p", text.as_slice())
}

fn lines_from(answer: &[u8], start: &str) -> usize {
    match str::from_utf8(answer) {
        Ok(text) => text.lines().filter(|line| line.starts_with(start)).count(),
        Err(_) => 0,
    }
}

// The numbers of lines for members and for steps that `prove` writes for the chain.
fn lengths(alloc: Global, number: usize) -> Result<(usize, usize), Memory> {
    let files = chain_file(alloc, number)?;
    let answer = answer_of(alloc, "|prove|c.p", files)?;
    Ok((
        lines_from(answer.as_slice(), "cnf(m"),
        lines_from(answer.as_slice(), "cnf(r"),
    ))
}

fn push_wanted(text: &mut Vec<u8>, clauses: usize, lengths: (usize, usize)) -> Result<(), Memory> {
    push_numbered(
        text,
        b"0 % SZS status Unsatisfiable for stress\n% clauses ",
        clauses,
    )?;
    push_numbered(text, b"\n% members ", lengths.0)?;
    push_numbered(text, b", steps ", lengths.1)?;
    push_bytes(text, b"\n")
}

fn wanted(alloc: Global, number: usize, clauses: usize) -> Result<Vec<u8>, Memory> {
    let lengths = lengths(alloc, number)?;
    let mut text = Vec::new(alloc);
    push_wanted(&mut text, clauses, lengths)?;
    Ok(text)
}

// Whether what is told of the chain are the numbers of lines that `prove` writes for its statements.
fn is_told(alloc: Global, words: &str, number: usize, clauses: usize) -> Result<bool, Memory> {
    let wanted = wanted(alloc, number, clauses)?;
    let answer = answer_of(alloc, words, FileList::new(alloc))?;
    Ok(answer == wanted)
}

fn are_told(alloc: Global) -> Result<[bool; 5], Memory> {
    Ok([
        is_told(alloc, "|stress|2", 2, 4)?,
        is_told(alloc, "|stress|3", 3, 5)?,
        is_told(alloc, "|stress|17", 17, 19)?,
        is_told(alloc, "|stress|300", 300, 302)?,
        is_told(alloc, "|stress|1000", 1000, 1002)?,
    ])
}

#[test]
fn chains_are_refuted(rt: HostRuntime) -> Result<(), Fail> {
    assert_eq!(rt; are_told(rt.alloc())?, [true; 5]);
    Ok(())
}

const PROBLEM: &[u8] = b"cnf(a,axiom,p(X)|q(X)). cnf(b,axiom,~p(a)).";

fn problem(alloc: Global) -> Result<FileList, Memory> {
    file_of(alloc, "r5.p", PROBLEM)
}

// The problem, and beside it the certificate that `prove` writes for it.
fn with_output(alloc: Global) -> Result<FileList, Memory> {
    let answer = answer_of(alloc, "|prove|r5.p", problem(alloc)?)?;
    let mut files = problem(alloc)?;
    add_file(
        alloc,
        &mut files,
        "c",
        answer.strip_prefix(b"0 ").unwrap_or(b""),
    )?;
    Ok(files)
}

// What is said of an atom by what `prove` writes.
fn is_asked(alloc: Global, words: &str, reply: &str) -> Result<bool, Memory> {
    let files = with_output(alloc)?;
    is_answer(alloc, words, files, reply)
}

fn are_asked(alloc: Global) -> Result<[bool; 3], Memory> {
    Ok([
        is_asked(alloc, "|ask|c|p(a)", "0 false\n")?,
        is_asked(alloc, "|ask|c|q(a)", "0 true\n")?,
        is_asked(alloc, "|check|c|--problem|r5.p", "0 valid Saturation\n")?,
    ])
}

#[test]
fn an_output_is_asked(rt: HostRuntime) -> Result<(), Fail> {
    assert_eq!(rt; are_asked(rt.alloc())?, [true; 3]);
    Ok(())
}
