// Runs in which a call of the library or of the output fails.
ghost use Rattle.std.specs.Prelude.{◌<◌};

use crate::runs::{answer_of, files_of, told, told_of, words_of};
use inst_logic::Memory;
use outside_io::{CallList, MemLibrary, MemSink};
use std::alloc::Global;
use std::test::Fail;
use szs_prove::run;

// Problems, one of them with an include, clauses in the DIMACS form, a formula, and a certificate without members, which is valid.
const FILES: &str = "\
r.p@cnf(one,axiom,p(X)). cnf(two,axiom,~p(c)).@\
m.p@include('ax.p',[b]). cnf(g,negated_conjecture,~p(c)).@\
ax.p@cnf(a,axiom,q(c)). cnf(b,axiom,p(X)).@\
d.cnf@p cnf 1 1\n1 0\n@\
q.cnf@p cnf 1 1\ne 1 0\n1 0\n@\
c@% SZS status Satisfiable for r.p
% SZS output start Saturation for r.p
% instgen certificate 1
% SZS output end Saturation for r.p
";

const NO_PROBLEM: &str = "4 % SZS status OSError for r.p\n% read fault\n";

const NO_INCLUDES: &str = "4 % SZS status OSError for m.p\n% read fault\n";

const NO_CLAUSES: &str = "4 % SZS status OSError for d.cnf\n% read fault\n";

const NO_FORMULA: &str = "4 % SZS status OSError for q.cnf\n% read fault\n";

const NO_CERTIFICATE: &str = "4 % SZS status OSError for c\n% read fault\n";

fn call(alloc: Global, number: usize) -> Result<CallList, Memory> {
    let mut calls = CallList::new(alloc);
    calls.push(number)?;
    Ok(calls)
}

// The library of the files, which gives at most so many bytes at once, and of which these calls fail.
fn library_of(alloc: Global, most: usize, fail: CallList) -> Result<MemLibrary, Memory>
    requires { 0 < most }
{
    let files = files_of(alloc, FILES)?;
    Ok(MemLibrary::new(alloc, files, most, fail))
}

fn told_of_read(alloc: Global, words: &str, most: usize, number: usize) -> Result<Vec<u8>, Memory>
    requires { 0 < most }
{
    let words = words_of(alloc, words)?;
    let mut library = library_of(alloc, most, call(alloc, number)?)?;
    told(alloc, words.as_slice(), &mut library)
}

// Whether this is the answer to the words where this call of the library fails.
fn fails(
    alloc: Global,
    words: &str,
    most: usize,
    number: usize,
    wanted: &str,
) -> Result<bool, Memory>
    requires { 0 < most }
{
    let answer = told_of_read(alloc, words, most, number)?;
    Ok(answer.as_slice() == wanted.as_bytes())
}

// Whether this is the answer where any of so many calls fails, and not where the next would.
fn all_fail(
    alloc: Global,
    words: &str,
    most: usize,
    calls: usize,
    wanted: &str,
) -> Result<bool, Memory>
    requires { 0 < most }
{
    for i in 0..calls {
        if !fails(alloc, words, most, i.saturating_add(1), wanted)? {
            return Ok(false);
        }
    }
    let next = fails(alloc, words, most, calls.saturating_add(1), wanted)?;
    Ok(!next)
}

// A file is begun, and some reads give its bytes, of which the last finds the end; each file that another includes or that a check
// names beside its certificate has as many calls more.
fn all_reads_fail(alloc: Global) -> Result<[bool; 9], Memory> {
    Ok([
        all_fail(alloc, "|prove|r.p", 24, 4, NO_PROBLEM)?,
        all_fail(alloc, "|prove|m.p", 64, 6, NO_INCLUDES)?,
        all_fail(alloc, "|fmodel|1|m.p", 64, 6, NO_INCLUDES)?,
        all_fail(alloc, "|core|m.p", 64, 6, NO_INCLUDES)?,
        all_fail(alloc, "|sat|d.cnf", 7, 4, NO_CLAUSES)?,
        all_fail(alloc, "|qbf|q.cnf", 10, 4, NO_FORMULA)?,
        all_fail(alloc, "|check|c", 64, 5, NO_CERTIFICATE)?,
        all_fail(alloc, "|ask|c|p", 64, 5, NO_CERTIFICATE)?,
        all_fail(alloc, "|check|c|--problem|r.p", 64, 8, NO_CERTIFICATE)?,
    ])
}

#[test]
fn reads_that_fail(rt: HostRuntime) -> Result<(), Fail> {
    assert_eq!(rt; all_reads_fail(rt.alloc())?, [true; 9]);
    Ok(())
}

fn told_in(
    alloc: Global,
    words: &[String],
    library: &mut MemLibrary,
    out: &mut MemSink,
) -> Result<Vec<u8>, Memory> {
    let exit = run(alloc, words, library, out);
    told_of(alloc, exit, out.bytes())
}

// What is told where this call of the output fails, which takes at most 16 bytes at once.
fn told_of_write(alloc: Global, words: &str, number: usize) -> Result<Vec<u8>, Memory> {
    let words = words_of(alloc, words)?;
    let mut library = library_of(alloc, 64, CallList::new(alloc))?;
    let mut out = MemSink::new(alloc, 16, call(alloc, number)?);
    told_in(alloc, words.as_slice(), &mut library, &mut out)
}

// Whether the status is that of a write that fails, and a front of the text was taken, at most as much as so many calls take.
fn is_front(told: &[u8], text: &[u8], calls: usize) -> bool {
    match told.strip_prefix(b"5 ") {
        Some(taken) => text.starts_with(taken) && taken.len() <= calls.saturating_mul(16),
        None => false,
    }
}

fn stops(alloc: Global, words: &str, text: &[u8], calls: usize) -> Result<bool, Memory> {
    let told = told_of_write(alloc, words, calls.saturating_add(1))?;
    Ok(is_front(told.as_slice(), text, calls))
}

// Whether writing stops at each of so many calls in turn, and not at the next.
fn all_stop(alloc: Global, words: &str, text: &[u8], calls: usize) -> Result<bool, Memory> {
    for before in 0..calls {
        if !stops(alloc, words, text, before)? {
            return Ok(false);
        }
    }
    let next = stops(alloc, words, text, calls)?;
    Ok(!next)
}

// Whether a text is written in the answer to the words, by so many calls, or as many as take a text that is written at once; and
// writing stops at each in turn.
fn all_writes_stop(
    alloc: Global,
    words: &str,
    status: &str,
    calls: Option<usize>,
) -> Result<bool, Memory> {
    let answer = answer_of(alloc, words, files_of(alloc, FILES)?)?;
    match answer.strip_prefix(status.as_bytes()) {
        Some(text) => {
            let whole = text.len().saturating_add(15) / 16;
            all_stop(alloc, words, text, calls.unwrap_or(whole))
        }
        None => Ok(false),
    }
}

fn all_answers_stop(alloc: Global) -> Result<[bool; 9], Memory> {
    Ok([
        all_writes_stop(alloc, "|prove|r.p", "0 ", None)?,
        all_writes_stop(alloc, "|fmodel|1|r.p", "0 ", None)?,
        all_writes_stop(alloc, "|core|r.p", "0 ", None)?,
        all_writes_stop(alloc, "|sat|d.cnf", "10 ", None)?,
        all_writes_stop(alloc, "|qbf|q.cnf", "10 ", None)?,
        all_writes_stop(alloc, "|check|c", "0 ", Some(3))?,
        all_writes_stop(alloc, "|ask|c|p", "0 ", Some(2))?,
        all_writes_stop(alloc, "|check|d", "2 ", Some(8))?,
        all_writes_stop(alloc, "|stress|2", "0 ", Some(9))?,
    ])
}

#[test]
fn writes_that_fail(rt: HostRuntime) -> Result<(), Fail> {
    assert_eq!(rt; all_answers_stop(rt.alloc())?, [true; 9]);
    Ok(())
}
