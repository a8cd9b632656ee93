// Texts at the limits of a statement and of a file, and one past them; and texts that are long by what they say.
use crate::runs::{answer_of, file_of};
use inst_logic::Memory;
use std::alloc::Global;
use std::test::Fail;
use tptp_write::{push_bytes, push_number};

// The most bytes over all files.
const LIMIT: usize = 16_777_216;

// How long texts are made.
#[derive(Clone, Copy)]
enum LongText {
    // `p(f(..f(c)..))` with so many f.
    Nested,
    // `p(c,c,..)` with so many constants behind the first one.
    Wide,
    // Ten literals with 1,000 variables each, and a last one with a variable: of these, or another.
    Variables,
    // Blanks.
    Blank,
    // No clauses in the DIMACS form, and blanks up to so many bytes.
    NoClauses,
    // Two clauses whose unifier doubles a term so many times.
    Doubling,
    // A certificate with one member, `p(f(..f(c)..))` with so many f.
    Certified,
}

fn push_times(text: &mut Vec<u8>, bytes: &[u8], count: usize) -> Result<(), Memory> {
    for _ in 0..count {
        push_bytes(text, bytes)?;
    }
    Ok(())
}

fn push_deep(text: &mut Vec<u8>, depth: usize) -> Result<(), Memory> {
    push_bytes(text, b"p(")?;
    push_times(text, b"f(", depth)?;
    push_bytes(text, b"c")?;
    push_times(text, b")", depth)?;
    push_bytes(text, b")")
}

fn push_nested(text: &mut Vec<u8>, depth: usize) -> Result<(), Memory> {
    push_bytes(text, b"cnf(a,axiom,")?;
    push_deep(text, depth)?;
    push_bytes(text, b").")
}

fn push_certified(text: &mut Vec<u8>, depth: usize) -> Result<(), Memory> {
    push_bytes(
        text,
        b"% SZS status Satisfiable for d.p\n% SZS output start Saturation for d.p\n% instgen certificate 1\ncnf(i1,axiom,",
    )?;
    push_deep(text, depth)?;
    push_bytes(text, b",named(a)).\ncnf(m1,plain,")?;
    push_deep(text, depth)?;
    push_bytes(
        text,
        b",input(1),[selected(1)]).\n% SZS output end Saturation for d.p\n",
    )
}

// `X1,X1,X2,X2,..` of so many variables.
fn push_pairs(text: &mut Vec<u8>, count: usize) -> Result<(), Memory> {
    for i in 1..=count {
        push_bytes(text, if i > 1 { b",X" } else { b"X" })?;
        push_number(text, i)?;
        push_bytes(text, b",X")?;
        push_number(text, i)?;
    }
    Ok(())
}

// `f(Y0,Y0),Y1,f(Y1,Y1),Y2,..` of so many applications.
fn push_doubles(text: &mut Vec<u8>, count: usize) -> Result<(), Memory> {
    for i in 0..count {
        push_bytes(text, if i > 0 { b",f(Y" } else { b"f(Y" })?;
        push_number(text, i)?;
        push_bytes(text, b",Y")?;
        push_number(text, i)?;
        push_bytes(text, b"),Y")?;
        push_number(text, i.saturating_add(1))?;
    }
    Ok(())
}

fn push_doubling(text: &mut Vec<u8>, count: usize) -> Result<(), Memory> {
    push_bytes(text, b"cnf(a,axiom,p(")?;
    push_pairs(text, count)?;
    push_bytes(text, b")). cnf(b,axiom,~p(")?;
    push_doubles(text, count)?;
    push_bytes(text, b")).")
}

fn push_wide(text: &mut Vec<u8>, more: usize) -> Result<(), Memory> {
    push_bytes(text, b"cnf(a,axiom,p(c")?;
    push_times(text, b",c", more)?;
    push_bytes(text, b")).")
}

// A variable of this number, and of this place.
fn push_variable(text: &mut Vec<u8>, number: usize, place: usize) -> Result<(), Memory> {
    push_bytes(text, b",X")?;
    push_number(text, number)?;
    push_bytes(text, b"_")?;
    push_number(text, place)
}

// A literal with 1,000 variables of this number, and a bar.
fn push_literal(text: &mut Vec<u8>, number: usize) -> Result<(), Memory> {
    push_bytes(text, b"p(X")?;
    push_number(text, number)?;
    for place in 1..1000 {
        push_variable(text, number, place)?;
    }
    push_bytes(text, b")|")
}

fn push_variables(text: &mut Vec<u8>, last: &[u8]) -> Result<(), Memory> {
    push_bytes(text, b"cnf(a,axiom,")?;
    for number in 0..10 {
        push_literal(text, number)?;
    }
    push_bytes(text, last)?;
    push_bytes(text, b").")
}

fn push_no_clauses(text: &mut Vec<u8>, length: usize) -> Result<(), Memory> {
    push_bytes(text, b"p cnf 0 0\n")?;
    push_times(text, b" ", length.saturating_sub(10))
}

fn push_text(text: &mut Vec<u8>, shape: LongText, count: usize) -> Result<(), Memory> {
    match shape {
        LongText::Nested => push_nested(text, count),
        LongText::Wide => push_wide(text, count),
        LongText::Variables => push_variables(text, if count > 0 { b"q(Y)" } else { b"q(X0)" }),
        LongText::Blank => push_times(text, b" ", count),
        LongText::NoClauses => push_no_clauses(text, count),
        LongText::Doubling => push_doubling(text, count),
        LongText::Certified => push_certified(text, count),
    }
}

fn begins_by(
    alloc: Global,
    text: &mut Vec<u8>,
    words: &str,
    (shape, count): (LongText, usize),
    start: &str,
) -> Result<bool, Memory> {
    push_text(text, shape, count)?;
    let files = file_of(alloc, "n.p", text.as_slice())?;
    let answer = answer_of(alloc, words, files)?;
    Ok(answer.starts_with(start.as_bytes()))
}

// Whether the answer to the words begins so, where the file has this text.
fn begins(
    alloc: Global,
    words: &str,
    text: (LongText, usize),
    start: &str,
) -> Result<bool, Memory> {
    let mut bytes = Vec::new(alloc);
    begins_by(alloc, &mut bytes, words, text, start)
}

const PROVE: &str = "|prove|n.p";

const SATISFIABLE: &str = "0 % SZS status Satisfiable for n.p\n";

const NESTING: &str = "2 % SZS status InputError for n.p\n% limit nesting: statement 1 of n.p\n";

const ARITY: &str = "2 % SZS status InputError for n.p\n% limit arity: statement 1 of n.p\n";

const VARIABLES: &str =
    "2 % SZS status InputError for n.p\n% limit variables: statement 1 of n.p\n";

const BYTES: &str = "2 % SZS status InputError for n.p\n% limit bytes\n";

// Both sides of the unifier are proper, and the last term has 65 different nodes, and a size above u64::MAX.
const TOO_LARGE: &str =
    "1 % SZS status ResourceOut for n.p\n% budget 10000000, left 10000000, least conclusion 18446744073709551615\n";

fn limits_are_kept(alloc: Global) -> Result<[bool; 12], Memory> {
    Ok([
        begins(alloc, PROVE, (LongText::Nested, 254), SATISFIABLE)?,
        begins(alloc, PROVE, (LongText::Nested, 255), NESTING)?,
        begins(alloc, PROVE, (LongText::Wide, 1023), SATISFIABLE)?,
        begins(alloc, PROVE, (LongText::Wide, 1024), ARITY)?,
        begins(alloc, PROVE, (LongText::Variables, 0), SATISFIABLE)?,
        begins(alloc, PROVE, (LongText::Variables, 1), VARIABLES)?,
        begins(alloc, PROVE, (LongText::Blank, LIMIT), SATISFIABLE)?,
        begins(alloc, PROVE, (LongText::Blank, LIMIT + 1), BYTES)?,
        begins(alloc, "|fmodel|2|n.p", (LongText::Blank, LIMIT + 1), BYTES)?,
        begins(alloc, "|core|n.p", (LongText::Blank, LIMIT + 1), BYTES)?,
        begins(alloc, PROVE, (LongText::Doubling, 64), TOO_LARGE)?,
        begins(
            alloc,
            "|check|n.p",
            (LongText::Certified, 100_000),
            "0 valid Saturation\n",
        )?,
    ])
}

fn clauses_are_limited(alloc: Global) -> Result<[bool; 3], Memory> {
    Ok([
        begins(
            alloc,
            "|sat|n.p",
            (LongText::NoClauses, LIMIT),
            "10 s SATISFIABLE\nv 0\n",
        )?,
        begins(alloc, "|sat|n.p", (LongText::NoClauses, LIMIT + 1), BYTES)?,
        begins(alloc, "|qbf|n.p", (LongText::NoClauses, LIMIT + 1), BYTES)?,
    ])
}

#[test]
fn limits(rt: HostRuntime) -> Result<(), Fail> {
    assert_eq!(rt; limits_are_kept(rt.alloc())?, [true; 12]);
    Ok(())
}

#[test]
fn limit_of_clauses(rt: HostRuntime) -> Result<(), Fail> {
    assert_eq!(rt; clauses_are_limited(rt.alloc())?, [true; 3]);
    Ok(())
}
