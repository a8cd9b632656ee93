// Formulas at their limits, and one above: 1,024 universal variables, and a measure of 10,000,000.
use dimacs_front::{DimacsError, read_qdimacs};
use inst_logic::Memory;
use std::alloc::Global;
use std::test::Fail;
use tptp_write::{push_bytes, push_number};

// A line of quantifiers for the variables 1 to `count`.
fn push_universals(text: &mut Vec<u8>, count: usize) -> Result<(), Memory> {
    push_bytes(text, b"a")?;
    for n in 0..count {
        push_bytes(text, b" ")?;
        push_number(text, n.saturating_add(1))?;
    }
    push_bytes(text, b" 0\n")
}

fn push_repeated(text: &mut Vec<u8>, word: &[u8], times: usize) -> Result<(), Memory> {
    for _ in 0..times {
        push_bytes(text, word)?;
    }
    Ok(())
}

fn is_read(alloc: Global, text: &[u8]) -> Result<bool, DimacsError> {
    match read_qdimacs(alloc, text) {
        Ok(_) => Ok(true),
        Err(DimacsError::Limit) => Ok(false),
        Err(error) => Err(error),
    }
}

// Whether a formula of so many universal variables, and no clause, is read.
fn is_read_with_universals(alloc: Global, count: usize) -> Result<bool, DimacsError> {
    let mut text = Vec::new(alloc);
    push_bytes(&mut text, b"p cnf 2000 0\n")?;
    push_universals(&mut text, count)?;
    is_read(alloc, text.as_slice())
}

// Whether a formula is read of whose clause one variable with 999 universal variables before it stands at 10,000 places, and one
// without a quantifier at so many.
fn is_read_with_measure(alloc: Global, outer: usize) -> Result<bool, DimacsError> {
    let mut text = Vec::new(alloc);
    push_bytes(&mut text, b"p cnf 1001 1\n")?;
    push_universals(&mut text, 999)?;
    push_bytes(&mut text, b"e 1000 0\n")?;
    push_repeated(&mut text, b"1000 ", 10_000)?;
    push_repeated(&mut text, b"1001 ", outer)?;
    push_bytes(&mut text, b"0\n")?;
    is_read(alloc, text.as_slice())
}

#[test]
fn limits_are_kept(rt: HostRuntime) -> Result<(), Fail> {
    assert!(rt; is_read_with_universals(rt.alloc(), 1024)?);
    assert!(rt; !is_read_with_universals(rt.alloc(), 1025)?);
    assert!(rt; is_read_with_measure(rt.alloc(), 0)?);
    assert!(rt; !is_read_with_measure(rt.alloc(), 1)?);
    Ok(())
}
