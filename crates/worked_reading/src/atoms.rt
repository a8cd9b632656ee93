// Texts of atoms that are read, and some that are refused.
use inst_logic::{Literal, Memory};
use std::alloc::Global;
use tptp_read::{ReadError, read_atom};
use tptp_write::{name_text, push_bytes, push_literal};

// A text, and the name of the atom's predicate with the atom as it is printed, or why there is none.
pub const ROWS: &str = "\
# 'p'( a ) % p@p p(a)\
#'P'(f(a,'b c'))@'P' 'P'(f(a,'b c'))\
#a = f(a)@'=' a = f(a)\
#p(X)@syntax\
#p(a) q@syntax\
#~ p(a)@syntax\
#p(\"o\",7)@feature \"o\"\
#p(7)@feature 7\
";

fn push_error(text: &mut Vec<u8>, error: &ReadError) -> Result<(), Memory> {
    match error {
        ReadError::Memory => Err(Memory),
        ReadError::Syntax { statement: 1 } => push_bytes(text, b"syntax"),
        ReadError::Feature { statement: 1, word } => {
            push_bytes(text, b"feature ")?;
            push_bytes(text, word.bytes())
        }
        _ => push_bytes(text, b"another error"),
    }
}

// Puts at the end the name of the atom's predicate and the atom.
fn push_named(alloc: Global, text: &mut Vec<u8>, atom: &Literal) -> Result<(), Memory> {
    let name = name_text(alloc, &atom.sym.name)?;
    push_bytes(text, name.as_slice())?;
    push_bytes(text, b" ")?;
    push_literal(text, atom)
}

/// Puts what is read of the text at the end of the answer, or why nothing is.
pub fn push_atom(alloc: Global, answer: &mut Vec<u8>, text: &[u8]) -> Result<(), Memory> {
    match read_atom(alloc, text) {
        Ok(atom) => push_named(alloc, answer, &atom),
        Err(error) => push_error(answer, &error),
    }
}
