// Tokens by their kinds.
use inst_logic::Memory;
use tptp_read::tokens::tokens;
use tptp_read::{TokenKind, Tokens};
use tptp_write::{push_bytes, push_number};

// A text, its tokens as a letter for each kind, where the last of them ends, and where the search for another one ends. In the
// first row p ( X1 , 'a\'b' , "" , -1.5e+3 , 1 e , 2/3 . $$abc ) != 1 . and in the second a comment that is not closed.
pub const ROWS: &str = "\
#% c\n p(X1,'a\\'b',\"\",-1.5e+3,1e,2/3.$$abc)/*x*/!=1.@l.v.q.d.r.il./.$..i. 50 50\
#a /* b@l 1 2\
";

// A letter for each kind.
fn letter(kind: TokenKind) -> u8 {
    match kind {
        TokenKind::LowerWord => b'l',
        TokenKind::Variable => b'v',
        TokenKind::DollarWord => b'$',
        TokenKind::QuotedWord => b'q',
        TokenKind::DistinctObject => b'd',
        TokenKind::Integer => b'i',
        TokenKind::Rational => b'/',
        TokenKind::Real => b'r',
        TokenKind::Punctuation => b'.',
    }
}

// Puts the letter of the next token at the end, and answers whether there is one.
fn push_next(answer: &mut Vec<u8>, stream: &mut Tokens<'_>) -> Result<bool, Memory> {
    match stream.next() {
        Some(token) => {
            push_bytes(answer, &[letter(token.kind)])?;
            Ok(true)
        }
        None => Ok(false),
    }
}

// Puts the letters of the tokens at the end, and answers where the last one ends. No text has more tokens than bytes.
fn push_letters(
    answer: &mut Vec<u8>,
    stream: &mut Tokens<'_>,
    most: usize,
) -> Result<usize, Memory> {
    let mut end = stream.place();
    for _ in 0..most {
        if !push_next(answer, stream)? {
            return Ok(end);
        }
        end = stream.place();
    }
    Ok(end)
}

/// Puts what the tokens of the text are at the end of the answer.
pub fn push_tokens(answer: &mut Vec<u8>, text: &[u8]) -> Result<(), Memory> {
    let mut stream = tokens(text);
    let end = push_letters(answer, &mut stream, text.len().saturating_add(1))?;
    push_bytes(answer, b" ")?;
    push_number(answer, end)?;
    push_bytes(answer, b" ")?;
    push_number(answer, stream.place())
}
