// The tokens of a text, one after the other. A list of all would take memory before the first one is judged.
ghost use Rattle.std.specs.Prelude.{◌≡◌, ◌-◌, ◌≤◌, length};
ghost use Rattle.std.specs.Iterator.{at_most};
ghost use Rattle.tptp_read.specs.Stream.{Advances};

use crate::kind::Token;
use crate::scan::token_at;
use crate::skip::gap_len;
use std::marker::Model;

/// What is left of a text, of which the tokens up to a place were given. It takes no memory.
#[derive(Drop)]
pub struct Tokens<'a> {
    pub(crate) text: &'a [u8],
    pub(crate) at: usize,
}

impl<'a> Model for Tokens<'a> {
    ghost use Rattle.std.specs.Prelude.{◌≤◌, length};
    ghost use Rattle.tptp_read.specs.Stream.{Stream};

    ghost Value = { Stream };

    ghost view = { λ s. record { text = s.text.now; at = s.at } };

    ghost invariant = { λ s. s.at ≤ length s.text.now };
}

impl<'a> Tokens<'a> {
    /// The end of the last token that was given, or 0 before the first one. After the last one it is the first place where no
    /// token begins, behind blanks and closed comments.
    pub fn place(&self) -> usize
        ensures is { result ≡ self.now.at }
        ensures within { result ≤ length self.now.text }
    {
        self.at
    }

    // The next token.
    fn advance(&mut self) -> Option<Token>
        ensures { Advances self.old result self.new }
    {
        let start = self.at + gap_len(&self.text[self.at..]);
        match token_at(&self.text[start..]) {
            None => {
                self.at = start;
                None
            }
            Some((kind, len)) => {
                self.at = start + len;
                Some(Token {
                    kind,
                    start,
                    end: start + len,
                })
            }
        }
    }
}

impl<'a> Iterator for Tokens<'a> {
    type Item = Token;

    ghost next_gives = { λ s r t. Advances s r t };

    ghost remaining = { λ s. at_most (length s.text - s.at) };

    /// The next token, or `None` at the first place where none begins.
    fn next(&mut self) -> Option<Token> {
        self.advance()
    }
}
