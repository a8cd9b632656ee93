// A token by its kind and its bytes, in the place of one by its place in the text: the parser asks what a token is and never
// where it stands.
use crate::kind::TokenKind;

#[derive(Clone, Copy, Debug)]
pub struct Lexeme<'a> {
    pub kind: TokenKind,
    pub text: &'a [u8],
}
