// A token is a kind and a place: its bytes stay in the text.

/// The kinds of tokens, by their spelling.
#[derive(Clone, Copy, Debug, PartialEq, Eq)]
pub enum TokenKind {
    /// A lower letter, and then letters, digits and `_`.
    LowerWord,
    /// An upper letter, and then letters, digits and `_`.
    Variable,
    /// One or two `$` before what is spelled as a lower word.
    DollarWord,
    /// One or more printable bytes of ASCII between two `'`. Within, `\` stands before each `'` and `\`, and before nothing
    /// else.
    QuotedWord,
    /// Printable bytes of ASCII between two `"`, or none. Within, `\` stands before each `"` and `\`, and before nothing else.
    DistinctObject,
    /// Digits, behind `+`, `-` or neither.
    Integer,
    /// An integer, `/` and digits.
    Rational,
    /// An integer with a fraction, an exponent, or both.
    Real,
    /// One of `(`, `)`, `,`, `.`, `:`, `=`, `[`, `]`, `|` and `~`, or `!=`.
    Punctuation,
}

/// A token: its kind, and where its text begins and ends, both counted in bytes from the start of the text.
#[derive(Clone, Copy, Debug, PartialEq, Eq)]
pub struct Token {
    pub kind: TokenKind,
    pub start: usize,
    pub end: usize,
}
