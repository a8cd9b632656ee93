// What a clause is read from.
use crate::lexeme::Lexeme;
use indexmap::IndexSet;
use std::alloc::Global;

// The tokens of a statement, and its variables, each numbered by its place.
#[derive(Clone, Copy)]
pub(crate) struct Reader<'a, 't> {
    pub(crate) alloc: Global,
    pub(crate) vars: &'a IndexSet<&'t [u8]>,
    pub(crate) tokens: &'a [Lexeme<'t>],
}
