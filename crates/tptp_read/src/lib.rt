//! From bytes to the statements of a problem (the CNF part of the TPTP language). A token is defined by the table of spellings and by
//! being the longest; the scanner is one way to find it. The grammar is data in `specs/`; the parser is proved to find a reading
//! exactly where there is one, and that each text has one reading is a law.
#![tactic(auto)]

mod all;
mod atom;
mod body;
mod clause;
mod cnf;
mod front;
mod general;
mod include;
pub mod kind;
pub mod laws;
mod lexeme;
mod literals;
mod notes;
mod numbers;
mod reader;
mod refusal;
mod runs;
mod scan;
mod skip;
pub mod statement;
mod step;
mod stop;
pub mod stream;
mod terms;
pub mod text;
pub mod token_laws;
pub mod tokens;
mod value;
mod whole_atom;
mod width;
mod words;

pub use kind::{Token, TokenKind};
pub use statement::{Role, Statement, StatementList, Which};
pub use stream::Tokens;
pub use text::{ReadError, read_atom, read_text};
