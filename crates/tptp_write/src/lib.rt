//! Canonical printing of names, terms, literals and clauses (the CNF part of the TPTP language). Each call puts its text at
//! the end of one that grows, so a certificate is made without joining parts. After want of memory nothing is promised of
//! that text.
#![tactic(auto)]

mod clauses;
mod names;
mod terms;

pub use clauses::{clause_text, push_atom, push_clause, push_literal, push_literals, push_sign};
pub use names::{name_text, push_bytes, push_name, push_number};
pub use terms::push_term;
