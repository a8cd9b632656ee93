//! What is said of the certificate of a file: whether it is valid and one of the problem of another file, what it is in the format in
//! which certificates are written, or what a saturation says of a ground atom; or the first reason why nothing is said; and the line
//! that says so. Each finding is decided by the certificate
//! and the problem alone, and where the library tells its files, by them alone, but for faults and want of memory.
#![tactic(auto)]

pub mod accepted;
pub mod check;
mod difference;
pub mod fault;
pub mod file;
pub mod file_laws;
pub mod judgement;
mod kind;
pub mod laws;
pub mod query;
pub mod reply;
pub mod rewriting;
pub mod rewriting_file;
mod texts;
mod words;

pub use accepted::{accept_covered, accept_refutation, accept_saturation};
pub use check::{CheckFault, check_file};
pub use fault::CertFault;
pub use file::read_file;
pub use file_laws::{atoms_are_variable_free, findings_are_one};
pub use judgement::Judgement;
pub use laws::{judgements_are_one, newest_texts_stay, replies_are_one, short_texts_are_light};
pub use query::ask_file;
pub use reply::Reply;
pub use rewriting::{Rewriting, rewrite};
pub use rewriting_file::rewrite_file;
pub use words::{Form, judgement_line, reply_line};
