//! The top call of the program: reads the words, and the files that they name, decides or checks them, and writes the answer. The
//! engine runs on a problem with clause learning and discrimination trees, and the checker judges what the engine answers before
//! anyone sees it: it finds nothing, and that it does not is proved here. What is proved of the top call is proved over any library
//! and sink that keep the laws of their traits.
#![tactic(auto)]

mod answer;
mod application;
mod certificates;
pub mod chain_examples;
pub mod chain_laws;
pub mod chain_problem;
mod citations;
mod command;
mod core_certificates;
mod core_text;
mod cores;
pub mod deciding;
pub mod decision;
pub mod decision_laws;
mod exit;
mod formula;
mod marking;
mod model;
mod prove;
mod refusal;
mod saturation_test;
pub mod sizes;
mod sub_lists;
mod sub_problem;
mod table_texts;
mod verdict_texts;

pub use command::run;
pub use core_certificates::{CheckedCoveredList, CoreAnswer, core_of};
pub use exit::Exit;
pub use saturation_test::tables_of;
