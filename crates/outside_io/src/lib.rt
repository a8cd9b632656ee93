//! Where files are read from, and where answers are written to: two traits, the real devices, devices in memory, and what stands
//! between a device and a whole text: a file that is read whole, up to a limit, and a text that is written piece by piece. What is
//! said of contents is said where a device tells them. The real ones tell none, since no contract can say what a file or a terminal
//! gives: they are a few lines each, and trusted.
#![tactic(auto)]

mod failing_calls;
mod file_reader;
mod folder;
mod library;
mod memory_library;
mod memory_sink;
mod notices;
mod pieces;
mod sink;
mod stdout;
mod sure;
mod whole;

pub use failing_calls::CallList;
pub use folder::FolderLibrary;
pub use library::{Failed, FileList, Library, NamedFile, Trouble};
pub use memory_library::MemLibrary;
pub use memory_sink::MemSink;
pub use notices::{Line, Pieces, Status, notice, one_line, text_line, whole_text};
pub use pieces::{Piece, write_pieces};
pub use sink::{Sink, write_all};
pub use stdout::OutSink;
pub use sure::{SureLibrary, SureSink};
pub use whole::{FileError, read_whole};
