//! What the words of a note's line say.
//!
//! Writes the text of the journals of all actors.
//!
//! Reads the text of journals, and judges it line by line.
#![tactic(auto)]

pub mod draft;
pub mod fault;
pub mod field;
pub mod keeper;
pub mod kind;
pub mod laws;
pub mod note;
pub mod phrase;
pub mod read_laws;
mod reader;
pub mod source;
pub mod taker;
pub mod write;

pub use fault::JournalCause;
pub use note::note_of;
pub use source::{pass_journal, read_journal};
pub use taker::NoteTaker;
pub use write::write_journal;
