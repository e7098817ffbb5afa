//! The notes of one actor as a journal, and the journals of all actors together.
//!
//! Sinks for the notes that a journal passes on: one that keeps them all, and one that keeps none.
#![tactic(auto)]

pub mod assembly;
pub mod discard;
pub mod journal;
pub mod keep;
pub mod names;
mod outcomes;
pub mod running;
pub mod sink;
pub mod spelled;

pub use assembly::Assembly;
pub use base_words::{Note, OutcomeNote};
pub use discard::Discard;
pub use journal::Journal;
pub use keep::Keep;
pub use names::same_name;
pub use running::RunningJournal;
pub use sink::{Refused, Sink, Whole};
