//! What is written: notes, replies and faults as text, pages of text, and exit statuses.
//!
//! The words of a line, and what a word says: a number within its range, a core, an actor, a queue, shares.
#![tactic(auto)]

pub mod fault;
pub mod field;
pub mod name;
pub mod note;
pub mod number;
pub mod page;
mod parts;
pub mod reply;
pub mod status;
pub mod steady;
pub mod word;
pub mod words;

pub use fault::{Cause, CauseWords, Fault};
pub use note::NoteLine;
pub use reply::{EventEnds, Quiet, ReplyLine};
pub use status::Status;
pub use words::Words;
