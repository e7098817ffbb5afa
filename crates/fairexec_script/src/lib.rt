//! Scripts: their lines, what can be wrong with them, and the events that they tell.
//!
//! Scripts for running threads: which lines they have, what can be wrong with them, and what the runtime is told.
#![tactic(auto)]

pub mod counts;
mod draft;
pub mod event;
mod event_line;
pub mod fault;
pub mod keyword;
pub mod kind;
pub mod limits;
pub mod line;
pub mod polls;
pub mod refused;
pub mod script;
pub mod source;
mod threads_draft;
mod threads_line;
pub mod threads_script;
pub mod threads_source;

pub use event::ScriptEvent;
pub use fault::{ThreadsCause, ThreadsFault, status_of};
pub use kind::ScriptDraft;
pub use script::Script;
pub use source::read_script;
pub use threads_script::ThreadsScript;
pub use threads_source::read_threads_script;
