//! A sink that judges the journal of its own core as it passes it on.
#![tactic(auto)]

mod actors;
mod house;
mod judge;
mod judging;
pub mod laws;
mod links;
mod orders;
mod senders;
mod table;
mod twin;

pub use actors::ActorSink;
pub use judging::{Judging, JudgingError};
