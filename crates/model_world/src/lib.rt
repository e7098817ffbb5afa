//! What the model of an executor is made of: events and replies, a journal for each actor, a link between any two.
//!
//! What the cores of a world are made of, as they open: recorded cores, and the plain links between all actors, as one core is lent them
//! for a turn.
#![tactic(auto)]

pub mod around;
mod closed;
pub mod cores;
pub mod event;
mod known;
pub mod links;
pub mod model;

pub use cores::open_cores;
pub use event::{Event, Reply};
pub use links::Links;
pub use model::{World, WorldError};
pub use note_journal::{Assembly, Journal};
