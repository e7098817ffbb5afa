//! A link from an actor to a core: orders one way, outcomes back.
//!
//! The ends of links that a core is lent for a turn.
#![tactic(auto)]

pub mod around;
pub mod ends;
pub mod plain;

pub use around::Around;
pub use base_words::LAST_NUMBER;
pub use ends::{InEnd, Inward, OutEnd, Outward};
pub use plain::{PlainLink, Whole};
