//! The notes of one actor's journal, read from the bytes of its parts, in the memory of one part.
#![tactic(auto)]

pub mod fault;
pub mod feed;
mod front;
mod intake;
mod turn;

pub use fault::{FeedCause, FeedError};
pub use feed::Feed;
