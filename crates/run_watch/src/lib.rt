//! The numbers of one core, published by the core's thread and looked at by another, without a lock.
#![tactic(auto)]

pub mod board;
pub mod comparing;
pub mod laws;
mod plays;
pub mod publisher;
mod reading;
pub mod start;
pub mod watcher;
mod words;
mod writing;

pub use board::Terms;
pub use comparing::compare;
pub use publisher::{Publisher, Publishing};
pub use start::open;
pub use watcher::{Watcher, Watching};
