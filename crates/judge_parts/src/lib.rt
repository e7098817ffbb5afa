//! Judges the journals of a house whose parts come from a source for each actor.
#![tactic(auto)]

mod feeds;
mod followed;
mod front;
pub mod laws;
mod pace;
mod sound;

pub use feeds::{Feeds, Unread};
pub use front::front_of_parts;
pub use pace::Pace;
pub use sound::{followed_parts, judged_parts};
