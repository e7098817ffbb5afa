//! Judges journals by doing again, on a house of cores, what they tell.
#![tactic(auto)]

mod acts;
mod ahead;
mod cores;
mod house;
pub mod laws;
mod outside;
mod reading;
mod same;
mod teller;

pub use ahead::Replayed;
pub use cores::CoreReplay;
pub use house::Replay;
pub use reading::{Found, ReplayError, replays};
pub use teller::{Teller, Untold};
