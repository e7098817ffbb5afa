//! How the threads of workers begin and end. What a worker does stands above.
#![tactic(auto)]

mod seat;
pub mod team;
pub mod work;

pub use team::{NotStarted, Team};
pub use work::{AsGiven, Left, Promised, Work};
