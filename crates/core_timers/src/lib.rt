//! The timers of one core: which sleeping job is due next.
//!
//! [`Timers`] keeps for each name at most one timer. A binary heap has the timer that is due first at its first place. Each timer has a
//! key, and each key has a row that tells where the heap has it. So no call walks over all timers.
//!
//! Only `open` asks for memory: all other calls move timers within the places that it took.
#![tactic(auto)]

mod heap;
pub mod laws;
mod opening;
// A crate can name the timers in a contract only if the types of their fields are exported.
#[doc(hidden)]
pub mod row;
mod timers;

pub use timers::Timers;
