//! One core: its task queues, which of them runs next, and what each poll costs.
#![tactic(auto)]

#[doc(hidden)]
pub mod bursts;
pub mod delivery;
pub mod notes;
pub mod one_core;
// A crate can name a core in a contract only if the types of its fields are exported.
#[doc(hidden)]
pub mod out;
mod ready;
#[doc(hidden)]
pub mod senders;
#[doc(hidden)]
pub mod tally;
pub mod turn;

pub use delivery::Delivered;
pub use notes::Notes;
pub use one_core::Core;
pub use turn::{Ahead, Next, PickError, Settled, Turn};
