//! The board that the two ends of a ring share, and each step on it: a cell for each order that may be outstanding, with a word of its own.
#![tactic(auto)]

pub mod board;
pub mod held;
pub mod opening;
mod plays;
mod receiver;
mod sender;
mod spacing;

pub use board::{Board, Known, Place, Ring, Terms};
pub use held::{Cell, Held};
pub use opening::{compare, lay};
pub use receiver::{close, give, next_order, shows_order};
pub use sender::{is_open, next_outcome, offer, see_none, shows_outcome};
pub use spacing::{Spacing, next_place};
