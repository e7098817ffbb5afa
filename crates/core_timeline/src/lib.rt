//! The timeline of a core: the keys of its active queues in rising order, in an AVL tree whose nodes are slips.
//!
//! A [`Slip`] is the one node that a queue has for its whole life. It is in the tree while the queue is active. Only making it
//! asks for memory; no clause says so.
#![tactic(auto)]

mod front;
mod slip;
mod slips;
mod timeline;
mod tree;

pub use slip::Slip;
pub use slips::Slips;
pub use timeline::Timeline;
