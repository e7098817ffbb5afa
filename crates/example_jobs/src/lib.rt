//! The jobs of a small broker, as one type. They submit jobs to other cores, keep a ticket, and redeem it from a later poll.
#![tactic(auto)]

mod work;

pub use work::{MessageJob, NOT_INDEXED};
