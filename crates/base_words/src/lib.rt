//! The plain words of the executor: numbers and names, orders, outcomes, tickets and the notes of a journal.
//!
//! Shares of the processor, and what a poll costs under them.
#![tactic(auto)]

pub mod laws;
pub mod limits;
pub mod names;
pub mod note;
pub mod order;
pub mod refused;
mod shares;
pub mod stats;

pub use limits::{LAST_NUMBER, MOST_BURST, MOST_CAPACITY, MOST_CORES, MOST_NOTES, MOST_QUEUES};
pub use names::{ActorNo, CoreNo, JobId, Key, QueueNo, Ticket, TicketError};
pub use note::{Note, OutcomeNote};
pub use order::{Answer, Envelope, Mode, Order, Outcome, Reason, SendError};
pub use shares::{BadShares, Shares, charge, clamped, placed};
pub use stats::{CoreStats, QueueStats};
