//! The caller of a house: it submits, collects, redeems and waits, and watches the cores.
//!
//! # What is shared
//!
//! A caller is one thread's, or stands behind a lock whose handles make its calls (shared.rt). Its journal, its sink and what it knows of
//! closings are seen by nobody else. Others see of it its ends of the links, and the bells that it rings; it sees of the cores what they
//! publish on their boards (run_watch).
//!
//! # In which order
//!
//! 1. A submission: room is made in the journal, the order is accepted and noted, and then the bell of its core is rung.
//! 2. A wait: the caller looks at all links 1024 times, lies down on its own bell, looks once more, and parks only if there was no outcome.
//! 3. A handle's wait: one handle does the same for all, and has the lock for each look alone. The others sleep until it wakes them.
#![tactic(auto)]

pub mod caller;
pub mod callers;
mod calls;
pub mod error;
mod follower;
mod hall;
pub mod handle;
mod handle_waits;
pub mod laws;
mod looker;
mod moved;
mod passing;
mod rings;
mod shared;
mod tickets;
mod waiting;
mod watching;

pub use caller::{Beside, Caller};
pub use callers::{Callers, HandleOut};
pub use error::SubmitError;
pub use handle::{CallerTicket, Handle};
