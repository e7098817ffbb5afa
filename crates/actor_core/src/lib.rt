//! A core beside its journal, which tells each of its steps, over any ends of links.
//!
//! A turn of a recorded core, over any ends of links that it is lent.
#![tactic(auto)]

mod back;
mod carried;
mod handed;
pub mod laws;
mod leave;
mod polls;
pub mod recorded;
pub mod stats;
mod through;
pub mod whole;

pub use actor_desk::{RecordedDesk, RecordedPost, post, recorded_desk};
pub use note_journal::{Assembly, Journal, Refused, RunningJournal, Sink};
pub use recorded::Recorded;
pub use stats::{are_exact, told_stats, told_stats_within};
pub use whole::{Turned, turn};
