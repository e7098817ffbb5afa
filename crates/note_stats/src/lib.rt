//! The statistics of a journal: sums over its notes, each made in one pass.
#![tactic(auto)]

pub mod figures;
pub mod gates;
pub mod laws;
pub mod stats;
pub mod sums;
pub mod tally;

pub use base_words::{CoreStats, QueueStats};
pub use figures::Figures;
pub use stats::{core_stats, gained, greatest_turn, queue_stats};
pub use sums::Sums;
