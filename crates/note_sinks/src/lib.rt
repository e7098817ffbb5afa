//! A sink that writes the line of each note that it takes, in the form of the journal text.
//!
//! A sink that keeps the statistics of the notes that it takes, and no notes.
#![tactic(auto)]

pub mod laws;
mod ledger;
pub mod lines;
mod naps;
mod outlet;
mod places;
pub mod sums;
mod writes;

pub use lines::Lines;
pub use sums::Sums;
