//! Facts about the notes of a journal, kept as tables: what is known under each name, what a note tells, and what the notes say of each queue.
#![tactic(auto)]

pub mod accounts;
pub mod endings;
pub mod histories;
mod jobs;
pub mod names;
pub mod parks;
mod past;
pub mod places;
pub mod recent;
pub mod same;
mod sets;
pub mod spots;
mod stays;
pub mod told;

pub use accounts::{Account, Accounts, has_bursts};
pub use endings::core_ended;
pub use histories::{Fact, History};
pub use names::NameTable;
pub use parks::Parks;
pub use places::note_at;
pub use recent::Recent;
pub use spots::Spot;
