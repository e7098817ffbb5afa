//! The audit: whether the journals of all actors are sound, and which rule they break first.
//!
//! The first four rules of an audit, note by note: a walk for each, by tables of the notes of all journals, and the prefixes of the links both ways.
//!
//! The fifth rule: each pick takes the least pair of virtual runtime and number among the queues that have work. A change takes eight steps.
#![tactic(auto)]

pub mod closes;
mod histories;
mod judge;
pub mod laws;
mod least;
pub mod links;
mod lost;
pub mod order;
pub mod outcomes;
mod picks;
mod places;
mod placing;
mod prefixes;
mod sides;
pub mod starts;
mod turns;

pub use judge::{AuditError, Verdict, audit};
pub use prefixes::{collections_fault, deliveries_fault};
