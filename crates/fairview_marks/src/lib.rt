//! What the writers of texts and pictures share: names inside a tag of XML and inside a string of JSON, and lists one behind another.
//!
//! What the pictures of a run show: the polls of a core as bars on its clock, and the leads of its queues.
#![tactic(auto)]

pub mod escape_laws;
pub mod laws;
pub mod leads;
pub mod names;
pub mod polls;
pub mod standing;

pub use leads::{Lead, greatest_lead, leads_of};
pub use names::{JsonName, XmlName};
pub use polls::{Bar, Polls, bars_of};
