//! What the calls on a house come to for a host in another language: numbers in, codes and structs of C out.
#![tactic(auto)]

pub mod code;
pub mod figures;
pub mod house;
mod keeping;
pub mod links;
pub mod member;
pub mod names;
pub mod notes;
pub mod orders;
pub mod outcomes;
pub mod passing;
pub mod sleepers;
pub mod stats;
pub mod stays;
pub mod submissions;
pub mod turns;
pub mod verdicts;

pub use code::{Code, number};
pub use member::Member;
pub use sleepers::Sleepers;
