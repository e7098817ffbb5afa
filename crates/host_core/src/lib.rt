//! Cores of a house whose jobs the host runs: each beside its journal, over its actor's ends of the links.
#![tactic(auto)]

pub mod answers;
pub mod flag;
pub mod hosted;
pub mod job;
mod passing;
pub mod told;
mod turns;
pub mod word;

pub use answers::{Picked, Refusal};
pub use hosted::Hosted;
pub use job::HostJob;
pub use turns::Run;
