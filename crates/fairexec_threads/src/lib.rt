//! Scripts on running threads.
#![tactic(auto)]

pub mod calls;
mod clock;
pub mod house;
pub mod laws;
pub mod run;

pub use run::threads_script;
