//! Runs scripts on the model, and prints what happens.
#![tactic(auto)]

mod boxed_script;
pub mod engine;
mod journal;
pub mod laws;
mod print;
mod reply;

pub use engine::run_script;
