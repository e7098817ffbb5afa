//! The command line of the program fairview, and what it asks for.
#![tactic(auto)]

mod asked;
mod command;
pub mod laws;

pub use asked::{Journals, Request, What};
pub use fair_args::parse;
