//! What the program tells of journals beside their notes: their statistics, what an audit finds, and what became of the outside actor's submissions.
#![tactic(auto)]

pub mod audit;
pub mod laws;
pub mod line;
pub mod outcome_line;
pub mod outcome_text;
pub mod report;
pub mod stats;
pub mod verdict;

pub use audit::audit_text;
pub use outcome_line::OutcomeLine;
pub use outcome_text::put_outcomes;
pub use report::write_report;
pub use stats::{put_all_stats, put_stats};
