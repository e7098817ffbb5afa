//! The numbers that pictures of a run show, each by a definition over its journals.
#![tactic(auto)]

pub mod clocks;
pub mod ends;
pub mod laws;
pub mod percentiles;
pub mod polls;
pub mod shares;
pub mod spans;
pub mod stories;
pub mod summaries;
pub mod waits;
pub mod watches;

pub use clocks::{CoreTime, clock_of};
pub use ends::{End, end_of};
pub use percentiles::Percentiles;
pub use polls::{Picked, Poll, PollWalk, settled_polls};
pub use shares::{CoreShares, QueueShare};
pub use spans::Span;
pub use stories::{Chapter, Part, StoryWalk};
pub use summaries::{Measure, Summary, count_within, summarize};
pub use waits::{JobSpans, JobWalk, job_spans};
