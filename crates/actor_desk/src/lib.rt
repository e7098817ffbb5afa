//! One actor's view of its submissions.
//!
//! One actor's journal beside what the actor knows of its submissions, and both lent to a job as its post.
#![tactic(auto)]

pub mod desk;
pub mod entry;
pub mod lane;
pub mod post;
pub mod recorded_desk;
pub mod roll;
mod shelf;

pub use post::{LentDesk, RecordedPost};
pub use recorded_desk::RecordedDesk;
