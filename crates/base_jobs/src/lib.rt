//! Tasks, jobs, one poll of a job, and what a job may ask for while it is polled.
//!
//! Answers of any type, beside the numbers that notes tell.
//!
//! A job answers a `u64`, which its note tells. Here it leaves the answer itself: [`open`] makes a place for one answer. The job has the one
//! end, a [`Reply`]; it fills the place and answers the number of what it put there. Whoever asked has the other, an [`Asked`]; it shows the
//! answer, once its number was redeemed.
#![tactic(auto)]

mod answer;
pub mod any;
pub mod asking;
pub mod boxed;
pub mod called;
mod ends;
pub mod example;
pub mod job;
pub mod once;
pub mod poll;
pub mod post;
pub mod script;
pub mod state;

pub use answer::Noted;
pub use any::{AnyJob, OnceBox, Polled, Range, Within, once_job, polled_job};
pub use asking::{
    Asks, Redeemed, poll_asking, redeem_if_there, submit_and_detach, submit_and_keep,
};
pub use boxed::{BoxedJob, CalledAs, KeyAnswers, PolledAs};
pub use called::{Called, OnceOf};
pub use ends::{Asked, Reply, open};
pub use job::{Job, Ran, Step, Task};
pub use once::Once;
pub use poll::Poll;
pub use post::{NoPost, Post};
pub use script::{MOST_POLLS, ScriptJob};
pub use state::CoreState;
