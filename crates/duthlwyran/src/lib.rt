//! Thread-per-core execution with fair task queues: all that a program names.
//!
//! A `House` plans cores, and their queues by name and shares. Its `start` gives a `Node`, to whose queues jobs are submitted. `finish` puts
//! the journals together, which `audit` judges.
#![tactic(auto)]

pub mod callers;
pub mod error;
pub mod house;
pub mod names;
pub mod node;
pub mod parts;
pub mod work;

pub use actor_core::{Assembly, Journal};
pub use anyhow::Result;
pub use base_jobs::{
    AnyJob, Asked, Asks, CoreState, Job, Post, Redeemed, Reply, Step, Task, once_job, open,
    poll_asking, polled_job, redeem_if_there, submit_and_detach, submit_and_keep,
};
pub use base_words::{
    ActorNo, Answer, CoreNo, JobId, Mode, Note, Order, Outcome, QueueNo, Reason, SendError, Shares,
    Ticket, TicketError,
};
pub use callers::{NodeCallers, NodeHandle};
pub use error::{NotFinished, NotSubmitted, WaitError};
pub use fairexec_report::{put_all_stats, put_stats};
pub use house::{House, PlanError};
pub use judge_audit::{AuditError, Verdict, audit};
pub use names::{Queue, QueueNames};
pub use node::Node;
pub use note_journal::{Discard, Keep};
pub use parts::Parts;
pub use run_runtime::{
    ActorNotes, CallerTicket, Clock, FinishError, Gate, HandleOut, NoGate, Passed, Refused,
    Runtime, RuntimeCallers, RuntimeHandle, Sink, StartError, SubmitError, SystemClock, Watcher,
    Whole,
};
pub use work::{Plain, Work};
