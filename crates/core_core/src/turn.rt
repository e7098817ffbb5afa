//! What a pick and a settled poll came to.

use base_words::{JobId, Order, QueueNo, Reason};

/// What a pick came to.
#[derive(Drop)]
pub enum Turn<J> {
    /// The job is out for its first poll.
    Start(JobId, QueueNo, J),
    /// The job is out for a further poll.
    Resume(JobId, QueueNo, J),
    /// The job is handed back, in its order, for this reason. So the job lies where one that goes out does, and is moved as a whole.
    Back(JobId, Order<J>, Reason),
    /// No queue has work.
    Idle,
}

/// Why nothing was picked.
#[derive(Clone, Copy, PartialEq, Eq, Debug, thiserror::Error)]
pub enum PickError {
    /// A job is out.
    #[error("a job is out")]
    Busy,
    /// All turns are used, and a queue has work.
    #[error("all turns are used")]
    Spent,
}

/// What became of a job that was out.
#[derive(Drop)]
pub enum Settled<T> {
    /// It waits at the tail of its queue.
    Yielded,
    /// It waits outside the line of its queue until it is woken.
    Parked,
    /// It asked to be parked and waits at the tail of its queue: a wake was kept, or what is inside is handed back.
    Stayed,
    /// It is done, with the answer.
    Finished(T),
}

/// The job that the next pick takes out.
#[derive(Clone, Copy)]
pub struct Next {
    pub queue: QueueNo,
    /// The virtual runtime of its queue.
    pub vr: u128,
    pub name: JobId,
    /// Whether it was polled before.
    pub started: bool,
    /// Whether a wake of it is kept: if it asks to be parked, it stays.
    pub woken: bool,
}

/// What the next pick would come to.
#[derive(Clone, Copy)]
pub enum Ahead {
    /// This job goes out.
    Job(Next),
    /// A job is handed back. A pick does that.
    Back,
    /// No queue has work.
    Idle,
}
