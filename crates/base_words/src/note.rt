//! The notes of a journal: what an actor did, each note one line of the journal's text.

use crate::names::{ActorNo, JobId, QueueNo};
use crate::order::{Answer, Mode, Order, Reason};
use crate::shares::Shares;
use std::alloc::AllocError;

/// What became of a submission, without its task.
#[derive(Copy, PartialEq, Eq)]
pub enum OutcomeNote<T> {
    Finished(T),
    Returned(Reason),
    Answered(Answer),
}

/// One note of an actor's journal. Times are nanoseconds.
#[derive(Copy, PartialEq, Eq)]
pub enum Note<T> {
    /// A send was accepted.
    Sent(JobId, Order<()>),
    /// A job was delivered and entered the queue.
    Took(JobId, QueueNo),
    /// A job was delivered and goes back.
    Back(JobId, Reason),
    /// A command was delivered. The note of its effect follows.
    Answered(JobId, Answer),
    /// A queue was created, at the opening or by command.
    Created(QueueNo, Shares),
    /// A queue got shares by command.
    SharesSet(QueueNo, Shares),
    /// A queue was closed by command.
    QueueClosed(QueueNo, Mode),
    /// The core was closed, by command or by itself.
    CoreClosed(Mode),
    /// A job was woken by command: it is parked no longer, or the wake is kept.
    Woken(JobId),
    /// The queue was picked, at its virtual runtime before the poll.
    Pick(QueueNo, u128),
    /// The job is polled for the first time.
    Start(JobId),
    /// The job is polled again.
    Resume(JobId),
    /// The poll took that time, and the job wants another one.
    Yield(JobId, u64),
    /// The poll took that time, and the job waits outside its line until it is woken.
    Park(JobId, u64),
    /// The poll took that time and asked for a park, and the job stays in its line: a wake was kept, or what is inside is handed back.
    Stayed(JobId, u64),
    /// The poll took that time, and the job is done with the answer.
    Done(JobId, u64, T),
    /// A pick hands the job back.
    Returned(JobId, Reason),
    /// The turn of the queue has ended, and took that time.
    Turned(QueueNo, u64),
    /// The gate of that sender was shut, with its final count.
    Shut(ActorNo, u64),
    /// An outcome was collected.
    Collected(JobId, OutcomeNote<T>),
    /// An outcome was redeemed.
    Redeemed(JobId, OutcomeNote<T>),
    /// A submission was detached.
    Detached(JobId),
}

/// Fills the unused places of an array of notes, and says nothing.
impl<T> Default for Note<T> {
    fn default() -> Self {
        Note::CoreClosed(Mode::Finish)
    }
}

impl<T: Copy> Clone for OutcomeNote<T> {
    ghost use Rattle.std.specs.Prelude.{◌≡◌, ⊤};

    ghost is_clone = { λ it copy. copy ≡ it };

    ghost is_infallible = { λ _. ⊤ };

    fn clone(&self) -> Result<Self, AllocError> {
        Ok(*self)
    }
}

impl<T: Copy> Clone for Note<T> {
    ghost use Rattle.std.specs.Prelude.{◌≡◌, ⊤};

    ghost is_clone = { λ it copy. copy ≡ it };

    ghost is_infallible = { λ _. ⊤ };

    fn clone(&self) -> Result<Self, AllocError> {
        Ok(*self)
    }
}
