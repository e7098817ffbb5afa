//! Orders and envelopes, outcomes, and why an order is refused.

ghost use Rattle.std.specs.Prelude.{◌≡◌};
ghost use Rattle.base_words.specs.Orders.{IsSpelledOrder, without_job};
ghost use Rattle.base_words.specs.Outcomes.{IsSpelledOutcome, outcome_note};

use crate::names::{ActorNo, JobId, QueueNo};
use crate::note::OutcomeNote;
use crate::shares::Shares;
use std::alloc::AllocError;

/// How a queue or a core closes.
#[derive(Clone, Copy, PartialEq, Eq, Debug)]
pub enum Mode {
    /// What is inside runs on.
    Finish,
    /// Each later pick hands a job back.
    Return,
}

/// Why a job is handed back.
#[derive(Clone, Copy, PartialEq, Eq, Debug)]
pub enum Reason {
    /// At delivery: the core has no queue of that number.
    NoQueue,
    /// At delivery: the queue is closed.
    QueueClosed,
    /// At delivery: the core is closed and hands back what it holds.
    CoreClosing,
    /// At a pick: the queue is closed and hands back what it holds.
    QueueReturned,
    /// At a pick: the core is closed and hands back what it holds.
    CoreReturned,
}

/// What a command is answered.
#[derive(Clone, Copy, PartialEq, Eq, Debug)]
pub enum Answer {
    /// The queue was created under this number.
    Created(QueueNo),
    /// The core has as many queues as it may.
    TooMany,
    /// The core found no memory for the queue, and nothing changed.
    NoMemory,
    /// The core is closed, so it creates no queue.
    CoreClosing,
    /// The queue has the shares from now on.
    SharesSet,
    /// The core has no queue of that number.
    NoQueue,
    /// The queue or the core is closed, or closed more strictly than before.
    Closed,
    /// It was closed before, and nothing changed.
    AlreadyClosed,
    /// The job is inside the core, and is woken.
    Woken,
    /// No such job is inside the core.
    NoJob,
}

/// A job for a queue, or a command.
#[derive(Copy, PartialEq, Eq, Drop)]
pub enum Order<J> {
    /// A job for a queue.
    Job(QueueNo, J),
    /// Create a queue with these shares.
    Create(Shares),
    /// Give a queue these shares.
    SetShares(QueueNo, Shares),
    /// Close a queue.
    Close(QueueNo, Mode),
    /// Close the core.
    CloseCore(Mode),
    /// Wake the job of that sender and number.
    Wake(ActorNo, u64),
}

impl<J> Order<J> {
    /// The order without its job, as a note tells it. A caller also learns that its queue and its shares are within their ranges.
    pub fn without_job(&self) -> Order<()>
        ensures same { result ≡ without_job self.now }
        ensures spelled { IsSpelledOrder result }
    {
        match self {
            Order::Job(queue, _) => {
                let _number = queue.0;
                Order::Job(*queue, ())
            }
            Order::Create(shares) => {
                let _in_range = shares.get();
                Order::Create(*shares)
            }
            Order::SetShares(queue, shares) => {
                let _number = queue.0;
                let _in_range = shares.get();
                Order::SetShares(*queue, *shares)
            }
            Order::Close(queue, mode) => {
                let _number = queue.0;
                Order::Close(*queue, *mode)
            }
            Order::CloseCore(mode) => Order::CloseCore(*mode),
            Order::Wake(actor, number) => Order::Wake(*actor, *number),
        }
    }
}

/// An accepted order on its way, under its name.
#[derive(PartialEq, Eq, Drop)]
pub struct Envelope<J> {
    pub name: JobId,
    pub order: Order<J>,
}

/// What became of a submission.
#[derive(PartialEq, Eq, Drop)]
pub enum Outcome<J, T> {
    /// The job is done, with its answer.
    Finished(T),
    /// The job is handed back, in its order.
    Returned(Reason, Order<J>),
    /// The command was carried out, or refused by the core.
    Answered(Answer),
}

impl<J, T: Copy> Outcome<J, T> {
    /// The outcome without its job, as a note tells it. A caller also learns that the queue of a creation is within its range.
    pub fn note(&self) -> OutcomeNote<T>
        ensures same { result ≡ outcome_note self.now }
        ensures spelled { IsSpelledOutcome result }
    {
        match self {
            Outcome::Finished(value) => OutcomeNote::Finished(*value),
            Outcome::Returned(reason, _) => OutcomeNote::Returned(*reason),
            Outcome::Answered(Answer::Created(queue)) => {
                let _number = queue.0;
                OutcomeNote::Answered(Answer::Created(*queue))
            }
            Outcome::Answered(answer) => OutcomeNote::Answered(*answer),
        }
    }
}

/// Why an order was not accepted. The order comes back.
///
/// A link tries the first three in this order; a desk tries the last one before them.
#[derive(PartialEq, Eq, Drop)]
pub enum SendError<J> {
    /// The gate is shut; the number is that of the last order that was accepted.
    Closed(Order<J>, u64),
    /// As many submissions are outstanding as the link may have.
    Full(Order<J>),
    /// The last number of the link was given.
    Spent(Order<J>),
    /// There is no core of that number.
    NoCore(Order<J>),
}

// By hand: a derived `clone` of a generic enum takes the check many times as long.
impl<J: Copy> Clone for Order<J> {
    ghost use Rattle.std.specs.Prelude.{◌≡◌, ⊤};

    ghost is_clone = { λ it copy. copy ≡ it };

    ghost is_infallible = { λ _. ⊤ };

    fn clone(&self) -> Result<Self, AllocError> {
        Ok(*self)
    }
}
