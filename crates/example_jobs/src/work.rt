//! Three kinds of job that ask their post. No contract knows their answers, and so they take no proof file.

ghost use Rattle.std.specs.Prelude.{◌≡◌, true};
ghost use Rattle.example_jobs.specs.Over.{is_over};
ghost use Rattle.base_jobs.specs.declared.job.Step.TheVariants.{Done};

use base_jobs::{
    Asks, Job, Post, Redeemed, Step, Task, poll_asking, redeem_if_there, submit_and_detach,
    submit_and_keep,
};
use base_words::{CoreNo, Order, Outcome, QueueNo, Ticket};
use std::snapshot::Snapshot;

/// The queue of each core to which these jobs submit.
const QUEUE: QueueNo = QueueNo(0);

/// The answer of a message for which no index came back.
pub const NOT_INDEXED: u64 = u64::MAX;

/// The jobs of a broker.
#[derive(Drop)]
pub enum MessageJob {
    /// Publishes a message: a core indexes it, and the answer is what that core answered. While the link is full it tries again.
    Publish {
        message: u32,
        index: CoreNo,
        kept: Option<Ticket>,
    },
    /// Indexes a message, in one poll. The answer is its place.
    Index {
        message: u32,
    },
    /// Merges so many blocks, one in each poll, and then has the result indexed by a core. The answer is 1 if that was accepted.
    Compact {
        blocks: u32,
        index: CoreNo,
    },
    /// It has answered.
    Ended,
}

impl MessageJob {
    /// The end of a job.
    fn end(&mut self, answer: u64) -> Step<u64>
        ensures answer { result ≡ Done answer }
        ensures over { is_over self.new ≡ true }
    {
        *self = MessageJob::Ended;
        Step::Done(answer)
    }
}

impl Task for MessageJob {
    ghost use Rattle.example_jobs.specs.Over.{is_over};
    ghost use Rattle.base_jobs.specs.Plain.{plain_meaning, plain_laws};

    type Out = u64;

    type Local = ();

    ghost meaning = { plain_meaning is_over };

    ghost laws = { plain_laws is_over };

    fn is_done(&self) -> bool {
        matches!(self, MessageJob::Ended)
    }

    fn told(&self) -> Option<u64> {
        None
    }
}

impl Job for MessageJob {
    fn poll<P: Post<Self, u64>>(&mut self, post: &mut P) -> Step<u64> {
        poll_asking(self, post)
    }
}

impl Asks for MessageJob {
    fn ask<P: Post<Self, u64>>(&mut self, begun: &Snapshot<P>, post: &mut P) -> Step<u64> {
        match self {
            MessageJob::Publish {
                message,
                index,
                kept,
            } => {
                let Some(ticket) = *kept else {
                    let order = Order::Job(QUEUE, MessageJob::Index { message: *message });
                    *kept = submit_and_keep(begun, post, *index, order).ok();
                    return Step::Yield;
                };
                match redeem_if_there(begun, post, ticket) {
                    Redeemed::NotYet => Step::Yield,
                    Redeemed::There(Outcome::Finished(place)) => self.end(place),
                    _ => self.end(NOT_INDEXED),
                }
            }
            MessageJob::Index { message } => {
                let place = *message as u64 * 2;
                self.end(place)
            }
            MessageJob::Compact { blocks, index } => {
                if *blocks > 0 {
                    *blocks -= 1;
                    return Step::Yield;
                }
                let order = Order::Job(QUEUE, MessageJob::Index { message: 0 });
                let accepted = submit_and_detach(begun, post, *index, order).is_ok();
                self.end(accepted as u64)
            }
            MessageJob::Ended => Step::Yield,
        }
    }
}
