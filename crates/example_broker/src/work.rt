//! The jobs of a broker, as one type. A job that publishes is parked until another core has indexed its message and wakes it.
//!
//! A job that has to try again sleeps before, each time twice as long. One that waits for its wake sleeps too, in case the wake is lost.

ghost use Rattle.std.specs.Prelude.{◌≡◌, false, true};
ghost use Rattle.duthlwyran.specs.Jobs.{Done, is_done_step};
ghost use Rattle.example_broker.specs.Over.{is_over};

use duthlwyran::{
    ActorNo, Asks, CoreNo, Job, Order, Outcome, Post, QueueNo, Redeemed, Reply, SendError, Step,
    Task, Ticket, poll_asking, redeem_if_there, submit_and_detach, submit_and_keep,
};
use std::mem;
use std::snapshot::Snapshot;

pub const CORES: u8 = 3;

/// The caller, who publishes the messages.
const CALLER: ActorNo = ActorNo(CORES);

/// Each core has these three queues beside queue 0.
pub const PUBLISH: QueueNo = QueueNo(1);

pub const INDEX: QueueNo = QueueNo(2);

pub const FETCH: QueueNo = QueueNo(3);

/// So many places are fetched.
const COUNT: u64 = 100;

/// How many nanoseconds a job sleeps before it tries again, its `wait`: a microsecond the first time, and a tenth of a second at most.
const FIRST_WAIT: u64 = 1_000;

const LONGEST_WAIT: u64 = 100_000_000;

/// What is submitted to a core.
#[derive(Drop)]
pub enum BrokerJob {
    /// Publishes a message on this core: the next core indexes it, and the answer is its place, or 0 if no index came back. Message n is
    /// submission n of the caller to the core, which is the name by which the job is woken.
    Publish {
        message: u32,
        on: CoreNo,
        kept: Option<Ticket>,
        wait: Option<u64>,
    },
    /// Indexes a message of this core, and wakes the job that waits there. The answer is its place.
    Index {
        message: u32,
        on: CoreNo,
        wait: Option<u64>,
    },
    /// Fetches the places of the first messages, one in each poll, and then gives them to whoever asked.
    Fetch {
        places: Vec<u64>,
        reply: Reply<Vec<u64>>,
    },
    /// Fetches places and holds them. It is parked until its queue closes in mode `Return`, and comes back with them.
    Hold {
        places: Vec<u64>,
    },
    /// It has answered.
    Ended,
}

impl BrokerJob {
    /// The end of a job.
    fn end(&mut self, answer: u64) -> Step<u64>
        ensures answer { result ≡ Done answer }
        ensures over { is_over self.new ≡ true }
    {
        *self = BrokerJob::Ended;
        Step::Done(answer)
    }

    /// The end of a fetch.
    fn fill(&mut self) -> Step<u64>
        ensures done { is_over self.new ≡ is_done_step result }
    {
        match mem::replace(self, BrokerJob::Ended) {
            BrokerJob::Fetch { places, reply } => Step::Done(reply.fill(places)),
            // No other job fetches.
            _ => Step::Done(0),
        }
    }
}

/// The job sleeps, and then tries again: each time it sleeps twice as long as before.
fn try_later(wait: &mut Option<u64>) -> Step<u64>
    ensures { is_done_step result ≡ false }
{
    *wait = Some(match *wait {
        Some(last) => last.saturating_mul(2).min(LONGEST_WAIT),
        None => FIRST_WAIT,
    });
    Step::Park
}

/// Adds the place of the next message, unless all are there. Whether it did.
fn add_next(places: &mut Vec<u64>) -> bool {
    let before = places.len() as u64;
    before < COUNT && places.push(before * 2 + 2).is_ok()
}

impl Task for BrokerJob {
    ghost use Rattle.duthlwyran.specs.Jobs.{plain_meaning, plain_laws};
    ghost use Rattle.example_broker.specs.Over.{is_over, sleep_of};

    type Out = u64;

    type Local = ();

    ghost meaning = { plain_meaning is_over };

    ghost laws = { plain_laws is_over };

    fn is_done(&self) -> bool {
        matches!(self, BrokerJob::Ended)
    }

    fn told(&self) -> Option<u64> {
        None
    }

    ghost sleeps = { sleep_of };

    fn sleeps(&self) -> Option<u64> {
        match self {
            // A safety net: another core wakes it, and if that wake is lost, it wakes by itself.
            BrokerJob::Publish { wait, .. } => Some(wait.unwrap_or(LONGEST_WAIT)),
            BrokerJob::Index { wait, .. } => *wait,
            _ => None,
        }
    }
}

impl Job for BrokerJob {
    fn poll<P: Post<Self, u64>>(&mut self, post: &mut P) -> Step<u64> {
        poll_asking(self, post)
    }
}

impl Asks for BrokerJob {
    fn ask<P: Post<Self, u64>>(&mut self, begun: &Snapshot<P>, post: &mut P) -> Step<u64> {
        match self {
            BrokerJob::Publish {
                message,
                on,
                kept,
                wait,
            } => {
                let Some(ticket) = *kept else {
                    let (message, on) = (*message, *on);
                    let next = CoreNo((on.0 % CORES + 1) % CORES);
                    let order = Order::Job(
                        INDEX,
                        BrokerJob::Index {
                            message,
                            on,
                            wait: None,
                        },
                    );
                    *kept = submit_and_keep(begun, post, next, order).ok();
                    if kept.is_none() {
                        return try_later(wait);
                    }
                    *wait = None;
                    return Step::Park;
                };
                // The wake may come before the outcome is collected, and no second one comes. Or its time came before the wake.
                match redeem_if_there(begun, post, ticket) {
                    Redeemed::NotYet => try_later(wait),
                    Redeemed::There(Outcome::Finished(place)) => self.end(place),
                    _ => self.end(0),
                }
            }
            BrokerJob::Index { message, on, wait } => {
                let message = *message as u64;
                match submit_and_detach(begun, post, *on, Order::Wake(CALLER, message)) {
                    Err(SendError::Full(_)) => try_later(wait),
                    _ => self.end(message * 2),
                }
            }
            BrokerJob::Fetch { places, .. } => {
                if add_next(places) {
                    return Step::Yield;
                }
                self.fill()
            }
            BrokerJob::Hold { places } => {
                if add_next(places) {
                    return Step::Yield;
                }
                Step::Park
            }
            BrokerJob::Ended => Step::Yield,
        }
    }
}
