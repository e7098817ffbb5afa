//! Which order a note tells of that it delivers.
//!
//! A note of a delivery says what became of the order, and not always which order it was. So an order is told that comes to the same.

use base_words::{ActorNo, Answer, Envelope, JobId, Note, Order, QueueNo, Reason, Shares};

/// The last queue that there may be. If it is there, no order is answered that its queue isn't.
const LAST_QUEUE: QueueNo = QueueNo(255);

/// What the notes told of closings.
#[derive(Drop)]
pub(crate) struct Closings {
    /// The queues that are closed, by number.
    queues: [bool; 256],
    /// The last closing that changed anything.
    last: Option<Order<u64>>,
}

/// The command whose effect this note tells.
fn command_of(effect: &Note<u64>) -> Option<Order<u64>> {
    match effect {
        Note::Created(_, shares) => Some(Order::Create(*shares)),
        Note::SharesSet(queue, shares) => Some(Order::SetShares(*queue, *shares)),
        Note::QueueClosed(queue, mode) => Some(Order::Close(*queue, *mode)),
        Note::CoreClosed(mode) => Some(Order::CloseCore(*mode)),
        Note::Woken(name) => Some(Order::Wake(name.from, name.number)),
        _ => None,
    }
}

/// This order under this name, if there is one.
fn under(name: JobId, order: Option<Order<u64>>) -> Option<Envelope<u64>> {
    match order {
        Some(order) => Some(Envelope { name, order }),
        None => None,
    }
}

impl Closings {
    /// Nothing was closed.
    pub(crate) fn new() -> Self {
        Closings {
            queues: [false; 256],
            last: None,
        }
    }

    /// The first queue that is closed, or that isn't.
    fn first_queue(&self, closed: bool) -> Option<QueueNo> {
        for queue in 0..256 {
            if self.queues[queue] == closed {
                return Some(QueueNo(queue as u8));
            }
        }
        None
    }

    /// A job that goes back at its delivery for this reason.
    fn job_back(&self, reason: Reason) -> Option<Order<u64>> {
        let queue = match reason {
            Reason::NoQueue => Some(LAST_QUEUE),
            Reason::QueueClosed => self.first_queue(true),
            Reason::CoreClosing => self.first_queue(false),
            Reason::QueueReturned | Reason::CoreReturned => None,
        };
        match queue {
            Some(queue) => Some(Order::Job(queue, 0)),
            None => None,
        }
    }

    /// The command that was answered so, and whose effect is this note, if it has one. A queue for which there was no memory can't be wanted again.
    fn command(&self, answer: Answer, effect: &Note<u64>) -> Option<Order<u64>> {
        match answer {
            Answer::Created(_) | Answer::SharesSet | Answer::Closed | Answer::Woken => command_of(
                effect,
            ),
            Answer::TooMany | Answer::CoreClosing => Some(Order::Create(Shares::default())),
            Answer::NoQueue => Some(Order::SetShares(LAST_QUEUE, Shares::default())),
            Answer::AlreadyClosed => self.last,
            // No job has this number.
            Answer::NoJob => Some(Order::Wake(ActorNo(0), 0)),
            Answer::NoMemory => None,
        }
    }

    /// An order that comes to what this note tells, if it tells of a delivery. `effect` is the note behind it, where it has an effect.
    pub(crate) fn order(&self, note: &Note<u64>, effect: &Note<u64>) -> Option<Envelope<u64>> {
        match note {
            Note::Took(name, queue) => under(*name, Some(Order::Job(*queue, 0))),
            Note::Back(name, reason) => under(*name, self.job_back(*reason)),
            Note::Answered(name, answer) => under(*name, self.command(*answer, effect)),
            _ => None,
        }
    }

    /// Keeps what a note tells of a closing.
    pub(crate) fn add(&mut self, note: &Note<u64>) {
        match note {
            Note::QueueClosed(queue, mode) => {
                self.queues[queue.0 as usize] = true;
                self.last = Some(Order::Close(*queue, *mode));
            }
            Note::CoreClosed(mode) => self.last = Some(Order::CloseCore(*mode)),
            _ => {}
        }
    }
}
