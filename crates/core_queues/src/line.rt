//! A queue: where the line of its jobs begins and ends, where that of its parked jobs does, its shares, and whether it is closed.

ghost use Rattle.std.specs.Prelude.{◌≡◌, None};
ghost use Rattle.core_queues.specs.Linked.{no_line};

use base_words::{Mode, Shares};

/// A line of jobs. The keys say nothing where no job stands in it.
#[derive(Clone, Copy)]
pub struct Line {
    /// The key of the job at the head.
    pub head: usize,
    /// The key of the job at the tail.
    pub tail: usize,
    /// How many jobs stand in it.
    pub count: usize,
}

impl Line {
    /// A line in which no job stands.
    pub const EMPTY: Line = Line {
        head: 0,
        tail: 0,
        count: 0,
    };
}

/// A queue.
#[derive(Clone, Copy)]
pub struct Queue {
    /// The jobs that wait for a poll.
    pub waiting: Line,
    /// The parked jobs, in the order in which they were parked.
    pub parked: Line,
    pub shares: Shares,
    /// How it was closed, if it was.
    pub mode: Option<Mode>,
}

impl Queue {
    /// An open queue in which no job waits and none is parked.
    pub fn empty(shares: Shares) -> Queue
        ensures { result ≡ record { waiting = no_line; parked = no_line; shares = shares; mode = None } }
    {
        Queue {
            waiting: Line::EMPTY,
            parked: Line::EMPTY,
            shares,
            mode: None,
        }
    }
}
