//! Turns of several polls.
ghost use Rattle.std.specs.Prelude.{◌≡◌, ◌+◌, ◌-◌, ◌^◌, ◌<◌};
ghost use Rattle.base_words.specs.Names.{is_number};
ghost use Rattle.core_core.specs.Bursts as spec;
ghost use Rattle.core_core.specs.Bursts.{lasted, queue_open};

use base_words::QueueNo;

/// The longest time of a turn that counts, in nanoseconds.
const MOST_TIME: u64 = (1 << 40) - 1;

/// A turn that is open: its queue, how many polls it has had, and their time, which is at most what counts.
#[derive(Clone, Copy)]
pub struct OpenTurn {
    pub queue: QueueNo,
    pub polls: u8,
    pub time: u64,
}

/// How many polls a turn may have, and the turn that is open, if one is. None is where each settled poll ends its turn.
#[derive(Clone, Copy)]
pub struct Bursts {
    pub burst: u8,
    pub open: Option<OpenTurn>,
}

impl OpenTurn {
    /// After one more poll has begun.
    pub(crate) fn polled_again(self) -> OpenTurn
        requires { self.polls < 2 ^ 8 - 1 }
        ensures { result ≡ spec.polled_again self }
    {
        OpenTurn {
            queue: self.queue,
            polls: self.polls + 1,
            time: self.time,
        }
    }

    /// After a poll of this time.
    pub(crate) fn longer(self, time: u64) -> OpenTurn
        ensures { result ≡ spec.longer time self }
    {
        OpenTurn {
            queue: self.queue,
            polls: self.polls,
            time: self.time.saturating_add(time.max(1)).min(MOST_TIME),
        }
    }
}

impl Bursts {
    /// This queue was picked for a poll. In place, since where each poll ends its turn nothing is to be written.
    pub(crate) fn begin(&mut self, queue: QueueNo)
        ensures { self.new ≡ spec.begun queue self.old }
    {
        if self.burst > 1 {
            self.open = Some(OpenTurn {
                queue,
                polls: 1,
                time: 0,
            });
        }
    }

    /// After a poll of this time.
    pub(crate) fn lasted(self, time: u64) -> Bursts
        ensures { result ≡ record self { «open» = lasted time self.open } }
    {
        let open = self.open;
        match open {
            Some(turn) => Bursts {
                burst: self.burst,
                open: Some(turn.longer(time)),
            },
            None => self,
        }
    }

    /// Whether the turn of this queue is open.
    pub(crate) fn is_turn_of(&self, queue: QueueNo) -> bool
        ensures { result ≡ is_number queue (queue_open self.now.open) }
    {
        match self.open {
            Some(turn) => queue == turn.queue,
            None => false,
        }
    }
}
