//! How a worker measures its polls: by the readings of its clock, each from the end of the one before where it goes straight on.

ghost use Rattle.std.specs.Prelude.{◌≡◌, None, unwrap_or};
ghost use Rattle.run_worker.specs.Readings.{ReadsNow, kept_behind};

use core_queues::Meter;
use run_config::{Clock, spent_between};
use std::marker::Model;

/// A worker's clock, and the reading with which its next poll begins.
#[derive(Drop)]
pub struct Stopwatch<C> {
    clock: C,
    /// What the clock told behind the last poll, or before the one that goes on. None if the clock is to be read before the next poll.
    last: Option<u64>,
    /// What the polls took together since `forget`.
    taken: u64,
}

impl<C> Model for Stopwatch<C> {
    ghost use Rattle.run_worker.specs.Readings.{WatchView, watch_view};

    ghost Value = { WatchView C };

    ghost view = { λ w. watch_view w.clock w.last w.taken };
}

impl<C> Stopwatch<C> {
    /// A clock that has not been read.
    pub fn new(clock: C) -> Self
        ensures { result ≡ record { clock = clock; last = None; taken = 0 } }
    {
        Stopwatch {
            clock,
            last: None,
            taken: 0,
        }
    }

    /// What the clock told behind the last poll, or 0 if that isn't kept.
    pub(crate) fn last(&self) -> u64
        ensures { result ≡ unwrap_or self.now.last 0 }
    {
        self.last.unwrap_or(0)
    }

    /// The nanoseconds that the polls took together since `forget`.
    pub(crate) fn taken(&self) -> u64
        ensures { result ≡ self.now.taken }
    {
        self.taken
    }

    /// Counts the polls from here on. If no turn was made, the next poll begins with a fresh reading.
    pub(crate) fn forget(&mut self, turned: bool)
        ensures { self.new ≡ record self.old { last = kept_behind turned self.old.last; taken = 0 } }
    {
        self.taken = 0;
        if !turned {
            self.last = None;
        }
    }
}

impl<C: Clock> Stopwatch<C> {
    /// Reads the clock for something else than a poll.
    pub(crate) fn read(&mut self) -> u64
        ensures { ReadsNow C.Reads self.old result self.new }
    {
        self.clock.now()
    }
}

/// The clock is read behind each poll, and before it only where no reading was kept. A poll took what lies between two readings in a row, so it
/// also pays for what its worker did since the poll before.
impl<C: Clock> Meter for Stopwatch<C> {
    ghost use Rattle.run_worker.specs.Readings.{EndsNext, TimesNext};

    ghost Tells = { λ watch spent after. TimesNext C.Reads watch spent after };

    ghost TellsBegun = { λ begun spent after. EndsNext C.Reads begun spent after };

    fn start(&mut self) {
        if self.last.is_none() {
            let began = self.clock.now();
            self.last = Some(began);
        }
    }

    fn spent(&mut self) -> u64 {
        let told = self.clock.now();
        let spent = spent_between(self.last.unwrap_or(told), told);
        self.last = Some(told);
        self.taken = self.taken.saturating_add(spent);
        spent
    }
}
