//! What time a worker reads.

ghost use Rattle.std.specs.Prelude.{◌≡◌, ℕ, ◌-◌, ◌≤◌};

use std::time;

/// A worker's own clock, read behind each poll. The next poll begins with that reading, unless a look at the links made no turn since: then the
/// clock is read once more, right before the poll.
///
/// It may tell any number: a poll counts with the time that its clock tells.
pub trait Clock {
    /// What a reading may tell, and what the clock is behind it. A clock that says nothing of it may tell any number.
    ghost Reads: { Self → ℕ → Self → Type 0 } = { λ clock told after. Unit {0} };

    /// The time in nanoseconds, since any moment.
    fn now(&mut self) -> u64
        ensures { Reads self.old result self.new };
}

/// How long a poll took, between two readings. 0 where the clock fell.
pub fn spent_between(before: u64, after: u64) -> u64
    ensures { result ≡ after - before }
{
    after.saturating_sub(before)
}

/// The system's clock that isn't set back. It never falls: where it can't be read, it tells its last reading.
#[derive(Clone, Copy, Drop)]
pub struct SystemClock<R> {
    clock: R,
    last: u64,
}

impl<R> SystemClock<R> {
    /// A clock that has not been read.
    pub fn new(clock: R) -> Self
        ensures { result.last ≡ 0 }
    {
        SystemClock { clock, last: 0 }
    }

    /// The last reading.
    pub fn last(&self) -> u64
        ensures { result ≡ self.now.last }
    {
        self.last
    }
}

impl<R: time::Clock> Clock for SystemClock<R> {
    ghost use Rattle.std.specs.Prelude.{◌≡◌, ◌≤◌};

    ghost Reads = { λ clock told after. (clock.last ≤ told) × (after.last ≡ told) };

    fn now(&mut self) -> u64
        ensures { (self.old.last ≤ result) × (self.new.last ≡ result) }
    {
        if let Ok(time) = self.clock.monotonic() {
            // In 64 bits, since this is read at each poll. Past 584 years the sum wraps, and the clock tells its last reading.
            let whole = time.as_secs().wrapping_mul(1_000_000_000);
            let nanos = whole.wrapping_add(u64::from(time.subsec_nanos()));
            if nanos > self.last {
                self.last = nanos;
            }
        }
        self.last
    }
}
