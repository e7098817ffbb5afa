//! What is counted of a queue.
ghost use Rattle.std.specs.Prelude.{◌≡◌, ℕ, ◌+◌, ◌-◌, ◌^◌, ◌<◌, ◌≤◌, min};
ghost use Rattle.core_core.specs.Inside.{FitsTurns};
ghost use Rattle.base_words.specs.Charge as spec;

use base_words::{QueueNo, Shares, charge, clamped};

/// What is counted of a queue. Times are nanoseconds.
#[derive(Clone, Copy)]
pub struct Tally {
    /// Its virtual runtime.
    pub runtime: u128,
    /// Picks of it.
    pub selected: u64,
    /// The sum of the times of its turns, each as it is charged. Without bursts a turn is one poll.
    pub time: u128,
    /// Its jobs that are done, or the most that this can be.
    pub finished: u64,
    /// Its jobs that a pick handed back.
    pub returned: u64,
}

/// What a time costs under these shares. At the default the time is its own cost, and a division would take as long as many other steps.
#[inline(always)]
fn cost(time: u64, shares: &Shares) -> u64
    ensures value { result ≡ spec.charge time shares.now }
    ensures bounded { result < 2 ^ 50 }
{
    if shares.get() == 1000 {
        clamped(time)
    } else {
        charge(time, shares)
    }
}

impl Tally {
    /// That of a new queue.
    pub const NONE: Tally = Tally {
        runtime: 0,
        selected: 0,
        time: 0,
        finished: 0,
        returned: 0,
    };

    /// After this time under these shares.
    pub(crate) fn costing(self, time: u64, shares: &Shares) -> Tally
        requires runtime { self.runtime + 2 ^ 50 ≤ 2 ^ 128 }
        requires time { self.time + 2 ^ 40 ≤ 2 ^ 128 }
        ensures value { result ≡ record self {
          runtime = self.runtime + spec.charge time shares.now;
          time = self.time + spec.clamped time;
        } }
        ensures charge { result.runtime < self.runtime + 2 ^ 50 }
        ensures clamped { result.time < self.time + 2 ^ 40 }
    {
        Tally {
            runtime: self.runtime + u128::from(cost(time, shares)),
            selected: self.selected,
            time: self.time + u128::from(clamped(time)),
            finished: self.finished,
            returned: self.returned,
        }
    }

    /// With so many more jobs done. The count stays at the most that it can be.
    pub(crate) fn finishing(self, done: u64) -> Tally
        ensures { result ≡ record self { finished = min (self.finished + done) (2 ^ 64 - 1) } }
    {
        Tally {
            runtime: self.runtime,
            selected: self.selected,
            time: self.time,
            finished: self.finished.saturating_add(done),
            returned: self.returned,
        }
    }

    /// After a poll of this time under these shares, with so many more jobs done.
    pub(crate) fn charged(self, time: u64, shares: &Shares, done: u64) -> Tally
        requires runtime { self.runtime + 2 ^ 50 ≤ 2 ^ 128 }
        requires time { self.time + 2 ^ 40 ≤ 2 ^ 128 }
        ensures value { result ≡ record self {
          runtime = self.runtime + spec.charge time shares.now;
          time = self.time + spec.clamped time;
          finished = min (self.finished + done) (2 ^ 64 - 1);
        } }
        ensures charge { result.runtime < self.runtime + 2 ^ 50 }
        ensures clamped { result.time < self.time + 2 ^ 40 }
    {
        self.costing(time, shares).finishing(done)
    }

    /// After one more pick and a poll of this time under these shares, with so many more jobs done.
    pub(crate) fn turned(self, time: u64, shares: &Shares, done: u64) -> Tally
        requires fits { (turns : ℕ) × (turns < 2 ^ 64 - 1) × FitsTurns turns 0 self }
        ensures value { result ≡ record self {
          runtime = self.runtime + spec.charge time shares.now;
          selected = self.selected + 1;
          time = self.time + spec.clamped time;
          finished = min (self.finished + done) (2 ^ 64 - 1);
        } }
        ensures fits { (turns : ℕ) → FitsTurns turns 0 self → FitsTurns (turns + 1) 0 result }
    {
        let mut tally = self.charged(time, shares, done);
        tally.selected += 1;
        tally
    }

    /// After one more pick and a poll in an open turn, with so many more jobs done.
    pub(crate) fn picked(self, done: u64) -> Tally
        requires { self.selected < 2 ^ 64 - 1 }
        ensures { result ≡ record self { selected = self.selected + 1; finished = min (self.finished + done) (2 ^ 64 - 1) } }
    {
        let mut tally = self.finishing(done);
        tally.selected += 1;
        tally
    }
}

/// The place of a queue's tally.
pub(crate) fn place(queue: QueueNo) -> usize
    ensures { result ≡ queue }
{
    usize::from(queue.0)
}
