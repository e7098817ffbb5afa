//! What a walk knows of the shares of all queues.

ghost use Rattle.std.specs.Prelude.{◌≡◌, ◌<◌, ◌∷◌, ℕ, [], get_or, length, OnErr, OnOk};
ghost use Rattle.base_words.specs.Journal.{Journal as Notes};
ghost use Rattle.base_words.specs.Limits.{most_queues};
ghost use Rattle.note_facts.specs.Accounts.{greatest_count};
ghost use Rattle.note_facts.specs.Spots.{FitsSpot};
ghost use Rattle.judge_view.specs.Clocks.{time_settled};
ghost use Rattle.judge_view.specs.Shares.{part};
ghost use Rattle.judge_view.specs.Watches as spec;

use base_words::{MOST_QUEUES, Note, QueueNo, Shares};
use note_facts::{Account, Accounts, Parks, Spot};
use note_stats::tally::{Tallies, Tally};
use std::alloc::{AllocError, Global};

/// Of the notes that were read: what one queue should have got, and how many jobs waited in it at most.
#[derive(Clone, Copy)]
pub struct Watch {
    /// In thousandths of a nanosecond; `u128::MAX` where the notes say more.
    pub due: u128,
    pub most_waiting: u64,
}

impl Watch {
    /// No note was read.
    fn new() -> Self
        ensures { result ≡ spec.no_watch }
    {
        Watch {
            due: 0,
            most_waiting: 0,
        }
    }

    /// More is due.
    fn owe(&mut self, more: u128)
        ensures { self.new ≡ spec.owed more self.old }
    {
        self.due = self.due.saturating_add(more);
    }

    /// So many jobs wait.
    fn see(&mut self, waiting: u64)
        ensures { self.new ≡ spec.seen waiting self.old }
    {
        self.most_waiting = self.most_waiting.max(waiting);
    }
}

/// The time of the poll that a note settles, as it counts for its charge.
fn settled_time(note: &Note<u64>) -> u64
    ensures { result ≡ time_settled note.now }
{
    match *note {
        Note::Yield(_, time) => base_words::clamped(time),
        Note::Park(_, time) => base_words::clamped(time),
        Note::Stayed(_, time) => base_words::clamped(time),
        Note::Done(_, time, _) => base_words::clamped(time),
        _ => 0,
    }
}

/// The shares of a queue, while it has work.
fn shares_in(account: &Account) -> u32
    ensures value { result ≡ spec.shares_in account.now }
    ensures bounded { result < 10001 }
{
    if account.has_jobs() {
        account.shares.get()
    } else {
        0
    }
}

/// The shares of all queues that have work.
fn busy_shares(accounts: &[Account; 256]) -> u64
    ensures { result ≡ spec.shares_below most_queues accounts.now }
{
    let mut sum = 0;
    for queue in 0..accounts.len() {
        sum += shares_in(&accounts[queue]) as u64;
    }
    sum
}

/// The part of a time that these shares of so many are due, in thousandths.
fn part(time: u64, own: u32, all: u64) -> u128
    ensures { result ≡ part time own all }
{
    // The time is below 2^64 and the shares are below 2^32, so the product is below 2^106.
    time as u128 * 1000 * own as u128 / all.max(1) as u128
}

/// The jobs of a queue that wait, parked ones counted too.
fn waiting_in(account: &Account, tally: &Tally) -> u64
    ensures { result ≡ spec.waiting_in account.now tally.now }
{
    let inside = account.entered.saturating_sub(account.left);
    inside.saturating_sub(tally.begun.saturating_sub(tally.settled))
}

/// Each queue is due its part of this time.
fn owe_all(each: &mut [Watch; 256], time: u64, accounts: &[Account; 256])
    ensures { spec.AreOwed time accounts.now each.old each.new }
{
    let all = busy_shares(accounts);
    for queue in 0..each.len() {
        let more = part(time, shares_in(&accounts[queue]), all);
        let mut watch = each[queue];
        watch.owe(more);
        each[queue] = watch;
    }
}

/// The jobs that wait in each queue are seen.
fn see_all(each: &mut [Watch; 256], accounts: &[Account; 256], tallies: &[Tally; 256])
    ensures { spec.AreSeen accounts.now tallies.now each.old each.new }
{
    for queue in 0..each.len() {
        let waiting = waiting_in(&accounts[queue], &tallies[queue]);
        let mut watch = each[queue];
        watch.see(waiting);
        each[queue] = watch;
    }
}

/// Of the notes that were read: the queue of each job and where it is parked, and what is known of each queue.
#[derive(Drop)]
pub struct Watches {
    parks: Parks,
    accounts: Accounts,
    tallies: Tallies,
    each: [Watch; 256],
}

impl Watches {
    /// No note was read.
    pub fn new(alloc: Global) -> Self
        ensures { spec.KnowsWatches {T = ℕ} result [] }
    {
        Watches {
            parks: Parks::new(alloc),
            accounts: Accounts::new(),
            tallies: Tallies::new(),
            each: [Watch::new(); MOST_QUEUES],
        }
    }

    /// The queue of the job that a note speaks of, and where it is parked.
    pub fn spot(&self, note: &Note<u64>) -> Spot
        ensures { (before : Notes ℕ) → spec.KnowsWatches self.now before → FitsSpot result note.now before }
    {
        self.parks.spot(note)
    }

    /// Reads the next note, which speaks of this queue.
    pub fn add(&mut self, note: &Note<u64>, spot: &Spot) -> Result<(), AllocError>
        ensures knows { OnOk result ((before : Notes ℕ) → length before < greatest_count → FitsSpot spot.now note.now before → spec.KnowsWatches self.old before → spec.KnowsWatches self.new (note.now ∷ before)) }
        ensures refused { OnErr result (self.new ≡ self.old) }
    {
        self.parks.add(note)?;
        owe_all(&mut self.each, settled_time(note), &self.accounts.queues);
        // No charge is asked for, so each poll may stand for a turn.
        self.tallies.add(note, &spot.queue, &self.accounts, 1);
        self.accounts.add(note, spot, 1);
        see_all(&mut self.each, &self.accounts.queues, &self.tallies.queues);
        Ok(())
    }

    /// What is known of a queue.
    pub fn of(&self, queue: QueueNo) -> Watch
        ensures { result ≡ get_or self.now.each queue spec.no_watch }
    {
        self.each[queue.0 as usize]
    }
}
