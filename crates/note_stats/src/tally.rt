//! What is counted of the queues of one journal.

ghost use Rattle.std.specs.Prelude.{◌≡◌, ◌<◌, ◌∷◌, ◌^◌, ℕ, [], length, get_or};
ghost use Rattle.base_words.specs.Journal.{Journal as Notes};
ghost use Rattle.note_facts.specs.Accounts.{greatest_count, fresh_account};
ghost use Rattle.note_facts.specs.AllAccounts.{KnowsAccounts};
ghost use Rattle.note_stats.specs.Tallies.{no_tally, one_more, charged_if, settling, tally_after, cost_told};
ghost use Rattle.note_stats.specs.Tallies as spec;
ghost use Rattle.note_stats.specs.Walks.{KnowsTallies};

use base_words::{Note, QueueNo, Shares};
use note_facts::{Account, Accounts, has_bursts};

/// Of the notes that were read: what is counted of one queue. Times are nanoseconds.
#[derive(Clone, Copy)]
pub struct Tally {
    /// Picks of the queue.
    pub selected: u64,
    /// The sum of the times of its turns, each clamped as for its charge.
    pub time: u128,
    /// The sum of its charges.
    pub charged: u128,
    /// Its greatest charge.
    pub greatest: u64,
    /// Polls that were begun.
    pub begun: u64,
    /// Polls that are settled.
    pub settled: u64,
    /// Jobs that are done.
    pub finished: u64,
    /// Jobs that a pick handed back.
    pub returned: u64,
}

impl Tally {
    /// No note was read.
    pub fn new() -> Self
        ensures { result ≡ no_tally }
    {
        Tally {
            selected: 0,
            time: 0,
            charged: 0,
            greatest: 0,
            begun: 0,
            settled: 0,
            finished: 0,
            returned: 0,
        }
    }

    /// A time is charged, at this cost, if it counts.
    fn charge(&mut self, cost: u64, time: u64, counts: bool)
        ensures { self.new ≡ charged_if counts cost time self.old }
    {
        if counts {
            self.time = self.time.saturating_add(base_words::clamped(time) as u128);
            self.charged = self.charged.saturating_add(cost as u128);
            self.greatest = self.greatest.max(cost);
        }
    }

    /// A poll is settled: its time is charged, at this cost, where it ends its turn.
    fn settle(&mut self, cost: u64, time: u64, burst: u8)
        ensures { self.new ≡ settling burst cost time self.old }
    {
        self.charge(cost, time, !has_bursts(burst));
        self.settled = self.settled.saturating_add(1);
    }

    /// Reads a note that is of this queue, and costs it so much where its time is charged.
    pub fn add(&mut self, note: &Note<u64>, cost: u64, burst: u8)
        ensures { self.new ≡ tally_after burst cost note.now self.old }
    {
        match *note {
            Note::Pick(_, _) => self.selected = self.selected.saturating_add(1),
            Note::Start(_) => self.begun = self.begun.saturating_add(1),
            Note::Resume(_) => self.begun = self.begun.saturating_add(1),
            Note::Yield(_, time) => self.settle(cost, time, burst),
            Note::Park(_, time) => self.settle(cost, time, burst),
            Note::Stayed(_, time) => self.settle(cost, time, burst),
            Note::Done(_, time, _) => {
                self.settle(cost, time, burst);
                self.finished = self.finished.saturating_add(1);
            }
            Note::Returned(_, _) => self.returned = self.returned.saturating_add(1),
            Note::Turned(_, time) => self.charge(cost, time, has_bursts(burst)),
            _ => {}
        }
    }
}

/// The time that a note tells: that of the poll that it settles, or of the turn that it ends.
fn time_told(note: &Note<u64>) -> Option<u64>
    ensures { result ≡ spec.time_told note.now }
{
    match *note {
        Note::Yield(_, time) | Note::Park(_, time) | Note::Stayed(_, time) => Some(time),
        Note::Done(_, time, _) => Some(time),
        Note::Turned(_, time) => Some(time),
        _ => None,
    }
}

/// What a note costs a queue of these shares, where its time is charged.
fn cost_told(note: &Note<u64>, shares: &Shares) -> u64
    ensures value { result ≡ cost_told shares.now note.now }
    ensures bounded { result < 2 ^ 50 }
{
    match time_told(note) {
        Some(time) => base_words::charge(time, shares),
        None => 0,
    }
}

/// Of the notes that were read: the tally of each queue.
#[derive(Drop)]
pub struct Tallies {
    pub queues: [Tally; 256],
}

impl Tallies {
    /// No note was read.
    pub fn new() -> Self
        ensures { (burst : ℕ) → KnowsTallies {T = ℕ} burst result [] }
    {
        Tallies {
            queues: [Tally::new(); 256],
        }
    }

    /// The tally of a queue.
    pub fn of(&self, queue: QueueNo) -> Tally
        ensures { result ≡ get_or self.now.queues queue no_tally }
    {
        self.queues[queue.0 as usize]
    }

    /// Reads the next note, which speaks of this queue, if of any. The accounts are those before the note, and a turn may have so many polls.
    pub fn add(&mut self, note: &Note<u64>, queue: &Option<QueueNo>, accounts: &Accounts, burst: u8)
        ensures { (before : Notes ℕ) → queue.now ≡ spec.queue_noted note.now before → length before < greatest_count → KnowsAccounts burst accounts.now before → KnowsTallies burst self.old before → KnowsTallies burst self.new (note.now ∷ before) }
    {
        if let Some(queue) = *queue {
            let account = accounts.of(queue);
            let cost = cost_told(note, &account.shares);
            let mut tally = self.of(queue);
            tally.add(note, cost, burst);
            self.queues[queue.0 as usize] = tally;
        }
    }
}
