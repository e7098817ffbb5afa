//! What is counted of one journal, note after note. Another table tells of which queue a note speaks.

ghost use Rattle.std.specs.Prelude.{◌≡◌, ◌↔◌, ◌<◌, ◌+◌, ◌∷◌, ℕ, [], length, min, IsTrue};
ghost use Rattle.base_words.specs.Closing.{IsDrained};
ghost use Rattle.base_words.specs.Journal.{Journal as Notes};
ghost use Rattle.base_words.specs.Lag.{greatest_charge};
ghost use Rattle.note_facts.specs.Accounts.{greatest_count};
ghost use Rattle.note_facts.specs.Spots.{FitsSpot};
ghost use Rattle.base_words.specs.Stats as spec;
ghost use Rattle.base_words.specs.Sums.{charges};
ghost use Rattle.note_stats.specs.Walks.{KnowsFigures, inside_below};

use crate::gates::{Gates, all_done};
use crate::tally::Tallies;
use base_words::{CoreStats, Note, QueueNo, QueueStats};
use note_facts::{Account, Accounts, Spot};
use std::marker::Model;

/// Of the notes that were read: all that is counted of each queue and of the core. It takes no memory beside itself.
///
/// A contract sees the three tables of it. `KnowsFigures` says that they are what some notes tell.
#[derive(Drop)]
pub struct Figures {
    burst: u8,
    accounts: Accounts,
    tallies: Tallies,
    gates: Gates,
}

impl Model for Figures {
    ghost use Rattle.note_stats.specs.Walks.{FiguresView};

    ghost Value = { FiguresView };

    ghost view = { λ figures. record { burst = figures.burst; accounts = figures.accounts; tallies = figures.tallies; gates = figures.gates } };
}

/// The jobs inside all queues, of which so many were created behind queue 0.
fn held(accounts: &[Account; 256], created: u64) -> u64
    ensures { result ≡ min (inside_below (created + 1) accounts.now) greatest_count }
{
    let mut sum: u64 = 0;
    for queue in 0..created.min(255) as usize + 1 {
        let account = &accounts[queue];
        sum = sum.saturating_add(account.entered.saturating_sub(account.left));
    }
    sum
}

impl Figures {
    /// No note was read. A turn may have so many polls: 0 and 1 mean a single one.
    pub fn new(burst: u8) -> Self
        ensures { KnowsFigures {T = ℕ} burst result [] }
    {
        Figures {
            burst,
            accounts: Accounts::new(),
            tallies: Tallies::new(),
            gates: Gates::new(),
        }
    }

    /// Reads the next note, which speaks of these queues.
    pub fn add(&mut self, note: &Note<u64>, spot: &Spot)
        ensures { (burst : ℕ) (before : Notes ℕ) → length before < greatest_count → FitsSpot spot.now note.now before → KnowsFigures burst self.old before → KnowsFigures burst self.new (note.now ∷ before) }
    {
        self.tallies
            .add(note, &spot.queue, &self.accounts, self.burst);
        self.accounts.add(note, spot, self.burst);
        self.gates.add(note);
    }

    /// The statistics of a queue, if there is such a queue.
    pub fn queue_stats(&self, queue: QueueNo) -> Option<QueueStats>
        ensures { (burst : ℕ) (journal : Notes ℕ) → KnowsFigures burst self.now journal → result ≡ spec.queue_stats burst queue journal }
    {
        if queue.0 as u64 <= self.gates.created {
            Some(self.stats_of(queue))
        } else {
            None
        }
    }

    fn stats_of(&self, queue: QueueNo) -> QueueStats
        ensures { (burst : ℕ) (journal : Notes ℕ) → KnowsFigures burst self.now journal → result ≡ spec.stats_of burst queue journal }
    {
        let account = self.accounts.of(queue);
        let tally = self.tallies.of(queue);
        let inside = account.entered.saturating_sub(account.left);
        QueueStats {
            shares: account.shares,
            selected: tally.selected,
            runtime: tally.time,
            virtual_runtime: account.virtual_runtime,
            waiting: inside.saturating_sub(tally.begun.saturating_sub(tally.settled)),
            finished: tally.finished,
            returned: tally.returned,
        }
    }

    /// The statistics of the core, in a house of so many cores.
    pub fn core_stats(&self, cores: u8) -> CoreStats
        ensures core { (burst : ℕ) (journal : Notes ℕ) → KnowsFigures burst self.now journal → result ≡ spec.core_stats result.drained journal }
        ensures drained { (burst : ℕ) (journal : Notes ℕ) → KnowsFigures burst self.now journal → IsTrue result.drained ↔ IsDrained cores journal }
    {
        CoreStats {
            turns: self.gates.turns,
            floor: self.accounts.floor,
            held: held(&self.accounts.queues, self.gates.created),
            drained: all_done(&self.gates.senders, cores) && self.accounts.are_empty(),
        }
    }

    /// The sum of the charges of a queue.
    pub fn charged(&self, queue: QueueNo) -> u128
        ensures { (burst : ℕ) (journal : Notes ℕ) → KnowsFigures burst self.now journal → result ≡ charges burst queue journal }
    {
        self.tallies.of(queue).charged
    }

    /// The greatest charge of one turn of a queue, 0 if it was charged nothing.
    pub fn greatest_turn(&self, queue: QueueNo) -> u64
        ensures { (burst : ℕ) (journal : Notes ℕ) → KnowsFigures burst self.now journal → result ≡ greatest_charge burst queue journal }
    {
        self.tallies.of(queue).greatest
    }
}
