//! What each queue of a core got of its time, and what it should have got while it had work.

ghost use Rattle.std.specs.Prelude.{◌≡◌, ◌<◌, ◌∷◌, ℕ, [], length, IfOk, OnErr, OnOk};
ghost use Rattle.base_words.specs.Journal.{Journal as Notes};
ghost use Rattle.note_facts.specs.Accounts.{greatest_count};
ghost use Rattle.judge_view.specs.Clocks.{busy_time};
ghost use Rattle.judge_view.specs.Shares as spec;
ghost use Rattle.judge_view.specs.Watches as watches;

use crate::clocks::CoreTime;
use crate::watches::Watches;
use base_words::{Note, QueueNo, QueueStats};
use note_facts::note_at;
use note_journal::Journal;
use note_stats::Figures;
use std::alloc::{AllocError, Global};

/// What is told of the shares of a queue: its statistics, what it should have got while it had work, and how many jobs waited in it at most.
#[derive(Clone, Copy)]
pub struct QueueShare {
    /// `runtime` is what the queue got, in nanoseconds.
    pub stats: QueueStats,
    /// In thousandths of a nanosecond.
    pub due: u128,
    pub most_waiting: u64,
}

/// Of the notes that were read: what is told of the shares of all queues of a core.
#[derive(Drop)]
pub struct CoreShares {
    clock: CoreTime,
    figures: Figures,
    watches: Watches,
}

impl CoreShares {
    /// No note was read. A turn may have so many polls: 0 and 1 mean a single one.
    pub fn new(alloc: Global, burst: u8) -> Self
        ensures { watches.KnowsShares {T = ℕ} burst result [] }
    {
        CoreShares {
            clock: CoreTime::new(),
            figures: Figures::new(burst),
            watches: Watches::new(alloc),
        }
    }

    /// Reads the next note. It goes over all queues.
    ///
    /// # Errors
    ///
    /// `AllocError` for want of memory; then the note isn't read.
    pub fn add(&mut self, note: &Note<u64>) -> Result<(), AllocError>
        ensures knows { OnOk result ((burst : ℕ) (before : Notes ℕ) → length before < greatest_count → watches.KnowsShares burst self.old before → watches.KnowsShares burst self.new (note.now ∷ before)) }
        ensures refused { OnErr result (self.new ≡ self.old) }
    {
        let spot = self.watches.spot(note);
        self.watches.add(note, &spot)?;
        self.clock.add(note);
        self.figures.add(note, &spot);
        Ok(())
    }

    /// Reads the journal of a core, where a turn may have so many polls.
    ///
    /// # Errors
    ///
    /// `AllocError` for want of memory.
    pub fn of(alloc: Global, journal: &Journal<u64>, burst: u8) -> Result<Self, AllocError>
        ensures { IfOk result (λ shares. watches.KnowsShares burst shares journal.now.notes) }
    {
        let mut shares = CoreShares::new(alloc, burst);
        for place in 0..journal.len() {
            let note = note_at(journal, place);
            shares.add(&note)?;
        }
        Ok(shares)
    }

    /// The processor time of the core, in nanoseconds.
    pub fn busy(&self) -> u128
        ensures { (burst : ℕ) (journal : Notes ℕ) → watches.KnowsShares burst self.now journal → result ≡ busy_time journal }
    {
        self.clock.time
    }

    /// What is told of the shares of a queue, if there is such a queue.
    pub fn queue(&self, queue: QueueNo) -> Option<QueueShare>
        ensures { (burst : ℕ) (journal : Notes ℕ) → watches.KnowsShares burst self.now journal → result ≡ spec.queue_share burst queue journal }
    {
        let stats = self.figures.queue_stats(queue)?;
        let watch = self.watches.of(queue);
        Some(QueueShare {
            stats,
            due: watch.due,
            most_waiting: watch.most_waiting,
        })
    }
}
