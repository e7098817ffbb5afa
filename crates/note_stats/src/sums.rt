//! The sums of one journal, made in one walk over its notes.

ghost use Rattle.std.specs.Prelude.{◌≡◌, ◌↔◌, ◌<◌, ◌≤◌, ◌∷◌, ℕ, [], length, OnErr, OnOk, IfOk, IsTrue};
ghost use Rattle.base_words.specs.Closing.{IsDrained};
ghost use Rattle.base_words.specs.Journal.{Journal as Notes, at_place};
ghost use Rattle.base_words.specs.Lag.{greatest_charge};
ghost use Rattle.note_facts.specs.Accounts.{greatest_count};
ghost use Rattle.base_words.specs.Stats as spec;
ghost use Rattle.base_words.specs.Sums.{charges};
ghost use Rattle.note_stats.specs.Walks.{HasReadSome, KnowsSums};

use crate::figures::Figures;
use base_words::{CoreStats, Note, QueueNo, QueueStats};
use note_facts::{Parks, note_at};
use note_journal::Journal;
use std::alloc::{AllocError, Global};
use std::marker::Model;

/// Of the notes that were read: all sums, of each queue and of the core.
///
/// A contract sees the tables of it. `KnowsSums` says that they are what some notes tell.
#[derive(Drop)]
pub struct Sums {
    parks: Parks,
    figures: Figures,
}

impl Model for Sums {
    ghost use Rattle.note_stats.specs.Walks.{SumsView};

    ghost Value = { SumsView };

    ghost view = { λ sums. record { parks = sums.parks; figures = sums.figures } };
}

impl Sums {
    /// No note was read. A turn may have so many polls: 0 and 1 mean a single one.
    pub fn new(alloc: Global, burst: u8) -> Self
        ensures { KnowsSums {T = ℕ} burst result [] }
    {
        Sums {
            parks: Parks::new(alloc),
            figures: Figures::new(burst),
        }
    }

    /// Reads the next note. After an `Err` it isn't read.
    fn add(&mut self, note: &Note<u64>) -> Result<(), AllocError>
        ensures knows { OnOk result ((burst : ℕ) (before : Notes ℕ) → length before < greatest_count → KnowsSums burst self.old before → KnowsSums burst self.new (note.now ∷ before)) }
        ensures refused { OnErr result (self.new ≡ self.old) }
    {
        let spot = self.parks.spot(note);
        self.parks.add(note)?;
        self.figures.add(note, &spot);
        Ok(())
    }

    /// Reads the notes from one place to another, after those before the first place.
    ///
    /// # Errors
    ///
    /// `AllocError` for want of memory; then the notes up to some place are read.
    pub fn read(&mut self, journal: &Journal<u64>, from: usize, to: usize) -> Result<(), AllocError>
        requires { from ≤ to }
        ensures knows { OnOk result ((burst : ℕ) → KnowsSums burst self.old (at_place from journal.now.notes) → KnowsSums burst self.new (at_place to journal.now.notes)) }
        ensures refused { OnErr result (HasReadSome from to journal.now.notes self.old self.new) }
    {
        let end = to.min(journal.len());
        for place in from..end {
            let note = note_at(journal, place);
            self.add(&note)?;
        }
        Ok(())
    }

    /// The sums of all notes, where a turn may have so many polls.
    ///
    /// # Errors
    ///
    /// `AllocError` for want of memory.
    pub fn of(alloc: Global, journal: &Journal<u64>, burst: u8) -> Result<Self, AllocError>
        ensures { IfOk result (λ sums. KnowsSums burst sums journal.now.notes) }
    {
        let mut sums = Sums::new(alloc, burst);
        sums.read(journal, 0, journal.len())?;
        Ok(sums)
    }

    /// The statistics of a queue, if there is such a queue.
    pub fn queue_stats(&self, queue: QueueNo) -> Option<QueueStats>
        ensures { (burst : ℕ) (journal : Notes ℕ) → KnowsSums burst self.now journal → result ≡ spec.queue_stats burst queue journal }
    {
        self.figures.queue_stats(queue)
    }

    /// The statistics of the core, in a house of so many cores.
    pub fn core_stats(&self, cores: u8) -> CoreStats
        ensures core { (burst : ℕ) (journal : Notes ℕ) → KnowsSums burst self.now journal → result ≡ spec.core_stats result.drained journal }
        ensures drained { (burst : ℕ) (journal : Notes ℕ) → KnowsSums burst self.now journal → IsTrue result.drained ↔ IsDrained cores journal }
    {
        self.figures.core_stats(cores)
    }

    /// The sum of the charges of a queue.
    pub fn charged(&self, queue: QueueNo) -> u128
        ensures { (burst : ℕ) (journal : Notes ℕ) → KnowsSums burst self.now journal → result ≡ charges burst queue journal }
    {
        self.figures.charged(queue)
    }

    /// The greatest charge of one turn of a queue, 0 if it was charged nothing.
    pub fn greatest_turn(&self, queue: QueueNo) -> u64
        ensures { (burst : ℕ) (journal : Notes ℕ) → KnowsSums burst self.now journal → result ≡ greatest_charge burst queue journal }
    {
        self.figures.greatest_turn(queue)
    }
}
