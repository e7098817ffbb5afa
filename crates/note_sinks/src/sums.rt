//! The sink.

ghost use Rattle.std.specs.Prelude.{◌≡◌, ◌↔◌, ◌<◌, ◌+◌, ◌-◌, ◌^◌, ◌∷◌, ◌++◌, ℕ, [], length, min, reverse, All, Contains, IfOk, IsTrue, OnErr, OnOk};
ghost use Rattle.base_words.specs.Closing.{IsDrained};
ghost use Rattle.base_words.specs.Journal.{EachNote};
ghost use Rattle.base_words.specs.Lag.{greatest_charge};
ghost use Rattle.base_words.specs.Lawful.{MayStand};
ghost use Rattle.base_words.specs.Terms.{Terms};
ghost use Rattle.base_words.specs.Stats as spec;
ghost use Rattle.base_words.specs.Sums.{charges};
ghost use Rattle.note_sinks.specs.Naps.{IsNoPark};

use crate::ledger::Ledger;
use base_sealed::History;
use base_words::{CoreStats, Note, QueueNo, QueueStats};
use note_journal::{Refused, Sink};
use std::alloc::{AllocError, Global};
use std::marker::Model;

/// The statistics of all notes that the sink took, which it doesn't keep.
///
/// It takes memory for the jobs that are parked, and for nothing else. It refuses for want of that memory.
///
/// A contract sees the notes that it took, the newest first.
#[derive(Drop)]
pub struct Sums {
    burst: u8,
    ledger: Box<Ledger>,
    /// The notes that were taken, the oldest first.
    has: History<Note<u64>>,
    count: u64,
    refusals: u64,
    /// What was taken by the time of each refusal, the first one first.
    refused_at: History<History<Note<u64>>>,
}

impl Model for Sums {
    ghost use Rattle.note_sinks.specs.Sums.{SumsView};

    ghost Value = { SumsView };

    ghost use Rattle.std.specs.Prelude.{length, map, reverse};
    ghost use Rattle.note_sinks.specs.Sums.{IsSums};

    ghost view = { λ sums. record { burst = sums.burst; has = reverse sums.has.items; refusals = sums.refusals; refused = map (λ had. length had.items) sums.refused_at.items } };

    ghost invariant = { λ sums. IsSums sums.burst sums.ledger.value sums.count (reverse sums.has.items) };
}

/// Puts these notes behind all others.
fn lengthen(has: &mut History<Note<u64>>, notes: &[Note<u64>])
    ensures { has.new.items ≡ has.old.items ++ notes.now }
{
    for note in notes {
        *has = has.with(note);
    }
}

impl Sums {
    /// No note was taken. A turn may have so many polls: 0 and 1 mean a single one.
    ///
    /// # Errors
    ///
    /// `AllocError` for want of memory.
    pub fn try_new(alloc: Global, burst: u8) -> Result<Self, AllocError>
        ensures { IfOk result (λ sums. sums ≡ record { burst = burst; has = []; refusals = 0; refused = [] }) }
    {
        let ledger = Box::new(alloc, Ledger::new(alloc, burst))?;
        Ok(Sums {
            burst,
            ledger,
            has: History::new(),
            count: 0,
            refusals: 0,
            refused_at: History::new(),
        })
    }

    /// How many notes were taken, at most 2^64 - 1.
    pub fn notes(&self) -> u64
        ensures { result ≡ min (length self.now.has) (2 ^ 64 - 1) }
    {
        self.count
    }

    /// How often notes were refused.
    pub fn refusals(&self) -> u64
        ensures { result ≡ self.now.refusals }
    {
        self.refusals
    }

    /// The statistics of a queue, if there is such a queue, where the notes that were taken are lawful and fewer than 2^64.
    pub fn queue_stats(&self, queue: QueueNo) -> Option<QueueStats>
        ensures { (terms : Terms) → EachNote (MayStand terms) self.now.has → length self.now.has < 2 ^ 64 → result ≡ spec.queue_stats self.now.burst queue self.now.has }
    {
        self.ledger.figures().queue_stats(queue)
    }

    /// The statistics of the core, in a house of so many cores, where the notes that were taken are lawful and fewer than 2^64.
    pub fn core_stats(&self, cores: u8) -> CoreStats
        ensures core { (terms : Terms) → EachNote (MayStand terms) self.now.has → length self.now.has < 2 ^ 64 → result ≡ spec.core_stats result.drained self.now.has }
        ensures drained { (terms : Terms) → EachNote (MayStand terms) self.now.has → length self.now.has < 2 ^ 64 → IsTrue result.drained ↔ IsDrained cores self.now.has }
    {
        self.ledger.figures().core_stats(cores)
    }

    /// The sum of the charges of a queue, where the notes that were taken are lawful and fewer than 2^64.
    pub fn charged(&self, queue: QueueNo) -> u128
        ensures { (terms : Terms) → EachNote (MayStand terms) self.now.has → length self.now.has < 2 ^ 64 → result ≡ charges self.now.burst queue self.now.has }
    {
        self.ledger.figures().charged(queue)
    }

    /// The greatest charge of one turn of a queue, 0 if it was charged nothing, where the notes that were taken are lawful and fewer than 2^64.
    pub fn greatest_turn(&self, queue: QueueNo) -> u64
        ensures { (terms : Terms) → EachNote (MayStand terms) self.now.has → length self.now.has < 2 ^ 64 → result ≡ greatest_charge self.now.burst queue self.now.has }
    {
        self.ledger.figures().greatest_turn(queue)
    }
}

impl Sink for Sums {
    ghost has = { λ sums. sums.has };

    ghost refused = { λ sums count. Contains sums.refused count };

    fn take(&mut self, notes: &[Note<u64>]) -> Result<(), Refused>
        ensures ok { OnOk result (self.new.has ≡ reverse notes.now ++ self.old.has) }
        ensures err { OnErr result (self.new.has ≡ self.old.has) }
        ensures told { OnErr result (Contains self.new.refused (length self.old.has)) }
        ensures refusals { (count : ℕ) → Contains self.old.refused count → Contains self.new.refused count }
        // It refuses only notes that park a job.
        ensures parks { OnErr result (All IsNoPark notes.now → ⊥) }
        ensures counted { OnErr result (self.new ≡ record self.old { refusals = min (self.old.refusals + 1) (2 ^ 64 - 1); refused = self.old.refused ++ length self.old.has ∷ [] }) }
        ensures burst { self.new.burst ≡ self.old.burst }
    {
        if self.ledger.reserve(notes).is_err() {
            self.refusals = self.refusals.saturating_add(1);
            self.refused_at = self.refused_at.with(&self.has);
            return Err(Refused);
        }
        self.ledger.add_all(notes);
        self.ledger.forget(notes);
        lengthen(&mut self.has, notes);
        self.count = self.count.saturating_add(notes.len() as u64);
        Ok(())
    }
}
