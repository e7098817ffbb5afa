//! What is kept of a lawful journal whose notes were read.

ghost use Rattle.std.specs.Prelude.{◌≡◌, ◌<◌, [], ◌∷◌, ℕ, length, All, OnErr, OnOk};
ghost use Rattle.base_words.specs.Journal.{Journal, EachNote, or_else};
ghost use Rattle.base_words.specs.Lawful.{MayStand};
ghost use Rattle.base_words.specs.Terms.{Terms};
ghost use Rattle.note_facts.specs.Limits.{greatest_count};
ghost use Rattle.note_sinks.specs.Ledgers as spec;
ghost use Rattle.note_sinks.specs.Ledgers.{queue_picked, KnowsAsBefore, KnowsLedger, ReadsNotes};
ghost use Rattle.note_sinks.specs.Naps.{HasPlace, IsNoPark, KeepsPlaces};

use crate::naps::Naps;
use base_words::{Note, QueueNo};
use note_facts::Spot;
use note_facts::endings::Endings;
use note_stats::Figures;
use std::alloc::{AllocError, Global};
use std::marker::Model;

/// Of the notes that were read: the queue that was picked last, where jobs are parked, and all that is counted.
/// In a lawful journal no more is needed to know the queue of each note.
///
/// A contract sees its parts. `KnowsLedger` says that they are what some notes tell.
#[derive(Drop)]
pub struct Ledger {
    picked: Option<QueueNo>,
    naps: Naps,
    endings: Endings,
    figures: Figures,
}

impl Model for Ledger {
    ghost use Rattle.note_sinks.specs.Ledgers.{LedgerView};

    ghost Value = { LedgerView };

    ghost view = { λ ledger. record { picked = ledger.picked; naps = ledger.naps; endings = ledger.endings; figures = ledger.figures } };
}

/// The queue that was picked last, behind a note.
fn picked_after(picked: Option<QueueNo>, note: &Note<u64>) -> Option<QueueNo>
    ensures { result ≡ or_else (queue_picked note.now) picked }
{
    match *note {
        Note::Pick(queue, _) => Some(queue),
        _ => picked,
    }
}

/// The queue that a note speaks of, where this queue was picked last.
fn queue_named(picked: Option<QueueNo>, note: &Note<u64>) -> Option<QueueNo>
    ensures { result ≡ spec.queue_named picked note.now }
{
    match *note {
        Note::Took(_, queue) => Some(queue),
        Note::Created(queue, _) => Some(queue),
        Note::SharesSet(queue, _) => Some(queue),
        Note::QueueClosed(queue, _) => Some(queue),
        Note::Pick(queue, _) => Some(queue),
        Note::Start(_) => picked,
        Note::Resume(_) => picked,
        Note::Yield(_, _) => picked,
        Note::Park(_, _) => picked,
        Note::Stayed(_, _) => picked,
        Note::Done(_, _, _) => picked,
        Note::Returned(_, _) => picked,
        Note::Turned(queue, _) => Some(queue),
        _ => None,
    }
}

impl Ledger {
    /// No note was read. A turn may have so many polls: 0 and 1 mean a single one.
    pub fn new(alloc: Global, burst: u8) -> Self
        ensures { KnowsLedger {T = ℕ} burst result [] }
    {
        Ledger {
            picked: None,
            naps: Naps::new(alloc),
            endings: Endings::new(),
            figures: Figures::new(burst),
        }
    }

    /// The queue in which the job rests that a note parks or wakes.
    fn park_named(&self, note: &Note<u64>) -> Option<QueueNo>
        ensures { result ≡ spec.park_named self.now note.now }
    {
        match *note {
            Note::Park(name, _) => self.naps.park_of(&name, &self.endings),
            Note::Woken(name) => self.naps.park_of(&name, &self.endings),
            _ => None,
        }
    }

    /// Takes the memory that these notes need.
    ///
    /// # Errors
    ///
    /// `AllocError` for want of memory, only if a note parks a job.
    pub fn reserve(&mut self, notes: &[Note<u64>]) -> Result<(), AllocError>
        ensures known { KnowsAsBefore self.old self.new }
        ensures places { OnOk result (All (HasPlace self.new.naps) notes.now) }
        ensures parks { OnErr result (All IsNoPark notes.now → ⊥) }
    {
        self.naps.reserve_all(notes)
    }

    /// Reads the next note. A job that it parks has a place.
    fn add(&mut self, note: &Note<u64>)
        requires { HasPlace self.old.naps note.now }
        ensures known { (terms : Terms) (burst : ℕ) (before : Journal ℕ) → EachNote (MayStand terms) (note.now ∷ before) → length before < greatest_count → KnowsLedger burst self.old before → KnowsLedger burst self.new (note.now ∷ before) }
        ensures places { KeepsPlaces self.old.naps self.new.naps }
    {
        let spot = Spot {
            queue: queue_named(self.picked, note),
            parked: self.park_named(note),
        };
        self.figures.add(note, &spot);
        self.naps.add(note, self.picked, &self.endings);
        self.endings.add(note);
        self.picked = picked_after(self.picked, note);
    }

    /// Reads these notes, the oldest first. Each job that they park has a place.
    pub fn add_all(&mut self, notes: &[Note<u64>])
        requires { All (HasPlace self.old.naps) notes.now }
        ensures { ReadsNotes self.old notes.now self.new }
    {
        for note in notes {
            self.add(note);
        }
    }

    /// Gives the memory back that these notes, which were read, have made needless.
    pub fn forget(&mut self, notes: &[Note<u64>])
        ensures { KnowsAsBefore self.old self.new }
    {
        self.naps.forget_all(notes, &self.endings);
    }

    /// All that is counted.
    pub fn figures(&self) -> &Figures
        ensures { result.now ≡ self.now.figures }
    {
        &self.figures
    }
}
