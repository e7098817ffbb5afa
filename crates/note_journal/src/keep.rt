//! A sink that keeps all notes.

ghost use Rattle.std.specs.Prelude.{◌≡◌, ◌+◌, ◌-◌, ◌^◌, ◌<◌, ◌≤◌, [], ◌∷◌, ◌++◌, length, min, reverse, ℕ, IfOk, OnErr, OnOk};
ghost use Rattle.base_words.specs.Limits.{most_notes};
ghost use Rattle.note_journal.specs.Passing.{KeepsRefusals};
ghost use Rattle.note_journal.specs.Keeping.{HasRefused, MakesRoom};

use crate::journal::Journal;
use crate::sink::{Refused, Sink};
use base_sealed::History;
use base_words::{MOST_NOTES, Note};
use std::alloc::{AllocError, Global};
use std::marker::Model;

/// Keeps all notes that it takes, at most 2^24 of them, in a journal that grows.
///
/// It asks for the memory of all notes of a take before it adds one. It refuses for want of memory, and where there would be more than 2^24 notes.
/// What its room holds it never refuses.
///
/// A contract sees the notes that it took, the newest first, its room, how often it refused, and how many notes it had each time.
#[derive(Drop)]
pub struct Keep {
    alloc: Global,
    journal: Journal<u64>,
    refusals: u64,
    /// How many notes it had each time that it refused, the first time first.
    refused_at: History<u64>,
}

impl Model for Keep {
    ghost use Rattle.note_journal.specs.Keeping.{KeepView};

    ghost Value = { KeepView };

    ghost use Rattle.note_journal.specs.Keeping.{IsKept};

    ghost view = { λ keep. record { has = keep.journal.notes; room = keep.journal.room; refusals = keep.refusals; refused = keep.refused_at.items } };

    ghost invariant = { λ keep. IsKept keep.journal.room keep.refusals keep.refused_at.items };
}

impl Keep {
    /// Nothing is kept, and there is no room yet.
    pub fn new(alloc: Global) -> Self
        ensures { result ≡ record { has = []; room = 0; refusals = 0; refused = [] } }
    {
        Keep {
            alloc,
            journal: Journal::of(Vec::new(alloc)),
            refusals: 0,
            refused_at: History::new(),
        }
    }

    /// Nothing is kept, and there is room for so many notes.
    ///
    /// # Errors
    ///
    /// `AllocError` for want of memory.
    pub fn try_with_room(alloc: Global, room: u32) -> Result<Self, AllocError>
        requires { room ≤ most_notes }
        ensures { IfOk result (λ keep. keep ≡ record { has = []; room = room; refusals = 0; refused = [] }) }
    {
        let journal = Journal::try_with_room(alloc, room)?;
        Ok(Keep {
            alloc,
            journal,
            refusals: 0,
            refused_at: History::new(),
        })
    }

    /// The notes that were taken.
    pub fn journal(&self) -> &Journal<u64>
        ensures notes { result.now.notes ≡ self.now.has }
        ensures room { result.now.room ≡ self.now.room }
    {
        &self.journal
    }

    /// The notes that were taken.
    pub fn into_journal(self) -> Journal<u64>
        ensures notes { result.notes ≡ self.has }
        ensures room { result.room ≡ self.room }
    {
        self.journal
    }

    /// How often notes were refused, at most 2^64 - 1.
    pub fn refusals(&self) -> u64
        ensures value { result ≡ self.now.refusals }
        ensures never { result ≡ 0 → (count : ℕ) → HasRefused self.now count → ⊥ }
    {
        self.refusals
    }
}

/// Makes room for so many more notes.
///
/// # Errors
///
/// `Refused` for want of memory, and where there would be more than 2^24 notes. The journal is as it was.
fn make_room(alloc: Global, journal: &mut Journal<u64>, count: usize) -> Result<(), Refused>
    requires { journal.old.room ≤ most_notes }
    ensures ok { OnOk result (MakesRoom count journal.old journal.new) }
    ensures err { OnErr result (journal.new ≡ journal.old) }
    ensures room { OnErr result (journal.old.room < length journal.old.notes + count) }
{
    if count <= journal.free() as usize {
        return Ok(());
    }
    if count > MOST_NOTES - journal.len() {
        return Err(Refused);
    }
    match journal.try_reserve(alloc, count as u32) {
        Ok(()) => Ok(()),
        Err(_) => Err(Refused),
    }
}

impl Sink for Keep {
    ghost has = { λ keep. keep.has };

    ghost refused = { HasRefused };

    fn take(&mut self, notes: &[Note<u64>]) -> Result<(), Refused>
        ensures ok { OnOk result (self.new.has ≡ reverse notes.now ++ self.old.has) }
        ensures err { OnErr result (self.new.has ≡ self.old.has) }
        ensures told { OnErr result (HasRefused self.new (length self.old.has)) }
        ensures refusals { KeepsRefusals HasRefused self.old self.new }
        // It refuses nothing that its room holds.
        ensures room { OnErr result (self.old.room < length self.old.has + length notes.now) }
        ensures counted { OnErr result (self.new ≡ record self.old { refusals = min (self.old.refusals + 1) (2 ^ 64 - 1); refused = self.old.refused ++ length self.old.has ∷ [] }) }
        ensures uncounted { OnOk result ((self.new.refusals ≡ self.old.refusals) × (self.new.refused ≡ self.old.refused)) }
        ensures most { OnOk result (length self.new.has ≤ most_notes) }
    {
        if make_room(self.alloc, &mut self.journal, notes.len()).is_err() {
            self.refusals = self.refusals.saturating_add(1);
            self.refused_at = self.refused_at.with(&(self.journal.len() as u64));
            return Err(Refused);
        }
        self.journal.push_all(notes);
        Ok(())
    }
}
