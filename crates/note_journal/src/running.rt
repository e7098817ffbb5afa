//! The journal of an actor that runs: older notes may have been passed on.

ghost use Rattle.std.specs.Prelude.{◌≡◌, ◌+◌, ◌<◌, ◌≤◌, [], ◌∷◌, ◌++◌, drop, length, reverse, IfOk};
ghost use Rattle.note_journal.specs.Journals.{free_notes, passed_all, IsWithinRoom};
ghost use Rattle.note_journal.specs.Passing.{IsAsked, KeepsRefusals, PassesOn};

use crate::journal::Journal;
use crate::sink::{Refused, Sink};
use base_sealed::History;
use base_words::Note;
use std::alloc::{AllocError, Global};
use std::marker::Model;

/// The notes of one actor that runs. Those that were passed on are kept no more, and their places are free again. The opening is handed an allocator. No other call has one in reach, since the notes stand in a sealed vector.
///
/// A contract sees the list of all notes, the newest first, those of them that were passed on, and how many there may be in all, until more are passed on.
#[derive(Drop)]
pub struct RunningJournal<T: Copy> {
    /// The notes that were passed on, the oldest first.
    passed: History<Note<T>>,
    kept: Journal<T>,
}

impl<T: Copy> Model for RunningJournal<T> {
    ghost use Rattle.note_journal.specs.Journals.{JournalView};

    ghost Value = { JournalView T };

    ghost use Rattle.note_journal.specs.Journals.{journal_behind};

    ghost view = { λ journal. journal_behind journal.passed.items journal.kept.room journal.kept.notes };
}

impl<T: Copy> RunningJournal<T> {
    /// Takes the memory for this many notes.
    pub fn try_with_room(alloc: Global, room: u32) -> Result<Self, AllocError>
        ensures { IfOk result (λ journal. journal ≡ record { notes = []; passed = []; room = room }) }
    {
        let kept = Journal::try_with_room(alloc, room)?;
        Ok(RunningJournal {
            passed: History::new(),
            kept,
        })
    }

    /// Writes to the memory of all notes that may be kept, so that none of them is the first to touch its page. No note is added.
    pub fn prefault(&mut self)
        ensures { self.new ≡ self.old }
    {
        self.kept.prefault();
    }

    /// Adds the newest note.
    #[inline(always)]
    pub fn push(&mut self, note: Note<T>)
        requires free { length self.old.notes < self.old.room }
        ensures notes { self.new ≡ record self.old { notes = note ∷ self.old.notes } }
        ensures limits { IsWithinRoom self.new }
    {
        self.kept.push(note);
    }

    /// Adds these notes one after another, so that the last of them is the newest.
    #[inline(always)]
    pub fn push_all(&mut self, notes: &[Note<T>])
        requires free { length self.old.notes + length notes.now ≤ self.old.room }
        ensures notes { self.new ≡ record self.old { notes = reverse notes.now ++ self.old.notes } }
        ensures limits { IsWithinRoom self.new }
    {
        self.kept.push_all(notes);
    }

    /// How many more notes there may be, until some are passed on.
    pub fn free(&self) -> u32
        ensures value { result ≡ free_notes self.now }
        ensures limits { IsWithinRoom self.now }
    {
        self.kept.free()
    }

    /// How many notes are kept.
    pub fn kept_count(&self) -> usize
        ensures value { length self.now.passed + result ≡ length self.now.notes }
        ensures limits { IsWithinRoom self.now }
    {
        self.kept.len()
    }

    /// The notes that are kept, behind the first `count` of them, the oldest first.
    pub fn since(&self, count: usize) -> &[Note<T>]
        requires { length self.now.passed + count ≤ length self.now.notes }
        ensures { result.now ≡ drop (length self.now.passed + count) (reverse self.now.notes) }
    {
        let notes = self.kept.as_slice();
        &notes[count..]
    }

    /// The notes that are kept, as a journal: all of them, if none was passed on.
    pub fn kept(&self) -> &Journal<T>
        ensures notes { result.now.notes ++ self.now.passed ≡ self.now.notes }
        ensures room { length self.now.passed + result.now.room ≡ self.now.room }
        ensures whole { self.now.passed ≡ [] → result.now ≡ self.now }
    {
        let _room = self.kept.room();
        &self.kept
    }

    /// The notes that are kept, as a journal: all of them, if none was passed on.
    pub fn into_kept(self) -> Journal<T>
        ensures notes { result.notes ++ self.passed ≡ self.notes }
        ensures room { length self.passed + result.room ≡ self.room }
        ensures whole { self.passed ≡ [] → result ≡ self }
    {
        let kept = self.kept;
        let _room = kept.room();
        kept
    }
}

impl RunningJournal<u64> {
    /// Hands all notes that are kept to the sink, so that their places are free again. A sink that refuses leaves all as it was.
    ///
    /// # Errors
    ///
    /// `Refused` where the sink refuses.
    pub fn pass_on<S: Sink>(&mut self, sink: &mut S) -> Result<(), Refused>
        requires { S.has sink.old ≡ self.old.passed }
        ensures passes { PassesOn S.has S.refused self.old sink.old result self.new sink.new }
        ensures refusals { KeepsRefusals S.refused sink.old sink.new }
        ensures asked { IsAsked (S.asks sink.old) (S.asks sink.new) }
        ensures marked { S.mark sink.new ≡ S.mark sink.old }
    {
        sink.take(self.kept.as_slice())?;
        for note in self.kept.as_slice() {
            self.passed = self.passed.with(note);
        }
        self.kept.clear();
        Ok(())
    }
}
