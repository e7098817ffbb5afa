//! The notes of one actor.

ghost use Rattle.std.specs.Prelude.{◌≡◌, ◌↔◌, ◌+◌, ◌<◌, ◌≤◌, [], ◌∷◌, ◌++◌, length, max, reverse, slice_get, IfOk, IsTrue, OnErr, OnOk};
ghost use Rattle.base_words.specs.Limits.{most_notes};
ghost use Rattle.note_journal.specs.Journals.{free_notes, IsWithinRoom};

use base_sealed::SealedVec;
use base_words::Note;
use std::alloc::{AllocError, Global};
use std::marker::Model;

/// The notes of one actor. The opening, `try_push` and `try_reserve` are handed an allocator. No other call has one in reach, since the notes stand in a sealed vector.
///
/// A contract sees the list of the notes, the newest first, and how many there may be in all.
#[derive(Drop)]
pub struct Journal<T: Copy> {
    notes: SealedVec<Note<T>, Global>,
    room: u32,
    /// How many notes have their memory. It may be more than the room.
    reserved: u32,
}

impl<T: Copy> Model for Journal<T> {
    ghost use Rattle.note_journal.specs.Journals.{JournalView};

    ghost Value = { JournalView T };

    ghost use Rattle.note_journal.specs.Journals.{journal_of_notes, IsReserved};

    ghost view = { λ journal. journal_of_notes journal.room journal.notes.items };

    ghost invariant = { λ journal. IsReserved journal.room journal.reserved journal.notes.cap journal.notes.items };
}

impl<T: Copy> Journal<T> {
    /// Takes the memory for this many notes.
    pub fn try_with_room(alloc: Global, room: u32) -> Result<Self, AllocError>
        ensures { IfOk result (λ journal. journal ≡ record { notes = []; passed = []; room = room }) }
    {
        let notes = Vec::with_capacity(alloc, room as usize)?;
        Ok(Journal {
            notes: SealedVec::sealed(notes),
            room,
            reserved: room,
        })
    }

    /// The journal of these notes, the oldest first, which has room for no other.
    pub fn of(notes: Vec<Note<T>>) -> Self
        requires { length notes.items ≤ most_notes }
        ensures notes { result.notes ≡ reverse notes.items }
        ensures passed { result.passed ≡ [] }
        ensures room { result.room ≡ length notes.items }
    {
        let room = notes.len() as u32;
        Journal {
            notes: SealedVec::sealed(notes),
            room,
            reserved: room,
        }
    }

    /// Writes to the memory of all notes that there may be, so that none of them is the first to touch its page. No note is added.
    pub fn prefault(&mut self)
        ensures { self.new ≡ self.old }
    {
        self.notes.prefault(Note::default());
    }

    /// Adds the newest note.
    #[inline(always)]
    pub fn push(&mut self, note: Note<T>)
        requires free { length self.old.notes < self.old.room }
        ensures notes { self.new ≡ record self.old { notes = note ∷ self.old.notes } }
        ensures limits { IsWithinRoom self.new }
    {
        self.notes.push_reserved(note);
    }

    /// Adds the newest note, also where no room is left. The room is asked for as the notes grow: where it is used up, for twice as many.
    pub fn try_push(&mut self, alloc: Global, note: Note<T>) -> Result<(), AllocError>
        requires few { length self.old.notes < most_notes }
        ensures ok { OnOk result (self.new.notes ≡ note ∷ self.old.notes) }
        ensures room { OnOk result (length self.new.notes ≤ self.new.room) }
        ensures err { OnErr result (self.new ≡ self.old) }
    {
        self.try_reserve(alloc, 1)?;
        self.push(note);
        Ok(())
    }

    /// Makes room for this many more notes, and takes their memory.
    pub fn try_reserve(&mut self, alloc: Global, more: u32) -> Result<(), AllocError>
        requires few { length self.old.notes + more ≤ most_notes }
        ensures ok { OnOk result (self.new ≡ record self.old { room = max (length self.old.notes + more) self.old.room }) }
        ensures err { OnErr result (self.new ≡ self.old) }
    {
        let room = self.notes.len() as u32 + more;
        self.reserved = reserve(alloc, &mut self.notes, self.reserved, room)?;
        self.room = room.max(self.room);
        Ok(())
    }

    /// Adds these notes one after another, so that the last of them is the newest.
    #[inline(always)]
    pub fn push_all(&mut self, notes: &[Note<T>])
        requires free { length self.old.notes + length notes.now ≤ self.old.room }
        ensures notes { self.new ≡ record self.old { notes = reverse notes.now ++ self.old.notes } }
        ensures limits { IsWithinRoom self.new }
    {
        for note in notes {
            self.notes.push_reserved(*note);
        }
    }

    /// Takes all notes away. Their memory stays.
    pub fn clear(&mut self)
        ensures { self.new ≡ record self.old { notes = [] } }
    {
        self.notes.clear();
    }

    /// How many notes there may be in all.
    pub fn room(&self) -> u32
        ensures value { result ≡ self.now.room }
        ensures limits { IsWithinRoom self.now }
        ensures whole { self.now.passed ≡ [] }
    {
        self.room
    }

    /// How many more notes there may be.
    pub fn free(&self) -> u32
        ensures value { result ≡ free_notes self.now }
        ensures limits { IsWithinRoom self.now }
    {
        self.room - self.notes.len() as u32
    }

    /// How many notes there are.
    pub fn len(&self) -> usize
        ensures value { result ≡ length self.now.notes }
        ensures limits { IsWithinRoom self.now }
    {
        self.notes.len()
    }

    /// Whether there is no note.
    pub fn is_empty(&self) -> bool
        ensures { IsTrue result ↔ (self.now.notes ≡ []) }
    {
        self.as_slice().is_empty()
    }

    /// The note of this place, counted from the oldest, whose place is 0.
    pub fn get(&self, index: usize) -> Option<Note<T>>
        ensures { result ≡ slice_get (reverse self.now.notes) index }
    {
        self.as_slice().get(index).copied()
    }

    /// All notes, the oldest first.
    pub fn as_slice(&self) -> &[Note<T>]
        ensures { result.now ≡ reverse self.now.notes }
    {
        self.notes.as_slice()
    }
}

/// Sees that so many notes have their memory. If they don't, the notes move into a vector of at least twice the room. Answers how many have their memory.
fn reserve<T: Copy>(
    alloc: Global,
    notes: &mut SealedVec<Note<T>, Global>,
    reserved: u32,
    room: u32,
) -> Result<u32, AllocError>
    requires held { length notes.old.items ≤ reserved }
    requires reserved { reserved ≤ notes.old.cap }
    requires few { room ≤ most_notes }
    ensures items { notes.new.items ≡ notes.old.items }
    ensures room { IfOk result (λ reserved. room ≤ reserved) }
    ensures more { IfOk result (λ more. reserved ≤ more) }
    ensures capacity { IfOk result (λ reserved. reserved ≤ notes.new.cap) }
    ensures err { OnErr result (notes.new ≡ notes.old) }
{
    if room <= reserved {
        return Ok(reserved);
    }
    let reserved = room.max(2 * reserved);
    *notes = notes.with_more_room(alloc, reserved as usize)?;
    Ok(reserved)
}
