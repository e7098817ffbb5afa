//! The notes that a house wrote, beside those that were read.

ghost use Rattle.std.specs.Prelude.{◌≡◌, ◌↔◌, ◌+◌, ◌^◌, ◌<◌, ◌≤◌, Some, length, reverse, slice_get, IsTrue, true};

use crate::same::same_note;
use base_words::Note;
use note_journal::RunningJournal;

/// What became of a note.
#[derive(Clone, Copy, PartialEq, Eq)]
pub enum Replayed {
    /// The house wrote the same note.
    Taken,
    /// Nothing shows yet on the link of which the note tells. It is tried again when more was read of other journals.
    Waits,
    /// No actor of a house writes this note here.
    Differs,
}

/// Whether the house wrote notes that weren't read yet, where so many of the kept ones were.
pub(crate) fn is_ahead(journal: &RunningJournal<u64>, told: usize) -> bool
    requires within { length journal.now.passed + told ≤ length journal.now.notes }
    ensures { IsTrue result ↔ length journal.now.passed + told < length journal.now.notes }
{
    told < journal.kept_count()
}

/// Whether this is the next note that the house wrote, where so many of the kept ones were read.
pub(crate) fn is_next(journal: &RunningJournal<u64>, told: usize, note: &Note<u64>) -> bool
    requires within { length journal.now.passed + told ≤ length journal.now.notes }
    ensures next { IsTrue result → slice_get (reverse journal.now.notes) (length journal.now.passed + told) ≡ Some note.now }
    ensures few { IsTrue result → told + 1 < 2 ^ 64 }
{
    if told >= journal.kept_count() {
        return false;
    }
    match journal.since(told).first() {
        Some(next) => same_note(next, note),
        None => false,
    }
}
