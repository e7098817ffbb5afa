//! A walk over a journal, from the oldest note to the newest.

ghost use Rattle.std.specs.Prelude.{◌≡◌, ◌+◌, ◌<◌, ◌∷◌, length};
ghost use Rattle.base_words.specs.Journal.{at_place};

use base_words::Note;
use note_journal::Journal;

/// The note of this place, whose oldest is 0. Before it stands the journal as it was at that place.
pub fn note_at(journal: &Journal<u64>, place: usize) -> Note<u64>
    requires { place < length journal.now.notes }
    ensures { at_place (place + 1) journal.now.notes ≡ result ∷ at_place place journal.now.notes }
{
    let Some(note) = journal.get(place) else {
        unreachable!()
    };
    note
}
