//! What a core's own notes before a line tell of its closing.

ghost use Rattle.std.specs.Prelude.{◌≡◌, ◌≤◌, ◌∷◌, ◌||◌, ℕ, IsTrue, length};
ghost use Rattle.base_words.specs.Clauses.{RespectsCloses};
ghost use Rattle.base_words.specs.Journal.{Journal as Notes, at_place};
ghost use Rattle.base_words.specs.declared.note.Note.TheVariants.{Shut};
ghost use Rattle.judge_fronts.specs.Certain.{IsWrongAlone};
ghost use Rattle.judge_fronts.specs.Gates.{is_told_closed};
ghost use Rattle.judge_fronts.specs.declared.gates.Close.TheVariants.{Core, Gate};

use base_words::{ActorNo, Note};
use note_facts::note_at;
use note_journal::Journal;

/// What a core closes.
#[derive(Clone, Copy)]
pub(crate) enum Close {
    /// Itself.
    Core,
    /// The gate of this sender.
    Gate(ActorNo),
}

fn closes_core(note: &Note<u64>) -> bool
    ensures { (before : Notes ℕ) → is_told_closed Core (note.now ∷ before) ≡ (result || is_told_closed Core before) }
{
    match *note {
        Note::CoreClosed(_) => true,
        _ => false,
    }
}

fn shuts(sender: ActorNo, note: &Note<u64>) -> bool
    ensures { (before : Notes ℕ) → is_told_closed (Gate sender) (note.now ∷ before) ≡ (result || is_told_closed (Gate sender) before) }
{
    match *note {
        Note::Shut(other, _) => sender.0 == other.0,
        _ => false,
    }
}

fn tells_closed(close: &Close, note: &Note<u64>) -> bool
    ensures { (before : Notes ℕ) → is_told_closed close.now (note.now ∷ before) ≡ (result || is_told_closed close.now before) }
{
    match *close {
        Close::Core => closes_core(note),
        Close::Gate(sender) => shuts(sender, note),
    }
}

/// Whether the notes before this place tell that it is closed.
fn is_closed(close: &Close, journal: &Journal<u64>, before: usize) -> bool
    requires { before ≤ length journal.now.notes }
    ensures { result ≡ is_told_closed close.now (at_place before journal.now.notes) }
{
    let mut told = false;
    for place in 0..before {
        let note = note_at(journal, place);
        if tells_closed(close, &note) {
            told = true;
        }
    }
    told
}

/// Whether the gate of this sender may not be shut behind the notes before this place, whatever others tell.
pub(crate) fn is_wrong_shut(journal: &Journal<u64>, before: usize, sender: ActorNo) -> bool
    requires { before ≤ length journal.now.notes }
    ensures right { IsTrue result → (core count : ℕ) → IsWrongAlone (λ others. RespectsCloses others core) (Shut sender count) (at_place before journal.now.notes) }
    ensures only { (core count : ℕ) → IsWrongAlone (λ others. RespectsCloses others core) (Shut sender count) (at_place before journal.now.notes) → IsTrue result }
{
    !is_closed(&Close::Core, journal, before) || is_closed(&Close::Gate(sender), journal, before)
}
