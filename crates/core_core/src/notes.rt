//! The notes that one call makes.
ghost use Rattle.std.specs.Prelude.{◌≡◌, ◌≤◌, [], ◌∷◌, length};

use arrayvec::ArrayVec;
use base_words::Note;

/// The notes of one call, in their order: at most that of an answer and that of its effect.
pub type Notes<T> = ArrayVec<Note<T>, 2>;

#[inline(always)]
pub(crate) fn one_note<T: Copy>(note: Note<T>) -> Notes<T>
    ensures { result.items ≡ note ∷ [] }
{
    let mut notes = ArrayVec::new();
    notes.push(note);
    notes
}

pub(crate) fn two_notes<T: Copy>(first: Note<T>, second: Note<T>) -> Notes<T>
    ensures { result.items ≡ first ∷ second ∷ [] }
{
    let mut notes = ArrayVec::new();
    notes.push(first);
    notes.push(second);
    notes
}

/// The note of an answer, and behind it that of its effect, if it has one.
pub(crate) fn with_effect<T: Copy>(answer: Note<T>, mut effect: Notes<T>) -> Notes<T>
    requires { length effect.items ≤ 1 }
    ensures { result.items ≡ answer ∷ effect.items }
{
    effect.insert(0, answer);
    effect
}
