//! Where a journal passes its notes on to.

ghost use Rattle.std.specs.Prelude.{◌≡◌, ◌++◌, ℕ, List, [], Option, None, length, reverse, OnErr, OnOk};
ghost use Rattle.base_words.specs.declared.note.Note.{Note};
ghost use Rattle.note_journal.specs.Passing.{IsAsked, KeepsRefusals};

use base_words::Note;

/// The sink takes no more notes.
#[derive(Clone, Copy, PartialEq, Eq, Debug, Drop)]
pub struct Refused;

/// What takes the notes that a journal passes on.
///
/// `has` is the notes that it took, the newest first. `refused` says that it refused when it had so many. A sink that never refuses says so by
/// a `refused` that never holds. `asks` is how often it was asked to take notes, if the sink counts that: so who is to ask any sink does ask it.
/// `mark` is a number that it bears for good, if it bears one: so a contract can tell which of several sinks it is.
pub trait Sink: Drop {
    ghost has: { Self → List (Note ℕ) };

    ghost refused: { Self → ℕ → Type 0 };

    ghost asks: { Self → Option ℕ } = { λ sink. None };

    ghost mark: { Self → ℕ } = { λ sink. 0 };

    /// Takes these notes, the oldest first, or none of them.
    fn take(&mut self, notes: &[Note<u64>]) -> Result<(), Refused>
        ensures ok { OnOk result (has self.new ≡ reverse notes.now ++ has self.old) }
        ensures err { OnErr result (has self.new ≡ has self.old) }
        ensures told { OnErr result (refused self.new (length (has self.old))) }
        ensures refusals { KeepsRefusals refused self.old self.new }
        ensures asked { IsAsked (asks self.old) (asks self.new) }
        ensures marked { mark self.new ≡ mark self.old };
}

/// A sink that takes nothing, so that a journal stays whole. It has no bytes.
#[derive(Clone, Copy, Drop)]
pub struct Whole;

impl Sink for Whole {
    ghost has = { λ sink. [] };

    ghost refused = { λ sink count. count ≡ 0 };

    fn take(&mut self, notes: &[Note<u64>]) -> Result<(), Refused> {
        let _notes = notes;
        Err(Refused)
    }
}
