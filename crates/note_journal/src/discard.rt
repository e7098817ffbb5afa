//! A sink that keeps no notes.

ghost use Rattle.std.specs.Prelude.{◌≡◌, ◌-◌, ◌^◌, [], ◌++◌, length, min};

use crate::sink::{Refused, Sink};
use base_sealed::History;
use base_words::Note;
use std::marker::Model;

/// Counts the notes that it takes, and keeps none of them. It never refuses.
///
/// A contract sees the notes that it took, the newest first.
#[derive(Drop)]
pub struct Discard {
    /// The notes that were taken, the oldest first.
    has: History<Note<u64>>,
    count: u64,
}

impl Model for Discard {
    ghost use Rattle.std.specs.Prelude.{ℕ};
    ghost use Rattle.base_words.specs.Journal.{Journal};

    ghost Value = { Journal ℕ };

    ghost use Rattle.std.specs.Prelude.{◌≡◌, ◌-◌, ◌^◌, length, min, reverse};

    ghost view = { λ discard. reverse discard.has.items };

    ghost invariant = { λ discard. discard.count ≡ min (length discard.has.items) (2 ^ 64 - 1) };
}

/// Puts these notes behind all others.
fn lengthen(has: &mut History<Note<u64>>, notes: &[Note<u64>])
    ensures { has.new.items ≡ has.old.items ++ notes.now }
{
    for note in notes {
        *has = has.with(note);
    }
}

impl Discard {
    /// No note was taken.
    pub fn new() -> Self
        ensures { result ≡ [] }
    {
        Discard {
            has: History::new(),
            count: 0,
        }
    }

    /// How many notes were taken, at most 2^64 - 1.
    pub fn count(&self) -> u64
        ensures { result ≡ min (length self.now) (2 ^ 64 - 1) }
    {
        self.count
    }
}

impl Sink for Discard {
    ghost has = { λ discard. discard };

    ghost refused = { λ discard count. ⊥ };

    fn take(&mut self, notes: &[Note<u64>]) -> Result<(), Refused> {
        lengthen(&mut self.has, notes);
        self.count = self.count.saturating_add(notes.len() as u64);
        Ok(())
    }
}
