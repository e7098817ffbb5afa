//! How journals are followed that still grow.

use base_words::Note;

/// Who follows journals: hears of each note, and says how long they are read on. No contract speaks of what it does.
pub trait Pace {
    /// A note was told. It is the next of its actor.
    fn hears(&mut self, note: &Note<u64>);

    /// Whether to read on, once each journal was read as far as it is there and the others let it. `went` says whether any note was read since
    /// this was asked last.
    fn goes_on(&mut self, went: bool) -> bool;
}
