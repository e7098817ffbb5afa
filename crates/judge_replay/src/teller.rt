//! Who tells the journals of a house, note by note.

ghost use Rattle.std.specs.Prelude.{◌≡◌, ◌≢◌, ℕ, None, Ok, IfOk, OnErr};
ghost use Rattle.base_words.specs.Journal.{Journal};
ghost use Rattle.judge_replay.specs.Tellers.{with_next};

use base_words::{ActorNo, Note};

/// Why no note is told.
#[derive(Drop)]
pub enum Untold<E> {
    /// A part of the next note is there, and its rest may come.
    Later,
    /// None can be told.
    Failed(E),
}

/// Who tells the journals of a house, each from its own place.
///
/// `told` says what was told of an actor, the newest note first. `ends` says that nothing of it is left. `from` is what it tells from, which
/// no call changes.
pub trait Teller {
    /// Why no note can be told.
    type Error: Drop;

    ghost From: { Type 0 };

    ghost from: { Self → From };

    ghost told: { Self → ℕ → Journal ℕ };

    ghost ends: { Self → ℕ → Type 0 };

    /// The next note of this actor. None where its journal ends, as far as it is there.
    fn next(&mut self, actor: ActorNo) -> Result<Option<Note<u64>>, Untold<Self::Error>>
        ensures told { IfOk result (λ found. told self.new actor ≡ with_next found (told self.old actor)) }
        ensures untold { OnErr result (told self.new actor ≡ told self.old actor) }
        ensures ends { result ≡ Ok None → ends self.new actor }
        ensures others { (other : ℕ) → other ≢ actor → told self.new other ≡ told self.old other }
        ensures stays { (other : ℕ) → other ≢ actor → ends self.old other → ends self.new other }
        ensures same { from self.new ≡ from self.old };

    /// Whether to read on, once each journal was read as far as it is there and the others let it. `went` says whether any note was read since
    /// this was asked last.
    fn goes_on(&mut self, went: bool) -> bool
        ensures told { (actor : ℕ) → told self.new actor ≡ told self.old actor }
        ensures ends { (actor : ℕ) → ends self.old actor → ends self.new actor }
        ensures same { from self.new ≡ from self.old };
}
