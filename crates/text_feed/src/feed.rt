//! Tells the notes of one actor's journal, one by one.

ghost use Rattle.std.specs.Prelude.{◌≡◌, ◌++◌, ℕ, List, [], None, Ok, IfErr, IfOk, OnErr, length};
ghost use Rattle.std.specs.Io.KnownBytes.{Consumes, IsAtEnd};
ghost use Rattle.text_bytes.specs.Tries.{HasFailedSince};
ghost use Rattle.text_feed.specs.Faults.{IfFaulty, IfRead};
ghost use Rattle.text_feed.specs.Feeds as spec;

use crate::fault::FeedError;
use crate::intake::Intake;
use crate::turn::next_notes;
use base_sealed::History;
use base_words::{ActorNo, Note};
use std::alloc::Global;
use std::marker::Model;
use text_bytes::Source;

/// The notes of one actor's journal, read from the bytes of its parts. It has the notes of one part in memory, and the bytes that were read
/// behind it.
///
/// A contract sees a `FeedView`: the source, the actor, all bytes that were read, and the notes told so far, the newest first.
#[derive(Drop)]
pub struct Feed<S> {
    alloc: Global,
    actor: ActorNo,
    intake: Intake<S>,
    /// The notes of the part at hand. Those behind `at` are not yet told.
    part: Vec<Note<u64>>,
    at: usize,
    /// How many notes the parts have that were read, that at hand with them.
    before: u64,
    /// The notes that were told, the oldest first.
    told: History<Note<u64>>,
}

impl<S> Model for Feed<S> {
    ghost use Rattle.std.specs.Prelude.{reverse};
    ghost use Rattle.text_feed.specs.Feeds.{FeedView, IsFeed};

    ghost Value = { FeedView S };

    ghost view = { λ f. record { source = f.intake.source; actor = f.actor; got = f.intake.got; told = reverse f.told.items } };

    ghost invariant = { λ f. IsFeed f.actor f.intake.got f.intake.rest f.told.items f.part.items f.at f.before };
}

impl<S: Source> Feed<S> {
    /// Before the first note. Nothing is read yet.
    pub fn open(alloc: Global, actor: ActorNo, source: S) -> Self
        ensures { result ≡ record { source = source; actor = actor; got = []; told = [] } }
    {
        Feed {
            alloc,
            actor,
            intake: Intake::new(alloc, source),
            part: Vec::new(alloc),
            at: 0,
            before: 0,
            told: History::new(),
        }
    }

    /// How many notes were told.
    pub fn count(&self) -> u64
        ensures { result ≡ length self.now.told }
    {
        self.before - (self.part.len() - self.at) as u64
    }

    /// The next note of the journal. None at the end of the source. A further call then asks the source again.
    ///
    /// # Errors
    ///
    /// What stands behind the last part is no part, or one that may not come next (`Faulty`), a failed read or 1000 interrupted ones in a
    /// row (`Read`), want of memory (`Memory`). No note is told then, and a further call tries again.
    pub fn next(&mut self) -> Result<Option<Note<u64>>, FeedError>
        ensures told { IfOk result (λ found. self.new.told ≡ spec.with_next found self.old.told) }
        ensures whole { result ≡ Ok None → spec.TellJournal self.new.actor self.new.got self.new.told × IsAtEnd (S.remaining self.new.source) }
        ensures front { spec.IsTold self.new }
        ensures actor { self.new.actor ≡ self.old.actor }
        ensures reads { (taken : List ℕ) × Consumes (S.remaining self.old.source) (S.remaining self.new.source) taken × (self.new.got ≡ self.old.got ++ taken) }
        ensures refused { OnErr result (self.new.told ≡ self.old.told) }
        ensures faulty { IfErr result (IfFaulty (λ cause. spec.IsFaulty S.remaining cause self.new)) }
        ensures failed { IfErr result (IfRead (HasFailedSince S.tries S.interrupts S.fails self.old.source self.new.source)) }
    {
        if self.at < self.part.len() {
            let note = self.part[self.at];
            self.at += 1;
            self.told = self.told.with(&note);
            return Ok(Some(note));
        }
        match next_notes(self.alloc, self.actor, self.before, &mut self.intake) {
            Ok(Some(notes)) => {
                let note = notes[0];
                self.before += notes.len() as u64;
                self.part = notes;
                self.at = 1;
                self.told = self.told.with(&note);
                Ok(Some(note))
            }
            Ok(None) => Ok(None),
            Err(error) => Err(error),
        }
    }
}
