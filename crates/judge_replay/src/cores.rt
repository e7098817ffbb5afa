//! A core of which a journal is read, and which writes it anew.

ghost use Rattle.std.specs.Prelude.{◌≡◌, [], ◌∷◌, true, false};
ghost use Rattle.host_core.specs.Hosted.{IsAtRest, IsHosted};
ghost use Rattle.judge_replay.specs.Reads.{IsLawfulCore, IsSameCore, Reads, core_read};

use crate::acts::core_acts;
use crate::ahead::{Replayed, is_ahead, is_next};
use base_words::Note;
use host_core::{HostJob, Hosted};
use link_ring::Ends;
use std::marker::Model;

/// A core forgets its notes when so many of them were read.
const MOST: usize = 512;

/// A core of a house, and how many of the notes that it keeps were read.
#[derive(Drop)]
pub struct CoreReplay {
    hosted: Hosted,
    told: usize,
}

impl Model for CoreReplay {
    ghost use Rattle.judge_replay.specs.Reads.{CoreRead, IsWithin};

    ghost Value = { CoreRead };

    ghost view = { λ core. record { linked = core.hosted; told = core.told } };

    ghost invariant = { λ core. IsWithin core.hosted.recorded.journal core.told };
}

impl CoreReplay {
    /// A core of which nothing was read.
    pub fn of(hosted: Hosted) -> Self
        requires { hosted.recorded.journal.passed ≡ [] }
        ensures linked { result.linked ≡ hosted }
        ensures none { core_read result ≡ [] }
    {
        CoreReplay { hosted, told: 0 }
    }

    /// Makes the call of which the note tells, unless the core wrote notes that weren't read. Whether all showed that the call asks for.
    fn shows(&mut self, note: &Note<u64>) -> bool
        ensures same { IsSameCore self.old.linked self.new.linked }
        ensures lawful { IsLawfulCore self.old.linked → IsLawfulCore self.new.linked }
        ensures read { core_read self.new ≡ core_read self.old }
    {
        is_ahead(self.hosted.journal(), self.told) || core_acts(&mut self.hosted, note)
    }

    /// Whether the next note that the core wrote is this one. Then it was read.
    fn has_next(&mut self, note: &Note<u64>) -> bool
        ensures linked { self.new.linked ≡ self.old.linked }
        ensures read { result ≡ true → core_read self.new ≡ note.now ∷ core_read self.old }
        ensures other { result ≡ false → core_read self.new ≡ core_read self.old }
    {
        let is = is_next(self.hosted.journal(), self.told, note);
        if is {
            self.told += 1;
        }
        is
    }

    /// Forgets the notes that were read, if they are many, and all that the core keeps.
    fn tidy(&mut self)
        ensures same { IsSameCore self.old.linked self.new.linked }
        ensures lawful { IsLawfulCore self.old.linked → IsLawfulCore self.new.linked }
        ensures read { core_read self.new ≡ core_read self.old }
    {
        if self.told < MOST || is_ahead(self.hosted.journal(), self.told) {
            return;
        }
        let _count = self.hosted.forget();
        self.told = 0;
    }

    /// Reads the next note of the core.
    pub fn read(&mut self, note: &Note<u64>) -> Replayed
        ensures same { IsSameCore self.old.linked self.new.linked }
        ensures lawful { IsLawfulCore self.old.linked → IsLawfulCore self.new.linked }
        ensures reads { Reads note.now (core_read self.old) result (core_read self.new) }
    {
        if !self.shows(note) {
            return Replayed::Waits;
        }
        if !self.has_next(note) {
            return Replayed::Differs;
        }
        self.tidy();
        Replayed::Taken
    }

    /// Whether all notes that the core wrote were read, no job of it is out, and no turn is open; and its ends.
    pub(crate) fn end(self) -> (bool, Ends<HostJob>)
        ensures whole { result.0 ≡ true → core_read self ≡ self.linked.recorded.journal.notes }
        ensures rest { result.0 ≡ true → IsAtRest self.linked.recorded }
        ensures ends { result.1 ≡ self.linked.ends }
        ensures hosted { IsHosted self.linked }
    {
        let CoreReplay { hosted, told } = self;
        let whole = !is_ahead(hosted.journal(), told) && hosted.is_at_rest();
        (whole, hosted.into_ends())
    }
}
