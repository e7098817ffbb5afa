//! The outside actor whose journal is read, and which writes it anew.

ghost use Rattle.std.specs.Prelude.{◌≡◌, [], ◌∷◌, true, false};
ghost use Rattle.judge_replay.specs.Reads.{IsSameOutside, IsSeen, Reads, outside_read};

use crate::acts::outside_acts;
use crate::ahead::{Replayed, is_ahead, is_next};
use base_words::Note;
use host_core::HostJob;
use host_house::Outside;
use link_ring::Ends;
use std::marker::Model;

/// It forgets its notes when so many of them were read.
const MOST: usize = 512;

/// The outside actor of a house, and how many of the notes that it keeps were read.
#[derive(Drop)]
pub struct OutsideReplay {
    caller: Outside,
    told: usize,
}

impl Model for OutsideReplay {
    ghost use Rattle.judge_replay.specs.Reads.{OutsideRead, IsWithin};

    ghost Value = { OutsideRead };

    ghost view = { λ outside. record { caller = outside.caller; told = outside.told } };

    ghost invariant = { λ outside. IsWithin outside.caller.desk.journal outside.told };
}

impl OutsideReplay {
    /// An outside actor of which nothing was read.
    pub(crate) fn of(caller: Outside) -> Self
        requires { caller.desk.journal.passed ≡ [] }
        ensures caller { result.caller ≡ caller }
        ensures none { outside_read result ≡ [] }
    {
        OutsideReplay { caller, told: 0 }
    }

    /// Makes the call of which the note tells, unless the actor wrote notes that weren't read. Whether all showed that the call asks for.
    fn shows(&mut self, note: &Note<u64>) -> bool
        ensures same { IsSameOutside self.old.caller self.new.caller }
        ensures read { outside_read self.new ≡ outside_read self.old }
    {
        is_ahead(self.caller.journal(), self.told) || outside_acts(&mut self.caller, note)
    }

    /// Whether the next note that the actor wrote is this one. Then it was read.
    fn has_next(&mut self, note: &Note<u64>) -> bool
        ensures caller { self.new.caller ≡ self.old.caller }
        ensures read { result ≡ true → outside_read self.new ≡ note.now ∷ outside_read self.old }
        ensures other { result ≡ false → outside_read self.new ≡ outside_read self.old }
    {
        let is = is_next(self.caller.journal(), self.told, note);
        if is {
            self.told += 1;
        }
        is
    }

    /// Forgets the notes that were read, if they are many, and all that the actor keeps.
    fn tidy(&mut self)
        ensures same { IsSameOutside self.old.caller self.new.caller }
        ensures read { outside_read self.new ≡ outside_read self.old }
    {
        if self.told < MOST || is_ahead(self.caller.journal(), self.told) {
            return;
        }
        let _count = self.caller.forget();
        self.told = 0;
    }

    /// Reads the next note of the actor.
    pub(crate) fn read(&mut self, note: &Note<u64>) -> Replayed
        ensures same { IsSameOutside self.old.caller self.new.caller }
        ensures reads { Reads note.now (outside_read self.old) result (outside_read self.new) }
    {
        if !self.shows(note) {
            return Replayed::Waits;
        }
        if !self.has_next(note) {
            return Replayed::Differs;
        }
        self.tidy();
        Replayed::Taken
    }

    /// Whether all notes that the actor wrote were read, and its ends.
    pub(crate) fn end(self) -> (bool, Ends<HostJob>)
        ensures whole { result.0 ≡ true → outside_read self ≡ self.caller.desk.journal.notes }
        ensures ends { result.1 ≡ self.caller.ends }
        ensures seen { IsSeen self.caller }
    {
        let OutsideReplay { caller, told } = self;
        let whole = !is_ahead(caller.journal(), told);
        (whole, caller.into_ends())
    }
}
