//! The sink.

ghost use Rattle.std.specs.Prelude.{◌≡◌, ◌+◌, ◌-◌, ◌^◌, ◌++◌, ℕ, [], None, IsErr, OnErr, OnOk, length, min, reverse, true, false};
ghost use Rattle.base_words.specs.Journal.{EachNote};
ghost use Rattle.judge_sink.specs.Judged.{IsJudged};
ghost use Rattle.judge_sink.specs.Judging.{AreGood, terms_in};
ghost use Rattle.judge_sink.specs.Opens.{OpensJudging};
ghost use Rattle.judge_sink.specs.Sinks.{HasReason, HasRefused, IsRefused, all_asks};
ghost use Rattle.note_journal.specs.Passing.{IsAsked, KeepsRefusals};

use crate::judge::Judge;
use base_sealed::History;
use base_words::{CoreNo, Note};
use host_house::OpenError;
use note_journal::{Refused, Sink};
use std::alloc::Global;
use std::marker::Model;

/// Why a sink wasn't opened. The inner sink comes back.
#[derive(Drop)]
pub enum JudgingError<S> {
    /// A number is out of its range.
    BadConfig(S),
    /// There is no memory.
    Memory(S),
}

/// Judges the notes of its own core before the inner sink takes them, in memory that stays the same.
///
/// It does again on a core of its own what the notes tell. A note that no core writes there it refuses, and all that come after it for good:
/// what its own core has done can't be undone, so it couldn't judge them. For the same reason it refuses all notes once the inner sink has refused
/// some. Who wants to try a sink again puts what tries again inside.
///
/// Which outcome another core gave is for its own journal to tell.
#[derive(Drop)]
pub struct Judging<S: Sink> {
    inner: S,
    judge: Judge,
    /// Whether it takes notes.
    goes_on: bool,
    /// The number of the first note that was wrong.
    fault: Option<u64>,
    /// How many notes the inner sink took.
    count: u64,
    /// Each refusal for which the inner sink wasn't asked.
    unasked: History<u8>,
}

impl<S: Sink> Model for Judging<S> {
    ghost use Rattle.std.specs.Prelude.{◌≡◌, length};
    ghost use Rattle.judge_sink.specs.Sinks.{IsJudging, JudgingView, counted};

    ghost Value = { JudgingView S };

    ghost view = { λ s. record { inner = s.inner; terms = s.judge.terms; goes_on = s.goes_on; fault = s.fault; unasked = length s.unasked.items } };

    ghost invariant = { λ s.
        IsJudging S.has S.refused s.judge (record { inner = s.inner; terms = s.judge.terms; goes_on = s.goes_on; fault = s.fault; unasked = length s.unasked.items }) × (s.count ≡ counted (length (S.has s.inner))) };
}

/// The number of the note of this place behind so many others.
fn number_at(count: u64, place: usize) -> u64
    ensures { result ≡ min (count + place + 1) (2 ^ 64 - 1) }
{
    count.saturating_add(place as u64).saturating_add(1)
}

impl<S: Sink> Judging<S> {
    /// Judges the notes of this core, in a house of so many cores, so many places for submissions on each link, and turns of so many polls.
    ///
    /// # Errors
    ///
    /// `BadConfig` for a number that is out of its range, else `Memory`.
    pub fn try_new(
        alloc: Global,
        core: CoreNo,
        cores: u8,
        cap: u16,
        burst: u8,
        inner: S,
    ) -> Result<Self, JudgingError<S>>
        requires fresh { S.has inner ≡ [] }
        ensures { OpensJudging core cores cap burst inner result }
    {
        match Judge::open(alloc, core, cores, cap, burst) {
            Ok(judge) => Ok(Judging {
                inner,
                judge,
                goes_on: true,
                fault: None,
                count: 0,
                unasked: History::new(),
            }),
            Err(OpenError::BadConfig) => Err(JudgingError::BadConfig(inner)),
            Err(OpenError::Memory) => Err(JudgingError::Memory(inner)),
        }
    }

    /// Whether it takes notes: no note was wrong, and the inner sink refused none.
    pub fn goes_on(&self) -> bool
        ensures value { result ≡ self.now.goes_on }
        ensures lawful { IsJudged self.now.terms (S.has self.now.inner) }
        ensures why { result ≡ false → HasReason S.has S.refused self.now }
    {
        self.goes_on
    }

    /// The number of the first note that no core writes there, counted from 1, once there was one.
    pub fn fault(&self) -> Option<u64>
        ensures value { result ≡ self.now.fault }
        ensures lawful { IsJudged self.now.terms (S.has self.now.inner) }
    {
        self.fault
    }

    /// The inner sink. What is judged of its notes is lawful.
    pub fn inner(&self) -> &S
        ensures value { result.now ≡ self.now.inner }
        ensures lawful { IsJudged self.now.terms (S.has self.now.inner) }
    {
        &self.inner
    }

    /// The inner sink, where no more is to be judged. What is judged of its notes is lawful.
    pub fn into_inner(self) -> S
        ensures value { result ≡ self.inner }
        ensures lawful { IsJudged self.terms (S.has self.inner) }
    {
        self.inner
    }

    /// Counts a refusal for which the inner sink isn't asked.
    fn refuse(&mut self) -> Result<(), Refused>
        ensures same { self.new ≡ record self.old { unasked = self.old.unasked + 1 } }
        ensures err { IsErr result }
    {
        self.unasked = self.unasked.with(&0);
        Err(Refused)
    }
}

impl<S: Sink> Sink for Judging<S> {
    ghost has = { λ s. S.has s.inner };

    ghost refused = { λ s count. HasRefused S.has S.refused s count };

    ghost asks = { λ s. all_asks (S.asks s.inner) s.unasked };

    ghost mark = { λ s. S.mark s.inner };

    fn take(&mut self, notes: &[Note<u64>]) -> Result<(), Refused>
        ensures ok { OnOk result (S.has self.new.inner ≡ reverse notes.now ++ S.has self.old.inner) }
        ensures err { OnErr result (S.has self.new.inner ≡ S.has self.old.inner) }
        ensures told { OnErr result (HasRefused S.has S.refused self.new (length (S.has self.old.inner))) }
        ensures refusals { (count : ℕ) → HasRefused S.has S.refused self.old count → HasRefused S.has S.refused self.new count }
        ensures asked { IsAsked (all_asks (S.asks self.old.inner) self.old.unasked) (all_asks (S.asks self.new.inner) self.new.unasked) }
        ensures marked { S.mark self.new.inner ≡ S.mark self.old.inner }
        // What is judged of the notes that were taken is lawful.
        ensures lawful { IsJudged self.new.terms (S.has self.new.inner) }
        ensures terms { self.new.terms ≡ self.old.terms }
        ensures goes_on { OnOk result ((self.old.goes_on ≡ true) × (self.new ≡ record self.old { inner = self.new.inner })) }
        // A refusal has one of three reasons, and is for good.
        ensures why { OnErr result (IsRefused S.has S.refused self.old notes.now self.new) }
        ensures stops { OnErr result (self.new.goes_on ≡ false) }
    {
        if !self.goes_on {
            return self.refuse();
        }
        if let Some(place) = self.judge.first_fault(notes) {
            self.goes_on = false;
            self.fault = Some(number_at(self.count, place));
            return self.refuse();
        }
        if self.inner.take(notes).is_err() {
            self.goes_on = false;
            return Err(Refused);
        }
        self.count = self.count.saturating_add(notes.len() as u64);
        Ok(())
    }
}
