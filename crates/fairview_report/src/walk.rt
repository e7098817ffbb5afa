//! What is told of the journal of one core, note by note.

ghost use Rattle.std.specs.Prelude.{◌<◌, ◌∷◌, ℕ, [], length, OnErr, OnOk};
ghost use Rattle.base_words.specs.declared.note.Note.{Note};
ghost use Rattle.base_words.specs.Journal.{Journal as Notes};
ghost use Rattle.note_facts.specs.Accounts.{greatest_count};

use base_words::Note;
use fairview_lag::CoreLags;
use judge_view::{CoreShares, JobSpans, JobWalk};
use std::alloc::{AllocError, Global};

/// Reads the journal of one core note by note, and keeps none of them.
///
/// `knows` says which notes a walk has read, where a turn may have so many polls. `tells` says the same of what comes of it. `stops` says what a
/// walk still knows that found no memory for a note.
pub trait CoreWalk: Drop {
    /// What comes of the whole journal.
    type Told: Drop;

    ghost knows: { Self → ℕ → Notes ℕ → Type 0 };

    ghost tells: { Self.Told → ℕ → Notes ℕ → Type 0 };

    ghost stops: { Self → Self → Note ℕ → Type 0 };

    /// No note was read. A turn may have so many polls.
    fn start(alloc: Global, burst: u8) -> Self
        ensures { knows result burst [] };

    /// Reads the next note, unless there is no memory.
    fn read(&mut self, note: &Note<u64>) -> Result<(), AllocError>
        ensures read { OnOk result ((burst : ℕ) (before : Notes ℕ) → length before < greatest_count → knows self.old burst before → knows self.new burst (note.now ∷ before)) }
        ensures refused { OnErr result (stops self.old self.new note.now) };

    /// All notes were read.
    fn into_told(self) -> Self::Told
        ensures { (burst : ℕ) (journal : Notes ℕ) → knows self burst journal → tells result burst journal };
}

/// The shares of a core's queues.
impl CoreWalk for CoreShares {
    type Told = CoreShares;

    ghost use Rattle.judge_view.specs.Watches.{KnowsShares};

    ghost knows = { λ shares burst journal. KnowsShares burst shares journal };

    ghost tells = { λ shares burst journal. KnowsShares burst shares journal };

    ghost use Rattle.std.specs.Prelude.{◌≡◌};

    ghost stops = { λ old new note. new ≡ old };

    fn start(alloc: Global, burst: u8) -> CoreShares {
        CoreShares::new(alloc, burst)
    }

    fn read(&mut self, note: &Note<u64>) -> Result<(), AllocError> {
        self.add(note)
    }

    fn into_told(self) -> CoreShares {
        self
    }
}

/// How long a core's jobs waited and ran.
impl CoreWalk for JobWalk {
    type Told = JobSpans;

    ghost use Rattle.judge_view.specs.Waits.{AreSpans, KnowsWalk, StopsWithin};

    ghost knows = { λ walk burst journal. KnowsWalk walk journal };

    ghost tells = { λ spans burst journal. AreSpans spans journal };

    ghost stops = { λ old new note. StopsWithin old new note };

    fn start(alloc: Global, _burst: u8) -> JobWalk {
        JobWalk::new(alloc)
    }

    fn read(&mut self, note: &Note<u64>) -> Result<(), AllocError> {
        self.add(note)
    }

    fn into_told(self) -> JobSpans {
        self.into_spans()
    }
}

/// The lags of each two queues of a core.
impl CoreWalk for CoreLags {
    type Told = CoreLags;

    ghost use Rattle.fairview_lag.specs.PairWalks.{IsSame, KnowsLags};

    ghost knows = { λ lags burst journal. KnowsLags burst lags journal };

    ghost tells = { λ lags burst journal. KnowsLags burst lags journal };

    ghost stops = { λ old new note. IsSame old new };

    fn start(alloc: Global, burst: u8) -> CoreLags {
        CoreLags::new(alloc, burst)
    }

    fn read(&mut self, note: &Note<u64>) -> Result<(), AllocError> {
        self.add(note)
    }

    fn into_told(self) -> CoreLags {
        self
    }
}
