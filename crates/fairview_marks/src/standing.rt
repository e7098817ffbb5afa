//! What a walk over a journal knows of its queues.

ghost use Rattle.std.specs.Prelude.{◌≡◌, ◌<◌, ◌∷◌, ℕ, [], length, OnErr, OnOk};
ghost use Rattle.base_words.specs.Bursts.{has_bursts};
ghost use Rattle.base_words.specs.Journal.{Journal as Notes};
ghost use Rattle.base_words.specs.Picks.{turns};
ghost use Rattle.note_facts.specs.Accounts.{greatest_count};
ghost use Rattle.note_stats.specs.Tallies.{tally_of};
ghost use Rattle.fairview_marks.specs.Leads as spec;

use base_words::{Note, QueueNo};
use judge_view::CoreTime;
use note_facts::{Accounts, Parks};
use note_stats::tally::{Tallies, Tally};
use std::alloc::{AllocError, Global};

/// The virtual runtimes of two queues that have work, at the beginning of a turn, and the greatest charge of each so far.
#[derive(Clone, Copy)]
pub struct Lead {
    /// Which turn of the core begins, counted from 1.
    pub turn: u64,
    pub first: u128,
    pub second: u128,
    pub first_most: u64,
    pub second_most: u64,
}

/// Of the notes that were read, where a turn may have so many polls: the clock, the queue of each job and where it is parked, and the account and the tally of each queue.
#[derive(Drop)]
pub struct Standing {
    burst: u8,
    clock: CoreTime,
    parks: Parks,
    accounts: Accounts,
    tallies: Tallies,
}

impl Standing {
    /// No note was read. A turn may have so many polls: 0 and 1 mean a single one.
    pub fn new(alloc: Global, burst: u8) -> Self
        ensures { spec.KnowsStanding {T = ℕ} burst result [] }
    {
        Standing {
            burst,
            clock: CoreTime::new(),
            parks: Parks::new(alloc),
            accounts: Accounts::new(),
            tallies: Tallies::new(),
        }
    }

    /// Reads the next note.
    ///
    /// # Errors
    ///
    /// `AllocError` for want of memory; then the note isn't read.
    pub fn add(&mut self, note: &Note<u64>) -> Result<(), AllocError>
        ensures knows { OnOk result ((burst : ℕ) (before : Notes ℕ) → length before < greatest_count → spec.KnowsStanding burst self.old before → spec.KnowsStanding burst self.new (note.now ∷ before)) }
        ensures refused { OnErr result (self.new ≡ self.old) }
    {
        let spot = self.parks.spot(note);
        self.parks.add(note)?;
        self.clock.add(note);
        self.tallies
            .add(note, &spot.queue, &self.accounts, self.burst);
        self.accounts.add(note, &spot, self.burst);
        Ok(())
    }

    /// Whether a note of its own ends a turn.
    pub fn has_bursts(&self) -> bool
        ensures { (burst : ℕ) (before : Notes ℕ) → spec.KnowsStanding burst self.now before → result ≡ has_bursts burst }
    {
        note_facts::has_bursts(self.burst)
    }

    /// How many turns of the core began.
    pub fn turns(&self) -> u64
        ensures { (burst : ℕ) (before : Notes ℕ) → spec.KnowsStanding burst self.now before → result ≡ turns before }
    {
        self.clock.turns
    }

    /// What is counted of a queue.
    pub fn tally(&self, queue: QueueNo) -> Tally
        ensures { (burst : ℕ) (before : Notes ℕ) → spec.KnowsStanding burst self.now before → result ≡ tally_of burst queue before }
    {
        self.tallies.of(queue)
    }

    /// Whether both queues have work.
    pub fn are_together(&self, first: QueueNo, second: QueueNo) -> bool
        ensures { (burst : ℕ) (before : Notes ℕ) → spec.KnowsStanding burst self.now before → result ≡ spec.are_together first second before }
    {
        self.accounts.of(first).has_jobs() && self.accounts.of(second).has_jobs()
    }

    /// The lead of two queues.
    fn lead_between(&self, first: QueueNo, second: QueueNo) -> Lead
        ensures { (burst : ℕ) (before : Notes ℕ) → length before < greatest_count → spec.KnowsStanding burst self.now before → result ≡ spec.lead burst first second before }
    {
        Lead {
            turn: self.clock.turns.saturating_add(1),
            first: self.accounts.of(first).virtual_runtime,
            second: self.accounts.of(second).virtual_runtime,
            first_most: self.tallies.of(first).greatest,
            second_most: self.tallies.of(second).greatest,
        }
    }

    /// The lead of two queues, if both have work.
    fn lead_of(&self, first: QueueNo, second: QueueNo) -> Option<Lead>
        ensures { (burst : ℕ) (before : Notes ℕ) → length before < greatest_count → spec.KnowsStanding burst self.now before → result ≡ spec.lead_of burst first second before }
    {
        if self.are_together(first, second) {
            Some(self.lead_between(first, second))
        } else {
            None
        }
    }

    /// The lead of two queues where the next note begins a turn, if both have work.
    pub fn lead(&self, first: QueueNo, second: QueueNo, note: &Note<u64>) -> Option<Lead>
        ensures { (burst : ℕ) (before : Notes ℕ) → length before < greatest_count → spec.KnowsStanding burst self.now before → result ≡ spec.lead_told burst first second note.now before }
    {
        match *note {
            Note::Pick(_, _) => self.lead_of(first, second),
            _ => None,
        }
    }
}
