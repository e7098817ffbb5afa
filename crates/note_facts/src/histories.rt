//! What the notes of a journal tell at each place under the name of the note there.
//!
//! A rule that judges a note asks what was told before under its name. A table by names knows it only for the place that is read now, so a
//! fact is kept for each place. The table itself stays as `past`, behind the last note.

ghost use Rattle.std.specs.Prelude.{◌∷◌, ◌≡◌, ◌+◌, ◌<◌, ℕ, IfOk, IsTrue, length, get_or};
ghost use Rattle.base_words.specs.declared.note.Note as spec;
ghost use Rattle.base_words.specs.Clauses.{name_answered};
ghost use Rattle.base_words.specs.Filters.{name_ended};
ghost use Rattle.base_words.specs.Journal.{Journal as Notes, at_place, is_told};
ghost use Rattle.note_facts.specs.Histories.{no_fact, name_asked, TellsOf, FitsPlace, IsAsCollected, IsHistory};
ghost use Rattle.note_facts.specs.Jobs.{KnowsPast};
ghost use Rattle.note_facts.specs.Spots.{FitsSpot, park_noted, queue_noted};

use crate::past::Past;
use crate::places::note_at;
use crate::spots::Spot;
use base_words::{JobId, Note, QueueNo};
use note_journal::Journal;
use std::alloc::{AllocError, Global};

/// What the notes before a note told under its name. It takes 12 bytes at most.
#[derive(Clone, Copy)]
pub struct Fact {
    /// The queue that the job entered.
    pub queue: Option<QueueNo>,
    /// The queue in which the job is parked.
    pub parked: Option<QueueNo>,
    /// Whether the job stays in its line if it asks to be parked.
    pub stays: bool,
    /// Whether the job was polled.
    pub started: bool,
    /// Whether the job was done or handed back.
    pub ended: bool,
    /// Whether the command was answered.
    pub answered: bool,
    /// Whether the outcome was redeemed.
    pub redeemed: bool,
    /// Whether the outcome that the note redeems is the one that was collected.
    pub collected: bool,
}

impl Fact {
    /// Nothing was told.
    fn none() -> Self
        ensures { result ≡ no_fact }
    {
        Fact {
            queue: None,
            parked: None,
            stays: false,
            started: false,
            ended: false,
            answered: false,
            redeemed: false,
            collected: false,
        }
    }

    /// What is known under a name.
    fn of(past: &Past, name: &JobId, collected: bool) -> Self
        ensures told { (before : Notes ℕ) → KnowsPast past.now before → TellsOf result name.now before }
        ensures collected { result.collected ≡ collected }
    {
        Fact {
            queue: past.jobs.parks.queue_of(name),
            parked: past.jobs.parks.park_of(name),
            stays: past.jobs.stays_in_line(name),
            started: past.jobs.has_started(name),
            ended: past.jobs.has_ended(name),
            answered: past.answered.has(name),
            redeemed: past.redeemed.has(name),
            collected,
        }
    }

    /// The queues of which the note speaks.
    pub fn spot(&self, note: &Note<u64>) -> Spot
        ensures { (before : Notes ℕ) → FitsPlace self.now note.now before → FitsSpot result note.now before }
    {
        Spot {
            queue: self.queue_noted(note),
            parked: self.park_noted(note),
        }
    }

    fn queue_noted(&self, note: &Note<u64>) -> Option<QueueNo>
        ensures { (before : Notes ℕ) → FitsPlace self.now note.now before → result ≡ queue_noted note.now before }
    {
        match *note {
            Note::Took(_, queue) => Some(queue),
            Note::Created(queue, _) => Some(queue),
            Note::SharesSet(queue, _) => Some(queue),
            Note::QueueClosed(queue, _) => Some(queue),
            Note::Pick(queue, _) => Some(queue),
            Note::Start(_) => self.queue,
            Note::Resume(_) => self.queue,
            Note::Yield(_, _) => self.queue,
            Note::Park(_, _) => self.queue,
            Note::Stayed(_, _) => self.queue,
            Note::Done(_, _, _) => self.queue,
            Note::Returned(_, _) => self.queue,
            Note::Turned(queue, _) => Some(queue),
            _ => None,
        }
    }

    fn park_noted(&self, note: &Note<u64>) -> Option<QueueNo>
        ensures { (before : Notes ℕ) → FitsPlace self.now note.now before → result ≡ park_noted note.now before }
    {
        match *note {
            Note::Park(_, _) => self.parked,
            Note::Woken(_) => self.parked,
            _ => None,
        }
    }

    /// What is known before a note.
    fn before(past: &Past, note: &Note<u64>) -> Self
        ensures { (before : Notes ℕ) → KnowsPast past.now before → FitsPlace result note.now before }
    {
        match name_asked(note) {
            Some(name) => Fact::of(past, &name, is_collected(past, note)),
            None => Fact::none(),
        }
    }
}

/// The name of which a note asks what was told before it.
fn name_asked(note: &Note<u64>) -> Option<JobId>
    ensures { result ≡ name_asked note.now }
{
    match *note {
        Note::Back(name, _) | Note::Returned(name, _) | Note::Answered(name, _) => Some(name),
        Note::Start(name) | Note::Resume(name) => Some(name),
        Note::Yield(name, _) | Note::Park(name, _) | Note::Stayed(name, _) => Some(name),
        Note::Woken(name) | Note::Done(name, _, _) | Note::Redeemed(name, _) => Some(name),
        _ => None,
    }
}

/// Whether the outcome that a note redeems is the one that was collected.
fn is_collected(past: &Past, note: &Note<u64>) -> bool
    ensures right { (before : Notes ℕ) → KnowsPast past.now before → IsTrue result → IsAsCollected note.now before }
    ensures only { (before : Notes ℕ) → KnowsPast past.now before → IsAsCollected note.now before → IsTrue result }
{
    match *note {
        Note::Redeemed(name, outcome) => past.is_collected(&name, &outcome),
        _ => false,
    }
}

/// A fact for each note of a journal, and what its notes tell in all.
/// Its memory is taken when it is made; the other calls ask for none, and no clause says so.
#[derive(Drop)]
pub struct History {
    facts: Vec<Fact>,
    past: Past,
}

impl History {
    /// The history of a journal. It takes as many steps for a note as the count of names has binary digits.
    ///
    /// # Errors
    ///
    /// `AllocError` for want of memory.
    pub fn of(alloc: Global, journal: &Journal<u64>) -> Result<Self, AllocError>
        ensures { IfOk result (λ history. IsHistory history journal.now.notes) }
    {
        let mut facts = Vec::with_capacity(alloc, journal.len())?;
        let mut past = Past::new(alloc);
        for place in 0..journal.len() {
            let note = note_at(journal, place);
            facts.push(Fact::before(&past, &note))?;
            past.add(&note)?;
        }
        Ok(History { facts, past })
    }

    /// What the notes before a place told under the name of the note there.
    pub fn fact(&self, place: usize) -> Fact
        ensures { (journal : Notes ℕ) (note : spec.Note ℕ) (before : Notes ℕ) → IsHistory self.now journal → place < length journal → at_place (place + 1) journal ≡ note ∷ before → FitsPlace result note before }
    {
        self.fact_at(place)
    }

    fn fact_at(&self, place: usize) -> Fact
        ensures { result ≡ get_or self.now.facts.items place no_fact }
    {
        match self.facts.get(place) {
            Some(fact) => *fact,
            None => Fact::none(),
        }
    }

    /// Whether the job was done or handed back.
    pub fn has_ended(&self, name: &JobId) -> bool
        ensures { (journal : Notes ℕ) → IsHistory self.now journal → result ≡ is_told name_ended name.now journal }
    {
        self.past.jobs.has_ended(name)
    }

    /// Whether the command was answered.
    pub fn is_answered(&self, name: &JobId) -> bool
        ensures { (journal : Notes ℕ) → IsHistory self.now journal → result ≡ is_told name_answered name.now journal }
    {
        self.past.answered.has(name)
    }
}
