//! The polls of a core as bars, and what a walk over a journal knows of them.

ghost use Rattle.std.specs.Prelude.{◌≡◌, ◌<◌, ◌∷◌, ℕ, [], length, OnErr, OnOk, IfOk};
ghost use Rattle.base_words.specs.Journal.{Journal as Notes, with_last};
ghost use Rattle.note_facts.specs.Accounts.{greatest_count};
ghost use Rattle.note_facts.specs.Names.{known};
ghost use Rattle.fairview_marks.specs.Bars as spec;

use base_words::{JobId, Note, QueueNo};
use judge_view::{CoreTime, End};
use note_facts::told::queue_told;
use note_facts::{NameTable, note_at};
use note_journal::Journal;
use std::alloc::{AllocError, Global};

/// A poll that ended, on the clock of its core's processor time. Times are nanoseconds.
#[derive(Clone, Copy)]
pub struct Bar {
    /// In which turn of the core it was, counted from 1.
    pub turn: u64,
    /// The queue of its job. It is none where the journal doesn't tell it.
    pub queue: Option<QueueNo>,
    pub name: JobId,
    /// The processor time of the polls before it.
    pub start: u128,
    /// How long it took, as it counts for its charge.
    pub time: u64,
    /// How it ended.
    pub end: End,
}

/// The poll that a note settles: its job, the time that it took, and how it ended.
pub fn settled(note: &Note<u64>) -> Option<(JobId, u64, End)>
    ensures { result ≡ spec.settled note.now }
{
    match *note {
        Note::Yield(name, time) => Some((name, time, End::Yield)),
        Note::Park(name, time) => Some((name, time, End::Park)),
        Note::Stayed(name, time) => Some((name, time, End::Stayed)),
        Note::Done(name, time, _) => Some((name, time, End::Done)),
        _ => None,
    }
}

/// Of the notes that were read: the clock, and the queue of each job.
#[derive(Drop)]
pub struct Polls {
    clock: CoreTime,
    queues: NameTable<QueueNo>,
}

impl Polls {
    /// No note was read.
    pub fn new(alloc: Global) -> Self
        ensures { spec.KnowsPolls {T = ℕ} result [] }
    {
        Polls {
            clock: CoreTime::new(),
            queues: NameTable::new(alloc),
        }
    }

    /// How far the core came.
    pub fn clock(&self) -> CoreTime
        ensures { result ≡ self.now.clock }
    {
        self.clock
    }

    /// The queue that the job entered.
    pub fn queue_of(&self, name: &JobId) -> Option<QueueNo>
        ensures { result ≡ known self.now.queues name.now }
    {
        self.queues.get(name)
    }

    /// The poll of a job that took that time, as a bar.
    pub fn bar_of(&self, name: JobId, time: u64, end: End) -> Bar
        ensures { (before : Notes ℕ) → spec.KnowsPolls self.now before → result ≡ spec.bar name time end before }
    {
        Bar {
            turn: self.clock.turns,
            queue: self.queues.get(&name),
            name,
            start: self.clock.time,
            time: base_words::clamped(time),
            end,
        }
    }

    /// Reads the next note.
    ///
    /// # Errors
    ///
    /// `AllocError` for want of memory; then the note isn't read.
    pub fn add(&mut self, note: &Note<u64>) -> Result<(), AllocError>
        ensures knows { OnOk result ((before : Notes ℕ) → length before < greatest_count → spec.KnowsPolls self.old before → spec.KnowsPolls self.new (note.now ∷ before)) }
        ensures refused { OnErr result (self.new ≡ self.old) }
    {
        self.queues.set_told(queue_told(note))?;
        self.clock.add(note);
        Ok(())
    }
}

/// The bars of a core by its journal, the oldest first: one for each poll that ended.
/// It takes as many steps for a note as the count of jobs has binary digits.
///
/// # Errors
///
/// `AllocError` for want of memory.
pub fn bars_of(alloc: Global, journal: &Journal<u64>) -> Result<Vec<Bar>, AllocError>
    ensures { IfOk result (λ bars. bars.items ≡ spec.bars journal.now.notes) }
{
    let mut polls = Polls::new(alloc);
    let mut told = Vec::new(alloc);
    for place in 0..journal.len() {
        let note = note_at(journal, place);
        if let Some((name, time, end)) = settled(&note) {
            told.push(polls.bar_of(name, time, end))?;
        }
        polls.add(&note)?;
    }
    Ok(told)
}
