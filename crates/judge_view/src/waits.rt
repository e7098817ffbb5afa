//! How long the jobs of a core waited, and how long they ran.

ghost use Rattle.std.specs.Prelude.{◌≡◌, ◌<◌, ◌∷◌, ℕ, [], length, OnErr, OnOk, IfOk};
ghost use Rattle.base_words.specs.Filters as filters;
ghost use Rattle.base_words.specs.Journal.{Journal as Notes};
ghost use Rattle.note_facts.specs.Accounts.{greatest_count};
ghost use Rattle.judge_view.specs.Waits as spec;

use crate::clocks::CoreTime;
use crate::spans::{Span, Spans};
use base_words::{JobId, Note};
use note_facts::note_at;
use note_facts::told::name_started;
use note_journal::Journal;
use std::alloc::{AllocError, Global};

/// The spans of the jobs of one core, in the order in which they ended.
#[derive(Drop)]
pub struct JobSpans {
    /// From where a job enters its queue until its first poll begins.
    pub waits: Vec<Span>,
    /// From where its first poll begins until it is done.
    pub runs: Vec<Span>,
}

/// The job that enters a queue.
fn name_taken(note: &Note<u64>) -> Option<JobId>
    ensures { result ≡ spec.name_taken note.now }
{
    match *note {
        Note::Took(name, _) => Some(name),
        _ => None,
    }
}

/// The job that is done.
fn name_finished(note: &Note<u64>) -> Option<JobId>
    ensures { result ≡ filters.name_finished note.now }
{
    match *note {
        Note::Done(name, _, _) => Some(name),
        _ => None,
    }
}

/// Of the notes that were read: the clock, and the spans of both kinds.
#[derive(Drop)]
pub struct JobWalk {
    clock: CoreTime,
    waits: Spans,
    runs: Spans,
}

impl JobWalk {
    /// No note was read.
    pub fn new(alloc: Global) -> Self
        ensures { spec.KnowsWalk result [] }
    {
        JobWalk {
            clock: CoreTime::new(),
            waits: Spans::new(alloc),
            runs: Spans::new(alloc),
        }
    }

    /// Reads the next note. It takes as many steps as the count of jobs has binary digits.
    ///
    /// # Errors
    ///
    /// `AllocError` for want of memory; then the waits may know the note, and the rest is as it was.
    pub fn add(&mut self, note: &Note<u64>) -> Result<(), AllocError>
        ensures knows { OnOk result ((before : Notes ℕ) → length before < greatest_count → spec.KnowsWalk self.old before → spec.KnowsWalk self.new (note.now ∷ before)) }
        ensures refused { OnErr result (spec.StopsWithin self.old self.new note.now) }
    {
        let mut now = self.clock;
        now.add(note);
        self.waits.add(&now, name_taken(note), name_started(note))?;
        self.runs
            .add(&now, name_started(note), name_finished(note))?;
        self.clock = now;
        Ok(())
    }

    /// The spans of the jobs.
    pub fn into_spans(self) -> JobSpans
        ensures { (journal : Notes ℕ) → spec.KnowsWalk self journal → spec.AreSpans result journal }
    {
        let JobWalk {
            clock: _,
            waits,
            runs,
        } = self;
        JobSpans {
            waits: waits.into_ended(),
            runs: runs.into_ended(),
        }
    }
}

/// How long the jobs of a core waited, and how long they ran, by its journal.
///
/// # Errors
///
/// `AllocError` for want of memory.
pub fn job_spans(alloc: Global, journal: &Journal<u64>) -> Result<JobSpans, AllocError>
    ensures waits { IfOk result (λ spans. spans.waits.items ≡ spec.waits journal.now.notes) }
    ensures runs { IfOk result (λ spans. spans.runs.items ≡ spec.runs journal.now.notes) }
{
    let mut walk = JobWalk::new(alloc);
    for place in 0..journal.len() {
        let note = note_at(journal, place);
        walk.add(&note)?;
    }
    Ok(walk.into_spans())
}
