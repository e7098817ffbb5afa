//! How far the clock of a core went under the name of a job, from one note to another.

ghost use Rattle.std.specs.Prelude.{◌≡◌, ℕ, [], OnErr, OnOk, Option};
ghost use Rattle.base_words.specs.declared.names.JobId.{JobId as Name};
ghost use Rattle.base_words.specs.declared.note.Note as note;
ghost use Rattle.note_facts.specs.Names.{known};
ghost use Rattle.judge_view.specs.Spans as spec;

use crate::clocks::CoreTime;
use base_words::JobId;
use note_facts::NameTable;
use std::alloc::{AllocError, Global};

/// How far the clock of a core went under the name of a job: so many turns, and so much processor time in nanoseconds.
#[derive(Clone, Copy)]
pub struct Span {
    pub name: JobId,
    pub turns: u64,
    pub time: u128,
}

/// From one clock to a later one.
fn span_between(name: JobId, from: &CoreTime, to: &CoreTime) -> Span
    ensures { result ≡ spec.span name from.now to.now }
{
    Span {
        name,
        turns: to.turns.saturating_sub(from.turns),
        time: to.time.saturating_sub(from.time),
    }
}

/// A name, with the clock at which its span begins.
fn began_at(now: &CoreTime, begins: Option<JobId>) -> Option<(JobId, CoreTime)>
    ensures { result ≡ spec.began_at now.now begins }
{
    match begins {
        Some(name) => Some((name, *now)),
        None => None,
    }
}

/// Of the notes that were read: the clock at which the span of each name begins, and the spans that ended.
#[derive(Drop)]
pub struct Spans {
    began: NameTable<CoreTime>,
    ended: Vec<Span>,
}

impl Spans {
    /// No note was read.
    pub fn new(alloc: Global) -> Self
        ensures { (begins ends : note.Note ℕ → Option Name) → spec.KnowsSpans begins ends result [] }
    {
        Spans {
            began: NameTable::new(alloc),
            ended: Vec::new(alloc),
        }
    }

    /// Reads the next note, behind which this clock stands. It may end the span of a name, and begin that of a name.
    pub fn add(
        &mut self,
        now: &CoreTime,
        begins: Option<JobId>,
        ends: Option<JobId>,
    ) -> Result<(), AllocError>
        ensures goes { OnOk result (spec.GoesOn self.old self.new now.now begins ends) }
        ensures refused { OnErr result (spec.AreSameSpans self.old self.new) }
    {
        let Some(span) = self.ended_by(now, ends) else {
            return self.began.set_told(began_at(now, begins));
        };
        self.ended.reserve(1)?;
        self.began.set_told(began_at(now, begins))?;
        self.ended.push_reserved(span);
        Ok(())
    }

    /// The span that ends under a name, if there is a name and its span began.
    fn ended_by(&self, now: &CoreTime, ends: Option<JobId>) -> Option<Span>
        ensures { result ≡ spec.span_ended ends (known self.now.began) now.now }
    {
        let name = ends?;
        let from = self.began.get(&name)?;
        Some(span_between(name, &from, now))
    }

    /// The spans that ended.
    pub fn into_ended(self) -> Vec<Span>
        ensures { result.items ≡ self.ended.items }
    {
        self.ended
    }
}
