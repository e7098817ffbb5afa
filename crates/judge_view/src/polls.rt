//! The polls of a core, each with its turn.

ghost use Rattle.std.specs.Prelude.{◌≡◌, ◌<◌, ◌∷◌, ℕ, [], length, OnErr, OnOk, IfOk};
ghost use Rattle.base_words.specs.Journal.{Journal as Notes, or_else, latest_told, with_last};
ghost use Rattle.note_facts.specs.Accounts.{greatest_count};
ghost use Rattle.judge_view.specs.Polls as spec;

use crate::clocks::CoreTime;
use crate::ends::{End, end_of};
use base_words::{JobId, Note, QueueNo};
use note_facts::told::poll_settled;
use note_facts::{NameTable, note_at};
use note_journal::Journal;
use std::alloc::{AllocError, Global};

/// A queue that was picked, with its virtual runtime before the poll.
#[derive(Clone, Copy)]
pub struct Picked {
    pub queue: QueueNo,
    pub virtual_runtime: u128,
}

/// A settled poll: the turn in which it ran, counted from 1, the pick of that turn, the job, which of its polls it is, counted from 1,
/// its time in nanoseconds, as the note tells it, and how it ended.
#[derive(Clone, Copy)]
pub struct Poll {
    pub turn: u64,
    pub picked: Picked,
    pub name: JobId,
    pub step: u64,
    pub time: u64,
    pub end: End,
}

/// The queue that a note picks.
fn pick_told(note: &Note<u64>) -> Option<Picked>
    ensures { result ≡ spec.pick_told note.now }
{
    match *note {
        Note::Pick(queue, virtual_runtime) => Some(Picked {
            queue,
            virtual_runtime,
        }),
        _ => None,
    }
}

/// The newer of two picks, if there is one.
fn newer(pick: Option<Picked>, before: Option<Picked>) -> Option<Picked>
    ensures { result ≡ or_else pick before }
{
    match pick {
        Some(picked) => Some(picked),
        None => before,
    }
}

/// Of the notes that were read: the turns, the newest pick, and how many polls of each job are settled.
#[derive(Drop)]
pub struct PollWalk {
    clock: CoreTime,
    picked: Option<Picked>,
    steps: NameTable<u64>,
}

impl PollWalk {
    /// No note was read.
    pub fn new(alloc: Global) -> Self
        ensures { spec.KnowsTurns result [] }
    {
        PollWalk {
            clock: CoreTime::new(),
            picked: None,
            steps: NameTable::new(alloc),
        }
    }

    /// Reads the next note, and answers the poll that it settles, if a pick stands before it.
    ///
    /// # Errors
    ///
    /// `AllocError` for want of memory; then the note isn't read.
    pub fn add(&mut self, note: &Note<u64>) -> Result<Option<Poll>, AllocError>
        ensures tells { IfOk result (λ poll. (before : Notes ℕ) → length before < greatest_count → spec.KnowsTurns self.old before → spec.TellsPoll poll self.new note.now before) }
        ensures refused { OnErr result (self.new ≡ self.old) }
    {
        let poll = self.settle_told(poll_settled(note), end_of(note))?;
        self.clock.add(note);
        self.picked = newer(pick_told(note), self.picked);
        Ok(poll)
    }

    /// A poll of a job is settled, if there is one.
    fn settle_told(
        &mut self,
        told: Option<(JobId, u64)>,
        end: End,
    ) -> Result<Option<Poll>, AllocError>
        ensures told { IfOk result (λ poll. spec.SettlesTold self.old self.new told end poll) }
        ensures refused { OnErr result (self.new ≡ self.old) }
    {
        let Some((name, time)) = told else {
            return Ok(None);
        };
        self.settle(name, time, end)
    }

    /// A poll of this job is settled.
    fn settle(&mut self, name: JobId, time: u64, end: End) -> Result<Option<Poll>, AllocError>
        ensures settles { IfOk result (λ poll. spec.Settles self.old self.new name time end poll) }
        ensures refused { OnErr result (self.new ≡ self.old) }
    {
        let step = self.steps.get(&name).unwrap_or(0).saturating_add(1);
        self.steps.set(name, step)?;
        let Some(picked) = self.picked else {
            return Ok(None);
        };
        let turn = self.clock.turns;
        Ok(Some(Poll {
            turn,
            picked,
            name,
            step,
            time,
            end,
        }))
    }
}

/// Puts a poll behind the others, if there is one.
fn push_poll(polls: &mut Vec<Poll>, poll: Option<Poll>) -> Result<(), AllocError>
    ensures { OnOk result (polls.new.items ≡ with_last polls.old.items poll) }
{
    if let Some(poll) = poll {
        polls.push(poll)?;
    }
    Ok(())
}

/// The settled polls of a core that has picked, by its journal, the oldest first.
///
/// # Errors
///
/// `AllocError` for want of memory.
pub fn settled_polls(alloc: Global, journal: &Journal<u64>) -> Result<Vec<Poll>, AllocError>
    ensures { IfOk result (λ polls. polls.items ≡ spec.polls journal.now.notes) }
{
    let mut walk = PollWalk::new(alloc);
    let mut told = Vec::new(alloc);
    for place in 0..journal.len() {
        let note = note_at(journal, place);
        let poll = walk.add(&note)?;
        push_poll(&mut told, poll)?;
    }
    Ok(told)
}
