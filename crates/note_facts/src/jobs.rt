//! What is known of the jobs of one journal.

ghost use Rattle.std.specs.Prelude.{◌≡◌, ℕ, ◌<◌, ◌≤◌, ◌∷◌, OnOk, Some, [], length};
ghost use Rattle.base_words.specs.declared.names.JobId.{JobId as Name};
ghost use Rattle.base_words.specs.Commands.{stays_in_line};
ghost use Rattle.base_words.specs.Journal.{Journal};
ghost use Rattle.base_words.specs.Parks.{is_parked, name_woken};
ghost use Rattle.note_facts.specs.Jobs.{KnowsJobs};
ghost use Rattle.note_facts.specs.Limits.{greatest_count};
ghost use Rattle.note_facts.specs.Names.{has_name};
ghost use Rattle.note_facts.specs.Parks.{is_same_queue};

use crate::parks::Parks;
use crate::sets::NameSet;
use crate::stays::Stays;
use crate::told::{name_ended, name_started};
use base_words::{JobId, Note, QueueNo};
use std::alloc::{AllocError, Global};

/// Of the notes that were read: the queue of each job and where it is parked, which jobs stay in their lines, which were polled, and which
/// ended.
#[derive(Drop)]
pub struct Jobs {
    pub parks: Parks,
    stays: Stays,
    started: NameSet,
    ended: NameSet,
}

/// Whether it is the same queue, if there are two.
fn is_same_queue(one: Option<QueueNo>, other: Option<QueueNo>) -> bool
    ensures { result ≡ is_same_queue one other }
{
    match one {
        Some(queue) => match other {
            Some(second) => queue.0 == second.0,
            None => false,
        },
        None => false,
    }
}

impl Jobs {
    /// No note was read.
    pub fn new(alloc: Global) -> Self
        ensures { KnowsJobs {T = ℕ} result [] }
    {
        Jobs {
            parks: Parks::new(alloc),
            stays: Stays::new(alloc),
            started: NameSet::new(alloc),
            ended: NameSet::new(alloc),
        }
    }

    /// Reads the next note. After an error nothing is known any more.
    pub fn add(&mut self, note: &Note<u64>) -> Result<(), AllocError>
        ensures { OnOk result ((before : Journal ℕ) → length before < greatest_count → KnowsJobs self.old before → KnowsJobs self.new (note.now ∷ before)) }
    {
        let parked = self.wakes_parked(note);
        self.parks.add(note)?;
        self.stays.add(note, parked)?;
        self.started.add(name_started(note))?;
        self.ended.add(name_ended(note))?;
        Ok(())
    }

    /// Whether the note wakes a job that is parked.
    fn wakes_parked(&self, note: &Note<u64>) -> bool
        ensures { (before : Journal ℕ) → KnowsJobs self.now before → (name : Name) → name_woken note.now ≡ Some name → result ≡ is_parked name before }
    {
        match *note {
            Note::Woken(name) => {
                is_same_queue(self.parks.queue_of(&name), self.parks.park_of(&name))
            }
            _ => false,
        }
    }

    /// Whether the job stays in its line if it asks to be parked: a wake of it is kept, or what is inside is handed back.
    pub fn stays_in_line(&self, name: &JobId) -> bool
        ensures { (before : Journal ℕ) → KnowsJobs self.now before → result ≡ stays_in_line name.now before }
    {
        self.stays.of(name, self.parks.queue_of(name))
    }

    /// Whether the job was polled.
    pub fn has_started(&self, name: &JobId) -> bool
        ensures { result ≡ has_name self.now.started name.now }
    {
        self.started.has(name)
    }

    /// Whether the job is done or was handed back.
    pub fn has_ended(&self, name: &JobId) -> bool
        ensures { result ≡ has_name self.now.ended name.now }
    {
        self.ended.has(name)
    }
}
