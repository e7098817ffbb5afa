//! Where the jobs of one journal are parked.

ghost use Rattle.std.specs.Prelude.{◌≡◌, ◌<◌, ◌∷◌, ℕ, OnErr, OnOk, [], length};
ghost use Rattle.base_words.specs.Journal.{Journal};
ghost use Rattle.note_facts.specs.Limits.{greatest_count};
ghost use Rattle.note_facts.specs.Names.{SetsEntry, known};
ghost use Rattle.note_facts.specs.Parks as spec;
ghost use Rattle.note_facts.specs.Parks.{KnowsParks, awake, resting};
ghost use Rattle.note_facts.specs.Spots.{FitsSpot, park_noted, queue_noted};
ghost use Rattle.note_facts.specs.Told.{queue_told};

use crate::endings::Endings;
use crate::names::NameTable;
use crate::spots::Spot;
use crate::told::queue_told;
use base_words::{JobId, Note, QueueNo};
use std::alloc::{AllocError, Global};

/// The queue in which a job was last parked, if it wasn't woken since, and how often all parks of that queue had been ended by then.
#[derive(Clone, Copy)]
pub struct Nap {
    pub queue: Option<QueueNo>,
    pub endings: u64,
}

/// Of the notes that were read: the queue of each job, and where it is parked.
/// A note that ends the parks of many jobs is one more of a count, and changes nothing that is known of a job.
#[derive(Drop)]
pub struct Parks {
    queues: NameTable<QueueNo>,
    naps: NameTable<Nap>,
    endings: Endings,
}

impl Nap {
    /// That of a job that isn't parked.
    fn awake() -> Self
        ensures { result ≡ awake }
    {
        Nap {
            queue: None,
            endings: 0,
        }
    }
}

impl Parks {
    /// No note was read.
    pub fn new(alloc: Global) -> Self
        ensures { KnowsParks {T = ℕ} result [] }
    {
        Parks {
            queues: NameTable::new(alloc),
            naps: NameTable::new(alloc),
            endings: Endings::new(),
        }
    }

    /// Reads the next note.
    pub fn add(&mut self, note: &Note<u64>) -> Result<(), AllocError>
        ensures knows { OnOk result ((before : Journal ℕ) → length before < greatest_count → KnowsParks self.old before → KnowsParks self.new (note.now ∷ before)) }
        ensures refused { OnErr result (self.new ≡ self.old) }
    {
        self.set_told(note)?;
        self.endings.add(note);
        Ok(())
    }

    /// From now on a job has the queue or the park that the note tells. No note tells both.
    fn set_told(&mut self, note: &Note<u64>) -> Result<(), AllocError>
        ensures queues { OnOk result (SetsEntry self.old.queues self.new.queues (queue_told note.now)) }
        ensures naps { OnOk result (SetsEntry self.old.naps self.new.naps (spec.nap_told self.old note.now)) }
        ensures endings { self.new.endings ≡ self.old.endings }
        ensures refused { OnErr result (self.new ≡ self.old) }
    {
        match queue_told(note) {
            Some(entry) => self.queues.set_told(Some(entry)),
            None => {
                let nap = self.nap_told(note);
                self.naps.set_told(nap)
            }
        }
    }

    /// The queue that the job entered.
    pub fn queue_of(&self, name: &JobId) -> Option<QueueNo>
        ensures { result ≡ known self.now.queues name.now }
    {
        self.queues.get(name)
    }

    /// The queue in which the job is parked.
    pub fn park_of(&self, name: &JobId) -> Option<QueueNo>
        ensures { result ≡ resting self.now.endings (spec.nap_of self.now name.now) }
    {
        let nap = self.nap_of(name);
        let queue = nap.queue?;
        if self.endings.of(queue) == nap.endings {
            Some(queue)
        } else {
            None
        }
    }

    fn nap_of(&self, name: &JobId) -> Nap
        ensures { result ≡ spec.nap_of self.now name.now }
    {
        self.naps.get(name).unwrap_or(Nap::awake())
    }

    /// What is known from now on of a job that is parked in a queue, or outside all of them.
    fn nap_in(&self, queue: Option<QueueNo>) -> Nap
        ensures { result ≡ spec.nap_in self.now.endings queue }
    {
        let Some(queue) = queue else {
            return Nap::awake();
        };
        Nap {
            queue: Some(queue),
            endings: self.endings.of(queue),
        }
    }

    /// A job, with what is known of it once the note parks or wakes it.
    fn nap_told(&self, note: &Note<u64>) -> Option<(JobId, Nap)>
        ensures { result ≡ spec.nap_told self.now note.now }
    {
        match *note {
            Note::Park(name, _) => Some((name, self.nap_in(self.queue_of(&name)))),
            Note::Woken(name) => Some((name, Nap::awake())),
            _ => None,
        }
    }

    /// The queues of which the next note speaks.
    pub fn spot(&self, note: &Note<u64>) -> Spot
        ensures { (before : Journal ℕ) → KnowsParks self.now before → FitsSpot result note.now before }
    {
        Spot {
            queue: self.queue_noted(note),
            parked: self.park_noted(note),
        }
    }

    fn queue_noted(&self, note: &Note<u64>) -> Option<QueueNo>
        ensures { (before : Journal ℕ) → KnowsParks self.now before → result ≡ queue_noted note.now before }
    {
        match *note {
            Note::Took(_, queue) => Some(queue),
            Note::Created(queue, _) => Some(queue),
            Note::SharesSet(queue, _) => Some(queue),
            Note::QueueClosed(queue, _) => Some(queue),
            Note::Pick(queue, _) => Some(queue),
            Note::Start(name) => self.queue_of(&name),
            Note::Resume(name) => self.queue_of(&name),
            Note::Yield(name, _) => self.queue_of(&name),
            Note::Park(name, _) => self.queue_of(&name),
            Note::Stayed(name, _) => self.queue_of(&name),
            Note::Done(name, _, _) => self.queue_of(&name),
            Note::Returned(name, _) => self.queue_of(&name),
            Note::Turned(queue, _) => Some(queue),
            _ => None,
        }
    }

    fn park_noted(&self, note: &Note<u64>) -> Option<QueueNo>
        ensures { (before : Journal ℕ) → KnowsParks self.now before → result ≡ park_noted note.now before }
    {
        match *note {
            Note::Park(name, _) => self.park_of(&name),
            Note::Woken(name) => self.park_of(&name),
            _ => None,
        }
    }
}
