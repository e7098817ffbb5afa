//! What is known of the jobs that are parked.
//!
//! Memory is asked for before the notes are read, a place for each job that they park; so reading them can't fail halfway. Places of jobs
//! that woke are given back behind them, so the table grows with who is parked and not with who ever was.

ghost use Rattle.std.specs.Prelude.{◌≡◌, true, All, OnErr, OnOk, []};
ghost use Rattle.note_facts.specs.Parks as parks;
ghost use Rattle.note_sinks.specs.Naps.{has_place, nap_after, nap_under, HasPlace, IsNoPark, KeepsNaps, KeepsPlaces, RestsAlike, SetsNap};
ghost use Rattle.note_sinks.specs.Naps as spec;

use crate::places::Places;
use base_words::{JobId, Note, QueueNo};
use note_facts::endings::Endings;
use note_facts::parks::Nap;
use std::alloc::{AllocError, Global};
use std::marker::Model;

/// What is known of each job that is parked. Of any other nothing is known, though there may be a place for it.
///
/// A contract sees the list of what is known (`nap_under`).
#[derive(Drop)]
pub struct Naps {
    naps: Places<Nap>,
}

impl Model for Naps {
    ghost use Rattle.note_facts.specs.Names.{Entries};
    ghost use Rattle.note_facts.specs.declared.parks.Nap.{Nap};

    ghost Value = { Entries Nap };

    ghost view = { λ naps. naps.naps };
}

/// What is known of a job that isn't parked.
fn awake() -> Nap
    ensures { result ≡ parks.awake }
{
    Nap {
        queue: None,
        endings: 0,
    }
}

/// What is known from now on of a job that is parked in a queue, or outside all of them.
fn nap_in(endings: &Endings, queue: Option<QueueNo>) -> Nap
    ensures { result ≡ parks.nap_in endings.now queue }
{
    let Some(queue) = queue else {
        return awake();
    };
    Nap {
        queue: Some(queue),
        endings: endings.of(queue),
    }
}

/// The queue in which a job rests of which this is known.
fn resting(endings: &Endings, nap: Nap) -> Option<QueueNo>
    ensures { result ≡ parks.resting endings.now nap }
{
    let queue = nap.queue?;
    if endings.of(queue) == nap.endings {
        Some(queue)
    } else {
        None
    }
}

/// The job that may rest no more behind a note.
fn name_roused(note: &Note<u64>) -> Option<JobId>
    ensures { result ≡ spec.name_roused note.now }
{
    match *note {
        Note::Woken(name) => Some(name),
        Note::Returned(name, _) => Some(name),
        _ => None,
    }
}

impl Naps {
    /// Nothing is known yet.
    pub fn new(alloc: Global) -> Self
        ensures { result ≡ [] }
    {
        Naps {
            naps: Places::new(alloc),
        }
    }

    /// Whether there is a place for what is known of a job.
    fn has_place(&self, name: &JobId) -> bool
        ensures { result ≡ has_place self.now name.now }
    {
        self.naps.get(name).is_some()
    }

    /// What is known of a job.
    fn of(&self, name: &JobId) -> Nap
        ensures { result ≡ nap_under self.now name.now }
    {
        match self.naps.get(name) {
            Some(nap) => nap,
            None => awake(),
        }
    }

    /// The queue in which a job rests.
    pub fn park_of(&self, name: &JobId, endings: &Endings) -> Option<QueueNo>
        ensures { result ≡ parks.resting endings.now (nap_under self.now name.now) }
    {
        resting(endings, self.of(name))
    }

    /// Takes a place for what is known of a job.
    fn reserve(&mut self, name: &JobId) -> Result<(), AllocError>
        ensures naps { KeepsNaps self.old self.new }
        ensures places { KeepsPlaces self.old self.new }
        ensures ok { OnOk result (has_place self.new name.now ≡ true) }
    {
        if self.has_place(name) {
            return Ok(());
        }
        self.naps.set(name, awake())
    }

    /// Takes a place for the job that a note parks, if it parks one.
    fn reserve_for(&mut self, note: &Note<u64>) -> Result<(), AllocError>
        ensures naps { KeepsNaps self.old self.new }
        ensures places { KeepsPlaces self.old self.new }
        ensures ok { OnOk result (HasPlace self.new note.now) }
        ensures parks { OnErr result (IsNoPark note.now → ⊥) }
    {
        match *note {
            Note::Park(name, _) => self.reserve(&name),
            _ => Ok(()),
        }
    }

    /// Takes a place for each job that these notes park.
    ///
    /// # Errors
    ///
    /// `AllocError` for want of memory, only if a note parks a job. The same is known as before.
    pub fn reserve_all(&mut self, notes: &[Note<u64>]) -> Result<(), AllocError>
        ensures naps { KeepsNaps self.old self.new }
        ensures ok { OnOk result (All (HasPlace self.new) notes.now) }
        ensures parks { OnErr result (All IsNoPark notes.now → ⊥) }
    {
        for note in notes {
            self.reserve_for(note)?;
        }
        Ok(())
    }

    /// From now on this is known of the job, which has a place.
    fn set(&mut self, name: &JobId, nap: Nap)
        requires { has_place self.old name.now ≡ true }
        ensures naps { SetsNap self.old self.new name.now nap }
        ensures places { KeepsPlaces self.old self.new }
    {
        let Ok(()) = self.naps.set(name, nap) else {
            unreachable!()
        };
    }

    /// The job is awake. Its place stays.
    fn rouse(&mut self, name: &JobId)
        ensures naps { SetsNap self.old self.new name.now parks.awake }
        ensures places { KeepsPlaces self.old self.new }
    {
        if self.has_place(name) {
            self.set(name, awake());
        }
    }

    /// Reads the next note, where this queue was picked last. A job that it parks has a place.
    pub fn add(&mut self, note: &Note<u64>, picked: Option<QueueNo>, endings: &Endings)
        requires { HasPlace self.old note.now }
        ensures naps { (name : _) → nap_under self.new name ≡ nap_after endings.now picked note.now name (nap_under self.old name) }
        ensures places { KeepsPlaces self.old self.new }
    {
        match *note {
            Note::Park(name, _) => self.set(&name, nap_in(endings, picked)),
            Note::Woken(name) => self.rouse(&name),
            _ => {}
        }
    }

    /// Gives the place of a job back if the job rests nowhere.
    fn forget_if_awake(&mut self, name: &JobId, endings: &Endings)
        ensures { RestsAlike endings.now self.old self.new }
    {
        if self.park_of(name, endings).is_none() {
            self.naps.forget(name);
        }
    }

    /// Gives the places back of the jobs that these notes woke or handed back.
    pub fn forget_all(&mut self, notes: &[Note<u64>], endings: &Endings)
        ensures { RestsAlike endings.now self.old self.new }
    {
        for note in notes {
            if let Some(name) = name_roused(note) {
                self.forget_if_awake(&name, endings);
            }
        }
    }
}
