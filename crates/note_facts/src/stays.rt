//! Which jobs of one journal stay in their lines where they ask to be parked.

ghost use Rattle.std.specs.Prelude.{◌≡◌, ◌||◌, ◌∷◌, ℕ, OnErr, OnOk, Some, [], false, get_or, unwrap_or};
ghost use Rattle.base_words.specs.declared.names.JobId.{JobId as Name};
ghost use Rattle.base_words.specs.Closing.{core_mode_told, mode_told};
ghost use Rattle.base_words.specs.Journal.{Journal};
ghost use Rattle.base_words.specs.Parks.{is_parked, is_return, name_woken};
ghost use Rattle.note_facts.specs.Names.{known};
ghost use Rattle.note_facts.specs.Stays.{KnowsStays, hands_back_after, kept_told, queue_hands_back};

use crate::names::NameTable;
use base_words::{JobId, Mode, Note, QueueNo};
use std::alloc::{AllocError, Global};

/// Of the notes that were read: the jobs of which a wake is kept, and which queues hand back what is inside, or whether the core does.
#[derive(Drop)]
pub struct Stays {
    kept: NameTable<bool>,
    queues: [bool; 256],
    core: bool,
}

/// Whether what is inside is handed back in this mode.
fn is_return(mode: Mode) -> bool
    ensures { result ≡ is_return mode }
{
    match mode {
        Mode::Finish => false,
        Mode::Return => true,
    }
}

/// A job, with what a note tells of a kept wake of it. It is parked before the note, or not.
fn kept_told(note: &Note<u64>, parked: bool) -> Option<(JobId, bool)>
    ensures { result ≡ kept_told parked note.now }
{
    match *note {
        Note::Woken(name) => if parked { None } else { Some((name, true)) },
        Note::Stayed(name, _) => Some((name, false)),
        _ => None,
    }
}

impl Stays {
    /// No note was read.
    pub fn new(alloc: Global) -> Self
        ensures { KnowsStays {T = ℕ} result [] }
    {
        Stays {
            kept: NameTable::new(alloc),
            queues: [false; 256],
            core: false,
        }
    }

    /// Reads the next note, whose job is parked before it, or not.
    pub fn add(&mut self, note: &Note<u64>, parked: bool) -> Result<(), AllocError>
        ensures knows { OnOk result ((before : Journal ℕ) → ((name : Name) → name_woken note.now ≡ Some name → parked ≡ is_parked name before) → KnowsStays self.old before → KnowsStays self.new (note.now ∷ before)) }
        ensures refused { OnErr result (self.new ≡ self.old) }
    {
        self.kept.set_told(kept_told(note, parked))?;
        self.close(note);
        Ok(())
    }

    /// A note may close a queue, or the core.
    fn close(&mut self, note: &Note<u64>)
        ensures queues { (queue : ℕ) → get_or self.new.queues queue false ≡ hands_back_after (mode_told queue note.now) (get_or self.old.queues queue false) }
        ensures core { self.new.core ≡ hands_back_after (core_mode_told note.now) self.old.core }
        ensures kept { self.new.kept ≡ self.old.kept }
    {
        match *note {
            Note::QueueClosed(queue, mode) => self.queues[queue.0 as usize] = is_return(mode),
            Note::CoreClosed(mode) => self.core = is_return(mode),
            _ => {}
        }
    }

    /// Whether a job of this queue, if of any, stays in its line where it asks to be parked.
    pub fn of(&self, name: &JobId, queue: Option<QueueNo>) -> bool
        ensures { result ≡ (unwrap_or (known self.now.kept name.now) false || queue_hands_back self.now queue) }
    {
        self.is_kept(name) || self.hands_back(queue)
    }

    fn is_kept(&self, name: &JobId) -> bool
        ensures { result ≡ unwrap_or (known self.now.kept name.now) false }
    {
        self.kept.get(name).unwrap_or(false)
    }

    fn hands_back(&self, queue: Option<QueueNo>) -> bool
        ensures { result ≡ queue_hands_back self.now queue }
    {
        match queue {
            Some(queue) => self.queues[queue.0 as usize] || self.core,
            None => false,
        }
    }
}
