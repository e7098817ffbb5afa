//! How often all parks of a queue were ended.

ghost use Rattle.std.specs.Prelude.{◌≡◌, ℕ};
ghost use Rattle.note_facts.specs.Endings.{CountsEndings, core_ended, endings_of, queue_ended};

use base_words::{Mode, Note, QueueNo};

/// Of the notes that were read: how often each queue was closed in mode `Return`, and how often the core.
#[derive(Drop)]
pub struct Endings {
    queues: [u64; 256],
    core: u64,
}

/// The queue that a note closes in mode `Return`.
fn queue_ended(note: &Note<u64>) -> Option<QueueNo>
    ensures { result ≡ queue_ended note.now }
{
    match *note {
        Note::QueueClosed(queue, Mode::Return) => Some(queue),
        _ => None,
    }
}

/// Whether a note closes the core in mode `Return`.
pub fn core_ended(note: &Note<u64>) -> bool
    ensures { result ≡ core_ended note.now }
{
    match *note {
        Note::CoreClosed(Mode::Return) => true,
        _ => false,
    }
}

impl Endings {
    /// No note was read.
    pub fn new() -> Self
        ensures { (queue : ℕ) → endings_of result queue ≡ 0 }
    {
        Endings {
            queues: [0; 256],
            core: 0,
        }
    }

    /// How often all parks of a queue were ended.
    pub fn of(&self, queue: QueueNo) -> u64
        ensures { result ≡ endings_of self.now queue }
    {
        self.queues[queue.0 as usize].saturating_add(self.core)
    }

    /// Reads the next note.
    pub fn add(&mut self, note: &Note<u64>)
        ensures { CountsEndings self.old self.new note.now }
    {
        if let Some(queue) = queue_ended(note) {
            let index = queue.0 as usize;
            self.queues[index] = self.queues[index].saturating_add(1);
        }
        if core_ended(note) {
            self.core = self.core.saturating_add(1);
        }
    }
}
