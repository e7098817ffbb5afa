//! Queues that were told one after another.

ghost use Rattle.std.specs.Prelude.{◌≡◌, ◌⊎◌, ◌<◌, ℕ};
ghost use Rattle.note_facts.specs.Recent.{Holds, queue_at, size};

use base_words::QueueNo;

/// Queues that were told one after another, some of them perhaps again. Where more than 256 were told, it stands for all queues.
/// So a walk over them takes a step for each that was told, and no more than 256.
#[derive(Clone, Copy)]
pub struct Recent {
    queues: [QueueNo; 256],
    told: usize,
}

impl Recent {
    /// No queue was told.
    pub fn new() -> Self
        ensures { (queue : ℕ) → Holds result queue → ⊥ }
    {
        Recent {
            queues: [QueueNo(0); 256],
            told: 0,
        }
    }

    /// A queue is told.
    pub fn add(&mut self, queue: QueueNo)
        ensures { (other : ℕ) → other < 256 → Holds self.old other ⊎ (other ≡ queue) → Holds self.new other }
    {
        if self.told < 256 {
            self.queues[self.told] = queue;
        }
        self.told = self.told.min(256) + 1;
    }

    /// Forgets all.
    pub fn clear(&mut self)
        ensures { (queue : ℕ) → Holds self.new queue → ⊥ }
    {
        self.told = 0;
    }

    /// How many places a walk has.
    pub fn size(&self) -> usize
        ensures value { result ≡ size self.now }
    {
        self.told.min(256)
    }

    /// The queue at a place.
    pub fn queue_at(&self, place: usize) -> QueueNo
        requires { place < size self.now }
        ensures { result ≡ queue_at self.now place }
    {
        if self.told > 256 {
            QueueNo(place as u8)
        } else {
            self.queues[place]
        }
    }
}
