//! What a core tells of itself in numbers.
ghost use Rattle.std.specs.Prelude.{◌≡◌, ◌↔◌, ℕ, ◌+◌, ◌<◌, ◌≤◌, Some, IsTrue, length, slice_get};
ghost use Rattle.arrayvec.specs.ArrayVec.{array_vec_len};
ghost use Rattle.core_queues.specs.Queues.{queue_count, waiting_of, parked_of};
ghost use Rattle.core_core.specs.Closing.{IsDrained};
ghost use Rattle.core_core.specs.Figures.{core_stats, queue_stats};

use super::Core;
use crate::tally::place;
use arrayvec::ArrayVec;
use base_jobs::Task;
use base_words::{CoreStats, QueueNo, QueueStats};
use std::alloc::Allocator;

impl<J: Task, A: Allocator + Clone> Core<J, A> {
    pub(super) fn core_stats(&self) -> CoreStats
        ensures core { result ≡ core_stats self.now result.drained }
        ensures drained { IsTrue result.drained ↔ IsDrained self.now }
    {
        CoreStats {
            turns: self.turns,
            floor: self.floor,
            held: self.inside as u64,
            drained: self.is_drained(),
        }
    }

    /// How many jobs a queue holds, parked ones counted.
    fn held(&self, queue: QueueNo) -> usize
        requires { queue < queue_count self.now.queues }
        ensures { result ≡ length (waiting_of queue self.now.queues) + length (parked_of queue self.now.queues) }
    {
        // That the room fits is known once it was read.
        let _room = self.room;
        self.queues.count(queue) + self.queues.parked_count(queue)
    }

    fn queue_stats(&self, queue: QueueNo) -> QueueStats
        requires { queue < queue_count self.now.queues }
        ensures { result ≡ queue_stats queue self.now }
    {
        let tally = self.tallies[place(queue)];
        QueueStats {
            shares: self.queues.shares(queue),
            selected: tally.selected,
            runtime: tally.time,
            virtual_runtime: tally.runtime,
            waiting: self.held(queue) as u64,
            finished: tally.finished,
            returned: tally.returned,
        }
    }

    /// How many queues there are. They are numbered from 0 on.
    #[inline]
    pub fn queue_count(&self) -> u16
        ensures value { result ≡ queue_count self.now.queues }
        ensures few { result ≤ 256 }
    {
        self.queues.queue_count()
    }

    pub(super) fn all_queue_stats<const N: usize>(&self) -> ArrayVec<QueueStats, N>
        requires few { queue_count self.now.queues ≤ N }
        ensures count { array_vec_len result ≡ queue_count self.now.queues }
        ensures queues { (queue : ℕ) → queue < queue_count self.now.queues → slice_get result.items queue ≡ Some (queue_stats queue self.now) }
    {
        let mut all = ArrayVec::new();
        for number in 0..self.queues.queue_count() {
            all.push(self.queue_stats(QueueNo(number as u8)));
        }
        all
    }
}
