//! All parks of a queue end, or all parks of a core.
ghost use Rattle.std.specs.Prelude.{◌≡◌, ℕ, ◌<◌, ◌==◌, true, false};
ghost use Rattle.base_words.specs.Parks.{is_return};
ghost use Rattle.core_queues.specs.Queues.{queue_count};
ghost use Rattle.core_core.specs.State.{is_working, IsBounded};
ghost use Rattle.core_core.specs.Closing.{EndsParks, EndsParksIf};

use super::Core;
use crate::ready::enter_placed;
use crate::tally::place;
use base_jobs::Task;
use base_words::{Mode, QueueNo, placed};
use std::alloc::Allocator;

impl<J: Task, A: Allocator + Clone> Core<J, A> {
    /// A closing of the core in this mode ends all parks, or none.
    pub(super) fn end_parks_for(&mut self, mode: Mode)
        ensures ends { EndsParksIf (is_return mode) self.old (λ queue. true) self.new }
        ensures bounded { IsBounded self.new }
    {
        let _ = &self.core;
        match mode {
            Mode::Finish => {}
            Mode::Return => self.end_all_parks(),
        }
    }

    /// A closing of a queue in this mode ends its parks, or none.
    pub(super) fn end_queue_parks_for(&mut self, queue: QueueNo, mode: Mode)
        requires exists { queue < queue_count self.old.queues }
        ensures ends { EndsParksIf (is_return mode) self.old (λ other. queue == other) self.new }
        ensures bounded { IsBounded self.new }
    {
        let _ = &self.core;
        match mode {
            Mode::Finish => {}
            Mode::Return => self.end_parks(queue),
        }
    }

    /// The parked jobs of all queues join the tails of their lines.
    fn end_all_parks(&mut self)
        ensures ends { EndsParks self.old (λ queue. true) self.new }
        ensures bounded { IsBounded self.new }
    {
        for number in 0..self.queues.queue_count() {
            self.end_parks(QueueNo(number as u8));
        }
    }

    /// The parked jobs of a queue join the tail of its line.
    fn end_parks(&mut self, queue: QueueNo)
        requires exists { queue < queue_count self.old.queues }
        ensures ends { EndsParks self.old (λ other. queue == other) self.new }
        ensures bounded { IsBounded self.new }
    {
        if self.has_work(queue) {
            self.unpark_busy(queue);
        } else {
            self.unpark_idle(queue);
        }
    }

    /// Those of a queue that has work do so.
    fn unpark_busy(&mut self, queue: QueueNo)
        requires exists { queue < queue_count self.old.queues }
        requires work { is_working queue self.old ≡ true }
        ensures ends { EndsParks self.old (λ other. queue == other) self.new }
        ensures bounded { IsBounded self.new }
    {
        self.queues.unpark_all(queue);
    }

    /// Those of a queue without work do so, and the queue is placed at the floor, if there are any.
    fn unpark_idle(&mut self, queue: QueueNo)
        requires exists { queue < queue_count self.old.queues }
        requires idle { is_working queue self.old ≡ false }
        ensures ends { EndsParks self.old (λ other. queue == other) self.new }
        ensures bounded { IsBounded self.new }
    {
        self.queues.unpark_all(queue);
        if self.queues.is_empty(queue) {
            return;
        }
        let tally = &mut self.tallies[place(queue)];
        let vr = placed(tally.runtime, self.floor);
        tally.runtime = vr;
        enter_placed(&mut self.queues, &mut self.ready, &self.bursts, queue, vr);
    }
}
