//! The parked jobs of a queue: they come in behind one another, and go to the tail of its line by a wake, or all at once.
ghost use Rattle.std.specs.Prelude.{◌≡◌, ◌+◌, ◌<◌, [], ◌∷◌, ◌++◌, map, IfSome, IfNone, OnSome};
ghost use Rattle.core_queues.specs.Queues.{awake, ChangesParks, Moves};
ghost use Rattle.core_queues.specs.Slips.{queues_alone, queue_count, waiting_of, parked_of, held_count, IsWithinLimits};
ghost use Rattle.core_queues.specs.Waking.{FindsNoPark, IsParkedAs, Wakes};

use super::Queues;
use crate::line::{Line, Queue};
use crate::parks::{join_lines, keep_wake, move_out};
use crate::seats::{ParkedAt, Stands, leave, read_seat, vacate};
use crate::waiting::{Waiting, append};
use base_words::{JobId, QueueNo};
use std::alloc::Allocator;

/// What became of a wake.
#[derive(Clone, Copy, PartialEq, Eq, Debug)]
pub enum Woke {
    /// The job was parked, and stands at the tail of its queue, this one.
    Moved(QueueNo),
    /// The job waits in a line, and the wake is kept beside it.
    Kept,
    /// No queue holds such a job.
    Absent,
}

impl<J: Drop, A: Allocator + Clone> Queues<J, A> {
    /// A job that was started is parked, behind those that are.
    pub fn park(&mut self, queue: QueueNo, name: JobId, job: J)
        requires exists { queue < queue_count self.old }
        requires room { held_count self.old < self.old.room }
        ensures parks { ChangesParks (queues_alone self.old) (queues_alone self.new) queue (parked_of queue self.old ++ (name, job) ∷ []) }
        ensures one_more { held_count self.new ≡ held_count self.old + 1 }
        ensures slips { self.new.slips ≡ self.old.slips }
        ensures limits { IsWithinLimits self.new }
    {
        let place = queue.0 as usize;
        let line = self.lines[place].parked;
        let last = Waiting {
            next: 0,
            name,
            job,
            started: true,
            woken: false,
        };
        let longer = append(&mut self.jobs, line, last);
        self.names.insert(&name, longer.tail);
        self.lines[place].parked = longer;
        self.seats[longer.tail] = ParkedAt {
            before: line.tail,
            queue,
            parked: true,
        };
    }

    /// All parked jobs of this queue join the tail of its line, in the order in which they were parked.
    pub fn unpark_all(&mut self, queue: QueueNo)
        requires exists { queue < queue_count self.old }
        ensures moves { Moves (queues_alone self.old) (queues_alone self.new) queue (waiting_of queue self.old ++ map awake (parked_of queue self.old)) [] }
        ensures slips { self.new.slips ≡ self.old.slips }
        ensures limits { IsWithinLimits self.new }
    {
        let place = queue.0 as usize;
        let was = self.lines[place];
        vacate(&self.jobs, &mut self.seats, was.parked);
        self.lines[place] = Queue {
            waiting: join_lines(&mut self.jobs, was.waiting, was.parked),
            parked: Line::EMPTY,
            shares: was.shares,
            mode: was.mode,
        };
    }

    /// The job that a wake of this name would find parked, if there is one.
    pub fn parked(&self, name: JobId) -> Option<&J>
        ensures there { IfSome result (λ job. IsParkedAs (queues_alone self.now) name job.now) }
        ensures none { IfNone result (FindsNoPark (queues_alone self.now) name) }
    {
        let Some(key) = self.names.find(&name) else {
            return None;
        };
        match read_seat(&self.seats, key) {
            Stands::Parked(_queue, _before) => Some(&self.jobs[key].job),
            Stands::Waits => None,
        }
    }

    /// Wakes the job of this name: a parked one joins the tail of its queue, and of one that waits the wake is kept.
    pub fn wake(&mut self, name: JobId) -> Woke
        ensures wakes { Wakes (queues_alone self.old) name result (queues_alone self.new) }
        ensures slips { self.new.slips ≡ self.old.slips }
        ensures limits { IsWithinLimits self.new }
    {
        let Some(key) = self.names.find(&name) else {
            return Woke::Absent;
        };
        match read_seat(&self.seats, key) {
            Stands::Parked(queue, before) => {
                let place = queue.0 as usize;
                let was = self.lines[place];
                let (next, left, longer) = move_out(
                    &mut self.jobs,
                    was.parked,
                    key,
                    before,
                    was.waiting,
                );
                leave(&mut self.seats, was.parked, key, next);
                self.lines[place] = Queue {
                    waiting: longer,
                    parked: left,
                    shares: was.shares,
                    mode: was.mode,
                };
                Woke::Moved(queue)
            }
            Stands::Waits => {
                keep_wake(&mut self.jobs, key);
                Woke::Kept
            }
        }
    }
}
