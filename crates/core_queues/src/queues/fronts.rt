//! The job at the head of a line: it is polled where it stands, and goes to the tail by links alone.
ghost use Rattle.std.specs.Prelude.{◌≡◌, ◌<◌, [], IfSome, IfNone};
ghost use Rattle.core_queues.specs.Slips.{queue_count, waiting_of, IsWithinLimits, queues_alone};
ghost use Rattle.core_queues.specs.Fronts.{HasFront, IsFrontReady, MakesCalls, PollsFront, TurnsLine, TurnsFront, RestsFront};

use super::Queues;
use crate::line::Queue;
use crate::meter::Meter;
use crate::seats::ParkedAt;
use crate::waiting::{move_head, poll_at, requeue};
use base_jobs::{Job, Post, Step};
use base_words::{JobId, QueueNo};
use std::alloc::Allocator;

impl<J: Drop, A: Allocator + Clone> Queues<J, A> {
    /// The name of the job at the head, whether it was started, and whether a wake of it is kept.
    #[inline(always)]
    pub fn front(&self, queue: QueueNo) -> Option<(JobId, bool, bool)>
        requires exists { queue < queue_count self.now }
        ensures empty { IfNone result (waiting_of queue self.now ≡ []) }
        ensures head { IfSome result (λ front. HasFront (queues_alone self.now) queue front.0 (record { started = front.1; woken = front.2 })) }
    {
        let place = queue.0 as usize;
        let line = self.lines[place].waiting;
        if line.count == 0 {
            return None;
        }
        let front = &self.jobs[line.head];
        Some((front.name, front.started, front.woken))
    }

    /// The job at the head goes to the tail of its line, as started. The job isn't moved.
    #[inline(always)]
    pub fn requeue(&mut self, queue: QueueNo)
        requires exists { queue < queue_count self.old }
        requires some { waiting_of queue self.old ≡ [] → ⊥ }
        ensures turns { TurnsLine (queues_alone self.old) (queues_alone self.new) queue }
        ensures slips { self.new.slips ≡ self.old.slips }
        ensures limits { IsWithinLimits self.new }
    {
        let place = queue.0 as usize;
        let line = self.lines[place].waiting;
        let woken = self.jobs[line.head].woken;
        self.lines[place].waiting = requeue(&mut self.jobs, line, woken);
    }

    /// The job at the head is parked. If a wake of it is kept it goes to the tail and uses that up. The job isn't moved.
    pub fn park_front(&mut self, queue: QueueNo)
        requires exists { queue < queue_count self.old }
        requires some { waiting_of queue self.old ≡ [] → ⊥ }
        ensures rests { RestsFront (queues_alone self.old) (queues_alone self.new) queue }
        ensures slips { self.new.slips ≡ self.old.slips }
        ensures limits { IsWithinLimits self.new }
    {
        let place = queue.0 as usize;
        let was = self.lines[place];
        if self.jobs[was.waiting.head].woken {
            self.lines[place].waiting = requeue(&mut self.jobs, was.waiting, false);
            return;
        }
        let (left, longer) = move_head(&mut self.jobs, was.waiting, was.parked);
        self.lines[place] = Queue {
            waiting: left,
            parked: longer,
            shares: was.shares,
            mode: was.mode,
        };
        self.seats[was.waiting.head] = ParkedAt {
            before: was.parked.tail,
            queue,
            parked: true,
        };
    }
}

impl<J: Job, A: Allocator + Clone> Queues<J, A> {
    /// Polls the job at the head where it stands. The answer: what the poll came to, the time that the job told, and the time that the
    /// meter told.
    #[inline(always)]
    pub fn poll_front<P: Post<J, J::Out>, M: Meter>(
        &mut self,
        queue: QueueNo,
        post: &mut P,
        meter: &mut M,
    ) -> (Step<J::Out>, Option<u64>, u64)
        requires exists { queue < queue_count self.old }
        requires ready { IsFrontReady J.meaning (waiting_of queue self.old) }
        ensures polls { MakesCalls P.Does post.old post.new (λ calls. PollsFront J.meaning (queues_alone self.old) queue calls result.0 result.1 (queues_alone self.new)) }
        ensures tells { M.Tells meter.old result.2 meter.new }
        ensures slips { self.new.slips ≡ self.old.slips }
        ensures limits { IsWithinLimits self.new }
    {
        let place = queue.0 as usize;
        let head = self.lines[place].waiting.head;
        poll_at(&mut self.jobs, head, post, meter)
    }

    /// A whole turn of the line: its head is polled where it stands. If it wants another poll it goes to the tail by links alone. If it
    /// asks to be parked it is, or goes to the tail if a wake of it is kept. If it is done it is taken out and dropped. The answer: what
    /// the poll came to, the time that the job told, and the time that the meter told.
    #[inline(always)]
    pub fn turn_front<P: Post<J, J::Out>, M: Meter>(
        &mut self,
        queue: QueueNo,
        post: &mut P,
        meter: &mut M,
    ) -> (Step<J::Out>, Option<u64>, u64)
        requires exists { queue < queue_count self.old }
        requires ready { IsFrontReady J.meaning (waiting_of queue self.old) }
        ensures turns { MakesCalls P.Does post.old post.new (λ calls. TurnsFront J.meaning (queues_alone self.old) queue calls result.0 result.1 (queues_alone self.new)) }
        ensures tells { M.Tells meter.old result.2 meter.new }
        ensures slips { self.new.slips ≡ self.old.slips }
        ensures limits { IsWithinLimits self.new }
    {
        let (step, told, spent) = self.poll_front(queue, post, meter);
        match &step {
            Step::Yield => self.requeue(queue),
            Step::Park => self.park_front(queue),
            Step::Done(_) => {
                let Some(_gone) = self.pop_front(queue) else {
                    unreachable!()
                };
            }
        }
        (step, told, spent)
    }
}
