//! A wake: of the job that is out, of one that waits, or of a parked one.
ghost use Rattle.std.specs.Prelude.{◌≡◌, ◌<◌, ◌≤◌, ◌||◌, nat_lt, length, IfNone, IfSome, true, false};
ghost use Rattle.base_words.specs.declared.order.Order.TheVariants as orders;
ghost use Rattle.base_words.specs.Names.{is_number};
ghost use Rattle.core_queues.specs.Slips.{queue_count, waiting_of};
ghost use Rattle.core_queues.specs.Waking.{FindsNoPark, IsParkedAs};
ghost use Rattle.core_core.specs.State.{queue_out, IsBounded};
ghost use Rattle.core_core.specs.Inside.{job_out};
ghost use Rattle.core_core.specs.Deliveries.{Delivers};
ghost use Rattle.core_core.specs.Waking.{is_out, KeepsOutWake, Wakes};

use super::Core;
use crate::delivery::Delivered;
use crate::notes::{Notes, one_note, two_notes};
use crate::out::{Out, is_of_queue};
use crate::ready::enter_placed;
use crate::tally::place;
use base_jobs::Task;
use base_words::{ActorNo, Answer, JobId, Note, QueueNo, placed};
use core_queues::{Queues, Woke};
use std::alloc::Allocator;

/// Whether a further job waits in a queue in which one does, or a job of it is out.
fn has_others<J: Drop, A: Allocator + Clone>(
    queues: &Queues<J, A>,
    out: &Option<Out<J>>,
    queue: QueueNo,
) -> bool
    requires { queue < queue_count queues.now }
    ensures { result ≡ (nat_lt 1 (length (waiting_of queue queues.now)) || is_number queue (queue_out (job_out out.now))) }
{
    queues.count(queue) > 1 || is_of_queue(out, queue)
}

impl<J: Task, A: Allocator + Clone> Core<J, A> {
    /// A wake is counted, and wakes the job of this sender and number, if it is inside.
    pub(super) fn deliver_wake(
        &mut self,
        name: JobId,
        actor: ActorNo,
        number: u64,
    ) -> (Delivered<J>, Notes<J::Out>)
    where
        J::Out: Copy,
        requires { name.from ≤ self.old.cores }
        ensures delivers { Delivers self.old name (orders.Wake actor number) result.0 self.new result.1.items }
        ensures bounded { IsBounded self.new }
    {
        self.count(&name);
        let job = JobId {
            from: actor,
            to: self.core,
            number,
        };
        if self.wake(&job) {
            let answered = Note::Answered(name, Answer::Woken);
            return (
                Delivered::Answered(Answer::Woken),
                two_notes(answered, Note::Woken(job)),
            );
        }
        let answered = Note::Answered(name, Answer::NoJob);
        (Delivered::Answered(Answer::NoJob), one_note(answered))
    }

    /// The job that a wake of this name would find parked, if there is one.
    pub fn parked(&self, name: JobId) -> Option<&J>
        ensures there { IfSome result (λ job. IsParkedAs self.now.queues name job.now) }
        ensures none { IfNone result (FindsNoPark self.now.queues name) }
    {
        self.queues.parked(name)
    }

    /// Wakes a job that is inside. The answer: whether it is.
    fn wake(&mut self, job: &JobId) -> bool
        ensures wakes { Wakes self.old job.now result self.new }
        ensures bounded { IsBounded self.new }
    {
        if self.is_job_out(job) {
            self.keep_out_wake(job);
            return true;
        }
        self.wake_inside(job)
    }

    /// Whether this job is out.
    fn is_job_out(&self, job: &JobId) -> bool
        ensures { result ≡ is_out job.now self.now }
    {
        match &self.out {
            Some(out) => *job == out.name,
            None => false,
        }
    }

    /// The wake of the job that is out is kept.
    fn keep_out_wake(&mut self, job: &JobId)
        requires out { is_out job.now self.old ≡ true }
        ensures keeps { KeepsOutWake self.old job.now self.new }
        ensures bounded { IsBounded self.new }
    {
        let Some(out) = &mut self.out else {
            unreachable!()
        };
        out.woken = true;
    }

    /// Wakes a job that isn't out: the wake of one that waits is kept, and a parked one comes to the tail of its queue, which is placed
    /// at the floor if it had no work.
    fn wake_inside(&mut self, job: &JobId) -> bool
        requires not_out { is_out job.now self.old ≡ false }
        ensures wakes { Wakes self.old job.now result self.new }
        ensures bounded { IsBounded self.new }
    {
        let queue = match self.queues.wake(*job) {
            Woke::Absent => return false,
            Woke::Kept => return true,
            Woke::Moved(queue) => queue,
        };
        if has_others(&self.queues, &self.out, queue) {
            return true;
        }
        let tally = &mut self.tallies[place(queue)];
        let vr = placed(tally.runtime, self.floor);
        tally.runtime = vr;
        enter_placed(&mut self.queues, &mut self.ready, &self.bursts, queue, vr);
        true
    }
}
