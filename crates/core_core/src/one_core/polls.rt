//! A job goes out to be polled, or leaves for good.
ghost use Rattle.std.specs.Prelude.{◌≡◌, ℕ, ◌-◌, ◌^◌, ◌<◌, [], length, IsSome, None};
ghost use Rattle.base_jobs.specs.Ready.{IsReady};
ghost use Rattle.core_queues.specs.Queues.{queue_count, waiting_of};
ghost use Rattle.core_core.specs.State.{runtime_of, IsBounded};
ghost use Rattle.core_core.specs.Turns.{TakesOut};
ghost use Rattle.core_core.specs.Inside.{FitsTurns};
ghost use Rattle.core_core.specs.Steps.{IsOut, IsOutOf, LeavesOut, ReturnsOut};

use super::Core;
use crate::out::Out;
use crate::ready::relist;
use crate::tally::{Tally, place};
use base_jobs::Task;
use base_words::{JobId, Key, QueueNo};
use std::alloc::Allocator;
use std::snapshot::Snapshot;

impl<J: Task, A: Allocator + Clone> Core<J, A> {
    /// Takes out the first job of the queue of least key, with that key and whether the job was started. If a turn may have several
    /// polls, the turn of the queue opens.
    pub(super) fn take_out(&mut self) -> (Key, JobId, bool, J)
        requires free { self.old.out ≡ None }
        requires no_turn { self.old.bursts.open ≡ None }
        requires turns { self.old.turns < 2 ^ 64 - 1 }
        requires work { (queue : ℕ) × (waiting_of queue self.old.queues ≡ [] → ⊥) }
        ensures takes { TakesOut self.old result.1 result.0.queue result.2 result.3 self.new }
        ensures exists { result.0.queue < queue_count self.new.queues }
        ensures tallied { result.0.queue < length self.old.tallies }
        ensures at { result.0.vr ≡ runtime_of result.0.queue self.old }
        ensures ready { IsReady J.meaning result.3 }
        ensures bounded { IsBounded self.new }
    {
        let Some((key, slip)) = self.ready.take_least() else {
            unreachable!()
        };
        let vr = key.vr;
        let queue = key.queue;
        let Some((name, started, woken, job)) = self.queues.pop_front(queue) else {
            unreachable!()
        };
        self.queues.put_slip(slip);
        self.tallies[place(queue)].selected += 1;
        self.floor = self.floor.max(vr);
        self.turns += 1;
        self.bursts.begin(queue);
        let as_it_was = Snapshot::of(&job);
        let named = name;
        self.out = Some(Out {
            name,
            queue,
            woken,
            job: as_it_was,
        });
        (key, named, started, job)
    }

    /// The job that was out is handed back.
    pub(super) fn hand_back(&mut self)
        requires { IsSome self.old.out }
        ensures returns { ReturnsOut self.old self.new }
        ensures bounded { IsBounded self.new }
    {
        let (_, queue) = self.who_is_out();
        let mut tally = self.tallies[place(queue)];
        tally.returned += 1;
        self.let_go(queue, tally);
    }

    /// The job that is out, and its queue.
    pub(super) fn who_is_out(&self) -> (JobId, QueueNo)
        requires { IsSome self.now.out }
        ensures { IsOut self.now result.0 result.1 }
    {
        let Some(out) = &self.out else { unreachable!() };
        (out.name, out.queue)
    }

    /// The job that was out leaves for good, and its queue has this tally from then on. No turn is open then, and the queue may be picked
    /// again if a job waits in it.
    #[inline(always)]
    pub(super) fn let_go(&mut self, queue: QueueNo, tally: Tally)
        requires out { IsOutOf self.old queue }
        requires fits { FitsTurns self.old.turns 0 tally }
        ensures leaves { LeavesOut self.old queue tally self.new }
        ensures bounded { IsBounded self.new }
    {
        self.out = None;
        self.bursts.open = None;
        self.tallies[place(queue)] = tally;
        self.inside -= 1;
        let Some(slip) = self.queues.take_slip(queue) else {
            unreachable!()
        };
        relist(&mut self.queues, &mut self.ready, slip, tally.runtime);
    }
}
