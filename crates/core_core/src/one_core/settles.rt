//! The poll of the job that was out is settled: the job goes to the tail of its queue, is parked, or is done.
ghost use Rattle.std.specs.Prelude.{◌≡◌, None, IsSome};
ghost use Rattle.base_jobs.specs.Ready.{IsReady};
ghost use Rattle.core_core.specs.State.{IsBounded};
ghost use Rattle.core_core.specs.Steps.{RejoinsOut, ParksOut, FinishesOut};

use super::Core;
use crate::ready::{enter, relist};
use crate::tally::place;
use base_jobs::Task;
use base_words::JobId;
use std::alloc::Allocator;

impl<J: Task, A: Allocator + Clone> Core<J, A> {
    /// The job that was out goes to the tail of its queue, with a wake that is kept or with none.
    #[inline(always)]
    pub(super) fn rejoin_out(&mut self, job: J, time: u64, woken: bool) -> JobId
        requires out { IsSome self.old.out }
        requires ready { IsReady J.meaning job }
        ensures rejoins { RejoinsOut self.old result woken job time self.new }
        ensures bounded { IsBounded self.new }
    {
        if self.has_open_turn() {
            return self.rejoin_in_turn(job, time, woken);
        }
        self.rejoin_charged(job, time, woken)
    }

    /// It does so where its poll ends its turn: the queue is charged, and may be picked again.
    #[inline(always)]
    fn rejoin_charged(&mut self, job: J, time: u64, woken: bool) -> JobId
        requires out { IsSome self.old.out }
        requires no_turn { self.old.bursts.open ≡ None }
        requires ready { IsReady J.meaning job }
        ensures rejoins { RejoinsOut self.old result woken job time self.new }
        ensures bounded { IsBounded self.new }
    {
        let Some(out) = self.out.take() else {
            unreachable!()
        };
        let queue = out.queue;
        let shares = self.queues.shares(queue);
        let tally = self.tallies[place(queue)].charged(time, &shares, 0);
        self.tallies[place(queue)] = tally;
        self.queues.push_back(queue, out.name, woken, job);
        enter(&mut self.queues, &mut self.ready, queue, tally.runtime);
        out.name
    }

    /// It does so while its turn stays open.
    #[inline(never)]
    fn rejoin_in_turn(&mut self, job: J, time: u64, woken: bool) -> JobId
        requires out { IsSome self.old.out }
        requires in_turn { IsSome self.old.bursts.open }
        requires ready { IsReady J.meaning job }
        ensures rejoins { RejoinsOut self.old result woken job time self.new }
        ensures bounded { IsBounded self.new }
    {
        let Some(out) = self.out.take() else {
            unreachable!()
        };
        self.queues.push_back(out.queue, out.name, woken, job);
        let bursts = self.bursts.lasted(time);
        self.bursts = bursts;
        out.name
    }

    /// The job that was out is parked.
    #[inline(never)]
    pub(super) fn park_out(&mut self, job: J, time: u64) -> JobId
        requires out { IsSome self.old.out }
        requires ready { IsReady J.meaning job }
        ensures parks { ParksOut self.old result job time self.new }
        ensures bounded { IsBounded self.new }
    {
        if self.has_open_turn() {
            return self.park_in_turn(job, time);
        }
        self.park_charged(job, time)
    }

    /// It is so where its poll ends its turn: the queue is charged, and may be picked again if another job waits in it.
    fn park_charged(&mut self, job: J, time: u64) -> JobId
        requires out { IsSome self.old.out }
        requires no_turn { self.old.bursts.open ≡ None }
        requires ready { IsReady J.meaning job }
        ensures parks { ParksOut self.old result job time self.new }
        ensures bounded { IsBounded self.new }
    {
        let Some(out) = self.out.take() else {
            unreachable!()
        };
        let queue = out.queue;
        let shares = self.queues.shares(queue);
        let tally = self.tallies[place(queue)].charged(time, &shares, 0);
        self.tallies[place(queue)] = tally;
        self.queues.park(queue, out.name, job);
        let Some(slip) = self.queues.take_slip(queue) else {
            unreachable!()
        };
        relist(&mut self.queues, &mut self.ready, slip, tally.runtime);
        out.name
    }

    /// It is so while its turn stays open.
    #[inline(never)]
    fn park_in_turn(&mut self, job: J, time: u64) -> JobId
        requires out { IsSome self.old.out }
        requires in_turn { IsSome self.old.bursts.open }
        requires ready { IsReady J.meaning job }
        ensures parks { ParksOut self.old result job time self.new }
        ensures bounded { IsBounded self.new }
    {
        let Some(out) = self.out.take() else {
            unreachable!()
        };
        self.queues.park(out.queue, out.name, job);
        let bursts = self.bursts.lasted(time);
        self.bursts = bursts;
        out.name
    }

    /// The job that was out is done.
    #[inline(always)]
    pub(super) fn finish_out(&mut self, time: u64) -> JobId
        requires { IsSome self.old.out }
        ensures finishes { FinishesOut self.old result time self.new }
        ensures bounded { IsBounded self.new }
    {
        if self.has_open_turn() {
            return self.finish_in_turn(time);
        }
        self.finish_charged(time)
    }

    /// It is so where its poll ends its turn: the queue is charged, and may be picked again if another job waits in it.
    #[inline(always)]
    fn finish_charged(&mut self, time: u64) -> JobId
        requires out { IsSome self.old.out }
        requires no_turn { self.old.bursts.open ≡ None }
        ensures finishes { FinishesOut self.old result time self.new }
        ensures bounded { IsBounded self.new }
    {
        let (name, queue) = self.who_is_out();
        let shares = self.queues.shares(queue);
        let tally = self.tallies[place(queue)].charged(time, &shares, 1);
        self.let_go(queue, tally);
        name
    }

    /// It is so while its turn stays open.
    #[inline(never)]
    fn finish_in_turn(&mut self, time: u64) -> JobId
        requires out { IsSome self.old.out }
        requires in_turn { IsSome self.old.bursts.open }
        ensures finishes { FinishesOut self.old result time self.new }
        ensures bounded { IsBounded self.new }
    {
        let Some(out) = self.out.take() else {
            unreachable!()
        };
        let queue = out.queue;
        let tally = self.tallies[place(queue)].finishing(1);
        self.tallies[place(queue)] = tally;
        self.inside -= 1;
        let bursts = self.bursts.lasted(time);
        self.bursts = bursts;
        out.name
    }
}
