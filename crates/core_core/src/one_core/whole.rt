//! The first poll of a turn with the job in its place.
ghost use Rattle.std.specs.Prelude.{◌≡◌, ℕ, ◌-◌, ◌^◌, ◌<◌, [], Ok, None, false};
ghost use Rattle.base_words.specs.Bursts.{has_bursts};
ghost use Rattle.base_words.specs.Work.{number_if};
ghost use Rattle.base_jobs.specs.Steps.{is_done_step};
ghost use Rattle.core_queues.specs.Queues.{waiting_of};
ghost use Rattle.core_queues.specs.Fronts.{MakesCalls};
ghost use Rattle.core_core.specs.State.{IsBounded};
ghost use Rattle.core_core.specs.Whole.{IsAhead, TellsAhead, TurnsFirst, TurnsWhole, pick_notes, settled_of, settle_notes};

use super::Core;
use crate::out::is_busy;
use crate::ready::relist_least;
use crate::tally::place;
use crate::turn::{Ahead, Next, PickError};
use base_jobs::{Job, Post, Step, Task};
use core_queues::Meter;
use std::alloc::Allocator;

/// How many more jobs are done after this step.
pub(super) fn ended<T>(step: &Step<T>) -> u64
    ensures { result ≡ number_if (is_done_step step.now) }
{
    match step {
        Step::Done(_) => 1,
        Step::Yield | Step::Park => 0,
    }
}

impl<J: Task, A: Allocator + Clone> Core<J, A> {
    /// What the next pick would come to. Nothing changes.
    ///
    /// # Errors
    ///
    /// Those of `pick`: `Busy` where a job is out or a turn is open, else `Spent` where a queue has work and no turn is left.
    #[inline(always)]
    pub fn ahead(&self) -> Result<Ahead, PickError>
        ensures { TellsAhead self.now result }
    {
        if is_busy(&self.out, &self.bursts) {
            return Err(PickError::Busy);
        }
        if self.ready.is_empty() {
            return Ok(Ahead::Idle);
        }
        if self.turns_made() == u64::MAX {
            return Err(PickError::Spent);
        }
        Ok(self.first_ahead())
    }

    /// How many turns were made.
    fn turns_made(&self) -> u64
        ensures { result ≡ self.now.turns }
    {
        self.turns
    }

    /// The same where a job waits, none is out, no turn is open, and a turn is left.
    #[inline(always)]
    fn first_ahead(&self) -> Ahead
        requires free { self.now.out ≡ None }
        requires no_turn { self.now.bursts.open ≡ None }
        requires turns { self.now.turns < 2 ^ 64 - 1 }
        requires work { (queue : ℕ) × (waiting_of queue self.now.queues ≡ [] → ⊥) }
        ensures { TellsAhead self.now (Ok result) }
    {
        // That the keys rise is known of a timeline whose length was asked for.
        let _count = self.ready.len();
        let Some(key) = self.ready.least() else {
            unreachable!()
        };
        let queue = key.queue;
        if self.return_reason(queue).is_some() {
            return Ahead::Back;
        }
        let Some((name, started, woken)) = self.queues.front(queue) else {
            unreachable!()
        };
        Ahead::Job(Next {
            queue,
            vr: key.vr,
            name,
            started,
            woken,
        })
    }
}

impl<J: Job, A: Allocator + Clone> Core<J, A> {
    /// Makes the first poll of the turn of the job that `ahead` told, with the job in its place: it is polled with this post, and settled.
    /// If a turn may have several polls, the turn stays open. The answer: what the poll came to, and the time that counts, which is the
    /// told one or else `spent`.
    ///
    /// The state is that of `pick`, `Ran::poll` and `settle` together. The caller notes the pick before it calls, and the settling
    /// behind what the poll noted at its post.
    pub fn turn<P: Post<J, J::Out>>(
        &mut self,
        next: &Next,
        post: &mut P,
        spent: u64,
    ) -> (Step<J::Out>, u64)
        requires ahead { IsAhead self.old next.now.queue next.now.vr next.now.name next.now.started next.now.woken }
        ensures whole { MakesCalls P.Does post.old post.new (λ calls. TurnsWhole J.meaning self.old spent calls
            next.now.name next.now.queue next.now.started (pick_notes next.now.queue next.now.vr next.now.name next.now.started)
            (settled_of result.0 next.now.woken) (settle_notes next.now.name result.1 result.0 next.now.woken) self.new) }
        ensures bounded { IsBounded self.new }
    {
        let mut known = spent;
        self.turn_metered(next, post, &mut known)
    }

    /// Makes that poll. The meter is started right before the poll, and asked right behind the poll. The meter's time counts if the job
    /// told none.
    #[inline(always)]
    pub fn turn_metered<P: Post<J, J::Out>, M: Meter>(
        &mut self,
        next: &Next,
        post: &mut P,
        meter: &mut M,
    ) -> (Step<J::Out>, u64)
        requires ahead { IsAhead self.old next.now.queue next.now.vr next.now.name next.now.started next.now.woken }
        ensures whole { MakesCalls P.Does post.old post.new (λ calls. (spent : ℕ) × M.Tells meter.old spent meter.new
            × TurnsWhole J.meaning self.old spent calls
            next.now.name next.now.queue next.now.started (pick_notes next.now.queue next.now.vr next.now.name next.now.started)
            (settled_of result.0 next.now.woken) (settle_notes next.now.name result.1 result.0 next.now.woken) self.new) }
        ensures bounded { IsBounded self.new }
    {
        if self.has_bursts() {
            return self.turn_opening(post, meter);
        }
        self.turn_first(next, post, meter)
    }

    /// Polls the next job where it stands, and settles the poll, which ends the turn. The answer: what the poll came to, and the time that counts.
    #[inline(always)]
    fn turn_first<P: Post<J, J::Out>, M: Meter>(
        &mut self,
        next: &Next,
        post: &mut P,
        meter: &mut M,
    ) -> (Step<J::Out>, u64)
        requires ahead { IsAhead self.old next.now.queue next.now.vr next.now.name next.now.started next.now.woken }
        requires single { has_bursts self.old.bursts.burst ≡ false }
        ensures turns { MakesCalls P.Does post.old post.new (λ calls. (spent : ℕ) × M.Tells meter.old spent meter.new × TurnsFirst J.meaning self.old spent calls result.0 result.1 self.new) }
        ensures bounded { IsBounded self.new }
    {
        // That the keys rise, one of each queue, is known of a timeline whose length was asked for.
        let _count = self.ready.len();
        let queue = next.queue;
        let (step, told, spent) = self.queues.turn_front(queue, post, meter);
        let time = told.unwrap_or(spent);
        let shares = self.queues.shares(queue);
        let done = ended(&step);
        let tally = self.tallies[place(queue)].turned(time, &shares, done);
        self.tallies[place(queue)] = tally;
        self.floor = self.floor.max(next.vr);
        self.turns += 1;
        self.inside -= done as usize;
        relist_least(&mut self.queues, &mut self.ready, queue, tally.runtime);
        (step, time)
    }
}
