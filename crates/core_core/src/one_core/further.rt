//! The polls of an open turn with the job in its place.
ghost use Rattle.std.specs.Prelude.{◌≡◌, ℕ, ◌-◌, ◌^◌, ◌<◌, [], IfSome, IsSome, None, true};
ghost use Rattle.base_words.specs.Bursts.{has_bursts};
ghost use Rattle.core_queues.specs.Queues.{waiting_of};
ghost use Rattle.core_queues.specs.Fronts.{MakesCalls};
ghost use Rattle.core_core.specs.Bursts.{GoesOn};
ghost use Rattle.core_core.specs.Further.{FollowsWhole, IsAheadInTurn, TurnsFurther, follow_notes};
ghost use Rattle.core_core.specs.State.{IsBounded};
ghost use Rattle.core_core.specs.Whole.{TurnsFirst, settled_of, settle_notes};

use super::Core;
use super::whole::ended;
use crate::tally::place;
use crate::turn::Next;
use base_jobs::{Job, Post, Step};
use core_queues::Meter;
use std::alloc::Allocator;

impl<J: Job, A: Allocator + Clone> Core<J, A> {
    /// Makes a further poll of the open turn, of the job that `ahead_in_turn` told, with the job in its place: it is polled with this
    /// post, and settled. The answer: what the poll came to, and the time that counts, which is the told one or else `spent`.
    ///
    /// The state is that of `follow`, `Ran::poll` and `settle` together. The caller notes the poll before it calls, and the settling
    /// behind what the poll noted at its post.
    pub fn turn_further<P: Post<J, J::Out>>(
        &mut self,
        next: &Next,
        post: &mut P,
        spent: u64,
    ) -> (Step<J::Out>, u64)
        requires ahead { IsAheadInTurn self.old next.now.queue next.now.vr next.now.name next.now.started next.now.woken }
        ensures whole { MakesCalls P.Does post.old post.new (λ calls. FollowsWhole J.meaning self.old spent calls
            next.now.name next.now.queue next.now.started (follow_notes next.now.name next.now.started)
            (settled_of result.0 next.now.woken) (settle_notes next.now.name result.1 result.0 next.now.woken) self.new) }
        ensures bounded { IsBounded self.new }
    {
        let mut known = spent;
        self.turn_further_metered(next, post, &mut known)
    }

    /// Makes that poll. The meter is started right before the poll, and asked right behind the poll. The meter's time counts if the job
    /// told none.
    pub fn turn_further_metered<P: Post<J, J::Out>, M: Meter>(
        &mut self,
        next: &Next,
        post: &mut P,
        meter: &mut M,
    ) -> (Step<J::Out>, u64)
        requires ahead { IsAheadInTurn self.old next.now.queue next.now.vr next.now.name next.now.started next.now.woken }
        ensures whole { MakesCalls P.Does post.old post.new (λ calls. (spent : ℕ) × M.Tells meter.old spent meter.new
            × FollowsWhole J.meaning self.old spent calls
            next.now.name next.now.queue next.now.started (follow_notes next.now.name next.now.started)
            (settled_of result.0 next.now.woken) (settle_notes next.now.name result.1 result.0 next.now.woken) self.new) }
        ensures bounded { IsBounded self.new }
    {
        let _named = next;
        self.poll_further(post, meter)
    }

    /// Polls the next job of the open turn where it stands, and settles the poll. The answer: what the poll came to, and the time that
    /// counts.
    fn poll_further<P: Post<J, J::Out>, M: Meter>(
        &mut self,
        post: &mut P,
        meter: &mut M,
    ) -> (Step<J::Out>, u64)
        requires is_open { IsSome self.old.bursts.open }
        requires goes { IfSome self.old.bursts.open (λ turn. GoesOn self.old turn) }
        ensures turns { MakesCalls P.Does post.old post.new (λ calls. (spent : ℕ) × M.Tells meter.old spent meter.new × TurnsFurther J.meaning self.old spent calls result.0 result.1 self.new) }
        ensures bounded { IsBounded self.new }
    {
        let Some(turn) = self.bursts.open else {
            unreachable!()
        };
        let queue = turn.queue;
        let (step, told, spent) = self.queues.turn_front(queue, post, meter);
        let time = told.unwrap_or(spent);
        let done = ended(&step);
        let tally = self.tallies[place(queue)].finishing(done);
        self.tallies[place(queue)] = tally;
        self.inside -= done as usize;
        let again = turn.polled_again();
        let after = again.longer(time);
        self.bursts.open = Some(after);
        (step, time)
    }

    /// Polls the next job where it stands, and settles the poll, whose turn stays open. The answer: what the poll came to, and the time that counts.
    #[inline(never)]
    pub(super) fn turn_opening<P: Post<J, J::Out>, M: Meter>(
        &mut self,
        post: &mut P,
        meter: &mut M,
    ) -> (Step<J::Out>, u64)
        requires free { self.old.out ≡ None }
        requires no_turn { self.old.bursts.open ≡ None }
        requires bursts { has_bursts self.old.bursts.burst ≡ true }
        requires turns { self.old.turns < 2 ^ 64 - 1 }
        requires work { (queue : ℕ) × (waiting_of queue self.old.queues ≡ [] → ⊥) }
        ensures turns { MakesCalls P.Does post.old post.new (λ calls. (spent : ℕ) × M.Tells meter.old spent meter.new × TurnsFirst J.meaning self.old spent calls result.0 result.1 self.new) }
        ensures bounded { IsBounded self.new }
    {
        let Some((key, slip)) = self.ready.take_least() else {
            unreachable!()
        };
        let queue = key.queue;
        let (step, told, spent) = self.queues.turn_front(queue, post, meter);
        self.queues.put_slip(slip);
        let time = told.unwrap_or(spent);
        let done = ended(&step);
        let tally = self.tallies[place(queue)].picked(done);
        self.tallies[place(queue)] = tally;
        self.floor = self.floor.max(key.vr);
        self.turns += 1;
        self.inside -= done as usize;
        self.bursts.begin(queue);
        let bursts = self.bursts.lasted(time);
        self.bursts = bursts;
        (step, time)
    }
}
