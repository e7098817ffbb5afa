//! Turns of several polls: a further job of the open turn goes out, and the turn ends.
//!
//! A turn is open from the pick of its queue until `end_turn`. In between jobs of this queue alone go out, one after another.
//!
//! - Whether it goes on is judged anew at each call: polls are left, a job waits, and neither queue nor core hands back.
//! - So a job that comes to the queue, or is woken, within the turn is polled in it.
//! - The queue is charged once, at the end, for the time of all polls. Until then its slip is with it, and it isn't among the queues to pick.
ghost use Rattle.std.specs.Prelude.{◌≡◌, ◌<◌, IsSome, IfSome, None, Ok, is_some, true, false, [], ◌∷◌};
ghost use Rattle.base_words.specs.Bursts.{has_bursts};
ghost use Rattle.core_queues.specs.Queues.{queue_count, waiting_of};
ghost use Rattle.core_core.specs.Answers.{IsReadyTurn};
ghost use Rattle.base_jobs.specs.Ready.{IsReady};
ghost use Rattle.core_core.specs.Bursts.{FollowsOut, GoesOn, IsOver, may_go_on};
ghost use Rattle.core_core.specs.Further.{EndsTurn, Follows, IsAheadInTurn, follow_notes};
ghost use Rattle.core_core.specs.Whole.{goes_out};
ghost use Rattle.core_core.specs.State.{is_any, IsBounded};

use super::Core;
use crate::bursts::OpenTurn;
use crate::notes::{Notes, one_note};
use crate::out::Out;
use crate::ready::relist;
use crate::tally::place;
use crate::turn::{Next, Turn};
use arrayvec::ArrayVec;
use base_jobs::Task;
use base_words::{JobId, Note, QueueNo};
use std::alloc::Allocator;
use std::snapshot::Snapshot;

/// The turn of a job that goes out.
fn going_out<J>(name: JobId, queue: QueueNo, started: bool, job: J) -> Turn<J>
    ensures { result ≡ goes_out name queue started job }
{
    if started {
        Turn::Resume(name, queue, job)
    } else {
        Turn::Start(name, queue, job)
    }
}

/// The note of a further poll.
fn follow_note<T>(name: JobId, started: bool) -> Note<T>
    ensures { result ∷ [] ≡ follow_notes name started }
{
    if started {
        Note::Resume(name)
    } else {
        Note::Start(name)
    }
}

impl<J: Task, A: Allocator + Clone> Core<J, A> {
    /// Whether a turn is open. That may be only where a turn may have several polls.
    pub fn has_open_turn(&self) -> bool
        ensures { result ≡ is_some self.now.bursts.open }
    {
        self.bursts.open.is_some()
    }

    /// Whether a note of its own ends a turn.
    pub(super) fn has_bursts(&self) -> bool
        ensures { result ≡ has_bursts self.now.bursts.burst }
    {
        self.bursts.burst > 1
    }

    /// Whether a turn is open, no job is out, and the turn may go on.
    fn goes_on(&self) -> bool
        ensures goes { result ≡ true → IfSome self.now.bursts.open (λ turn. GoesOn self.now turn) }
        ensures is_open { result ≡ true → IsSome self.now.bursts.open }
        ensures over { result ≡ false → IsOver self.now }
    {
        if self.out.is_some() {
            return false;
        }
        let Some(turn) = self.bursts.open else {
            return false;
        };
        self.may_go_on(turn)
    }

    /// Whether this open turn may go on.
    fn may_go_on(&self, turn: OpenTurn) -> bool
        requires { turn.queue < queue_count self.now.queues }
        ensures { result ≡ may_go_on self.now turn }
    {
        turn.polls < self.bursts.burst
            && self.has_line(turn.queue)
            && !self.return_reason(turn.queue).is_some()
    }

    /// Whether a job waits in the queue.
    fn has_line(&self, queue: QueueNo) -> bool
        requires { queue < queue_count self.now.queues }
        ensures { result ≡ is_any (waiting_of queue self.now.queues) }
    {
        !self.queues.is_empty(queue)
    }

    /// The job that follows in the open turn. None where no turn is open, a job is out, or the turn may not go on. Nothing changes.
    pub fn ahead_in_turn(&self) -> Option<Next>
        ensures ahead { IfSome result (λ next. IsAheadInTurn self.now next.queue next.vr next.name next.started next.woken) }
        ensures over { result ≡ None → IsOver self.now }
    {
        if !self.goes_on() {
            return None;
        }
        let Some(turn) = self.bursts.open else {
            unreachable!()
        };
        let queue = turn.queue;
        let Some((name, started, woken)) = self.queues.front(queue) else {
            unreachable!()
        };
        Some(Next {
            queue,
            vr: self.tallies[place(queue)].runtime,
            name,
            started,
            woken,
        })
    }

    /// Takes the next job of the open turn out. None where no turn is open, a job is out, or the turn may not go on.
    pub fn follow(&mut self) -> (Option<Turn<J>>, Notes<J::Out>)
    where
        J::Out: Copy,
        ensures follows { Follows self.old result.0 self.new result.1.items }
        ensures ready { IfSome result.0 (λ turn. IsReadyTurn J.meaning (Ok turn)) }
        ensures bounded { IsBounded self.new }
    {
        if !self.goes_on() {
            return (None, ArrayVec::new());
        }
        let Some(turn) = self.bursts.open else {
            unreachable!()
        };
        let queue = turn.queue;
        let (name, started, job) = self.take_further(turn);
        let named = name;
        let notes = one_note(follow_note(named, started));
        (Some(going_out(name, queue, started, job)), notes)
    }

    /// Takes out the first job of the queue of the open turn, which may go on. The answer tells whether the job was started.
    fn take_further(&mut self, turn: OpenTurn) -> (JobId, bool, J)
        requires { GoesOn self.old turn }
        ensures follows { FollowsOut self.old result.0 turn.queue result.1 result.2 self.new }
        ensures ready { IsReady J.meaning result.2 }
        ensures bounded { IsBounded self.new }
    {
        let queue = turn.queue;
        let Some((name, started, woken, job)) = self.queues.pop_front(queue) else {
            unreachable!()
        };
        let again = turn.polled_again();
        self.bursts.open = Some(again);
        let as_it_was = Snapshot::of(&job);
        let named = name;
        self.out = Some(Out {
            name,
            queue,
            woken,
            job: as_it_was,
        });
        (named, started, job)
    }

    /// Whether a turn is open that may not go on, and no job is out: whether `end_turn` may be called.
    pub fn is_turn_over(&self) -> bool
        ensures over { result ≡ true → IfSome self.now.bursts.open (λ turn. may_go_on self.now turn ≡ false) }
        ensures is_open { result ≡ true → IsSome self.now.bursts.open }
        ensures free { result ≡ true → self.now.out ≡ None }
        ensures not_over { result ≡ false → self.now.out ≡ None → IfSome self.now.bursts.open (λ turn. may_go_on self.now turn ≡ true) }
    {
        if self.out.is_some() {
            return false;
        }
        let Some(turn) = self.bursts.open else {
            return false;
        };
        !self.may_go_on(turn)
    }

    /// Ends the open turn, which may not go on. Its queue is charged once, for the time of all its polls, and may be picked again. The
    /// answer: that time.
    pub fn end_turn(&mut self) -> (u64, Notes<J::Out>)
    where
        J::Out: Copy,
        requires over { IfSome self.old.bursts.open (λ turn. may_go_on self.old turn ≡ false) }
        requires is_open { IsSome self.old.bursts.open }
        requires free { self.old.out ≡ None }
        ensures ends { EndsTurn self.old result.0 self.new result.1.items }
        ensures bounded { IsBounded self.new }
    {
        let Some(turn) = self.bursts.open else {
            unreachable!()
        };
        self.bursts.open = None;
        let queue = turn.queue;
        let shares = self.queues.shares(queue);
        let tally = self.tallies[place(queue)].costing(turn.time, &shares);
        self.tallies[place(queue)] = tally;
        let Some(slip) = self.queues.take_slip(queue) else {
            unreachable!()
        };
        relist(&mut self.queues, &mut self.ready, slip, tally.runtime);
        (turn.time, one_note(Note::Turned(queue, turn.time)))
    }
}
