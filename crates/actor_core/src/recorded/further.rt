//! Turns of several polls: a further job of the open turn goes out, and the turn ends.

ghost use Rattle.std.specs.Prelude.{◌≡◌, ℕ, ◌<◌, Ok, None, IsSome, IfSome, is_some, length};
ghost use Rattle.base_words.specs.Bursts.{queue_in_turn};
ghost use Rattle.core_core.specs.Answers.{IsReadyTurn};
ghost use Rattle.actor_core.specs.Recorded.{IsRecorded, desk_of};
ghost use Rattle.actor_core.specs.Ends.{KeepsIn, IsSameSeat};
ghost use Rattle.actor_desk.specs.Ends.{KeepsOuts};
ghost use Rattle.actor_core.specs.Turns.{Follows, NothingFollows, EndsTurn};

use super::Recorded;
use base_jobs::Task;
use core_core::Turn;
use std::alloc::Allocator;

impl<J: Task<Out = u64>, A: Allocator + Clone> Recorded<J, A> {
    /// Whether a turn is open. None is where each turn is a single poll.
    pub fn has_open_turn(&self) -> bool
        ensures { result ≡ is_some (queue_in_turn self.now.core.bursts.burst self.now.journal.notes) }
    {
        self.core.has_open_turn()
    }

    /// Takes the first job of the queue whose turn is open out, for a further poll. None if no turn is open, if a job is out, or if the
    /// turn may not go on: it had as many polls as it may have, its queue has no work, or what waits there is handed back.
    pub fn follow(&mut self) -> Option<Turn<J>>
        requires room { length self.old.journal.notes < self.old.journal.room }
        ensures follows { Follows self.old result self.new }
        ensures ready { IfSome result (λ turn. IsReadyTurn J.meaning (Ok turn)) }
        ensures ins { (sender : ℕ) → KeepsIn sender self.old self.new }
        ensures outs { KeepsOuts (desk_of self.old) (desk_of self.new) }
        ensures seat { IsSameSeat self.old self.new }
        ensures lanes { self.new.lanes ≡ self.old.lanes }
        ensures sound { IsRecorded J.meaning self.new }
    {
        let (followed, notes) = self.core.follow();
        self.said.write(notes.as_slice());
        followed
    }

    /// Ends the open turn, which may not go on. Its queue is charged once, for the time of all its polls. The answer: that time.
    pub fn end_turn(&mut self) -> u64
        requires is_open { IsSome (queue_in_turn self.old.core.bursts.burst self.old.journal.notes) }
        requires rest { self.old.core.out ≡ None }
        requires over { NothingFollows self.old }
        requires room { length self.old.journal.notes < self.old.journal.room }
        ensures ends { EndsTurn self.old result self.new }
        ensures ins { (sender : ℕ) → KeepsIn sender self.old self.new }
        ensures outs { KeepsOuts (desk_of self.old) (desk_of self.new) }
        ensures seat { IsSameSeat self.old self.new }
        ensures lanes { self.new.lanes ≡ self.old.lanes }
        ensures sound { IsRecorded J.meaning self.new }
    {
        let (time, notes) = self.core.end_turn();
        self.said.write(notes.as_slice());
        time
    }
}
