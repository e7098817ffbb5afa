//! What a pick does with the first job of the next queue: it goes out, or back.
ghost use Rattle.std.specs.Prelude.{◌≡◌, ℕ, ◌-◌, ◌^◌, ◌<◌, [], Ok, None};
ghost use Rattle.core_queues.specs.Queues.{waiting_of};
ghost use Rattle.core_core.specs.State.{IsBounded};
ghost use Rattle.core_core.specs.Turns.{Picks};
ghost use Rattle.core_core.specs.Answers.{IsReadyTurn};

use super::Core;
use crate::notes::{Notes, two_notes};
use crate::turn::Turn;
use base_jobs::Task;
use base_words::{Key, Note, Order};
use std::alloc::Allocator;

impl<J: Task, A: Allocator + Clone> Core<J, A> {
    /// Picks where a job waits, none is out, no turn is open, and a turn is left.
    pub(super) fn pick_first(&mut self) -> (Turn<J>, Notes<J::Out>)
    where
        J::Out: Copy,
        requires free { self.old.out ≡ None }
        requires no_turn { self.old.bursts.open ≡ None }
        requires turns { self.old.turns < 2 ^ 64 - 1 }
        requires work { (queue : ℕ) × (waiting_of queue self.old.queues ≡ [] → ⊥) }
        ensures picks { Picks self.old (Ok result.0) self.new result.1.items }
        ensures ready { IsReadyTurn J.meaning (Ok result.0) }
        ensures bounded { IsBounded self.new }
    {
        let (key, name, started, job) = self.take_out();
        let Key { vr, queue } = key;
        let picked = Note::Pick(queue, vr);
        let named = name;
        match (self.return_reason(queue), started) {
            (Some(reason), _) => {
                self.hand_back();
                let notes = two_notes(picked, Note::Returned(named, reason));
                (Turn::Back(name, Order::Job(queue, job), reason), notes)
            }
            (None, true) => {
                let notes = two_notes(picked, Note::Resume(named));
                (Turn::Resume(name, queue, job), notes)
            }
            (None, false) => {
                let notes = two_notes(picked, Note::Start(named));
                (Turn::Start(name, queue, job), notes)
            }
        }
    }
}
