//! Orders are taken from the ends of links, carried out, and given their outcomes.

ghost use Rattle.std.specs.Prelude.{◌≡◌, ℕ, ◌+◌, ◌≤◌, ◌≢◌, length, Some, IfSome};
ghost use Rattle.std.specs.Option.{option_map};
ghost use Rattle.base_words.specs.Outcomes.{outcome_note};
ghost use Rattle.base_jobs.specs.Ready.{HasReadyJob};
ghost use Rattle.link_ends.specs.Fits.{Fits};
ghost use Rattle.actor_core.specs.Carried.{IsJustTaken, ReceivesOn};
ghost use Rattle.actor_core.specs.Ends.{GivesMore, IsInOf, IsSameSeat, KeepsIn, told_under};
ghost use Rattle.actor_core.specs.Recorded.{IsRecorded, desk_of, order_taken};
ghost use Rattle.actor_core.specs.Steps.{Delivers, IsNextIn, Receives};
ghost use Rattle.actor_desk.specs.Ends.{KeepsOuts};

use super::Recorded;
use crate::carried::{carry_out, is_of_job};
use crate::handed::{give_if, outcome_of};
use base_jobs::Task;
use base_words::{Envelope, Outcome};
use link_ends::InEnd;
use std::alloc::Allocator;

impl<J: Task<Out = u64>, A: Allocator + Clone> Recorded<J, A> {
    /// Takes the next order from this end, carries it out, and gives its outcome on the end, if it has one yet. Whether there was one.
    #[inline(always)]
    pub fn deliver<I: InEnd<J>>(&mut self, end: &mut I) -> bool
        requires beside { IsInOf (I.inward end.old).from self.old (I.inward end.old) }
        requires room { length self.old.journal.notes + 2 ≤ self.old.journal.room }
        ensures delivers { Delivers self.old (I.inward end.old) self.new (I.inward end.new) result }
        ensures beside { IsInOf (I.inward end.old).from self.new (I.inward end.new) }
        ensures others { (sender : ℕ) → sender ≢ (I.inward end.old).from → KeepsIn sender self.old self.new }
        ensures outs { KeepsOuts (desk_of self.old) (desk_of self.new) }
        ensures seat { IsSameSeat self.old self.new }
        ensures lanes { self.new.lanes ≡ self.old.lanes }
        ensures sound { IsRecorded J.meaning self.new }
        ensures untouched { I.untouched end.new ≡ I.untouched end.old }
    {
        let _said = &self.said;
        match end.take() {
            Some(envelope) => {
                self.receive_one(end, envelope);
                true
            }
            None => false,
        }
    }

    /// Carries out an order that was just taken from this end, and gives its outcome on the end, if it has one yet. Most orders are jobs: what
    /// a command needs stays out of their way.
    #[inline(always)]
    fn receive_one<I: InEnd<J>>(&mut self, end: &mut I, envelope: Envelope<J>)
        requires taken { IsJustTaken self.old envelope (I.inward end.old) }
        requires ready { HasReadyJob J.meaning envelope.order }
        requires room { length self.old.journal.notes + 2 ≤ self.old.journal.room }
        ensures receives { ReceivesOn J.meaning self.old envelope (I.inward end.old) self.new (I.inward end.new) }
        ensures untouched { I.untouched end.new ≡ I.untouched end.old }
    {
        if is_of_job(&envelope.order) {
            self.receive_on(end, envelope);
        } else {
            self.receive_apart(end, envelope);
        }
    }

    /// Carries out an order that was just taken, where it is called.
    #[inline(always)]
    fn receive_on<I: InEnd<J>>(&mut self, end: &mut I, envelope: Envelope<J>)
        requires taken { IsJustTaken self.old envelope (I.inward end.old) }
        requires ready { HasReadyJob J.meaning envelope.order }
        requires room { length self.old.journal.notes + 2 ≤ self.old.journal.room }
        ensures receives { ReceivesOn J.meaning self.old envelope (I.inward end.old) self.new (I.inward end.new) }
        ensures untouched { I.untouched end.new ≡ I.untouched end.old }
    {
        let number = envelope.name.number;
        let outcome = self.receive(envelope);
        give_if(end, number, outcome);
    }

    /// Carries out an order that was just taken, in a call of its own.
    #[inline(never)]
    fn receive_apart<I: InEnd<J>>(&mut self, end: &mut I, envelope: Envelope<J>)
        requires taken { IsJustTaken self.old envelope (I.inward end.old) }
        requires ready { HasReadyJob J.meaning envelope.order }
        requires room { length self.old.journal.notes + 2 ≤ self.old.journal.room }
        ensures receives { ReceivesOn J.meaning self.old envelope (I.inward end.old) self.new (I.inward end.new) }
        ensures untouched { I.untouched end.new ≡ I.untouched end.old }
    {
        self.receive_on(end, envelope);
    }

    /// Carries out the next order of its sender. Its outcome, if it has one yet.
    #[inline(always)]
    fn receive(&mut self, envelope: Envelope<J>) -> Option<Outcome<J, u64>>
        requires next { IsNextIn self.old envelope.name }
        requires ready { HasReadyJob J.meaning envelope.order }
        requires room { length self.old.journal.notes + 2 ≤ self.old.journal.room }
        ensures receives { Receives self.old envelope self.new }
        ensures gives { GivesMore (told_under envelope.name (option_map outcome_note result)) self.old.journal.notes self.new.journal.notes }
        ensures fits { IfSome result (λ outcome. Fits J.meaning envelope.order outcome) }
        ensures stands { order_taken self.new.took envelope.name ≡ Some envelope.order }
        ensures sound { IsRecorded J.meaning self.new }
        ensures seat { IsSameSeat self.old self.new }
        ensures lanes { self.new.lanes ≡ self.old.lanes }
    {
        // The queue and the shares of a command are within their ranges, which the law of its journal asks.
        let _within_ranges = envelope.order.without_job();
        self.took = self.took.with(&envelope);
        let delivered = carry_out(&mut self.core, &mut self.said, envelope);
        outcome_of(delivered)
    }
}
