//! The submissions of one actor to one core.
//!
//! A number is given with each order that the link takes. From then on its shelf tells of it: pending, collected or detached. It leaves the
//! shelf when both its outcome was collected and its ticket was redeemed or detached, and its place of the link is free then.

ghost use Rattle.std.specs.Prelude.{◌≡◌, ◌↔◌, ℕ, Option, is_some, IfOk, IfSome, IsTrue, OnErr};
ghost use Rattle.base_words.specs.Outcomes.{IsSpelledOutcome};
ghost use Rattle.base_jobs.specs.Ready.{HasReadyJob};
ghost use Rattle.link_ends.specs.Calls.{Sends};
ghost use Rattle.link_ends.specs.Fits.{Fits};
ghost use Rattle.actor_desk.specs.Held.{count_of, Adds};
ghost use Rattle.actor_desk.specs.Lanes.{fresh_lane, IsGiven, IsLaneOf, IsJustGot, IsGot, FitsSent};
ghost use Rattle.actor_desk.specs.Steps.{CollectsNext, CollectsAll, Keeps, Redeems, Detaches};
ghost use Rattle.actor_desk.specs.Told.{told_of};
ghost use Rattle.actor_desk.specs.declared.entry.Entry.TheVariants.{Pending};

use crate::entry::Standing;
use crate::shelf::Shelf;
use base_jobs::Task;
use base_words::{ActorNo, CoreNo, JobId, Order, Outcome, OutcomeNote, SendError, TicketError};
use link_ends::OutEnd;
use std::alloc::{AllocError, Global};
use std::marker::Model;

/// The submissions of one actor to one core.
#[derive(Drop)]
pub struct Lane<J: Task> {
    shelf: Shelf<J, J::Out>,
    /// How many numbers were given.
    count: u64,
    /// The last of them, or 0.
    last: u64,
}

impl<J: Task> Model for Lane<J> {
    ghost use Rattle.actor_desk.specs.Lanes.{Lane};

    ghost Value = { Lane J J.Out };

    ghost view = { λ l. record { entries = l.shelf.entries; room = l.shelf.room; count = l.count; last = l.last } };

    ghost use Rattle.std.specs.Prelude.{◌≤◌};

    ghost invariant = { λ l. l.count ≤ l.last };
}

impl<J: Task> Lane<J> {
    pub fn open(alloc: Global, room: u16) -> Result<Self, AllocError>
        ensures { IfOk result (λ lane. lane ≡ fresh_lane room) }
    {
        Ok(Lane {
            shelf: Shelf::open(alloc, room)?,
            count: 0,
            last: 0,
        })
    }

    /// Sends an order, whose number is outstanding from then on.
    #[inline(always)]
    pub fn submit<O: OutEnd<J>>(
        &mut self,
        end: &mut O,
        order: Order<J>,
    ) -> Result<u64, SendError<J>>
        requires lane { IsLaneOf (Fits J.meaning) self.old (O.out end.old) (O.credited end.old) }
        requires ready { HasReadyJob J.meaning order }
        ensures lane { IsLaneOf (Fits J.meaning) self.new (O.out end.new) (O.credited end.new) }
        ensures untouched { O.untouched end.new ≡ O.untouched end.old }
        ensures credited { O.credited end.new ≡ O.credited end.old }
        ensures sends { Sends (O.out end.old) (O.credited end.old) order (O.out end.new) result }
        ensures accepted { IfOk result (λ number. Adds self.old.entries self.new.entries number Pending) }
        ensures refused { OnErr result (self.new ≡ self.old) }
    {
        let number = end.send(order)?;
        self.shelf.put(number);
        self.count += 1;
        self.last = number;
        Ok(number)
    }

    /// Takes in an outcome that was just collected: it is kept, or dropped where nobody will ask for it.
    #[inline(always)]
    fn keep<O: OutEnd<J>>(&mut self, end: &mut O, number: u64, outcome: Outcome<J, J::Out>)
        requires { IsJustGot (Fits J.meaning) self.old (O.out end.old) (O.credited end.old) number outcome }
        ensures lane { IsLaneOf (Fits J.meaning) self.new (O.out end.new) (O.credited end.new) }
        ensures untouched { O.untouched end.new ≡ O.untouched end.old }
        ensures out { O.out end.new ≡ O.out end.old }
        ensures rest { self.new ≡ record self.old { entries = self.new.entries } }
        ensures keeps { Keeps self.old.entries self.new.entries number outcome (O.credited end.old) (O.credited end.new) }
    {
        match self.shelf.standing(number) {
            Standing::Pending => self.shelf.keep(number, outcome),
            Standing::Detached => {
                self.shelf.forget(number);
                drop(outcome);
                end.credit();
            }
            Standing::Nothing | Standing::Collected => unreachable!(),
        }
    }

    /// Collects one outcome, if the link shows one. Whether it did.
    #[inline(always)]
    pub(crate) fn collect_one<O: OutEnd<J>>(&mut self, end: &mut O) -> bool
        requires { IsLaneOf (Fits J.meaning) self.old (O.out end.old) (O.credited end.old) }
        ensures lane { IsLaneOf (Fits J.meaning) self.new (O.out end.new) (O.credited end.new) }
        ensures untouched { O.untouched end.new ≡ O.untouched end.old }
        ensures collects { (found : Option (ℕ × Outcome J J.Out)) × (result ≡ is_some found)
            × CollectsNext self.old self.new (O.out end.old) (O.out end.new) (O.credited end.old) (O.credited end.new) found }
    {
        let Some((number, outcome)) = end.collect() else {
            return false;
        };
        self.keep(end, number, outcome);
        true
    }

    /// Collects one outcome, if the link from this actor to this core shows one. Its name, and what became of the submission.
    #[inline(always)]
    pub fn collect_told<O: OutEnd<J>>(
        &mut self,
        end: &mut O,
        from: ActorNo,
        to: CoreNo,
    ) -> Option<(JobId, OutcomeNote<J::Out>)>
    where
        J::Out: Copy,
        requires { IsLaneOf (Fits J.meaning) self.old (O.out end.old) (O.credited end.old) }
        ensures lane { IsLaneOf (Fits J.meaning) self.new (O.out end.new) (O.credited end.new) }
        ensures untouched { O.untouched end.new ≡ O.untouched end.old }
        ensures spelled { IfSome result (λ told. IsSpelledOutcome told.1) }
        ensures collects { (found : Option (ℕ × Outcome J J.Out)) × (result ≡ told_of from to found)
            × CollectsNext self.old self.new (O.out end.old) (O.out end.new) (O.credited end.old) (O.credited end.new) found }
    {
        let Some((number, outcome)) = end.collect() else {
            return None;
        };
        let told = outcome.note();
        self.keep(end, number, outcome);
        Some((JobId { from, to, number }, told))
    }

    /// Collects all outcomes that the link shows. How many there were.
    #[inline(always)]
    pub(crate) fn collect<O: OutEnd<J>>(&mut self, end: &mut O) -> usize
        requires { IsLaneOf (Fits J.meaning) self.old (O.out end.old) (O.credited end.old) }
        ensures lane { IsLaneOf (Fits J.meaning) self.new (O.out end.new) (O.credited end.new) }
        ensures untouched { O.untouched end.new ≡ O.untouched end.old }
        ensures collects { CollectsAll self.old self.new (O.out end.old) (O.out end.new) (O.credited end.old) (O.credited end.new) result }
    {
        let mut count = 0;
        while self.collect_one(end) {
            count += 1;
        }
        count
    }

    /// How many submissions are outstanding.
    pub fn outstanding<O: OutEnd<J>>(&self, end: &O) -> u64
        requires { IsLaneOf (Fits J.meaning) self.now (O.out end.now) (O.credited end.now) }
        ensures { result ≡ count_of self.now.entries }
    {
        end.outstanding()
    }

    #[inline(always)]
    fn is_given(&self, number: u64) -> bool
        ensures { IsTrue result ↔ IsGiven self.now number }
    {
        self.last - self.count < number && number <= self.last
    }

    /// The outcome of a number, which is gone from then on.
    #[inline(always)]
    pub fn redeem<O: OutEnd<J>>(
        &mut self,
        end: &mut O,
        number: u64,
    ) -> Result<Outcome<J, J::Out>, TicketError>
        requires { IsLaneOf (Fits J.meaning) self.old (O.out end.old) (O.credited end.old) }
        ensures lane { IsLaneOf (Fits J.meaning) self.new (O.out end.new) (O.credited end.new) }
        ensures untouched { O.untouched end.new ≡ O.untouched end.old }
        ensures out { O.out end.new ≡ O.out end.old }
        ensures redeems { Redeems self.old self.new number (O.credited end.old) (O.credited end.new) result }
        ensures given { IfOk result (λ outcome. IsGot (O.out end.old) number outcome) }
        ensures fits { IfOk result (λ outcome. FitsSent (Fits J.meaning) (O.out end.old) number outcome) }
    {
        if !self.is_given(number) {
            return Err(TicketError::Unknown);
        }
        match self.shelf.standing(number) {
            Standing::Nothing | Standing::Detached => Err(TicketError::Gone),
            Standing::Pending => Err(TicketError::Pending),
            Standing::Collected => {
                let outcome = self.shelf.take(number);
                end.credit();
                Ok(outcome)
            }
        }
    }

    /// Nobody will ask for the outcome of a number.
    pub fn detach<O: OutEnd<J>>(&mut self, end: &mut O, number: u64) -> Result<(), TicketError>
        requires { IsLaneOf (Fits J.meaning) self.old (O.out end.old) (O.credited end.old) }
        ensures lane { IsLaneOf (Fits J.meaning) self.new (O.out end.new) (O.credited end.new) }
        ensures untouched { O.untouched end.new ≡ O.untouched end.old }
        ensures out { O.out end.new ≡ O.out end.old }
        ensures detaches { Detaches self.old self.new number (O.credited end.old) (O.credited end.new) result }
    {
        if !self.is_given(number) {
            return Err(TicketError::Unknown);
        }
        match self.shelf.standing(number) {
            Standing::Nothing | Standing::Detached => Err(TicketError::Gone),
            Standing::Pending => {
                self.shelf.let_go(number);
                Ok(())
            }
            Standing::Collected => {
                drop(self.shelf.take(number));
                end.credit();
                Ok(())
            }
        }
    }
}
