//! One actor's submissions, to all cores.
//!
//! A desk has a lane for each core. It owns no link: each call is lent the actor's out ends, and keeps each lane in step with its end. A
//! ticket of another actor, or of a core that isn't there, is refused here; what its number means is its lane's.

ghost use Rattle.std.specs.Prelude.{◌≡◌, ◌↔◌, ◌<◌, ◌≤◌, ℕ, length, Option, Err, IfOk, IfSome, OnErr, IsTrue, slice_get};
ghost use Rattle.base_words.specs.declared.names.TicketError.TheVariants.{Unknown};
ghost use Rattle.base_words.specs.declared.order.SendError.TheVariants.{NoCore};
ghost use Rattle.base_words.specs.Outcomes.{IsSpelledOutcome};
ghost use Rattle.base_jobs.specs.Ready.{HasReadyJob};
ghost use Rattle.link_ends.specs.Calls.{Sends};
ghost use Rattle.link_ends.specs.Fits.{Fits};
ghost use Rattle.actor_desk.specs.Held.{count_of, Adds};
ghost use Rattle.actor_desk.specs.Desks.{fresh_desk, IsFor, AreEndsOf, AreUnused, AtCore};
ghost use Rattle.actor_desk.specs.Lanes.{IsGot, FitsSent};
ghost use Rattle.actor_desk.specs.Steps.{CollectsNext, CollectsAll, Redeems, Detaches, numbered};
ghost use Rattle.actor_desk.specs.Told.{told_of};
ghost use Rattle.actor_desk.specs.declared.entry.Entry.TheVariants.{Pending};

use crate::lane::Lane;
use base_jobs::Task;
use base_words::{
    ActorNo, CoreNo, JobId, Order, Outcome, OutcomeNote, SendError, Ticket, TicketError,
};
use link_ends::OutEnd;
use std::alloc::{AllocError, Global};
use std::marker::Model;

/// One actor's view of its submissions. Each call is lent the actor's out ends, one for each core.
#[derive(Drop)]
pub struct Desk<J: Task> {
    actor: ActorNo,
    lanes: Vec<Lane<J>, Global>,
}

impl<J: Task> Model for Desk<J> {
    ghost use Rattle.actor_desk.specs.Desks.{Desk};

    ghost Value = { Desk J J.Out };

    ghost view = { λ d. record { actor = d.actor; lanes = d.lanes.items } };
}

impl<J: Task> Desk<J> {
    /// Whether a name is this actor's, and there is a core of its number.
    #[inline(always)]
    fn is_for(&self, ticket: Ticket) -> bool
        ensures { IsTrue result ↔ IsFor self.now ticket }
    {
        let name = ticket.name();
        name.from == self.actor && (name.to.0 as usize) < self.lanes.len()
    }

    /// The outcome of a submission. It is gone from then on, and its place of the link is free.
    ///
    /// # Errors
    ///
    /// `Unknown` where the name is another actor's, names no core or has a number that was never given here; `Gone` where it was
    /// redeemed or detached before; `Pending` where its outcome isn't collected yet.
    #[inline(always)]
    pub fn redeem<O: OutEnd<J>>(
        &mut self,
        ends: &mut [O],
        ticket: Ticket,
    ) -> Result<Outcome<J, J::Out>, TicketError>
        requires { AreEndsOf (Fits J.meaning) O.out O.credited self.old ends.old }
        ensures ends { AreEndsOf (Fits J.meaning) O.out O.credited self.new ends.new }
        ensures unknown { (¬ IsFor self.old ticket) → (result ≡ Err Unknown) × (self.new ≡ self.old) × (ends.new ≡ ends.old) }
        ensures redeems { IsFor self.old ticket → AtCore self.old self.new ends.old ends.new ticket.to (λ lane later end now.
            (O.untouched now ≡ O.untouched end) × (O.out now ≡ O.out end) × Redeems lane later ticket.number (O.credited end) (O.credited now) result
            × IfOk result (IsGot (O.out end) ticket.number) × IfOk result (FitsSent (Fits J.meaning) (O.out end) ticket.number)) }
    {
        if !self.is_for(ticket) {
            return Err(TicketError::Unknown);
        }
        let name = ticket.name();
        self.redeem_at(ends, name.to.0 as usize, name.number)
    }

    #[inline(always)]
    fn redeem_at<O: OutEnd<J>>(
        &mut self,
        ends: &mut [O],
        core: usize,
        number: u64,
    ) -> Result<Outcome<J, J::Out>, TicketError>
        requires ends { AreEndsOf (Fits J.meaning) O.out O.credited self.old ends.old }
        requires core { core < length self.old.lanes }
        ensures ends { AreEndsOf (Fits J.meaning) O.out O.credited self.new ends.new }
        ensures redeems { AtCore self.old self.new ends.old ends.new core (λ lane later end now.
            (O.untouched now ≡ O.untouched end) × (O.out now ≡ O.out end) × Redeems lane later number (O.credited end) (O.credited now) result
            × IfOk result (IsGot (O.out end) number) × IfOk result (FitsSent (Fits J.meaning) (O.out end) number)) }
    {
        let lane = &mut self.lanes[core];
        let end = &mut ends[core];
        lane.redeem(end, number)
    }

    /// Nobody will ask for the outcome of a submission. It is dropped, at once or when it is collected, and its place of the link is free.
    ///
    /// # Errors
    ///
    /// `Unknown` and `Gone`, as `redeem`.
    pub fn detach<O: OutEnd<J>>(
        &mut self,
        ends: &mut [O],
        ticket: Ticket,
    ) -> Result<(), TicketError>
        requires { AreEndsOf (Fits J.meaning) O.out O.credited self.old ends.old }
        ensures ends { AreEndsOf (Fits J.meaning) O.out O.credited self.new ends.new }
        ensures unknown { (¬ IsFor self.old ticket) → (result ≡ Err Unknown) × (self.new ≡ self.old) × (ends.new ≡ ends.old) }
        ensures detaches { IsFor self.old ticket → AtCore self.old self.new ends.old ends.new ticket.to (λ lane later end now.
            (O.untouched now ≡ O.untouched end) × (O.out now ≡ O.out end) × Detaches lane later ticket.number (O.credited end) (O.credited now) result) }
    {
        if !self.is_for(ticket) {
            return Err(TicketError::Unknown);
        }
        let name = ticket.name();
        self.detach_at(ends, name.to.0 as usize, name.number)
    }

    fn detach_at<O: OutEnd<J>>(
        &mut self,
        ends: &mut [O],
        core: usize,
        number: u64,
    ) -> Result<(), TicketError>
        requires ends { AreEndsOf (Fits J.meaning) O.out O.credited self.old ends.old }
        requires core { core < length self.old.lanes }
        ensures ends { AreEndsOf (Fits J.meaning) O.out O.credited self.new ends.new }
        ensures detaches { AtCore self.old self.new ends.old ends.new core (λ lane later end now.
            (O.untouched now ≡ O.untouched end) × (O.out now ≡ O.out end) × Detaches lane later number (O.credited end) (O.credited now) result) }
    {
        let lane = &mut self.lanes[core];
        let end = &mut ends[core];
        lane.detach(end, number)
    }

    /// Sends an order to a core, under the next number of that link.
    ///
    /// # Errors
    ///
    /// `NoCore` where there is no such core; otherwise as the link. The order comes back.
    #[inline(always)]
    pub fn submit<O: OutEnd<J>>(
        &mut self,
        ends: &mut [O],
        to: CoreNo,
        order: Order<J>,
    ) -> Result<Ticket, SendError<J>>
        requires ends { AreEndsOf (Fits J.meaning) O.out O.credited self.old ends.old }
        requires ready { HasReadyJob J.meaning order }
        ensures ends { AreEndsOf (Fits J.meaning) O.out O.credited self.new ends.new }
        ensures no_core { length self.old.lanes ≤ to → (result ≡ Err (NoCore order)) × (self.new ≡ self.old) × (ends.new ≡ ends.old) }
        ensures named { IfOk result (λ name. (name.from ≡ self.old.actor) × (name.to ≡ to)) }
        ensures submits { to < length self.old.lanes → AtCore self.old self.new ends.old ends.new to (λ lane later end now.
            (O.untouched now ≡ O.untouched end) × (O.credited now ≡ O.credited end) × Sends (O.out end) (O.credited end) order (O.out now) (numbered result)
            × IfOk result (λ name. Adds lane.entries later.entries name.number Pending) × OnErr result (later ≡ lane)) }
    {
        let core = to.0 as usize;
        if core >= self.lanes.len() {
            return Err(SendError::NoCore(order));
        }
        let from = self.actor;
        match self.submit_at(ends, core, order) {
            Ok(number) => Ok(Ticket::named(JobId { from, to, number })),
            Err(error) => Err(error),
        }
    }

    #[inline(always)]
    fn submit_at<O: OutEnd<J>>(
        &mut self,
        ends: &mut [O],
        core: usize,
        order: Order<J>,
    ) -> Result<u64, SendError<J>>
        requires ends { AreEndsOf (Fits J.meaning) O.out O.credited self.old ends.old }
        requires core { core < length self.old.lanes }
        requires ready { HasReadyJob J.meaning order }
        ensures ends { AreEndsOf (Fits J.meaning) O.out O.credited self.new ends.new }
        ensures submits { AtCore self.old self.new ends.old ends.new core (λ lane later end now.
            (O.untouched now ≡ O.untouched end) × (O.credited now ≡ O.credited end) × Sends (O.out end) (O.credited end) order (O.out now) result
            × IfOk result (λ number. Adds lane.entries later.entries number Pending) × OnErr result (later ≡ lane)) }
    {
        let lane = &mut self.lanes[core];
        let end = &mut ends[core];
        lane.submit(end, order)
    }

    /// Collects the next outcome that the link of a core shows, if it shows one: its name, and what became of the submission.
    ///
    /// The outcome is kept for its ticket, or dropped where that is detached.
    pub fn collect_one<O: OutEnd<J>>(
        &mut self,
        ends: &mut [O],
        core: CoreNo,
    ) -> Option<(JobId, OutcomeNote<J::Out>)>
    where
        J::Out: Copy,
        requires ends { AreEndsOf (Fits J.meaning) O.out O.credited self.old ends.old }
        requires core { core < length self.old.lanes }
        ensures ends { AreEndsOf (Fits J.meaning) O.out O.credited self.new ends.new }
        ensures spelled { IfSome result (λ told. IsSpelledOutcome told.1) }
        ensures collects { AtCore self.old self.new ends.old ends.new core (λ lane later end now.
            (O.untouched now ≡ O.untouched end) × (found : Option (ℕ × Outcome J J.Out)) × (result ≡ told_of self.old.actor core found)
            × CollectsNext lane later (O.out end) (O.out now) (O.credited end) (O.credited now) found) }
    {
        let from = self.actor;
        self.collect_told_at(ends, core.0 as usize, from, core)
    }

    fn collect_told_at<O: OutEnd<J>>(
        &mut self,
        ends: &mut [O],
        core: usize,
        from: ActorNo,
        to: CoreNo,
    ) -> Option<(JobId, OutcomeNote<J::Out>)>
    where
        J::Out: Copy,
        requires ends { AreEndsOf (Fits J.meaning) O.out O.credited self.old ends.old }
        requires core { core < length self.old.lanes }
        ensures ends { AreEndsOf (Fits J.meaning) O.out O.credited self.new ends.new }
        ensures spelled { IfSome result (λ told. IsSpelledOutcome told.1) }
        ensures collects { AtCore self.old self.new ends.old ends.new core (λ lane later end now.
            (O.untouched now ≡ O.untouched end) × (found : Option (ℕ × Outcome J J.Out)) × (result ≡ told_of from to found)
            × CollectsNext lane later (O.out end) (O.out now) (O.credited end) (O.credited now) found) }
    {
        let lane = &mut self.lanes[core];
        let end = &mut ends[core];
        lane.collect_told(end, from, to)
    }

    /// Collects all outcomes that the link of a core shows. How many there were.
    #[inline(always)]
    pub fn collect_from<O: OutEnd<J>>(&mut self, ends: &mut [O], core: CoreNo) -> usize
        requires ends { AreEndsOf (Fits J.meaning) O.out O.credited self.old ends.old }
        requires core { core < length self.old.lanes }
        ensures ends { AreEndsOf (Fits J.meaning) O.out O.credited self.new ends.new }
        ensures collects { AtCore self.old self.new ends.old ends.new core (λ lane later end now.
            (O.untouched now ≡ O.untouched end) × CollectsAll lane later (O.out end) (O.out now) (O.credited end) (O.credited now) result) }
    {
        self.collect_at(ends, core.0 as usize)
    }

    #[inline(always)]
    fn collect_at<O: OutEnd<J>>(&mut self, ends: &mut [O], core: usize) -> usize
        requires ends { AreEndsOf (Fits J.meaning) O.out O.credited self.old ends.old }
        requires core { core < length self.old.lanes }
        ensures ends { AreEndsOf (Fits J.meaning) O.out O.credited self.new ends.new }
        ensures collects { AtCore self.old self.new ends.old ends.new core (λ lane later end now.
            (O.untouched now ≡ O.untouched end) × CollectsAll lane later (O.out end) (O.out now) (O.credited end) (O.credited now) result) }
    {
        let lane = &mut self.lanes[core];
        let end = &mut ends[core];
        lane.collect(end)
    }

    /// How many submissions to a core are outstanding.
    pub fn outstanding<O: OutEnd<J>>(&self, ends: &[O], core: CoreNo) -> u64
        requires ends { AreEndsOf (Fits J.meaning) O.out O.credited self.now ends.now }
        requires core { core < length self.now.lanes }
        ensures { IfSome (slice_get self.now.lanes core) (λ lane. result ≡ count_of lane.entries) }
    {
        self.outstanding_at(ends, core.0 as usize)
    }

    fn outstanding_at<O: OutEnd<J>>(&self, ends: &[O], core: usize) -> u64
        requires ends { AreEndsOf (Fits J.meaning) O.out O.credited self.now ends.now }
        requires core { core < length self.now.lanes }
        ensures { IfSome (slice_get self.now.lanes core) (λ lane. result ≡ count_of lane.entries) }
    {
        let lane = &self.lanes[core];
        let end = &ends[core];
        lane.outstanding(end)
    }

    /// A desk with room for `cap` outstanding submissions to each core. The other calls ask for no memory; no clause says so.
    ///
    /// # Errors
    ///
    /// Want of memory, and of nothing else.
    pub fn open(alloc: Global, actor: ActorNo, cores: u8, cap: u16) -> Result<Self, AllocError>
        ensures { IfOk result (λ desk. desk ≡ fresh_desk actor cores cap) }
    {
        let mut lanes = Vec::with_capacity(alloc, cores as usize)?;
        for _ in 0..cores {
            lanes.push_reserved(Lane::open(alloc, cap)?);
        }
        Ok(Desk { actor, lanes })
    }

    /// For the proofs alone: ends on which nothing was done are those of a desk of which no number was given.
    pub fn begin<O: OutEnd<J>>(&self, ends: &[O], cores: u8, cap: u16)
        requires fresh { self.now ≡ fresh_desk self.now.actor cores cap }
        requires unused { AreUnused O.out O.credited cores cap ends.now }
        ensures { AreEndsOf (Fits J.meaning) O.out O.credited self.now ends.now }
    {}
}
