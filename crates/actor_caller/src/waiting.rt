//! The calls of a caller that waits.
//!
//! A caller that nobody shares waits on its own thread. It asks for what it wants, and rests if that isn't there yet.
//!
//! - A rest looks at all links 1,024 times, and then lies down on the outside actor's bell, looks once more, and parks.
//! - A rest may end without an outcome, and an outcome may be another's. So each wait asks again behind it.
//! - A submission that waits for room rests in the same way, since a place comes free by an outcome alone.

ghost use Rattle.std.specs.Prelude.{◌≡◌, ◌<◌, ◌↔◌, IfNone, IfOk, IfSome, IsTrue, is_none, length};
ghost use Rattle.base_jobs.specs.Ready.{HasReadyJob};
ghost use Rattle.link_ends.specs.Fits.{Fits};
ghost use Rattle.actor_caller.specs.Rings.{IsBellOf};
ghost use Rattle.actor_caller.specs.Waiting.{AreAllPending, CollectsEach, LooksOnce, LooksOnly, RedeemsAtLast, RedeemsFirst, SubmitsAtLast, WaitsForAny};

use crate::caller::{Beside, Caller};
use crate::error::SubmitError;
use crate::looker::Looker;
use crate::rings::Waker;
use crate::shared::Away;
use actor_seat::{LastLook, OwnBell, Woken};
use base_jobs::Task;
use base_words::{ActorNo, CoreNo, Order, Outcome, SendError, Ticket, TicketError};
use note_journal::Sink;
use std::alloc::{AllocError, Global};
use std::sync::Wait;

/// How often a caller looks for outcomes before it parks.
const TRIES: u32 = 1024;

impl<J: Task<Out = u64>, S: Sink, H: Beside<Job = J>> Caller<J, S, H> {
    /// Collects all outcomes that the links show, from each core. Whether there was one.
    pub(crate) fn collect_all(&mut self) -> bool
        ensures collects { CollectsEach self.old self.new }
        ensures told { IsTrue result ↔ (length self.old.desk.journal.notes < length self.new.desk.journal.notes) }
    {
        let mut some = false;
        for core in 0..self.cores {
            if self.collect(CoreNo(core)) > 0 {
                some = true;
            }
        }
        some
    }

    /// Looks for outcomes until there is one, at most so often as a caller does before it parks. Whether there was one.
    fn collects_soon(&mut self) -> bool
        ensures looks { LooksOnly self.old self.new }
        ensures told { IsTrue result ↔ (length self.old.desk.journal.notes < length self.new.desk.journal.notes) }
    {
        for _ in 1..TRIES {
            if self.collect_all() {
                return true;
            }
        }
        self.collect_all()
    }

    /// The caller's own bell, in hands of its own: all of the runtime is used while the caller lies down.
    ///
    /// # Errors
    ///
    /// If it is in too many.
    fn own_bell(&self) -> Result<OwnBell<Caller<J, S, H>>, AllocError>
        ensures { IfOk result (λ own. IsBellOf self.now.desk.cores self.now.rung.names own) }
    {
        self.bells.own(ActorNo(self.cores))
    }

    /// The right to ring the caller's own bell.
    ///
    /// # Errors
    ///
    /// If there is no memory.
    pub(crate) fn waker(&self, alloc: Global) -> Result<Waker, AllocError> {
        self.bells.waker(alloc, ActorNo(self.cores))
    }

    /// Lies down on the caller's own bell, looks once more at all links, and parks until that bell rings if there was no outcome.
    fn rest_on<'a, R: Wait>(
        &mut self,
        rt: &R,
        own: &'a OwnBell<Caller<J, S, H>>,
    ) -> Option<Woken<'a, Caller<J, S, H>>>
        requires own { IsBellOf self.old.desk.cores self.old.rung.names own.now }
        ensures looks { LooksOnce self.old (is_none result) self.new }
        ensures woken { IfSome result (λ woken. woken.own.now ≡ own.now) }
    {
        let mut nothing = ();
        own.rest(rt, self, &mut nothing)
    }

    /// Waits until there is an outcome: parked, if none comes soon. The worker that gives it rings. It may return before there is one.
    fn rest<R: Wait>(&mut self, rt: &R)
        ensures { LooksOnly self.old self.new }
    {
        if self.collects_soon() {
            return;
        }
        // With a bell in too many hands the caller looks again at once.
        let Ok(own) = self.own_bell() else {
            return;
        };
        let _slept = self.rest_on(rt, &own);
    }

    /// Waits until the outcome of a submission is there, and redeems it.
    ///
    /// # Errors
    ///
    /// `Unknown` and `Gone`. Then it doesn't wait.
    pub fn wait<R: Wait>(&mut self, rt: &R, ticket: Ticket) -> Result<Outcome<J, u64>, TicketError>
        ensures { RedeemsAtLast (Fits J.meaning) ticket self.old result self.new }
    {
        for _ in rt.forever() {
            match self.redeem(ticket) {
                Err(TicketError::Pending) => self.rest(rt),
                answer => return answer,
            }
        }
        unreachable!()
    }

    /// The first of these tickets that isn't pending, with what `redeem` answers of it. None if all are pending.
    fn redeem_first(
        &mut self,
        tickets: &[Ticket],
    ) -> Option<(usize, Result<Outcome<J, u64>, TicketError>)>
        ensures some { IfSome result (λ found. RedeemsFirst (Fits J.meaning) tickets.now self.old found.0 found.1 self.new) }
        ensures none { IfNone result (AreAllPending tickets.now self.old self.new) }
    {
        for place in 0..tickets.len() {
            match self.redeem(tickets[place]) {
                Err(TicketError::Pending) => {}
                answer => return Some((place, answer)),
            }
        }
        None
    }

    /// Waits until the outcome of one of these submissions is there, and redeems it: the place of its ticket, and what `redeem` answers. None if
    /// there are no tickets.
    pub fn wait_any<R: Wait>(
        &mut self,
        rt: &R,
        tickets: &[Ticket],
    ) -> Option<(usize, Result<Outcome<J, u64>, TicketError>)>
        ensures { WaitsForAny (Fits J.meaning) tickets.now self.old result self.new }
    {
        if tickets.is_empty() {
            return None;
        }
        for _ in rt.forever() {
            if let Some(found) = self.redeem_first(tickets) {
                return Some(found);
            }
            self.rest(rt);
        }
        unreachable!()
    }

    /// Submits an order, and waits as long as the link to its core is full.
    ///
    /// # Errors
    ///
    /// As `submit`, except that the link is full.
    pub fn submit_wait<R: Wait>(
        &mut self,
        rt: &R,
        to: CoreNo,
        order: Order<J>,
    ) -> Result<Ticket, SubmitError<J>>
        requires ready { HasReadyJob J.meaning order }
        ensures { SubmitsAtLast 3 to order self.old result self.new }
    {
        let mut order = order;
        for _ in rt.forever() {
            match self.submit(to, order) {
                Err(SubmitError::Send(SendError::Full(back))) => {
                    order = back;
                    self.rest(rt);
                }
                answer => return answer,
            }
        }
        unreachable!()
    }
}

impl<J: Task<Out = u64>, S: Sink, H: Beside<Job = J>> Caller<J, S, Away<H>> {
    /// The caller's own bell, for a handle that leads to sleep on.
    ///
    /// # Errors
    ///
    /// If it is in too many hands.
    pub(crate) fn bell_to_lead<R: Drop>(&self) -> Result<OwnBell<Looker<J, S, H, R>>, AllocError>
        ensures { IfOk result (λ own. IsBellOf self.now.desk.cores self.now.rung.names own) }
    {
        self.bells.own_to_lead(ActorNo(self.cores))
    }
}

/// Before it parks, a caller looks at all its links.
impl<J: Task<Out = u64>, S: Sink, H: Beside<Job = J>> LastLook for Caller<J, S, H> {
    type Local = ();

    ghost use Rattle.actor_caller.specs.Waiting.{LooksOnce};

    ghost IsReady = { λ caller. Unit {0} };

    ghost Looks = { λ old some new. LooksOnce old some new };

    fn look_again(&mut self, _local: &mut ()) -> bool {
        Caller::collect_all(self)
    }
}
