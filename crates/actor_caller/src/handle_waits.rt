//! How a handle waits: it holds the lock for each look, and for no sleep.
//!
//! A wait goes round until its outcome isn't pending:
//!
//! 1. With the lock it redeems. If the outcome is pending and another leads, it follows. If nobody leads it collects, and leads if nothing came.
//! 2. Who leads looks for the outcomes of all, and sleeps on the outside actor's bell (looker.rt). Who follows lies down on `moved`, redeems once
//!    more, and sleeps if nothing came (follower.rt), so it misses no ring.
//! 3. Then it redeems again. What came may be another's.
//!
//! A wait with a limit neither leads nor follows: it looks and naps.

ghost use Rattle.std.specs.Prelude.{◌≡◌, ◌≢◌, Err};
ghost use Rattle.base_words.specs.declared.names.TicketError.TheVariants.{Pending, Unknown};
ghost use Rattle.link_ends.specs.Fits.{Fits};
ghost use Rattle.actor_caller.specs.Tickets.{RedeemsHere};
ghost use Rattle.actor_caller.specs.Callers.{IsAmongCalls, MayCollect};

use crate::caller::Beside;
use crate::follower::follow;
use crate::handle::{CallerTicket, Handle};
use crate::looker::lead;
use crate::shared::Inside;
use base_jobs::Task;
use base_words::{Outcome, Ticket, TicketError};
use note_journal::Sink;
use std::rt::Clock;
use std::sync::Wait;
use std::thread;
use std::time::{Duration, Instant};

/// The longest nap of one that waits for so long at most.
const NAP_MILLIS: u64 = 1;

/// What one does whose outcome isn't there yet.
#[derive(Drop)]
enum Next {
    /// Outcomes were collected: it looks again.
    Again,
    /// Nobody led: it leads.
    Lead,
    /// Another leads: it sleeps until that one rings.
    Follow,
}

impl<J: Task<Out = u64>, S: Sink, H: Beside<Job = J>> Handle<J, S, H> {
    /// Redeems, and says what one does whose outcome isn't there yet.
    #[tactic(auto, using(crate::proofs::CallsMade::redeem_call, crate::proofs::CallsMade::may_call))]
    fn look<R: Wait>(&self, rt: &R, ticket: Ticket) -> (Result<Outcome<J, u64>, TicketError>, Next)
        ensures { IsAmongCalls J.meaning (λ old new. RedeemsHere (Fits J.meaning) ticket old result.0 new) self.now.begun }
    {
        let (mut inside, loan) = self.shared.hall.take(rt);
        let answer = inside.caller.redeem(ticket);
        let next = match &answer {
            Err(TicketError::Pending) => next_of(&mut inside),
            _ => Next::Again,
        };
        self.shared.hall.give(inside, loan);
        (answer, next)
    }

    /// Waits until the outcome of a submission of this handle is there, and redeems it. While it sleeps, others make their calls.
    ///
    /// # Errors
    ///
    /// `Unknown` and `Gone`, as `redeem`. Then it doesn't wait.
    pub fn wait<R: Wait + Copy + Drop>(
        &self,
        rt: &R,
        ticket: CallerTicket,
    ) -> Result<Outcome<J, u64>, TicketError>
        ensures redeems { ticket.handle ≡ self.now.number → IsAmongCalls J.meaning (λ old new. RedeemsHere (Fits J.meaning) ticket.ticket old result new) self.now.begun }
        ensures there { result ≡ Err Pending → ⊥ }
        ensures others { ticket.handle ≢ self.now.number → result ≡ Err Unknown }
    {
        if self.owns(&ticket) {
            self.wait_own(rt, ticket.ticket)
        } else {
            Err(TicketError::Unknown)
        }
    }

    /// The same of a submission of this handle.
    fn wait_own<R: Wait + Copy + Drop>(
        &self,
        rt: &R,
        ticket: Ticket,
    ) -> Result<Outcome<J, u64>, TicketError>
        ensures redeems { IsAmongCalls J.meaning (λ old new. RedeemsHere (Fits J.meaning) ticket old result new) self.now.begun }
        ensures there { result ≡ Err Pending → ⊥ }
    {
        for _ in rt.forever() {
            let answer = self.round(rt, ticket);
            if !matches!(answer, Err(TicketError::Pending)) {
                return answer;
            }
        }
        unreachable!()
    }

    /// Redeems, and sleeps if the outcome isn't there yet.
    fn round<R: Wait + Copy + Drop>(
        &self,
        rt: &R,
        ticket: Ticket,
    ) -> Result<Outcome<J, u64>, TicketError>
        ensures { IsAmongCalls J.meaning (λ old new. RedeemsHere (Fits J.meaning) ticket old result new) self.now.begun }
    {
        let (answer, next) = self.look(rt, ticket);
        match next {
            Next::Again => {}
            Next::Lead => lead(&self.shared, rt),
            Next::Follow => return follow(&*self.shared, rt, ticket),
        }
        answer
    }

    /// The same as `wait`, for so long at most. It polls, since no bell has a timed sleep: as long as the outcome isn't there it looks, and naps
    /// for as long as it waited so far, at most 1 ms.
    ///
    /// # Errors
    ///
    /// `Unknown` and `Gone`, as `redeem`; `Pending` if the outcome wasn't there in time, or if there is no time to be read. The ticket can be
    /// asked again then.
    pub fn wait_timeout<R: Wait + Clock>(
        &self,
        rt: &R,
        ticket: CallerTicket,
        limit: Duration,
    ) -> Result<Outcome<J, u64>, TicketError>
        ensures redeems { ticket.handle ≡ self.now.number → IsAmongCalls J.meaning (λ old new. RedeemsHere (Fits J.meaning) ticket.ticket old result new) self.now.begun }
        ensures others { ticket.handle ≢ self.now.number → result ≡ Err Unknown }
    {
        if !self.owns(&ticket) {
            return Err(TicketError::Unknown);
        }
        self.wait_own_for(rt, ticket.ticket, Instant::now(rt).ok(), limit)
    }

    /// The same of a submission of this handle, since this time.
    fn wait_own_for<R: Wait + Clock>(
        &self,
        rt: &R,
        ticket: Ticket,
        begin: Option<Instant>,
        limit: Duration,
    ) -> Result<Outcome<J, u64>, TicketError>
        ensures { IsAmongCalls J.meaning (λ old new. RedeemsHere (Fits J.meaning) ticket old result new) self.now.begun }
    {
        for _ in rt.forever() {
            let answer = self.glance(rt, ticket);
            if !matches!(answer, Err(TicketError::Pending)) || !naps(rt, begin, limit) {
                return answer;
            }
        }
        unreachable!()
    }

    /// Redeems, and collects if the outcome isn't there yet and nobody leads.
    #[tactic(auto, using(crate::proofs::CallsMade::redeem_call, crate::proofs::CallsMade::may_call))]
    fn glance<R: Wait>(&self, rt: &R, ticket: Ticket) -> Result<Outcome<J, u64>, TicketError>
        ensures { IsAmongCalls J.meaning (λ old new. RedeemsHere (Fits J.meaning) ticket old result new) self.now.begun }
    {
        let (mut inside, loan) = self.shared.hall.take(rt);
        let answer = inside.caller.redeem(ticket);
        match &answer {
            Err(TicketError::Pending) => collect_alone(&mut inside),
            _ => {}
        }
        self.shared.hall.give(inside, loan);
        answer
    }
}

/// What one does whose outcome isn't there. It collects if nobody leads.
fn next_of<J: Task<Out = u64>, S: Sink, H: Beside<Job = J>>(inside: &mut Inside<J, S, H>) -> Next
    ensures { MayCollect inside.old.caller inside.new.caller }
{
    if inside.is_led() {
        return Next::Follow;
    }
    if inside.caller.collect_all() {
        return Next::Again;
    }
    inside.begins_to_lead();
    Next::Lead
}

/// Collects all outcomes that the links show, if nobody leads. Nobody sleeps then who would have to be told.
fn collect_alone<J: Task<Out = u64>, S: Sink, H: Beside<Job = J>>(inside: &mut Inside<J, S, H>)
    ensures { MayCollect inside.old.caller inside.new.caller }
{
    if !inside.is_led() {
        let _some = inside.caller.collect_all();
    }
}

/// Sleeps as long as was waited so far, at most until a limit. Whether there was time left.
fn naps<R: Clock>(rt: &R, begin: Option<Instant>, limit: Duration) -> bool {
    let Some(begin) = begin else {
        return false;
    };
    let Ok(waited) = begin.elapsed(rt) else {
        return false;
    };
    if waited >= limit {
        return false;
    }
    let nap = waited.min(Duration::from_millis(NAP_MILLIS));
    thread::sleep(rt, nap.min(limit.saturating_sub(waited)));
    true
}
