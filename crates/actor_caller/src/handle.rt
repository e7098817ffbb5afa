//! A handle on a caller that stands behind a lock.
//!
//! Each call takes the lock (hall.rt), makes one call of the caller, and gives the lock back. So the calls of all handles stand one after
//! another, as one thread could have made them.
//!
//! - A ticket has the number of the handle that submitted. Another handle's is refused as `Unknown`, with no look at the caller.
//! - `_life` counts the handles that aren't gone. The caller comes back from behind its lock once there is none.

ghost use Rattle.std.specs.Prelude.{◌≡◌, ◌≢◌, ◌↔◌, Err, IfOk, IsTrue};
ghost use Rattle.std.specs.Arc.{arc_value};
ghost use Rattle.std.specs.Result.{result_map_both};
ghost use Rattle.base_words.specs.declared.names.TicketError.TheVariants.{Unknown};
ghost use Rattle.base_words.specs.declared.order.Order.TheVariants.{CloseCore};
ghost use Rattle.base_jobs.specs.Ready.{HasReadyJob};
ghost use Rattle.link_ends.specs.Fits.{Fits};
ghost use Rattle.actor_caller.specs.Sends.{SubmitsTo};
ghost use Rattle.actor_caller.specs.Tickets.{Collects, DetachesHere, RedeemsHere};
ghost use Rattle.actor_caller.specs.Callers.{IsAmongCalls};

use crate::caller::Beside;
use crate::error::SubmitError;
use crate::shared::Shared;
use base_jobs::Task;
use base_words::{CoreNo, JobId, Mode, Order, Outcome, Ticket, TicketError};
use note_journal::Sink;
use std::alloc::Global;
use std::marker::Model;
use std::sync::{Arc, Wait};

/// The right of one handle to ask for the outcome of a submission.
#[derive(Clone, Copy, PartialEq, Eq, Debug)]
pub struct CallerTicket {
    handle: u64,
    pub(crate) ticket: Ticket,
}

impl CallerTicket {
    /// The name of the submission.
    pub fn name(&self) -> JobId
        ensures { result ≡ self.now.ticket }
    {
        self.ticket.name()
    }
}

/// The calls of a caller, from any thread. Contracts see its number, and the caller as it was when it was put behind its lock.
#[derive(Drop)]
pub struct Handle<J: Task<Out = u64>, S: Sink, H: Beside<Job = J>> {
    number: u64,
    pub(crate) shared: Arc<Shared<J, S, H>, Global>,
    /// Counts as long as the handle isn't gone.
    _life: Arc<u64, Global>,
}

impl<J: Task<Out = u64>, S: Sink, H: Beside<Job = J>> Model for Handle<J, S, H> {
    ghost use Rattle.actor_caller.specs.Callers.{HandleView};

    ghost Value = { HandleView J };

    ghost use Rattle.std.specs.Arc.{arc_value};

    ghost view = { λ h. record { begun = (arc_value h.shared).hall.table.shared.key.value; number = h.number } };
}

impl<J: Task<Out = u64>, S: Sink, H: Beside<Job = J>> Handle<J, S, H> {
    /// The handle of this number.
    pub(crate) fn of(
        number: u64,
        shared: Arc<Shared<J, S, H>, Global>,
        life: Arc<u64, Global>,
    ) -> Self
        ensures { result ≡ record { begun = (arc_value shared).hall.table.shared.key.value; number = number } }
    {
        Handle {
            number,
            shared,
            _life: life,
        }
    }

    /// Its number. No two handles on a caller have the same.
    pub fn number(&self) -> u64
        ensures { result ≡ self.now.number }
    {
        self.number
    }

    /// Whether this handle submitted what the ticket names.
    #[inline(always)]
    pub(crate) fn owns(&self, ticket: &CallerTicket) -> bool
        ensures { IsTrue result ↔ (ticket.now.handle ≡ self.now.number) }
    {
        ticket.handle == self.number
    }

    /// Sends an order to a core, as `Caller::submit`.
    ///
    /// # Errors
    ///
    /// As `Caller::submit`.
    #[tactic(auto, using(crate::proofs::CallsMade::submit_call))]
    pub fn submit<R: Wait>(
        &self,
        rt: &R,
        to: CoreNo,
        order: Order<J>,
    ) -> Result<CallerTicket, SubmitError<J>>
        requires ready { HasReadyJob J.meaning order }
        ensures submits { IsAmongCalls J.meaning (λ old new. SubmitsTo 3 to order old (result_map_both (λ ticket. ticket.ticket) (λ error. error) result) new) self.now.begun }
        ensures own { IfOk result (λ ticket. ticket.handle ≡ self.now.number) }
    {
        let (mut inside, loan) = self.shared.hall.take(rt);
        let answer = inside.caller.submit(to, order);
        self.shared.hall.give(inside, loan);
        self.stamped(answer)
    }

    /// Sends an order to close a core, as `Caller::close_core`.
    ///
    /// # Errors
    ///
    /// As `submit`.
    #[tactic(auto, using(crate::proofs::CallsMade::close_call))]
    pub fn close_core<R: Wait>(
        &self,
        rt: &R,
        core: CoreNo,
        mode: Mode,
    ) -> Result<CallerTicket, SubmitError<J>>
        ensures submits { IsAmongCalls J.meaning (λ old new. SubmitsTo 0 core (CloseCore mode) old (result_map_both (λ ticket. ticket.ticket) (λ error. error) result) new) self.now.begun }
        ensures own { IfOk result (λ ticket. ticket.handle ≡ self.now.number) }
    {
        let (mut inside, loan) = self.shared.hall.take(rt);
        let answer = inside.caller.close_core(core, mode);
        self.shared.hall.give(inside, loan);
        self.stamped(answer)
    }

    /// The same answer, with a ticket of this handle.
    #[inline(always)]
    fn stamped(
        &self,
        answer: Result<Ticket, SubmitError<J>>,
    ) -> Result<CallerTicket, SubmitError<J>>
        ensures same { result_map_both (λ ticket. ticket.ticket) (λ error. error) result ≡ answer }
        ensures own { IfOk result (λ ticket. ticket.handle ≡ self.now.number) }
    {
        match answer {
            Ok(ticket) => Ok(CallerTicket {
                handle: self.number,
                ticket,
            }),
            Err(error) => Err(error),
        }
    }

    /// Collects all outcomes that the link to a core shows, whoever submitted them: 0 where there is no such core. Those that wait for one
    /// of them wake.
    #[tactic(auto, using(crate::proofs::CallsMade::collect_call))]
    pub fn collect<R: Wait>(&self, rt: &R, core: CoreNo) -> usize
        ensures { IsAmongCalls J.meaning (λ old new. Collects core old result new) self.now.begun }
    {
        let (mut inside, loan) = self.shared.hall.take(rt);
        let count = inside.caller.collect(core);
        let due = if count > 0 {
            inside.tells_leader()
        } else {
            None
        };
        self.shared.hall.give(inside, loan);
        if let Some(due) = due {
            self.shared.moved.ring(due);
        }
        count
    }

    /// The outcome of a submission of this handle, which is gone from then on.
    ///
    /// # Errors
    ///
    /// `Unknown` where another handle submitted it, or none; `Gone` and `Pending` as `Caller::redeem`.
    #[tactic(auto, using(crate::proofs::CallsMade::redeem_call))]
    pub fn redeem<R: Wait>(
        &self,
        rt: &R,
        ticket: CallerTicket,
    ) -> Result<Outcome<J, u64>, TicketError>
        ensures redeems { ticket.handle ≡ self.now.number → IsAmongCalls J.meaning (λ old new. RedeemsHere (Fits J.meaning) ticket.ticket old result new) self.now.begun }
        ensures others { ticket.handle ≢ self.now.number → result ≡ Err Unknown }
    {
        if !self.owns(&ticket) {
            return Err(TicketError::Unknown);
        }
        let (mut inside, loan) = self.shared.hall.take(rt);
        let answer = inside.caller.redeem(ticket.ticket);
        self.shared.hall.give(inside, loan);
        answer
    }

    /// Nobody will ask for the outcome of a submission of this handle.
    ///
    /// # Errors
    ///
    /// `Unknown` and `Gone`, as `redeem`.
    #[tactic(auto, using(crate::proofs::CallsMade::detach_call))]
    pub fn detach<R: Wait>(&self, rt: &R, ticket: CallerTicket) -> Result<(), TicketError>
        ensures detaches { ticket.handle ≡ self.now.number → IsAmongCalls J.meaning (λ old new. DetachesHere ticket.ticket old result new) self.now.begun }
        ensures others { ticket.handle ≢ self.now.number → result ≡ Err Unknown }
    {
        if ticket.handle != self.number {
            return Err(TicketError::Unknown);
        }
        let (mut inside, loan) = self.shared.hall.take(rt);
        let answer = inside.caller.detach(ticket.ticket);
        self.shared.hall.give(inside, loan);
        answer
    }
}
