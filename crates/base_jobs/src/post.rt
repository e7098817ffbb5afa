//! What a job may ask for while it is polled.

ghost use Rattle.std.specs.Borrow.{sem};
ghost use Rattle.std.specs.Prelude.{◌≡◌, [], Err, IsOk, IfOk};
ghost use Rattle.base_words.specs.declared.names.JobId.{JobId};
ghost use Rattle.base_words.specs.Journal.{Journal};
ghost use Rattle.base_words.specs.declared.order.SendError.TheVariants.{NoCore};
ghost use Rattle.base_words.specs.declared.names.TicketError.TheVariants.{Unknown};
ghost use Rattle.base_jobs.specs.Calls.Call.{Submit, Redeem, Detach};
ghost use Rattle.base_jobs.specs.Calls.{Call, Doing};
ghost use Rattle.base_jobs.specs.Posts.{LendsState, NotesSubmit, NotesRedeem, NotesDetach};
ghost use Rattle.base_jobs.specs.Ready.{HasReadyJob};

use crate::job::Task;
use crate::state::CoreState;
use base_words::{CoreNo, Order, Outcome, SendError, Ticket, TicketError};
use std::marker::Model;

/// Submits orders for jobs `J` whose answers are `T`, and asks for their outcomes. It notes what it did.
///
/// It is lent to a job for one poll. A refused call leaves no note.
pub trait Post<J: Task, T> {
    /// The notes of the actor for whom it submits, the newest first.
    ghost notes: { Self → Journal T };

    /// The submission of this name waits for its outcome: it can be detached.
    ghost Waits: { Self → JobId → Type 0 };

    /// What one call does: the post before, the call with what it answered, and the post after.
    ghost Does: { Doing Self J T };

    /// Sends an order to a core, under the next number of that link.
    ///
    /// # Errors
    ///
    /// `NoCore` where there is no such core; otherwise as the link. The order comes back.
    fn submit(&mut self, to: CoreNo, order: Order<J>) -> Result<Ticket, SendError<J>>
        requires ready { HasReadyJob J.meaning order }
        ensures noted { NotesSubmit (notes self.old) to order result (notes self.new) }
        ensures waits { IfOk result (Waits self.new) }
        ensures does { Does self.old (Submit to order result) self.new };

    /// The outcome of a submission, which is gone from then on.
    ///
    /// # Errors
    ///
    /// `Unknown`, `Gone` and `Pending`, as a desk.
    fn redeem(&mut self, ticket: Ticket) -> Result<Outcome<J, T>, TicketError>
        ensures noted { NotesRedeem (notes self.old) ticket result (notes self.new) }
        ensures does { Does self.old (Redeem ticket result) self.new };

    /// Nobody will ask for the outcome of a submission.
    ///
    /// # Errors
    ///
    /// `Unknown` and `Gone`, as a desk.
    fn detach(&mut self, ticket: Ticket) -> Result<(), TicketError>
        ensures noted { NotesDetach (notes self.old) ticket result (notes self.new) }
        ensures waits { Waits self.old ticket → IsOk result }
        ensures does { Does self.old (Detach ticket result) self.new };

    /// What the jobs of this core share. A contract tells nothing of its content, and whatever a job writes there leaves the post as it is.
    fn local(&mut self) -> &mut J::Local
        ensures* same { sem 𝓛 (LendsState Self.row J.Local.row self.entry result) };
}

/// A post of an actor that has no links: there is no core for it, and it notes nothing. It lends the state that it was made with.
///
/// A contract sees nothing of it.
#[derive(Drop)]
pub struct NoPost<L = ()> {
    local: L,
}

/// The same for jobs that share nothing.
pub const NoPost: NoPost = NoPost { local: () };

impl<L> Model for NoPost<L> {
    ghost Value = { Unit {0} };

    ghost view = { λ _. tt };
}

impl<L> NoPost<L> {
    /// A post that lends this state.
    pub fn lending(local: L) -> Self {
        NoPost { local }
    }

    /// The state, as the jobs left it.
    pub fn into_local(self) -> L {
        let NoPost { local } = self;
        local
    }
}

impl<L: CoreState, J: Task<Local = L>, T> Post<J, T> for NoPost<L> {
    ghost use Rattle.std.specs.Prelude.{◌≡◌, []};
    ghost use Rattle.base_jobs.specs.Calls.{IsRefused};

    ghost notes = { λ _. [] };

    ghost Waits = { λ _ _. ⊥ };

    ghost Does = { λ old call new. IsRefused call × (new ≡ old) };

    fn submit(&mut self, _to: CoreNo, order: Order<J>) -> Result<Ticket, SendError<J>>
        requires { HasReadyJob J.meaning order }
        ensures no_core { result ≡ Err (NoCore order) }
        ensures noted { NotesSubmit {T = T} [] _to order result [] }
    {
        Err(SendError::NoCore(order))
    }

    fn redeem(&mut self, _ticket: Ticket) -> Result<Outcome<J, T>, TicketError>
        ensures unknown { result ≡ Err Unknown }
        ensures noted { NotesRedeem {T = T} [] _ticket result [] }
    {
        Err(TicketError::Unknown)
    }

    fn detach(&mut self, _ticket: Ticket) -> Result<(), TicketError>
        ensures unknown { result ≡ Err Unknown }
        ensures noted { NotesDetach {T = T} [] _ticket result [] }
    {
        Err(TicketError::Unknown)
    }

    fn local(&mut self) -> &mut L {
        &mut self.local
    }
}
