//! Events of the model, each one atomic step of one actor, and what the actor is told.

ghost use Rattle.std.specs.Prelude.{◌≡◌};
ghost use Rattle.model_world.specs.Sends.{actor_of};

use base_words::{ActorNo, CoreNo, Order, Outcome, SendError, Ticket, TicketError};

/// One step of one actor.
#[derive(PartialEq, Eq, Drop)]
pub enum Event<J> {
    /// The actor sends the order to the core.
    Send(ActorNo, CoreNo, Order<J>),
    /// The core takes the next submission of the actor.
    Deliver(CoreNo, ActorNo),
    /// The core picks a queue and polls its first job, and perhaps further ones, each once. The time, in nanoseconds, counts for each poll
    /// whose job tells none of its own.
    Turn(CoreNo, u64),
    /// The core shuts the gate of the actor, once it is closed.
    Shut(CoreNo, ActorNo),
    /// The actor collects all outcomes that the core gave it.
    Collect(ActorNo, CoreNo),
    /// The actor asks for the outcome of a submission.
    Redeem(ActorNo, Ticket),
    /// The actor lets go of the outcome of a submission.
    Detach(ActorNo, Ticket),
}

impl<J> Event<J> {
    /// The actor that makes the step.
    pub fn actor(&self) -> ActorNo
        ensures { result ≡ actor_of self.now }
    {
        match self {
            Event::Send(from, _, _) => *from,
            Event::Deliver(core, _) => ActorNo(core.0),
            Event::Turn(core, _) => ActorNo(core.0),
            Event::Shut(core, _) => ActorNo(core.0),
            Event::Collect(from, _) => *from,
            Event::Redeem(from, _) => *from,
            Event::Detach(from, _) => *from,
        }
    }
}

/// What an event came to.
#[derive(PartialEq, Eq, Drop)]
pub enum Reply<J> {
    /// The order was accepted, under the name of the ticket.
    Sent(Ticket),
    /// The order was refused, and comes back.
    NotSent(SendError<J>),
    /// The new notes of the actor's journal say what was done.
    Noted,
    /// There is nothing to deliver.
    Empty,
    /// No queue has work.
    Idle,
    /// All turns of the core are used.
    Spent,
    /// The core isn't closed, so it shuts no gate.
    NotClosed,
    /// The gate of the actor is shut.
    AlreadyShut,
    /// So many outcomes were collected.
    Collected(usize),
    /// What became of the submission. A job that was handed back is in it.
    Redeemed(Outcome<J, u64>),
    /// Nobody will ask for the outcome.
    Detached,
    /// The ticket gives no outcome, for this reason.
    NoTicket(TicketError),
    /// An actor or a core of the event doesn't exist. The event comes back.
    NoActor(Event<J>),
    /// The actor's journal has too few notes free. The event comes back.
    NoRoom(Event<J>),
}
