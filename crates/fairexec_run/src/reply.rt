//! The events of a script as events of the model, and what is printed of a reply.

ghost use Rattle.std.specs.Prelude.{◌≡◌, Some, IfOk};
ghost use Rattle.model_world.specs.declared.event.Reply.TheVariants.{NoTicket};
ghost use Rattle.fairexec_run.specs.Replies as spec;

use crate::boxed_script::BoxedScript;
use base_jobs::ScriptJob;
use base_words::{ActorNo, JobId, Order, SendError, Ticket, TicketError};
use fairexec_script::ScriptEvent;
use model_world::{Event, Reply};
use std::alloc::{AllocError, Global};
use text_words::{EventEnds, Quiet};

/// The event of the model. A turn has no time of its own, since script jobs tell theirs.
///
/// # Errors
///
/// There is no memory for the job that it sends.
pub(crate) fn event_of(alloc: Global, event: ScriptEvent) -> Result<Event<BoxedScript>, AllocError>
    ensures { IfOk result (λ same. same ≡ spec.event_of event) }
{
    let event = match event {
        ScriptEvent::Send(from, to, order) => Event::Send(from, to, order_of(alloc, order)?),
        ScriptEvent::Deliver(core, from) => Event::Deliver(core, from),
        ScriptEvent::Turn(core) => Event::Turn(core, 0),
        ScriptEvent::Shut(core, from) => Event::Shut(core, from),
        ScriptEvent::Collect(from, to) => Event::Collect(from, to),
        ScriptEvent::Redeem(name) => Event::Redeem(name.from, Ticket::named(name)),
        ScriptEvent::Detach(name) => Event::Detach(name.from, Ticket::named(name)),
    };
    Ok(event)
}

/// The same order.
fn order_of(alloc: Global, order: Order<ScriptJob>) -> Result<Order<BoxedScript>, AllocError>
    ensures { IfOk result (λ same. same ≡ order) }
{
    let order = match order {
        Order::Job(queue, job) => Order::Job(queue, BoxedScript::new(alloc, job)?),
        Order::Create(shares) => Order::Create(shares),
        Order::SetShares(queue, shares) => Order::SetShares(queue, shares),
        Order::Close(queue, mode) => Order::Close(queue, mode),
        Order::CloseCore(mode) => Order::CloseCore(mode),
        Order::Wake(actor, number) => Order::Wake(actor, number),
    };
    Ok(order)
}

/// The actor that makes the step of the event, and who is at the other end of its link.
pub(crate) fn ends_of(event: &ScriptEvent) -> EventEnds
    ensures { result ≡ spec.ends_of event.now }
{
    match event {
        ScriptEvent::Send(from, to, _) => ends(from.0, to.0),
        ScriptEvent::Deliver(core, from) => ends(core.0, from.0),
        ScriptEvent::Turn(core) => ends(core.0, 0),
        ScriptEvent::Shut(core, from) => ends(core.0, from.0),
        ScriptEvent::Collect(from, to) => ends(from.0, to.0),
        ScriptEvent::Redeem(name) => ends_named(name),
        ScriptEvent::Detach(name) => ends_named(name),
    }
}

/// The ends of an event that names no submission.
fn ends(actor: u8, other: u8) -> EventEnds
    ensures { result ≡ spec.ends actor other }
{
    EventEnds {
        actor: ActorNo(actor),
        other,
        number: 0,
    }
}

/// The ends of an event that names this submission.
fn ends_named(name: &JobId) -> EventEnds
    ensures { result ≡ spec.ends_named name.now }
{
    EventEnds {
        actor: name.from,
        other: name.to.0,
        number: name.number,
    }
}

/// What the line says of a ticket that was refused.
fn quiet_ticket(error: &TicketError) -> Quiet
    ensures { Some result ≡ spec.quiet_of (NoTicket error.now) }
{
    match error {
        TicketError::Pending => Quiet::Pending,
        TicketError::Gone => Quiet::Gone,
        TicketError::Unknown => Quiet::Unknown,
    }
}

/// What the line says of this reply, or None where the reply comes with notes or is none of a script's.
pub(crate) fn quiet_of(reply: &Reply<BoxedScript>) -> Option<Quiet>
    ensures { result ≡ spec.quiet_of reply.now }
{
    match reply {
        Reply::Idle => Some(Quiet::Idle),
        Reply::Spent => Some(Quiet::NoTurnLeft),
        Reply::Empty => Some(Quiet::Empty),
        Reply::NotSent(SendError::Full(_)) => Some(Quiet::Full),
        Reply::NotSent(SendError::Closed(_, count)) => Some(Quiet::Closed(*count)),
        Reply::NotSent(SendError::Spent(_)) => Some(Quiet::NoNumberLeft),
        Reply::NotSent(SendError::NoCore(_)) => None,
        Reply::NotClosed => Some(Quiet::NotClosed),
        Reply::AlreadyShut => Some(Quiet::AlreadyShut),
        Reply::Collected(_) => Some(Quiet::Nothing),
        Reply::NoTicket(error) => Some(quiet_ticket(error)),
        Reply::Redeemed(_) => None,
        Reply::Detached => None,
        Reply::Sent(_) => None,
        Reply::Noted => None,
        Reply::NoActor(_) => None,
        Reply::NoRoom(_) => None,
    }
}
