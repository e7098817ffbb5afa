//! What the host hands in and is told, in the words of the host.

ghost use Rattle.std.specs.Prelude.{◌≡◌};
ghost use Rattle.base_jobs.specs.Ready.{HasReadyJob};
ghost use Rattle.host_core.specs.Jobs.{host_meaning};
ghost use Rattle.host_core.specs.Submissions.{order_of_host, refusal_of_ticket, told_of_send, told_of_ticket};

use crate::answers::Refusal;
use crate::job::HostJob;
use base_words::{Order, Outcome, SendError, Ticket, TicketError};

/// The order of the host, with a job that wasn't run yet.
pub fn host_order(order: Order<u64>) -> Order<HostJob>
    ensures same { result ≡ order_of_host order }
    ensures ready { HasReadyJob host_meaning result }
{
    match order {
        Order::Job(queue, handle) => Order::Job(queue, HostJob::new(handle)),
        Order::Create(shares) => Order::Create(shares),
        Order::SetShares(queue, shares) => Order::SetShares(queue, shares),
        Order::Close(queue, mode) => Order::Close(queue, mode),
        Order::CloseCore(mode) => Order::CloseCore(mode),
        Order::Wake(actor, number) => Order::Wake(actor, number),
    }
}

/// What the host is told of a submission.
pub fn told_sent(answer: Result<Ticket, SendError<HostJob>>) -> Result<Ticket, Refusal>
    ensures { result ≡ told_of_send answer }
{
    match answer {
        Ok(ticket) => Ok(ticket),
        Err(SendError::Closed(_, last)) => Err(Refusal::Closed(last)),
        Err(SendError::Full(_)) => Err(Refusal::Full),
        Err(SendError::Spent(_)) => Err(Refusal::Spent),
        Err(SendError::NoCore(_)) => Err(Refusal::NoCore),
    }
}

/// What the host is told of a ticket that is refused.
fn told_refused(error: TicketError) -> Refusal
    ensures { result ≡ refusal_of_ticket error }
{
    match error {
        TicketError::Unknown => Refusal::Unknown,
        TicketError::Gone => Refusal::Gone,
        TicketError::Pending => Refusal::Pending,
    }
}

/// What the host is told of a redemption.
pub fn told_redeemed(
    answer: Result<Outcome<HostJob, u64>, TicketError>,
) -> Result<Outcome<HostJob, u64>, Refusal>
    ensures { result ≡ told_of_ticket answer }
{
    match answer {
        Ok(outcome) => Ok(outcome),
        Err(error) => Err(told_refused(error)),
    }
}

/// What the host is told of a submission that it lets go.
pub fn told_detached(answer: Result<(), TicketError>) -> Result<(), Refusal>
    ensures { result ≡ told_of_ticket answer }
{
    match answer {
        Ok(()) => Ok(()),
        Err(error) => Err(told_refused(error)),
    }
}
