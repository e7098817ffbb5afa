//! What a cell holds: an order, an outcome, or nothing.

ghost use Rattle.std.specs.Prelude.{◌≡◌, Some};
ghost use Rattle.link_board.specs.Held.{of_back, of_order, of_outcome};

use base_words::{ActorNo, Answer, Mode, Order, Outcome, QueueNo, Reason, Shares};
use link_cells::MaybeTaken;

/// What the slot of a cell holds. Whoever takes it out leaves its bytes there, and writes nothing.
pub type Cell<J, T> = MaybeTaken<Held<J, T>>;

/// What a cell holds.
///
/// An order and an outcome are one enum, as small as its largest case: a job that is handed back with its reason and its queue. The number of an
/// outcome's order stands in the word of its cell.
#[derive(Drop)]
pub enum Held<J, T> {
    /// The bytes of a cell that wasn't used yet.
    Empty,
    Job(QueueNo, J),
    Create(Shares),
    SetShares(QueueNo, Shares),
    Close(QueueNo, Mode),
    CloseCore(Mode),
    Wake(ActorNo, u64),
    Finished(T),
    Answered(Answer),
    JobBack(Reason, QueueNo, J),
    CreateBack(Reason, Shares),
    SetSharesBack(Reason, QueueNo, Shares),
    CloseBack(Reason, QueueNo, Mode),
    CloseCoreBack(Reason, Mode),
    WakeBack(Reason, ActorNo, u64),
}

/// An order, to lie in a cell.
#[inline]
pub(crate) fn hold_order<J, T>(order: Order<J>) -> Held<J, T>
    ensures { Some result ≡ of_order order }
{
    match order {
        Order::Job(queue, job) => Held::Job(queue, job),
        Order::Create(shares) => Held::Create(shares),
        Order::SetShares(queue, shares) => Held::SetShares(queue, shares),
        Order::Close(queue, mode) => Held::Close(queue, mode),
        Order::CloseCore(mode) => Held::CloseCore(mode),
        Order::Wake(actor, number) => Held::Wake(actor, number),
    }
}

/// The order that lay in a cell.
#[inline]
pub(crate) fn order_of<J: Drop, T: Drop>(held: Held<J, T>) -> Order<J>
    requires { (order : Order J) × (Some held ≡ of_order order) }
    ensures { Some held ≡ of_order result }
{
    match held {
        Held::Job(queue, job) => Order::Job(queue, job),
        Held::Create(shares) => Order::Create(shares),
        Held::SetShares(queue, shares) => Order::SetShares(queue, shares),
        Held::Close(queue, mode) => Order::Close(queue, mode),
        Held::CloseCore(mode) => Order::CloseCore(mode),
        Held::Wake(actor, number) => Order::Wake(actor, number),
        _ => unreachable!(),
    }
}

/// An order that is handed back, to lie in a cell.
#[inline]
fn hold_back<J, T>(reason: Reason, order: Order<J>) -> Held<J, T>
    ensures { Some result ≡ of_back reason order }
{
    match order {
        Order::Job(queue, job) => Held::JobBack(reason, queue, job),
        Order::Create(shares) => Held::CreateBack(reason, shares),
        Order::SetShares(queue, shares) => Held::SetSharesBack(reason, queue, shares),
        Order::Close(queue, mode) => Held::CloseBack(reason, queue, mode),
        Order::CloseCore(mode) => Held::CloseCoreBack(reason, mode),
        Order::Wake(actor, number) => Held::WakeBack(reason, actor, number),
    }
}

/// An outcome, to lie in a cell.
#[inline]
pub(crate) fn hold_outcome<J, T>(outcome: Outcome<J, T>) -> Held<J, T>
    ensures { Some result ≡ of_outcome outcome }
{
    match outcome {
        Outcome::Finished(out) => Held::Finished(out),
        Outcome::Returned(reason, order) => hold_back(reason, order),
        Outcome::Answered(answer) => Held::Answered(answer),
    }
}

/// The outcome that lay in a cell.
#[inline]
pub(crate) fn outcome_of<J: Drop, T: Drop>(held: Held<J, T>) -> Outcome<J, T>
    requires { (outcome : Outcome J T) × (Some held ≡ of_outcome outcome) }
    ensures { Some held ≡ of_outcome result }
{
    match held {
        Held::Finished(out) => Outcome::Finished(out),
        Held::Answered(answer) => Outcome::Answered(answer),
        Held::JobBack(reason, queue, job) => Outcome::Returned(reason, Order::Job(queue, job)),
        Held::CreateBack(reason, shares) => Outcome::Returned(reason, Order::Create(shares)),
        Held::SetSharesBack(reason, queue, shares) => {
            Outcome::Returned(reason, Order::SetShares(queue, shares))
        }
        Held::CloseBack(reason, queue, mode) => {
            Outcome::Returned(reason, Order::Close(queue, mode))
        }
        Held::CloseCoreBack(reason, mode) => Outcome::Returned(reason, Order::CloseCore(mode)),
        Held::WakeBack(reason, actor, number) => {
            Outcome::Returned(reason, Order::Wake(actor, number))
        }
        _ => unreachable!(),
    }
}
