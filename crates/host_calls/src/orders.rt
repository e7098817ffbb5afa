//! Orders of the host, by numbers.

ghost use Rattle.std.specs.Prelude.{◌≡◌};
ghost use Rattle.host_calls.specs.Orders.{IsCloseOrder, IsCoreOrder, IsCreateOrder, IsJobOrder, IsSharesOrder, IsWakeOrder, mode_of_number};

use crate::code::Code;
use crate::names::Name;
use base_words::{ActorNo, Mode, Order, QueueNo, Shares};

/// A job for a queue.
pub fn job_order(queue: u32, job: u64) -> Result<Order<u64>, Code>
    ensures { IsJobOrder queue job result }
{
    match u8::try_from(queue) {
        Ok(queue) => Ok(Order::Job(QueueNo(queue), job)),
        Err(_) => Err(Code::NoQueue),
    }
}

/// Make a queue with these shares.
pub fn create_order(shares: u32) -> Result<Order<u64>, Code>
    ensures { IsCreateOrder shares result }
{
    match Shares::try_new(shares) {
        Ok(shares) => Ok(Order::Create(shares)),
        Err(_) => Err(Code::BadShares),
    }
}

/// Give a queue these shares.
pub fn shares_order(queue: u32, shares: u32) -> Result<Order<u64>, Code>
    ensures { IsSharesOrder queue shares result }
{
    let Ok(shares) = Shares::try_new(shares) else {
        return Err(Code::BadShares);
    };
    match u8::try_from(queue) {
        Ok(queue) => Ok(Order::SetShares(QueueNo(queue), shares)),
        Err(_) => Err(Code::NoQueue),
    }
}

/// Close a queue, by the number of a mode.
pub fn close_order(queue: u32, mode: u32) -> Result<Order<u64>, Code>
    ensures { IsCloseOrder queue (mode_of_number mode) result }
{
    let Ok(queue) = u8::try_from(queue) else {
        return Err(Code::NoQueue);
    };
    match mode_numbered(mode) {
        Some(mode) => Ok(Order::Close(QueueNo(queue), mode)),
        None => Err(Code::BadNumber),
    }
}

/// Close the core, by the number of a mode.
pub fn core_order(mode: u32) -> Result<Order<u64>, Code>
    ensures { IsCoreOrder (mode_of_number mode) result }
{
    match mode_numbered(mode) {
        Some(mode) => Ok(Order::CloseCore(mode)),
        None => Err(Code::BadNumber),
    }
}

/// Wake the job of this name.
pub fn wake_order(name: &Name) -> Result<Order<u64>, Code>
    ensures { IsWakeOrder name.now result }
{
    match u8::try_from(name.from) {
        Ok(from) => Ok(Order::Wake(ActorNo(from), name.number)),
        Err(_) => Err(Code::NoActor),
    }
}

/// The mode of this number.
pub fn mode_numbered(number: u32) -> Option<Mode>
    ensures { result ≡ mode_of_number number }
{
    match number {
        0 => Some(Mode::Finish),
        1 => Some(Mode::Return),
        _ => None,
    }
}
