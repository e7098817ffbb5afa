//! The orders that an actor of a house submits.

ghost use Rattle.std.specs.Prelude.{◌≡◌, ℕ, None, Result};
ghost use Rattle.base_words.specs.declared.order.Order.{Order};
ghost use Rattle.host_calls.specs.declared.code.Code.{Code};
ghost use Rattle.host_calls.specs.Orders.{IsCloseOrder, IsCoreOrder, IsCreateOrder, IsJobOrder, IsSharesOrder, IsWakeOrder, mode_of_number};
ghost use Rattle.fairexec_c.specs.Seats.{Submits};

use crate::handle::SeatHandle;
use base_words::Order;
use host_calls::names::Name;
use host_calls::orders::{
    close_order, core_order, create_order, job_order, shares_order, wake_order,
};
use host_calls::{Code, number};
use std::alloc::Global;

/// Submits an order to a core, if it could be made.
fn send(
    alloc: Global,
    seat: &mut SeatHandle,
    to: u32,
    order: Result<Order<u64>, Code>,
    name: &mut Name,
) -> u32
    ensures { Submits seat.old.value to order name.old result name.new seat.new.value }
{
    with!(seat, alloc, member => member.send(to, order, name))
}

/// Submits a job to a queue of a core.
#[unsafe(no_mangle)]
pub extern "C" fn fx_seat_submit(
    alloc: Global,
    seat: &mut SeatHandle,
    to: u32,
    queue: u32,
    job: u64,
    name: &mut Name,
) -> u32
    ensures { (order : Result (Order ℕ) Code) × IsJobOrder queue job order × Submits seat.old.value to order name.old result name.new seat.new.value }
{
    send(alloc, seat, to, job_order(queue, job), name)
}

/// Submits an order that makes a queue with these shares.
#[unsafe(no_mangle)]
pub extern "C" fn fx_seat_create(
    alloc: Global,
    seat: &mut SeatHandle,
    to: u32,
    shares: u32,
    name: &mut Name,
) -> u32
    ensures { (order : Result (Order ℕ) Code) × IsCreateOrder shares order × Submits seat.old.value to order name.old result name.new seat.new.value }
{
    send(alloc, seat, to, create_order(shares), name)
}

/// Submits an order that gives a queue these shares.
#[unsafe(no_mangle)]
pub extern "C" fn fx_seat_set_shares(
    alloc: Global,
    seat: &mut SeatHandle,
    to: u32,
    queue: u32,
    shares: u32,
    name: &mut Name,
) -> u32
    ensures { (order : Result (Order ℕ) Code) × IsSharesOrder queue shares order × Submits seat.old.value to order name.old result name.new seat.new.value }
{
    send(alloc, seat, to, shares_order(queue, shares), name)
}

/// Submits an order that closes a queue.
#[unsafe(no_mangle)]
pub extern "C" fn fx_seat_close_queue(
    alloc: Global,
    seat: &mut SeatHandle,
    to: u32,
    queue: u32,
    mode: u32,
    name: &mut Name,
) -> u32
    ensures { (order : Result (Order ℕ) Code) × IsCloseOrder queue (mode_of_number mode) order × Submits seat.old.value to order name.old result name.new seat.new.value }
{
    send(alloc, seat, to, close_order(queue, mode), name)
}

/// Submits an order that closes a core with all its queues.
#[unsafe(no_mangle)]
pub extern "C" fn fx_seat_close_core(
    alloc: Global,
    seat: &mut SeatHandle,
    to: u32,
    mode: u32,
    name: &mut Name,
) -> u32
    ensures { (order : Result (Order ℕ) Code) × IsCoreOrder (mode_of_number mode) order × Submits seat.old.value to order name.old result name.new seat.new.value }
{
    send(alloc, seat, to, core_order(mode), name)
}

/// Submits an order that wakes a job, to its core.
#[unsafe(no_mangle)]
pub extern "C" fn fx_seat_wake(
    alloc: Global,
    seat: &mut SeatHandle,
    job: &Name,
    name: &mut Name,
) -> u32
    ensures { (order : Result (Order ℕ) Code) × IsWakeOrder job.now order × Submits seat.old.value job.now.to order name.old result name.new seat.new.value }
{
    send(alloc, seat, job.to, wake_order(job), name)
}
