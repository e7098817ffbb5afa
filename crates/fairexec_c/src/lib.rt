//! A core for programs in C, C++ and Rust, whose jobs the host runs.
//!
//! Each call takes a handle, does what `Hosted` does, and answers the number of a code. hosts/c/fairexec.h declares them.
#![tactic(auto)]

ghost use Rattle.std.specs.Prelude.{◌≡◌, None};
ghost use Rattle.fairexec_c.specs.Figures.{TellsCore, TellsQueue};
ghost use Rattle.fairexec_c.specs.Handles.{Frees, OnCore};
ghost use Rattle.fairexec_c.specs.Hosting.{Submits};
ghost use Rattle.fairexec_c.specs.Opening.{Opens, OpensCore};
ghost use Rattle.fairexec_c.specs.Queueing.{MakesQueue, Reweighs, ClosesLine, ClosesAll};
ghost use Rattle.host_calls.specs.Orders.{mode_of_number};
ghost use Rattle.fairexec_c.specs.Running.{Nexts, SettlesStep, step_of};
ghost use Rattle.fairexec_c.specs.Waking.{TellsNumber, WakesNumber};

/// Does this with what a handle holds, and answers the number of the code. An empty handle is told so.
macro_rules! with {
    ($handle:ident, $alloc:ident, $held:ident => $call:expr) => {{
        let Some(mut $held) = $handle.take($alloc) else {
            return number(Code::Empty);
        };
        let code = $call;
        $handle.put($held);
        number(code)
    }};
}

pub mod figures;
pub mod handle;
pub mod hosted;
pub mod houses;
pub mod orders;
pub mod seats;
pub mod sends;
mod sleeping;
pub mod timers;

use crate::handle::Handle;
use crate::hosted::open_for;
use base_words::ActorNo;
use host_calls::figures::{CoreFigures, QueueFigures};
use host_calls::{Code, number};
use std::alloc::Global;

/// The version of the interface, `FX_VERSION` of the header.
#[unsafe(no_mangle)]
pub extern "C" fn fx_version() -> u32
    ensures { result ≡ 1 }
{
    1
}

/// Opens a core with room for so many jobs.
#[unsafe(no_mangle)]
pub extern "C" fn fx_open(alloc: Global, core: &mut Handle, jobs: u32) -> u32
    ensures { Opens core.old.value jobs result core.new.value }
{
    match core.take(alloc) {
        Some(hosted) => {
            core.put(hosted);
            number(Code::Occupied)
        }
        None => number(fill(alloc, core, jobs)),
    }
}

/// Opens a core for an empty handle.
fn fill(alloc: Global, core: &mut Handle, jobs: u32) -> Code
    requires { core.old.value ≡ None }
    ensures { OpensCore jobs result core.new.value }
{
    match open_for(alloc, jobs) {
        Ok(hosted) => {
            core.put(hosted);
            Code::Ok
        }
        Err(code) => code,
    }
}

/// Frees a core and forgets its jobs.
#[unsafe(no_mangle)]
pub extern "C" fn fx_free(alloc: Global, core: &mut Handle) -> u32
    ensures { Frees core.old.value result core.new.value }
{
    match core.take(alloc) {
        Some(hosted) => {
            drop(hosted);
            number(Code::Ok)
        }
        None => number(Code::Empty),
    }
}

/// Makes a queue with these shares, and tells its number.
#[unsafe(no_mangle)]
pub extern "C" fn fx_create(alloc: Global, core: &mut Handle, shares: u32, queue: &mut u32) -> u32
    ensures core { OnCore core.old.value core.new.value result (λ old told new. MakesQueue old shares queue.old told queue.new new) }
    ensures empty { core.old.value ≡ None → queue.new ≡ queue.old }
{
    with!(core, alloc, hosted => hosted.create(shares, queue))
}

/// Gives a queue these shares.
#[unsafe(no_mangle)]
pub extern "C" fn fx_set_shares(alloc: Global, core: &mut Handle, queue: u32, shares: u32) -> u32
    ensures { OnCore core.old.value core.new.value result (λ old told new. Reweighs old queue shares told new) }
{
    with!(core, alloc, hosted => hosted.set_shares(queue, shares))
}

/// Hands a job to the tail of a queue.
#[unsafe(no_mangle)]
pub extern "C" fn fx_submit(alloc: Global, core: &mut Handle, queue: u32, job: u64) -> u32
    ensures { OnCore core.old.value core.new.value result (λ old told new. Submits old queue job told new) }
{
    with!(core, alloc, hosted => hosted.submit(queue, job))
}

/// Hands a job to the tail of a queue, and tells the number by which it is woken.
#[unsafe(no_mangle)]
pub extern "C" fn fx_submit_numbered(
    alloc: Global,
    core: &mut Handle,
    queue: u32,
    job: u64,
    order: &mut u64,
) -> u32
    ensures core { OnCore core.old.value core.new.value result (λ old told new. Submits old queue job told new × TellsNumber old order.old told order.new) }
    ensures empty { core.old.value ≡ None → order.new ≡ order.old }
{
    with!(core, alloc, hosted => hosted.submit_numbered(queue, job, order))
}

/// Wakes the job of this number.
#[unsafe(no_mangle)]
pub extern "C" fn fx_wake(alloc: Global, core: &mut Handle, order: u64) -> u32
    ensures { OnCore core.old.value core.new.value result (λ old told new. WakesNumber old order told new) }
{
    with!(core, alloc, hosted => hosted.wake_from(ActorNo(1), order))
}

/// Tells which job to run now.
#[unsafe(no_mangle)]
pub extern "C" fn fx_next(alloc: Global, core: &mut Handle, job: &mut u64) -> u32
    ensures core { OnCore core.old.value core.new.value result (λ old told new. Nexts old job.old told job.new new) }
    ensures empty { core.old.value ≡ None → job.new ≡ job.old }
{
    with!(core, alloc, hosted => hosted.next(job))
}

/// Settles the run of the job that `fx_next` told. It took `spent` nanoseconds.
#[unsafe(no_mangle)]
pub extern "C" fn fx_settle(alloc: Global, core: &mut Handle, step: u32, spent: u64) -> u32
    ensures { OnCore core.old.value core.new.value result (λ old told new. SettlesStep old (step_of step) spent told new) }
{
    with!(core, alloc, hosted => hosted.settle(step, spent))
}

/// Closes a queue.
#[unsafe(no_mangle)]
pub extern "C" fn fx_close_queue(alloc: Global, core: &mut Handle, queue: u32, mode: u32) -> u32
    ensures { OnCore core.old.value core.new.value result (λ old told new. ClosesLine old queue (mode_of_number mode) told new) }
{
    with!(core, alloc, hosted => hosted.close_queue(queue, mode))
}

/// Closes a core with all its queues.
#[unsafe(no_mangle)]
pub extern "C" fn fx_close(alloc: Global, core: &mut Handle, mode: u32) -> u32
    ensures { OnCore core.old.value core.new.value result (λ old told new. ClosesAll old (mode_of_number mode) told new) }
{
    with!(core, alloc, hosted => hosted.close(mode))
}

/// Tells the counts of a core.
#[unsafe(no_mangle)]
pub extern "C" fn fx_stats(alloc: Global, core: &mut Handle, stats: &mut CoreFigures) -> u32
    ensures core { OnCore core.old.value core.new.value result (λ old told new. (new ≡ old) × TellsCore old stats.old told stats.new) }
    ensures empty { core.old.value ≡ None → stats.new ≡ stats.old }
{
    with!(core, alloc, hosted => hosted.tell(stats))
}

/// Tells the counts of a queue.
#[unsafe(no_mangle)]
pub extern "C" fn fx_stats_of_queue(
    alloc: Global,
    core: &mut Handle,
    queue: u32,
    stats: &mut QueueFigures,
) -> u32
    ensures core { OnCore core.old.value core.new.value result (λ old told new. (new ≡ old) × TellsQueue old queue stats.old told stats.new) }
    ensures empty { core.old.value ≡ None → stats.new ≡ stats.old }
{
    with!(core, alloc, hosted => hosted.tell_queue(queue, stats))
}
