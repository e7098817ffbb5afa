//! The calls on the timers of a core's jobs.
//!
//! The handle of timers is one of a house's kind. The core stands behind another one, alone or in a house, and each call takes both.

ghost use Rattle.std.specs.Prelude.{◌≡◌, None};
ghost use Rattle.host_calls.specs.Members as members;
ghost use Rattle.host_calls.specs.Sleepers.{TellsNext, WakesDueTold};
ghost use Rattle.host_calls.specs.Sleepers as sleepers;
ghost use Rattle.host_calls.specs.Turns as turns;
ghost use Rattle.fairexec_c.specs.Handles.{Frees, OnCore};
ghost use Rattle.fairexec_c.specs.Running.{step_of};
ghost use Rattle.fairexec_c.specs.Sleeping.{OnBoth, OnTimers, Opens, OpensInto, SettlesUntil, WakesDueAlone};

use crate::handle::{Handle, SeatHandle};
use crate::hosted::Hosted;
use crate::houses::free;
use host_calls::{Code, Member, Sleepers, number};
use std::alloc::Global;

/// Opens timers for so many jobs of a core.
#[unsafe(no_mangle)]
pub extern "C" fn fx_timers_open(alloc: Global, timers: &mut SeatHandle, jobs: u32) -> u32
    ensures { Opens timers.old.value jobs result timers.new.value }
{
    match timers.take(alloc) {
        Some(member) => {
            timers.put(member);
            number(Code::Occupied)
        }
        None => number(fill(alloc, timers, jobs)),
    }
}

/// Opens timers for an empty handle.
fn fill(alloc: Global, timers: &mut SeatHandle, jobs: u32) -> Code
    requires { timers.old.value ≡ None }
    ensures { OpensInto jobs result timers.new.value }
{
    match Sleepers::open(alloc, jobs) {
        Ok(sleepers) => match Box::new(alloc, Member::Sleepers(sleepers)) {
            Ok(member) => {
                timers.put(member);
                Code::Ok
            }
            Err(_) => Code::NoMemory,
        },
        Err(code) => code,
    }
}

/// Frees timers.
#[unsafe(no_mangle)]
pub extern "C" fn fx_timers_free(alloc: Global, timers: &mut SeatHandle) -> u32
    ensures { Frees timers.old.value result timers.new.value }
{
    free(alloc, timers)
}

/// Tells when the next timer is due.
#[unsafe(no_mangle)]
pub extern "C" fn fx_next_time(alloc: Global, timers: &mut SeatHandle, time: &mut u64) -> u32
    ensures timers { OnCore timers.old.value timers.new.value result (λ old told new.
        members.OnSleepers old (time.new ≡ time.old) told new (λ before code after. TellsNext before time.old code time.new × (after ≡ before))) }
    ensures empty { timers.old.value ≡ None → time.new ≡ time.old }
{
    with!(timers, alloc, member => member.next_time(time))
}

/// Settles the run of the job that `fx_next` told. If it parks, its job sleeps until this time.
#[unsafe(no_mangle)]
pub extern "C" fn fx_settle_until(
    alloc: Global,
    core: &mut Handle,
    timers: &mut SeatHandle,
    step: u32,
    spent: u64,
    time: u64,
) -> u32
    ensures core { OnCore core.old.value core.new.value result (λ old told new.
        OnTimers timers.old.value (new ≡ old) told timers.new.value (λ before code after. SettlesUntil (step_of step) (record { spent = spent; until = time }) old before code new after)) }
    ensures empty { core.old.value ≡ None → timers.new.value ≡ timers.old.value }
{
    with!(core, alloc, hosted => settle_alone(alloc, &mut hosted, timers, step, spent, time))
}

/// Settles a run with the timers of a handle.
fn settle_alone(
    alloc: Global,
    hosted: &mut Hosted,
    timers: &mut SeatHandle,
    step: u32,
    spent: u64,
    time: u64,
) -> Code
    ensures { OnTimers timers.old.value (hosted.new ≡ hosted.old) result timers.new.value (λ before code after. SettlesUntil (step_of step) (record { spent = spent; until = time }) hosted.old before code hosted.new after) }
{
    let Some(mut member) = timers.take(alloc) else {
        return Code::Empty;
    };
    let code = match &mut *member {
        Member::Sleepers(sleepers) => hosted.settle_asleep(sleepers, step, spent, time),
        _ => Code::Empty,
    };
    timers.put(member);
    code
}

/// Wakes the job of a core whose timer is due next, if one is due by now.
#[unsafe(no_mangle)]
pub extern "C" fn fx_wake_due(
    alloc: Global,
    core: &mut Handle,
    timers: &mut SeatHandle,
    now: u64,
) -> u32
    ensures core { OnCore core.old.value core.new.value result (λ old told new.
        OnTimers timers.old.value (new ≡ old) told timers.new.value (λ before code after. WakesDueAlone now old before code new after)) }
    ensures empty { core.old.value ≡ None → timers.new.value ≡ timers.old.value }
{
    with!(core, alloc, hosted => wake_alone(alloc, &mut hosted, timers, now))
}

/// Looks at the timers of a handle.
fn wake_alone(alloc: Global, hosted: &mut Hosted, timers: &mut SeatHandle, now: u64) -> Code
    ensures { OnTimers timers.old.value (hosted.new ≡ hosted.old) result timers.new.value (λ before code after. WakesDueAlone now hosted.old before code hosted.new after) }
{
    let Some(mut member) = timers.take(alloc) else {
        return Code::Empty;
    };
    let code = hosted.wake_due(&mut member, now);
    timers.put(member);
    code
}

/// Settles the run of the job that `fx_seat_next` told. If it parks, its job sleeps until this time.
#[unsafe(no_mangle)]
pub extern "C" fn fx_seat_settle_until(
    alloc: Global,
    seat: &mut SeatHandle,
    timers: &mut SeatHandle,
    step: u32,
    answer: u64,
    spent: u64,
    time: u64,
) -> u32
    ensures seat { OnCore seat.old.value seat.new.value result (λ old told new.
        OnBoth old timers.old.value told new timers.new.value (λ at before code gets after. sleepers.SettlesUntil (turns.step_of step answer) (record { spent = spent; until = time }) at before code gets after)) }
    ensures empty { seat.old.value ≡ None → timers.new.value ≡ timers.old.value }
{
    with!(seat, alloc, core => settle_in_house(alloc, &mut core, timers, step, answer, spent, time))
}

/// Settles a run with the timers of a handle.
fn settle_in_house(
    alloc: Global,
    core: &mut Member,
    timers: &mut SeatHandle,
    step: u32,
    answer: u64,
    spent: u64,
    time: u64,
) -> Code
    ensures { OnBoth core.old timers.old.value result core.new timers.new.value (λ at before code gets after. sleepers.SettlesUntil (turns.step_of step answer) (record { spent = spent; until = time }) at before code gets after) }
{
    let Some(mut member) = timers.take(alloc) else {
        return Code::Empty;
    };
    let code = core.settle_until(&mut member, step, answer, spent, time);
    timers.put(member);
    code
}

/// Wakes the job of a seat whose timer is due next, if one is due by now.
#[unsafe(no_mangle)]
pub extern "C" fn fx_seat_wake_due(
    alloc: Global,
    seat: &mut SeatHandle,
    timers: &mut SeatHandle,
    now: u64,
) -> u32
    ensures seat { OnCore seat.old.value seat.new.value result (λ old told new.
        OnBoth old timers.old.value told new timers.new.value (λ at before code gets after. WakesDueTold now at before code gets after)) }
    ensures empty { seat.old.value ≡ None → timers.new.value ≡ timers.old.value }
{
    with!(seat, alloc, core => wake_in_house(alloc, &mut core, timers, now))
}

/// Looks at the timers of a handle.
fn wake_in_house(alloc: Global, core: &mut Member, timers: &mut SeatHandle, now: u64) -> Code
    ensures { OnBoth core.old timers.old.value result core.new timers.new.value (λ at before code gets after. WakesDueTold now at before code gets after) }
{
    let Some(mut member) = timers.take(alloc) else {
        return Code::Empty;
    };
    let code = core.wake_due(&mut member, now);
    timers.put(member);
    code
}
