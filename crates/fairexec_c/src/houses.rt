//! The calls on a house.

ghost use Rattle.std.specs.Prelude.{◌≡◌, None};
ghost use Rattle.host_calls.specs.Verdicts.{AuditsTold, ReadsTold};
ghost use Rattle.fairexec_c.specs.Handles.{Frees, OnCore};
ghost use Rattle.fairexec_c.specs.Houses.{EndsIn, EndsInto, OpensHouse, OpensOn, TakesFrom, TakesInto};
ghost use Rattle.host_calls.specs.Members.{IsHouse};

use crate::handle::SeatHandle;
use host_calls::house::{Config, KeptHouse};
use host_calls::verdicts::VerdictTold;
use host_calls::{Code, Member, number};
use std::alloc::Global;

/// Opens a house.
#[unsafe(no_mangle)]
pub extern "C" fn fx_house_open(alloc: Global, house: &mut SeatHandle, config: &Config) -> u32
    ensures { OpensHouse house.old.value config.now result house.new.value }
{
    match house.take(alloc) {
        Some(member) => {
            house.put(member);
            number(Code::Occupied)
        }
        None => number(open(alloc, house, config)),
    }
}

/// Opens a house for an empty handle.
fn open(alloc: Global, house: &mut SeatHandle, config: &Config) -> Code
    requires { house.old.value ≡ None }
    ensures { OpensOn config.now result house.new.value }
{
    match KeptHouse::open(alloc, config) {
        Ok(kept) => match Box::new(alloc, Member::House(kept)) {
            Ok(member) => {
                house.put(member);
                Code::Ok
            }
            Err(_) => Code::NoMemory,
        },
        Err(code) => code,
    }
}

/// Moves the next seat out of the house, into an empty handle, and tells the number of its actor.
#[unsafe(no_mangle)]
pub extern "C" fn fx_house_take(
    alloc: Global,
    house: &mut SeatHandle,
    seat: &mut SeatHandle,
    actor: &mut u32,
) -> u32
    ensures { TakesFrom house.old.value seat.old.value actor.old result house.new.value seat.new.value actor.new }
{
    with!(house, alloc, kept => if kept.is_house() {
        take_into(alloc, &mut kept, seat, actor)
    } else {
        Code::Empty
    })
}

/// Moves the next seat of a house into a handle that has to be empty.
fn take_into(alloc: Global, kept: &mut Member, seat: &mut SeatHandle, actor: &mut u32) -> Code
    requires { IsHouse kept.old }
    ensures { TakesInto kept.old seat.old.value actor.old result kept.new seat.new.value actor.new }
{
    if let Some(other) = seat.take(alloc) {
        seat.put(other);
        return Code::Occupied;
    }
    match kept.take_seat(alloc) {
        Ok((member, number)) => {
            seat.put(member);
            *actor = number;
            Code::Ok
        }
        Err(code) => code,
    }
}

/// Ends a seat, and hands its journal to the house.
#[unsafe(no_mangle)]
pub extern "C" fn fx_house_end(alloc: Global, house: &mut SeatHandle, seat: &mut SeatHandle) -> u32
    ensures { EndsIn house.old.value seat.old.value result house.new.value seat.new.value }
{
    with!(house, alloc, kept => end_into(alloc, &mut kept, seat))
}

/// Ends the seat of a handle in a house.
fn end_into(alloc: Global, kept: &mut Member, seat: &mut SeatHandle) -> Code
    ensures { EndsInto kept.old seat.old.value result kept.new seat.new.value }
{
    let Some(member) = seat.take(alloc) else {
        return Code::Empty;
    };
    match kept.end_seat(alloc, member) {
        Ok(()) => Code::Ok,
        Err((code, member)) => {
            seat.put(member);
            code
        }
    }
}

/// Audits the journals of a house, once all are handed in.
#[unsafe(no_mangle)]
pub extern "C" fn fx_house_audit(
    alloc: Global,
    house: &mut SeatHandle,
    verdict: &mut VerdictTold,
) -> u32
    ensures house { OnCore house.old.value house.new.value result (λ old told new. AuditsTold old verdict.old told verdict.new new) }
    ensures empty { house.old.value ≡ None → verdict.new ≡ verdict.old }
{
    with!(house, alloc, member => member.audit(alloc, verdict))
}

/// Copies the text of the journals from this byte on, and tells how much was copied.
#[unsafe(no_mangle)]
pub extern "C" fn fx_house_text(
    alloc: Global,
    house: &mut SeatHandle,
    from: u64,
    bytes: &mut [u8],
    count: &mut u64,
) -> u32
    ensures house { OnCore house.old.value house.new.value result (λ old told new. ReadsTold old from bytes.old count.old told new bytes.new count.new) }
    ensures empty { house.old.value ≡ None → (bytes.new ≡ bytes.old) × (count.new ≡ count.old) }
{
    with!(house, alloc, member => member.read(alloc, from, bytes, count))
}

/// Frees a house, with what is left in it.
#[unsafe(no_mangle)]
pub extern "C" fn fx_house_free(alloc: Global, house: &mut SeatHandle) -> u32
    ensures { Frees house.old.value result house.new.value }
{
    free(alloc, house)
}

/// Frees a seat.
#[unsafe(no_mangle)]
pub extern "C" fn fx_seat_free(alloc: Global, seat: &mut SeatHandle) -> u32
    ensures { Frees seat.old.value result seat.new.value }
{
    free(alloc, seat)
}

/// Frees what a handle holds.
pub(crate) fn free(alloc: Global, seat: &mut SeatHandle) -> u32
    ensures { Frees seat.old.value result seat.new.value }
{
    match seat.take(alloc) {
        Some(member) => {
            drop(member);
            number(Code::Ok)
        }
        None => number(Code::Empty),
    }
}
