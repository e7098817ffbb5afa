//! The calls on an actor of a house.
//!
//! A handle is a box of the actor behind a pointer of C's. Each call here looks whether there is an actor in it, does what its namesake does, and
//! turns the answer into a code. What a call tells, it writes into a place that the host gave, and only where its code says so.

ghost use Rattle.std.specs.Prelude.{◌≡◌, None};
ghost use Rattle.host_calls.specs.Links.{ClosesTold, DeliversTold, IsTold, ShutsTold};
ghost use Rattle.host_calls.specs.Members as members;
ghost use Rattle.host_calls.specs.Notes.{CameTold, CopiesTold, ForgetsTold, NotesTold};
ghost use Rattle.host_calls.specs.Orders.{mode_of_number};
ghost use Rattle.host_calls.specs.Passing.{PassesTold};
ghost use Rattle.host_calls.specs.Stats.{SeatTells, SeatTellsQueue};
ghost use Rattle.host_calls.specs.Submissions.{CollectsTold, ShowsTold};
ghost use Rattle.host_calls.specs.Tickets.{DetachesTold, RedeemsTold};
ghost use Rattle.host_calls.specs.Turns.{NextsTold, SettlesTold, StepsTold, step_of};
ghost use Rattle.host_text.specs.declared.part.Form.TheVariants as form;
ghost use Rattle.fairexec_c.specs.Handles.{OnCore};

use crate::handle::SeatHandle;
use host_calls::figures::{CoreFigures, QueueFigures};
use host_calls::names::Name;
use host_calls::outcomes::OutcomeTold;
use host_calls::turns::TurnTold;
use host_calls::{Code, number};
use host_text::Form;
use std::alloc::Global;

/// Tells which job to run now.
#[unsafe(no_mangle)]
pub extern "C" fn fx_seat_next(alloc: Global, seat: &mut SeatHandle, turn: &mut TurnTold) -> u32
    ensures seat { OnCore seat.old.value seat.new.value result (λ old told new.
        members.OnCore old (turn.new ≡ turn.old) told new (λ before code after. NextsTold before turn.old code turn.new after)) }
    ensures empty { seat.old.value ≡ None → turn.new ≡ turn.old }
{
    with!(seat, alloc, member => member.next(turn))
}

/// Settles the run of the job that `fx_seat_next` told. It took `spent` nanoseconds.
#[unsafe(no_mangle)]
pub extern "C" fn fx_seat_settle(
    alloc: Global,
    seat: &mut SeatHandle,
    step: u32,
    answer: u64,
    spent: u64,
) -> u32
    ensures { OnCore seat.old.value seat.new.value result (λ old told new.
        members.OnCore old (Unit {0}) told new (λ before code after. SettlesTold before (step_of step answer) spent code after)) }
{
    with!(seat, alloc, member => member.settle(step, answer, spent))
}

/// Settles the run of the job that is out, and tells which job to run now.
#[unsafe(no_mangle)]
pub extern "C" fn fx_seat_step(
    alloc: Global,
    seat: &mut SeatHandle,
    step: u32,
    answer: u64,
    spent: u64,
    turn: &mut TurnTold,
) -> u32
    ensures seat { OnCore seat.old.value seat.new.value result (λ old told new.
        members.OnCore old (turn.new ≡ turn.old) told new (λ before code after. StepsTold before (step_of step answer) spent turn.old code turn.new after)) }
    ensures empty { seat.old.value ≡ None → turn.new ≡ turn.old }
{
    with!(seat, alloc, member => member.step(step, answer, spent, turn))
}

/// Delivers the next order of this actor to the core, if one shows.
#[unsafe(no_mangle)]
pub extern "C" fn fx_seat_deliver(alloc: Global, seat: &mut SeatHandle, sender: u32) -> u32
    ensures { OnCore seat.old.value seat.new.value result (λ old told new.
        members.OnCore old (Unit {0}) told new (λ before code after. DeliversTold sender before code after)) }
{
    with!(seat, alloc, member => member.deliver(sender))
}

/// Closes the core by itself.
#[unsafe(no_mangle)]
pub extern "C" fn fx_seat_close(alloc: Global, seat: &mut SeatHandle, mode: u32) -> u32
    ensures { OnCore seat.old.value seat.new.value result (λ old told new.
        members.OnCore old (Unit {0}) told new (λ before code after. ClosesTold (mode_of_number mode) before code after)) }
{
    with!(seat, alloc, member => member.close(mode))
}

/// Shuts the gate of this actor in the core.
#[unsafe(no_mangle)]
pub extern "C" fn fx_seat_shut(alloc: Global, seat: &mut SeatHandle, sender: u32) -> u32
    ensures { OnCore seat.old.value seat.new.value result (λ old told new.
        members.OnCore old (Unit {0}) told new (λ before code after. ShutsTold sender before code after)) }
{
    with!(seat, alloc, member => member.shut(sender))
}

/// Whether the core has come to its end.
#[unsafe(no_mangle)]
pub extern "C" fn fx_seat_drained(alloc: Global, seat: &mut SeatHandle) -> u32
    ensures { OnCore seat.old.value seat.new.value result (λ old told new.
        members.OnCore old (Unit {0}) told new (λ before code after. (after ≡ before) × IsTold before code)) }
{
    with!(seat, alloc, member => member.drained())
}

/// Collects all outcomes that the link to this core shows.
#[unsafe(no_mangle)]
pub extern "C" fn fx_seat_collect(
    alloc: Global,
    seat: &mut SeatHandle,
    core: u32,
    count: &mut u64,
) -> u32
    ensures seat { OnCore seat.old.value seat.new.value result (λ old told new. CollectsTold old core count.old told count.new new) }
    ensures empty { seat.old.value ≡ None → count.new ≡ count.old }
{
    with!(seat, alloc, member => member.collect(core, count))
}

/// Tells the outcome of a submission that was collected.
#[unsafe(no_mangle)]
pub extern "C" fn fx_seat_redeem(
    alloc: Global,
    seat: &mut SeatHandle,
    name: &Name,
    outcome: &mut OutcomeTold,
) -> u32
    ensures seat { OnCore seat.old.value seat.new.value result (λ old told new. RedeemsTold old name.now outcome.old told outcome.new new) }
    ensures empty { seat.old.value ≡ None → outcome.new ≡ outcome.old }
{
    with!(seat, alloc, member => member.redeem(name, outcome))
}

/// Nobody will ask for the outcome of a submission.
#[unsafe(no_mangle)]
pub extern "C" fn fx_seat_detach(alloc: Global, seat: &mut SeatHandle, name: &Name) -> u32
    ensures { OnCore seat.old.value seat.new.value result (λ old told new. DetachesTold old name.now told new) }
{
    with!(seat, alloc, member => member.detach(name))
}

/// Hands on the text of the notes that the journal keeps, and tells how many bytes it has.
#[unsafe(no_mangle)]
pub extern "C" fn fx_seat_pass_on(
    alloc: Global,
    seat: &mut SeatHandle,
    bytes: &mut [u8],
    count: &mut u64,
) -> u32
    ensures seat { OnCore seat.old.value seat.new.value result (λ old told new. PassesTold old bytes.old count.old told new bytes.new count.new) }
    ensures empty { seat.old.value ≡ None → (bytes.new ≡ bytes.old) × (count.new ≡ count.old) }
{
    with!(seat, alloc, member => member.pass_on(alloc, bytes, count))
}

/// Tells how many notes the journal keeps, and how many more it may.
#[unsafe(no_mangle)]
pub extern "C" fn fx_seat_notes(
    alloc: Global,
    seat: &mut SeatHandle,
    kept: &mut u64,
    free_notes: &mut u64,
) -> u32
    ensures seat { OnCore seat.old.value seat.new.value result (λ old told new. (new ≡ old) × NotesTold old kept.old free_notes.old told kept.new free_notes.new) }
    ensures empty { seat.old.value ≡ None → (kept.new ≡ kept.old) × (free_notes.new ≡ free_notes.old) }
{
    with!(seat, alloc, member => member.notes(kept, free_notes))
}

/// Tells the name of a submission whose outcome was collected, as the note at this place of the journal says.
#[unsafe(no_mangle)]
pub extern "C" fn fx_seat_came(
    alloc: Global,
    seat: &mut SeatHandle,
    place: u64,
    name: &mut Name,
) -> u32
    ensures seat { OnCore seat.old.value seat.new.value result (λ old told new. (new ≡ old) × CameTold old place name.old told name.new) }
    ensures empty { seat.old.value ≡ None → name.new ≡ name.old }
{
    with!(seat, alloc, member => member.came(place, name))
}

/// Copies the text of some of the notes that the journal keeps, and tells how many bytes it has, and of how many notes it is.
#[unsafe(no_mangle)]
pub extern "C" fn fx_seat_copy(
    alloc: Global,
    seat: &mut SeatHandle,
    from: u64,
    most: u64,
    bytes: &mut [u8],
    count: &mut u64,
    notes: &mut u64,
) -> u32
    ensures seat { OnCore seat.old.value seat.new.value result (λ old told new.
        (new ≡ old) × CopiesTold old form.Text from most bytes.old count.old notes.old told bytes.new count.new notes.new) }
    ensures empty { seat.old.value ≡ None → (bytes.new ≡ bytes.old) × (count.new ≡ count.old) × (notes.new ≡ notes.old) }
{
    with!(seat, alloc, member => member.copy(alloc, Form::Text, from, most, bytes, count, notes))
}

/// Copies some of the notes that the journal keeps as a part in bytes, before which came so many notes of the actor, and tells how many bytes it has,
/// and of how many notes it is.
#[unsafe(no_mangle)]
pub extern "C" fn fx_seat_copy_bytes(
    alloc: Global,
    seat: &mut SeatHandle,
    before: u64,
    from: u64,
    most: u64,
    bytes: &mut [u8],
    count: &mut u64,
    notes: &mut u64,
) -> u32
    ensures seat { OnCore seat.old.value seat.new.value result (λ old told new.
        (new ≡ old) × CopiesTold old (form.Bytes before) from most bytes.old count.old notes.old told bytes.new count.new notes.new) }
    ensures empty { seat.old.value ≡ None → (bytes.new ≡ bytes.old) × (count.new ≡ count.old) × (notes.new ≡ notes.old) }
{
    with!(seat, alloc, member => member.copy(alloc, Form::Bytes(before), from, most, bytes, count, notes))
}

/// Forgets the notes that the journal keeps, and tells how many they were.
#[unsafe(no_mangle)]
pub extern "C" fn fx_seat_forget(alloc: Global, seat: &mut SeatHandle, count: &mut u64) -> u32
    ensures seat { OnCore seat.old.value seat.new.value result (λ old told new. ForgetsTold old count.old told count.new new) }
    ensures empty { seat.old.value ≡ None → count.new ≡ count.old }
{
    with!(seat, alloc, member => member.forget(count))
}

/// Whether a link shows an order or an outcome that wasn't seen yet.
#[unsafe(no_mangle)]
pub extern "C" fn fx_seat_shows(alloc: Global, seat: &mut SeatHandle) -> u32
    ensures { OnCore seat.old.value seat.new.value result (λ old told new. ShowsTold old told new) }
{
    with!(seat, alloc, member => member.shows())
}

/// Tells the counts of a core.
#[unsafe(no_mangle)]
pub extern "C" fn fx_seat_stats(
    alloc: Global,
    seat: &mut SeatHandle,
    stats: &mut CoreFigures,
) -> u32
    ensures seat { OnCore seat.old.value seat.new.value result (λ old told new.
        members.OnCore old (stats.new ≡ stats.old) told new (λ before code after. (after ≡ before) × SeatTells before stats.old code stats.new)) }
    ensures empty { seat.old.value ≡ None → stats.new ≡ stats.old }
{
    with!(seat, alloc, member => member.stats(stats))
}

/// Tells the counts of a queue.
#[unsafe(no_mangle)]
pub extern "C" fn fx_seat_stats_of_queue(
    alloc: Global,
    seat: &mut SeatHandle,
    queue: u32,
    stats: &mut QueueFigures,
) -> u32
    ensures seat { OnCore seat.old.value seat.new.value result (λ old told new.
        members.OnCore old (stats.new ≡ stats.old) told new (λ before code after. (after ≡ before) × SeatTellsQueue before queue stats.old code stats.new)) }
    ensures empty { seat.old.value ≡ None → stats.new ≡ stats.old }
{
    with!(seat, alloc, member => member.stats_of_queue(queue, stats))
}
