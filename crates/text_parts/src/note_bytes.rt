//! Writes a note as bytes.
//!
//! A note is put by one copy of an array whose length its kind fixes: fields that are put one by one would each ask for room. What is read back
//! is in byte_notes.rt, kind by kind under the same numbers.

ghost use Rattle.std.specs.Prelude.{◌≡◌, ◌≤◌, ◌++◌, ◌∷◌, [], OnOk, length};
ghost use Rattle.base_words.specs.Assembly.{IsPrefix};
ghost use Rattle.text_parts.specs.NoteBytes as spec;

use base_words::{Answer, JobId, Mode, Note, Order, OutcomeNote, QueueNo, Reason, Shares};
use std::alloc::AllocError;

/// Puts a note behind the others. If the vector has room for it, no memory is asked for.
///
/// # Errors
///
/// There is no memory for it. A first part of it may then stand behind what was there.
pub fn put_note(note: Note<u64>, out: &mut Vec<u8>) -> Result<(), AllocError>
    ensures bytes { OnOk result (out.new.items ≡ out.old.items ++ spec.note_bytes note) }
    ensures front { IsPrefix out.old.items out.new.items }
{
    match note {
        Note::Sent(name, order) => put_sent(name, order, out),
        Note::Took(name, queue) => put_name_byte(1, name, queue.0, out),
        Note::Back(name, reason) => put_name_reason(2, name, reason, out),
        Note::Answered(name, answer) => put_answered(name, answer, out),
        Note::Created(queue, shares) => put_shares(4, queue, shares, out),
        Note::SharesSet(queue, shares) => put_shares(5, queue, shares, out),
        Note::QueueClosed(queue, mode) => put_closed(6, queue, mode, out),
        Note::CoreClosed(mode) => put_mode(7, mode, out),
        Note::Woken(name) => put_name(8, name, out),
        Note::Pick(queue, runtime) => put_pick(queue, runtime, out),
        Note::Start(name) => put_name(10, name, out),
        Note::Resume(name) => put_name(11, name, out),
        Note::Yield(name, time) => put_name_time(12, name, time, out),
        Note::Park(name, time) => put_name_time(13, name, time, out),
        Note::Stayed(name, time) => put_name_time(14, name, time, out),
        Note::Done(name, time, value) => put_done(name, time, value, out),
        Note::Returned(name, reason) => put_name_reason(16, name, reason, out),
        Note::Turned(queue, time) => put_byte_wide(17, queue.0, time, out),
        Note::Shut(sender, count) => put_byte_wide(18, sender.0, count, out),
        Note::Collected(name, outcome) => put_outcome(19, name, outcome, out),
        Note::Redeemed(name, outcome) => put_outcome(20, name, outcome, out),
        Note::Detached(name) => put_name(21, name, out),
    }
}

/// Puts bytes.
pub(crate) fn put_bytes(bytes: &[u8], out: &mut Vec<u8>) -> Result<(), AllocError>
    ensures bytes { OnOk result (out.new.items ≡ out.old.items ++ bytes.now) }
    ensures front { IsPrefix out.old.items out.new.items }
{
    out.extend_from_slice(bytes)
}

/// Puts a number of eight bytes.
#[tactic(auto, unfolding(crate::specs::NoteBytes::wide))]
pub(crate) fn put_wide(number: u64, out: &mut Vec<u8>) -> Result<(), AllocError>
    ensures bytes { OnOk result (out.new.items ≡ out.old.items ++ spec.wide number) }
    ensures front { IsPrefix out.old.items out.new.items }
{
    put_bytes(&number.to_le_bytes(), out)
}

/// Puts a number of two bytes.
#[tactic(auto, unfolding(crate::specs::NoteBytes::short))]
pub(crate) fn put_short(number: u16, out: &mut Vec<u8>) -> Result<(), AllocError>
    ensures bytes { OnOk result (out.new.items ≡ out.old.items ++ spec.short number) }
    ensures front { IsPrefix out.old.items out.new.items }
{
    put_bytes(&number.to_le_bytes(), out)
}

/// Puts a kind, and a name.
fn put_name(kind: u8, name: JobId, out: &mut Vec<u8>) -> Result<(), AllocError>
    ensures bytes { OnOk result (out.new.items ≡ out.old.items ++ kind ∷ spec.name_bytes name) }
    ensures front { IsPrefix out.old.items out.new.items }
{
    put_bytes(&named(kind, name), out)
}

/// A kind, and a name.
#[tactic(auto, unfolding(crate::specs::NoteBytes::wide))]
fn named(kind: u8, name: JobId) -> [u8; 11]
    ensures { result ≡ kind ∷ spec.name_bytes name }
{
    let from = name.from.0;
    let to = name.to.0;
    let number = name.number.to_le_bytes();
    [
        kind, from, to, number[0], number[1], number[2], number[3], number[4], number[5],
        number[6], number[7],
    ]
}

/// A kind, a name and a byte.
#[tactic(auto, unfolding(crate::specs::NoteBytes::wide))]
fn with_byte(kind: u8, name: JobId, byte: u8) -> [u8; 12]
    ensures { result ≡ kind ∷ (spec.name_bytes name ++ byte ∷ []) }
{
    let from = name.from.0;
    let to = name.to.0;
    let number = name.number.to_le_bytes();
    [
        kind, from, to, number[0], number[1], number[2], number[3], number[4], number[5],
        number[6], number[7], byte,
    ]
}

/// A kind, a name and two bytes.
#[tactic(auto, unfolding(crate::specs::NoteBytes::wide))]
fn with_two(kind: u8, name: JobId, first: u8, byte: u8) -> [u8; 13]
    ensures { result ≡ kind ∷ (spec.name_bytes name ++ first ∷ byte ∷ []) }
{
    let from = name.from.0;
    let to = name.to.0;
    let number = name.number.to_le_bytes();
    [
        kind, from, to, number[0], number[1], number[2], number[3], number[4], number[5],
        number[6], number[7], first, byte,
    ]
}

/// A kind, a name and a time.
#[tactic(auto, unfolding(crate::specs::NoteBytes::wide))]
fn with_time(kind: u8, name: JobId, time: u64) -> [u8; 19]
    ensures { result ≡ kind ∷ (spec.name_bytes name ++ spec.wide time) }
{
    let from = name.from.0;
    let to = name.to.0;
    let number = name.number.to_le_bytes();
    let time = time.to_le_bytes();
    [
        kind, from, to, number[0], number[1], number[2], number[3], number[4], number[5],
        number[6], number[7], time[0], time[1], time[2], time[3], time[4], time[5], time[6],
        time[7],
    ]
}

/// A kind, a byte and a number.
#[tactic(auto, unfolding(crate::specs::NoteBytes::wide))]
fn byte_wide(kind: u8, byte: u8, number: u64) -> [u8; 10]
    ensures { result ≡ kind ∷ byte ∷ spec.wide number }
{
    let number = number.to_le_bytes();
    [
        kind, byte, number[0], number[1], number[2], number[3], number[4], number[5], number[6],
        number[7],
    ]
}

fn put_name_byte(kind: u8, name: JobId, byte: u8, out: &mut Vec<u8>) -> Result<(), AllocError>
    ensures bytes { OnOk result (out.new.items ≡ out.old.items ++ kind ∷ (spec.name_bytes name ++ byte ∷ [])) }
    ensures front { IsPrefix out.old.items out.new.items }
{
    put_bytes(&with_byte(kind, name, byte), out)
}

fn put_name_reason(
    kind: u8,
    name: JobId,
    reason: Reason,
    out: &mut Vec<u8>,
) -> Result<(), AllocError>
    ensures bytes { OnOk result (out.new.items ≡ out.old.items ++ kind ∷ (spec.name_bytes name ++ spec.reason_bytes reason)) }
    ensures front { IsPrefix out.old.items out.new.items }
{
    put_name_byte(kind, name, reason_byte(reason), out)
}

fn put_name_time(kind: u8, name: JobId, time: u64, out: &mut Vec<u8>) -> Result<(), AllocError>
    ensures bytes { OnOk result (out.new.items ≡ out.old.items ++ kind ∷ (spec.name_bytes name ++ spec.wide time)) }
    ensures front { IsPrefix out.old.items out.new.items }
{
    put_bytes(&with_time(kind, name, time), out)
}

fn put_done(name: JobId, time: u64, value: u64, out: &mut Vec<u8>) -> Result<(), AllocError>
    ensures bytes { OnOk result (out.new.items ≡ out.old.items ++ 15 ∷ (spec.name_bytes name ++ (spec.wide time ++ spec.wide value))) }
    ensures front { IsPrefix out.old.items out.new.items }
{
    put_name_time(15, name, time, out)?;
    put_wide(value, out)
}

fn put_byte_wide(kind: u8, byte: u8, number: u64, out: &mut Vec<u8>) -> Result<(), AllocError>
    ensures bytes { OnOk result (out.new.items ≡ out.old.items ++ kind ∷ byte ∷ spec.wide number) }
    ensures front { IsPrefix out.old.items out.new.items }
{
    put_bytes(&byte_wide(kind, byte, number), out)
}

fn put_pick(queue: QueueNo, runtime: u128, out: &mut Vec<u8>) -> Result<(), AllocError>
    ensures bytes { OnOk result (out.new.items ≡ out.old.items ++ 9 ∷ queue ∷ spec.runtime_bytes runtime) }
    ensures front { IsPrefix out.old.items out.new.items }
{
    let low = (runtime % (1 << 64)) as u64;
    let high = (runtime / (1 << 64)) as u64;
    put_byte_wide(9, queue.0, low, out)?;
    put_wide(high, out)
}

fn put_shares(kind: u8, queue: QueueNo, shares: Shares, out: &mut Vec<u8>) -> Result<(), AllocError>
    ensures bytes { OnOk result (out.new.items ≡ out.old.items ++ kind ∷ queue ∷ spec.short shares) }
    ensures front { IsPrefix out.old.items out.new.items }
{
    put_bytes(&[kind, queue.0], out)?;
    put_short(shares.get() as u16, out)
}

fn put_mode(kind: u8, mode: Mode, out: &mut Vec<u8>) -> Result<(), AllocError>
    ensures bytes { OnOk result (out.new.items ≡ out.old.items ++ kind ∷ spec.mode_bytes mode) }
    ensures front { IsPrefix out.old.items out.new.items }
{
    put_bytes(&[kind, mode_byte(mode)], out)
}

fn put_closed(kind: u8, queue: QueueNo, mode: Mode, out: &mut Vec<u8>) -> Result<(), AllocError>
    ensures bytes { OnOk result (out.new.items ≡ out.old.items ++ kind ∷ queue ∷ spec.mode_bytes mode) }
    ensures front { IsPrefix out.old.items out.new.items }
{
    put_bytes(&[kind, queue.0, mode_byte(mode)], out)
}

fn mode_byte(mode: Mode) -> u8
    ensures { spec.mode_bytes mode ≡ result ∷ [] }
{
    match mode {
        Mode::Finish => 0,
        Mode::Return => 1,
    }
}

fn reason_byte(reason: Reason) -> u8
    ensures { spec.reason_bytes reason ≡ result ∷ [] }
{
    match reason {
        Reason::NoQueue => 0,
        Reason::QueueClosed => 1,
        Reason::CoreClosing => 2,
        Reason::QueueReturned => 3,
        Reason::CoreReturned => 4,
    }
}

fn put_answered(name: JobId, answer: Answer, out: &mut Vec<u8>) -> Result<(), AllocError>
    ensures bytes { OnOk result (out.new.items ≡ out.old.items ++ 3 ∷ (spec.name_bytes name ++ spec.answer_bytes answer)) }
    ensures front { IsPrefix out.old.items out.new.items }
{
    put_name(3, name, out)?;
    put_answer(answer, out)
}

fn put_answer(answer: Answer, out: &mut Vec<u8>) -> Result<(), AllocError>
    ensures bytes { OnOk result (out.new.items ≡ out.old.items ++ spec.answer_bytes answer) }
    ensures front { IsPrefix out.old.items out.new.items }
{
    match answer {
        Answer::Created(queue) => put_bytes(&[0, queue.0], out),
        Answer::TooMany => put_byte(1, out),
        Answer::NoMemory => put_byte(2, out),
        Answer::CoreClosing => put_byte(3, out),
        Answer::SharesSet => put_byte(4, out),
        Answer::NoQueue => put_byte(5, out),
        Answer::Closed => put_byte(6, out),
        Answer::AlreadyClosed => put_byte(7, out),
        Answer::Woken => put_byte(8, out),
        Answer::NoJob => put_byte(9, out),
    }
}

fn put_byte(byte: u8, out: &mut Vec<u8>) -> Result<(), AllocError>
    ensures bytes { OnOk result (out.new.items ≡ out.old.items ++ byte ∷ []) }
    ensures front { IsPrefix out.old.items out.new.items }
{
    put_bytes(&[byte], out)
}

fn put_sent(name: JobId, order: Order<()>, out: &mut Vec<u8>) -> Result<(), AllocError>
    ensures bytes { OnOk result (out.new.items ≡ out.old.items ++ 0 ∷ (spec.name_bytes name ++ spec.order_bytes order)) }
    ensures front { IsPrefix out.old.items out.new.items }
{
    match order {
        Order::Job(queue, ()) => put_bytes(&with_two(0, name, 0, queue.0), out),
        _ => {
            put_name(0, name, out)?;
            put_order(order, out)
        }
    }
}

fn put_order(order: Order<()>, out: &mut Vec<u8>) -> Result<(), AllocError>
    ensures bytes { OnOk result (out.new.items ≡ out.old.items ++ spec.order_bytes order) }
    ensures front { IsPrefix out.old.items out.new.items }
{
    match order {
        Order::Job(queue, ()) => put_bytes(&[0, queue.0], out),
        Order::Create(shares) => {
            put_byte(1, out)?;
            put_short(shares.get() as u16, out)
        }
        Order::SetShares(queue, shares) => put_shares(2, queue, shares, out),
        Order::Close(queue, mode) => put_closed(3, queue, mode, out),
        Order::CloseCore(mode) => put_mode(4, mode, out),
        Order::Wake(actor, number) => put_byte_wide(5, actor.0, number, out),
    }
}

fn put_outcome(
    kind: u8,
    name: JobId,
    outcome: OutcomeNote<u64>,
    out: &mut Vec<u8>,
) -> Result<(), AllocError>
    ensures bytes { OnOk result (out.new.items ≡ out.old.items ++ kind ∷ (spec.name_bytes name ++ spec.outcome_bytes outcome)) }
    ensures front { IsPrefix out.old.items out.new.items }
{
    put_name(kind, name, out)?;
    match outcome {
        OutcomeNote::Finished(value) => {
            put_byte(0, out)?;
            put_wide(value, out)
        }
        OutcomeNote::Returned(reason) => put_bytes(&[1, reason_byte(reason)], out),
        OutcomeNote::Answered(answer) => {
            put_byte(2, out)?;
            put_answer(answer, out)
        }
    }
}

/// How many bytes a note has: at most 27.
#[tactic(auto, unfolding(crate::specs::NoteBytes::wide, crate::specs::NoteBytes::short))]
pub(crate) fn note_size(note: Note<u64>) -> u64
    ensures value { result ≡ length (spec.note_bytes note) }
    ensures most { result ≤ 27 }
{
    match note {
        Note::Sent(_, order) => 11 + order_size(order),
        Note::Answered(_, answer) => 11 + answer_size(answer),
        Note::Collected(_, outcome) | Note::Redeemed(_, outcome) => 11 + outcome_size(outcome),
        Note::CoreClosed(_) => 2,
        Note::QueueClosed(_, _) => 3,
        Note::Created(_, _) | Note::SharesSet(_, _) => 4,
        Note::Turned(_, _) | Note::Shut(_, _) => 10,
        Note::Woken(_) | Note::Start(_) | Note::Resume(_) | Note::Detached(_) => 11,
        Note::Took(_, _) | Note::Back(_, _) | Note::Returned(_, _) => 12,
        Note::Pick(_, _) => 18,
        Note::Yield(_, _) | Note::Park(_, _) | Note::Stayed(_, _) => 19,
        Note::Done(_, _, _) => 27,
    }
}

#[tactic(auto, unfolding(crate::specs::NoteBytes::wide, crate::specs::NoteBytes::short))]
fn order_size(order: Order<()>) -> u64
    ensures value { result ≡ length (spec.order_bytes order) }
    ensures most { result ≤ 10 }
{
    match order {
        Order::Job(_, ()) => 2,
        Order::Create(_) => 3,
        Order::SetShares(_, _) => 4,
        Order::Close(_, _) => 3,
        Order::CloseCore(_) => 2,
        Order::Wake(_, _) => 10,
    }
}

fn answer_size(answer: Answer) -> u64
    ensures value { result ≡ length (spec.answer_bytes answer) }
    ensures most { result ≤ 2 }
{
    match answer {
        Answer::Created(_) => 2,
        _ => 1,
    }
}

#[tactic(auto, unfolding(crate::specs::NoteBytes::wide, crate::specs::NoteBytes::short))]
fn outcome_size(outcome: OutcomeNote<u64>) -> u64
    ensures value { result ≡ length (spec.outcome_bytes outcome) }
    ensures most { result ≤ 9 }
{
    match outcome {
        OutcomeNote::Finished(_) => 9,
        OutcomeNote::Returned(_) => 2,
        OutcomeNote::Answered(answer) => 1 + answer_size(answer),
    }
}
