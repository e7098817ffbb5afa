//! Which journals have a text.
//!
//! Whose journal a note stands in decides most: a core alone delivers, picks and polls, and each actor sends and collects. A number of cores,
//! of places or of a submission has a range of its own, one function each. `is_spelled_note` asks those that a note's kind needs.

ghost use Rattle.std.specs.Prelude.{◌≡◌, ◌↔◌, ◌<◌, ◌≤◌, ◌^◌, ℕ, All, IsTrue, reverse};
ghost use Rattle.base_words.specs.Charge.{InRange};
ghost use Rattle.base_words.specs.Bursts.{has_bursts};
ghost use Rattle.base_words.specs.Limits.{most_capacity, most_cores, most_queues};
ghost use Rattle.base_words.specs.Spelled as spec;
ghost use Rattle.base_words.specs.Orders.{IsSpelledOrder};
ghost use Rattle.note_journal.specs.Writers.{terms_seen};

use crate::assembly::Assembly;
use crate::journal::Journal;
use base_words::{
    ActorNo, Answer, JobId, LAST_NUMBER, MOST_BURST, MOST_CAPACITY, MOST_CORES, Note, Order,
    OutcomeNote, QueueNo, Reason, Shares,
};

/// Whose journal a note stands in, and what holds of the whole house.
#[derive(Clone, Copy)]
pub struct Writer {
    pub actor: u8,
    pub cores: u8,
    pub cap: u16,
    pub burst: u8,
}

impl Assembly {
    /// Whether the journals have a text: there are as many cores, places and polls of a turn as there may be, each actor has a journal,
    /// and each note is one that its actor may write, within its ranges.
    pub fn is_spelled(&self) -> bool
        ensures { IsTrue result ↔ spec.IsSpelled self.now }
    {
        let cores = self.cores();
        let cap = self.cap();
        let burst = self.burst();
        if !is_within_limits(cores, cap, burst) {
            return false;
        }
        for actor in 0..cores + 1 {
            let writer = Writer {
                actor,
                cores,
                cap,
                burst,
            };
            if !are_spelled(writer, self.journal(ActorNo(actor))) {
                return false;
            }
        }
        true
    }
}

/// Whether there are as many cores, places and polls of a turn as there may be.
fn is_within_limits(cores: u8, cap: u16, burst: u8) -> bool
    ensures { IsTrue result ↔ spec.IsWithinLimits cores cap burst }
{
    is_house(cores, cap) && burst >= 1 && burst <= MOST_BURST
}

/// Whether there are as many cores and places as there may be.
fn is_house(cores: u8, cap: u16) -> bool
    ensures { IsTrue result ↔ (1 ≤ cores) × (cores ≤ most_cores) × (1 ≤ cap) × (cap ≤ most_capacity) }
{
    cores >= 1 && cores <= MOST_CORES && cap >= 1 && cap <= MOST_CAPACITY
}

/// Whether each note is one that the actor may write.
fn are_spelled(writer: Writer, journal: &Journal<u64>) -> bool
    ensures { IsTrue result ↔ spec.AreSpelledNotes (terms_seen writer) journal.now.notes }
{
    for note in journal.as_slice() {
        if !is_spelled_note(writer, *note) {
            return false;
        }
    }
    true
}

/// Whether the actor may write the note, and what it names is within its range.
pub fn is_spelled_note(writer: Writer, note: Note<u64>) -> bool
    ensures { IsTrue result ↔ spec.IsSpelledNote (terms_seen writer) note }
{
    match note {
        Note::Sent(name, order) => is_own(writer, name) && is_order(order),
        Note::Took(name, queue) => is_received(writer, name) && is_queue(queue),
        Note::Back(name, reason) => is_received(writer, name) && is_back_reason(reason),
        Note::Answered(name, answer) => is_received(writer, name) && is_answer(answer),
        Note::Created(queue, shares) => is_core(writer) && is_queue(queue) && is_weight(shares),
        Note::SharesSet(queue, shares) => is_core(writer) && is_queue(queue) && is_weight(shares),
        Note::QueueClosed(queue, _) => is_core(writer) && is_queue(queue),
        Note::CoreClosed(_) => is_core(writer),
        Note::Woken(name) => is_received(writer, name),
        Note::Pick(queue, _) => is_core(writer) && is_queue(queue),
        Note::Start(name) => is_received(writer, name),
        Note::Resume(name) => is_received(writer, name),
        Note::Yield(name, _) => is_received(writer, name),
        Note::Park(name, _) => is_received(writer, name),
        Note::Stayed(name, _) => is_received(writer, name),
        Note::Done(name, _, _) => is_received(writer, name),
        Note::Returned(name, reason) => is_received(writer, name) && is_return_reason(reason),
        Note::Turned(queue, time) => is_core(writer) && is_queue(queue) && is_turn(writer, time),
        Note::Shut(sender, count) => {
            is_core(writer) && sender.0 <= writer.cores && count <= LAST_NUMBER
        }
        Note::Collected(name, outcome) => is_own(writer, name) && is_outcome(outcome),
        Note::Redeemed(name, outcome) => is_own(writer, name) && is_outcome(outcome),
        Note::Detached(name) => is_own(writer, name),
    }
}

/// Whether the actor is a core.
fn is_core(writer: Writer) -> bool
    ensures { IsTrue result ↔ (writer.actor < writer.cores) }
{
    writer.actor < writer.cores
}

/// Whether a note may end a turn with this time: a turn has several polls, and its time is at least 1 and at most what counts.
fn is_turn(writer: Writer, time: u64) -> bool
    ensures { IsTrue result ↔ (1 ≤ time) × (time < 2 ^ 40) × IsTrue (has_bursts writer.burst) }
{
    writer.burst > 1 && time >= 1 && time < 1 << 40
}

/// Whether its sender is an actor, its receiver a core, and its number one of a link.
fn is_name(cores: u8, name: JobId) -> bool
    ensures { IsTrue result ↔ spec.IsName cores name }
{
    name.from.0 <= cores && name.to.0 < cores && name.number >= 1 && name.number <= LAST_NUMBER
}

/// Whether it is a name whose sender is this actor.
fn is_own(writer: Writer, name: JobId) -> bool
    ensures { IsTrue result ↔ spec.IsOwn (terms_seen writer) name }
{
    let sender = name.from.0;
    is_name(writer.cores, name) && sender == writer.actor
}

/// Whether it is a name whose receiver is this actor.
fn is_received(writer: Writer, name: JobId) -> bool
    ensures { IsTrue result ↔ spec.IsReceived (terms_seen writer) name }
{
    let receiver = name.to.0;
    is_name(writer.cores, name) && receiver == writer.actor
}

/// Whether it is the number of a queue that there may be. The type holds no other.
fn is_queue(queue: QueueNo) -> bool
    ensures { IsTrue result ↔ (queue < most_queues) }
{
    let _number = queue.0;
    true
}

/// Whether the shares are within their range. The type holds no others.
fn is_weight(shares: Shares) -> bool
    ensures { IsTrue result ↔ InRange shares }
{
    let _weight = shares.get();
    true
}

/// Whether what the order names is within its range.
fn is_order(order: Order<()>) -> bool
    ensures { IsTrue result ↔ IsSpelledOrder order }
{
    match order {
        Order::Job(queue, ()) => is_queue(queue),
        Order::Create(shares) => is_weight(shares),
        Order::SetShares(queue, shares) => is_queue(queue) && is_weight(shares),
        Order::Close(queue, _) => is_queue(queue),
        Order::CloseCore(_) => true,
        Order::Wake(_, _) => true,
    }
}

/// Whether a delivery may send a job back for this reason.
fn is_back_reason(reason: Reason) -> bool
    ensures { IsTrue result ↔ spec.IsBackReason reason }
{
    match reason {
        Reason::NoQueue | Reason::QueueClosed | Reason::CoreClosing => true,
        Reason::QueueReturned | Reason::CoreReturned => false,
    }
}

/// Whether a pick may hand a job back for this reason.
fn is_return_reason(reason: Reason) -> bool
    ensures { IsTrue result ↔ spec.IsReturnReason reason }
{
    match reason {
        Reason::NoQueue | Reason::QueueClosed | Reason::CoreClosing => false,
        Reason::QueueReturned | Reason::CoreReturned => true,
    }
}

/// Whether the answer names no queue, or one that there may be.
fn is_answer(answer: Answer) -> bool
    ensures { IsTrue result ↔ spec.IsSpelledAnswer answer }
{
    match answer {
        Answer::Created(queue) => is_queue(queue),
        _ => true,
    }
}

/// Whether the outcome's answer, if it is one, is within its range.
fn is_outcome(outcome: OutcomeNote<u64>) -> bool
    ensures { IsTrue result ↔ spec.IsSpelledOutcome outcome }
{
    match outcome {
        OutcomeNote::Answered(answer) => is_answer(answer),
        OutcomeNote::Finished(_) | OutcomeNote::Returned(_) => true,
    }
}
