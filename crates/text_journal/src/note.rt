//! The note that the words of its line say.

ghost use Rattle.std.specs.Prelude.{◌≡◌, ◌≤◌};
ghost use Rattle.text_journal.specs.NoteWords as spec;

use crate::field::{
    back_reason_of, count_of, mode_of, name_of, number_in, queue_of, return_reason_of, runtime_of,
};
use crate::kind::{CoreKind, OwnKind, ReceivedKind, core_kind_of, own_kind_of, received_kind_of};
use crate::phrase::{answer_of, last, mode_phrase, order_of, outcome_of, shares_phrase};
use base_words::{ActorNo, JobId, LAST_NUMBER, Note};
use text_words::Words;
use text_words::field::is_word;

/// The longest time of a turn.
const LONGEST_TURN: u64 = (1 << 40) - 1;

/// The note that the words say, where an actor of so many cores and so many polls in a turn writes it; nothing where they say none.
#[tactic(auto, unfolding(crate::specs::NoteWords::note_of))]
pub fn note_of(fields: &mut Words<'_>, actor: u8, cores: u8, burst: u8) -> Option<Note<u64>>
    requires { 1 ≤ cores }
    ensures { result ≡ spec.note_of actor cores burst fields.old }
{
    let word = fields.next_word();
    if let Some(kind) = own_kind_of(word) {
        let name = own_name(fields.next_word(), actor, cores)?;
        return own_rest(kind, name, fields);
    }
    if let Some(kind) = received_kind_of(word) {
        let name = received_name(fields.next_word(), actor, cores)?;
        return received_rest(kind, name, fields);
    }
    let kind = core_kind_of(word)?;
    if actor < cores {
        core_rest(kind, cores, burst, fields)
    } else {
        None
    }
}

/// A name that this actor sent.
fn own_name(word: &[u8], actor: u8, cores: u8) -> Option<JobId>
    requires { 1 ≤ cores }
    ensures { result ≡ spec.own_name actor cores word.now }
{
    let name = name_of(word, cores)?;
    if name.from.0 == actor {
        Some(name)
    } else {
        None
    }
}

/// A name that this actor received.
fn received_name(word: &[u8], actor: u8, cores: u8) -> Option<JobId>
    requires { 1 ≤ cores }
    ensures { result ≡ spec.received_name actor cores word.now }
{
    let name = name_of(word, cores)?;
    if name.to.0 == actor { Some(name) } else { None }
}

/// The words behind the name, in a note that its sender writes.
#[tactic(auto, unfolding(crate::specs::NoteWords::own_rest))]
fn own_rest(kind: OwnKind, name: JobId, fields: &mut Words<'_>) -> Option<Note<u64>>
    ensures { result ≡ spec.own_rest kind name fields.old }
{
    match kind {
        OwnKind::Sent => Some(Note::Sent(name, order_of(fields)?)),
        OwnKind::Collected => Some(Note::Collected(name, outcome_of(fields)?)),
        OwnKind::Redeemed => Some(Note::Redeemed(name, outcome_of(fields)?)),
        OwnKind::Detached => last(Some(Note::Detached(name)), fields),
    }
}

/// The words behind the name, in a note that its receiver writes.
#[tactic(auto, unfolding(crate::specs::NoteWords::received_rest))]
fn received_rest(kind: ReceivedKind, name: JobId, fields: &mut Words<'_>) -> Option<Note<u64>>
    ensures { result ≡ spec.received_rest kind name fields.old }
{
    match kind {
        ReceivedKind::Took => {
            let queue = queue_of(fields.next_word());
            Some(Note::Took(name, last(queue, fields)?))
        }
        ReceivedKind::Back => {
            let reason = back_reason_of(fields.next_word());
            Some(Note::Back(name, last(reason, fields)?))
        }
        ReceivedKind::Answered => Some(Note::Answered(name, answer_of(fields)?)),
        ReceivedKind::Woken => last(Some(Note::Woken(name)), fields),
        ReceivedKind::Start => last(Some(Note::Start(name)), fields),
        ReceivedKind::Resume => last(Some(Note::Resume(name)), fields),
        ReceivedKind::Yield => {
            let time = count_of(fields.next_word());
            Some(Note::Yield(name, last(time, fields)?))
        }
        ReceivedKind::Park => {
            let time = count_of(fields.next_word());
            Some(Note::Park(name, last(time, fields)?))
        }
        ReceivedKind::Stayed => {
            let time = count_of(fields.next_word());
            Some(Note::Stayed(name, last(time, fields)?))
        }
        ReceivedKind::Done => done_phrase(name, fields),
        ReceivedKind::Returned => {
            let reason = return_reason_of(fields.next_word());
            Some(Note::Returned(name, last(reason, fields)?))
        }
    }
}

/// `t = v`
#[tactic(auto, unfolding(crate::specs::NoteWords::done_phrase))]
fn done_phrase(name: JobId, fields: &mut Words<'_>) -> Option<Note<u64>>
    ensures { result ≡ spec.done_phrase name fields.old }
{
    let time = count_of(fields.next_word())?;
    if !is_word(fields.next_word(), "=") {
        return None;
    }
    let value = count_of(fields.next_word());
    Some(Note::Done(name, time, last(value, fields)?))
}

/// The words behind the first, in a note of a core that names no submission.
#[tactic(auto, unfolding(crate::specs::NoteWords::core_rest))]
fn core_rest(kind: CoreKind, cores: u8, burst: u8, fields: &mut Words<'_>) -> Option<Note<u64>>
    ensures { result ≡ spec.core_rest kind cores burst fields.old }
{
    match kind {
        CoreKind::Created => {
            let (queue, weight) = shares_phrase(fields)?;
            Some(Note::Created(queue, weight))
        }
        CoreKind::SharesSet => {
            let (queue, weight) = shares_phrase(fields)?;
            Some(Note::SharesSet(queue, weight))
        }
        CoreKind::QueueClosed => {
            let (queue, mode) = mode_phrase(fields)?;
            Some(Note::QueueClosed(queue, mode))
        }
        CoreKind::CoreClosed => {
            let mode = mode_of(fields.next_word());
            Some(Note::CoreClosed(last(mode, fields)?))
        }
        CoreKind::Pick => pick_phrase(fields),
        CoreKind::Turned => {
            if burst > 1 {
                turned_phrase(fields)
            } else {
                None
            }
        }
        CoreKind::Shut => shut_phrase(cores, fields),
    }
}

/// `qQ at VR`
#[tactic(auto, unfolding(crate::specs::NoteWords::pick_phrase))]
fn pick_phrase(fields: &mut Words<'_>) -> Option<Note<u64>>
    ensures { result ≡ spec.pick_phrase fields.old }
{
    let queue = queue_of(fields.next_word())?;
    if !is_word(fields.next_word(), "at") {
        return None;
    }
    let runtime = runtime_of(fields.next_word());
    Some(Note::Pick(queue, last(runtime, fields)?))
}

/// `qQ T`
#[tactic(auto, unfolding(crate::specs::NoteWords::turned_phrase))]
fn turned_phrase(fields: &mut Words<'_>) -> Option<Note<u64>>
    ensures { result ≡ spec.turned_phrase fields.old }
{
    let queue = queue_of(fields.next_word())?;
    let time = number_in(fields.next_word(), 1, LONGEST_TURN);
    Some(Note::Turned(queue, last(time, fields)?))
}

/// `s COUNT`
#[tactic(auto, unfolding(crate::specs::NoteWords::shut_phrase))]
fn shut_phrase(cores: u8, fields: &mut Words<'_>) -> Option<Note<u64>>
    ensures { result ≡ spec.shut_phrase cores fields.old }
{
    let sender = number_in(fields.next_word(), 0, u64::from(cores))?;
    let count = number_in(fields.next_word(), 0, LAST_NUMBER);
    Some(Note::Shut(ActorNo(sender as u8), last(count, fields)?))
}
