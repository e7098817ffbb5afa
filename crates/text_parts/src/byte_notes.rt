//! Reads the note at the front of some bytes.
//!
//! The first byte tells the kind. Behind it stand the fields of that kind, one after another, without any length: the kind alone says how long
//! a note is.

ghost use Rattle.std.specs.Prelude.{◌≡◌, ◌∷◌};
ghost use Rattle.base_words.specs.declared.note.Note.TheVariants as note;
ghost use Rattle.text_parts.specs.ByteNotes as spec;

use crate::byte_fields::{
    answer_at, byte_at, mode_at, name_at, order_at, outcome_at, reason_at, runtime_at, weight_at,
    wide_at,
};
use base_words::{ActorNo, Note, QueueNo};

/// The note at the front, and the bytes behind it.
#[tactic(auto, unfolding(crate::specs::ByteNotes::note_at))]
pub fn note_at(bytes: &[u8]) -> Option<(Note<u64>, &[u8])>
    ensures { spec.Gives (λ x. (x.0, x.1.now)) result (spec.note_at bytes.now) }
{
    match byte_at(bytes) {
        Some((kind, rest)) => kind_at(kind, rest),
        None => None,
    }
}

/// A note of this kind, behind the byte that tells the kind.
fn kind_at(kind: u8, bytes: &[u8]) -> Option<(Note<u64>, &[u8])>
    ensures { spec.Gives (λ x. (x.0, x.1.now)) result (spec.tagged spec.notes (kind ∷ bytes.now)) }
{
    match kind {
        0 => sent_at(bytes),
        1 => took_at(bytes),
        2 => back_at(bytes),
        3 => answered_at(bytes),
        4 => created_at(bytes),
        5 => shares_set_at(bytes),
        6 => queue_closed_at(bytes),
        7 => core_closed_at(bytes),
        8 => woken_at(bytes),
        9 => pick_at(bytes),
        10 => start_at(bytes),
        11 => resume_at(bytes),
        12 => yield_at(bytes),
        13 => park_at(bytes),
        14 => stayed_at(bytes),
        15 => done_at(bytes),
        16 => returned_at(bytes),
        17 => turned_at(bytes),
        18 => shut_at(bytes),
        19 => collected_at(bytes),
        20 => redeemed_at(bytes),
        21 => detached_at(bytes),
        _ => None,
    }
}

fn sent_at(bytes: &[u8]) -> Option<(Note<u64>, &[u8])>
    ensures { spec.Gives (λ x. (x.0, x.1.now)) result (spec.both note.Sent spec.name_at spec.order_at bytes.now) }
{
    let Some((name, rest)) = name_at(bytes) else {
        return None;
    };
    let Some((order, rest)) = order_at(rest) else {
        return None;
    };
    Some((Note::Sent(name, order), rest))
}

fn took_at(bytes: &[u8]) -> Option<(Note<u64>, &[u8])>
    ensures { spec.Gives (λ x. (x.0, x.1.now)) result (spec.both note.Took spec.name_at spec.byte_at bytes.now) }
{
    let Some((name, rest)) = name_at(bytes) else {
        return None;
    };
    let Some((queue, rest)) = byte_at(rest) else {
        return None;
    };
    Some((Note::Took(name, QueueNo(queue)), rest))
}

fn back_at(bytes: &[u8]) -> Option<(Note<u64>, &[u8])>
    ensures { spec.Gives (λ x. (x.0, x.1.now)) result (spec.both note.Back spec.name_at spec.reason_at bytes.now) }
{
    let Some((name, rest)) = name_at(bytes) else {
        return None;
    };
    let Some((reason, rest)) = reason_at(rest) else {
        return None;
    };
    Some((Note::Back(name, reason), rest))
}

fn answered_at(bytes: &[u8]) -> Option<(Note<u64>, &[u8])>
    ensures { spec.Gives (λ x. (x.0, x.1.now)) result (spec.both note.Answered spec.name_at spec.answer_at bytes.now) }
{
    let Some((name, rest)) = name_at(bytes) else {
        return None;
    };
    let Some((answer, rest)) = answer_at(rest) else {
        return None;
    };
    Some((Note::Answered(name, answer), rest))
}

fn created_at(bytes: &[u8]) -> Option<(Note<u64>, &[u8])>
    ensures { spec.Gives (λ x. (x.0, x.1.now)) result (spec.both note.Created spec.byte_at spec.weight_at bytes.now) }
{
    let Some((queue, rest)) = byte_at(bytes) else {
        return None;
    };
    let Some((weight, rest)) = weight_at(rest) else {
        return None;
    };
    Some((Note::Created(QueueNo(queue), weight), rest))
}

fn shares_set_at(bytes: &[u8]) -> Option<(Note<u64>, &[u8])>
    ensures { spec.Gives (λ x. (x.0, x.1.now)) result (spec.both note.SharesSet spec.byte_at spec.weight_at bytes.now) }
{
    let Some((queue, rest)) = byte_at(bytes) else {
        return None;
    };
    let Some((weight, rest)) = weight_at(rest) else {
        return None;
    };
    Some((Note::SharesSet(QueueNo(queue), weight), rest))
}

fn queue_closed_at(bytes: &[u8]) -> Option<(Note<u64>, &[u8])>
    ensures { spec.Gives (λ x. (x.0, x.1.now)) result (spec.both note.QueueClosed spec.byte_at spec.mode_at bytes.now) }
{
    let Some((queue, rest)) = byte_at(bytes) else {
        return None;
    };
    let Some((mode, rest)) = mode_at(rest) else {
        return None;
    };
    Some((Note::QueueClosed(QueueNo(queue), mode), rest))
}

fn core_closed_at(bytes: &[u8]) -> Option<(Note<u64>, &[u8])>
    ensures { spec.Gives (λ x. (x.0, x.1.now)) result (spec.one note.CoreClosed spec.mode_at bytes.now) }
{
    let Some((mode, rest)) = mode_at(bytes) else {
        return None;
    };
    Some((Note::CoreClosed(mode), rest))
}

fn woken_at(bytes: &[u8]) -> Option<(Note<u64>, &[u8])>
    ensures { spec.Gives (λ x. (x.0, x.1.now)) result (spec.one note.Woken spec.name_at bytes.now) }
{
    let Some((name, rest)) = name_at(bytes) else {
        return None;
    };
    Some((Note::Woken(name), rest))
}

fn pick_at(bytes: &[u8]) -> Option<(Note<u64>, &[u8])>
    ensures { spec.Gives (λ x. (x.0, x.1.now)) result (spec.both note.Pick spec.byte_at spec.runtime_at bytes.now) }
{
    let Some((queue, rest)) = byte_at(bytes) else {
        return None;
    };
    let Some((runtime, rest)) = runtime_at(rest) else {
        return None;
    };
    Some((Note::Pick(QueueNo(queue), runtime), rest))
}

fn start_at(bytes: &[u8]) -> Option<(Note<u64>, &[u8])>
    ensures { spec.Gives (λ x. (x.0, x.1.now)) result (spec.one note.Start spec.name_at bytes.now) }
{
    let Some((name, rest)) = name_at(bytes) else {
        return None;
    };
    Some((Note::Start(name), rest))
}

fn resume_at(bytes: &[u8]) -> Option<(Note<u64>, &[u8])>
    ensures { spec.Gives (λ x. (x.0, x.1.now)) result (spec.one note.Resume spec.name_at bytes.now) }
{
    let Some((name, rest)) = name_at(bytes) else {
        return None;
    };
    Some((Note::Resume(name), rest))
}

fn yield_at(bytes: &[u8]) -> Option<(Note<u64>, &[u8])>
    ensures { spec.Gives (λ x. (x.0, x.1.now)) result (spec.both note.Yield spec.name_at spec.wide_at bytes.now) }
{
    let Some((name, rest)) = name_at(bytes) else {
        return None;
    };
    let Some((time, rest)) = wide_at(rest) else {
        return None;
    };
    Some((Note::Yield(name, time), rest))
}

fn park_at(bytes: &[u8]) -> Option<(Note<u64>, &[u8])>
    ensures { spec.Gives (λ x. (x.0, x.1.now)) result (spec.both note.Park spec.name_at spec.wide_at bytes.now) }
{
    let Some((name, rest)) = name_at(bytes) else {
        return None;
    };
    let Some((time, rest)) = wide_at(rest) else {
        return None;
    };
    Some((Note::Park(name, time), rest))
}

fn stayed_at(bytes: &[u8]) -> Option<(Note<u64>, &[u8])>
    ensures { spec.Gives (λ x. (x.0, x.1.now)) result (spec.both note.Stayed spec.name_at spec.wide_at bytes.now) }
{
    let Some((name, rest)) = name_at(bytes) else {
        return None;
    };
    let Some((time, rest)) = wide_at(rest) else {
        return None;
    };
    Some((Note::Stayed(name, time), rest))
}

fn done_at(bytes: &[u8]) -> Option<(Note<u64>, &[u8])>
    ensures { spec.Gives (λ x. (x.0, x.1.now)) result (spec.both (λ name told. note.Done name told.0 told.1) spec.name_at (spec.both spec.pair spec.wide_at spec.wide_at) bytes.now) }
{
    let Some((name, rest)) = name_at(bytes) else {
        return None;
    };
    let Some((time, rest)) = wide_at(rest) else {
        return None;
    };
    let Some((value, rest)) = wide_at(rest) else {
        return None;
    };
    Some((Note::Done(name, time, value), rest))
}

fn returned_at(bytes: &[u8]) -> Option<(Note<u64>, &[u8])>
    ensures { spec.Gives (λ x. (x.0, x.1.now)) result (spec.both note.Returned spec.name_at spec.reason_at bytes.now) }
{
    let Some((name, rest)) = name_at(bytes) else {
        return None;
    };
    let Some((reason, rest)) = reason_at(rest) else {
        return None;
    };
    Some((Note::Returned(name, reason), rest))
}

fn turned_at(bytes: &[u8]) -> Option<(Note<u64>, &[u8])>
    ensures { spec.Gives (λ x. (x.0, x.1.now)) result (spec.both note.Turned spec.byte_at spec.wide_at bytes.now) }
{
    let Some((queue, rest)) = byte_at(bytes) else {
        return None;
    };
    let Some((time, rest)) = wide_at(rest) else {
        return None;
    };
    Some((Note::Turned(QueueNo(queue), time), rest))
}

fn shut_at(bytes: &[u8]) -> Option<(Note<u64>, &[u8])>
    ensures { spec.Gives (λ x. (x.0, x.1.now)) result (spec.both note.Shut spec.byte_at spec.wide_at bytes.now) }
{
    let Some((sender, rest)) = byte_at(bytes) else {
        return None;
    };
    let Some((count, rest)) = wide_at(rest) else {
        return None;
    };
    Some((Note::Shut(ActorNo(sender), count), rest))
}

fn collected_at(bytes: &[u8]) -> Option<(Note<u64>, &[u8])>
    ensures { spec.Gives (λ x. (x.0, x.1.now)) result (spec.both note.Collected spec.name_at spec.outcome_at bytes.now) }
{
    let Some((name, rest)) = name_at(bytes) else {
        return None;
    };
    let Some((outcome, rest)) = outcome_at(rest) else {
        return None;
    };
    Some((Note::Collected(name, outcome), rest))
}

fn redeemed_at(bytes: &[u8]) -> Option<(Note<u64>, &[u8])>
    ensures { spec.Gives (λ x. (x.0, x.1.now)) result (spec.both note.Redeemed spec.name_at spec.outcome_at bytes.now) }
{
    let Some((name, rest)) = name_at(bytes) else {
        return None;
    };
    let Some((outcome, rest)) = outcome_at(rest) else {
        return None;
    };
    Some((Note::Redeemed(name, outcome), rest))
}

fn detached_at(bytes: &[u8]) -> Option<(Note<u64>, &[u8])>
    ensures { spec.Gives (λ x. (x.0, x.1.now)) result (spec.one note.Detached spec.name_at bytes.now) }
{
    let Some((name, rest)) = name_at(bytes) else {
        return None;
    };
    Some((Note::Detached(name), rest))
}
