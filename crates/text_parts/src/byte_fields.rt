//! Reads the fields of a note as bytes.
//!
//! Each function takes one field off the front and answers it with the bytes behind it, or `None` if no such field stands there: too few bytes,
//! a kind that there isn't, or a number out of its range. A field of several kinds begins with a byte that tells the kind.

ghost use Rattle.std.specs.Prelude.{◌≡◌, ◌∷◌};
ghost use Rattle.base_words.specs.declared.note.OutcomeNote.TheVariants as outcome;
ghost use Rattle.base_words.specs.declared.order.Answer.TheVariants as answer;
ghost use Rattle.base_words.specs.declared.order.Order.TheVariants as order;
ghost use Rattle.text_parts.specs.ByteNotes as spec;

use base_words::{
    ActorNo, Answer, CoreNo, JobId, Mode, Order, OutcomeNote, QueueNo, Reason, Shares,
};

/// A byte, and the bytes behind it.
pub(crate) fn byte_at(bytes: &[u8]) -> Option<(u8, &[u8])>
    ensures { spec.Gives (λ x. (x.0, x.1.now)) result (spec.byte_at bytes.now) }
{
    match bytes {
        [byte, rest @ ..] => Some((*byte, rest)),
        [] => None,
    }
}

/// A number of eight bytes, the low one first.
#[tactic(auto, unfolding(crate::specs::ByteNotes::wide_at))]
pub(crate) fn wide_at(bytes: &[u8]) -> Option<(u64, &[u8])>
    ensures { spec.Gives (λ x. (x.0, x.1.now)) result (spec.wide_at bytes.now) }
{
    if bytes.len() < 8 {
        return None;
    }
    let (front, rest) = bytes.split_at(8);
    let number = u64::from_le_bytes([
        front[0], front[1], front[2], front[3], front[4], front[5], front[6], front[7],
    ]);
    Some((number, rest))
}

/// A number of two bytes, the low one first.
#[tactic(auto, unfolding(crate::specs::ByteNotes::short_at))]
pub(crate) fn short_at(bytes: &[u8]) -> Option<(u16, &[u8])>
    ensures { spec.Gives (λ x. (x.0, x.1.now)) result (spec.short_at bytes.now) }
{
    if bytes.len() < 2 {
        return None;
    }
    let (front, rest) = bytes.split_at(2);
    Some((u16::from_le_bytes([front[0], front[1]]), rest))
}

/// Shares.
#[tactic(auto, unfolding(crate::specs::ByteNotes::weight_at))]
pub(crate) fn weight_at(bytes: &[u8]) -> Option<(Shares, &[u8])>
    ensures { spec.Gives (λ x. (x.0, x.1.now)) result (spec.weight_at bytes.now) }
{
    let Some((weight, rest)) = short_at(bytes) else {
        return None;
    };
    if weight < 1 {
        return None;
    }
    if weight > 10000 {
        return None;
    }
    match Shares::try_new(u32::from(weight)) {
        Ok(shares) => Some((shares, rest)),
        Err(_) => None,
    }
}

/// A virtual runtime.
#[tactic(auto, unfolding(crate::specs::ByteNotes::runtime_at))]
pub(crate) fn runtime_at(bytes: &[u8]) -> Option<(u128, &[u8])>
    ensures { spec.Gives (λ x. (x.0, x.1.now)) result (spec.runtime_at bytes.now) }
{
    let Some((low, rest)) = wide_at(bytes) else {
        return None;
    };
    let Some((high, rest)) = wide_at(rest) else {
        return None;
    };
    Some((u128::from(high) * (1 << 64) + u128::from(low), rest))
}

/// The name of a submission.
#[tactic(auto, unfolding(crate::specs::ByteNotes::name_at))]
pub(crate) fn name_at(bytes: &[u8]) -> Option<(JobId, &[u8])>
    ensures { spec.Gives (λ x. (x.0, x.1.now)) result (spec.name_at bytes.now) }
{
    let Some((from, rest)) = byte_at(bytes) else {
        return None;
    };
    let Some((to, rest)) = byte_at(rest) else {
        return None;
    };
    let Some((number, rest)) = wide_at(rest) else {
        return None;
    };
    let name = JobId {
        from: ActorNo(from),
        to: CoreNo(to),
        number,
    };
    Some((name, rest))
}

/// How a queue or a core closes.
#[tactic(auto, unfolding(crate::specs::ByteNotes::mode_at))]
pub(crate) fn mode_at(bytes: &[u8]) -> Option<(Mode, &[u8])>
    ensures { spec.Gives (λ x. (x.0, x.1.now)) result (spec.mode_at bytes.now) }
{
    match bytes {
        [0, rest @ ..] => Some((Mode::Finish, rest)),
        [1, rest @ ..] => Some((Mode::Return, rest)),
        _ => None,
    }
}

/// Why a job goes back.
#[tactic(auto, unfolding(crate::specs::ByteNotes::reason_at))]
pub(crate) fn reason_at(bytes: &[u8]) -> Option<(Reason, &[u8])>
    ensures { spec.Gives (λ x. (x.0, x.1.now)) result (spec.reason_at bytes.now) }
{
    match byte_at(bytes) {
        Some((kind, rest)) => reason_of(kind, rest),
        None => None,
    }
}

/// A reason of this kind, behind the byte that tells the kind.
fn reason_of(kind: u8, bytes: &[u8]) -> Option<(Reason, &[u8])>
    ensures { spec.Gives (λ x. (x.0, x.1.now)) result (spec.tagged spec.reasons (kind ∷ bytes.now)) }
{
    match kind {
        0 => Some((Reason::NoQueue, bytes)),
        1 => Some((Reason::QueueClosed, bytes)),
        2 => Some((Reason::CoreClosing, bytes)),
        3 => Some((Reason::QueueReturned, bytes)),
        4 => Some((Reason::CoreReturned, bytes)),
        _ => None,
    }
}

/// What a command is answered.
#[tactic(auto, unfolding(crate::specs::ByteNotes::answer_at))]
pub(crate) fn answer_at(bytes: &[u8]) -> Option<(Answer, &[u8])>
    ensures { spec.Gives (λ x. (x.0, x.1.now)) result (spec.answer_at bytes.now) }
{
    match byte_at(bytes) {
        Some((kind, rest)) => answer_of(kind, rest),
        None => None,
    }
}

/// An answer of this kind, behind the byte that tells the kind.
fn answer_of(kind: u8, bytes: &[u8]) -> Option<(Answer, &[u8])>
    ensures { spec.Gives (λ x. (x.0, x.1.now)) result (spec.tagged spec.answers (kind ∷ bytes.now)) }
{
    match kind {
        0 => created_at(bytes),
        1 => Some((Answer::TooMany, bytes)),
        2 => Some((Answer::NoMemory, bytes)),
        3 => Some((Answer::CoreClosing, bytes)),
        4 => Some((Answer::SharesSet, bytes)),
        5 => Some((Answer::NoQueue, bytes)),
        6 => Some((Answer::Closed, bytes)),
        7 => Some((Answer::AlreadyClosed, bytes)),
        8 => Some((Answer::Woken, bytes)),
        9 => Some((Answer::NoJob, bytes)),
        _ => None,
    }
}

fn created_at(bytes: &[u8]) -> Option<(Answer, &[u8])>
    ensures { spec.Gives (λ x. (x.0, x.1.now)) result (spec.one answer.Created spec.byte_at bytes.now) }
{
    let Some((queue, rest)) = byte_at(bytes) else {
        return None;
    };
    Some((Answer::Created(QueueNo(queue)), rest))
}

/// An order, without its job.
#[tactic(auto, unfolding(crate::specs::ByteNotes::order_at))]
pub(crate) fn order_at(bytes: &[u8]) -> Option<(Order<()>, &[u8])>
    ensures { spec.Gives (λ x. (x.0, x.1.now)) result (spec.order_at bytes.now) }
{
    match byte_at(bytes) {
        Some((kind, rest)) => order_of(kind, rest),
        None => None,
    }
}

/// An order of this kind, behind the byte that tells the kind.
fn order_of(kind: u8, bytes: &[u8]) -> Option<(Order<()>, &[u8])>
    ensures { spec.Gives (λ x. (x.0, x.1.now)) result (spec.tagged spec.orders (kind ∷ bytes.now)) }
{
    match kind {
        0 => job_at(bytes),
        1 => create_at(bytes),
        2 => set_shares_at(bytes),
        3 => close_at(bytes),
        4 => close_core_at(bytes),
        5 => wake_at(bytes),
        _ => None,
    }
}

fn job_at(bytes: &[u8]) -> Option<(Order<()>, &[u8])>
    ensures { spec.Gives (λ x. (x.0, x.1.now)) result (spec.one (λ queue. order.Job queue tt) spec.byte_at bytes.now) }
{
    let Some((queue, rest)) = byte_at(bytes) else {
        return None;
    };
    Some((Order::Job(QueueNo(queue), ()), rest))
}

fn create_at(bytes: &[u8]) -> Option<(Order<()>, &[u8])>
    ensures { spec.Gives (λ x. (x.0, x.1.now)) result (spec.one order.Create spec.weight_at bytes.now) }
{
    let Some((weight, rest)) = weight_at(bytes) else {
        return None;
    };
    Some((Order::Create(weight), rest))
}

fn set_shares_at(bytes: &[u8]) -> Option<(Order<()>, &[u8])>
    ensures { spec.Gives (λ x. (x.0, x.1.now)) result (spec.both order.SetShares spec.byte_at spec.weight_at bytes.now) }
{
    let Some((queue, rest)) = byte_at(bytes) else {
        return None;
    };
    let Some((weight, rest)) = weight_at(rest) else {
        return None;
    };
    Some((Order::SetShares(QueueNo(queue), weight), rest))
}

fn close_at(bytes: &[u8]) -> Option<(Order<()>, &[u8])>
    ensures { spec.Gives (λ x. (x.0, x.1.now)) result (spec.both order.Close spec.byte_at spec.mode_at bytes.now) }
{
    let Some((queue, rest)) = byte_at(bytes) else {
        return None;
    };
    let Some((mode, rest)) = mode_at(rest) else {
        return None;
    };
    Some((Order::Close(QueueNo(queue), mode), rest))
}

fn close_core_at(bytes: &[u8]) -> Option<(Order<()>, &[u8])>
    ensures { spec.Gives (λ x. (x.0, x.1.now)) result (spec.one order.CloseCore spec.mode_at bytes.now) }
{
    let Some((mode, rest)) = mode_at(bytes) else {
        return None;
    };
    Some((Order::CloseCore(mode), rest))
}

fn wake_at(bytes: &[u8]) -> Option<(Order<()>, &[u8])>
    ensures { spec.Gives (λ x. (x.0, x.1.now)) result (spec.both order.Wake spec.byte_at spec.wide_at bytes.now) }
{
    let Some((actor, rest)) = byte_at(bytes) else {
        return None;
    };
    let Some((number, rest)) = wide_at(rest) else {
        return None;
    };
    Some((Order::Wake(ActorNo(actor), number), rest))
}

/// What became of a submission.
#[tactic(auto, unfolding(crate::specs::ByteNotes::outcome_at))]
pub(crate) fn outcome_at(bytes: &[u8]) -> Option<(OutcomeNote<u64>, &[u8])>
    ensures { spec.Gives (λ x. (x.0, x.1.now)) result (spec.outcome_at bytes.now) }
{
    match byte_at(bytes) {
        Some((kind, rest)) => outcome_of(kind, rest),
        None => None,
    }
}

/// An outcome of this kind, behind the byte that tells the kind.
fn outcome_of(kind: u8, bytes: &[u8]) -> Option<(OutcomeNote<u64>, &[u8])>
    ensures { spec.Gives (λ x. (x.0, x.1.now)) result (spec.tagged spec.outcomes (kind ∷ bytes.now)) }
{
    match kind {
        0 => finished_at(bytes),
        1 => returned_at(bytes),
        2 => answered_at(bytes),
        _ => None,
    }
}

fn finished_at(bytes: &[u8]) -> Option<(OutcomeNote<u64>, &[u8])>
    ensures { spec.Gives (λ x. (x.0, x.1.now)) result (spec.one outcome.Finished spec.wide_at bytes.now) }
{
    let Some((value, rest)) = wide_at(bytes) else {
        return None;
    };
    Some((OutcomeNote::Finished(value), rest))
}

fn returned_at(bytes: &[u8]) -> Option<(OutcomeNote<u64>, &[u8])>
    ensures { spec.Gives (λ x. (x.0, x.1.now)) result (spec.one outcome.Returned spec.reason_at bytes.now) }
{
    let Some((reason, rest)) = reason_at(bytes) else {
        return None;
    };
    Some((OutcomeNote::Returned(reason), rest))
}

fn answered_at(bytes: &[u8]) -> Option<(OutcomeNote<u64>, &[u8])>
    ensures { spec.Gives (λ x. (x.0, x.1.now)) result (spec.one outcome.Answered spec.answer_at bytes.now) }
{
    let Some((answer, rest)) = answer_at(bytes) else {
        return None;
    };
    Some((OutcomeNote::Answered(answer), rest))
}
