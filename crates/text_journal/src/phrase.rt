//! What the last words of a note say together.

ghost use Rattle.std.specs.Prelude.{◌≡◌};
ghost use Rattle.text_journal.specs.Phrases as spec;

use crate::field::{count_of, mode_of, queue_of, reason_of, target_of, weight_of};
use base_words::{Answer, Mode, Order, OutcomeNote, QueueNo, Shares};
use text_words::Words;
use text_words::field::is_word;

/// What was read, if no word is left.
pub fn last<T: Drop>(value: Option<T>, fields: &Words<'_>) -> Option<T>
    ensures { result ≡ spec.last value fields.now }
{
    if fields.is_over() { value } else { None }
}

/// `qQ w`
#[tactic(auto, unfolding(crate::specs::Phrases::shares_phrase))]
pub(crate) fn shares_phrase(fields: &mut Words<'_>) -> Option<(QueueNo, Shares)>
    ensures { result ≡ spec.shares_phrase fields.old }
{
    let queue = queue_of(fields.next_word())?;
    let weight = weight_of(fields.next_word());
    let weight = last(weight, fields)?;
    Some((queue, weight))
}

/// `qQ MODE`
#[tactic(auto, unfolding(crate::specs::Phrases::mode_phrase))]
pub(crate) fn mode_phrase(fields: &mut Words<'_>) -> Option<(QueueNo, Mode)>
    ensures { result ≡ spec.mode_phrase fields.old }
{
    let queue = queue_of(fields.next_word())?;
    let mode = mode_of(fields.next_word());
    let mode = last(mode, fields)?;
    Some((queue, mode))
}

/// ORDER
#[tactic(auto, unfolding(crate::specs::Phrases::order_of))]
pub(crate) fn order_of(fields: &mut Words<'_>) -> Option<Order<()>>
    ensures { result ≡ spec.order_of fields.old }
{
    let word = fields.next_word();
    if is_word(word, "job") {
        let queue = queue_of(fields.next_word());
        return Some(Order::Job(last(queue, fields)?, ()));
    }
    if is_word(word, "create") {
        let weight = weight_of(fields.next_word());
        return Some(Order::Create(last(weight, fields)?));
    }
    if is_word(word, "shares") {
        let (queue, weight) = shares_phrase(fields)?;
        return Some(Order::SetShares(queue, weight));
    }
    if is_word(word, "wake") {
        let target = target_of(fields.next_word());
        let (actor, number) = last(target, fields)?;
        return Some(Order::Wake(actor, number));
    }
    closing_of(word, fields)
}

/// An order that closes a queue or the core, after its first word.
#[tactic(auto, unfolding(crate::specs::Phrases::closing_of))]
fn closing_of(word: &[u8], fields: &mut Words<'_>) -> Option<Order<()>>
    ensures { result ≡ spec.closing_of word.now fields.old }
{
    if is_word(word, "close") {
        let (queue, mode) = mode_phrase(fields)?;
        return Some(Order::Close(queue, mode));
    }
    if is_word(word, "closecore") {
        let mode = mode_of(fields.next_word());
        return Some(Order::CloseCore(last(mode, fields)?));
    }
    None
}

/// An answer that names no queue.
#[tactic(auto, unfolding(crate::specs::Phrases::plain_answer_of))]
fn plain_answer_of(word: &[u8]) -> Option<Answer>
    ensures { result ≡ spec.plain_answer_of word.now }
{
    if is_word(word, "toomany") {
        return Some(Answer::TooMany);
    }
    if is_word(word, "nomemory") {
        return Some(Answer::NoMemory);
    }
    if is_word(word, "closing") {
        return Some(Answer::CoreClosing);
    }
    if is_word(word, "sharesset") {
        return Some(Answer::SharesSet);
    }
    if is_word(word, "noqueue") {
        return Some(Answer::NoQueue);
    }
    if is_word(word, "closed") {
        return Some(Answer::Closed);
    }
    if is_word(word, "alreadyclosed") {
        return Some(Answer::AlreadyClosed);
    }
    if is_word(word, "woken") {
        return Some(Answer::Woken);
    }
    if is_word(word, "nojob") {
        return Some(Answer::NoJob);
    }
    None
}

/// ANSWER
#[tactic(auto, unfolding(crate::specs::Phrases::answer_of))]
pub(crate) fn answer_of(fields: &mut Words<'_>) -> Option<Answer>
    ensures { result ≡ spec.answer_of fields.old }
{
    let word = fields.next_word();
    if is_word(word, "created") {
        let queue = queue_of(fields.next_word());
        return Some(Answer::Created(last(queue, fields)?));
    }
    last(plain_answer_of(word), fields)
}

/// OUTCOME
#[tactic(auto, unfolding(crate::specs::Phrases::outcome_of))]
pub(crate) fn outcome_of(fields: &mut Words<'_>) -> Option<OutcomeNote<u64>>
    ensures { result ≡ spec.outcome_of fields.old }
{
    let word = fields.next_word();
    if is_word(word, "finished") {
        let out = count_of(fields.next_word());
        return Some(OutcomeNote::Finished(last(out, fields)?));
    }
    if is_word(word, "returned") {
        let reason = reason_of(fields.next_word());
        return Some(OutcomeNote::Returned(last(reason, fields)?));
    }
    if is_word(word, "answered") {
        return Some(OutcomeNote::Answered(answer_of(fields)?));
    }
    None
}
