//! What the words of a note say, each by itself.

ghost use Rattle.std.specs.Prelude.{◌≡◌, ◌≤◌, ◌==◌, IfSome};
ghost use Rattle.std.specs.List.{before_first, after_first};
ghost use Rattle.text_journal.specs.Fields as spec;

use base_words::{ActorNo, CoreNo, JobId, LAST_NUMBER, Mode, QueueNo, Reason, Shares};
use text_words::field::is_word;
use text_words::number::{number_between, wide_number};
use text_words::words::first_place;

/// A number from `least` to `most`, if the word spells one.
#[tactic(auto, unfolding(crate::specs::Fields::number_in))]
pub fn number_in(word: &[u8], least: u64, most: u64) -> Option<u64>
    ensures value { result ≡ spec.number_in least most word.now }
    ensures least { IfSome result (λ number. least ≤ number) }
    ensures most { IfSome result (λ number. number ≤ most) }
{
    number_between(word, least, most)
}

/// A time in nanoseconds, or an answer.
pub(crate) fn count_of(word: &[u8]) -> Option<u64>
    ensures { result ≡ spec.count_of word.now }
{
    number_in(word, 0, u64::MAX)
}

/// A virtual runtime.
#[tactic(auto, unfolding(crate::specs::Fields::number_in))]
pub(crate) fn runtime_of(word: &[u8]) -> Option<u128>
    ensures { result ≡ spec.runtime_of word.now }
{
    wide_number(word)
}

/// Shares of a queue.
pub(crate) fn weight_of(word: &[u8]) -> Option<Shares>
    ensures { result ≡ spec.weight_of word.now }
{
    let number = number_in(word, 1, 10000)?;
    match Shares::try_new(number as u32) {
        Ok(shares) => Some(shares),
        Err(_) => None,
    }
}

/// `qQ`
#[tactic(auto, unfolding(crate::specs::Fields::queue_of))]
pub(crate) fn queue_of(word: &[u8]) -> Option<QueueNo>
    ensures { result ≡ spec.queue_of word.now }
{
    match word {
        [b'q', digits @ ..] => Some(QueueNo(number_in(digits, 0, 255)? as u8)),
        _ => None,
    }
}

/// What stands before the first such byte, and what stands behind it.
fn cut_at(bytes: &[u8], sign: u8) -> (&[u8], &[u8])
    ensures before { result.0.now ≡ before_first (λ byte. byte == sign) bytes.now }
    ensures after { result.1.now ≡ after_first (λ byte. byte == sign) bytes.now }
{
    let end = first_place(bytes, sign);
    if end < bytes.len() {
        (&bytes[..end], &bytes[end + 1..])
    } else {
        (bytes, b"")
    }
}

/// `s>d#n`: an actor, a core and a number of their link.
#[tactic(auto, unfolding(crate::specs::Fields::name_of))]
pub(crate) fn name_of(word: &[u8], cores: u8) -> Option<JobId>
    requires { 1 ≤ cores }
    ensures { result ≡ spec.name_of cores word.now }
{
    let (from, rest) = cut_at(word, b'>');
    let (to, number) = cut_at(rest, b'#');
    let from = number_in(from, 0, u64::from(cores))?;
    let to = number_in(to, 0, u64::from(cores - 1))?;
    let number = number_in(number, 1, LAST_NUMBER)?;
    Some(JobId {
        from: ActorNo(from as u8),
        to: CoreNo(to as u8),
        number,
    })
}

/// `A#N`: an actor and a number, as a wake names its job. Whether there is such a job is not asked.
#[tactic(auto, unfolding(crate::specs::Fields::target_of))]
pub(crate) fn target_of(word: &[u8]) -> Option<(ActorNo, u64)>
    ensures { result ≡ spec.target_of word.now }
{
    let (actor, number) = cut_at(word, b'#');
    let actor = number_in(actor, 0, 255)?;
    let number = count_of(number)?;
    Some((ActorNo(actor as u8), number))
}

#[tactic(auto, unfolding(crate::specs::Fields::mode_of))]
pub(crate) fn mode_of(word: &[u8]) -> Option<Mode>
    ensures { result ≡ spec.mode_of word.now }
{
    if is_word(word, "finish") {
        return Some(Mode::Finish);
    }
    if is_word(word, "return") {
        return Some(Mode::Return);
    }
    None
}

/// Why a delivery sends a job back.
#[tactic(auto, unfolding(crate::specs::Fields::back_reason_of))]
pub(crate) fn back_reason_of(word: &[u8]) -> Option<Reason>
    ensures { result ≡ spec.back_reason_of word.now }
{
    if is_word(word, "noqueue") {
        return Some(Reason::NoQueue);
    }
    if is_word(word, "queueclosed") {
        return Some(Reason::QueueClosed);
    }
    if is_word(word, "coreclosing") {
        return Some(Reason::CoreClosing);
    }
    None
}

/// Why a pick hands a job back.
#[tactic(auto, unfolding(crate::specs::Fields::return_reason_of))]
pub(crate) fn return_reason_of(word: &[u8]) -> Option<Reason>
    ensures { result ≡ spec.return_reason_of word.now }
{
    if is_word(word, "queuereturned") {
        return Some(Reason::QueueReturned);
    }
    if is_word(word, "corereturned") {
        return Some(Reason::CoreReturned);
    }
    None
}

#[tactic(auto, unfolding(crate::specs::Fields::reason_of))]
pub(crate) fn reason_of(word: &[u8]) -> Option<Reason>
    ensures { result ≡ spec.reason_of word.now }
{
    match back_reason_of(word) {
        Some(reason) => Some(reason),
        None => return_reason_of(word),
    }
}
