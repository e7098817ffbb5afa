//! What the words of a line say, each by itself.

ghost use Rattle.std.specs.Prelude.{◌≡◌, ◌≤◌};
ghost use Rattle.std.specs.Str.{bytes_eq};
ghost use Rattle.text_words.specs.Fields as spec;

use crate::fault::Cause;
use crate::number::number_within;
use base_words::{ActorNo, CoreNo, LAST_NUMBER, Mode, QueueNo, Shares};

/// Both, or what is wrong with them: a bad word where there is one, and else the first cause.
#[tactic(auto, unfolding(crate::specs::Fields::worse))]
pub fn both<A: Drop, B: Drop>(a: Result<A, Cause>, b: Result<B, Cause>) -> Result<(A, B), Cause>
    ensures { result ≡ spec.both a b }
{
    match (a, b) {
        (Ok(a), Ok(b)) => Ok((a, b)),
        (Ok(_), Err(cause)) => Err(cause),
        (Err(cause), Ok(_)) => Err(cause),
        (Err(_), Err(Cause::BadWord)) => Err(Cause::BadWord),
        (Err(cause), Err(_)) => Err(cause),
    }
}

/// A core of so many.
pub fn core_field(word: &[u8], cores: u8) -> Result<CoreNo, Cause>
    requires { 1 ≤ cores }
    ensures { result ≡ spec.core_field cores word.now }
{
    let number = number_within(word, 0, u64::from(cores - 1))?;
    Ok(CoreNo(number as u8))
}

/// A core of so many, or the outside actor.
pub fn actor_field(word: &[u8], cores: u8) -> Result<ActorNo, Cause>
    ensures { result ≡ spec.actor_field cores word.now }
{
    let number = number_within(word, 0, u64::from(cores))?;
    Ok(ActorNo(number as u8))
}

/// The number of a queue, which need not exist.
pub fn queue_field(word: &[u8]) -> Result<QueueNo, Cause>
    ensures { result ≡ spec.queue_field word.now }
{
    let number = number_within(word, 0, 255)?;
    Ok(QueueNo(number as u8))
}

/// Shares of a queue.
pub fn shares_field(word: &[u8]) -> Result<Shares, Cause>
    ensures { result ≡ spec.shares_field word.now }
{
    let number = number_within(word, 1, 10000)?;
    match Shares::try_new(number as u32) {
        Ok(shares) => Ok(shares),
        Err(_) => Err(Cause::OutOfRange),
    }
}

/// Whether the word is this one.
pub fn is_word(word: &[u8], text: &str) -> bool
    ensures { result ≡ bytes_eq word.now text.now }
{
    word == text.as_bytes()
}

/// A word that stands there as it is.
pub fn fixed_field(word: &[u8], text: &str) -> Result<(), Cause>
    ensures { result ≡ spec.fixed_field text.now word.now }
{
    if is_word(word, text) {
        Ok(())
    } else {
        Err(Cause::BadWord)
    }
}

/// A time in nanoseconds, or an answer.
pub fn count_field(word: &[u8]) -> Result<u64, Cause>
    ensures { result ≡ spec.count_field word.now }
{
    number_within(word, 0, u64::MAX)
}

/// The number of a submission on its link.
pub fn submission_field(word: &[u8]) -> Result<u64, Cause>
    ensures { result ≡ spec.submission_field word.now }
{
    number_within(word, 1, LAST_NUMBER)
}

/// How a queue or a core is closed.
pub fn mode_field(word: &[u8]) -> Result<Mode, Cause>
    ensures { result ≡ spec.mode_field word.now }
{
    if is_word(word, "finish") {
        return Ok(Mode::Finish);
    }
    if is_word(word, "return") {
        return Ok(Mode::Return);
    }
    Err(Cause::BadWord)
}
