//! Numbers as words spell them.

ghost use Rattle.std.specs.Prelude.{◌≡◌, ◌≤◌, ◌^◌, ◌-◌, min, IsTrue, Some, IfSome};
ghost use Rattle.std.specs.Option.{option_map};
ghost use Rattle.std.specs.Str.{all_ascii_digits};
ghost use Rattle.text_words.specs.Numbers as spec;

use crate::fault::Cause;

/// What a number above all ranges counts as.
const ABOVE_ALL: u128 = 1 << 64;

/// The number that the word spells, if it is from `least` to `most`.
pub fn number_within(word: &[u8], least: u64, most: u64) -> Result<u64, Cause>
    ensures { result ≡ spec.within least most (spec.number_of word.now) }
{
    match capped_number(word) {
        None => Err(Cause::BadWord),
        Some(number) => {
            if number < u128::from(least) || number > u128::from(most) {
                Err(Cause::OutOfRange)
            } else {
                Ok(number as u64)
            }
        }
    }
}

/// The number that the word spells, if it is from `least` to `most`; nothing otherwise.
pub fn number_between(word: &[u8], least: u64, most: u64) -> Option<u64>
    ensures value { result ≡ spec.kept_in least most (spec.number_of word.now) }
    ensures least { IfSome result (λ number. least ≤ number) }
    ensures most { IfSome result (λ number. number ≤ most) }
{
    let number = capped_number(word)?;
    if number < u128::from(least) || number > u128::from(most) {
        None
    } else {
        Some(number as u64)
    }
}

/// The number that the word spells, if it is below 2^128; nothing otherwise.
pub fn wide_number(word: &[u8]) -> Option<u128>
    ensures { result ≡ spec.kept_in 0 (2 ^ 128 - 1) (spec.number_of word.now) }
{
    if is_number(word) {
        wide_value(word)
    } else {
        None
    }
}

/// What the digits write, if it is below 2^128.
fn wide_value(digits: &[u8]) -> Option<u128>
    requires { IsTrue (spec.is_number digits.now) }
    ensures { result ≡ spec.kept_in 0 (2 ^ 128 - 1) (Some (spec.value_of digits.now)) }
{
    let mut value = 0u128;
    for digit in digits {
        let unit = digit.wrapping_sub(b'0');
        let tens = value.checked_mul(10)?;
        value = tens.checked_add(u128::from(unit))?;
    }
    Some(value)
}

/// The number that the word spells. All numbers of 2^64 and more come as 2^64.
fn capped_number(word: &[u8]) -> Option<u128>
    ensures { result ≡ option_map (λ n. min n (2 ^ 64)) (spec.number_of word.now) }
{
    if is_number(word) {
        Some(capped_value(word))
    } else {
        None
    }
}

/// Whether the word spells a number.
fn is_number(word: &[u8]) -> bool
    ensures { result ≡ spec.is_number word.now }
{
    if word.is_empty() {
        return false;
    }
    if word.len() > 1 && word[0] == b'0' {
        return false;
    }
    all_digits(word)
}

/// Whether each byte is a decimal digit.
fn all_digits(word: &[u8]) -> bool
    ensures { result ≡ all_ascii_digits word.now }
{
    word.iter().all(|byte| byte.is_ascii_digit())
}

/// What the digits write, or 2^64 where that is more.
fn capped_value(digits: &[u8]) -> u128
    requires { IsTrue (spec.is_number digits.now) }
    ensures { result ≡ min (spec.value_of digits.now) (2 ^ 64) }
{
    let mut value = 0u128;
    for digit in digits {
        let unit = digit.wrapping_sub(b'0');
        value = (value * 10 + u128::from(unit)).min(ABOVE_ALL);
    }
    value
}
