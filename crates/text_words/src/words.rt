//! The words of a line.

ghost use Rattle.std.specs.Prelude.{◌≡◌, ◌≤◌, ◌==◌, ℕ, length, Option, Some, None, if◌then◌else◌, IsTrue, ◌↔◌, []};
ghost use Rattle.std.specs.List.{position_or_len, before_first, after_first};
ghost use Rattle.text_words.specs.Words as spec;

use std::marker::Model;

/// What stands between two words.
const SPACE: u8 = b' ';

/// The words of a line that aren't read yet. A contract sees the list of them.
///
/// Two spaces in a row have an empty word between them, and a line that ends in a space has one at its end.
#[derive(Drop)]
pub struct Words<'a> {
    rest: Option<&'a [u8]>,
}

impl<'a> Model for Words<'a> {
    ghost use Rattle.std.specs.Prelude.{ℕ, List, [], unwrap_or};
    ghost use Rattle.std.specs.Option.{option_map};
    ghost use Rattle.text_words.specs.Words.{words};

    ghost Value = { List (List ℕ) };

    ghost view = { λ w. unwrap_or (option_map (λ line. words line.now) w.rest) [] };
}

impl<'a> Words<'a> {
    /// The words of the line.
    pub fn of(line: &'a [u8]) -> Self
        ensures { result ≡ spec.words line.now }
    {
        Words { rest: Some(line) }
    }

    /// The next word, which is empty where none is left.
    pub fn next_word(&mut self) -> &'a [u8]
        ensures word { result.now ≡ spec.first self.old }
        ensures others { self.new ≡ spec.others self.old }
    {
        match self.next() {
            None => b"",
            Some(word) => word,
        }
    }
}

impl<'a> Words<'a> {
    /// Whether no word is left.
    pub fn is_over(&self) -> bool
        ensures { IsTrue result ↔ (self.now ≡ []) }
    {
        self.rest.is_none()
    }
}

/// How many words the line has, or None where one of them is empty.
pub fn word_count(line: &[u8]) -> Option<usize>
    ensures { result ≡ spec.word_count (spec.words line.now) }
{
    let mut count = 0;
    for word in Words::of(line) {
        if word.is_empty() {
            return None;
        }
        count += 1;
    }
    Some(count)
}

impl<'a> Iterator for Words<'a> {
    ghost use Rattle.std.specs.Iterator.{YieldsFirstBy, item_count};

    type Item = &'a [u8];

    ghost next_gives = { YieldsFirstBy (λ word. word.now) (λ words. words) };

    ghost remaining = { item_count (λ words. words) };

    fn next(&mut self) -> Option<&'a [u8]> {
        let rest = self.rest?;
        let end = first_place(rest, SPACE);
        if end < rest.len() {
            self.rest = Some(&rest[end + 1..]);
            Some(&rest[..end])
        } else {
            self.rest = None;
            Some(rest)
        }
    }
}

/// The place of the first such byte, or the length where there is none.
pub fn first_place(bytes: &[u8], wanted: u8) -> usize
    ensures value { result ≡ position_or_len (λ byte. byte == wanted) bytes.now }
    ensures within { result ≤ length bytes.now }
{
    match bytes.iter().position(|byte| *byte == wanted) {
        Some(place) => place,
        None => bytes.len(),
    }
}

/// What stands before the first such byte, and what stands behind it: nothing if there is none.
pub fn cut_at(bytes: &[u8], sign: u8) -> (&[u8], &[u8])
    ensures before { result.0.now ≡ before_first (λ byte. byte == sign) bytes.now }
    ensures after { result.1.now ≡ after_first (λ byte. byte == sign) bytes.now }
{
    let end = first_place(bytes, sign);
    if end < bytes.len() {
        (&bytes[..end], &bytes[end + 1..])
    } else {
        (bytes, b"")
    }
}
