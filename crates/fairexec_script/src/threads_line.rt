//! Which lines a script for threads has.

ghost use Rattle.std.specs.Prelude.{◌≡◌, ◌≤◌};
ghost use Rattle.text_words.specs.Words.{words, first, others, word_count};
ghost use Rattle.fairexec_script.specs.declared.keyword.Keyword.TheVariants.{Submit};
ghost use Rattle.fairexec_script.specs.Keywords.{keyword_of, takes};
ghost use Rattle.fairexec_script.specs.Lines.{counts};
ghost use Rattle.fairexec_script.specs.ThreadsLines as spec;

use crate::fault::ThreadsCause;
use crate::keyword::{Keyword, keyword_of};
use crate::line::{Line, first_line, later_line};
use text_words::number::number_within;
use text_words::words::word_count as count_words;
use text_words::{Cause, Words};

/// The first line that isn't skipped.
pub(crate) fn size_told(line: &[u8]) -> Result<Line, ThreadsCause>
    ensures { result ≡ spec.size_told (words line.now) }
{
    match first_line(line) {
        Ok(line) => Ok(line),
        Err(cause) => Err(ThreadsCause::Line(cause)),
    }
}

/// A line after it. `late` says that a line other than a `queue` line came before.
pub(crate) fn line_told(line: &[u8], cores: u8, late: bool) -> Result<Line, ThreadsCause>
    requires { 1 ≤ cores }
    ensures { result ≡ spec.line_told cores late (words line.now) }
{
    if is_barred(line, cores) {
        return Err(ThreadsCause::NotForThreads);
    }
    if parks(line) {
        return Err(ThreadsCause::Line(Cause::BadWord));
    }
    match later_line(line, cores, late) {
        Ok(line) => Ok(line),
        Err(cause) => Err(ThreadsCause::Line(cause)),
    }
}

/// Whether only other scripts have such a line.
fn is_barred(line: &[u8], cores: u8) -> bool
    ensures { result ≡ spec.is_barred (keyword_of (first (words line.now))) cores (others (words line.now)) }
{
    let mut fields = Words::of(line);
    match keyword_of(fields.next_word()) {
        None => false,
        Some(keyword) => bars(keyword, cores, &mut fields),
    }
}

/// Whether the line submits a job, with as many words as such lines have, and one of them begins as a poll that parks.
///
/// Nobody would wake the job. A number that begins so is a bad word in any script.
fn parks(line: &[u8]) -> bool
    ensures { result ≡ spec.parks (keyword_of (first (words line.now))) (words line.now) }
{
    let mut fields = Words::of(line);
    match keyword_of(fields.next_word()) {
        Some(Keyword::Submit) => is_submission(line) && has_park(line),
        _ => false,
    }
}

/// Whether the line has as many words as one that submits a job, and none of them is empty.
fn is_submission(line: &[u8]) -> bool
    ensures { result ≡ counts (takes Submit) (word_count (words line.now)) }
{
    match count_words(line) {
        None => false,
        Some(count) => Keyword::Submit.takes(count),
    }
}

/// Whether one of the words of the line begins as a poll that parks.
fn has_park(line: &[u8]) -> bool
    ensures { result ≡ spec.has_park (words line.now) }
{
    for word in Words::of(line) {
        if is_park(word) {
            return true;
        }
    }
    false
}

/// Whether the word begins as a poll that parks.
fn is_park(word: &[u8]) -> bool
    ensures { result ≡ spec.is_park word.now }
{
    match word {
        [] => false,
        [first, ..] => *first == b'k',
    }
}

/// Whether a line with this first word and those behind it is only in other scripts.
fn bars(keyword: Keyword, cores: u8, fields: &mut Words<'_>) -> bool
    ensures { result ≡ spec.bars keyword cores fields.old }
{
    match keyword {
        Keyword::Queue => false,
        Keyword::Submit => is_of_another(cores, fields),
        Keyword::Create => is_of_another(cores, fields),
        Keyword::Shares => is_of_another(cores, fields),
        Keyword::Close => is_of_another(cores, fields),
        _ => true,
    }
}

/// Whether there is a sender, and it isn't the outside actor.
fn is_of_another(cores: u8, fields: &mut Words<'_>) -> bool
    ensures { result ≡ spec.is_of_another cores fields.old }
{
    if fields.is_over() {
        return false;
    }
    !is_outside(cores, fields.next_word())
}

/// Whether the word is the number of the outside actor.
fn is_outside(cores: u8, word: &[u8]) -> bool
    ensures { result ≡ spec.is_outside cores word.now }
{
    number_within(word, u64::from(cores), u64::from(cores)).is_ok()
}
