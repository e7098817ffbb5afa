//! What one line of a script says.

ghost use Rattle.std.specs.Prelude.{◌≡◌, ◌≤◌, ◌+◌, length, IsTrue};
ghost use Rattle.text_words.specs.Words.{words, others};
ghost use Rattle.base_words.specs.Limits.{most_burst, most_capacity, most_cores};
ghost use Rattle.fairexec_script.specs.Keywords.{takes};
ghost use Rattle.text_words.specs.Numbers.{within, number_of};
ghost use Rattle.fairexec_script.specs.Lines as spec;

use crate::event::ScriptEvent;
use crate::event_line as event;
use crate::keyword::{Keyword, keyword_of};
use base_words::{CoreNo, MOST_BURST, MOST_CAPACITY, MOST_CORES, Shares};
use text_words::Cause;
use text_words::field::{both, core_field, fixed_field, is_word, shares_field};
use text_words::number::number_within;
use text_words::words::{Words, word_count as count_words};

/// What a line of a script says, well spelled and within its ranges.
#[derive(Drop)]
pub enum Line {
    /// `cores C cap K` or `cores C cap K burst B`. Without a burst it is 1.
    Size(u8, u16, u8),
    /// `queue d w`
    Queue(CoreNo, Shares),
    /// Any other line: one event.
    Step(ScriptEvent),
}

/// The first line that isn't skipped. It may end with the burst.
pub fn first_line(line: &[u8]) -> Result<Line, Cause>
    ensures { result ≡ spec.first_line (words line.now) }
{
    let mut fields = Words::of(line);
    if !is_word(fields.next_word(), "cores") {
        return Err(Cause::CoresLineExpected);
    }
    match count_words(line) {
        Some(4) => size_line(&mut fields),
        Some(6) => burst_line(&mut fields),
        _ => Err(Cause::WrongNumberOfWords),
    }
}

/// A line after it. `late` says that a line other than a `queue` line came before.
pub fn later_line(line: &[u8], cores: u8, late: bool) -> Result<Line, Cause>
    requires { 1 ≤ cores }
    ensures { result ≡ spec.later_line cores late (words line.now) }
{
    let mut fields = Words::of(line);
    let Some(keyword) = keyword_of(fields.next_word()) else {
        return Err(Cause::UnknownWord);
    };
    if late && keyword.is_queue() {
        return Err(Cause::QueueLineTooLate);
    }
    match count_words(line) {
        Some(count) if keyword.takes(count) => line_of(keyword, cores, &mut fields, count),
        _ => Err(Cause::WrongNumberOfWords),
    }
}

/// The words behind a line's first word, by what that says. The line has `count` words, the first one counted.
fn line_of(keyword: Keyword, cores: u8, fields: &mut Words<'_>, count: usize) -> Result<Line, Cause>
    requires some { 1 ≤ cores }
    requires taken { IsTrue (takes keyword count) }
    requires left { length fields.old + 1 ≡ count }
    ensures { result ≡ spec.line_of keyword cores fields.old }
{
    match keyword {
        Keyword::Queue => queue_line(cores, fields),
        Keyword::Submit => event::submit_line(cores, fields, count - 4),
        Keyword::Create => event::create_line(cores, fields),
        Keyword::Shares => event::shares_line(cores, fields),
        Keyword::Close => event::close_line(cores, fields),
        Keyword::CloseCore => event::closecore_line(cores, fields),
        Keyword::Wake => event::wake_line(cores, fields),
        Keyword::Deliver => event::deliver_line(cores, fields),
        Keyword::Turn => event::turn_line(cores, fields),
        Keyword::Shut => event::shut_line(cores, fields),
        Keyword::Collect => event::collect_line(cores, fields),
        Keyword::Redeem => event::redeem_line(cores, fields),
        Keyword::Detach => event::detach_line(cores, fields),
    }
}

/// `C cap K`: each poll is a turn.
fn size_line(fields: &mut Words<'_>) -> Result<Line, Cause>
    ensures { result ≡ spec.size_line fields.old }
{
    let (cores, cap) = size_fields(fields)?;
    Ok(Line::Size(cores, cap, 1))
}

/// `C cap K burst B`
fn burst_line(fields: &mut Words<'_>) -> Result<Line, Cause>
    ensures { result ≡ spec.burst_line fields.old }
{
    let size = size_fields(fields);
    let burst = burst_fields(fields);
    let ((cores, cap), burst) = both(size, burst)?;
    Ok(Line::Size(cores, cap, burst))
}

/// `C cap K`: how many cores, and the capacity of each link.
fn size_fields(fields: &mut Words<'_>) -> Result<(u8, u16), Cause>
    ensures size { result ≡ spec.size_fields fields.old }
    ensures rest { fields.new ≡ others (others (others fields.old)) }
{
    let cores = cores_field(fields.next_word());
    let cap_word = fixed_field(fields.next_word(), "cap");
    let cap = cap_field(fields.next_word());
    match both(cores, both(cap_word, cap)) {
        Ok((cores, (_, cap))) => Ok((cores, cap)),
        Err(cause) => Err(cause),
    }
}

/// `burst B`: how many polls a turn may have.
fn burst_fields(fields: &mut Words<'_>) -> Result<u8, Cause>
    ensures { result ≡ spec.burst_fields fields.old }
{
    let burst_word = fixed_field(fields.next_word(), "burst");
    let burst = burst_field(fields.next_word());
    let (_, burst) = both(burst_word, burst)?;
    Ok(burst)
}

/// How many cores there are.
fn cores_field(word: &[u8]) -> Result<u8, Cause>
    ensures { result ≡ within 1 most_cores (number_of word.now) }
{
    Ok(number_within(word, 1, MOST_CORES as u64)? as u8)
}

/// How many submissions a link may have outstanding.
fn cap_field(word: &[u8]) -> Result<u16, Cause>
    ensures { result ≡ within 1 most_capacity (number_of word.now) }
{
    Ok(number_within(word, 1, MOST_CAPACITY as u64)? as u16)
}

/// How many polls a turn may have.
fn burst_field(word: &[u8]) -> Result<u8, Cause>
    ensures { result ≡ within 1 most_burst (number_of word.now) }
{
    Ok(number_within(word, 1, MOST_BURST as u64)? as u8)
}

fn queue_line(cores: u8, fields: &mut Words<'_>) -> Result<Line, Cause>
    requires { 1 ≤ cores }
    ensures { result ≡ spec.queue_line cores fields.old }
{
    let core = core_field(fields.next_word(), cores);
    let shares = shares_field(fields.next_word());
    let (core, shares) = both(core, shares)?;
    Ok(Line::Queue(core, shares))
}
