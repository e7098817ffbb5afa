//! Journals are judged as the parts of a folder grow.
//!
//! They are done again on a house of cores, as far as they are there. Each second a line on standard error tells what was read, and that it is open:
//! a house writes these notes so far. Once the folder has a file `end` no more comes: what is read then is judged as a whole. A note that no house
//! writes is judged at once, beside the notes that were read of the other actors: if no later notes can make them sound, that is the verdict. If
//! they can, the end tells: where memory was wanting a house writes otherwise, and all is sound.

ghost use Rattle.std.specs.Prelude.{◌≡◌, Ok, IfOk, IfSome, string_bytes};
ghost use Rattle.judge_replay.specs.declared.reading.Found.TheVariants.{Sound};
ghost use Rattle.fairexec.specs.Ends.{status_ended};
ghost use Rattle.judge_audit.specs.Verdicts.{IsVerdict};
ghost use Rattle.judge_fronts.specs.Fronts.{IsLost};
ghost use Rattle.fair_parts.specs.Folders.{TellsHouse};
ghost use Rattle.fairexec_report.specs.VerdictTexts as spec;
ghost use Rattle.fairexec.specs.Follows.{AreFronts, FollowsParts, HasPrintedFault, TellFault};
ghost use Rattle.fairexec.specs.Parts.{AreSoundFiles};

use crate::ended::Ended;
use crate::parts::{folder_in, judge_whole, last_note};
use crate::tally::Tally;
use crate::{print, write_whole};
use base_words::Note;
use fair_args::ReadOnlyFiles;
use fair_parts::{has_file, house_in, part_files};
use fairexec_report::verdict::VerdictLine;
use judge_audit::{Verdict, audit};
use judge_fronts::is_lost;
use judge_parts::{Pace, Unread, followed_parts, front_of_parts};
use judge_replay::{Found, ReplayError};
use note_journal::Assembly;
use std::alloc::{AllocError, AllocGlobal, Global};
use std::fmt::Write;
use std::time::{Clock, Duration};
use text_bytes::ByteSink;
use text_feed::FeedError;
use text_journal::JournalCause;
use text_parts::BytesFault;
use text_parts::parts::HouseNumbers;
use text_words::Fault;

/// The file that says that no more comes.
const END: &str = "end";

/// How long nothing is asked for where nothing new came.
const PAUSE_MILLIS: u64 = 50;

/// So many such pauses a note may take that comes behind one that no house writes.
const MOST_TRIES: u32 = 40;

/// So many nanoseconds are between two lines.
const BETWEEN_LINES: u128 = 1_000_000_000;

/// Follows the parts in a folder, and tells what was read of them.
#[derive(Drop)]
struct Watch<'a, C, K, R> {
    console: &'a C,
    clock: &'a K,
    rt: &'a R,
    folder: &'a str,
    cores: u8,
    tally: Tally,
    /// When it began, when the last line was told, and how long the polls were that were read until then.
    began: Option<Duration>,
    told: Option<Duration>,
    busy: u64,
    /// Whether the folder said that no more comes.
    over: bool,
}

/// How many nanoseconds one time is behind another.
fn nanoseconds(from: Option<Duration>, to: Option<Duration>) -> u128 {
    match (from, to) {
        (Some(from), Some(to)) => to.saturating_sub(from).as_nanos(),
        _ => 0,
    }
}

/// What part of this time so many cores polled for, in percent. It is more than 100 where old notes are read.
fn percent(busy: u64, nanoseconds: u128, cores: u8) -> u128 {
    let all = nanoseconds.saturating_mul(u128::from(cores));
    match (u128::from(busy) * 100).checked_div(all) {
        Some(percent) => percent,
        None => 0,
    }
}

impl<'a, C: Eprint, K: Clock, R> Watch<'a, C, K, R> {
    /// Nothing was read of the parts in this folder.
    fn of(console: &'a C, clock: &'a K, rt: &'a R, folder: &'a str, cores: u8) -> Self {
        let mut watch = Watch {
            console,
            clock,
            rt,
            folder,
            cores,
            tally: Tally::new(),
            began: None,
            told: None,
            busy: 0,
            over: false,
        };
        watch.began = watch.now();
        watch.told = watch.began;
        watch
    }

    fn now(&self) -> Option<Duration> {
        match self.clock.monotonic() {
            Ok(now) => Some(now),
            Err(_) => None,
        }
    }

    /// Tells what was read, where a second is over since it told, or where `last` says so.
    fn tells(&mut self, last: bool) {
        let now = self.now();
        let passed = nanoseconds(self.told, now);
        if passed < BETWEEN_LINES && !last {
            return;
        }
        let seconds = nanoseconds(self.began, now) / BETWEEN_LINES;
        let notes = self.tally.notes;
        let jobs = self.tally.jobs;
        let busy = percent(
            self.tally.busy.saturating_sub(self.busy),
            passed,
            self.cores,
        );
        let uncollected = self.tally.uncollected();
        let _ = eprintln!(self.console;
            "{seconds} s: open, {notes} notes, {jobs} jobs ended, busy {busy} %, {uncollected} not collected"
        );
        self.told = now;
        self.busy = self.tally.busy;
    }
}

impl<'a, C: Eprint, K: Clock, R: ReadOnlyFiles + AllocGlobal> Pace for Watch<'a, C, K, R> {
    fn hears(&mut self, note: &Note<u64>) {
        self.tally.add(note);
    }

    fn goes_on(&mut self, went: bool) -> bool {
        let ends = self.over && !went;
        self.tells(ends);
        if went || ends {
            return went;
        }
        self.over = has_file(self.rt, self.folder, END);
        if !self.over {
            self.clock.sleep(Duration::from_millis(PAUSE_MILLIS));
        }
        true
    }
}

/// Judges the journals whose parts are in the folder, or in the current one, as they grow.
pub(crate) fn follow_parts<C: Eprint, K: Clock, R: ReadOnlyFiles + AllocGlobal, S: ByteSink>(
    console: &C,
    clock: &K,
    rt: &R,
    folder: Option<&str>,
    output: &mut S,
) -> Ended
    ensures { FollowsParts S.ByteSink output.old output.new R.File.remaining (status_ended result) }
{
    let folder = folder_in(folder);
    let Ok(house) = house_in(rt, folder) else {
        return judge_whole(rt, folder, None, output);
    };
    let found = match followed(console, clock, rt, folder, house) {
        Ok(found) => found,
        Err(why) => return Ended::Unread(why),
    };
    match found {
        Found::Sound => Ended::Ran(print(b"sound\n", output)),
        Found::Open => judge_whole(rt, folder, None, output),
        Found::Differs { actor, read } => {
            if let Some(verdict) = front_verdict(clock, rt, folder, house, actor, &read) {
                return Ended::Judged(print_fault(rt.alloc(), verdict, output));
            }
            await_end(console, clock, rt, folder, actor, &read);
            judge_whole(rt, folder, Some(Found::Differs { actor, read }), output)
        }
    }
}

/// Waits for the file `end`. Of so many notes of each actor the last one of this actor is none that a house writes there, and yet it may be sound.
fn await_end<C: Eprint, K: Clock, R: ReadOnlyFiles + AllocGlobal>(
    console: &C,
    clock: &K,
    rt: &R,
    folder: &str,
    actor: u8,
    read: &[u64],
) {
    if has_file(rt, folder, END) {
        return;
    }
    let note = last_note(actor, read);
    let _ = eprintln!(console;
        "open until the end: a house writes another note than actor {actor} note {note}"
    );
    for _pause in 0..u64::MAX {
        if has_file(rt, folder, END) {
            return;
        }
        clock.sleep(Duration::from_millis(PAUSE_MILLIS));
    }
}

/// What the journals are that the files come to tell.
fn followed<C: Eprint, K: Clock, R: ReadOnlyFiles + AllocGlobal>(
    console: &C,
    clock: &K,
    rt: &R,
    folder: &str,
    house: HouseNumbers,
) -> Result<Found, Unread>
    requires { (head : R.File) × TellsHouse (R.File.remaining head) house }
    ensures { result ≡ Ok Sound → AreSoundFiles R.File.remaining }
{
    let files = match part_files(rt, folder, house.cores) {
        Ok(files) => files,
        Err(fault) => return Err(unread(fault)),
    };
    let watch = Watch::of(console, clock, rt, folder, house.cores);
    match followed_parts(rt.alloc(), house, files, watch) {
        Ok(found) => Ok(found),
        Err(ReplayError::Untold(why)) => Err(why),
        Err(_) => Err(unread(BytesFault::Memory)),
    }
}

/// Why nothing is read of the parts of any actor.
fn unread(fault: BytesFault) -> Unread {
    let error = match fault {
        BytesFault::Memory => FeedError::Memory,
        _ => FeedError::Read,
    };
    Unread {
        actor: 0,
        behind: 0,
        error,
    }
}

/// The verdict of so many notes of each actor, if no later notes can make them sound. None if no more comes: then all are to be judged.
fn front_verdict<K: Clock, R: ReadOnlyFiles + AllocGlobal>(
    clock: &K,
    rt: &R,
    folder: &str,
    house: HouseNumbers,
    actor: u8,
    read: &[u64],
) -> Option<Verdict>
    requires { (head : R.File) × TellsHouse (R.File.remaining head) house }
    ensures { IfSome result (TellFault R.File.remaining) }
{
    if has_file(rt, folder, END) {
        return None;
    }
    let front = match later_front(clock, rt, folder, house, actor, read) {
        Some(front) => front,
        None => front_in(rt, folder, house, read, None)?,
    };
    lost_verdict(rt.alloc(), &front)
}

/// The journals of so many notes of each actor and of one more of this one, which tells of a pick whether it is wrong. That one may come late.
fn later_front<K: Clock, R: ReadOnlyFiles + AllocGlobal>(
    clock: &K,
    rt: &R,
    folder: &str,
    house: HouseNumbers,
    actor: u8,
    read: &[u64],
) -> Option<Assembly>
    ensures { IfSome result (AreFronts R.File.remaining house) }
{
    for _try in 0..MOST_TRIES {
        let over = has_file(rt, folder, END);
        let front = front_in(rt, folder, house, read, Some(actor));
        if over || front.is_some() {
            return front;
        }
        clock.sleep(Duration::from_millis(PAUSE_MILLIS));
    }
    None
}

/// The journals of the first notes of each actor, as many as these and one of `further` more, if they can be read.
fn front_in<R: ReadOnlyFiles + AllocGlobal>(
    rt: &R,
    folder: &str,
    house: HouseNumbers,
    read: &[u64],
    further: Option<u8>,
) -> Option<Assembly>
    ensures { IfSome result (AreFronts R.File.remaining house) }
{
    let Ok(files) = part_files(rt, folder, house.cores) else {
        return None;
    };
    front_of_parts(rt.alloc(), house, files, read, further)
}

/// The verdict of journals that go on, if no later notes can make them sound.
fn lost_verdict(alloc: Global, front: &Assembly) -> Option<Verdict>
    ensures { IfSome result (λ verdict. IsVerdict front.now verdict × IsLost front.now) }
{
    if !front.is_spelled() {
        return None;
    }
    let Ok(verdict) = audit(alloc, front) else {
        return None;
    };
    if is_lost(front, &verdict) {
        Some(verdict)
    } else {
        None
    }
}

/// The line of a verdict.
fn verdict_text(alloc: Global, verdict: Verdict) -> Result<String, AllocError>
    ensures { IfOk result (λ text. string_bytes text ≡ spec.verdict_text verdict) }
{
    let line = VerdictLine(verdict);
    let mut text = String::new(alloc);
    writeln!(text, "{line}")?;
    Ok(text)
}

/// Prints a verdict that isn't `Sound`.
fn print_fault<S: ByteSink>(
    alloc: Global,
    verdict: Verdict,
    output: &mut S,
) -> Result<bool, Fault<JournalCause>>
    ensures { HasPrintedFault S.ByteSink output.old output.new verdict result }
{
    let Ok(text) = verdict_text(alloc, verdict) else {
        return Err(Fault::Memory);
    };
    match write_whole(text.as_bytes(), output) {
        Ok(()) => Ok(false),
        Err(_) => Err(Fault::Write),
    }
}
