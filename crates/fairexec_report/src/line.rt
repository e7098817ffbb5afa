//! The lines of statistics.

ghost use Rattle.std.specs.Prelude.{◌≡◌, Some};
ghost use Rattle.fairexec_report.specs.StatLines as spec;

use base_words::{CoreNo, CoreStats, QueueNo, QueueStats};
use std::fmt;

/// The statistics of a core as a line, without its line feed: `core D turns N floor F held H drained yes`.
#[derive(Clone, Copy)]
pub struct CoreLine(pub CoreNo, pub CoreStats);

/// The statistics of a queue as a line, without its line feed: `stat D qQ shares W selected N runtime R vr V waiting X finished F returned B`.
#[derive(Clone, Copy)]
pub struct QueueLine(pub CoreNo, pub QueueNo, pub QueueStats);

/// The first part of a queue's line: whose they are, its shares and its picks.
#[derive(Clone, Copy)]
struct SharesText(CoreNo, QueueNo, QueueStats);

/// The middle part: its times.
#[derive(Clone, Copy)]
struct TimesText(QueueStats);

/// The last part: its jobs.
#[derive(Clone, Copy)]
struct JobsText(QueueStats);

/// `yes` or `no`.
fn yes_or_no(holds: bool) -> &'static str
    ensures { result.now ≡ spec.yes_or_no holds }
{
    if holds { "yes" } else { "no" }
}

impl fmt::Display for CoreLine {
    ghost output = { λ line. Some (spec.core_line line.0 line.1) };

    fn fmt<W: fmt::Write>(&self, f: &mut fmt::Formatter<W>) -> fmt::Result {
        let core = self.0.0;
        let turns = self.1.turns;
        let floor = self.1.floor;
        let held = self.1.held;
        let drained = yes_or_no(self.1.drained);
        write!(
            f,
            "core {core} turns {turns} floor {floor} held {held} drained {drained}"
        )
    }
}

impl fmt::Display for SharesText {
    ghost output = { λ text. Some (spec.shares_text text.0 text.1 text.2) };

    fn fmt<W: fmt::Write>(&self, f: &mut fmt::Formatter<W>) -> fmt::Result {
        let core = self.0.0;
        let queue = self.1.0;
        let shares = self.2.shares.get();
        let selected = self.2.selected;
        write!(
            f,
            "stat {core} q{queue} shares {shares} selected {selected}"
        )
    }
}

impl fmt::Display for TimesText {
    ghost output = { λ text. Some (spec.times_text text.0) };

    fn fmt<W: fmt::Write>(&self, f: &mut fmt::Formatter<W>) -> fmt::Result {
        let runtime = self.0.runtime;
        let virtual_runtime = self.0.virtual_runtime;
        write!(f, "runtime {runtime} vr {virtual_runtime}")
    }
}

impl fmt::Display for JobsText {
    ghost output = { λ text. Some (spec.jobs_text text.0) };

    fn fmt<W: fmt::Write>(&self, f: &mut fmt::Formatter<W>) -> fmt::Result {
        let waiting = self.0.waiting;
        let finished = self.0.finished;
        let returned = self.0.returned;
        write!(
            f,
            "waiting {waiting} finished {finished} returned {returned}"
        )
    }
}

impl fmt::Display for QueueLine {
    ghost output = { λ line. Some (spec.queue_line line.0 line.1 line.2) };

    fn fmt<W: fmt::Write>(&self, f: &mut fmt::Formatter<W>) -> fmt::Result {
        let shares = SharesText(self.0, self.1, self.2);
        let times = TimesText(self.2);
        let jobs = JobsText(self.2);
        write!(f, "{shares} {times} {jobs}")
    }
}
