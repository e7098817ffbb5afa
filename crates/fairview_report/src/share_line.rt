//! The row of a queue with commas between its columns.

ghost use Rattle.std.specs.Prelude.{Some};
ghost use Rattle.fairview_report.specs.ShareTexts as spec;

use base_words::{CoreNo, QueueNo, QueueStats};
use judge_view::QueueShare;
use std::fmt;

/// The row of a queue, without its line feed.
#[derive(Clone, Copy)]
pub struct ShareLine(pub CoreNo, pub QueueNo, pub QueueShare);

/// Its first columns: core, queue and shares.
#[derive(Clone, Copy)]
struct WhoseText(CoreNo, QueueNo, QueueStats);

/// The next ones: what it was due, and what it got.
#[derive(Clone, Copy)]
struct TimesText(QueueShare);

/// The others: picks, jobs that waited at most, that are done and that were handed back.
#[derive(Clone, Copy)]
struct CountsText(QueueShare);

impl fmt::Display for WhoseText {
    ghost output = { λ text. Some (spec.whose_csv text.0 text.1 text.2) };

    fn fmt<W: fmt::Write>(&self, f: &mut fmt::Formatter<W>) -> fmt::Result {
        let core = self.0.0;
        let queue = self.1.0;
        let shares = self.2.shares.get();
        write!(f, "{core},{queue},{shares}")
    }
}

impl fmt::Display for TimesText {
    ghost output = { λ text. Some (spec.times_csv text.0) };

    fn fmt<W: fmt::Write>(&self, f: &mut fmt::Formatter<W>) -> fmt::Result {
        let due = self.0.due / 1000;
        let got = self.0.stats.runtime;
        write!(f, "{due},{got}")
    }
}

impl fmt::Display for CountsText {
    ghost output = { λ text. Some (spec.counts_csv text.0) };

    fn fmt<W: fmt::Write>(&self, f: &mut fmt::Formatter<W>) -> fmt::Result {
        let selected = self.0.stats.selected;
        let waiting = self.0.most_waiting;
        let finished = self.0.stats.finished;
        let returned = self.0.stats.returned;
        write!(f, "{selected},{waiting},{finished},{returned}")
    }
}

impl fmt::Display for ShareLine {
    ghost output = { λ line. Some (spec.csv_row line.0 line.1 line.2) };

    fn fmt<W: fmt::Write>(&self, f: &mut fmt::Formatter<W>) -> fmt::Result {
        let whose = WhoseText(self.0, self.1, self.2.stats);
        let times = TimesText(self.2);
        let counts = CountsText(self.2);
        write!(f, "{whose},{times},{counts}")
    }
}
