//! The line of a summary of waits or runs.

ghost use Rattle.std.specs.Prelude.{◌≡◌, Some};
ghost use Rattle.fairview_report.specs.WaitTexts as spec;

use crate::wait::Kind;
use base_words::CoreNo;
use judge_view::{Measure, Percentiles, Summary};
use std::fmt;
use text_words::name::NameText;

/// A summary as a line, without its line feed: `core D wait turns jobs N p50 .. p90 .. p99 .. p99.9 .. greatest G of NAME`.
#[derive(Clone, Copy)]
pub struct SummaryLine(pub CoreNo, pub Kind, pub Measure, pub Summary);

/// Whose spans a line tells of.
#[derive(Clone, Copy)]
struct WhoseText(CoreNo, Kind, Measure);

/// How many spans there are, their percentiles, and the greatest length.
#[derive(Clone, Copy)]
struct SummaryText(Summary);

/// Four percentiles.
#[derive(Clone, Copy)]
struct PercentilesText(Percentiles);

/// The word of a kind of span.
fn kind_word(kind: Kind) -> &'static str
    ensures { result.now ≡ spec.kind_word kind }
{
    match kind {
        Kind::Wait => "wait",
        Kind::Run => "run",
    }
}

/// The word of a measure.
fn measure_word(measure: Measure) -> &'static str
    ensures { result.now ≡ spec.measure_word measure }
{
    match measure {
        Measure::Turns => "turns",
        Measure::Time => "ns",
    }
}

impl fmt::Display for WhoseText {
    ghost output = { λ text. Some (spec.whose_text text.0 text.1 text.2) };

    fn fmt<W: fmt::Write>(&self, f: &mut fmt::Formatter<W>) -> fmt::Result {
        let core = self.0.0;
        let kind = kind_word(self.1);
        let measure = measure_word(self.2);
        write!(f, "core {core} {kind} {measure}")
    }
}

impl fmt::Display for PercentilesText {
    ghost output = { λ text. Some (spec.percentiles_text text.0) };

    fn fmt<W: fmt::Write>(&self, f: &mut fmt::Formatter<W>) -> fmt::Result {
        let p50 = self.0.p50;
        let p90 = self.0.p90;
        let p99 = self.0.p99;
        let p999 = self.0.p999;
        write!(f, "p50 {p50} p90 {p90} p99 {p99} p99.9 {p999}")
    }
}

impl fmt::Display for SummaryText {
    ghost output = { λ text. Some (spec.summary_text text.0) };

    fn fmt<W: fmt::Write>(&self, f: &mut fmt::Formatter<W>) -> fmt::Result {
        let jobs = self.0.jobs;
        let percentiles = PercentilesText(self.0.percentiles);
        let greatest = self.0.greatest;
        write!(f, "jobs {jobs} {percentiles} greatest {greatest}")
    }
}

impl fmt::Display for SummaryLine {
    ghost output = { λ line. Some (spec.summary_line line.0 line.1 line.2 line.3) };

    fn fmt<W: fmt::Write>(&self, f: &mut fmt::Formatter<W>) -> fmt::Result {
        let whose = WhoseText(self.0, self.1, self.2);
        let told = SummaryText(self.3);
        let name = NameText(self.3.longest.name);
        write!(f, "{whose} {told} of {name}")
    }
}
