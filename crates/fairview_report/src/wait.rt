//! How long the jobs of each core waited and ran, as text.

ghost use Rattle.std.specs.Prelude.{◌≡◌, ◌≤◌, ◌<◌, ◌++◌, ℕ, codes, OnOk, string_bytes};
ghost use Rattle.base_words.specs.Assembly.{Assembly};
ghost use Rattle.base_words.specs.Journal.{Journal as Notes};
ghost use Rattle.judge_view.specs.Waits.{AreSpans};
ghost use Rattle.fairview_report.specs.Texts.{Puts, bar};
ghost use Rattle.fairview_report.specs.Told.{AreWaits};
ghost use Rattle.fairview_report.specs.WaitTexts as spec;

use crate::page::{put_bar, put_right};
use crate::wait_line::SummaryLine;
use crate::walks::Walked;
use base_words::CoreNo;
use judge_view::{JobSpans, JobWalk, Measure, Span, Summary, count_within, summarize};
use std::alloc::{AllocError, Global};

/// A kind of span.
#[derive(Clone, Copy)]
pub enum Kind {
    /// From where a job enters its queue until its first poll begins.
    Wait,
    /// From where its first poll begins until it is done.
    Run,
}

/// Puts how long the jobs of each core waited and ran, by number.
///
/// # Errors
///
/// `AllocError` for want of memory. A first part of the text may then stand on the page.
pub fn put_waits(
    alloc: Global,
    plain: bool,
    walked: &Walked<JobWalk>,
    page: &mut String,
) -> Result<(), AllocError>
    ensures { OnOk result ((assembly : Assembly ℕ) → AreWaits walked.now.cores walked.now.burst walked.now.each.items assembly
        → Puts (spec.IsWaitText plain assembly) (string_bytes page.old) (string_bytes page.new)) }
{
    for core in 0..walked.cores {
        put_core(
            alloc,
            plain,
            CoreNo(core),
            &walked.each[core as usize],
            page,
        )?;
    }
    Ok(())
}

/// Puts the waits of a core, and behind them its runs.
fn put_core(
    alloc: Global,
    plain: bool,
    core: CoreNo,
    spans: &JobSpans,
    page: &mut String,
) -> Result<(), AllocError>
    ensures { OnOk result ((journal : Notes ℕ) → AreSpans spans.now journal
        → Puts (spec.IsCoreText plain core journal) (string_bytes page.old) (string_bytes page.new)) }
{
    put_kind(alloc, plain, core, Kind::Wait, &spans.waits, page)?;
    put_kind(alloc, plain, core, Kind::Run, &spans.runs, page)
}

/// Puts both measures of the spans of a kind.
fn put_kind(
    alloc: Global,
    plain: bool,
    core: CoreNo,
    kind: Kind,
    spans: &[Span],
    page: &mut String,
) -> Result<(), AllocError>
    ensures { OnOk result (Puts (spec.IsKindText plain core kind spans.now) (string_bytes page.old) (string_bytes page.new)) }
{
    put_spans(alloc, plain, core, kind, Measure::Turns, spans, page)?;
    put_spans(alloc, plain, core, kind, Measure::Time, spans, page)
}

/// Puts the summary of the spans and their histogram, if there are any spans.
fn put_spans(
    alloc: Global,
    plain: bool,
    core: CoreNo,
    kind: Kind,
    measure: Measure,
    spans: &[Span],
    page: &mut String,
) -> Result<(), AllocError>
    ensures { OnOk result (Puts (spec.IsSpansText plain core kind measure spans.now) (string_bytes page.old) (string_bytes page.new)) }
{
    let Some(summary) = summarize(alloc, spans, measure)? else {
        return Ok(());
    };
    let jobs = summary.jobs as u64;
    put_summary(SummaryLine(core, kind, measure, summary), page)?;
    put_histogram(alloc, plain, measure, spans, jobs, page)
}

/// Puts the line of a summary.
fn put_summary(line: SummaryLine, page: &mut String) -> Result<(), AllocError>
    ensures { OnOk result (string_bytes page.new ≡ string_bytes page.old ++ (spec.summary_line line.0 line.1 line.2 line.3 ++ codes "\n")) }
{
    writeln!(page, "{line}")?;
    Ok(())
}

/// Puts the histogram of spans, by their binary digits.
fn put_histogram(
    alloc: Global,
    plain: bool,
    measure: Measure,
    spans: &[Span],
    jobs: u64,
    page: &mut String,
) -> Result<(), AllocError>
    ensures { OnOk result (string_bytes page.new ≡ string_bytes page.old ++ spec.histogram_text plain measure spans.now jobs) }
{
    for digits in 0..129u32 {
        let from = least_with(digits);
        let to = greatest_with(digits);
        let count = count_within(spans, measure, from, to) as u64;
        put_range(alloc, plain, from, to, count, jobs, page)?;
    }
    Ok(())
}

/// The least number with so many binary digits.
fn least_with(digits: u32) -> u128
    requires { digits ≤ 128 }
    ensures { result ≡ spec.least_with digits }
{
    if digits == 0 { 0 } else { 1 << (digits - 1) }
}

/// The greatest number with so many binary digits.
fn greatest_with(digits: u32) -> u128
    requires { digits ≤ 128 }
    ensures { result ≡ spec.greatest_with digits }
{
    if digits == 128 {
        return u128::MAX;
    }
    let above: u128 = 1 << digits;
    above.saturating_sub(1)
}

/// Puts the line of the spans within a range, if there are any.
fn put_range(
    alloc: Global,
    plain: bool,
    from: u128,
    to: u128,
    count: u64,
    jobs: u64,
    page: &mut String,
) -> Result<(), AllocError>
    ensures { OnOk result (string_bytes page.new ≡ string_bytes page.old ++ spec.range_text plain from to count jobs) }
{
    if count == 0 {
        return Ok(());
    }
    put_right(alloc, 14, from, page)?;
    page.push_str(" ")?;
    put_right(alloc, 14, to, page)?;
    page.push_str(" ")?;
    put_right(alloc, 8, count as u128, page)?;
    page.push_str(" ")?;
    put_bar(alloc, plain, 40, count as u128, jobs as u128, page)?;
    page.push_str("\n")
}
