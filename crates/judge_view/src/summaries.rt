//! What is told of many spans.

ghost use Rattle.std.specs.Prelude.{◌≡◌, ◌<◌, length, IfOk};
ghost use Rattle.judge_view.specs.Histograms as histograms;
ghost use Rattle.judge_view.specs.Summaries as spec;

use crate::percentiles::{Percentiles, first_greatest, percentiles_of};
use crate::spans::Span;
use std::alloc::{AllocError, Global};

/// In what a span is measured.
#[derive(Clone, Copy)]
pub enum Measure {
    /// In turns of its core.
    Turns,
    /// In nanoseconds of processor time of its core.
    Time,
}

impl Measure {
    /// How long a span is.
    pub fn of(self, span: &Span) -> u128
        ensures { result ≡ spec.length_in self span.now }
    {
        match self {
            Measure::Turns => span.turns as u128,
            Measure::Time => span.time,
        }
    }
}

/// What is told of many spans: how many there are, percentiles of their lengths, and the first of the longest with its length.
#[derive(Clone, Copy)]
pub struct Summary {
    pub jobs: usize,
    pub percentiles: Percentiles,
    pub greatest: u128,
    pub longest: Span,
}

/// How long each span is.
fn lengths(alloc: Global, spans: &[Span], measure: Measure) -> Result<Vec<u128>, AllocError>
    ensures { IfOk result (λ lengths. lengths.items ≡ spec.lengths measure spans.now) }
{
    spans.iter().map(|span| measure.of(span)).collect(alloc)
}

/// What is told of these spans in this measure, if there are any.
/// It takes n log n steps for n spans, and memory for their lengths.
///
/// # Errors
///
/// `AllocError` for want of memory.
pub fn summarize(
    alloc: Global,
    spans: &[Span],
    measure: Measure,
) -> Result<Option<Summary>, AllocError>
    ensures { IfOk result (spec.IsSummary measure spans.now) }
{
    if spans.is_empty() {
        return Ok(None);
    }
    let numbers = lengths(alloc, spans, measure)?;
    let place = first_greatest(&numbers);
    let longest = spans[place];
    let percentiles = percentiles_of(numbers)?;
    Ok(Some(Summary {
        jobs: spans.len(),
        percentiles,
        greatest: measure.of(&longest),
        longest,
    }))
}

/// How many of these spans are so long: at least `from` and at most `to`.
pub fn count_within(spans: &[Span], measure: Measure, from: u128, to: u128) -> usize
    ensures { result ≡ histograms.count_within measure from to spans.now }
{
    spans
        .iter()
        .filter(|span| is_within(measure.of(span), from, to))
        .count()
}

/// Whether a number is within this range.
fn is_within(number: u128, from: u128, to: u128) -> bool
    ensures { result ≡ histograms.is_within number from to }
{
    from <= number && number <= to
}
