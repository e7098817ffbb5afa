//! Percentiles of numbers.

ghost use Rattle.std.specs.Prelude.{◌<◌, ◌≤◌, length, IfOk};
ghost use Rattle.std.specs.List.Sorted.{IsNonDecreasing};
ghost use Rattle.judge_view.specs.Percentiles.{ArePercentiles, IsPercentile, IsFirstGreatest};

use std::alloc::AllocError;

/// Four percentiles of some numbers. The last one is of 999 thousandths.
#[derive(Clone, Copy)]
pub struct Percentiles {
    pub p50: u128,
    pub p90: u128,
    pub p99: u128,
    pub p999: u128,
}

/// The percentiles of these numbers. It takes n log n steps for n numbers.
///
/// # Errors
///
/// `AllocError` for want of memory.
pub fn percentiles_of(mut numbers: Vec<u128>) -> Result<Percentiles, AllocError>
    requires { 0 < length numbers.items }
    ensures { IfOk result (λ told. ArePercentiles told numbers.items) }
{
    numbers.sort()?;
    Ok(of_rising(&numbers))
}

/// The percentiles of numbers that rise.
fn of_rising(rising: &[u128]) -> Percentiles
    requires some { 0 < length rising.now }
    requires rising { IsNonDecreasing rising.now }
    ensures { ArePercentiles result rising.now }
{
    Percentiles {
        p50: percentile(rising, 500),
        p90: percentile(rising, 900),
        p99: percentile(rising, 990),
        p999: percentile(rising, 999),
    }
}

/// The least of these numbers that so many thousandths of them don't pass. The numbers rise.
fn percentile(rising: &[u128], thousandths: u32) -> u128
    requires some { 0 < length rising.now }
    requires rising { IsNonDecreasing rising.now }
    requires positive { 0 < thousandths }
    requires bounded { thousandths ≤ 1000 }
    ensures { IsPercentile thousandths result rising.now }
{
    // The count is below 2^64 and the thousandths at most 1000, so the product fits, and the rank is at most the count.
    let share = rising.len() as u128 * thousandths as u128;
    let rank = (share + 999) / 1000;
    rising[rank as usize - 1]
}

/// The first place at which the greatest of these numbers stands.
pub fn first_greatest(numbers: &[u128]) -> usize
    requires { 0 < length numbers.now }
    ensures { IsFirstGreatest result numbers.now }
{
    let mut place = 0;
    for other in 1..numbers.len() {
        if numbers[other] > numbers[place] {
            place = other;
        }
    }
    place
}
