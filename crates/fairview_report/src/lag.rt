//! How far each two queues of all cores were apart, as text.

ghost use Rattle.std.specs.Prelude.{◌≡◌, ◌++◌, ℕ, IfOk, OnOk, string_bytes};
ghost use Rattle.base_words.specs.Assembly.{Assembly};
ghost use Rattle.fairview_lag.specs.Lines.{lag_text};
ghost use Rattle.fairview_lag.specs.Pairs.{run_pairs};
ghost use Rattle.fairview_report.specs.Told.{AreLags};

use crate::walks::Walked;
use base_words::CoreNo;
use fairview_lag::{CoreLags, PairLag, put_pair_lines};
use std::alloc::{AllocError, Global};

/// Puts a line for each core and two queues of it that ever had work at once.
///
/// # Errors
///
/// `AllocError` for want of memory. A first part of the text may then stand on the page.
pub fn put_lags(
    alloc: Global,
    walked: &Walked<CoreLags>,
    page: &mut String,
) -> Result<(), AllocError>
    ensures { OnOk result ((assembly : Assembly ℕ) → AreLags walked.now.cores walked.now.burst walked.now.each.items assembly
        → string_bytes page.new ≡ string_bytes page.old ++ lag_text assembly) }
{
    let pairs = pairs_of(alloc, walked)?;
    put_pair_lines(&pairs, page)
}

/// The greatest lags of all pairs of queues, core by core.
fn pairs_of(alloc: Global, walked: &Walked<CoreLags>) -> Result<Vec<PairLag>, AllocError>
    ensures { IfOk result (λ pairs. (assembly : Assembly ℕ) → AreLags walked.now.cores walked.now.burst walked.now.each.items assembly
        → pairs.items ≡ run_pairs assembly) }
{
    let mut pairs = Vec::new(alloc);
    for core in 0..walked.cores {
        walked.each[core as usize].push_pairs(CoreNo(core), &mut pairs)?;
    }
    Ok(pairs)
}
