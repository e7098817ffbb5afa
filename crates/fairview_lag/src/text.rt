//! Puts the greatest lags of pairs as lines of text.

ghost use Rattle.std.specs.Prelude.{◌≡◌, ◌++◌, OnOk, string_bytes, flat_map};
ghost use Rattle.fairview_lag.specs.Lines as spec;

use crate::line::PairText;
use crate::pairs::PairLag;
use std::alloc::AllocError;

/// Puts a line for each of these pairs: the greatest lead of either queue over the other, in virtual runtime, since both have work; the bound
/// that is proved of it, which is the greatest charge so far of the one and of the other together; and the turn.
///
/// # Errors
///
/// `AllocError` for want of memory. A first part of the text may then stand on the page.
pub fn put_pair_lines(pairs: &[PairLag], page: &mut String) -> Result<(), AllocError>
    ensures { OnOk result (string_bytes page.new ≡ string_bytes page.old ++ flat_map spec.pair_line pairs.now) }
{
    for pair in pairs {
        put_line(PairText(*pair), page)?;
    }
    Ok(())
}

/// Puts the line of a pair.
#[tactic(auto, unfolding(crate::specs::Lines::pair_line))]
fn put_line(text: PairText, page: &mut String) -> Result<(), AllocError>
    ensures { OnOk result (string_bytes page.new ≡ string_bytes page.old ++ spec.pair_line text.0) }
{
    writeln!(page, "{text}")?;
    Ok(())
}
