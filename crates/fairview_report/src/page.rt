//! Pieces of text on a page: numbers in columns, and bars.

ghost use Rattle.std.specs.Prelude.{◌≡◌, ◌++◌, decimal, OnOk, string_bytes};
ghost use Rattle.fairview_report.specs.Texts as spec;

use std::alloc::{AllocError, Global};

/// Puts a number at the right end of so many places.
///
/// # Errors
///
/// `AllocError` for want of memory. A first part of the text may then stand on the page.
pub fn put_right(
    alloc: Global,
    width: usize,
    number: u128,
    page: &mut String,
) -> Result<(), AllocError>
    ensures { OnOk result (string_bytes page.new ≡ string_bytes page.old ++ spec.right width (decimal number)) }
{
    let text = format!(in alloc; "{number}")?;
    let room = " ".repeat(alloc, width.saturating_sub(text.len()))?;
    page.push_str(&room)?;
    page.push_str(&text)
}

/// The mark of a bar.
fn mark(plain: bool) -> &'static str
    ensures { result.now ≡ spec.mark plain }
{
    if plain { "#" } else { "█" }
}

/// How many marks a part of a whole has, if the whole has so many: rounded down.
fn marks(width: u8, piece: u128, whole: u128) -> u8
    ensures { result ≡ spec.marks width piece whole }
{
    let all = piece.saturating_mul(width as u128) / whole.max(1);
    all.min(width as u128) as u8
}

/// Puts the bar of a part of a whole, which has so many marks.
///
/// # Errors
///
/// `AllocError` for want of memory. A first part of the text may then stand on the page.
pub fn put_bar(
    alloc: Global,
    plain: bool,
    width: u8,
    piece: u128,
    whole: u128,
    page: &mut String,
) -> Result<(), AllocError>
    ensures { OnOk result (string_bytes page.new ≡ string_bytes page.old ++ spec.bar plain width piece whole) }
{
    let count = marks(width, piece, whole) as usize;
    let bar = mark(plain).repeat(alloc, count)?;
    page.push_str(&bar)
}
