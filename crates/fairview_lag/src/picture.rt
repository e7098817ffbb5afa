//! Puts the picture of the leads of a run.

ghost use Rattle.std.specs.Prelude.{◌≡◌, ◌≤◌, ◌++◌, OnOk, Option, Some, slice_get, string_bytes};
ghost use Rattle.fairview_pictures.specs.Heads.{end_text};
ghost use Rattle.fairview_lag.specs.Pictures as spec;

use crate::core_lags::lags_of_run;
use crate::pairs::PairLag;
use crate::panel::put_panel;
use base_words::ActorNo;
use fairview_pictures::style::style;
use note_journal::Assembly;
use std::alloc::{AllocError, Global};
use std::fmt;

/// A picture has no more panels. Each has 1000 columns at most, so a picture has less than ten megabytes.
pub const MOST_PANELS: usize = 12;

/// The first line of a picture, which has so many panels.
#[derive(Clone, Copy)]
struct Opening(u32);

/// How many pairs are left out.
#[derive(Clone, Copy)]
struct Rest(usize);

impl fmt::Display for Opening {
    ghost output = { λ opening. Some (spec.opening_text opening.0) };

    fn fmt<W: fmt::Write>(&self, f: &mut fmt::Formatter<W>) -> fmt::Result {
        let height = self.0 as u64 * 200 + 160;
        write!(
            f,
            "<svg xmlns=\"http://www.w3.org/2000/svg\" viewBox=\"0 0 2400 {height}\" width=\"1200\">\n"
        )
    }
}

impl fmt::Display for Rest {
    ghost output = { λ rest. Some (spec.rest_text rest.0) };

    fn fmt<W: fmt::Write>(&self, f: &mut fmt::Formatter<W>) -> fmt::Result {
        let rest = self.0;
        if rest == 0 {
            return Ok(());
        }
        write!(
            f,
            "<text class=\"axis\" x=\"300\" y=\"2540\">{rest} pairs more are left out</text>\n"
        )
    }
}

/// The colours that only this picture has.
#[tactic(auto, unfolding(crate::specs::Pictures::own_style))]
fn own_style() -> &'static str
    ensures { result.now ≡ spec.own_style }
{
    "<style>.bound{fill:#d01c1c}.hit{fill:transparent}@media(prefers-color-scheme:dark){.bound{fill:#ff5c5c}}</style>\n"
}

/// What is shown.
#[tactic(auto, unfolding(crate::specs::Pictures::words_text))]
fn words() -> &'static str
    ensures { result.now ≡ spec.words_text }
{
    "<text class=\"axis\" x=\"300\" y=\"44\">lead in virtual runtime since both queues have work; red: the bound that is proved</text>\n"
}

/// Puts the picture of the leads of a run by its journals: a panel for each core and two queues of it that ever had work at once, at most
/// 12, and how many are left out. A panel has the turns of its core. Above its middle stands the lead of the first queue over the second in
/// virtual runtime since both have work, below it that of the second over the first, and beside them the bound that is proved: the greatest
/// charge so far of the one and of the other together. A panel has 1000 columns; each has the greatest leads of its turns.
///
/// # Errors
///
/// `AllocError` for want of memory. A first part of the text may then stand on the page.
pub fn put_lag(alloc: Global, assembly: &Assembly, page: &mut String) -> Result<(), AllocError>
    ensures { OnOk result (string_bytes page.new ≡ string_bytes page.old ++ spec.lag_picture assembly.now) }
{
    let pairs = lags_of_run(alloc, assembly)?;
    put_picture(alloc, assembly, &pairs, page)
}

/// Puts the picture of these pairs.
fn put_picture(
    alloc: Global,
    assembly: &Assembly,
    pairs: &[PairLag],
    page: &mut String,
) -> Result<(), AllocError>
    ensures { OnOk result (string_bytes page.new ≡ string_bytes page.old ++ spec.picture_of pairs.now assembly.now) }
{
    let count = shown(pairs);
    put_opening(count, page)?;
    put_panels(alloc, assembly, pairs, count, page)?;
    put_rest(pairs.len().saturating_sub(count as usize), page)
}

/// How many pairs are shown.
fn shown(pairs: &[PairLag]) -> u32
    ensures { result ≡ spec.shown pairs.now }
{
    pairs.len().min(MOST_PANELS) as u32
}

/// Puts what stands before the panels, of which there are so many.
fn put_opening(count: u32, page: &mut String) -> Result<(), AllocError>
    ensures { OnOk result (string_bytes page.new ≡ string_bytes page.old ++ spec.head_text count) }
{
    let opening = Opening(count);
    let style = style();
    let own = own_style();
    let words = words();
    write!(page, "{opening}{style}{own}{words}")?;
    Ok(())
}

/// Puts how many pairs are left out, and the last line.
fn put_rest(rest: usize, page: &mut String) -> Result<(), AllocError>
    ensures { OnOk result (string_bytes page.new ≡ string_bytes page.old ++ (spec.rest_text rest ++ end_text)) }
{
    let rest = Rest(rest);
    write!(page, "{rest}</svg>\n")?;
    Ok(())
}

/// Puts the panel of a pair, if its core is there.
fn put_if_there(
    alloc: Global,
    assembly: &Assembly,
    index: u32,
    pair: &PairLag,
    page: &mut String,
) -> Result<(), AllocError>
    ensures { OnOk result (string_bytes page.new ≡ string_bytes page.old ++ spec.panel_if index pair.now assembly.now) }
{
    if pair.core.0 < assembly.cores() {
        let journal = assembly.journal(ActorNo(pair.core.0));
        put_panel(alloc, index, pair, journal, assembly.burst(), page)
    } else {
        Ok(())
    }
}

/// Puts the panel of a pair, if there is one.
fn put_pair(
    alloc: Global,
    assembly: &Assembly,
    index: u32,
    pair: Option<PairLag>,
    page: &mut String,
) -> Result<(), AllocError>
    ensures { OnOk result (string_bytes page.new ≡ string_bytes page.old ++ spec.panel_told index pair assembly.now) }
{
    match pair {
        Some(pair) => put_if_there(alloc, assembly, index, &pair, page),
        None => Ok(()),
    }
}

/// The pair of this number, if there is one.
fn pair_at(pairs: &[PairLag], index: u32) -> Option<PairLag>
    ensures { result ≡ slice_get pairs.now index }
{
    pairs.get(index as usize).copied()
}

/// Puts the panels of the first pairs, so many.
fn put_panels(
    alloc: Global,
    assembly: &Assembly,
    pairs: &[PairLag],
    count: u32,
    page: &mut String,
) -> Result<(), AllocError>
    ensures { OnOk result (string_bytes page.new ≡ string_bytes page.old ++ spec.panels_text count pairs.now assembly.now) }
{
    for index in 0..count {
        put_pair(alloc, assembly, index, pair_at(pairs, index), page)?;
    }
    Ok(())
}
