//! A panel of two queues.

ghost use Rattle.std.specs.Prelude.{◌≡◌, ◌++◌, OnOk, IfOk, Option, Some, length, string_bytes};
ghost use Rattle.fairview_marks.specs.Leads.{KnowsStanding};
ghost use Rattle.fairview_lag.specs.ColumnTexts as columns;
ghost use Rattle.fairview_lag.specs.Columns.{AreColumns};
ghost use Rattle.fairview_lag.specs.Panels as spec;

use crate::column_texts::ColumnText;
use crate::columns::{Column, Panel, columns_of};
use crate::line::PairText;
use crate::pairs::PairLag;
use fairview_marks::standing::Standing;
use note_facts::note_at;
use note_journal::Journal;
use std::alloc::{AllocError, Global};
use std::fmt;

/// The ground of a panel.
#[derive(Clone, Copy)]
struct Ground(Panel);

/// The queue that is ahead above its middle.
#[derive(Clone, Copy)]
struct Above(Panel);

/// The queue that is ahead below it.
#[derive(Clone, Copy)]
struct Below(Panel);

/// What is told below a panel.
#[derive(Clone, Copy)]
struct Words(Panel, PairLag);

impl fmt::Display for Ground {
    ghost output = { λ ground. Some (spec.ground_text ground.0) };

    fn fmt<W: fmt::Write>(&self, f: &mut fmt::Formatter<W>) -> fmt::Result {
        let top = self.0.top;
        write!(
            f,
            "<rect class=\"lane\" x=\"300\" y=\"{top}\" width=\"2000\" height=\"120\"/>"
        )
    }
}

impl fmt::Display for Above {
    ghost output = { λ side. Some (spec.above_text side.0) };

    fn fmt<W: fmt::Write>(&self, f: &mut fmt::Formatter<W>) -> fmt::Result {
        let y = self.0.top.saturating_add(38);
        let queue = self.0.first.0;
        write!(f, "<text x=\"40\" y=\"{y}\">q{queue} ahead</text>")
    }
}

impl fmt::Display for Below {
    ghost output = { λ side. Some (spec.below_text side.0) };

    fn fmt<W: fmt::Write>(&self, f: &mut fmt::Formatter<W>) -> fmt::Result {
        let y = self.0.top.saturating_add(98);
        let queue = self.0.second.0;
        write!(f, "<text x=\"40\" y=\"{y}\">q{queue} ahead</text>")
    }
}

impl fmt::Display for Words {
    ghost output = { λ words. Some (spec.words_text words.0 words.1) };

    fn fmt<W: fmt::Write>(&self, f: &mut fmt::Formatter<W>) -> fmt::Result {
        let y = self.0.top.saturating_add(152);
        let turns = self.0.turns;
        let pair = PairText(self.1);
        write!(
            f,
            "<text class=\"axis\" x=\"300\" y=\"{y}\">{pair}</text><text class=\"axis end\" x=\"2300\" y=\"{y}\">turns 1 to {turns}</text>\n"
        )
    }
}

/// What is known of all queues by all notes.
fn standing_of(alloc: Global, journal: &Journal<u64>, burst: u8) -> Result<Standing, AllocError>
    ensures { IfOk result (λ standing. KnowsStanding burst standing journal.now.notes) }
{
    let mut standing = Standing::new(alloc, burst);
    for place in 0..journal.len() {
        standing.add(&note_at(journal, place))?;
    }
    Ok(standing)
}

/// The top of the panel of this number.
fn top_of(index: u32) -> u32
    ensures { result ≡ spec.top_of index }
{
    index.saturating_mul(200).saturating_add(100)
}

/// The panel of a pair.
fn panel_of(
    alloc: Global,
    index: u32,
    pair: &PairLag,
    journal: &Journal<u64>,
    burst: u8,
) -> Result<Panel, AllocError>
    ensures { IfOk result (λ panel. panel ≡ spec.panel_of burst index pair.now journal.now.notes) }
{
    let standing = standing_of(alloc, journal, burst)?;
    let one = standing.tally(pair.first).greatest;
    let other = standing.tally(pair.second).greatest;
    Ok(Panel {
        top: top_of(index),
        burst,
        first: pair.first,
        second: pair.second,
        turns: standing.turns(),
        bound: one as u128 + other as u128,
    })
}

/// Puts what stands before the columns.
#[tactic(auto, unfolding(crate::specs::Panels::head_text))]
fn put_head(panel: &Panel, pair: &PairLag, page: &mut String) -> Result<(), AllocError>
    ensures { OnOk result (string_bytes page.new ≡ string_bytes page.old ++ spec.head_text panel.now pair.now) }
{
    let ground = Ground(*panel);
    let above = Above(*panel);
    let below = Below(*panel);
    let words = Words(*panel, *pair);
    write!(page, "{ground}{above}{below}{words}")?;
    Ok(())
}

/// Puts this text.
fn put_text(text: ColumnText, page: &mut String) -> Result<(), AllocError>
    ensures { OnOk result (string_bytes page.new ≡ string_bytes page.old ++ columns.column_text text.0 text.1) }
{
    write!(page, "{text}")?;
    Ok(())
}

/// Puts a column, if it has any lag.
fn put_column(panel: &Panel, column: Option<Column>, page: &mut String) -> Result<(), AllocError>
    ensures { OnOk result (string_bytes page.new ≡ string_bytes page.old ++ columns.column_if panel.now column) }
{
    match column {
        Some(column) => put_text(ColumnText(*panel, column), page),
        None => Ok(()),
    }
}

/// Puts the columns of a panel.
fn put_columns(
    alloc: Global,
    panel: &Panel,
    journal: &Journal<u64>,
    page: &mut String,
) -> Result<(), AllocError>
    ensures { OnOk result (string_bytes page.new ≡ string_bytes page.old ++ columns.columns_text panel.now journal.now.notes) }
{
    let columns = columns_of(alloc, panel, journal)?;
    for number in 0..columns.len() {
        put_column(panel, columns[number], page)?;
    }
    Ok(())
}

/// Puts the panel of a pair.
pub(crate) fn put_panel(
    alloc: Global,
    index: u32,
    pair: &PairLag,
    journal: &Journal<u64>,
    burst: u8,
    page: &mut String,
) -> Result<(), AllocError>
    ensures { OnOk result (string_bytes page.new ≡ string_bytes page.old ++ spec.panel_text burst index pair.now journal.now.notes) }
{
    let panel = panel_of(alloc, index, pair, journal, burst)?;
    put_head(&panel, pair, page)?;
    put_columns(alloc, &panel, journal, page)
}
