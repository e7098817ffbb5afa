//! The columns of a panel.

ghost use Rattle.std.specs.Prelude.{◌≡◌, ◌<◌, ℕ, IfOk, None, length, get_or};
ghost use Rattle.fairview_lag.specs.Columns as spec;

use crate::stretch::{Lag, Stretch};
use base_words::QueueNo;
use note_facts::note_at;
use note_journal::Journal;
use std::alloc::{AllocError, Global};

/// The place of a panel in the picture, how many polls a turn may have, its two queues, how many turns their core has, and the bound at its last.
#[derive(Clone, Copy)]
pub struct Panel {
    pub top: u32,
    pub burst: u8,
    pub first: QueueNo,
    pub second: QueueNo,
    pub turns: u64,
    pub bound: u128,
}

/// The greatest leads of either queue in some turns, from one to another, and the greatest bound.
#[derive(Clone, Copy)]
pub struct Column {
    pub from: u64,
    pub to: u64,
    pub ahead: u128,
    pub behind: u128,
    pub bound: u128,
}

impl Panel {
    /// How many of its 1000 columns the turns up to this one take.
    pub fn edge(&self, turn: u64) -> u128
        ensures value { result ≡ spec.edge self.now turn }
    {
        // The turn is below 2^64, so the product is below 2^74.
        (turn as u128 * 1000 / self.turns.max(1) as u128).min(1000)
    }

    /// The column of a turn.
    pub fn cell(&self, turn: u64) -> usize
        ensures value { result ≡ spec.cell self.now turn }
        ensures bounded { result < 1000 }
    {
        self.edge(turn.saturating_sub(1)).min(999) as usize
    }
}

impl Column {
    /// A column of one lag.
    fn of(lag: &Lag) -> Self
        ensures { result ≡ spec.column_of lag.now }
    {
        Column {
            from: lag.turn,
            to: lag.turn,
            ahead: lag.ahead(),
            behind: lag.behind(),
            bound: lag.bound,
        }
    }

    /// The column with one lag more.
    fn joined(&self, lag: &Lag) -> Self
        ensures { result ≡ spec.joined self.now lag.now }
    {
        Column {
            from: self.from,
            to: lag.turn,
            ahead: self.ahead.max(lag.ahead()),
            behind: self.behind.max(lag.behind()),
            bound: self.bound.max(lag.bound),
        }
    }
}

/// A column with this lag, whether or not it had any.
fn with_lag(column: Option<Column>, lag: &Lag) -> Column
    ensures { result ≡ spec.with_lag column lag.now }
{
    match column {
        Some(column) => column.joined(lag),
        None => Column::of(lag),
    }
}

/// Changes the column of the lag's turn, if there is a lag.
fn mark(panel: &Panel, lag: Option<Lag>, columns: &mut Vec<Option<Column>>)
    requires { length columns.now.items ≡ 1000 }
    ensures sized { length columns.new.items ≡ 1000 }
    ensures each { spec.AreAfter panel.now lag columns.old.items columns.new.items }
{
    if let Some(lag) = lag {
        let cell = panel.cell(lag.turn);
        let column = with_lag(columns[cell], &lag);
        columns[cell] = Some(column);
    }
}

/// Columns without a lag.
fn no_columns(alloc: Global) -> Result<Vec<Option<Column>>, AllocError>
    ensures sized { IfOk result (λ columns. length columns.items ≡ 1000) }
    ensures each { IfOk result (λ columns. (number : ℕ) → get_or columns.items number None ≡ None) }
{
    let mut columns = Vec::new(alloc);
    for _count in 0..1000u32 {
        columns.push(None)?;
    }
    Ok(columns)
}

/// The columns of a panel by the journal of its core, by number. A column without a lag is none.
/// One pass. It takes as many steps for a note as the count of jobs has binary digits, and keeps no notes.
///
/// # Errors
///
/// `AllocError` for want of memory.
pub fn columns_of(
    alloc: Global,
    panel: &Panel,
    journal: &Journal<u64>,
) -> Result<Vec<Option<Column>>, AllocError>
    ensures sized { IfOk result (λ columns. length columns.items ≡ 1000) }
    ensures each { IfOk result (λ columns. spec.AreColumns panel.now columns.items journal.now.notes) }
{
    let mut stretch = Stretch::new(alloc, panel.burst);
    let mut columns = no_columns(alloc)?;
    for place in 0..journal.len() {
        let note = note_at(journal, place);
        stretch.add(panel.first, panel.second, &note)?;
        let lag = stretch.lag(panel.first, panel.second, &note);
        mark(panel, lag, &mut columns);
    }
    Ok(columns)
}
