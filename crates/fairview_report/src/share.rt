//! What each queue got and what it should have got, as text.

ghost use Rattle.std.specs.Prelude.{◌≡◌, ◌++◌, ℕ, codes, OnOk, string_bytes};
ghost use Rattle.base_words.specs.Assembly.{Assembly};
ghost use Rattle.base_words.specs.Journal.{Journal as Notes};
ghost use Rattle.judge_view.specs.Shares.{queue_share};
ghost use Rattle.judge_view.specs.Watches.{KnowsShares};
ghost use Rattle.fairview_report.specs.ShareTexts as spec;
ghost use Rattle.fairview_report.specs.Told.{AreShares};
ghost use Rattle.fairview_marks.specs.Lists.{lists_below};

use crate::page::{put_bar, put_right};
use crate::share_line::ShareLine;
use crate::walks::Walked;
use base_words::{CoreNo, QueueNo};
use judge_view::{CoreShares, QueueShare};
use std::alloc::{AllocError, Global};

/// How the table is written.
#[derive(Clone, Copy)]
pub enum Form {
    /// With bars of block characters.
    Blocks,
    /// With bars of ASCII.
    Plain,
    /// As rows with commas, and no bars.
    Csv,
}

/// Puts a row for each queue of each core, by number, behind a first line that names the columns.
///
/// # Errors
///
/// `AllocError` for want of memory. A first part of the text may then stand on the page.
pub fn put_shares(
    alloc: Global,
    form: Form,
    walked: &Walked<CoreShares>,
    page: &mut String,
) -> Result<(), AllocError>
    ensures { OnOk result ((assembly : Assembly ℕ) → AreShares walked.now.cores walked.now.burst walked.now.each.items assembly
        → string_bytes page.new ≡ string_bytes page.old ++ spec.shares_text form assembly) }
{
    page.push_str(head_text(form))?;
    put_cores(alloc, form, walked, page)
}

/// The first line.
fn head_text(form: Form) -> &'static str
    ensures { result.now ≡ spec.head_text form }
{
    match form {
        Form::Csv => "core,queue,shares,due,got,selected,most_waiting,finished,returned\n",
        _ => "core queue shares         due         got selected waiting finished returned\n",
    }
}

/// Puts the rows of all cores.
fn put_cores(
    alloc: Global,
    form: Form,
    walked: &Walked<CoreShares>,
    page: &mut String,
) -> Result<(), AllocError>
    ensures { OnOk result ((assembly : Assembly ℕ) → AreShares walked.now.cores walked.now.burst walked.now.each.items assembly
        → string_bytes page.new ≡ string_bytes page.old ++ spec.cores_text form assembly) }
{
    for core in 0..walked.cores {
        put_core(alloc, form, CoreNo(core), &walked.each[core as usize], page)?;
    }
    Ok(())
}

/// Puts the rows of a core's queues.
fn put_core(
    alloc: Global,
    form: Form,
    core: CoreNo,
    shares: &CoreShares,
    page: &mut String,
) -> Result<(), AllocError>
    ensures { OnOk result ((burst : ℕ) (journal : Notes ℕ) → KnowsShares burst shares.now journal
        → string_bytes page.new ≡ string_bytes page.old ++ spec.core_text form burst core journal) }
{
    put_queues(alloc, form, core, shares.busy(), shares, page)
}

/// Puts the rows of all queues that there are.
fn put_queues(
    alloc: Global,
    form: Form,
    core: CoreNo,
    busy: u128,
    shares: &CoreShares,
    page: &mut String,
) -> Result<(), AllocError>
    ensures { OnOk result ((burst : ℕ) (journal : Notes ℕ) → KnowsShares burst shares.now journal
        → string_bytes page.new ≡ string_bytes page.old ++ spec.queues_text form burst core busy journal) }
{
    for queue in 0..256u16 {
        let queue = QueueNo(queue as u8);
        put_row(alloc, form, core, busy, queue, shares.queue(queue), page)?;
    }
    Ok(())
}

/// Puts the row of a queue, if there is such a queue.
fn put_row(
    alloc: Global,
    form: Form,
    core: CoreNo,
    busy: u128,
    queue: QueueNo,
    share: Option<QueueShare>,
    page: &mut String,
) -> Result<(), AllocError>
    ensures { OnOk result (string_bytes page.new ≡ string_bytes page.old ++ spec.row_text form core busy queue share) }
{
    let Some(share) = share else {
        return Ok(());
    };
    match form {
        Form::Blocks => put_table_row(alloc, false, core, busy, queue, &share, page),
        Form::Plain => put_table_row(alloc, true, core, busy, queue, &share, page),
        Form::Csv => put_csv_row(ShareLine(core, queue, share), page),
    }
}

/// Puts the row of a queue with commas.
fn put_csv_row(line: ShareLine, page: &mut String) -> Result<(), AllocError>
    ensures { OnOk result (string_bytes page.new ≡ string_bytes page.old ++ (spec.csv_row line.0 line.1 line.2 ++ codes "\n")) }
{
    writeln!(page, "{line}")?;
    Ok(())
}

/// Puts the row of a queue in the table.
fn put_table_row(
    alloc: Global,
    plain: bool,
    core: CoreNo,
    busy: u128,
    queue: QueueNo,
    share: &QueueShare,
    page: &mut String,
) -> Result<(), AllocError>
    ensures { OnOk result (string_bytes page.new ≡ string_bytes page.old ++ spec.table_row plain core busy queue share.now) }
{
    put_numbers(alloc, core, queue, share, page)?;
    put_counts(alloc, share, page)?;
    page.push_str(" ")?;
    put_bar(alloc, plain, 20, share.stats.runtime, busy, page)?;
    page.push_str("\n")
}

/// Puts the first columns: core, queue, shares, what it was due and what it got.
fn put_numbers(
    alloc: Global,
    core: CoreNo,
    queue: QueueNo,
    share: &QueueShare,
    page: &mut String,
) -> Result<(), AllocError>
    ensures { OnOk result (string_bytes page.new ≡ string_bytes page.old ++ spec.numbers_text core queue share.now) }
{
    put_right(alloc, 4, core.0 as u128, page)?;
    put_right(alloc, 6, queue.0 as u128, page)?;
    put_right(alloc, 7, share.stats.shares.get() as u128, page)?;
    put_right(alloc, 12, share.due / 1000, page)?;
    put_right(alloc, 12, share.stats.runtime, page)
}

/// Puts the other columns: picks, jobs that waited at most, that are done and that were handed back.
fn put_counts(alloc: Global, share: &QueueShare, page: &mut String) -> Result<(), AllocError>
    ensures { OnOk result (string_bytes page.new ≡ string_bytes page.old ++ spec.counts_text share.now) }
{
    put_right(alloc, 9, share.stats.selected as u128, page)?;
    put_right(alloc, 8, share.most_waiting as u128, page)?;
    put_right(alloc, 9, share.stats.finished as u128, page)?;
    put_right(alloc, 9, share.stats.returned as u128, page)
}
