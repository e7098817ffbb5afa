//! The statistics of a core as text.

ghost use Rattle.std.specs.Prelude.{◌≡◌, ◌++◌, ℕ, List, OnOk, string_bytes};
ghost use Rattle.fairexec_report.specs.StatTexts as spec;
ghost use Rattle.base_words.specs.Assembly.{journal_of};
ghost use Rattle.base_words.specs.Journal.{Journal as Notes};
ghost use Rattle.base_words.specs.Stats.{queue_stats};
ghost use Rattle.note_stats.specs.Walks.{KnowsSums};

use crate::line::{CoreLine, QueueLine};
use base_words::{ActorNo, CoreNo, QueueNo};
use note_journal::{Assembly, Journal};
use note_stats::Sums;
use std::alloc::{AllocError, Global};

/// Puts the statistics of all cores on the page, by number.
///
/// # Errors
///
/// `AllocError` for want of memory. A first part of the lines may then stand on the page.
pub fn put_all_stats(
    alloc: Global,
    assembly: &Assembly,
    page: &mut String,
) -> Result<(), AllocError>
    ensures { OnOk result ((text : List ℕ) × spec.IsStatsText assembly.now.cores assembly.now.burst (λ core. journal_of core assembly.now) text
        × (string_bytes page.new ≡ string_bytes page.old ++ text)) }
{
    let cores = assembly.cores();
    let burst = assembly.burst();
    for core in 0..cores {
        put_stats(
            alloc,
            CoreNo(core),
            cores,
            burst,
            assembly.journal(ActorNo(core)),
            page,
        )?;
    }
    Ok(())
}

/// Puts the line of a core on the page, and then a line for each of its queues, by number. `cores` is how many cores there are in all,
/// and `burst` how many polls a turn may have.
///
/// # Errors
///
/// `AllocError` for want of memory. A first part of the lines may then stand on the page.
pub fn put_stats(
    alloc: Global,
    core: CoreNo,
    cores: u8,
    burst: u8,
    journal: &Journal<u64>,
    page: &mut String,
) -> Result<(), AllocError>
    ensures { OnOk result ((text : List ℕ) × spec.IsCoreText core cores burst journal.now.notes text
        × (string_bytes page.new ≡ string_bytes page.old ++ text)) }
{
    let sums = Sums::of(alloc, journal, burst)?;
    put_core(core, cores, &sums, page)?;
    put_queues(core, &sums, page)
}

/// Puts the line of the core.
fn put_core(core: CoreNo, cores: u8, sums: &Sums, page: &mut String) -> Result<(), AllocError>
    ensures { OnOk result ((burst : ℕ) (journal : Notes ℕ) → KnowsSums burst sums.now journal
        → spec.IsCorePut core cores journal (string_bytes page.old) (string_bytes page.new)) }
{
    let line = CoreLine(core, sums.core_stats(cores));
    writeln!(page, "{line}")?;
    Ok(())
}

/// Puts the lines of all queues that there are, by number.
fn put_queues(core: CoreNo, sums: &Sums, page: &mut String) -> Result<(), AllocError>
    ensures { OnOk result ((burst : ℕ) (journal : Notes ℕ) → KnowsSums burst sums.now journal
        → string_bytes page.new ≡ string_bytes page.old ++ spec.queues_below 256 core burst journal) }
{
    for queue in 0..256u16 {
        put_queue(core, QueueNo(queue as u8), sums, page)?;
    }
    Ok(())
}

/// Puts the line of the queue, if there is such a queue.
fn put_queue(core: CoreNo, queue: QueueNo, sums: &Sums, page: &mut String) -> Result<(), AllocError>
    ensures { OnOk result ((burst : ℕ) (journal : Notes ℕ) → KnowsSums burst sums.now journal
        → string_bytes page.new ≡ string_bytes page.old ++ spec.queue_text core queue (queue_stats burst queue journal)) }
{
    if let Some(stats) = sums.queue_stats(queue) {
        let line = QueueLine(core, queue, stats);
        writeln!(page, "{line}")?;
    }
    Ok(())
}
