//! Writes what became of a run on threads: the outcomes, the journals and the statistics if they are wanted, and the verdict.

ghost use Rattle.std.specs.Prelude.{◌≡◌, ◌++◌, ℕ, List, IfOk, IfErr, OnOk, OnErr, string_bytes};
ghost use Rattle.std.specs.Io.KnownBytes.{Keeps, Appends};
ghost use Rattle.base_words.specs.Spelled.{IsSpelled};
ghost use Rattle.text_journal.specs.Pages.{AppendsFront};
ghost use Rattle.fairexec_report.specs.StatTexts.{IsStatsIf};
ghost use Rattle.text_bytes.specs.Tries.{HasFailedSince};
ghost use Rattle.fairexec_report.specs.Writing.{IsTold, IsCutShort, journal_if};
ghost use Rattle.text_words.specs.Faults.{IfUnwritten, IfUnjudged, IfUnread};

use crate::outcome_text::put_outcomes;
use crate::stats::put_all_stats;
use crate::verdict::{is_sound, put_verdict, verdict_of};
use note_journal::Assembly;
use std::alloc::{AllocError, Global};
use text_bytes::{ByteSink, DeviceFault, flush, write_all};
use text_journal::{JournalCause, write_journal};
use text_words::Fault;

/// Writes the outcome of each submission of the outside actor, and at last the verdict of the journals. Between them stand the text of the
/// journals, with `journal`, and behind it the statistics of all cores, with `stats`. The answer is false if the journals have a fault.
///
/// No text is read here, so the caller chooses the causes `C` of its own fault.
///
/// Everything that takes memory is made before the first byte is written, the text of the journals too.
///
/// # Errors
///
/// Want of memory (`Memory`): nothing is written then. A failed write (`Write`): a first part of the text may be written, and nothing is
/// tried behind it.
pub fn write_report<C, S: ByteSink>(
    alloc: Global,
    journal: bool,
    stats: bool,
    assembly: &Assembly,
    sink: &mut S,
) -> Result<bool, Fault<C>>
    requires { IsSpelled assembly.now }
    ensures done { IfOk result (IsTold journal stats assembly.now (S.contents sink.old) (S.contents sink.new)) }
    ensures unwritten { IfErr result (IfUnwritten (IsCutShort journal stats assembly.now (S.contents sink.old) (S.contents sink.new))) }
    ensures device { IfErr result (IfUnread ⊥) }
    ensures silent { IfErr result (IfUnjudged (Keeps (S.contents sink.old) (S.contents sink.new))) }
    ensures failed { IfErr result (IfUnwritten (HasFailedSince S.tries S.interrupts S.fails sink.old sink.new)) }
{
    let mut front = String::new(alloc);
    put_outcomes(alloc, assembly, &mut front)?;
    let verdict = verdict_of(alloc, assembly)?;
    let middle = journal_bytes(alloc, journal, assembly)?;
    let mut rear = String::new(alloc);
    put_stats_if(alloc, stats, assembly, &mut rear)?;
    put_verdict(&verdict, &mut rear)?;
    match write_parts(front.as_bytes(), middle.as_slice(), rear.as_bytes(), sink) {
        Ok(()) => Ok(is_sound(&verdict)),
        Err(_) => Err(Fault::Write),
    }
}

/// Puts the statistics of all cores on the page, if they are wanted.
fn put_stats_if(
    alloc: Global,
    stats: bool,
    assembly: &Assembly,
    page: &mut String,
) -> Result<(), AllocError>
    ensures { OnOk result ((text : List ℕ) × IsStatsIf stats assembly.now text
        × (string_bytes page.new ≡ string_bytes page.old ++ text)) }
{
    if !stats {
        return Ok(());
    }
    put_all_stats(alloc, assembly, page)
}

/// The text of the journals, if it is wanted.
fn journal_bytes(alloc: Global, journal: bool, assembly: &Assembly) -> Result<Vec<u8>, AllocError>
    requires { IsSpelled assembly.now }
    ensures { IfOk result (λ bytes. bytes.items ≡ journal_if journal assembly.now) }
{
    let mut bytes = Vec::new(alloc);
    if !journal {
        return Ok(bytes);
    }
    match write_journal::<JournalCause, Vec<u8>>(alloc, assembly, &mut bytes) {
        Ok(()) => Ok(bytes),
        Err(_) => Err(AllocError),
    }
}

/// Writes three texts, one behind another. Then it tells the writer that no more comes.
fn write_parts<S: ByteSink>(
    front: &[u8],
    middle: &[u8],
    rear: &[u8],
    sink: &mut S,
) -> Result<(), DeviceFault>
    ensures ok { OnOk result (Appends (S.contents sink.old) (S.contents sink.new)
        (front.now ++ (middle.now ++ rear.now))) }
    ensures err { OnErr result (AppendsFront (S.contents sink.old) (S.contents sink.new)
        (front.now ++ (middle.now ++ rear.now))) }
    ensures failed { OnErr result (HasFailedSince S.tries S.interrupts S.fails sink.old sink.new) }
{
    write_all(sink, front)?;
    write_all(sink, middle)?;
    write_all(sink, rear)?;
    flush(sink)
}
