//! Judges the text of journals.

ghost use Rattle.std.specs.Prelude.{◌≡◌, Ok, Err, IfOk, IfErr, IfSome, OnOk, OnErr, true};
ghost use Rattle.std.specs.Io.KnownBytes.{Keeps, Appends};
ghost use Rattle.text_journal.specs.JournalTexts.{journals_of, judge};
ghost use Rattle.fairexec_report.specs.Audits.{IsAudited, IsCutShort, TellsSound};
ghost use Rattle.text_journal.specs.Pages.{AppendsFront};
ghost use Rattle.text_journal.specs.Drafts.{empty_draft};
ghost use Rattle.text_bytes.specs.Taking.{IsPrompt, IsToldByRead};
ghost use Rattle.text_bytes.specs.Tries.{HasFailedSince};
ghost use Rattle.text_words.specs.Faults.{IfRead, IfText, IfUnjudged, IfUnwritten};

use crate::verdict::{is_sound, put_verdict, verdict_of};
use std::alloc::Global;
use text_bytes::{ByteSink, DeviceFault, Source, flush, write_all};
use text_journal::{JournalCause, read_journal};
use text_words::Fault;

/// Reads the text of journals, judges them, and writes the line of the verdict. The answer is false if a fault was found.
///
/// # Errors
///
/// A faulty line of the text (`Text`), a failed read (`Read`) or write (`Write`), or 1000 interrupted ones in a row, want of memory
/// (`Memory`). Nothing is written before the whole text is read and judged. After a failed write a first part of the line may be written, and nothing
/// is tried behind it.
pub fn audit_text<R: Source, S: ByteSink>(
    alloc: Global,
    source: &mut R,
    sink: &mut S,
) -> Result<bool, Fault<JournalCause>>
    ensures done { IfOk result (IsAudited (R.remaining source.old) (S.contents sink.old) (S.contents sink.new)) }
    ensures sound { result ≡ Ok true → TellsSound (R.remaining source.old) }
    ensures faulty { IfErr result (IfText (λ fault.
        IfSome (R.remaining source.old) (λ text. journals_of text ≡ Err fault))) }
    ensures prompt { IfErr result (IsPrompt judge empty_draft (R.remaining source.old) (R.remaining source.new)) }
    ensures at_once { IfErr result (IfText (λ fault.
        IsToldByRead judge empty_draft R.remaining R.tries R.reads R.interrupts source.old source.new)) }
    ensures unread { IfErr result (IfRead (HasFailedSince R.tries R.interrupts R.fails source.old source.new)) }
    ensures silent { IfErr result (IfUnjudged (Keeps (S.contents sink.old) (S.contents sink.new))) }
    ensures unwritten { IfErr result (IfUnwritten (IsCutShort (R.remaining source.old) (S.contents sink.old) (S.contents sink.new))) }
    ensures failed { IfErr result (IfUnwritten (HasFailedSince S.tries S.interrupts S.fails sink.old sink.new)) }
{
    let assembly = read_journal(alloc, source)?;
    let verdict = verdict_of(alloc, &assembly)?;
    let mut page = String::new(alloc);
    put_verdict(&verdict, &mut page)?;
    match write_line(page.as_bytes(), sink) {
        Ok(()) => Ok(is_sound(&verdict)),
        Err(_) => Err(Fault::Write),
    }
}

/// Writes the line, and tells the writer that no more comes.
fn write_line<S: ByteSink>(line: &[u8], sink: &mut S) -> Result<(), DeviceFault>
    ensures ok { OnOk result (Appends (S.contents sink.old) (S.contents sink.new) line.now) }
    ensures err { OnErr result (AppendsFront (S.contents sink.old) (S.contents sink.new) line.now) }
    ensures failed { OnErr result (HasFailedSince S.tries S.interrupts S.fails sink.old sink.new) }
{
    write_all(sink, line)?;
    flush(sink)
}
