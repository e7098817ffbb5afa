//! Reads the text of journals, and writes what is asked for of them.

ghost use Rattle.std.specs.Prelude.{◌≡◌, Err, IfErr, IfSome, OnOk, OnErr};
ghost use Rattle.std.specs.Io.KnownBytes.{Keeps, Appends};
ghost use Rattle.text_journal.specs.Drafts.{empty_draft};
ghost use Rattle.text_journal.specs.JournalTexts.{journals_of, judge};
ghost use Rattle.text_journal.specs.Pages.{AppendsFront};
ghost use Rattle.text_bytes.specs.Taking.{IsToldByRead};
ghost use Rattle.text_bytes.specs.Tries.{HasFailedSince};
ghost use Rattle.fairview_report.specs.Faults.{IfCoreless, IfRead, IfText, IfUnshown, IfUnwritten};
ghost use Rattle.fairview_report.specs.Views.{IsPromptly, IsViewed, IsCutShort, LacksCore};

use crate::fault::ViewFault;
use crate::pages::page_of;
use crate::share::Form;
use base_words::JobId;
use fairview_pictures::Cut;
use std::alloc::Global;
use text_bytes::{ByteSink, DeviceFault, Source, flush, write_all};

/// What is asked for of journals.
#[derive(Clone, Copy)]
pub enum View {
    /// How long jobs waited and ran. It says whether the bars are of ASCII.
    Waits { plain: bool },
    /// What each queue got and what it should have got.
    Shares { form: Form },
    /// What all journals tell of one submission.
    Story { name: JobId },
    /// A row for each poll.
    Polls,
    /// The picture of the polls, as SVG. It says which cores and turns are drawn.
    Gantt { cut: Cut },
    /// How far each two queues were apart, beside the proved bound. It says whether as text or as a picture.
    Lag { text: bool },
    /// The run in the trace event format.
    Trace,
}

/// Reads the text of journals, and writes what is asked for of them.
///
/// # Errors
///
/// A faulty line of the text (`Text`), a core that is asked for and isn't there (`Core`), a failed read (`Read`) or write (`Write`), or
/// 1000 interrupted ones in a row, want of memory (`Memory`). Nothing is written before the whole text is read and all that takes memory
/// is made. After a failed write a first part may be written, and nothing is tried behind it.
pub fn view_text<R: Source, S: ByteSink>(
    alloc: Global,
    view: View,
    source: &mut R,
    sink: &mut S,
) -> Result<(), ViewFault>
    ensures done { OnOk result (IsViewed view (R.remaining source.old) (S.contents sink.old) (S.contents sink.new)) }
    ensures faulty { IfErr result (IfText (λ fault.
        IfSome (R.remaining source.old) (λ text. journals_of text ≡ Err fault))) }
    ensures prompt { IfErr result (IsPromptly judge empty_draft (R.remaining source.old) (R.remaining source.new)) }
    ensures at_once { IfErr result (IfText (λ fault.
        IsToldByRead judge empty_draft R.remaining R.tries R.reads R.interrupts source.old source.new)) }
    ensures unread { IfErr result (IfRead (HasFailedSince R.tries R.interrupts R.fails source.old source.new)) }
    ensures coreless { IfErr result (IfCoreless (λ core. IfSome (R.remaining source.old) (LacksCore view core))) }
    ensures silent { IfErr result (IfUnshown (Keeps (S.contents sink.old) (S.contents sink.new))) }
    ensures unwritten { IfErr result (IfUnwritten (IsCutShort view (R.remaining source.old) (S.contents sink.old) (S.contents sink.new))) }
    ensures failed { IfErr result (IfUnwritten (HasFailedSince S.tries S.interrupts S.fails sink.old sink.new)) }
{
    let page = match page_of(alloc, view, source) {
        Ok(page) => page,
        Err(fault) => return Err(fault),
    };
    match write_out(page.as_bytes(), sink) {
        Ok(()) => Ok(()),
        Err(_) => Err(ViewFault::Write),
    }
}

/// Writes all of the bytes, and tells the writer that no more comes.
fn write_out<S: ByteSink>(bytes: &[u8], sink: &mut S) -> Result<(), DeviceFault>
    ensures ok { OnOk result (Appends (S.contents sink.old) (S.contents sink.new) bytes.now) }
    ensures err { OnErr result (AppendsFront (S.contents sink.old) (S.contents sink.new) bytes.now) }
    ensures failed { OnErr result (HasFailedSince S.tries S.interrupts S.fails sink.old sink.new) }
{
    write_all(sink, bytes)?;
    flush(sink)
}
