//! How what was asked for ended, and how that is told.

ghost use Rattle.std.specs.Prelude.{◌≡◌};
ghost use Rattle.fairview.specs.Ends.{status_ended};
ghost use Rattle.fairview_report.specs.Faults.{status_of};
ghost use Rattle.text_parts.specs.Faults.{bytes_status};
ghost use Rattle.text_words.specs.declared.status.Status.TheVariants as status;

use crate::refusal::Refusal;
use fairview_report::ViewFault;
use fairview_report::fault::status_of;
use text_parts::BytesFault;
use text_words::Status;

/// What it came to.
#[derive(Drop)]
pub(crate) enum Ended {
    /// A text was shown, or not, for this reason.
    Shown(Result<(), ViewFault>),
    /// Bytes have no text, for this reason.
    Bytes(BytesFault),
    /// A word of the command line is refused.
    Word(Refusal),
}

/// Says on standard error what went wrong, if anything did. Where even that can't be said, the status is the same.
pub(crate) fn told<C: Eprint>(console: &C, ended: Ended) -> Status
    ensures { result ≡ status_ended ended }
{
    match ended {
        Ended::Shown(answer) => shown(console, answer),
        Ended::Bytes(fault) => bytes_refused(console, fault),
        Ended::Word(refusal) => word_refused(console, refusal),
    }
}

/// What is told of a text.
fn shown<C: Eprint>(console: &C, answer: Result<(), ViewFault>) -> Status
    ensures { result ≡ status_of answer }
{
    if let Err(fault) = &answer {
        let _ = eprintln!(console; "{fault}");
    }
    status_of(&answer)
}

/// What is told of bytes without a text.
fn bytes_refused<C: Eprint>(console: &C, fault: BytesFault) -> Status
    ensures { result ≡ bytes_status fault }
{
    let _ = eprintln!(console; "{fault}");
    fault.status()
}

/// What is told of a word.
fn word_refused<C: Eprint>(console: &C, refusal: Refusal) -> Status
    ensures { result ≡ status.Refused }
{
    let _ = eprintln!(console; "error: {refusal}");
    Status::Refused
}
