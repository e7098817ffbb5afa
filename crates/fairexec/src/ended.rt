//! How what was asked for ended, and how that is told.

ghost use Rattle.std.specs.Prelude.{◌≡◌};
ghost use Rattle.fairexec.specs.Ends.{status_ended};
ghost use Rattle.fairexec.specs.Follows.{status_unread};
ghost use Rattle.fairexec_script.specs.Faults.{status_of as threads_code};
ghost use Rattle.text_parts.specs.Faults.{bytes_status};
ghost use Rattle.text_words.specs.Statuses.{status_of};
ghost use Rattle.text_words.specs.declared.status.Status.TheVariants as status;

use fairexec_script::{ThreadsFault, status_of as threads_status};
use judge_parts::Unread;
use text_feed::{FeedCause, FeedError};
use text_journal::JournalCause;
use text_parts::BytesFault;
use text_parts::parts::PartsCause;
use text_words::{Cause, CauseWords, Fault, Status};

/// What it came to.
#[derive(Drop)]
pub(crate) enum Ended {
    /// A script was run, or a text was printed; or not, for this reason.
    Ran(Result<bool, Fault<Cause>>),
    /// A script was run on threads, or not.
    OnThreads(Result<bool, ThreadsFault>),
    /// A text was judged, or not.
    Judged(Result<bool, Fault<JournalCause>>),
    /// Bytes have no text, for this reason.
    NoText(BytesFault),
    /// Parts are too many to be judged as a whole. A house writes another note than this one of the actor.
    Differs { actor: u8, note: u64 },
    /// The parts of an actor couldn't be read on.
    Unread(Unread),
}

/// Says on standard error what went wrong, if anything did. Where even that can't be said, the status is the same.
pub(crate) fn told<C: Eprint>(console: &C, ended: Ended) -> Status
    ensures { result ≡ status_ended ended }
{
    match ended {
        Ended::Ran(answer) => answered(console, answer),
        Ended::OnThreads(answer) => ran(console, answer),
        Ended::Judged(answer) => answered(console, answer),
        Ended::NoText(fault) => refused(console, fault),
        Ended::Differs { actor, note } => differs(console, actor, note),
        Ended::Unread(why) => unread(console, &why),
    }
}

/// What is told of a text.
fn answered<C: Eprint, W: CauseWords + Drop>(console: &C, answer: Result<bool, Fault<W>>) -> Status
    ensures { result ≡ status_of answer }
{
    if let Err(fault) = &answer {
        let _ = eprintln!(console; "{fault}");
    }
    Status::of(&answer)
}

/// What is told of a script for threads.
fn ran<C: Eprint>(console: &C, answer: Result<bool, ThreadsFault>) -> Status
    ensures { result ≡ threads_code answer }
{
    if let Err(fault) = &answer {
        let _ = eprintln!(console; "{fault}");
    }
    threads_status(&answer)
}

/// What is told of bytes without a text.
fn refused<C: Eprint>(console: &C, fault: BytesFault) -> Status
    ensures { result ≡ bytes_status fault }
{
    let _ = eprintln!(console; "{fault}");
    fault.status()
}

/// What is told of parts that differ and are too many to be judged as a whole.
fn differs<C: Eprint>(console: &C, actor: u8, note: u64) -> Status
    ensures { result ≡ status.Memory }
{
    let _ = eprintln!(console;
        "out of memory: a house writes another note than actor {actor} note {note}"
    );
    Status::Memory
}

/// The cause of a fault in the parts of an actor.
fn cause_of(cause: FeedCause) -> PartsCause {
    match cause {
        FeedCause::Part(cause) => PartsCause::Part(cause),
        FeedCause::Actor => PartsCause::Actor,
        FeedCause::Before => PartsCause::Before,
    }
}

/// What is told of the parts of an actor that couldn't be read on.
fn unread<C: Eprint>(console: &C, why: &Unread) -> Status
    ensures { result ≡ status_unread why.now.error }
{
    let Unread {
        actor,
        behind,
        error,
    } = *why;
    match error {
        FeedError::Faulty(cause) => {
            let words = cause_of(cause).words();
            let _ = eprintln!(console; "part{actor} behind note {behind}: {words}");
            Status::Refused
        }
        FeedError::Read => refused(console, BytesFault::Read),
        FeedError::Memory => refused(console, BytesFault::Memory),
    }
}
