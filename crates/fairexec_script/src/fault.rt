//! What stops the running of a script on threads, and the exit status of that.

ghost use Rattle.std.specs.Prelude.{◌≡◌, Some};
ghost use Rattle.fairexec_script.specs.Faults as spec;

use std::alloc::AllocError;
use std::fmt;
use text_words::{Cause, CauseWords, Fault, Status};

/// What is wrong with a line of a script for threads.
#[derive(Clone, Copy, PartialEq, Eq)]
pub enum ThreadsCause {
    /// It is wrong in any script.
    Line(Cause),
    /// Only other scripts have such a line, or another actor than the outside one sends the order.
    NotForThreads,
    /// It is an order more to its core than one below the capacity.
    TooManyForCap,
    /// With its job there are more polls than all jobs together may have.
    TooManyPolls,
}

impl CauseWords for ThreadsCause {
    ghost cause_words = { spec.cause_text };

    fn words(&self) -> &'static str {
        match self {
            ThreadsCause::Line(cause) => cause.words(),
            ThreadsCause::NotForThreads => "not for threads",
            ThreadsCause::TooManyForCap => "too many for cap",
            ThreadsCause::TooManyPolls => "too many polls",
        }
    }
}

/// Why a script isn't run on threads, or not to its end.
#[derive(Clone, Copy, PartialEq, Eq)]
pub enum ThreadsFault {
    /// What stops any call.
    Of(Fault<ThreadsCause>),
    /// A thread couldn't be made.
    Thread,
}

/// What is printed of a fault.
impl fmt::Display for ThreadsFault {
    ghost output = { λ fault. Some (spec.fault_text fault) };

    fn fmt<W: fmt::Write>(&self, f: &mut fmt::Formatter<W>) -> fmt::Result {
        match self {
            ThreadsFault::Of(fault) => fault.fmt(f),
            ThreadsFault::Thread => f.write_str("no thread"),
        }
    }
}

impl From<Fault<ThreadsCause>> for ThreadsFault {
    ghost use Rattle.fairexec_script.specs.declared.fault.ThreadsFault.TheVariants.{Of};

    ghost from_gives = { λ fault why. why ≡ Of fault };

    fn from(fault: Fault<ThreadsCause>) -> ThreadsFault {
        ThreadsFault::Of(fault)
    }
}

impl From<AllocError> for ThreadsFault {
    ghost use Rattle.text_words.specs.declared.fault.Fault.TheVariants.{Memory};
    ghost use Rattle.fairexec_script.specs.declared.fault.ThreadsFault.TheVariants.{Of};

    ghost from_gives = { λ _ why. why ≡ Of Memory };

    fn from(_error: AllocError) -> ThreadsFault {
        ThreadsFault::Of(Fault::Memory)
    }
}

/// The exit status of an answer, which is false if the journals have a fault.
pub fn status_of(answer: &Result<bool, ThreadsFault>) -> Status
    ensures { result ≡ spec.status_of answer.now }
{
    match answer {
        Ok(true) => Status::Done,
        Ok(false) => Status::FaultFound,
        Err(ThreadsFault::Of(fault)) => Status::of_fault(fault),
        Err(ThreadsFault::Thread) => Status::Memory,
    }
}
