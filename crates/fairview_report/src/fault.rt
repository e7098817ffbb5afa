//! Why nothing is shown, and the exit status of the answer.

ghost use Rattle.std.specs.Prelude.{◌≡◌, Some};
ghost use Rattle.fairview_report.specs.Faults as spec;

use base_words::CoreNo;
use std::alloc::AllocError;
use std::fmt;
use text_journal::JournalCause;
use text_words::{CauseWords, Fault, Status};

/// Why nothing is shown of a text, or not all of it.
#[derive(Clone, Copy, PartialEq, Eq, Debug)]
pub enum ViewFault {
    /// A line of the text, by its number from 1, is faulty.
    Text { line: u32, cause: JournalCause },
    /// A core is asked for that isn't there.
    Core(CoreNo),
    /// The text couldn't be read.
    Read,
    /// The output couldn't be written.
    Write,
    /// There is no memory.
    Memory,
}

/// What is printed of a fault.
impl fmt::Display for ViewFault {
    ghost output = { λ fault. Some (spec.fault_text fault) };

    fn fmt<W: fmt::Write>(&self, f: &mut fmt::Formatter<W>) -> fmt::Result {
        match self {
            ViewFault::Text { line, cause } => {
                let words = cause.words();
                write!(f, "line {line}: {words}")
            }
            ViewFault::Core(core) => {
                let core = core.0;
                write!(f, "there is no core {core}")
            }
            ViewFault::Read => f.write_str("read failed"),
            ViewFault::Write => f.write_str("write failed"),
            ViewFault::Memory => f.write_str("out of memory"),
        }
    }
}

impl From<AllocError> for ViewFault {
    ghost use Rattle.fairview_report.specs.declared.fault.ViewFault.TheVariants.{Memory};

    ghost from_gives = { λ _ fault. fault ≡ Memory };

    fn from(_error: AllocError) -> ViewFault {
        ViewFault::Memory
    }
}

impl From<Fault<JournalCause>> for ViewFault {
    ghost use Rattle.fairview_report.specs.Faults.{fault_of};

    ghost from_gives = { λ fault why. why ≡ fault_of fault };

    fn from(fault: Fault<JournalCause>) -> ViewFault {
        match fault {
            Fault::Text { line, cause } => ViewFault::Text { line, cause },
            Fault::Read => ViewFault::Read,
            Fault::Write => ViewFault::Write,
            Fault::Memory => ViewFault::Memory,
        }
    }
}

/// The exit status of an answer.
pub fn status_of(answer: &Result<(), ViewFault>) -> Status
    ensures { result ≡ spec.status_of answer.now }
{
    match answer {
        Ok(()) => Status::Done,
        Err(ViewFault::Text { .. }) => Status::Refused,
        Err(ViewFault::Core(_)) => Status::Refused,
        Err(ViewFault::Read) => Status::Device,
        Err(ViewFault::Write) => Status::Device,
        Err(ViewFault::Memory) => Status::Memory,
    }
}
