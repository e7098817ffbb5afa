//! Exit statuses.

ghost use Rattle.std.specs.Prelude.{◌≡◌};
ghost use Rattle.text_words.specs.Statuses as spec;

use crate::fault::Fault;

/// How a call of the program ends.
#[derive(Clone, Copy, PartialEq, Eq)]
pub enum Status {
    /// All is done.
    Done,
    /// What was asked for was judged, and there is a fault in it.
    FaultFound,
    /// The text or the command line was refused.
    Refused,
    /// A read or a write failed.
    Device,
    /// There was no memory.
    Memory,
}

impl Status {
    /// The status of an answer, which is false if what was asked for was judged and has a fault.
    pub fn of<C>(answer: &Result<bool, Fault<C>>) -> Status
        ensures { result ≡ spec.status_of answer.now }
    {
        match answer {
            Ok(true) => Status::Done,
            Ok(false) => Status::FaultFound,
            Err(fault) => Status::of_fault(fault),
        }
    }

    /// The status of a fault.
    pub fn of_fault<C>(fault: &Fault<C>) -> Status
        ensures { result ≡ spec.fault_status fault.now }
    {
        match fault {
            Fault::Text { .. } => Status::Refused,
            Fault::Read => Status::Device,
            Fault::Write => Status::Device,
            Fault::Memory => Status::Memory,
        }
    }

    /// Its number, as the shell sees it.
    pub fn code(self) -> u8
        ensures { result ≡ spec.code_of self }
    {
        match self {
            Status::Done => 0,
            Status::FaultFound => 1,
            Status::Refused => 2,
            Status::Device => 3,
            Status::Memory => 4,
        }
    }
}
