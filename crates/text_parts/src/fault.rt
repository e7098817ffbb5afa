//! Why the bytes of a house don't become a text, and what is printed of it.

ghost use Rattle.std.specs.Prelude.{◌≡◌, Some};
ghost use Rattle.text_parts.specs.Faults as spec;

use crate::part::PartCause;
use crate::parts::PartsCause;
use std::alloc::AllocError;
use std::fmt;
use text_words::{CauseWords, Status};

impl CauseWords for PartsCause {
    ghost use Rattle.text_parts.specs.Faults.{cause_text};

    ghost cause_words = { cause_text };

    fn words(&self) -> &'static str {
        match self {
            PartsCause::House => "head",
            PartsCause::Part(cause) => part_words(*cause),
            PartsCause::Actor => "actor",
            PartsCause::Before => "before",
            PartsCause::TooMany => "too many",
            PartsCause::Note => "note",
        }
    }
}

/// The words that are printed of a faulty part.
fn part_words(cause: PartCause) -> &'static str
    ensures { result.now ≡ spec.part_text cause }
{
    match cause {
        PartCause::Cut => "cut",
        PartCause::Form => "form",
        PartCause::Sum => "sum",
        PartCause::Notes => "notes",
    }
}

/// Why a call that reads the journals of a house as bytes stops.
#[derive(Clone, Copy)]
pub enum BytesFault {
    /// From this byte on they are faulty. The first byte is 0 here; what is printed counts from 1, as lines do.
    Faulty { place: u64, cause: PartsCause },
    /// They couldn't be read.
    Read,
    /// The output couldn't be written.
    Write,
    /// There is no memory.
    Memory,
}

impl BytesFault {
    /// The exit status of a program that tells this fault.
    pub fn status(&self) -> Status
        ensures { result ≡ spec.bytes_status self.now }
    {
        match self {
            BytesFault::Faulty { .. } => Status::Refused,
            BytesFault::Read => Status::Device,
            BytesFault::Write => Status::Device,
            BytesFault::Memory => Status::Memory,
        }
    }
}

/// What is printed of a fault.
impl fmt::Display for BytesFault {
    ghost output = { λ fault. Some (spec.fault_text fault) };

    fn fmt<W: fmt::Write>(&self, f: &mut fmt::Formatter<W>) -> fmt::Result {
        match self {
            BytesFault::Faulty { place, cause } => {
                let byte = u128::from(*place) + 1;
                let words = cause.words();
                write!(f, "byte {byte}: {words}")
            }
            BytesFault::Read => f.write_str("read failed"),
            BytesFault::Write => f.write_str("write failed"),
            BytesFault::Memory => f.write_str("out of memory"),
        }
    }
}

impl From<AllocError> for BytesFault {
    ghost use Rattle.text_parts.specs.declared.fault.BytesFault.TheVariants.{Memory};

    ghost from_gives = { λ _ fault. fault ≡ Memory };

    fn from(_error: AllocError) -> BytesFault {
        BytesFault::Memory
    }
}
