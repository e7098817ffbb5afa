//! What can be wrong with a text, and with a run.

ghost use Rattle.std.specs.Prelude.{ℕ, List, ◌≡◌, Some};
ghost use Rattle.text_words.specs.Causes.{cause_text};

use std::alloc::{AllocError, AllocFailed};
use std::fmt;

/// What is wrong with a line of a script. Of several causes the first in this order is told.
#[derive(Clone, Copy, PartialEq, Eq)]
pub enum Cause {
    /// It is line 4097.
    TooManyLines,
    /// It has more bytes than a line may have.
    LineTooLong,
    /// The first line that says something doesn't begin with `cores`, or no line says anything.
    CoresLineExpected,
    /// The first word is none that a script has here.
    UnknownWord,
    /// A `queue` line stands after a line of another kind.
    QueueLineTooLate,
    /// The line has too few or too many words, or an empty one.
    WrongNumberOfWords,
    /// A word isn't spelled as it has to be.
    BadWord,
    /// A number is too small or too large.
    OutOfRange,
    /// It is the 256th `queue` line of its core.
    TooManyQueues,
}

impl CauseWords for Cause {
    ghost cause_words = { cause_text };

    fn words(&self) -> &'static str {
        match self {
            Cause::TooManyLines => "too many lines",
            Cause::LineTooLong => "line too long",
            Cause::CoresLineExpected => "cores line expected",
            Cause::UnknownWord => "unknown word",
            Cause::QueueLineTooLate => "queue line too late",
            Cause::WrongNumberOfWords => "wrong number of words",
            Cause::BadWord => "bad word",
            Cause::OutOfRange => "out of range",
            Cause::TooManyQueues => "too many queues",
        }
    }
}

/// What can be wrong with a line of a text of some kind.
pub trait CauseWords {
    ghost cause_words: { Self → List ℕ };

    /// The words that are printed of it.
    fn words(&self) -> &'static str
        ensures { result.now ≡ cause_words self.now };
}

/// Why a call that reads a text and writes another stops.
#[derive(Clone, Copy, PartialEq, Eq)]
pub enum Fault<C> {
    /// A line of the text, by its number from 1, is faulty.
    Text { line: u32, cause: C },
    /// The text couldn't be read.
    Read,
    /// The output couldn't be written.
    Write,
    /// There is no memory.
    Memory,
}

/// What is printed of a fault.
impl<C: CauseWords> fmt::Display for Fault<C> {
    ghost use Rattle.text_words.specs.Faults.{fault_text};

    ghost output = { λ fault. Some (fault_text C.cause_words fault) };

    fn fmt<W: fmt::Write>(&self, f: &mut fmt::Formatter<W>) -> fmt::Result {
        match self {
            Fault::Text { line, cause } => {
                let words = cause.words();
                write!(f, "line {line}: {words}")
            }
            Fault::Read => f.write_str("read failed"),
            Fault::Write => f.write_str("write failed"),
            Fault::Memory => f.write_str("out of memory"),
        }
    }
}

impl<C> From<AllocError> for Fault<C> {
    ghost use Rattle.text_words.specs.declared.fault.Fault.TheVariants.{Memory};

    ghost from_gives = { λ _ fault. fault ≡ Memory };

    fn from(_error: AllocError) -> Fault<C> {
        Fault::Memory
    }
}

impl<C, T: Drop> From<AllocFailed<T>> for Fault<C> {
    ghost use Rattle.text_words.specs.declared.fault.Fault.TheVariants.{Memory};

    ghost from_gives = { λ _ fault. fault ≡ Memory };

    fn from(_failed: AllocFailed<T>) -> Fault<C> {
        Fault::Memory
    }
}
