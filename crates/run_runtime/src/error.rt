//! Why a runtime didn't start, or didn't finish.

ghost use Rattle.std.specs.Prelude.{◌≡◌, Some};
ghost use Rattle.run_runtime.specs.Errors.{finish_text, start_text};

pub use actor_caller::SubmitError;
use base_words::CoreNo;
use std::error::Error;
use std::fmt;

/// Why no runtime was started, tried in this order.
#[derive(Clone, Copy, PartialEq, Eq, Debug, Drop)]
pub enum StartError {
    /// A number is outside its limits, a queue is of no core or one too many, or there is no clock or gate for each core.
    BadConfig,
    /// There was no memory.
    Memory,
    /// A thread could not be made.
    Thread,
}

impl fmt::Display for StartError {
    ghost output = { λ error. Some (start_text error) };

    fn fmt<W: fmt::Write>(&self, f: &mut fmt::Formatter<W>) -> fmt::Result {
        match self {
            StartError::BadConfig => f.write_str("the configuration is out of range"),
            StartError::Memory => f.write_str("out of memory"),
            StartError::Thread => f.write_str("a thread could not be made"),
        }
    }
}

impl Error for StartError {}

/// Why a runtime did not finish. It comes back.
#[derive(Drop)]
pub enum FinishError<R> {
    /// This is the first core that the caller didn't close.
    NotClosed(CoreNo, R),
}

impl<R> fmt::Display for FinishError<R> {
    ghost output = { λ error. Some (finish_text error) };

    fn fmt<W: fmt::Write>(&self, f: &mut fmt::Formatter<W>) -> fmt::Result {
        match self {
            FinishError::NotClosed(core, _) => {
                let core = core.0;
                write!(f, "core {core} is not closed")
            }
        }
    }
}

/// The text without the runtime.
impl<R> fmt::Debug for FinishError<R> {
    fn fmt<W: fmt::Write>(&self, f: &mut fmt::Formatter<W>) -> fmt::Result {
        fmt::Display::fmt(self, f)
    }
}

impl<R: Drop> Error for FinishError<R> {}
