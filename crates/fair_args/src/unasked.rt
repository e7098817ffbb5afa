//! Why the words of a command line ask for nothing.

ghost use Rattle.clap.specs.Words.{kind_of};
ghost use Rattle.fair_args.specs.Refusals.{IsAnswerTo};

use clap::error::ErrorKind;

/// Why nothing is to be done.
#[derive(Clone, Copy)]
pub enum Unasked {
    /// Help or the version was asked for, and is printed.
    Told,
    /// The words are refused, and standard error has the reason.
    Mistake,
    /// Help or the version couldn't be written.
    Write,
    /// There was no memory.
    Memory,
}

/// Tells why the words aren't read, and answers what that is.
pub fn unasked_by<R: Print + Eprint>(rt: &R, error: &clap::Error) -> Unasked
    ensures { IsAnswerTo (kind_of error.now) result }
{
    if error.kind() == ErrorKind::OutOfMemory {
        return Unasked::Memory;
    }
    let printed = error.print(rt);
    if error.use_stderr() {
        return Unasked::Mistake;
    }
    match printed {
        Ok(()) => Unasked::Told,
        Err(_) => Unasked::Write,
    }
}
