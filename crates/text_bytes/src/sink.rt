//! What a text is written to.

ghost use Rattle.std.specs.Prelude.{ℕ, List, Option, None, ◌≤◌, ◌<◌, length, take};
ghost use Rattle.std.specs.Io.KnownBytes.{Appends, Keeps};
ghost use Rattle.text_bytes.specs.Tries.{IfMade, IfNotMade, IfInterrupted, IfFailed, IsOneMore};

use crate::once::Once;
use std::io::{ErrorKind, Write};

/// What a text is written to. A contract sees the bytes that were written, if they are known, and what one write or flush may do.
///
/// `tries` is how many writes and flushes were tried, if the sink counts them. `interrupts` says that one that is interrupted leads from one
/// state to another. `fails` says the same of one that fails.
pub trait ByteSink {
    ghost contents: { Self → Option (List ℕ) };

    ghost tries: { Self → Option ℕ };

    ghost interrupts: { Self → Self → Type 0 };

    ghost fails: { Self → Self → Type 0 };

    /// One write of the first of these bytes, one at least if there are any.
    fn write_once(&mut self, bytes: &[u8]) -> Once<usize>
        ensures some { IfMade result (λ count. 0 < length bytes.now → 0 < count) }
        ensures within { IfMade result (λ count. count ≤ length bytes.now) }
        ensures bytes { IfMade result (λ count. Appends (contents self.old) (contents self.new) (take count bytes.now)) }
        ensures tried { IsOneMore (tries self.old) (tries self.new) }
        ensures kept { IfNotMade result (Keeps (contents self.old) (contents self.new)) }
        ensures interrupted { IfInterrupted result (interrupts self.old self.new) }
        ensures failed { IfFailed result (fails self.old self.new) };

    /// One flush: the writer is told that no more comes.
    fn flush_once(&mut self) -> Once<()>
        ensures tried { IsOneMore (tries self.old) (tries self.new) }
        ensures kept { Keeps (contents self.old) (contents self.new) }
        ensures interrupted { IfInterrupted result (interrupts self.old self.new) }
        ensures failed { IfFailed result (fails self.old self.new) };
}

/// Any writer. What its writes may do is not known. A write that takes nothing counts as failed.
impl<W: Write> ByteSink for W {
    ghost contents = { W.contents };

    ghost tries = { λ sink. None };

    ghost interrupts = { λ old new. Unit {0} };

    ghost fails = { λ old new. Unit {0} };

    fn write_once(&mut self, bytes: &[u8]) -> Once<usize> {
        match self.write(bytes) {
            Ok(0) => Once::Failed,
            Ok(count) => Once::Made(count),
            Err(error) => not_made(error.kind()),
        }
    }

    fn flush_once(&mut self) -> Once<()> {
        match self.flush() {
            Ok(()) => Once::Made(()),
            Err(error) => not_made(error.kind()),
        }
    }
}

/// What became of a write or flush that wasn't made.
fn not_made<T>(kind: ErrorKind) -> Once<T>
    ensures { IfMade result (λ what. ⊥) }
{
    if kind == ErrorKind::Interrupted {
        Once::Interrupted
    } else {
        Once::Failed
    }
}
