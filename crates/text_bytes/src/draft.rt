//! What the lines of a text become.

ghost use Rattle.std.specs.Prelude.{ℕ, List, ◌≡◌, ◌≤◌, ◌<◌, ◌+◌, Ok, Err, IfOk, IfErr, OnOk, length};
ghost use Rattle.text_bytes.specs.Faults.{IfCause, IfFaulty};
ghost use Rattle.text_bytes.specs.Texts.{Judge};

use crate::fault::Stop;
use text_words::Fault;

/// The most bytes of a line that any draft takes.
pub const MOST_BYTES: usize = 2048;

/// What the lines of a text become, as far as they are judged.
///
/// `judge` says what comes of a line and of the text's end. `fits` says that the line of a number may come next, and `lines_left` bounds
/// the lines that still may. `makes` tells the whole by the draft that the text ends with.
pub trait LineDraft: Drop {
    /// What can be wrong with a line.
    type Cause: Copy;

    /// What a text is read as.
    type Whole: Drop;

    /// The most bytes of a line before its line feed, at most `MOST_BYTES`.
    const LONGEST: usize;

    ghost LONGEST: { ℕ };

    ghost judge: { Judge Self Self.Cause };

    ghost makes: { Self.Whole → Self → Type 0 };

    ghost fits: { ℕ → Self → Type 0 };

    ghost lines_left: { ℕ → Self → ℕ };

    /// Takes a line that ended and isn't too long, by its number from 1. After an error nothing is said of the draft, and it gets no more lines.
    fn take(&mut self, number: u32, line: &[u8]) -> Result<(), Stop<Self::Cause>>
        requires fits { fits number self.old }
        requires short { length line.now ≤ judge.longest }
        ensures ok { OnOk result (judge.judged self.old number line.now ≡ Ok self.new) }
        ensures faulty { IfErr result (IfCause (λ cause. judge.judged self.old number line.now ≡ Err cause)) }
        ensures next { OnOk result (fits (number + 1) self.new) }
        ensures fewer { OnOk result (lines_left (number + 1) self.new + 1 ≤ lines_left number self.old) };

    /// What is wrong with a line that is too long, whether it ends or not.
    fn too_long(&self, number: u32) -> Self::Cause
        ensures ended { (line : List ℕ) → judge.longest < length line → judge.judged self.now number line ≡ Err result }
        ensures cut { (line : List ℕ) → judge.longest < length line
            → judge.at_end self.now number line ≡ Err (number, result) };

    /// The whole, where the text ends with these bytes behind its last line feed.
    fn finish(self, number: u32, rest: &[u8]) -> Result<Self::Whole, Fault<Self::Cause>>
        requires fits { fits number self }
        requires short { length rest.now ≤ judge.longest }
        ensures ok { IfOk result (λ whole. (draft : Self) × (judge.at_end self number rest.now ≡ Ok draft) × makes whole draft) }
        ensures faulty { IfErr result (IfFaulty (λ fault. judge.at_end self number rest.now ≡ Err fault)) };
}
