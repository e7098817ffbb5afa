//! How the lines of a script of any kind are read.

ghost use Rattle.std.specs.Prelude.{ℕ, List, Option, Result, Ok, Err, None, ◌≡◌, ◌≤◌, ◌+◌, ◌↔◌, IfOk, IfErr, OnOk, OnErr, IfSome, IsNone};
ghost use Rattle.text_bytes.specs.Faults.{IfCause, IfFaulty};
ghost use Rattle.text_words.specs.declared.fault.Cause as any;
ghost use Rattle.fairexec_script.specs.Drafts as drafts;
ghost use Rattle.fairexec_script.specs.Ends as spec;
ghost use Rattle.fairexec_script.specs.TextLimits.{most_lines};

use crate::limits::{LONGEST_LINE, MOST_LINES};
use std::marker::Model;
use text_bytes::fault::stopped;
use text_bytes::{LineDraft, Stop};
use text_words::{Cause, Fault};

/// A script of some kind as far as its lines are judged.
///
/// `told` says what a cause of any script is in this kind, and `with_text` what a line that isn't too long makes of a draft. `size` is what the
/// lines told of the size, and `steps` how many of them let something happen. `makes` tells a whole script by the draft that it ends with.
pub trait ScriptDraft: Drop {
    /// What can be wrong with a line.
    type Why: Copy;

    /// A whole script.
    type Script: Drop;

    ghost told: { any.Cause → Self.Why };

    ghost with_text: { Self → List ℕ → Result Self Self.Why };

    ghost size: { Self → Option (ℕ × ℕ) };

    ghost steps: { Self → ℕ };

    ghost makes: { Self.Script → Self → Type 0 };

    /// What a cause of any script is in this kind.
    fn of_any(cause: Cause) -> Self::Why
        ensures { result ≡ told cause };

    /// Takes one line that isn't too long.
    fn take_text(&mut self, text: &[u8]) -> Result<(), Stop<Self::Why>>
        ensures ok { OnOk result (with_text self.old text.now ≡ Ok self.new) }
        ensures faulty { IfErr result (IfCause (λ cause. with_text self.old text.now ≡ Err cause)) }
        ensures one_more { OnOk result (steps self.new ≤ steps self.old + 1) }
        ensures err { OnErr result (self.new ≡ self.old) };

    /// The whole script, if the lines end here; None if none told the size.
    fn finish_script(self) -> Option<Self::Script>
        requires { steps self ≤ most_lines }
        ensures whole { IfSome result (λ script. makes script self) }
        ensures none { IsNone result ↔ (size self ≡ None) };
}

/// A draft of some kind of script that takes no more lines, and no longer ones, than a script may have. A contract sees the draft.
#[derive(Drop)]
pub struct Limited<D> {
    draft: D,
}

impl<D> Model for Limited<D> {
    ghost Value = { D };

    ghost view = { λ limited. limited.draft };

    ghost invariant = { λ limited. Unit {0} };
}

impl<D> Limited<D> {
    /// This draft with the limits of a script.
    pub fn of(draft: D) -> Limited<D>
        ensures { result ≡ draft }
    {
        Limited { draft }
    }
}

impl<D: ScriptDraft> LineDraft for Limited<D> {
    type Cause = D::Why;

    type Whole = D::Script;

    ghost use Rattle.std.specs.Prelude.{◌+◌, ◌-◌};
    ghost use Rattle.fairexec_script.specs.Ends.{judge_of, IsBefore};
    ghost use Rattle.fairexec_script.specs.TextLimits.{most_lines, longest_line};

    const LONGEST: usize = LONGEST_LINE;

    ghost LONGEST = { longest_line };

    ghost judge = { judge_of D.told D.with_text D.size };

    ghost makes = { D.makes };

    ghost fits = { λ number draft. IsBefore number (D.steps draft) };

    ghost lines_left = { λ number draft. most_lines + 1 - number };

    fn take(&mut self, number: u32, line: &[u8]) -> Result<(), Stop<D::Why>> {
        if number > MOST_LINES {
            return Err(Stop::Cause(D::of_any(Cause::TooManyLines)));
        }
        self.draft.take_text(line)
    }

    fn too_long(&self, number: u32) -> D::Why {
        if number > MOST_LINES {
            D::of_any(Cause::TooManyLines)
        } else {
            D::of_any(Cause::LineTooLong)
        }
    }

    fn finish(mut self, number: u32, rest: &[u8]) -> Result<D::Script, Fault<D::Why>> {
        if rest.is_empty() {
            return end(self.draft, number);
        }
        match self.take(number, rest) {
            Ok(()) => end(self.draft, number + 1),
            Err(stop) => Err(stopped(number, stop)),
        }
    }
}

/// The script, if the text ends before the line of this number.
fn end<D: ScriptDraft>(draft: D, number: u32) -> Result<D::Script, Fault<D::Why>>
    requires { spec.IsBefore number (D.steps draft) }
    ensures ok { IfOk result (λ script. (spec.whole D.told number draft (D.size draft) ≡ Ok draft) × D.makes script draft) }
    ensures faulty { IfErr result (IfFaulty (λ fault. spec.whole D.told number draft (D.size draft) ≡ Err fault)) }
{
    match draft.finish_script() {
        Some(script) => Ok(script),
        None => Err(Fault::Text {
            line: number,
            cause: D::of_any(Cause::CoresLineExpected),
        }),
    }
}

/// Whether the line is empty or begins with `#`.
pub fn is_skipped(line: &[u8]) -> bool
    ensures { result ≡ drafts.is_skipped line.now }
{
    match line {
        [] => true,
        [first, ..] => *first == b'#',
    }
}
