//! Reads a whole script before anything is done.

ghost use Rattle.std.specs.Prelude.{◌≡◌, Ok, Err, IfOk, IfErr, IfSome};
ghost use Rattle.fairexec_script.specs.Scripts.{judge, script_of, drafted};
ghost use Rattle.fairexec_script.specs.Drafts.{empty_draft};
ghost use Rattle.text_bytes.specs.Taking.{IsPrompt, IsToldByRead};
ghost use Rattle.text_bytes.specs.Tries.{HasFailedSince};
ghost use Rattle.text_words.specs.Faults.{IfRead, IfText, IfUnwritten};

use crate::draft::Draft;
use crate::kind::Limited;
use crate::script::Script;
use std::alloc::Global;
use text_bytes::{Source, read_lines};
use text_words::{Cause, Fault};

/// The script that the source tells, read and judged to its end. Each line is judged before the next read.
pub fn read_script<S: Source>(alloc: Global, source: &mut S) -> Result<Script, Fault<Cause>>
    ensures ok { IfOk result (λ script.
        IfSome (S.remaining source.old) (λ text. script_of text ≡ Ok (drafted script))) }
    ensures faulty { IfErr result (IfText (λ fault.
        IfSome (S.remaining source.old) (λ text. script_of text ≡ Err fault))) }
    ensures device { IfErr result (IfUnwritten ⊥) }
    ensures prompt { IfErr result (IsPrompt judge empty_draft (S.remaining source.old) (S.remaining source.new)) }
    ensures at_once { IfErr result (IfText (λ fault.
        IsToldByRead judge empty_draft S.remaining S.tries S.reads S.interrupts source.old source.new)) }
    ensures failed { IfErr result (IfRead (HasFailedSince S.tries S.interrupts S.fails source.old source.new)) }
{
    read_lines(Limited::of(Draft::new(alloc)), source)
}
