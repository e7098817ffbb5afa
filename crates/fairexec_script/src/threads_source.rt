//! Reads a whole script for threads before anything is done.

ghost use Rattle.std.specs.Prelude.{◌≡◌, Ok, Err, IfOk, IfErr, IfSome};
ghost use Rattle.fairexec_script.specs.ThreadsScripts.{judge, threads_script_of, drafted};
ghost use Rattle.fairexec_script.specs.ThreadsDrafts.{empty_draft};
ghost use Rattle.text_bytes.specs.Taking.{IsPrompt, IsToldByRead};
ghost use Rattle.text_bytes.specs.Tries.{HasFailedSince};
ghost use Rattle.text_words.specs.Faults.{IfRead, IfText, IfUnwritten};

use crate::fault::ThreadsCause;
use crate::kind::Limited;
use crate::threads_draft::Draft;
use crate::threads_script::ThreadsScript;
use std::alloc::Global;
use text_bytes::{Source, read_lines};
use text_words::Fault;

/// The script for threads that the source tells, read and judged to its end. Each line is judged before the next read.
///
/// # Errors
///
/// The first faulty line and its cause (`Text`), a failed read or 1000 interrupted ones in a row (`Read`), want of memory (`Memory`).
pub fn read_threads_script<S: Source>(
    alloc: Global,
    source: &mut S,
) -> Result<ThreadsScript, Fault<ThreadsCause>>
    ensures ok { IfOk result (λ script.
        IfSome (S.remaining source.old) (λ text. threads_script_of text ≡ Ok (drafted script))) }
    ensures faulty { IfErr result (IfText (λ fault.
        IfSome (S.remaining source.old) (λ text. threads_script_of text ≡ Err fault))) }
    ensures device { IfErr result (IfUnwritten ⊥) }
    ensures prompt { IfErr result (IsPrompt judge empty_draft (S.remaining source.old) (S.remaining source.new)) }
    ensures at_once { IfErr result (IfText (λ fault.
        IsToldByRead judge empty_draft S.remaining S.tries S.reads S.interrupts source.old source.new)) }
    ensures failed { IfErr result (IfRead (HasFailedSince S.tries S.interrupts S.fails source.old source.new)) }
{
    read_lines(Limited::of(Draft::new(alloc)), source)
}
