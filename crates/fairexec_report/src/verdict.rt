//! What is printed of a verdict.

ghost use Rattle.std.specs.Prelude.{◌≡◌, ◌++◌, IfOk, OnOk, Some, string_bytes};
ghost use Rattle.judge_audit.specs.declared.judge.Verdict.TheVariants.{Sound};
ghost use Rattle.judge_audit.specs.Verdicts.{IsFirstBroken, IsVerdict, rule_named};
ghost use Rattle.base_words.specs.Sound.{IsSound};
ghost use Rattle.base_words.specs.Spelled.{IsSpelled};
ghost use Rattle.fairexec_report.specs.VerdictTexts as spec;

use judge_audit::{Verdict, audit};
use note_journal::Assembly;
use std::alloc::{AllocError, Global};
use std::fmt;

/// A verdict as a line, without its line feed: `sound`, or `fault actor A note L rule R`.
#[derive(Clone, Copy)]
pub struct VerdictLine(pub Verdict);

impl fmt::Display for VerdictLine {
    ghost output = { λ line. Some (spec.verdict_line line.0) };

    fn fmt<W: fmt::Write>(&self, f: &mut fmt::Formatter<W>) -> fmt::Result {
        match self.0 {
            Verdict::Sound => f.write_str("sound"),
            Verdict::Fault { actor, line, rule } => {
                let actor = actor.0;
                write!(f, "fault actor {actor} note {line} rule {rule}")
            }
        }
    }
}

/// The verdict of the journals.
pub(crate) fn verdict_of(alloc: Global, assembly: &Assembly) -> Result<Verdict, AllocError>
    ensures sound { IfOk result (λ verdict. verdict ≡ Sound → IsSpelled assembly.now × IsSound assembly.now) }
    ensures rule { IfOk result (λ verdict. IsSpelled assembly.now → IsFirstBroken assembly.now (rule_named verdict)) }
    ensures place { IfOk result (λ verdict. IsSpelled assembly.now → IsVerdict assembly.now verdict) }
    ensures only { IfOk result (λ verdict. IsSpelled assembly.now → IsSound assembly.now → verdict ≡ Sound) }
{
    match audit(alloc, assembly) {
        Ok(verdict) => Ok(verdict),
        Err(_) => Err(AllocError),
    }
}

/// Puts the line of the verdict on the page.
pub(crate) fn put_verdict(verdict: &Verdict, page: &mut String) -> Result<(), AllocError>
    ensures { OnOk result (string_bytes page.new ≡ string_bytes page.old ++ spec.verdict_text verdict.now) }
{
    let line = VerdictLine(*verdict);
    writeln!(page, "{line}")?;
    Ok(())
}

/// Whether the verdict is that the journals are sound.
pub fn is_sound(verdict: &Verdict) -> bool
    ensures { result ≡ spec.is_sound verdict.now }
{
    match verdict {
        Verdict::Sound => true,
        Verdict::Fault { .. } => false,
    }
}
