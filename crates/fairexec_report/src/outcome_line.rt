//! The line of one submission.

ghost use Rattle.std.specs.Prelude.{Some};
ghost use Rattle.fairexec_report.specs.Outcomes as spec;

use base_words::{JobId, OutcomeNote};
use std::fmt;
use text_words::name::{NameText, OutcomeText};

/// What became of a submission, as a line without its line feed: `NAME OUTCOME`.
#[derive(Clone, Copy)]
pub struct OutcomeLine(pub JobId, pub OutcomeNote<u64>);

impl fmt::Display for OutcomeLine {
    ghost output = { λ line. Some (spec.outcome_line line.0 line.1) };

    fn fmt<W: fmt::Write>(&self, f: &mut fmt::Formatter<W>) -> fmt::Result {
        let name = NameText(self.0);
        let outcome = OutcomeText(self.1);
        write!(f, "{name} {outcome}")
    }
}
