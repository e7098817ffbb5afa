//! Why a word of the command line is refused.

ghost use Rattle.std.specs.Prelude.{Some};
ghost use Rattle.fairview.specs.Shows.{refusal_text};

use std::fmt;

/// What is wrong with a word, or with two.
#[derive(Clone, Copy)]
pub enum Refusal {
    /// It names no submission.
    Name,
    /// It is no number of a core.
    Core,
    /// It is no number of a turn.
    Turn,
    /// The first turn is above the last one.
    Order,
}

/// What is printed of a refusal.
impl fmt::Display for Refusal {
    ghost output = { λ refusal. Some (refusal_text refusal) };

    fn fmt<W: fmt::Write>(&self, f: &mut fmt::Formatter<W>) -> fmt::Result {
        match self {
            Refusal::Name => f.write_str(
                "NAME is no name of a submission: sender, receiver and number, as '0>1#2'",
            ),
            Refusal::Core => f.write_str("--core wants the number of a core, from 0 to 15"),
            Refusal::Turn => f.write_str(
                "--from and --to want the number of a turn, from 0 to 18446744073709551615",
            ),
            Refusal::Order => f.write_str("--from is above --to"),
        }
    }
}
