//! What can be wrong with the text of journals.

ghost use Rattle.text_journal.specs.Faults.{cause_text};

use text_words::CauseWords;

/// What is wrong with a line. Of several causes the first in this order is told.
#[derive(Clone, Copy, PartialEq, Eq, Debug)]
pub enum JournalCause {
    /// It is the last line, and has no line feed.
    Cut,
    /// It is the first line, and isn't `journal 1` or `journal 2`.
    Header,
    /// It is the second line, and isn't a `cores` line of its form within the limits.
    Cores,
    /// Its first word is no actor, or an actor before that of the line before.
    Actor,
    /// The words behind the actor say no note that it may write, or the line has more than 128 bytes.
    Note,
    /// It has a note more of its actor than there may be.
    TooMany,
    /// The text ends before it, and no line was `end`.
    EndMissing,
    /// It stands behind `end`.
    AfterEnd,
}

impl CauseWords for JournalCause {
    ghost cause_words = { cause_text };

    fn words(&self) -> &'static str {
        match self {
            JournalCause::Cut => "cut",
            JournalCause::Header => "header",
            JournalCause::Cores => "cores",
            JournalCause::Actor => "actor",
            JournalCause::Note => "note",
            JournalCause::TooMany => "too many",
            JournalCause::EndMissing => "end missing",
            JournalCause::AfterEnd => "after end",
        }
    }
}
