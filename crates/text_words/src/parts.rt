//! The notes by their parts, each a function of its own.
//!
//! Notes of one shape share a part, whatever their word. A part is written by one `write!`, so what it puts out is said once,
//! field by field.

ghost use Rattle.std.specs.Prelude.{◌++◌, Some, codes, decimal};
ghost use Rattle.base_words.specs.declared.note.Note.TheVariants as note;
ghost use Rattle.text_words.specs.Notes as spec;

use crate::name::{AnswerText, NameText, OrderText, OutcomeText};
use crate::word::{mode_word, reason_word};
use base_words::{ActorNo, Answer, JobId, Mode, Order, OutcomeNote, QueueNo, Reason, Shares};
use std::fmt;

/// A word and a name.
#[derive(Clone, Copy)]
pub(crate) struct JobText(pub(crate) &'static str, pub(crate) JobId);

impl fmt::Display for JobText {
    ghost output = { λ text. Some (text.0.now ++ spec.name_text text.1) };

    fn fmt<W: fmt::Write>(&self, f: &mut fmt::Formatter<W>) -> fmt::Result {
        let word = self.0;
        let name = NameText(self.1);
        write!(f, "{word}{name}")
    }
}

/// A word, a name and a reason.
#[derive(Clone, Copy)]
pub(crate) struct HandedText(pub(crate) &'static str, pub(crate) JobId, pub(crate) Reason);

impl fmt::Display for HandedText {
    ghost output = { λ text. Some (text.0.now ++ spec.name_text text.1 ++ codes " " ++ spec.reason_text text.2) };

    fn fmt<W: fmt::Write>(&self, f: &mut fmt::Formatter<W>) -> fmt::Result {
        let word = self.0;
        let name = NameText(self.1);
        let reason = reason_word(self.2);
        write!(f, "{word}{name} {reason}")
    }
}

/// A word, a name and an outcome.
#[derive(Clone, Copy)]
pub(crate) struct ToldText(
    pub(crate) &'static str,
    pub(crate) JobId,
    pub(crate) OutcomeNote<u64>,
);

impl fmt::Display for ToldText {
    ghost output = { λ text. Some (text.0.now ++ spec.name_text text.1 ++ codes " " ++ spec.outcome_text text.2) };

    fn fmt<W: fmt::Write>(&self, f: &mut fmt::Formatter<W>) -> fmt::Result {
        let word = self.0;
        let name = NameText(self.1);
        let outcome = OutcomeText(self.2);
        write!(f, "{word}{name} {outcome}")
    }
}

/// A word, a name and a time.
#[derive(Clone, Copy)]
pub(crate) struct TimedText(pub(crate) &'static str, pub(crate) JobId, pub(crate) u64);

impl fmt::Display for TimedText {
    ghost output = { λ text. Some (text.0.now ++ spec.name_text text.1 ++ codes " " ++ decimal text.2) };

    fn fmt<W: fmt::Write>(&self, f: &mut fmt::Formatter<W>) -> fmt::Result {
        let word = self.0;
        let name = NameText(self.1);
        let time = self.2;
        write!(f, "{word}{name} {time}")
    }
}

/// A word, a queue and its shares.
#[derive(Clone, Copy)]
pub(crate) struct QueueText(
    pub(crate) &'static str,
    pub(crate) QueueNo,
    pub(crate) Shares,
);

impl fmt::Display for QueueText {
    ghost output = { λ text. Some (text.0.now ++ decimal text.1 ++ codes " " ++ decimal text.2) };

    fn fmt<W: fmt::Write>(&self, f: &mut fmt::Formatter<W>) -> fmt::Result {
        let word = self.0;
        let queue = self.1.0;
        let shares = self.2.get();
        write!(f, "{word}{queue} {shares}")
    }
}

/// `sent NAME ORDER`
#[derive(Clone, Copy)]
pub(crate) struct SentText(pub(crate) JobId, pub(crate) Order<()>);

impl fmt::Display for SentText {
    ghost output = { λ text. Some (spec.note_text (note.Sent text.0 text.1)) };

    fn fmt<W: fmt::Write>(&self, f: &mut fmt::Formatter<W>) -> fmt::Result {
        let name = NameText(self.0);
        let order = OrderText(self.1);
        write!(f, "sent {name} {order}")
    }
}

/// `took NAME qQ`
#[derive(Clone, Copy)]
pub(crate) struct TookText(pub(crate) JobId, pub(crate) QueueNo);

impl fmt::Display for TookText {
    ghost output = { λ text. Some (spec.note_text (note.Took text.0 text.1)) };

    fn fmt<W: fmt::Write>(&self, f: &mut fmt::Formatter<W>) -> fmt::Result {
        let name = NameText(self.0);
        let queue = self.1.0;
        write!(f, "took {name} q{queue}")
    }
}

/// `answered NAME ANSWER`
#[derive(Clone, Copy)]
pub(crate) struct AnsweredText(pub(crate) JobId, pub(crate) Answer);

impl fmt::Display for AnsweredText {
    ghost output = { λ text. Some (spec.note_text (note.Answered text.0 text.1)) };

    fn fmt<W: fmt::Write>(&self, f: &mut fmt::Formatter<W>) -> fmt::Result {
        let name = NameText(self.0);
        let answer = AnswerText(self.1);
        write!(f, "answered {name} {answer}")
    }
}

/// `closed qQ MODE`
#[derive(Clone, Copy)]
pub(crate) struct ClosedText(pub(crate) QueueNo, pub(crate) Mode);

impl fmt::Display for ClosedText {
    ghost output = { λ text. Some (spec.note_text (note.QueueClosed text.0 text.1)) };

    fn fmt<W: fmt::Write>(&self, f: &mut fmt::Formatter<W>) -> fmt::Result {
        let queue = self.0.0;
        let mode = mode_word(self.1);
        write!(f, "closed q{queue} {mode}")
    }
}

/// `pick qQ at VR`
#[derive(Clone, Copy)]
pub(crate) struct PickText(pub(crate) QueueNo, pub(crate) u128);

impl fmt::Display for PickText {
    ghost output = { λ text. Some (spec.note_text (note.Pick text.0 text.1)) };

    fn fmt<W: fmt::Write>(&self, f: &mut fmt::Formatter<W>) -> fmt::Result {
        let queue = self.0.0;
        let runtime = self.1;
        write!(f, "pick q{queue} at {runtime}")
    }
}

/// `done NAME t = v`
#[derive(Clone, Copy)]
pub(crate) struct DoneText(pub(crate) JobId, pub(crate) u64, pub(crate) u64);

impl fmt::Display for DoneText {
    ghost output = { λ text. Some (spec.note_text (note.Done text.0 text.1 text.2)) };

    fn fmt<W: fmt::Write>(&self, f: &mut fmt::Formatter<W>) -> fmt::Result {
        let name = NameText(self.0);
        let time = self.1;
        let out = self.2;
        write!(f, "done {name} {time} = {out}")
    }
}

/// `turned qQ T`
#[derive(Clone, Copy)]
pub(crate) struct TurnedText(pub(crate) QueueNo, pub(crate) u64);

impl fmt::Display for TurnedText {
    ghost output = { λ text. Some (spec.note_text (note.Turned text.0 text.1)) };

    fn fmt<W: fmt::Write>(&self, f: &mut fmt::Formatter<W>) -> fmt::Result {
        let queue = self.0.0;
        let time = self.1;
        write!(f, "turned q{queue} {time}")
    }
}

/// `shut s COUNT`
#[derive(Clone, Copy)]
pub(crate) struct ShutText(pub(crate) ActorNo, pub(crate) u64);

impl fmt::Display for ShutText {
    ghost output = { λ text. Some (spec.note_text (note.Shut text.0 text.1)) };

    fn fmt<W: fmt::Write>(&self, f: &mut fmt::Formatter<W>) -> fmt::Result {
        let from = self.0.0;
        let count = self.1;
        write!(f, "shut {from} {count}")
    }
}
