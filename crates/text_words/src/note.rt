//! The notes of a journal as lines of text.

ghost use Rattle.std.specs.Prelude.{Some};
ghost use Rattle.text_words.specs.Notes as spec;

use crate::parts::{
    AnsweredText, ClosedText, DoneText, HandedText, JobText, PickText, QueueText, SentText,
    ShutText, TimedText, ToldText, TookText, TurnedText,
};
use crate::word::mode_word;
use base_words::{ActorNo, Note};
use std::fmt;

/// One note of an actor's journal as a line, without its line feed: `ACTOR NOTE`.
#[derive(Clone, Copy)]
pub struct NoteLine(pub ActorNo, pub Note<u64>);

/// A note as text.
#[derive(Clone, Copy)]
pub struct NoteText(pub Note<u64>);

impl fmt::Display for NoteLine {
    ghost output = { λ line. Some (spec.note_line line.0 line.1) };

    fn fmt<W: fmt::Write>(&self, f: &mut fmt::Formatter<W>) -> fmt::Result {
        let actor = self.0.0;
        let note = NoteText(self.1);
        write!(f, "{actor} {note}")
    }
}

// Each arm is one call: a function that writes the pieces of many arms takes long to prove.
impl fmt::Display for NoteText {
    ghost output = { λ text. Some (spec.note_text text.0) };

    fn fmt<W: fmt::Write>(&self, f: &mut fmt::Formatter<W>) -> fmt::Result {
        match self.0 {
            Note::Sent(name, order) => SentText(name, order).fmt(f),
            Note::Took(name, queue) => TookText(name, queue).fmt(f),
            Note::Back(name, reason) => HandedText("back ", name, reason).fmt(f),
            Note::Answered(name, answer) => AnsweredText(name, answer).fmt(f),
            Note::Created(queue, shares) => QueueText("queue q", queue, shares).fmt(f),
            Note::SharesSet(queue, shares) => QueueText("shares q", queue, shares).fmt(f),
            Note::QueueClosed(queue, mode) => ClosedText(queue, mode).fmt(f),
            Note::CoreClosed(mode) => {
                let mode = mode_word(mode);
                write!(f, "coreclosed {mode}")
            }
            Note::Woken(name) => JobText("woken ", name).fmt(f),
            Note::Pick(queue, runtime) => PickText(queue, runtime).fmt(f),
            Note::Start(name) => JobText("start ", name).fmt(f),
            Note::Resume(name) => JobText("resume ", name).fmt(f),
            Note::Yield(name, time) => TimedText("yield ", name, time).fmt(f),
            Note::Park(name, time) => TimedText("park ", name, time).fmt(f),
            Note::Stayed(name, time) => TimedText("stayed ", name, time).fmt(f),
            Note::Done(name, time, out) => DoneText(name, time, out).fmt(f),
            Note::Returned(name, reason) => HandedText("returned ", name, reason).fmt(f),
            Note::Turned(queue, time) => TurnedText(queue, time).fmt(f),
            Note::Shut(from, count) => ShutText(from, count).fmt(f),
            Note::Collected(name, outcome) => ToldText("collected ", name, outcome).fmt(f),
            Note::Redeemed(name, outcome) => ToldText("redeemed ", name, outcome).fmt(f),
            Note::Detached(name) => JobText("detached ", name).fmt(f),
        }
    }
}
