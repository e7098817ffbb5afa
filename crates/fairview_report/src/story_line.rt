//! The line of one note of a story.

ghost use Rattle.std.specs.Prelude.{Some};
ghost use Rattle.fairview_report.specs.StoryTexts as spec;

use base_words::ActorNo;
use judge_view::{Chapter, CoreTime};
use std::fmt;
use text_words::note::NoteText;

/// A note of a story as a line, without its line feed: its actor, its place, the clock, how far that went since the note before it in the story, the note.
#[derive(Clone, Copy)]
pub struct ChapterLine(pub ActorNo, pub Chapter);

/// The place of a note: its actor, and its number in the journal.
#[derive(Clone, Copy)]
struct PlaceText(ActorNo, Chapter);

/// A clock, and how far it went since an earlier one.
#[derive(Clone, Copy)]
struct ClockText(CoreTime, CoreTime);

impl fmt::Display for PlaceText {
    ghost output = { λ text. Some (spec.place_text text.0 text.1) };

    fn fmt<W: fmt::Write>(&self, f: &mut fmt::Formatter<W>) -> fmt::Result {
        let actor = self.0.0;
        let place = self.1.place;
        write!(f, "actor {actor} note {place}")
    }
}

impl fmt::Display for ClockText {
    ghost output = { λ text. Some (spec.clock_text text.0 text.1) };

    fn fmt<W: fmt::Write>(&self, f: &mut fmt::Formatter<W>) -> fmt::Result {
        let turn = self.1.turns;
        let turns = self.1.turns.saturating_sub(self.0.turns);
        let now = self.1.time;
        let time = self.1.time.saturating_sub(self.0.time);
        write!(f, "turn {turn} +{turns} at {now} +{time} ns")
    }
}

impl fmt::Display for ChapterLine {
    ghost output = { λ line. Some (spec.chapter_line line.0 line.1) };

    fn fmt<W: fmt::Write>(&self, f: &mut fmt::Formatter<W>) -> fmt::Result {
        let place = PlaceText(self.0, self.1);
        let clock = ClockText(self.1.from, self.1.clock);
        let note = NoteText(self.1.note);
        write!(f, "{place} {clock}: {note}")
    }
}
