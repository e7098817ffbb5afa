//! The parts of an event.

ghost use Rattle.std.specs.Prelude.{◌≡◌, Some};
ghost use Rattle.fairview_pictures.specs.Events as spec;

use base_words::{ActorNo, QueueNo};
use fairview_marks::Bar;
use std::fmt;

/// The track of notes, behind those of the queues.
pub const NOTES: u16 = 256;

/// The track of polls whose queue no note tells.
pub const NO_QUEUE: u16 = 257;

/// Nanoseconds as microseconds, with three places.
#[derive(Clone, Copy)]
pub struct Micros(pub u128);

/// The place of an event: the actor, the track, and the time in nanoseconds.
#[derive(Clone, Copy)]
pub struct TrackPlace {
    pub actor: ActorNo,
    pub track: u16,
    pub time: u128,
}

/// The track of a queue.
pub fn track_of(queue: Option<QueueNo>) -> u16
    ensures { result ≡ spec.track_of queue }
{
    match queue {
        Some(queue) => queue.0 as u16,
        None => NO_QUEUE,
    }
}

/// The place of the bar of a poll, if the clock of its core starts at this time.
pub fn poll_place(actor: ActorNo, start: u128, bar: Bar) -> TrackPlace
    ensures { result ≡ spec.poll_place actor start bar }
{
    TrackPlace {
        actor,
        track: track_of(bar.queue),
        time: start.saturating_add(bar.start),
    }
}

/// A step of a submission that a trace shows.
#[derive(Clone, Copy)]
pub enum Step {
    Sent,
    Took,
    Done,
    Redeemed,
}

impl Step {
    /// The word of its note.
    pub fn word(self) -> &'static str
        ensures { result.now ≡ spec.step_word self }
    {
        match self {
            Step::Sent => "sent",
            Step::Took => "took",
            Step::Done => "done",
            Step::Redeemed => "redeemed",
        }
    }
}

/// What a step is of the arrow that follows its submission: its first point, one between, or its last.
#[derive(Clone, Copy)]
pub struct StepLetter(pub Step);

impl fmt::Display for StepLetter {
    ghost output = { λ text. Some (spec.step_letter text.0) };

    fn fmt<W: fmt::Write>(&self, f: &mut fmt::Formatter<W>) -> fmt::Result {
        match self.0 {
            Step::Sent => f.write_str("s"),
            Step::Took => f.write_str("t"),
            Step::Done => f.write_str("t"),
            Step::Redeemed => f.write_str("f"),
        }
    }
}

/// The place of the bar of a poll, if the clock of its core starts at this time.
#[derive(Clone, Copy)]
pub struct BarPlace(pub ActorNo, pub u128, pub Bar);

impl fmt::Display for BarPlace {
    ghost output = { λ text. Some (spec.place_text (spec.poll_place text.0 text.1 text.2)) };

    fn fmt<W: fmt::Write>(&self, f: &mut fmt::Formatter<W>) -> fmt::Result {
        poll_place(self.0, self.1, self.2).fmt(f)
    }
}

/// `true` or `false`.
#[derive(Clone, Copy)]
pub struct Truth(pub bool);

impl fmt::Display for Truth {
    ghost output = { λ text. Some (spec.truth text.0) };

    fn fmt<W: fmt::Write>(&self, f: &mut fmt::Formatter<W>) -> fmt::Result {
        if self.0 {
            f.write_str("true")
        } else {
            f.write_str("false")
        }
    }
}

impl fmt::Display for Micros {
    ghost output = { λ time. Some (spec.micros time.0) };

    fn fmt<W: fmt::Write>(&self, f: &mut fmt::Formatter<W>) -> fmt::Result {
        let whole = self.0 / 1000;
        let tenths = self.0 / 100 % 10;
        let hundredths = self.0 / 10 % 10;
        let thousandths = self.0 % 10;
        write!(f, "{whole}.{tenths}{hundredths}{thousandths}")
    }
}

impl fmt::Display for TrackPlace {
    ghost output = { λ place. Some (spec.place_text place) };

    fn fmt<W: fmt::Write>(&self, f: &mut fmt::Formatter<W>) -> fmt::Result {
        let actor = self.actor.0;
        let track = self.track;
        let time = Micros(self.time);
        write!(f, "\"pid\":{actor},\"tid\":{track},\"ts\":{time}")
    }
}
