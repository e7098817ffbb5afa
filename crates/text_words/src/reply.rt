//! Events that made no note, as lines of text.

ghost use Rattle.std.specs.Prelude.{◌++◌, Some, codes, decimal};
ghost use Rattle.text_words.specs.Notes.{name_text};
ghost use Rattle.text_words.specs.Replies as spec;

use crate::name::NameText;
use base_words::{ActorNo, CoreNo, JobId};
use std::fmt;

/// The actor that makes the step of an event, the core or actor at the other end of its link, and the number of the submission
/// that it names. What an event doesn't have is 0.
#[derive(Clone, Copy)]
pub struct EventEnds {
    pub actor: ActorNo,
    pub other: u8,
    pub number: u64,
}

/// What the line of an event that made no note says of it.
#[derive(Clone, Copy)]
pub enum Quiet {
    /// A turn without work.
    Idle,
    /// A turn when all turns are used.
    NoTurnLeft,
    /// A send refused, since the link holds as much as it may.
    Full,
    /// A send refused, since the gate is shut, with its final count.
    Closed(u64),
    /// A send refused, since the last number was given.
    NoNumberLeft,
    /// There is nothing to deliver.
    Empty,
    /// There is nothing to collect.
    Nothing,
    /// The outcome of the submission isn't collected yet.
    Pending,
    /// The submission was redeemed or detached before.
    Gone,
    /// The actor was given no such submission.
    Unknown,
    /// A gate isn't shut, since its core isn't closed.
    NotClosed,
    /// A gate was shut before.
    AlreadyShut,
}

/// The line of an event that made no note, without its line feed.
#[derive(Clone, Copy)]
pub struct ReplyLine(pub EventEnds, pub Quiet);

impl fmt::Display for ReplyLine {
    ghost output = { λ line. Some (spec.reply_line line.0 line.1) };

    fn fmt<W: fmt::Write>(&self, f: &mut fmt::Formatter<W>) -> fmt::Result {
        let ends = self.0;
        match self.1 {
            Quiet::Idle => ActorText(ends, " idle").fmt(f),
            Quiet::NoTurnLeft => ActorText(ends, " spent").fmt(f),
            Quiet::Full => LinkText(ends, " full ").fmt(f),
            Quiet::Closed(count) => {
                let link = LinkText(ends, " closed ");
                write!(f, "{link} {count}")
            }
            Quiet::NoNumberLeft => LinkText(ends, " spent ").fmt(f),
            Quiet::Empty => LinkText(ends, " empty ").fmt(f),
            Quiet::Nothing => LinkText(ends, " none ").fmt(f),
            Quiet::Pending => TicketText(ends, " pending ").fmt(f),
            Quiet::Gone => TicketText(ends, " gone ").fmt(f),
            Quiet::Unknown => TicketText(ends, " unknown ").fmt(f),
            Quiet::NotClosed => ActorText(ends, " notclosed").fmt(f),
            Quiet::AlreadyShut => LinkText(ends, " alreadyshut ").fmt(f),
        }
    }
}

/// An actor and what is said of it.
#[derive(Clone, Copy)]
struct ActorText(EventEnds, &'static str);

impl fmt::Display for ActorText {
    ghost output = { λ text. Some (decimal text.0.actor ++ text.1.now) };

    fn fmt<W: fmt::Write>(&self, f: &mut fmt::Formatter<W>) -> fmt::Result {
        let actor = self.0.actor.0;
        let word = self.1;
        write!(f, "{actor}{word}")
    }
}

/// An actor, what is said of it, and who is at the other end.
#[derive(Clone, Copy)]
struct LinkText(EventEnds, &'static str);

impl fmt::Display for LinkText {
    ghost output = { λ text. Some (decimal text.0.actor ++ text.1.now ++ decimal text.0.other) };

    fn fmt<W: fmt::Write>(&self, f: &mut fmt::Formatter<W>) -> fmt::Result {
        let actor = self.0.actor.0;
        let word = self.1;
        let other = self.0.other;
        write!(f, "{actor}{word}{other}")
    }
}

/// An actor, and what is said of its submission.
#[derive(Clone, Copy)]
struct TicketText(EventEnds, &'static str);

impl fmt::Display for TicketText {
    ghost output = { λ text. Some (decimal text.0.actor ++ text.1.now ++ name_text (spec.name_of text.0)) };

    fn fmt<W: fmt::Write>(&self, f: &mut fmt::Formatter<W>) -> fmt::Result {
        let actor = self.0.actor.0;
        let word = self.1;
        let name = NameText(JobId {
            from: self.0.actor,
            to: CoreNo(self.0.other),
            number: self.0.number,
        });
        write!(f, "{actor}{word}{name}")
    }
}
