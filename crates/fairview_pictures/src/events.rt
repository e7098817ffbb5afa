//! The events of a trace, each a line.

ghost use Rattle.std.specs.Prelude.{Some};
ghost use Rattle.fairview_pictures.specs.Events as spec;

use crate::parts::{BarPlace, Micros, Step, StepLetter, TrackPlace, Truth, poll_place};
use base_words::{ActorNo, JobId, QueueNo, Shares};
use fairview_marks::{Bar, JsonName};
use std::fmt;

/// A poll: a bar on the track of its queue. The clock of its core starts at this time.
#[derive(Clone, Copy)]
pub struct PollEvent(pub ActorNo, pub u128, pub Bar);

/// A note of a submission: the word of its step and its name, on the track of notes.
#[derive(Clone, Copy)]
pub struct MarkEvent(pub Step, pub JobId, pub TrackPlace);

/// A point of the arrow that follows a submission.
#[derive(Clone, Copy)]
pub struct FlowEvent(pub Step, pub JobId, pub TrackPlace);

/// A note of a submission, with a step of its arrow.
#[derive(Clone, Copy)]
pub struct MarkEvents(pub Step, pub JobId, pub TrackPlace);

/// A poll after which its job is done, with a step of its arrow.
#[derive(Clone, Copy)]
pub struct LastPollEvents(pub ActorNo, pub u128, pub Bar);

/// The name of the track of a queue: its number and its shares.
#[derive(Clone, Copy)]
pub struct QueueEvent(pub ActorNo, pub QueueNo, pub Shares);

/// The first part of a poll's event: the name of its job, and where it stands.
#[derive(Clone, Copy)]
struct PollHead(ActorNo, u128, Bar);

/// The last part of a poll's event: how long it took, its turn, and whether its job is done.
#[derive(Clone, Copy)]
struct PollTail(Bar);

impl fmt::Display for PollHead {
    ghost output = { λ head. Some (spec.poll_head head.2.name (spec.poll_place head.0 head.1 head.2)) };

    fn fmt<W: fmt::Write>(&self, f: &mut fmt::Formatter<W>) -> fmt::Result {
        let name = JsonName(self.2.name);
        let place = BarPlace(self.0, self.1, self.2);
        write!(
            f,
            ",\n{{\"name\":\"{name}\",\"cat\":\"poll\",\"ph\":\"X\",{place}"
        )
    }
}

impl fmt::Display for PollTail {
    ghost output = { λ tail. Some (spec.poll_tail tail.0) };

    fn fmt<W: fmt::Write>(&self, f: &mut fmt::Formatter<W>) -> fmt::Result {
        let time = Micros(self.0.time as u128);
        let turn = self.0.turn;
        let done = Truth(self.0.end.is_done());
        write!(
            f,
            ",\"dur\":{time},\"args\":{{\"turn\":{turn},\"done\":{done}}}}}"
        )
    }
}

impl fmt::Display for PollEvent {
    ghost output = { λ event. Some (spec.poll_event event.0 event.1 event.2) };

    fn fmt<W: fmt::Write>(&self, f: &mut fmt::Formatter<W>) -> fmt::Result {
        let head = PollHead(self.0, self.1, self.2);
        let tail = PollTail(self.2);
        write!(f, "{head}{tail}")
    }
}

impl fmt::Display for MarkEvent {
    ghost output = { λ event. Some (spec.mark_event event.0 event.1 event.2) };

    fn fmt<W: fmt::Write>(&self, f: &mut fmt::Formatter<W>) -> fmt::Result {
        let word = self.0.word();
        let name = JsonName(self.1);
        let place = self.2;
        write!(
            f,
            ",\n{{\"name\":\"{word} {name}\",\"cat\":\"note\",\"ph\":\"X\",{place},\"dur\":0.001}}"
        )
    }
}

impl fmt::Display for FlowEvent {
    ghost output = { λ event. Some (spec.flow_event event.0 event.1 event.2) };

    fn fmt<W: fmt::Write>(&self, f: &mut fmt::Formatter<W>) -> fmt::Result {
        let step = StepLetter(self.0);
        let name = JsonName(self.1);
        let number = self.1.number;
        let place = self.2;
        write!(
            f,
            ",\n{{\"name\":\"{name}\",\"cat\":\"job\",\"ph\":\"{step}\",\"id\":{number},\"bp\":\"e\",{place}}}"
        )
    }
}

impl fmt::Display for QueueEvent {
    ghost output = { λ event. Some (spec.queue_event event.0 event.1 event.2) };

    fn fmt<W: fmt::Write>(&self, f: &mut fmt::Formatter<W>) -> fmt::Result {
        let actor = self.0.0;
        let queue = self.1.0;
        let shares = self.2.get();
        write!(
            f,
            ",\n{{\"name\":\"thread_name\",\"ph\":\"M\",\"pid\":{actor},\"tid\":{queue},\"args\":{{\"name\":\"q{queue}, {shares} shares\"}}}}"
        )
    }
}

impl fmt::Display for MarkEvents {
    ghost output = { λ events. Some (spec.mark_text events.0 events.1 events.2) };

    fn fmt<W: fmt::Write>(&self, f: &mut fmt::Formatter<W>) -> fmt::Result {
        let mark = MarkEvent(self.0, self.1, self.2);
        let flow = FlowEvent(self.0, self.1, self.2);
        write!(f, "{mark}{flow}")
    }
}

impl fmt::Display for LastPollEvents {
    ghost output = { λ events. Some (spec.last_poll_text events.0 events.1 events.2) };

    fn fmt<W: fmt::Write>(&self, f: &mut fmt::Formatter<W>) -> fmt::Result {
        let poll = PollEvent(self.0, self.1, self.2);
        let flow = FlowEvent(Step::Done, self.2.name, poll_place(self.0, self.1, self.2));
        write!(f, "{poll}{flow}")
    }
}
