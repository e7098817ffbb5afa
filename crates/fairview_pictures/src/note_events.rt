//! The events of one note.

ghost use Rattle.std.specs.Prelude.{◌≡◌, ◌++◌, ℕ, OnOk, string_bytes, length};
ghost use Rattle.base_words.specs.Journal.{Journal as Notes};
ghost use Rattle.fairview_marks.specs.Bars.{KnowsPolls};
ghost use Rattle.fairview_pictures.specs.Events.{poll_event, queue_event, mark_text, last_poll_text};
ghost use Rattle.fairview_pictures.specs.Traces as spec;

use crate::events::{LastPollEvents, MarkEvents, PollEvent, QueueEvent};
use crate::parts::{NOTES, Step, TrackPlace};
use crate::times::Times;
use base_words::{ActorNo, Note};
use fairview_marks::Polls;
use judge_view::End;
use std::alloc::AllocError;

/// Puts a note of a submission, with a step of its arrow.
fn put_mark(events: MarkEvents, page: &mut String) -> Result<(), AllocError>
    ensures { OnOk result (string_bytes page.new ≡ string_bytes page.old ++ mark_text events.0 events.1 events.2) }
{
    write!(page, "{events}")?;
    Ok(())
}

/// Puts a poll after which its job isn't done.
fn put_poll(event: PollEvent, page: &mut String) -> Result<(), AllocError>
    ensures { OnOk result (string_bytes page.new ≡ string_bytes page.old ++ poll_event event.0 event.1 event.2) }
{
    write!(page, "{event}")?;
    Ok(())
}

/// Puts a poll after which its job is done, with a step of its arrow.
fn put_last_poll(events: LastPollEvents, page: &mut String) -> Result<(), AllocError>
    ensures { OnOk result (string_bytes page.new ≡ string_bytes page.old ++ last_poll_text events.0 events.1 events.2) }
{
    write!(page, "{events}")?;
    Ok(())
}

/// Puts the name of the track of a queue.
fn put_queue(event: QueueEvent, page: &mut String) -> Result<(), AllocError>
    ensures { OnOk result (string_bytes page.new ≡ string_bytes page.old ++ queue_event event.0 event.1 event.2) }
{
    write!(page, "{event}")?;
    Ok(())
}

/// A place on the track of notes.
fn noted(actor: ActorNo, time: u128) -> TrackPlace
    ensures { result ≡ spec.noted actor time }
{
    TrackPlace {
        actor,
        track: NOTES,
        time,
    }
}

/// Puts the events of the next note, which stands at this place.
pub(crate) fn put_note(
    times: &Times,
    actor: ActorNo,
    polls: &Polls,
    place: usize,
    note: &Note<u64>,
    page: &mut String,
) -> Result<(), AllocError>
    ensures { OnOk result ((before : Notes ℕ) → KnowsPolls polls.now before → place ≡ length before
        → string_bytes page.new ≡ string_bytes page.old ++ spec.note_text times.now actor note.now before) }
{
    let clock = polls.clock();
    match *note {
        Note::Created(queue, shares) => put_queue(QueueEvent(actor, queue, shares), page),
        Note::Sent(name, _) => {
            let at = noted(actor, times.sent_time(actor, place, &clock));
            put_mark(MarkEvents(Step::Sent, name, at), page)
        }
        Note::Took(name, _) => {
            let at = noted(actor, times.core_time(&clock));
            put_mark(MarkEvents(Step::Took, name, at), page)
        }
        Note::Redeemed(name, _) => {
            let at = noted(actor, times.redeemed_time(actor, place, &clock));
            put_mark(MarkEvents(Step::Redeemed, name, at), page)
        }
        Note::Yield(name, time) => {
            let bar = polls.bar_of(name, time, End::Yield);
            put_poll(PollEvent(actor, times.start, bar), page)
        }
        Note::Park(name, time) => {
            let bar = polls.bar_of(name, time, End::Park);
            put_poll(PollEvent(actor, times.start, bar), page)
        }
        Note::Stayed(name, time) => {
            let bar = polls.bar_of(name, time, End::Stayed);
            put_poll(PollEvent(actor, times.start, bar), page)
        }
        Note::Done(name, time, _) => {
            let bar = polls.bar_of(name, time, End::Done);
            put_last_poll(LastPollEvents(actor, times.start, bar), page)
        }
        _ => Ok(()),
    }
}
