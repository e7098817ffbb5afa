//! The events of one actor.

ghost use Rattle.std.specs.Prelude.{◌≡◌, ◌++◌, OnOk, Some, string_bytes};
ghost use Rattle.fairview_pictures.specs.Traces as spec;

use crate::note_events::put_note;
use crate::times::Times;
use base_words::ActorNo;
use fairview_marks::Polls;
use note_facts::note_at;
use note_journal::Journal;
use std::alloc::{AllocError, Global};
use std::fmt;

/// The name of a core.
#[derive(Clone, Copy)]
struct CoreEvent(ActorNo);

/// The name of the outside actor.
#[derive(Clone, Copy)]
struct OutsideEvent(ActorNo);

impl fmt::Display for CoreEvent {
    ghost output = { λ event. Some (spec.core_event event.0) };

    fn fmt<W: fmt::Write>(&self, f: &mut fmt::Formatter<W>) -> fmt::Result {
        let actor = self.0.0;
        write!(
            f,
            ",\n{{\"name\":\"process_name\",\"ph\":\"M\",\"pid\":{actor},\"args\":{{\"name\":\"core {actor}\"}}}}"
        )
    }
}

impl fmt::Display for OutsideEvent {
    ghost output = { λ event. Some (spec.outside_event event.0) };

    fn fmt<W: fmt::Write>(&self, f: &mut fmt::Formatter<W>) -> fmt::Result {
        let actor = self.0.0;
        write!(
            f,
            ",\n{{\"name\":\"process_name\",\"ph\":\"M\",\"pid\":{actor},\"args\":{{\"name\":\"outside\"}}}}"
        )
    }
}

/// Puts the name of an actor.
fn put_name(actor: ActorNo, outside: bool, page: &mut String) -> Result<(), AllocError>
    ensures { OnOk result (string_bytes page.new ≡ string_bytes page.old ++ spec.actor_event actor outside) }
{
    if outside {
        let event = OutsideEvent(actor);
        write!(page, "{event}")?;
    } else {
        let event = CoreEvent(actor);
        write!(page, "{event}")?;
    }
    Ok(())
}

/// Puts the events of all notes of an actor.
fn put_notes(
    alloc: Global,
    times: &Times,
    actor: ActorNo,
    journal: &Journal<u64>,
    page: &mut String,
) -> Result<(), AllocError>
    ensures { OnOk result (string_bytes page.new ≡ string_bytes page.old ++ spec.notes_text times.now actor journal.now.notes) }
{
    let mut polls = Polls::new(alloc);
    for place in 0..journal.len() {
        let note = note_at(journal, place);
        put_note(times, actor, &polls, place, &note, page)?;
        polls.add(&note)?;
    }
    Ok(())
}

/// Puts the events of an actor: its name, and those of its notes.
pub(crate) fn put_actor(
    alloc: Global,
    times: &Times,
    actor: ActorNo,
    journal: &Journal<u64>,
    page: &mut String,
) -> Result<(), AllocError>
    ensures { OnOk result (string_bytes page.new ≡ string_bytes page.old ++ spec.actor_text times.now actor journal.now.notes) }
{
    put_name(actor, actor == times.outside, page)?;
    put_notes(alloc, times, actor, journal, page)
}
