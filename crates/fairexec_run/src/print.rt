//! Lets the events of a script happen, and prints each.

ghost use Rattle.std.specs.Prelude.{◌≡◌, ◌≤◌, ◌++◌, [], ℕ, List, length, drop, reverse, IfErr, OnOk, OnErr, Some, string_bytes};
ghost use Rattle.std.specs.Io.KnownBytes.{Appends};
ghost use Rattle.fairexec_script.specs.Limits.{AreEventsOf, IsEventOf};
ghost use Rattle.text_journal.specs.Pages.{AppendsFront};
ghost use Rattle.text_bytes.specs.Tries.{HasFailedSince, IsNoFewer};
ghost use Rattle.text_words.specs.Faults.{IfUnread, IfUnwritten};
ghost use Rattle.fairexec_run.specs.Begun.{WritesFirst};
ghost use Rattle.fairexec_run.specs.Outputs.{WritesAll};
ghost use Rattle.fairexec_run.specs.Rooms.{IsRoomy};
ghost use Rattle.fairexec_run.specs.Transcripts.{Prints};
ghost use Rattle.fairexec_run.specs.EventTexts.{note_lines};

use crate::boxed_script::BoxedScript;
use crate::reply::{ends_of, event_of, quiet_of};
use base_words::ActorNo;
use fairexec_script::ScriptEvent;
use model_world::{Journal, World};
use std::alloc::Global;
use text_bytes::{ByteSink, write_all};
use text_words::{Cause, Fault, NoteLine, ReplyLine};

/// A world of script jobs.
pub(crate) type Model = World<BoxedScript, Global>;

/// A page of this many bytes is full, and is written.
pub(crate) const FULL_PAGE: usize = 16384;

/// More than the lines of most events: four notes of at most 128 bytes. If an event collects many outcomes, a turn has many polls, or
/// a core has many queues, the page grows.
pub(crate) const LONGEST_PRINT: usize = 1024;

/// Lets the events happen, one after another. A full page is written to the sink at once.
pub(crate) fn print_events<S: ByteSink>(
    alloc: Global,
    model: &mut Model,
    events: Vec<ScriptEvent>,
    page: &mut String,
    sink: &mut S,
) -> Result<(), Fault<Cause>>
    requires roomy { IsRoomy model.old.cores model.old.cap model.old.burst (length events.items) model.old }
    requires there { AreEventsOf (Some (model.old.cores, model.old.cap)) events.items }
    ensures ok { OnOk result (WritesAll events.items model.old model.new (string_bytes page.old) (string_bytes page.new)
        (S.contents sink.old) (S.contents sink.new)) }
    ensures err { OnErr result (WritesFirst events.items model.old (string_bytes page.old) (S.contents sink.old) (S.contents sink.new)) }
    ensures device { IfErr result (IfUnread ⊥) }
    ensures failed { IfErr result (IfUnwritten (HasFailedSince S.tries S.interrupts S.fails sink.old sink.new)) }
    ensures tried { IsNoFewer (S.tries sink.old) (S.tries sink.new) }
{
    for event in events {
        print_event(alloc, model, event, page)?;
        if page.len() >= FULL_PAGE {
            print_page(page, sink)?;
        }
    }
    Ok(())
}

/// Lets the event happen, and puts its lines on the page.
fn print_event(
    alloc: Global,
    model: &mut Model,
    event: ScriptEvent,
    page: &mut String,
) -> Result<(), Fault<Cause>>
    requires roomy { IsRoomy model.old.cores model.old.cap model.old.burst 1 model.old }
    requires there { IsEventOf model.old.cores event }
    ensures ok { OnOk result ((text : List ℕ) × Prints event model.old model.new text
        × (string_bytes page.new ≡ string_bytes page.old ++ text)) }
    ensures device { IfErr result (IfUnread ⊥) }
    ensures quiet { IfErr result (IfUnwritten ⊥) }
{
    // Lawful journals have no more collected outcomes than submissions, so the event has room.
    model.joined();
    let ends = ends_of(&event);
    let before = model.journal(ends.actor).len();
    let event = event_of(alloc, event)?;
    let reply = model.step(event);
    let journal = model.journal(ends.actor);
    if journal.len() > before {
        return print_notes(ends.actor, journal, before, page);
    }
    let Some(quiet) = quiet_of(&reply) else {
        return Ok(());
    };
    let line = ReplyLine(ends, quiet);
    writeln!(page, "{line}")?;
    Ok(())
}

/// Puts the notes from that place on upon the page, the oldest first.
fn print_notes(
    actor: ActorNo,
    journal: &Journal<u64>,
    first: usize,
    page: &mut String,
) -> Result<(), Fault<Cause>>
    requires { first ≤ length journal.now.notes }
    ensures ok { OnOk result (string_bytes page.new
        ≡ string_bytes page.old ++ note_lines actor (drop first (reverse journal.now.notes))) }
    ensures device { IfErr result (IfUnread ⊥) }
    ensures quiet { IfErr result (IfUnwritten ⊥) }
{
    for place in first..journal.len() {
        if let Some(note) = journal.get(place) {
            let line = NoteLine(actor, note);
            writeln!(page, "{line}")?;
        }
    }
    Ok(())
}

/// Prints the page, and empties it.
pub(crate) fn print_page<S: ByteSink>(page: &mut String, sink: &mut S) -> Result<(), Fault<Cause>>
    ensures ok { OnOk result (Appends (S.contents sink.old) (S.contents sink.new) (string_bytes page.old)) }
    ensures empty { OnOk result (string_bytes page.new ≡ []) }
    ensures err { OnErr result (AppendsFront (S.contents sink.old) (S.contents sink.new) (string_bytes page.old)) }
    ensures device { IfErr result (IfUnread ⊥) }
    ensures failed { OnErr result (HasFailedSince S.tries S.interrupts S.fails sink.old sink.new) }
    ensures tried { IsNoFewer (S.tries sink.old) (S.tries sink.new) }
{
    match write_all(sink, page.as_bytes()) {
        Ok(()) => {
            page.clear();
            Ok(())
        }
        Err(_) => Err(Fault::Write),
    }
}
