//! Writes the text of all journals.

ghost use Rattle.std.specs.Prelude.{◌≡◌, ◌++◌, [], codes, IsTrue, IfErr, OnOk, OnErr, string_bytes};
ghost use Rattle.std.specs.Io.KnownBytes.{Appends};
ghost use Rattle.base_words.specs.Bursts.{has_bursts};
ghost use Rattle.base_words.specs.Spelled.{IsSpelled};
ghost use Rattle.text_bytes.specs.Tries.{HasFailedSince, IsNoFewer};
ghost use Rattle.text_words.specs.Faults.{IfUnread, IfUnwritten};
ghost use Rattle.text_words.specs.Notes.{note_line};
ghost use Rattle.text_journal.specs.Pages.{Puts, AppendsFront};
ghost use Rattle.text_journal.specs.Texts as spec;

use base_words::{ActorNo, Note};
use note_journal::{Assembly, Journal};
use std::alloc::{AllocError, Global};
use text_bytes::{ByteSink, write_all};
use text_words::{Fault, NoteLine};

/// A page of this many bytes is full, and is written.
const FULL: usize = 16384;

/// A line has at most 128 bytes with its line feed, so a page grows no further than this behind a full one.
const LONGEST_LINE: usize = 128;

/// Writes the text of the journals, a page at a time. No text is read here, so the caller chooses the causes `C` of its own fault.
///
/// # Errors
///
/// Want of memory for the page (`Memory`), a failed write or 1000 interrupted ones in a row (`Write`). A prefix of the text may be
/// written. Nothing is tried behind a failed write.
pub fn write_journal<C, S: ByteSink>(
    alloc: Global,
    assembly: &Assembly,
    sink: &mut S,
) -> Result<(), Fault<C>>
    requires { IsSpelled assembly.now }
    ensures ok { OnOk result (Appends (S.contents sink.old) (S.contents sink.new) (spec.journal_text assembly.now)) }
    ensures err { OnErr result (AppendsFront (S.contents sink.old) (S.contents sink.new) (spec.journal_text assembly.now)) }
    ensures device { IfErr result (IfUnread ⊥) }
    ensures failed { IfErr result (IfUnwritten (HasFailedSince S.tries S.interrupts S.fails sink.old sink.new)) }
    ensures tried { IsNoFewer (S.tries sink.old) (S.tries sink.new) }
{
    let mut page = String::with_capacity(alloc, FULL + LONGEST_LINE)?;
    put_head(assembly, &mut page)?;
    put_journals::<C, S>(assembly, &mut page, sink)?;
    put_end(&mut page)?;
    write_page(&mut page, sink)
}

/// Puts the first two lines.
fn put_head(assembly: &Assembly, page: &mut String) -> Result<(), AllocError>
    ensures { OnOk result (string_bytes page.new ≡ string_bytes page.old ++ spec.head_text assembly.now) }
{
    let cores = assembly.cores();
    let cap = assembly.cap();
    let burst = assembly.burst();
    if burst > 1 {
        put_burst_head(cores, cap, burst, page)
    } else {
        put_single_head(cores, cap, page)
    }
}

/// Puts them in form 1: each turn is a single poll.
fn put_single_head(cores: u8, cap: u16, page: &mut String) -> Result<(), AllocError>
    ensures { OnOk result (string_bytes page.new ≡ string_bytes page.old ++ spec.head_of cores cap 1) }
{
    match writeln!(page, "journal 1\ncores {cores} cap {cap}") {
        Ok(()) => Ok(()),
        Err(_) => Err(AllocError),
    }
}

/// Puts them in form 2: a turn may have several polls.
fn put_burst_head(cores: u8, cap: u16, burst: u8, page: &mut String) -> Result<(), AllocError>
    requires { IsTrue (has_bursts burst) }
    ensures { OnOk result (string_bytes page.new ≡ string_bytes page.old ++ spec.head_of cores cap burst) }
{
    match writeln!(page, "journal 2\ncores {cores} cap {cap} burst {burst}") {
        Ok(()) => Ok(()),
        Err(_) => Err(AllocError),
    }
}

/// Puts the last line.
fn put_end(page: &mut String) -> Result<(), AllocError>
    ensures { OnOk result (string_bytes page.new ≡ string_bytes page.old ++ (spec.end_line ++ codes "\n")) }
{
    match writeln!(page, "end") {
        Ok(()) => Ok(()),
        Err(_) => Err(AllocError),
    }
}

/// Puts the notes of all actors, actor after actor.
fn put_journals<C, S: ByteSink>(
    assembly: &Assembly,
    page: &mut String,
    sink: &mut S,
) -> Result<(), Fault<C>>
    requires { IsSpelled assembly.now }
    ensures ok { OnOk result (Puts (string_bytes page.old) (string_bytes page.new) (S.contents sink.old) (S.contents sink.new)
        (spec.text_of (spec.journal_lines 0 assembly.now.journals))) }
    ensures err { OnErr result (AppendsFront (S.contents sink.old) (S.contents sink.new)
        (string_bytes page.old ++ spec.text_of (spec.journal_lines 0 assembly.now.journals))) }
    ensures device { IfErr result (IfUnread ⊥) }
    ensures failed { IfErr result (IfUnwritten (HasFailedSince S.tries S.interrupts S.fails sink.old sink.new)) }
    ensures tried { IsNoFewer (S.tries sink.old) (S.tries sink.new) }
{
    for actor in 0..assembly.cores() + 1 {
        let actor = ActorNo(actor);
        put_notes::<C, S>(actor, assembly.journal(actor), page, sink)?;
    }
    Ok(())
}

/// Puts the notes of one actor, the oldest first.
fn put_notes<C, S: ByteSink>(
    actor: ActorNo,
    journal: &Journal<u64>,
    page: &mut String,
    sink: &mut S,
) -> Result<(), Fault<C>>
    ensures ok { OnOk result (Puts (string_bytes page.old) (string_bytes page.new) (S.contents sink.old) (S.contents sink.new)
        (spec.text_of (spec.actor_lines actor journal.now.notes))) }
    ensures err { OnErr result (AppendsFront (S.contents sink.old) (S.contents sink.new)
        (string_bytes page.old ++ spec.text_of (spec.actor_lines actor journal.now.notes))) }
    ensures device { IfErr result (IfUnread ⊥) }
    ensures failed { IfErr result (IfUnwritten (HasFailedSince S.tries S.interrupts S.fails sink.old sink.new)) }
    ensures tried { IsNoFewer (S.tries sink.old) (S.tries sink.new) }
{
    for note in journal.as_slice() {
        put_note(actor, *note, page)?;
        if page.len() >= FULL {
            write_page::<C, S>(page, sink)?;
        }
    }
    Ok(())
}

/// Puts one note.
fn put_note(actor: ActorNo, note: Note<u64>, page: &mut String) -> Result<(), AllocError>
    ensures { OnOk result (string_bytes page.new ≡ string_bytes page.old ++ (note_line actor note ++ codes "\n")) }
{
    let line = NoteLine(actor, note);
    match writeln!(page, "{line}") {
        Ok(()) => Ok(()),
        Err(_) => Err(AllocError),
    }
}

/// Writes the page, and empties it.
fn write_page<C, S: ByteSink>(page: &mut String, sink: &mut S) -> Result<(), Fault<C>>
    ensures ok { OnOk result (Appends (S.contents sink.old) (S.contents sink.new) (string_bytes page.old)) }
    ensures empty { OnOk result (string_bytes page.new ≡ []) }
    ensures err { OnErr result (AppendsFront (S.contents sink.old) (S.contents sink.new) (string_bytes page.old)) }
    ensures device { IfErr result (IfUnread ⊥) }
    ensures failed { OnErr result (HasFailedSince S.tries S.interrupts S.fails sink.old sink.new) }
    ensures tried { IsNoFewer (S.tries sink.old) (S.tries sink.new) }
{
    match write_all(sink, page.as_bytes()) {
        Ok(()) => {
            page.clear();
            Ok(())
        }
        Err(_) => Err(Fault::Write),
    }
}
