//! Prints the journals of a run, and the statistics of its cores.

ghost use Rattle.std.specs.Prelude.{◌≡◌, ◌<◌, ◌++◌, ℕ, List, map, IfOk, IfErr, OnOk, OnErr, string_bytes};
ghost use Rattle.std.specs.Io.KnownBytes.{Appends};
ghost use Rattle.base_words.specs.Assembly.{Assembly, journal_of};
ghost use Rattle.base_words.specs.Spelled.{IsSpelled};
ghost use Rattle.fairexec_report.specs.StatTexts.{IsCoreText, IsStatsIf};
ghost use Rattle.text_journal.specs.Pages.{Puts, AppendsFront};
ghost use Rattle.text_journal.specs.Texts.{journal_text};
ghost use Rattle.model_world.specs.State.{assembly_of};
ghost use Rattle.fairexec_run.specs.Begun.{IsRearPart, IsNoneOr, WritesStats};
ghost use Rattle.text_bytes.specs.Tries.{HasFailedSince, IsNoFewer};
ghost use Rattle.text_words.specs.Faults.{IfUnread, IfUnwritten};
ghost use Rattle.fairexec_run.specs.Printed.{PutsStats};
ghost use Rattle.fairexec_run.specs.Replies as replies;

use crate::boxed_script::BoxedScript;
use crate::print::{FULL_PAGE, Model, print_page};
use crate::reply::event_of;
use base_words::{ActorNo, CoreNo};
use fairexec_report::put_stats;
use fairexec_script::ScriptEvent;
use model_world::{Assembly, Event};
use note_journal::Journal;
use std::alloc::Global;
use text_bytes::{ByteSink, flush};
use text_journal::write_journal;
use text_words::{Cause, Fault};

/// Cores whose statistics may be told: those of a world, and those whose journals a run left.
pub(crate) trait HasCores {
    ghost assembly: { Self → Assembly ℕ };

    /// How many cores there are.
    fn core_count(&self) -> u8
        ensures { result ≡ (assembly self.now).cores };

    /// How many polls a turn may have.
    fn most_polls(&self) -> u8
        ensures { result ≡ (assembly self.now).burst };

    /// The notes of a core.
    fn notes_of(&self, core: CoreNo) -> &Journal<u64>
        requires { core < (assembly self.now).cores }
        ensures { result.now.notes ≡ journal_of core (assembly self.now) };
}

impl HasCores for Model {
    ghost assembly = { assembly_of };

    fn core_count(&self) -> u8 {
        self.cores()
    }

    fn most_polls(&self) -> u8 {
        self.burst()
    }

    fn notes_of(&self, core: CoreNo) -> &Journal<u64> {
        self.journal(ActorNo(core.0))
    }
}

impl HasCores for Assembly {
    ghost assembly = { λ assembly. assembly };

    fn core_count(&self) -> u8 {
        self.cores()
    }

    fn most_polls(&self) -> u8 {
        self.burst()
    }

    fn notes_of(&self, core: CoreNo) -> &Journal<u64> {
        self.journal(ActorNo(core.0))
    }
}

/// The events of a script as events of the model, in their order.
pub(crate) fn events_of(
    alloc: Global,
    events: Vec<ScriptEvent>,
) -> Result<Vec<Event<BoxedScript>>, Fault<Cause>>
    ensures ok { IfOk result (λ all. all.items ≡ map replies.event_of events.items) }
    ensures device { IfErr result (IfUnread ⊥) }
    ensures quiet { IfErr result (IfUnwritten ⊥) }
{
    let mut all = Vec::with_capacity(alloc, events.len())?;
    for event in events {
        all.push(event_of(alloc, event)?)?;
    }
    Ok(all)
}

/// Prints the text of the journals.
pub(crate) fn print_journal<S: ByteSink>(
    alloc: Global,
    assembly: &Assembly,
    sink: &mut S,
) -> Result<(), Fault<Cause>>
    requires { IsSpelled assembly.now }
    ensures ok { OnOk result (Appends (S.contents sink.old) (S.contents sink.new) (journal_text assembly.now)) }
    ensures err { OnErr result (AppendsFront (S.contents sink.old) (S.contents sink.new) (journal_text assembly.now)) }
    ensures device { IfErr result (IfUnread ⊥) }
    ensures failed { IfErr result (IfUnwritten (HasFailedSince S.tries S.interrupts S.fails sink.old sink.new)) }
    ensures tried { IsNoFewer (S.tries sink.old) (S.tries sink.new) }
{
    write_journal(alloc, assembly, sink)
}

/// Prints the page, and behind it the statistics of the cores if they are wanted. Then it tells the sink that no more comes.
pub(crate) fn print_rear<T: HasCores, S: ByteSink>(
    alloc: Global,
    stats: bool,
    told: &T,
    page: &mut String,
    sink: &mut S,
) -> Result<(), Fault<Cause>>
    ensures ok { OnOk result ((text : List ℕ) × IsStatsIf stats (T.assembly told.now) text
        × Appends (S.contents sink.old) (S.contents sink.new) (string_bytes page.old ++ text)) }
    ensures err { OnErr result ((text : List ℕ) × IsRearPart stats (T.assembly told.now) text
        × AppendsFront (S.contents sink.old) (S.contents sink.new) (string_bytes page.old ++ text)) }
    ensures device { IfErr result (IfUnread ⊥) }
    ensures failed { IfErr result (IfUnwritten (HasFailedSince S.tries S.interrupts S.fails sink.old sink.new)) }
{
    if !stats {
        return print_last(page, sink);
    }
    print_stats(alloc, told, page, sink)?;
    print_last(page, sink)
}

/// Puts the statistics of all cores on the page. A full page is written to the sink at once.
fn print_stats<T: HasCores, S: ByteSink>(
    alloc: Global,
    told: &T,
    page: &mut String,
    sink: &mut S,
) -> Result<(), Fault<Cause>>
    ensures ok { OnOk result (PutsStats (T.assembly told.now) (string_bytes page.old) (string_bytes page.new) (S.contents sink.old) (S.contents sink.new)) }
    ensures err { OnErr result (WritesStats (T.assembly told.now) (string_bytes page.old) (S.contents sink.old) (S.contents sink.new)) }
    ensures device { IfErr result (IfUnread ⊥) }
    ensures failed { IfErr result (IfUnwritten (HasFailedSince S.tries S.interrupts S.fails sink.old sink.new)) }
    ensures tried { IsNoFewer (S.tries sink.old) (S.tries sink.new) }
{
    let cores = told.core_count();
    let burst = told.most_polls();
    for core in 0..cores {
        print_core(
            alloc,
            CoreNo(core),
            cores,
            burst,
            told.notes_of(CoreNo(core)),
            page,
            sink,
        )?;
    }
    Ok(())
}

/// Puts the statistics of one core on the page, and writes the page if it is full.
fn print_core<S: ByteSink>(
    alloc: Global,
    core: CoreNo,
    cores: u8,
    burst: u8,
    journal: &Journal<u64>,
    page: &mut String,
    sink: &mut S,
) -> Result<(), Fault<Cause>>
    ensures ok { OnOk result ((text : List ℕ) × IsCoreText core cores burst journal.now.notes text
        × Puts (string_bytes page.old) (string_bytes page.new) (S.contents sink.old) (S.contents sink.new) text) }
    ensures err { OnErr result ((text : List ℕ) × IsNoneOr (IsCoreText core cores burst journal.now.notes) text
        × AppendsFront (S.contents sink.old) (S.contents sink.new) (string_bytes page.old ++ text)) }
    ensures device { IfErr result (IfUnread ⊥) }
    ensures failed { IfErr result (IfUnwritten (HasFailedSince S.tries S.interrupts S.fails sink.old sink.new)) }
    ensures tried { IsNoFewer (S.tries sink.old) (S.tries sink.new) }
{
    put_stats(alloc, core, cores, burst, journal, page)?;
    if page.len() < FULL_PAGE {
        return Ok(());
    }
    print_page(page, sink)
}

/// Prints the last page, and tells the sink that no more comes.
fn print_last<S: ByteSink>(page: &mut String, sink: &mut S) -> Result<(), Fault<Cause>>
    ensures ok { OnOk result (Appends (S.contents sink.old) (S.contents sink.new) (string_bytes page.old)) }
    ensures err { OnErr result (AppendsFront (S.contents sink.old) (S.contents sink.new) (string_bytes page.old)) }
    ensures device { IfErr result (IfUnread ⊥) }
    ensures failed { OnErr result (HasFailedSince S.tries S.interrupts S.fails sink.old sink.new) }
{
    print_page(page, sink)?;
    match flush(sink) {
        Ok(()) => Ok(()),
        Err(_) => Err(Fault::Write),
    }
}
