//! Runs a script on the model.
//!
//! 1. The whole script is read and judged. A faulty line ends it here, with nothing printed.
//! 2. The model is opened with its queues. All memory that the run needs is taken here, except a created queue's.
//! 3. Its events are played in their order. Each prints what it noted, or the journals are printed behind the last one.
//! 4. The statistics follow if they are wanted, and the sink is told that no more comes.

ghost use Rattle.std.specs.Prelude.{◌≡◌, ◌<◌, ◌≤◌, ◌+◌, ◌*◌, [], ℕ, List, length, IfOk, IfErr, OnOk, OnErr, IfSome, Err, Some, true, false};
ghost use Rattle.std.specs.Io.KnownBytes.{Keeps, Appends};
ghost use Rattle.base_words.specs.Commands.{created_count};
ghost use Rattle.model_world.specs.Opening.{IsFresh, IsUnbegun};
ghost use Rattle.model_world.specs.State.{journal_at};
ghost use Rattle.fairexec_script.specs.Limits.{IsSize, IsBurst, ArePlaced, HasFewQueues};
ghost use Rattle.fairexec_script.specs.Drafts.{empty_draft};
ghost use Rattle.fairexec_script.specs.Scripts.{judge, script_of, drafted};
ghost use Rattle.text_bytes.specs.Taking.{IsPrompt, IsToldByRead};
ghost use Rattle.text_bytes.specs.Tries.{HasFailedSince};
ghost use Rattle.text_words.specs.Faults.{IfRead, IfText, IfUnread, IfUnwritten, IfEnded};
ghost use Rattle.fairexec_run.specs.Begun.{BreaksOff, IsCutShort};
ghost use Rattle.fairexec_run.specs.Outputs.{IsDone, TellsScript};
ghost use Rattle.fairexec_run.specs.Rooms.{MayMake, IsOpened};
ghost use Rattle.fairexec_run.specs.Printed.{IsPrinted};
ghost use Rattle.fairexec_run.specs.Transcripts.{with_queue, with_queues};
ghost use Rattle.fairexec_run.specs.Transcripts as spec;
ghost use Rattle.fairexec_script.specs.TextLimits.{most_lines};

use crate::journal::{events_of, print_journal, print_rear};
use crate::print::{FULL_PAGE, LONGEST_PRINT, Model, print_events};
use base_words::{CoreNo, Shares};
use core_queues::CreateError;
use fairexec_script::{Script, read_script};
use model_world::{World, WorldError};
use std::alloc::Global;
use text_bytes::{ByteSink, Source};
use text_words::{Cause, Fault};

/// Runs the script that the source tells, and prints each event's notes, or one line if it made none.
///
/// With `journal` it prints the text of the journals instead. With `stats` the statistics of all cores follow.
///
/// # Errors
///
/// A faulty line of the script (`Text`), a failed read (`Read`) or write (`Write`), or 1000 interrupted ones in a row, want of memory
/// (`Memory`). Nothing is printed before the whole script is judged. After a failed write or for want of memory, a beginning of what is printed may be written. Nothing
/// is tried behind a failed write.
pub fn run_script<R: Source, S: ByteSink>(
    alloc: Global,
    journal: bool,
    stats: bool,
    source: &mut R,
    sink: &mut S,
) -> Result<bool, Fault<Cause>>
    ensures done { IfOk result (λ done. (done ≡ true)
        × IsDone journal stats (R.remaining source.old) (S.contents sink.old) (S.contents sink.new)) }
    ensures faulty { IfErr result (IfText (λ fault.
        IfSome (R.remaining source.old) (λ text. script_of text ≡ Err fault))) }
    ensures prompt { IfErr result (IsPrompt judge empty_draft (R.remaining source.old) (R.remaining source.new)) }
    ensures at_once { IfErr result (IfText (λ fault.
        IsToldByRead judge empty_draft R.remaining R.tries R.reads R.interrupts source.old source.new)) }
    ensures unread { IfErr result (IfRead (HasFailedSince R.tries R.interrupts R.fails source.old source.new)) }
    ensures silent { IfErr result (IfUnread (Keeps (S.contents sink.old) (S.contents sink.new))) }
    ensures judged { IfErr result (IfUnwritten (TellsScript (R.remaining source.old))) }
    ensures begun { IfErr result (IfEnded (IsCutShort journal stats (R.remaining source.old) (S.contents sink.old) (S.contents sink.new))) }
    ensures failed { IfErr result (IfUnwritten (HasFailedSince S.tries S.interrupts S.fails sink.old sink.new)) }
{
    let script = read_script(alloc, source)?;
    play(alloc, journal, stats, script, sink)?;
    Ok(true)
}

/// Runs a whole script, prints what is wanted of it, and tells the sink that no more comes.
fn play<S: ByteSink>(
    alloc: Global,
    journal: bool,
    stats: bool,
    script: Script,
    sink: &mut S,
) -> Result<(), Fault<Cause>>
    ensures ok { OnOk result ((output : List ℕ) × IsPrinted journal stats (drafted script) output
        × Appends (S.contents sink.old) (S.contents sink.new) output) }
    ensures err { OnErr result (BreaksOff journal stats (drafted script) (S.contents sink.old) (S.contents sink.new)) }
    ensures device { IfErr result (IfUnread ⊥) }
    ensures failed { IfErr result (IfUnwritten (HasFailedSince S.tries S.interrupts S.fails sink.old sink.new)) }
{
    if journal {
        play_journal(alloc, stats, script, sink)
    } else {
        play_events(alloc, stats, script, sink)
    }
}

/// Prints the events, and the statistics if they are wanted.
fn play_events<S: ByteSink>(
    alloc: Global,
    stats: bool,
    script: Script,
    sink: &mut S,
) -> Result<(), Fault<Cause>>
    ensures ok { OnOk result ((output : List ℕ) × IsPrinted false stats (drafted script) output
        × Appends (S.contents sink.old) (S.contents sink.new) output) }
    ensures err { OnErr result (BreaksOff false stats (drafted script) (S.contents sink.old) (S.contents sink.new)) }
    ensures device { IfErr result (IfUnread ⊥) }
    ensures failed { IfErr result (IfUnwritten (HasFailedSince S.tries S.interrupts S.fails sink.old sink.new)) }
{
    let Script {
        cores,
        cap,
        burst,
        queues,
        events,
    } = script;
    let mut model = open_model(alloc, cores, cap, burst, events.len(), queues.as_slice())?;
    let mut page = String::with_capacity(alloc, FULL_PAGE + LONGEST_PRINT)?;
    print_events(alloc, &mut model, events, &mut page, sink)?;
    // These calls do nothing. Their contracts say what an output claims of the journals behind it.
    model.complete();
    model.joined();
    model.sound();
    print_rear(alloc, stats, &model, &mut page, sink)
}

/// Prints the journals, and the statistics if they are wanted.
fn play_journal<S: ByteSink>(
    alloc: Global,
    stats: bool,
    script: Script,
    sink: &mut S,
) -> Result<(), Fault<Cause>>
    ensures ok { OnOk result ((output : List ℕ) × IsPrinted true stats (drafted script) output
        × Appends (S.contents sink.old) (S.contents sink.new) output) }
    ensures err { OnErr result (BreaksOff true stats (drafted script) (S.contents sink.old) (S.contents sink.new)) }
    ensures device { IfErr result (IfUnread ⊥) }
    ensures failed { IfErr result (IfUnwritten (HasFailedSince S.tries S.interrupts S.fails sink.old sink.new)) }
{
    let Script {
        cores,
        cap,
        burst,
        queues,
        events,
    } = script;
    let model = open_model(alloc, cores, cap, burst, events.len(), queues.as_slice())?;
    let events = events_of(alloc, events)?;
    let mut page = String::with_capacity(alloc, FULL_PAGE + LONGEST_PRINT)?;
    let assembly = model.run(events);
    print_journal(alloc, &assembly, sink)?;
    print_rear(alloc, stats, &assembly, &mut page, sink)
}

/// A world of so many cores with links of that capacity, with turns of so many polls and with these queues. Its journals have room for all notes of so many events.
fn open_model(
    alloc: Global,
    cores: u8,
    cap: u16,
    burst: u8,
    events: usize,
    queues: &[(CoreNo, Shares)],
) -> Result<Model, Fault<Cause>>
    requires sized { IsSize cores cap }
    requires bursts { IsBurst burst }
    requires short { events ≤ most_lines }
    requires few { HasFewQueues queues.now }
    requires placed { ArePlaced (Some (cores, cap)) queues.now }
    ensures ok { IfOk result (IsOpened cores cap burst events queues.now) }
    ensures device { IfErr result (IfUnread ⊥) }
    ensures quiet { IfErr result (IfUnwritten ⊥) }
{
    let mut model = empty_model(alloc, cores, cap, burst, events)?;
    create_queues(&mut model, queues)?;
    Ok(model)
}

/// The same without queues.
fn empty_model(
    alloc: Global,
    cores: u8,
    cap: u16,
    burst: u8,
    events: usize,
) -> Result<Model, Fault<Cause>>
    requires sized { IsSize cores cap }
    requires bursts { IsBurst burst }
    requires short { events ≤ most_lines }
    ensures ok { IfOk result (IsFresh cores cap burst (spec.script_room cores cap burst events)) }
    ensures device { IfErr result (IfUnread ⊥) }
    ensures quiet { IfErr result (IfUnwritten ⊥) }
{
    let room = script_room(cores, cap, burst, events as u32);
    match World::try_new_burst(alloc, alloc, cores, cap, burst, room) {
        Ok(model) => Ok(model),
        Err(WorldError::Memory) => Err(Fault::Memory),
        Err(WorldError::BadConfig) => unreachable!(),
    }
}

/// The room of a journal: more than so many events fill.
fn script_room(cores: u8, cap: u16, burst: u8, events: u32) -> u32
    requires sized { IsSize cores cap }
    requires bursts { IsBurst burst }
    requires short { events ≤ most_lines }
    ensures room { result ≡ spec.script_room cores cap burst events }
    ensures low { result ≤ 885122 }
{
    // 5 * 16 * 1024 places are 81920, and 196 * 4096 notes 802816, so the sum is at most 802816 + 256 + 81920 + 2 * 64 + 2.
    let places = u32::from(cores) * u32::from(cap);
    let burst = u32::from(burst);
    if burst > 1 {
        (3 * burst + 4) * events + 256 + 5 * places + 2 * burst + 2
    } else {
        6 * events + 256 + 3 * places + 4
    }
}

/// Makes the queues of the `queue` lines, in their order.
fn create_queues(model: &mut Model, queues: &[(CoreNo, Shares)]) -> Result<(), Fault<Cause>>
    requires may { MayMake queues.now model.old }
    requires room { 255 < model.old.room }
    requires placed { ArePlaced (Some (model.old.cores, model.old.cap)) queues.now }
    ensures ok { OnOk result (model.new ≡ with_queues queues.now model.old) }
    ensures after { OnOk result (MayMake [] model.new) }
    ensures device { IfErr result (IfUnread ⊥) }
    ensures quiet { IfErr result (IfUnwritten ⊥) }
{
    for queue in queues {
        create_queue(model, queue.0, queue.1)?;
    }
    Ok(())
}

/// Makes one queue, under the next number of its core.
fn create_queue(model: &mut Model, core: CoreNo, shares: Shares) -> Result<(), Fault<Cause>>
    requires core { core < model.old.cores }
    requires unbegun { IsUnbegun model.old }
    requires room { length (journal_at core model.old) < model.old.room }
    requires few { created_count (journal_at core model.old) < 255 }
    ensures ok { OnOk result (model.new ≡ with_queue (core, shares) model.old) }
    ensures device { IfErr result (IfUnread ⊥) }
    ensures quiet { IfErr result (IfUnwritten ⊥) }
{
    match model.create(core, shares) {
        Ok(_) => Ok(()),
        Err(CreateError::Memory) => Err(Fault::Memory),
        Err(CreateError::TooMany) => unreachable!(),
    }
}
