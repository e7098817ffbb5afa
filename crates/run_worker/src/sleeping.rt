//! What a worker hears from the notes of each turn: who is to be rung, which jobs sleep, and until when.

ghost use Rattle.std.specs.Prelude.{◌≡◌, ◌⊎◌, All, true};
ghost use Rattle.actor_seat.specs.Bells.{rung_for};
ghost use Rattle.core_timers.specs.Timers.{IsVacant};
ghost use Rattle.run_worker.specs.Timing.{HearsNote, HearsNotes, IsSilent, LosesTimer, SetsSleep, SleepsFor};

use actor_seat::Bells;
use base_jobs::Task;
use base_words::{JobId, Note};
use core_core::Core;
use core_timers::Timers;
use std::alloc::Global;

/// Forgets the timer of this name, if it has one.
fn lose(timers: &mut Timers<Global>, name: &JobId)
    ensures { LosesTimer timers.old name.now timers.new }
{
    if timers.is_empty() {
        return;
    }
    timers.forget(name);
}

/// For how long the job of this name sleeps, if it is parked and sleeps.
fn sleep_of<J: Task>(core: &Core<J>, name: &JobId) -> Option<u64>
    ensures { SleepsFor J.sleeps core.now.queues name.now result }
{
    match core.parked(*name) {
        Some(job) => job.sleeps(),
        None => None,
    }
}

/// Sets the timer of a job that was just parked, if it sleeps.
fn set_sleep<J: Task>(core: &Core<J>, timers: &mut Timers<Global>, reading: u64, name: &JobId)
    ensures { SetsSleep J.sleeps core.now.queues reading name.now timers.old timers.new ⊎ LosesTimer timers.old name.now timers.new }
{
    match sleep_of(core, name) {
        Some(time) => {
            timers.set(name, reading.saturating_add(time));
        }
        None => lose(timers, name),
    }
}

/// Hears from one note of a turn whether a job sleeps.
#[inline(always)]
fn hear_note<J: Task>(core: &Core<J>, timers: &mut Timers<Global>, reading: u64, note: &Note<u64>)
    ensures { HearsNote J.sleeps core.now.queues reading note.now timers.old timers.new }
{
    match note {
        Note::Park(name, _) => set_sleep(core, timers, reading, name),
        Note::Resume(name) | Note::Returned(name, _) => lose(timers, name),
        _ => {}
    }
}

/// Whether nobody is rung for this note, and no timer is set or lost by it where none is set.
#[inline(always)]
fn is_silent(note: &Note<u64>) -> bool
    ensures { result ≡ true → IsSilent note.now }
{
    match note {
        Note::Pick(..) | Note::Start(..) | Note::Resume(..) | Note::Yield(..) | Note::Turned(..) =>
            true,
        _ => false,
    }
}

/// Whether no timer is set, and all of these notes are silent: those of polls that yield are.
#[inline(always)]
pub(crate) fn nobody_hears(timers: &Timers<Global>, notes: &[Note<u64>]) -> bool
    ensures vacant { result ≡ true → IsVacant timers.now }
    ensures silent { result ≡ true → All IsSilent notes.now }
{
    if !timers.is_empty() {
        return false;
    }
    if notes.len() == 3 {
        return is_silent(&notes[0]) && is_silent(&notes[1]) && is_silent(&notes[2]);
    }
    for note in notes {
        if !is_silent(note) {
            return false;
        }
    }
    true
}

/// Rings the bell of each actor that has something from these notes, and hears from them, the first one first, which jobs sleep from this
/// reading of the clock on, and which don't any more. It stands apart, so that a turn of silent notes stays short.
#[inline(never)]
pub(crate) fn hear<J: Task>(
    core: &Core<J>,
    timers: &mut Timers<Global>,
    bells: &mut Bells,
    reading: u64,
    notes: &[Note<u64>],
)
    ensures hears { HearsNotes J.sleeps core.now.queues reading notes.now timers.old timers.new }
    ensures rings { bells.new ≡ record bells.old { rings = rung_for notes.now bells.old.rings } }
{
    bells.ring_for(notes);
    for note in notes {
        hear_note(core, timers, reading, note);
    }
}
