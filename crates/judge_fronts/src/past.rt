//! What a core's own notes before a line tell of a job.

ghost use Rattle.std.specs.Prelude.{◌≡◌, ◌≤◌, IsTrue, false, length};
ghost use Rattle.std.specs.Option.{IsSome};
ghost use Rattle.base_words.specs.Clauses.{StartsRight};
ghost use Rattle.base_words.specs.Filters as filters;
ghost use Rattle.base_words.specs.Journal.{at_place};
ghost use Rattle.base_words.specs.Journal as told;
ghost use Rattle.base_words.specs.Names.{is_name};
ghost use Rattle.base_words.specs.Work.{queue_of};
ghost use Rattle.base_words.specs.declared.note.Note.TheVariants.{Start, Resume};
ghost use Rattle.judge_fronts.specs.Certain.{IsWrongAlone};
ghost use Rattle.judge_fronts.specs.Past as spec;

use base_words::{JobId, Note};
use note_facts::note_at;
use note_facts::told::{name_ended, name_started};
use note_journal::{Journal, same_name};

/// A step of a job in its core.
#[derive(Clone, Copy)]
pub(crate) enum Step {
    Entered,
    Started,
    Ended,
}

fn name_entered(note: &Note<u64>) -> Option<JobId>
    ensures { result ≡ spec.name_entered note.now }
{
    match *note {
        Note::Took(name, _) => Some(name),
        _ => None,
    }
}

fn name_at(step: Step, note: &Note<u64>) -> Option<JobId>
    ensures { result ≡ spec.name_at step note.now }
{
    match step {
        Step::Entered => name_entered(note),
        Step::Started => name_started(note),
        Step::Ended => name_ended(note),
    }
}

/// Whether a note tells this step of this job.
fn tells_of(step: Step, note: &Note<u64>, name: &JobId) -> bool
    ensures { result ≡ is_name name.now (spec.name_at step note.now) }
{
    match name_at(step, note) {
        Some(other) => same_name(name, &other),
        None => false,
    }
}

/// Whether the notes before this place tell this step of this job.
fn is_told(step: Step, journal: &Journal<u64>, before: usize, name: &JobId) -> bool
    requires { before ≤ length journal.now.notes }
    ensures { result ≡ told.is_told (spec.name_at step) name.now (at_place before journal.now.notes) }
{
    let mut told = false;
    for place in 0..before {
        let note = note_at(journal, place);
        if tells_of(step, &note, name) {
            told = true;
        }
    }
    told
}

/// Whether the job has entered and hasn't ended, by the notes before this place.
fn is_inside(journal: &Journal<u64>, before: usize, name: &JobId) -> bool
    requires { before ≤ length journal.now.notes }
    ensures right { IsTrue result → IsSome (queue_of name.now (at_place before journal.now.notes)) × (told.is_told filters.name_ended name.now (at_place before journal.now.notes) ≡ false) }
    ensures only { IsSome (queue_of name.now (at_place before journal.now.notes)) → told.is_told filters.name_ended name.now (at_place before journal.now.notes) ≡ false → IsTrue result }
{
    is_told(Step::Entered, journal, before, name) && !is_told(Step::Ended, journal, before, name)
}

/// Whether the job may not start behind the notes before this place, whatever others tell.
pub(crate) fn is_wrong_start(journal: &Journal<u64>, before: usize, name: &JobId) -> bool
    requires { before ≤ length journal.now.notes }
    ensures right { IsTrue result → IsWrongAlone StartsRight (Start name.now) (at_place before journal.now.notes) }
    ensures only { IsWrongAlone StartsRight (Start name.now) (at_place before journal.now.notes) → IsTrue result }
{
    !is_inside(journal, before, name) || is_told(Step::Started, journal, before, name)
}

/// Whether the job may not resume behind the notes before this place, whatever others tell.
pub(crate) fn is_wrong_resume(journal: &Journal<u64>, before: usize, name: &JobId) -> bool
    requires { before ≤ length journal.now.notes }
    ensures right { IsTrue result → IsWrongAlone StartsRight (Resume name.now) (at_place before journal.now.notes) }
    ensures only { IsWrongAlone StartsRight (Resume name.now) (at_place before journal.now.notes) → IsTrue result }
{
    !is_inside(journal, before, name) || !is_told(Step::Started, journal, before, name)
}
