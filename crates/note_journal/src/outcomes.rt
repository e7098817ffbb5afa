//! The outcome that was first given under a name.

ghost use Rattle.std.specs.Prelude.{◌≡◌, ◌<◌, ◌≤◌, Some, None, [], ◌∷◌, if◌then◌else◌};
ghost use Rattle.base_words.specs.Assembly.{first_under, outcome_of};
ghost use Rattle.base_words.specs.Filters.{given_outcomes};
ghost use Rattle.base_words.specs.Names as spec;
ghost use Rattle.base_words.specs.Spelled.{IsSpelled};

use crate::assembly::Assembly;
use crate::journal::Journal;
use crate::names::same_name;
use base_words::{ActorNo, JobId, Note, OutcomeNote};

impl Assembly {
    /// The outcome that was first given under a name: what its job answered, why its job came back, or what its command was answered.
    /// None where no outcome was given under it.
    ///
    /// It reads the notes of the receiver, the oldest first, as far as that outcome.
    pub fn outcome(&self, name: JobId) -> Option<OutcomeNote<u64>>
        ensures value { result ≡ outcome_of name self.now }
        ensures nobody { self.now.cores < name.to → result ≡ None }
        ensures outside { IsSpelled self.now → self.now.cores ≤ name.to → result ≡ None }
    {
        first_outcome(self, &name)
    }
}

/// The outcome that the notes of its receiver first give under a name. None if there is no such actor.
fn first_outcome(assembly: &Assembly, name: &JobId) -> Option<OutcomeNote<u64>>
    ensures value { result ≡ outcome_of name.now assembly.now }
    ensures nobody { assembly.now.cores < name.now.to → result ≡ None }
{
    if name.to.0 > assembly.cores() {
        return None;
    }
    first_given(assembly.journal(ActorNo(name.to.0)), name)
}

/// The outcome that a journal first gives under a name.
fn first_given(journal: &Journal<u64>, name: &JobId) -> Option<OutcomeNote<u64>>
    ensures { result ≡ first_under name.now (given_outcomes name.now.from journal.now.notes) }
{
    for note in journal.as_slice() {
        if let Some(outcome) = given_by(note, name) {
            return Some(outcome);
        }
    }
    None
}

/// The outcome that a note gives under a name.
fn given_by(note: &Note<u64>, name: &JobId) -> Option<OutcomeNote<u64>>
    ensures { result ≡ first_under name.now (given_outcomes name.now.from (note.now ∷ [])) }
{
    match *note {
        Note::Done(other, _, value) => if_same(name, &other, OutcomeNote::Finished(value)),
        Note::Back(other, reason) => if_same(name, &other, OutcomeNote::Returned(reason)),
        Note::Returned(other, reason) => if_same(name, &other, OutcomeNote::Returned(reason)),
        Note::Answered(other, answer) => if_same(name, &other, OutcomeNote::Answered(answer)),
        _ => None,
    }
}

/// The outcome, if the names are one.
fn if_same(name: &JobId, other: &JobId, outcome: OutcomeNote<u64>) -> Option<OutcomeNote<u64>>
    ensures { result ≡ (if spec.same_name name.now other.now then Some outcome else None) }
{
    if same_name(name, other) {
        Some(outcome)
    } else {
        None
    }
}
