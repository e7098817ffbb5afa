//! How long the lists of a link are, up to a line of the journal that tells them.

ghost use Rattle.std.specs.Prelude.{◌≡◌, ◌≤◌, ◌∷◌, ◌+◌, ℕ, is_some, length};
ghost use Rattle.base_words.specs.Filters.{order_sent, name_delivered, outcome_given, outcome_collected};
ghost use Rattle.base_words.specs.Journal.{Journal as Notes, at_place};
ghost use Rattle.base_words.specs.Work.{number_if};
ghost use Rattle.judge_fronts.specs.Sides.{length_of};

use base_words::{ActorNo, CoreNo, Note};
use note_facts::note_at;
use note_journal::Journal;

/// A list of a link: two are told by its sender, and two by its core.
#[derive(Clone, Copy)]
pub(crate) enum Side {
    /// What was sent to this core.
    Sent(CoreNo),
    /// What was delivered from this actor.
    Delivered(ActorNo),
    /// What was given to this actor.
    Given(ActorNo),
    /// What was collected of this core.
    Collected(CoreNo),
}

fn is_sent_to(core: CoreNo, note: &Note<u64>) -> bool
    ensures { result ≡ is_some (order_sent core note.now) }
{
    match *note {
        Note::Sent(name, _) => name.to.0 == core.0,
        _ => false,
    }
}

fn is_delivered_from(sender: ActorNo, note: &Note<u64>) -> bool
    ensures { result ≡ is_some (name_delivered sender note.now) }
{
    match *note {
        Note::Took(name, _) => name.from.0 == sender.0,
        Note::Back(name, _) => name.from.0 == sender.0,
        Note::Answered(name, _) => name.from.0 == sender.0,
        _ => false,
    }
}

fn is_given_to(sender: ActorNo, note: &Note<u64>) -> bool
    ensures { result ≡ is_some (outcome_given sender note.now) }
{
    match *note {
        Note::Done(name, _, _) => name.from.0 == sender.0,
        Note::Back(name, _) => name.from.0 == sender.0,
        Note::Returned(name, _) => name.from.0 == sender.0,
        Note::Answered(name, _) => name.from.0 == sender.0,
        _ => false,
    }
}

fn is_collected_of(core: CoreNo, note: &Note<u64>) -> bool
    ensures { result ≡ is_some (outcome_collected core note.now) }
{
    match *note {
        Note::Collected(name, _) => name.to.0 == core.0,
        _ => false,
    }
}

/// Whether a note tells one more of this list.
fn tells(side: &Side, note: &Note<u64>) -> bool
    ensures { (before : Notes ℕ) → length_of side.now (note.now ∷ before) ≡ length_of side.now before + number_if result }
{
    match *side {
        Side::Sent(core) => is_sent_to(core, note),
        Side::Delivered(sender) => is_delivered_from(sender, note),
        Side::Given(sender) => is_given_to(sender, note),
        Side::Collected(core) => is_collected_of(core, note),
    }
}

/// How long this list is, by the notes up to this line.
pub(crate) fn count_told(side: &Side, journal: &Journal<u64>, line: usize) -> usize
    requires { line ≤ length journal.now.notes }
    ensures { result ≡ length_of side.now (at_place line journal.now.notes) }
{
    let mut count = 0;
    for place in 0..line {
        let note = note_at(journal, place);
        if tells(side, &note) {
            count += 1;
        }
    }
    count
}

/// How long this list is, by all notes.
pub(crate) fn count_all(side: &Side, journal: &Journal<u64>) -> usize
    ensures { result ≡ length_of side.now journal.now.notes }
{
    count_told(side, journal, journal.len())
}
