//! Whether one list of a link is the beginning of another.

ghost use Rattle.std.specs.Prelude.{◌≡◌, ◌≤◌, None, IfSome, IsTrue, length};
ghost use Rattle.base_words.specs.Assembly.{IsPrefix, names_of};
ghost use Rattle.base_words.specs.Filters.{accepted_orders, delivered_names, given_outcomes, collected_outcomes};
ghost use Rattle.base_words.specs.Journal.{list_told, with_last, at_place};
ghost use Rattle.judge_audit.specs.Sides.{name_told, IsNext, Advances, TurnsOff};

use crate::sides::{Side, name_told};
use base_words::{ActorNo, CoreNo, JobId, Note};
use note_facts::note_at;
use note_journal::{Journal, same_name};

/// The next name of a list at this place or behind it, and the place behind its note.
fn next_told(side: &Side, journal: &Journal<u64>, from: usize) -> Option<(JobId, usize)>
    requires { from ≤ length journal.now.notes }
    ensures next { IfSome result (λ found. IsNext side.now journal.now.notes from found.0 found.1) }
    ensures last { result ≡ None → list_told (name_told side.now) journal.now.notes ≡ list_told (name_told side.now) (at_place from journal.now.notes) }
{
    for place in from..journal.len() {
        let note = note_at(journal, place);
        if let Some(name) = name_told(side, &note) {
            return Some((name, place + 1));
        }
    }
    None
}

/// The place behind the next name of the whole list, if the note tells that name; this place, if the note tells none.
fn advance(
    front: &Side,
    note: &Note<u64>,
    whole: &Side,
    other: &Journal<u64>,
    behind: usize,
) -> Option<usize>
    requires { behind ≤ length other.now.notes }
    ensures right { IfSome result (Advances front.now note.now whole.now other.now.notes behind) }
    ensures only { result ≡ None → IsPrefix (with_last (list_told (name_told whole.now) (at_place behind other.now.notes)) (name_told front.now note.now)) (list_told (name_told whole.now) other.now.notes) → ⊥ }
{
    let Some(name) = name_told(front, note) else {
        return Some(behind);
    };
    let Some((next, found)) = next_told(whole, other, behind) else {
        return None;
    };
    if same_name(&next, &name) {
        Some(found)
    } else {
        None
    }
}

/// The line of the first note that tells another name than the list which it is to be the beginning of.
fn prefix_fault(
    front: &Side,
    journal: &Journal<u64>,
    whole: &Side,
    other: &Journal<u64>,
) -> Option<usize>
    ensures kept { result ≡ None → IsPrefix (list_told (name_told front.now) journal.now.notes) (list_told (name_told whole.now) other.now.notes) }
    ensures named { IfSome result (TurnsOff (list_told (name_told front.now)) journal.now.notes (list_told (name_told whole.now) other.now.notes)) }
{
    let mut behind = 0;
    for place in 0..journal.len() {
        let note = note_at(journal, place);
        let Some(found) = advance(front, &note, whole, other, behind) else {
            return Some(place + 1);
        };
        behind = found;
    }
    None
}

/// The line of the first note of a core that delivers another submission than the next one that the sender sent.
pub fn deliveries_fault(
    sender: ActorNo,
    core: CoreNo,
    sent: &Journal<u64>,
    delivered: &Journal<u64>,
) -> Option<usize>
    ensures kept { result ≡ None → IsPrefix (delivered_names sender delivered.now.notes) (names_of (accepted_orders core sent.now.notes)) }
    ensures named { IfSome result (TurnsOff (delivered_names sender) delivered.now.notes (names_of (accepted_orders core sent.now.notes))) }
{
    prefix_fault(&Side::Delivered(sender), delivered, &Side::Sent(core), sent)
}

/// The line of the first note of a sender that collects another outcome than the next one that the core gave.
pub fn collections_fault(
    sender: ActorNo,
    core: CoreNo,
    collected: &Journal<u64>,
    given: &Journal<u64>,
) -> Option<usize>
    ensures kept { result ≡ None → IsPrefix (names_of (collected_outcomes core collected.now.notes)) (names_of (given_outcomes sender given.now.notes)) }
    ensures named { IfSome result (TurnsOff (λ notes. names_of (collected_outcomes core notes)) collected.now.notes (names_of (given_outcomes sender given.now.notes))) }
{
    prefix_fault(
        &Side::Collected(core),
        collected,
        &Side::Given(sender),
        given,
    )
}
