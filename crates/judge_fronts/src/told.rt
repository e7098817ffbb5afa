//! What the journals have told so far under a name, and whether they end with a pick.

ghost use Rattle.std.specs.Prelude.{◌≡◌, is_some};
ghost use Rattle.base_words.specs.Assembly.{order_of, outcome_of};
ghost use Rattle.base_words.specs.Picks.{queue_just_picked};
ghost use Rattle.judge_audit.specs.Links.{order_in};
ghost use Rattle.note_facts.specs.Names.{value_under};
ghost use Rattle.note_facts.specs.Told.{order_told};

use base_words::{JobId, Note};
use note_facts::note_at;
use note_journal::{Assembly, Journal, same_name};

/// Whether a note sends under this name.
fn sends(note: &Note<u64>, name: &JobId) -> bool
    ensures { result ≡ is_some (value_under name.now (order_told note.now)) }
{
    match *note {
        Note::Sent(other, _) => same_name(name, &other),
        _ => false,
    }
}

/// Whether an order was sent under this name, by the journal of its sender.
fn has_sent(journal: &Journal<u64>, name: &JobId) -> bool
    ensures { result ≡ is_some (order_in name.now journal.now.notes) }
{
    for place in 0..journal.len() {
        let note = note_at(journal, place);
        if sends(&note, name) {
            return true;
        }
    }
    false
}

/// Whether an order was sent under this name.
pub(crate) fn has_order(assembly: &Assembly, name: &JobId) -> bool
    ensures { result ≡ is_some (order_of name.now assembly.now) }
{
    if name.from.0 > assembly.cores() {
        return false;
    }
    has_sent(assembly.journal(name.from), name)
}

/// Whether an outcome was given under this name.
pub(crate) fn has_outcome(assembly: &Assembly, name: &JobId) -> bool
    ensures { result ≡ is_some (outcome_of name.now assembly.now) }
{
    assembly.outcome(*name).is_some()
}

/// Whether the last note is a pick.
pub(crate) fn ends_with_pick(journal: &Journal<u64>) -> bool
    ensures { result ≡ is_some (queue_just_picked journal.now.notes) }
{
    if journal.len() == 0 {
        return false;
    }
    match note_at(journal, journal.len() - 1) {
        Note::Pick(_, _) => true,
        _ => false,
    }
}
