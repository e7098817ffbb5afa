//! Rule 1: only accepted jobs that are inside start or resume, and each starts at most once.

ghost use Rattle.std.specs.Prelude.{◌≡◌, ℕ, IfSome, IsTrue, None};
ghost use Rattle.base_words.specs.Assembly.{Assembly};
ghost use Rattle.base_words.specs.Clauses.{StartsRight, IsAcceptedInside};
ghost use Rattle.base_words.specs.Journal.{Journal as Notes, EachNote};
ghost use Rattle.judge_audit.specs.Links.{KnowsOrders};
ghost use Rattle.note_facts.specs.Faults.{IsFirstFault};
ghost use Rattle.note_facts.specs.Histories.{FitsPlace, IsHistory, TellsOf};

use crate::links::is_accepted_job;
use base_words::{JobId, Note, Order};
use note_facts::{Fact, History, NameTable, note_at};
use note_journal::Journal;

/// Whether this is an accepted job that is inside.
fn is_inside(orders: &[NameTable<Order<()>>], fact: &Fact, name: &JobId) -> bool
    ensures right { (assembly : Assembly ℕ) (before : Notes ℕ) → KnowsOrders orders.now assembly → TellsOf fact.now name.now before → IsTrue result → IsAcceptedInside assembly name.now before }
    ensures only { (assembly : Assembly ℕ) (before : Notes ℕ) → KnowsOrders orders.now assembly → TellsOf fact.now name.now before → IsAcceptedInside assembly name.now before → IsTrue result }
{
    is_accepted_job(orders, name) && fact.queue.is_some() && !fact.ended
}

/// Whether a note starts or resumes a job as it may.
fn starts_right(orders: &[NameTable<Order<()>>], fact: &Fact, note: &Note<u64>) -> bool
    ensures right { (assembly : Assembly ℕ) (before : Notes ℕ) → KnowsOrders orders.now assembly → FitsPlace fact.now note.now before → IsTrue result → StartsRight assembly note.now before }
    ensures only { (assembly : Assembly ℕ) (before : Notes ℕ) → KnowsOrders orders.now assembly → FitsPlace fact.now note.now before → StartsRight assembly note.now before → IsTrue result }
{
    match *note {
        Note::Start(name) => is_inside(orders, fact, &name) && !fact.started,
        Note::Resume(name) => is_inside(orders, fact, &name) && fact.started,
        _ => true,
    }
}

/// The line of the first note that starts or resumes a job as it may not, by the history of the journal.
pub fn starts_fault(
    orders: &[NameTable<Order<()>>],
    history: &History,
    journal: &Journal<u64>,
) -> Option<usize>
    requires { IsHistory history.now journal.now.notes }
    ensures kept { result ≡ None → (assembly : Assembly ℕ) → KnowsOrders orders.now assembly → EachNote (StartsRight assembly) journal.now.notes }
    ensures named { IfSome result (λ at. (assembly : Assembly ℕ) → KnowsOrders orders.now assembly → IsFirstFault (StartsRight assembly) journal.now.notes at) }
{
    for place in 0..journal.len() {
        let note = note_at(journal, place);
        let fact = history.fact(place);
        if !starts_right(orders, &fact, &note) {
            return Some(place + 1);
        }
    }
    None
}
