//! Rule 4: nothing ends twice, what is collected and redeemed is what was given, and a drained core has ended all.

ghost use Rattle.std.specs.Prelude.{◌≡◌, ℕ, IfSome, IsTrue, None, Some, false, true};
ghost use Rattle.base_words.specs.Assembly.{Assembly, outcome_of, IsAcceptedJob};
ghost use Rattle.base_words.specs.Clauses.{OutcomesRight};
ghost use Rattle.base_words.specs.Filters.{name_ended};
ghost use Rattle.base_words.specs.Journal.{Journal as Notes, EachNote, is_told};
ghost use Rattle.judge_audit.specs.Links.{KnowsOrders, KnowsOutcomes};
ghost use Rattle.note_facts.specs.Faults.{IsFirstFault};
ghost use Rattle.note_facts.specs.Histories.{FitsPlace, IsHistory, TellsOf};

use crate::links::{is_accepted_command, is_accepted_job, outcome_under};
use base_words::{JobId, Note, Order, OutcomeNote};
use note_facts::same::same_outcome;
use note_facts::{Fact, History, NameTable, note_at};
use note_journal::Journal;

/// Whether this is an accepted job that hasn't ended.
fn may_end(orders: &[NameTable<Order<()>>], fact: &Fact, name: &JobId) -> bool
    ensures right { (assembly : Assembly ℕ) (before : Notes ℕ) → KnowsOrders orders.now assembly → TellsOf fact.now name.now before → IsTrue result → IsAcceptedJob name.now assembly × (is_told name_ended name.now before ≡ false) }
    ensures only { (assembly : Assembly ℕ) (before : Notes ℕ) → KnowsOrders orders.now assembly → TellsOf fact.now name.now before → (IsAcceptedJob name.now assembly × (is_told name_ended name.now before ≡ false)) → IsTrue result }
{
    is_accepted_job(orders, name) && !fact.ended
}

/// Whether this is the outcome that was given under the name.
fn is_given(
    outcomes: &[NameTable<OutcomeNote<u64>>],
    name: &JobId,
    outcome: &OutcomeNote<u64>,
) -> bool
    ensures right { (assembly : Assembly ℕ) → KnowsOutcomes outcomes.now assembly → IsTrue result → outcome_of name.now assembly ≡ Some outcome.now }
    ensures only { (assembly : Assembly ℕ) → KnowsOutcomes outcomes.now assembly → outcome_of name.now assembly ≡ Some outcome.now → IsTrue result }
{
    match outcome_under(outcomes, name) {
        Some(given) => same_outcome(&given, outcome),
        None => false,
    }
}

/// Whether the outcome that was collected is redeemed, and for the first time.
fn may_redeem(fact: &Fact) -> bool
    ensures right { IsTrue result → (fact.now.collected ≡ true) × (fact.now.redeemed ≡ false) }
    ensures only { fact.now.collected ≡ true → fact.now.redeemed ≡ false → IsTrue result }
{
    fact.collected && !fact.redeemed
}

/// Whether a note ends, answers, collects or redeems as it may.
fn outcomes_right(
    orders: &[NameTable<Order<()>>],
    outcomes: &[NameTable<OutcomeNote<u64>>],
    fact: &Fact,
    note: &Note<u64>,
) -> bool
    ensures right { (assembly : Assembly ℕ) (before : Notes ℕ) → KnowsOrders orders.now assembly → KnowsOutcomes outcomes.now assembly → FitsPlace fact.now note.now before → IsTrue result → OutcomesRight assembly note.now before }
    ensures only { (assembly : Assembly ℕ) (before : Notes ℕ) → KnowsOrders orders.now assembly → KnowsOutcomes outcomes.now assembly → FitsPlace fact.now note.now before → OutcomesRight assembly note.now before → IsTrue result }
{
    match *note {
        Note::Done(name, _, _) => may_end(orders, fact, &name) && fact.started,
        Note::Back(name, _) => may_end(orders, fact, &name),
        Note::Returned(name, _) => may_end(orders, fact, &name),
        Note::Answered(name, _) => is_accepted_command(orders, &name) && !fact.answered,
        Note::Collected(name, outcome) => is_given(outcomes, &name, &outcome),
        Note::Redeemed(name, outcome) => may_redeem(fact) && is_given(outcomes, &name, &outcome),
        _ => true,
    }
}

/// The line of the first note that ends, answers, collects or redeems as it may not, by the history of the journal.
pub fn outcomes_fault(
    orders: &[NameTable<Order<()>>],
    outcomes: &[NameTable<OutcomeNote<u64>>],
    history: &History,
    journal: &Journal<u64>,
) -> Option<usize>
    requires { IsHistory history.now journal.now.notes }
    ensures kept { result ≡ None → (assembly : Assembly ℕ) → KnowsOrders orders.now assembly → KnowsOutcomes outcomes.now assembly → EachNote (OutcomesRight assembly) journal.now.notes }
    ensures named { IfSome result (λ at. (assembly : Assembly ℕ) → KnowsOrders orders.now assembly → KnowsOutcomes outcomes.now assembly → IsFirstFault (OutcomesRight assembly) journal.now.notes at) }
{
    for place in 0..journal.len() {
        let note = note_at(journal, place);
        let fact = history.fact(place);
        if !outcomes_right(orders, outcomes, &fact, &note) {
            return Some(place + 1);
        }
    }
    None
}
