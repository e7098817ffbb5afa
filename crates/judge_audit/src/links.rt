//! What was accepted and given under each name, journal by journal.

ghost use Rattle.std.specs.Prelude.{◌≡◌, ℕ, ◌≤◌, IfOk, IsTrue};
ghost use Rattle.base_words.specs.Assembly.{Assembly as AllJournals, IsAcceptedJob, IsAcceptedCommand};
ghost use Rattle.judge_audit.specs.Links.{KnowsOrders, KnowsOutcomes, KnowsOrdersOf, KnowsOutcomesOf, under};

use base_words::{ActorNo, JobId, Note, Order, OutcomeNote};
use note_facts::told::{order_told, outcome_told};
use note_facts::{NameTable, note_at};
use note_journal::{Assembly, Journal};
use std::alloc::{AllocError, Global};

/// The order that was first sent under each name, in one journal.
fn orders_of(alloc: Global, journal: &Journal<u64>) -> Result<NameTable<Order<()>>, AllocError>
    ensures { IfOk result (λ orders. KnowsOrdersOf orders journal.now.notes) }
{
    let mut orders = NameTable::new(alloc);
    for place in 0..journal.len() {
        let note = note_at(journal, place);
        orders.keep_first(order_told(&note))?;
    }
    Ok(orders)
}

/// The outcome that was first given under each name, in one journal.
fn outcomes_of(
    alloc: Global,
    journal: &Journal<u64>,
) -> Result<NameTable<OutcomeNote<u64>>, AllocError>
    ensures { IfOk result (λ outcomes. KnowsOutcomesOf outcomes journal.now.notes) }
{
    let mut outcomes = NameTable::new(alloc);
    for place in 0..journal.len() {
        let note = note_at(journal, place);
        outcomes.keep_first(outcome_told(&note))?;
    }
    Ok(outcomes)
}

/// The orders that were sent, a table for each sender.
pub fn orders_sent(
    alloc: Global,
    assembly: &Assembly,
) -> Result<Vec<NameTable<Order<()>>>, AllocError>
    ensures { IfOk result (λ orders. KnowsOrders orders.items assembly.now) }
{
    let mut orders = Vec::new(alloc);
    let outside = assembly.cores();
    for actor in 0..outside {
        orders.push(orders_of(alloc, assembly.journal(ActorNo(actor)))?)?;
    }
    orders.push(orders_of(alloc, assembly.journal(ActorNo(outside)))?)?;
    Ok(orders)
}

/// The outcomes that were given, a table for each actor.
pub fn outcomes_given(
    alloc: Global,
    assembly: &Assembly,
) -> Result<Vec<NameTable<OutcomeNote<u64>>>, AllocError>
    ensures { IfOk result (λ outcomes. KnowsOutcomes outcomes.items assembly.now) }
{
    let mut outcomes = Vec::new(alloc);
    let outside = assembly.cores();
    for actor in 0..outside {
        outcomes.push(outcomes_of(alloc, assembly.journal(ActorNo(actor)))?)?;
    }
    outcomes.push(outcomes_of(alloc, assembly.journal(ActorNo(outside)))?)?;
    Ok(outcomes)
}

/// The order that was sent under this name.
pub fn order_under(orders: &[NameTable<Order<()>>], name: &JobId) -> Option<Order<()>>
    ensures { result ≡ under orders.now name.now.from name.now }
{
    match orders.get(name.from.0 as usize) {
        Some(table) => table.get(name),
        None => None,
    }
}

/// The outcome that was given under this name.
pub fn outcome_under(
    outcomes: &[NameTable<OutcomeNote<u64>>],
    name: &JobId,
) -> Option<OutcomeNote<u64>>
    ensures { result ≡ under outcomes.now name.now.to name.now }
{
    match outcomes.get(name.to.0 as usize) {
        Some(table) => table.get(name),
        None => None,
    }
}

/// Whether a job was sent under this name.
pub fn is_accepted_job(orders: &[NameTable<Order<()>>], name: &JobId) -> bool
    ensures right { (assembly : AllJournals ℕ) → KnowsOrders orders.now assembly → IsTrue result → IsAcceptedJob name.now assembly }
    ensures only { (assembly : AllJournals ℕ) → KnowsOrders orders.now assembly → IsAcceptedJob name.now assembly → IsTrue result }
{
    match order_under(orders, name) {
        Some(Order::Job(_, _)) => true,
        _ => false,
    }
}

/// Whether a command was sent under this name.
pub fn is_accepted_command(orders: &[NameTable<Order<()>>], name: &JobId) -> bool
    ensures right { (assembly : AllJournals ℕ) → KnowsOrders orders.now assembly → IsTrue result → IsAcceptedCommand name.now assembly }
    ensures only { (assembly : AllJournals ℕ) → KnowsOrders orders.now assembly → IsAcceptedCommand name.now assembly → IsTrue result }
{
    match order_under(orders, name) {
        None | Some(Order::Job(_, _)) => false,
        Some(_) => true,
    }
}
