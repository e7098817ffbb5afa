//! The first place at which a rule is broken: the least actor, and of that the least line.
//!
//! Each rule has a function that finds the first line of one actor, and one that goes through the actors in their order and stops at the first
//! that has such a line.

ghost use Rattle.std.specs.Prelude.{◌≡◌, ◌+◌, ◌<◌, ◌≤◌, IfSome, None, false};
ghost use Rattle.base_words.specs.Assembly.{journal_of};
ghost use Rattle.base_words.specs.Limits.{most_cores};
ghost use Rattle.base_words.specs.Sound.{StartsAreSound, OrderIsSound, ClosesAreSound, OutcomesAreSound, PicksAreSound};
ghost use Rattle.base_words.specs.Spelled.{IsSpelled};
ghost use Rattle.note_facts.specs.Histories.{IsHistory};
ghost use Rattle.judge_audit.specs.Faults.{IsFirstPlace, StartsFault, OrderFault, ClosesFault, OutcomesFault, PicksFault};
ghost use Rattle.judge_audit.specs.Histories.{AreHistories};
ghost use Rattle.judge_audit.specs.OrderFaults.{IsLeast, DeliveriesOff, CollectionsOff, LinksOff, lesser};
ghost use Rattle.judge_audit.specs.Places.{StartsOf, DeliveriesOf, CollectionsOf, IsInOrder, ClosesOf, LosesNothing, OutcomesOf, PicksOf};
ghost use Rattle.judge_audit.specs.Links.{KnowsOrders, KnowsOutcomes};

use crate::closes::closes_fault;
use crate::histories::history_of;
use crate::lost::has_lost;
use crate::order::order_fault;
use crate::outcomes::outcomes_fault;
use crate::picks::picks_fault;
use crate::prefixes::{collections_fault, deliveries_fault};
use crate::starts::starts_fault;
use base_words::{ActorNo, CoreNo, Order, OutcomeNote};
use note_facts::{History, NameTable};
use note_journal::Assembly;

/// A line of an actor's journal, from 1, or 0 if no single note is at fault.
#[derive(Clone, Copy)]
pub(crate) struct FaultPlace {
    pub actor: ActorNo,
    pub line: usize,
}

/// The lesser of two lines.
fn first_line(one: Option<usize>, other: Option<usize>) -> Option<usize>
    ensures kept { result ≡ None → (one ≡ None) × (other ≡ None) }
    ensures only { one ≡ None → other ≡ None → result ≡ None }
    ensures value { result ≡ lesser one other }
{
    let Some(line) = one else {
        return other;
    };
    match other {
        Some(second) => Some(line.min(second)),
        None => one,
    }
}

/// The first place at which the first rule is broken.
pub(crate) fn starts_place(
    orders: &[NameTable<Order<()>>],
    histories: &[History],
    assembly: &Assembly,
) -> Option<FaultPlace>
    requires few { assembly.now.cores ≤ most_cores }
    requires orders { KnowsOrders orders.now assembly.now }
    requires histories { AreHistories histories.now assembly.now (assembly.now.cores + 1) }
    ensures kept { result ≡ None → StartsAreSound assembly.now }
    ensures named { IfSome result (λ place. IsFirstPlace (assembly.now.cores + 1) (StartsOf assembly.now) (StartsFault assembly.now) place.actor place.line) }
{
    for actor in 0..assembly.cores() + 1 {
        let journal = assembly.journal(ActorNo(actor));
        let history = history_of(histories, actor);
        if let Some(line) = starts_fault(orders, history, journal) {
            return Some(FaultPlace {
                actor: ActorNo(actor),
                line,
            });
        }
    }
    None
}

/// The line of the first note of a core that delivers what no sender's next submission is.
fn deliveries_line(assembly: &Assembly, core: CoreNo) -> Option<usize>
    requires few { assembly.now.cores ≤ most_cores }
    requires here { core < assembly.now.cores }
    ensures kept { result ≡ None → DeliveriesOf assembly.now core }
    ensures only { DeliveriesOf assembly.now core → result ≡ None }
    ensures least { IsLeast (DeliveriesOff assembly.now core (assembly.now.cores + 1)) result }
{
    let mut line = None;
    let delivered = assembly.journal(ActorNo(core.0));
    for sender in 0..assembly.cores() + 1 {
        let sent = assembly.journal(ActorNo(sender));
        let fault = deliveries_fault(ActorNo(sender), core, sent, delivered);
        line = first_line(line, fault);
    }
    line
}

/// The line of the first note of an actor that collects what isn't the next outcome of a core.
fn collections_line(assembly: &Assembly, sender: ActorNo) -> Option<usize>
    requires { sender ≤ assembly.now.cores }
    ensures kept { result ≡ None → CollectionsOf assembly.now sender }
    ensures only { CollectionsOf assembly.now sender → result ≡ None }
    ensures least { IsLeast (CollectionsOff assembly.now sender assembly.now.cores) result }
{
    let mut line = None;
    let collected = assembly.journal(sender);
    for core in 0..assembly.cores() {
        let given = assembly.journal(ActorNo(core));
        let fault = collections_fault(sender, CoreNo(core), collected, given);
        line = first_line(line, fault);
    }
    line
}

/// The line of the first note of an actor that breaks the order of a link.
fn links_line(assembly: &Assembly, actor: u8) -> Option<usize>
    requires few { assembly.now.cores ≤ most_cores }
    requires here { actor ≤ assembly.now.cores }
    ensures kept { result ≡ None → (actor < assembly.now.cores → DeliveriesOf assembly.now actor) × CollectionsOf assembly.now actor }
    ensures only { (actor < assembly.now.cores → DeliveriesOf assembly.now actor) → CollectionsOf assembly.now actor → result ≡ None }
    ensures least { IsLeast (LinksOff assembly.now actor) result }
{
    let collections = collections_line(assembly, ActorNo(actor));
    if actor < assembly.cores() {
        first_line(deliveries_line(assembly, CoreNo(actor)), collections)
    } else {
        collections
    }
}

/// The line of the first note of an actor that breaks the second rule.
fn order_line(orders: &[NameTable<Order<()>>], assembly: &Assembly, actor: u8) -> Option<usize>
    requires few { assembly.now.cores ≤ most_cores }
    requires here { actor ≤ assembly.now.cores }
    requires orders { KnowsOrders orders.now assembly.now }
    requires spelled { IsSpelled assembly.now }
    requires starts { StartsAreSound assembly.now }
    ensures kept { result ≡ None → IsInOrder assembly.now actor }
    ensures named { IfSome result (OrderFault assembly.now actor) }
{
    let journal = assembly.journal(ActorNo(actor));
    let notes = order_fault(orders, journal);
    first_line(notes, links_line(assembly, actor))
}

/// The first place at which the second rule is broken.
pub(crate) fn order_place(
    orders: &[NameTable<Order<()>>],
    assembly: &Assembly,
) -> Option<FaultPlace>
    requires few { assembly.now.cores ≤ most_cores }
    requires orders { KnowsOrders orders.now assembly.now }
    requires spelled { IsSpelled assembly.now }
    requires starts { StartsAreSound assembly.now }
    ensures kept { result ≡ None → OrderIsSound assembly.now }
    ensures named { IfSome result (λ place. IsFirstPlace (assembly.now.cores + 1) (IsInOrder assembly.now) (OrderFault assembly.now) place.actor place.line) }
{
    for actor in 0..assembly.cores() + 1 {
        if let Some(line) = order_line(orders, assembly, actor) {
            return Some(FaultPlace {
                actor: ActorNo(actor),
                line,
            });
        }
    }
    None
}

/// The first place at which the third rule is broken.
pub(crate) fn closes_place(assembly: &Assembly) -> Option<FaultPlace>
    ensures kept { result ≡ None → ClosesAreSound assembly.now }
    ensures named { IfSome result (λ place. IsFirstPlace assembly.now.cores (ClosesOf assembly.now) (ClosesFault assembly.now) place.actor place.line) }
{
    for core in 0..assembly.cores() {
        if let Some(line) = closes_fault(assembly, CoreNo(core)) {
            return Some(FaultPlace {
                actor: ActorNo(core),
                line,
            });
        }
    }
    None
}

/// Whether the actor is a drained core that has lost something.
fn is_lost(
    history: &History,
    orders: &[NameTable<Order<()>>],
    assembly: &Assembly,
    actor: u8,
) -> bool
    requires few { assembly.now.cores ≤ most_cores }
    requires orders { KnowsOrders orders.now assembly.now }
    requires history { IsHistory history.now (journal_of actor assembly.now) }
    ensures kept { result ≡ false → LosesNothing assembly.now actor }
    ensures only { LosesNothing assembly.now actor → result ≡ false }
{
    actor < assembly.cores() && has_lost(history, orders, assembly, CoreNo(actor))
}

/// The line of an actor's first fault of the fourth rule: 0 if it is a drained core that has lost something.
fn outcomes_line(
    orders: &[NameTable<Order<()>>],
    outcomes: &[NameTable<OutcomeNote<u64>>],
    history: &History,
    assembly: &Assembly,
    actor: u8,
) -> Option<usize>
    requires few { assembly.now.cores ≤ most_cores }
    requires here { actor ≤ assembly.now.cores }
    requires orders { KnowsOrders orders.now assembly.now }
    requires outcomes { KnowsOutcomes outcomes.now assembly.now }
    requires history { IsHistory history.now (journal_of actor assembly.now) }
    ensures kept { result ≡ None → OutcomesOf assembly.now actor }
    ensures named { IfSome result (OutcomesFault assembly.now actor) }
{
    if is_lost(history, orders, assembly, actor) {
        return Some(0);
    }
    let journal = assembly.journal(ActorNo(actor));
    outcomes_fault(orders, outcomes, history, journal)
}

/// The first place at which the fourth rule is broken.
pub(crate) fn outcomes_place(
    orders: &[NameTable<Order<()>>],
    outcomes: &[NameTable<OutcomeNote<u64>>],
    histories: &[History],
    assembly: &Assembly,
) -> Option<FaultPlace>
    requires few { assembly.now.cores ≤ most_cores }
    requires orders { KnowsOrders orders.now assembly.now }
    requires outcomes { KnowsOutcomes outcomes.now assembly.now }
    requires histories { AreHistories histories.now assembly.now (assembly.now.cores + 1) }
    ensures kept { result ≡ None → OutcomesAreSound assembly.now }
    ensures named { IfSome result (λ place. IsFirstPlace (assembly.now.cores + 1) (OutcomesOf assembly.now) (OutcomesFault assembly.now) place.actor place.line) }
{
    for actor in 0..assembly.cores() + 1 {
        let history = history_of(histories, actor);
        if let Some(line) = outcomes_line(orders, outcomes, history, assembly, actor) {
            return Some(FaultPlace {
                actor: ActorNo(actor),
                line,
            });
        }
    }
    None
}

/// The first place at which the fifth rule is broken.
pub(crate) fn picks_place(histories: &[History], assembly: &Assembly) -> Option<FaultPlace>
    requires spelled { IsSpelled assembly.now }
    requires histories { AreHistories histories.now assembly.now (assembly.now.cores + 1) }
    ensures kept { result ≡ None → PicksAreSound assembly.now }
    ensures named { IfSome result (λ place. IsFirstPlace assembly.now.cores (PicksOf assembly.now) (PicksFault assembly.now) place.actor place.line) }
{
    for core in 0..assembly.cores() {
        let journal = assembly.journal(ActorNo(core));
        let history = history_of(histories, core);
        if let Some(line) = picks_fault(assembly.burst(), history, journal) {
            return Some(FaultPlace {
                actor: ActorNo(core),
                line,
            });
        }
    }
    None
}
