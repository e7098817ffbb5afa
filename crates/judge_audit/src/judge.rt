//! The audit of the journals of all actors.
//!
//! The rules are tried in the order of their numbers, and the first one that is broken is told. Each function here has tried one rule more than
//! the one that calls it. What the rules ask of a name is put into tables before the first is tried: then want of memory can't be met halfway.

ghost use Rattle.std.specs.Prelude.{◌≡◌, ◌+◌, ◌≤◌, IfOk, Ok};
ghost use Rattle.base_words.specs.Limits.{most_cores};
ghost use Rattle.base_words.specs.Sound.{IsSound, StartsAreSound, OrderIsSound, ClosesAreSound, OutcomesAreSound};
ghost use Rattle.base_words.specs.Spelled.{IsSpelled};
ghost use Rattle.judge_audit.specs.declared.judge.Verdict.TheVariants.{Sound, Fault};
ghost use Rattle.judge_audit.specs.Histories.{AreHistories};
ghost use Rattle.judge_audit.specs.Verdicts.{KeepsRulesBefore, IsFirstBroken, IsVerdict, rule_named};
ghost use Rattle.judge_audit.specs.Links.{KnowsOrders, KnowsOutcomes};

use crate::histories::histories_of;
use crate::links::{orders_sent, outcomes_given};
use crate::places::{
    FaultPlace, closes_place, order_place, outcomes_place, picks_place, starts_place,
};
use base_words::{ActorNo, Order, OutcomeNote};
use note_facts::{History, NameTable};
use note_journal::Assembly;
use std::alloc::{AllocError, Global};

/// What an audit finds.
#[derive(Clone, Copy, PartialEq, Eq, Debug)]
pub enum Verdict {
    /// The journals are spelled and sound.
    Sound,
    /// A rule is broken at this line of this actor's journal, counted from 1, or 0 if no single note is at fault.
    /// The rules are 1 starts, 2 order, 3 closes, 4 outcomes and 5 picks.
    Fault {
        actor: ActorNo,
        line: usize,
        rule: u8,
    },
}

/// Why there is no verdict.
#[derive(Clone, Copy, PartialEq, Eq, Debug, thiserror::Error)]
pub enum AuditError {
    /// There is not enough memory.
    #[error("out of memory")]
    Memory,
}

/// Whether the journals are spelled and sound, and if not, their first fault: of the least rule, then of the least actor, then of the least line.
///
/// Journals that aren't spelled are a fault of rule 1 at line 0 of actor 0.
///
/// # Errors
///
/// `Memory` if there isn't enough. All memory is asked for before the first rule is tried.
pub fn audit(alloc: Global, assembly: &Assembly) -> Result<Verdict, AuditError>
    ensures sound { IfOk result (λ verdict. verdict ≡ Sound → IsSpelled assembly.now × IsSound assembly.now) }
    ensures first { IfOk result (λ verdict. KeepsRulesBefore assembly.now (rule_named verdict)) }
    ensures rule { IfOk result (λ verdict. IsSpelled assembly.now → IsFirstBroken assembly.now (rule_named verdict)) }
    ensures place { IfOk result (λ verdict. IsSpelled assembly.now → IsVerdict assembly.now verdict) }
    ensures only { IfOk result (λ verdict. IsSpelled assembly.now → IsSound assembly.now → verdict ≡ Sound) }
    ensures unspelled { (IsSpelled assembly.now → ⊥) → result ≡ Ok (Fault 0 0 1) }
{
    if !assembly.is_spelled() {
        return Ok(Verdict::Fault {
            actor: ActorNo(0),
            line: 0,
            rule: 1,
        });
    }
    match verdict_of(alloc, assembly) {
        Ok(verdict) => Ok(verdict),
        Err(_) => Err(AuditError::Memory),
    }
}

/// The verdict on journals that are spelled. Here all memory is asked for.
fn verdict_of(alloc: Global, assembly: &Assembly) -> Result<Verdict, AllocError>
    requires few { assembly.now.cores ≤ most_cores }
    requires spelled { IsSpelled assembly.now }
    ensures { IfOk result (IsVerdict assembly.now) }
{
    let orders = orders_sent(alloc, assembly)?;
    let outcomes = outcomes_given(alloc, assembly)?;
    let histories = histories_of(alloc, assembly)?;
    let verdict = verdict_by(
        orders.as_slice(),
        outcomes.as_slice(),
        histories.as_slice(),
        assembly,
    );
    Ok(verdict)
}

/// The fault of this rule at this place.
fn fault(place: &FaultPlace, rule: u8) -> Verdict
    ensures { result ≡ Fault place.now.actor place.now.line rule }
{
    Verdict::Fault {
        actor: place.actor,
        line: place.line,
        rule,
    }
}

/// The verdict on journals that are spelled, by what was sent and given in all, and what each note's name was told before.
fn verdict_by(
    orders: &[NameTable<Order<()>>],
    outcomes: &[NameTable<OutcomeNote<u64>>],
    histories: &[History],
    assembly: &Assembly,
) -> Verdict
    requires few { assembly.now.cores ≤ most_cores }
    requires spelled { IsSpelled assembly.now }
    requires orders { KnowsOrders orders.now assembly.now }
    requires outcomes { KnowsOutcomes outcomes.now assembly.now }
    requires histories { AreHistories histories.now assembly.now (assembly.now.cores + 1) }
    ensures { IsVerdict assembly.now result }
{
    match starts_place(orders, histories, assembly) {
        Some(place) => fault(&place, 1),
        None => from_order(orders, outcomes, histories, assembly),
    }
}

/// The verdict if the first rule is kept.
fn from_order(
    orders: &[NameTable<Order<()>>],
    outcomes: &[NameTable<OutcomeNote<u64>>],
    histories: &[History],
    assembly: &Assembly,
) -> Verdict
    requires few { assembly.now.cores ≤ most_cores }
    requires spelled { IsSpelled assembly.now }
    requires orders { KnowsOrders orders.now assembly.now }
    requires outcomes { KnowsOutcomes outcomes.now assembly.now }
    requires histories { AreHistories histories.now assembly.now (assembly.now.cores + 1) }
    requires starts { StartsAreSound assembly.now }
    ensures { IsVerdict assembly.now result }
{
    match order_place(orders, assembly) {
        Some(place) => fault(&place, 2),
        None => from_closes(orders, outcomes, histories, assembly),
    }
}

/// The verdict if the first two rules are kept.
fn from_closes(
    orders: &[NameTable<Order<()>>],
    outcomes: &[NameTable<OutcomeNote<u64>>],
    histories: &[History],
    assembly: &Assembly,
) -> Verdict
    requires few { assembly.now.cores ≤ most_cores }
    requires spelled { IsSpelled assembly.now }
    requires orders { KnowsOrders orders.now assembly.now }
    requires outcomes { KnowsOutcomes outcomes.now assembly.now }
    requires histories { AreHistories histories.now assembly.now (assembly.now.cores + 1) }
    requires starts { StartsAreSound assembly.now }
    requires order { OrderIsSound assembly.now }
    ensures { IsVerdict assembly.now result }
{
    match closes_place(assembly) {
        Some(place) => fault(&place, 3),
        None => from_outcomes(orders, outcomes, histories, assembly),
    }
}

/// The verdict if the first three rules are kept.
fn from_outcomes(
    orders: &[NameTable<Order<()>>],
    outcomes: &[NameTable<OutcomeNote<u64>>],
    histories: &[History],
    assembly: &Assembly,
) -> Verdict
    requires few { assembly.now.cores ≤ most_cores }
    requires spelled { IsSpelled assembly.now }
    requires orders { KnowsOrders orders.now assembly.now }
    requires outcomes { KnowsOutcomes outcomes.now assembly.now }
    requires histories { AreHistories histories.now assembly.now (assembly.now.cores + 1) }
    requires starts { StartsAreSound assembly.now }
    requires order { OrderIsSound assembly.now }
    requires closes { ClosesAreSound assembly.now }
    ensures { IsVerdict assembly.now result }
{
    match outcomes_place(orders, outcomes, histories, assembly) {
        Some(place) => fault(&place, 4),
        None => from_picks(histories, assembly),
    }
}

/// The verdict if the first four rules are kept.
fn from_picks(histories: &[History], assembly: &Assembly) -> Verdict
    requires spelled { IsSpelled assembly.now }
    requires histories { AreHistories histories.now assembly.now (assembly.now.cores + 1) }
    requires starts { StartsAreSound assembly.now }
    requires order { OrderIsSound assembly.now }
    requires closes { ClosesAreSound assembly.now }
    requires outcomes { OutcomesAreSound assembly.now }
    ensures { IsVerdict assembly.now result }
{
    match picks_place(histories, assembly) {
        Some(place) => fault(&place, 5),
        None => Verdict::Sound,
    }
}
