//! The greatest lags of all pairs of queues, by a walk over the journal of each core.

ghost use Rattle.std.specs.Prelude.{◌≡◌, ◌≤◌, ◌<◌, ◌∷◌, ◌++◌, [], ℕ, length, max, flat_map, OnErr, OnOk, IfOk};
ghost use Rattle.base_words.specs.Assembly.{IsPrefix};
ghost use Rattle.base_words.specs.Journal.{Journal as Notes};
ghost use Rattle.note_facts.specs.Accounts.{greatest_count};
ghost use Rattle.fairview_marks.specs.Leads.{KnowsStanding};
ghost use Rattle.fairview_marks.specs.Lists.{one_of};
ghost use Rattle.fairview_lag.specs.Pairs.{core_pairs, queue_count, run_pairs};
ghost use Rattle.fairview_lag.specs.PairWalks as spec;

use crate::pair_walk::PairWalk;
use crate::pairs::{PairLag, queues_told};
use base_words::{ActorNo, CoreNo, Note, QueueNo};
use fairview_marks::standing::Standing;
use note_facts::note_at;
use note_journal::{Assembly, Journal};
use std::alloc::{AllocError, Global};

/// Of the notes that were read: what is known of all queues of a core, and of each two of them up to the last one that a job entered.
#[derive(Drop)]
pub struct CoreLags {
    standing: Standing,
    /// How many queues there are up to that one.
    count: u32,
    pairs: Vec<PairWalk>,
}

/// Puts the pairs of a queue with each queue of a lower number, none of which had work beside it.
fn push_idle_with(second: QueueNo, pairs: &mut Vec<PairWalk>) -> Result<(), AllocError>
    ensures all { OnOk result (pairs.new.items ≡ pairs.old.items ++ spec.idle_with second) }
    ensures front { IsPrefix pairs.old.items pairs.new.items }
{
    for first in 0..second.0 {
        pairs.push(PairWalk::new(QueueNo(first), second))?;
    }
    Ok(())
}

/// Puts the pairs of the queues from one number up to another, which no job entered so far.
fn push_idle(from: u32, to: u32, pairs: &mut Vec<PairWalk>) -> Result<(), AllocError>
    requires { to ≤ 256 }
    ensures all { OnOk result ((burst : ℕ) (before : Notes ℕ) → from ≡ queue_count before
        → pairs.old.items ≡ spec.pairs_known burst from before → pairs.new.items ≡ spec.pairs_known burst (max from to) before) }
    ensures front { IsPrefix pairs.old.items pairs.new.items }
{
    for second in from..to {
        push_idle_with(QueueNo(second as u8), pairs)?;
    }
    Ok(())
}

/// Each pair reads the next note, behind which this is known of all queues.
fn add_to_all(standing: &Standing, note: &Note<u64>, pairs: &mut Vec<PairWalk>)
    ensures { (burst count : ℕ) (before : Notes ℕ) → KnowsStanding burst standing.now (note.now ∷ before)
        → pairs.old.items ≡ spec.pairs_known burst count before → pairs.new.items ≡ spec.pairs_known burst count (note.now ∷ before) }
{
    for place in 0..pairs.len() {
        pairs[place].add(standing, note);
    }
}

/// Puts a pair behind the others, if there is one.
fn push_told(told: Option<PairLag>, pairs: &mut Vec<PairLag>) -> Result<(), AllocError>
    ensures all { OnOk result (pairs.new.items ≡ pairs.old.items ++ one_of told) }
    ensures refused { OnErr result (pairs.new.items ≡ pairs.old.items) }
{
    if let Some(pair) = told {
        pairs.push(pair)?;
    }
    Ok(())
}

/// Puts the pairs that have a lag.
fn push_all(core: CoreNo, known: &[PairWalk], pairs: &mut Vec<PairLag>) -> Result<(), AllocError>
    ensures all { OnOk result (pairs.new.items ≡ pairs.old.items ++ flat_map (spec.lags_of core) known.now) }
    ensures front { IsPrefix pairs.old.items pairs.new.items }
{
    for pair in known {
        push_told(pair.told(core), pairs)?;
    }
    Ok(())
}

impl CoreLags {
    /// No note was read. A turn may have so many polls: 0 and 1 mean a single one.
    pub fn new(alloc: Global, burst: u8) -> Self
        ensures { spec.KnowsLags {T = ℕ} burst result [] }
    {
        CoreLags {
            standing: Standing::new(alloc, burst),
            count: 0,
            pairs: Vec::new(alloc),
        }
    }

    /// Reads the next note. It goes over all pairs.
    ///
    /// # Errors
    ///
    /// `AllocError` for want of memory; then the note isn't read.
    pub fn add(&mut self, note: &Note<u64>) -> Result<(), AllocError>
        ensures knows { OnOk result ((burst : ℕ) (before : Notes ℕ) → length before < greatest_count → spec.KnowsLags burst self.old before → spec.KnowsLags burst self.new (note.now ∷ before)) }
        ensures refused { OnErr result (spec.IsSame self.old self.new) }
    {
        let told = queues_told(note);
        let known = self.pairs.len();
        match self.add_to_queues(told, note) {
            Ok(()) => {
                self.count = self.count.max(told);
                add_to_all(&self.standing, note, &mut self.pairs);
                Ok(())
            }
            Err(refused) => {
                self.pairs.truncate(known);
                Err(refused)
            }
        }
    }

    /// Puts the pairs of the queues up to this one, and then the queues read the note. After an `Err` no queue reads it, and new pairs may stand behind the others.
    fn add_to_queues(&mut self, told: u32, note: &Note<u64>) -> Result<(), AllocError>
        requires { told ≤ 256 }
        ensures knows { OnOk result ((burst : ℕ) (before : Notes ℕ) → length before < greatest_count → KnowsStanding burst self.old.standing before
            → KnowsStanding burst self.new.standing (note.now ∷ before)) }
        ensures all { OnOk result ((burst : ℕ) (before : Notes ℕ) → self.old.count ≡ queue_count before
            → self.old.pairs.items ≡ spec.pairs_known burst self.old.count before → self.new.pairs.items ≡ spec.pairs_known burst (max self.old.count told) before) }
        ensures count { self.new.count ≡ self.old.count }
        ensures front { IsPrefix self.old.pairs.items self.new.pairs.items }
        ensures refused { OnErr result (self.new.standing ≡ self.old.standing) }
    {
        push_idle(self.count, told, &mut self.pairs)?;
        self.standing.add(note)
    }

    /// Reads the journal of a core whose turns may have so many polls.
    ///
    /// # Errors
    ///
    /// `AllocError` for want of memory.
    pub fn of(alloc: Global, journal: &Journal<u64>, burst: u8) -> Result<Self, AllocError>
        ensures { IfOk result (λ lags. spec.KnowsLags burst lags journal.now.notes) }
    {
        let mut lags = CoreLags::new(alloc, burst);
        for place in 0..journal.len() {
            let note = note_at(journal, place);
            lags.add(&note)?;
        }
        Ok(lags)
    }

    /// Puts the greatest lags of the pairs of this core: one for each pair of which both ever had work behind a turn.
    ///
    /// # Errors
    ///
    /// `AllocError` for want of memory. Some of them may then stand there, behind what was there.
    pub fn push_pairs(&self, core: CoreNo, pairs: &mut Vec<PairLag>) -> Result<(), AllocError>
        ensures all { OnOk result ((burst : ℕ) (journal : Notes ℕ) → spec.KnowsLags burst self.now journal → pairs.new.items ≡ pairs.old.items ++ core_pairs burst core journal) }
        ensures front { IsPrefix pairs.old.items pairs.new.items }
    {
        push_all(core, &self.pairs, pairs)
    }
}

/// Puts the pairs of a core by its journal.
fn push_core(
    alloc: Global,
    core: CoreNo,
    journal: &Journal<u64>,
    burst: u8,
    pairs: &mut Vec<PairLag>,
) -> Result<(), AllocError>
    ensures { OnOk result (pairs.new.items ≡ pairs.old.items ++ core_pairs burst core journal.now.notes) }
{
    let lags = CoreLags::of(alloc, journal, burst)?;
    lags.push_pairs(core, pairs)
}

/// The greatest lags of all pairs of queues of a run by its journals, core by core: one for each pair of which both ever had work behind a turn.
/// It reads the journal of each core once.
///
/// # Errors
///
/// `AllocError` for want of memory.
pub fn lags_of_run(alloc: Global, assembly: &Assembly) -> Result<Vec<PairLag>, AllocError>
    ensures { IfOk result (λ pairs. pairs.items ≡ run_pairs assembly.now) }
{
    let mut pairs = Vec::new(alloc);
    for core in 0..assembly.cores() {
        push_core(
            alloc,
            CoreNo(core),
            assembly.journal(ActorNo(core)),
            assembly.burst(),
            &mut pairs,
        )?;
    }
    Ok(pairs)
}
