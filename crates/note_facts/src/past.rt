//! What is known of the notes of one journal that were read.

ghost use Rattle.std.specs.Prelude.{◌∷◌, ◌≡◌, ◌<◌, ℕ, OnOk, Some, IsTrue, [], length};
ghost use Rattle.base_words.specs.Assembly.{first_under};
ghost use Rattle.base_words.specs.Filters.{collected_outcomes};
ghost use Rattle.base_words.specs.Journal.{Journal};
ghost use Rattle.note_facts.specs.Limits.{greatest_count};
ghost use Rattle.note_facts.specs.Jobs.{KnowsPast};

use crate::jobs::Jobs;
use crate::names::NameTable;
use crate::same::same_outcome;
use crate::sets::NameSet;
use crate::told::{collected_told, name_answered, name_redeemed};
use base_words::{JobId, Note, OutcomeNote};
use std::alloc::{AllocError, Global};

/// Of the notes that were read: the jobs, which commands were answered, and what was collected and redeemed.
#[derive(Drop)]
pub struct Past {
    pub jobs: Jobs,
    pub answered: NameSet,
    collected: NameTable<OutcomeNote<u64>>,
    pub redeemed: NameSet,
}

impl Past {
    /// No note was read.
    pub fn new(alloc: Global) -> Self
        ensures { KnowsPast result [] }
    {
        Past {
            jobs: Jobs::new(alloc),
            answered: NameSet::new(alloc),
            collected: NameTable::new(alloc),
            redeemed: NameSet::new(alloc),
        }
    }

    /// Reads the next note. After an error nothing is known any more.
    pub fn add(&mut self, note: &Note<u64>) -> Result<(), AllocError>
        ensures { OnOk result ((before : Journal ℕ) → length before < greatest_count → KnowsPast self.old before → KnowsPast self.new (note.now ∷ before)) }
    {
        self.jobs.add(note)?;
        self.answered.add(name_answered(note))?;
        self.collected.keep_first(collected_told(note))?;
        self.redeemed.add(name_redeemed(note))?;
        Ok(())
    }

    /// Whether this is the outcome that was collected under the name.
    pub fn is_collected(&self, name: &JobId, outcome: &OutcomeNote<u64>) -> bool
        ensures right { (before : Journal ℕ) → KnowsPast self.now before → IsTrue result → first_under name.now (collected_outcomes name.now.to before) ≡ Some outcome.now }
        ensures only { (before : Journal ℕ) → KnowsPast self.now before → first_under name.now (collected_outcomes name.now.to before) ≡ Some outcome.now → IsTrue result }
    {
        match self.collected.get(name) {
            Some(collected) => same_outcome(&collected, outcome),
            None => false,
        }
    }
}
