//! The leads of two queues of a core.

ghost use Rattle.std.specs.Prelude.{◌≡◌, OnOk, IfOk};
ghost use Rattle.base_words.specs.Journal.{with_last};
ghost use Rattle.fairview_marks.specs.Leads as spec;

pub use crate::standing::Lead;
use crate::standing::Standing;
use base_words::QueueNo;
use judge_view::percentiles::first_greatest;
use note_facts::note_at;
use note_journal::Journal;
use std::alloc::{AllocError, Global};

impl Lead {
    /// How far the first queue is above the second.
    pub fn ahead(&self) -> u128
        ensures { result ≡ spec.ahead self.now }
    {
        self.first.saturating_sub(self.second)
    }

    /// How far the first queue is below the second.
    pub fn behind(&self) -> u128
        ensures { result ≡ spec.behind self.now }
    {
        self.second.saturating_sub(self.first)
    }

    /// How far the two are apart.
    pub fn apart(&self) -> u128
        ensures { result ≡ spec.apart self.now }
    {
        self.first.abs_diff(self.second)
    }
}

/// Puts a lead behind the others, if there is one.
fn push_lead(leads: &mut Vec<Lead>, lead: Option<Lead>) -> Result<(), AllocError>
    ensures { OnOk result (leads.new.items ≡ with_last leads.old.items lead) }
{
    if let Some(lead) = lead {
        leads.push(lead)?;
    }
    Ok(())
}

/// The leads of two queues of a core by its journal, the oldest first: one for each turn at whose beginning both have work.
/// A turn may have so many polls: where it may have several, queues are charged by turns.
/// It takes as many steps for a note as the count of jobs has binary digits.
///
/// # Errors
///
/// `AllocError` for want of memory.
pub fn leads_of(
    alloc: Global,
    journal: &Journal<u64>,
    first: QueueNo,
    second: QueueNo,
    burst: u8,
) -> Result<Vec<Lead>, AllocError>
    ensures { IfOk result (λ leads. leads.items ≡ spec.leads burst first second journal.now.notes) }
{
    let mut standing = Standing::new(alloc, burst);
    let mut told = Vec::new(alloc);
    for place in 0..journal.len() {
        let note = note_at(journal, place);
        push_lead(&mut told, standing.lead(first, second, &note))?;
        standing.add(&note)?;
    }
    Ok(told)
}

/// How far the queues are apart in each lead.
fn distances(alloc: Global, leads: &[Lead]) -> Result<Vec<u128>, AllocError>
    ensures { IfOk result (λ told. told.items ≡ spec.distances leads.now) }
{
    leads.iter().map(|lead| lead.apart()).collect(alloc)
}

/// The first of the leads in which the queues are the furthest apart, if there is any.
///
/// # Errors
///
/// `AllocError` for want of memory.
pub fn greatest_lead(alloc: Global, leads: &[Lead]) -> Result<Option<Lead>, AllocError>
    ensures { IfOk result (spec.IsGreatestLead leads.now) }
{
    if leads.is_empty() {
        return Ok(None);
    }
    let numbers = distances(alloc, leads)?;
    Ok(Some(leads[first_greatest(&numbers)]))
}
