//! The greatest lead of two queues as a line of text.

ghost use Rattle.std.specs.Prelude.{◌≡◌, ◌++◌, OnOk, Option, Some, string_bytes};
ghost use Rattle.fairview_marks.specs.Leads.{IsGreatestLead, leads};
ghost use Rattle.fairview_marks.specs.declared.standing.Lead.{Lead as LeadSeen};
ghost use Rattle.fairview_pictures.specs.LeadLines as spec;

use base_words::{CoreNo, QueueNo};
use fairview_marks::{Lead, greatest_lead, leads_of};
use note_journal::Journal;
use std::alloc::{AllocError, Global};
use std::fmt;

/// The core and the two queues of a lead.
#[derive(Clone, Copy)]
struct PairText(CoreNo, QueueNo, QueueNo);

/// The numbers of a lead.
#[derive(Clone, Copy)]
struct LeadText(Lead);

impl fmt::Display for PairText {
    ghost output = { λ pair. Some (spec.pair_text pair.0 pair.1 pair.2) };

    fn fmt<W: fmt::Write>(&self, f: &mut fmt::Formatter<W>) -> fmt::Result {
        let core = self.0.0;
        let first = self.1.0;
        let second = self.2.0;
        write!(f, "core {core} q{first} q{second} ")
    }
}

impl fmt::Display for LeadText {
    ghost output = { λ text. Some (spec.numbers_text text.0) };

    fn fmt<W: fmt::Write>(&self, f: &mut fmt::Formatter<W>) -> fmt::Result {
        let turn = self.0.turn;
        let first = self.0.first;
        let second = self.0.second;
        let one = self.0.first_most;
        let other = self.0.second_most;
        write!(
            f,
            "turn {turn} at {first} and {second} charges {one} and {other}\n"
        )
    }
}

/// Puts the line of a lead, if there is one.
fn put_line(
    core: CoreNo,
    first: QueueNo,
    second: QueueNo,
    lead: Option<Lead>,
    page: &mut String,
) -> Result<(), AllocError>
    ensures { OnOk result (string_bytes page.new ≡ string_bytes page.old ++ spec.lead_line core first second lead) }
{
    if let Some(lead) = lead {
        let pair = PairText(core, first, second);
        let numbers = LeadText(lead);
        write!(page, "{pair}{numbers}")?;
    }
    Ok(())
}

/// Puts a line for the first turn of a core at which the virtual runtimes of two queues are the furthest apart: both virtual runtimes,
/// and the greatest charge of each so far, which bounds how far it may be above the other. There is no line if they never have work together.
/// A turn may have so many polls: where it may have several, queues are charged by turns.
///
/// # Errors
///
/// `AllocError` for want of memory. A first part of the text may then stand on the page.
pub fn put_greatest_lead(
    alloc: Global,
    core: CoreNo,
    first: QueueNo,
    second: QueueNo,
    journal: &Journal<u64>,
    burst: u8,
    page: &mut String,
) -> Result<(), AllocError>
    ensures { OnOk result ((lead : Option LeadSeen) × IsGreatestLead (leads burst first second journal.now.notes) lead
        × (string_bytes page.new ≡ string_bytes page.old ++ spec.lead_line core first second lead)) }
{
    let leads = leads_of(alloc, journal, first, second, burst)?;
    let lead = greatest_lead(alloc, &leads)?;
    put_line(core, first, second, lead, page)
}
