//! The lines of all submissions of the outside actor.

ghost use Rattle.std.specs.Prelude.{◌≡◌, ◌++◌, ℕ, OnOk, string_bytes};
ghost use Rattle.base_words.specs.Assembly.{Assembly as AllJournals};
ghost use Rattle.judge_audit.specs.Links.{KnowsOutcomes};
ghost use Rattle.fairexec_report.specs.Outcomes as spec;

use crate::outcome_line::OutcomeLine;
use base_words::{ActorNo, CoreNo, JobId, Note, OutcomeNote};
use judge_audit::links::{outcome_under, outcomes_given};
use note_facts::{NameTable, note_at};
use note_journal::{Assembly, Journal};
use std::alloc::{AllocError, Global};

/// The outcomes that one actor gave.
type Outcomes = NameTable<OutcomeNote<u64>>;

/// Puts a line on the page for each submission of the outside actor that has an outcome, by core and number.
///
/// # Errors
///
/// `AllocError` for want of memory. A first part of the lines may then stand on the page.
pub fn put_outcomes(alloc: Global, assembly: &Assembly, page: &mut String) -> Result<(), AllocError>
    ensures { OnOk result (string_bytes page.new ≡ string_bytes page.old ++ spec.outcomes_text assembly.now) }
{
    let outcomes = outcomes_given(alloc, assembly)?;
    let outside = assembly.cores();
    for core in 0..outside {
        put_core(
            &outcomes,
            CoreNo(core),
            assembly.journal(ActorNo(outside)),
            page,
        )?;
    }
    Ok(())
}

/// Puts the lines of the submissions to one core.
fn put_core(
    outcomes: &[Outcomes],
    core: CoreNo,
    sent: &Journal<u64>,
    page: &mut String,
) -> Result<(), AllocError>
    ensures { OnOk result ((assembly : AllJournals ℕ) → KnowsOutcomes outcomes.now assembly
        → string_bytes page.new ≡ string_bytes page.old ++ spec.lines_told assembly core sent.now.notes) }
{
    for place in 0..sent.len() {
        let note = note_at(sent, place);
        put_line(outcomes, name_sent(core, &note), page)?;
    }
    Ok(())
}

/// Puts the line of a submission, if there is one.
fn put_line(outcomes: &[Outcomes], name: Option<JobId>, page: &mut String) -> Result<(), AllocError>
    ensures { OnOk result ((assembly : AllJournals ℕ) → KnowsOutcomes outcomes.now assembly
        → string_bytes page.new ≡ string_bytes page.old ++ spec.line_told assembly name) }
{
    let Some(name) = name else {
        return Ok(());
    };
    put_outcome(name, outcome_under(outcomes, &name), page)
}

/// Puts the line of a submission, if it has an outcome.
fn put_outcome(
    name: JobId,
    outcome: Option<OutcomeNote<u64>>,
    page: &mut String,
) -> Result<(), AllocError>
    ensures { OnOk result (string_bytes page.new ≡ string_bytes page.old ++ spec.line_of name outcome) }
{
    let Some(outcome) = outcome else {
        return Ok(());
    };
    let line = OutcomeLine(name, outcome);
    writeln!(page, "{line}")?;
    Ok(())
}

/// The submission to this core that a note tells.
fn name_sent(core: CoreNo, note: &Note<u64>) -> Option<JobId>
    ensures { result ≡ spec.name_sent core note.now }
{
    match *note {
        Note::Sent(name, _) => { if name.to == core { Some(name) } else { None } }
        _ => None,
    }
}
