//! The story of a submission as text.

ghost use Rattle.std.specs.Prelude.{◌≡◌, ◌++◌, OnOk, string_bytes};
ghost use Rattle.judge_view.specs.Stories.{chapters};
ghost use Rattle.fairview_report.specs.StoryTexts as spec;

use crate::story_line::ChapterLine;
use base_words::{ActorNo, JobId};
use judge_view::{Chapter, Part, StoryWalk};
use note_facts::note_at;
use note_journal::{Assembly, Journal};
use std::alloc::{AllocError, Global};
use text_words::name::NameText;

/// Puts the story of a submission, or that nothing is told of it.
///
/// # Errors
///
/// `AllocError` for want of memory. A first part of the text may then stand on the page.
pub fn put_story(
    alloc: Global,
    name: &JobId,
    assembly: &Assembly,
    page: &mut String,
) -> Result<(), AllocError>
    ensures { OnOk result (string_bytes page.new ≡ string_bytes page.old ++ spec.story_text name.now assembly.now) }
{
    let mut whole = String::new(alloc);
    put_whole(name, assembly, &mut whole)?;
    if whole.is_empty() {
        return put_nothing(name, page);
    }
    page.push_str(&whole)
}

/// Puts that nothing is told of a submission.
fn put_nothing(name: &JobId, page: &mut String) -> Result<(), AllocError>
    ensures { OnOk result (string_bytes page.new ≡ string_bytes page.old ++ spec.nothing_text name.now) }
{
    let name = NameText(*name);
    writeln!(page, "nothing is told of {name}")?;
    Ok(())
}

/// Puts the three parts of the story.
fn put_whole(name: &JobId, assembly: &Assembly, page: &mut String) -> Result<(), AllocError>
    ensures { OnOk result (string_bytes page.new ≡ string_bytes page.old ++ spec.whole_text name.now assembly.now) }
{
    put_part(Part::Sending, name, assembly, page)?;
    put_part(Part::Serving, name, assembly, page)?;
    put_part(Part::Fetching, name, assembly, page)
}

/// Puts a part of the story. It is empty where there is no such actor.
fn put_part(
    part: Part,
    name: &JobId,
    assembly: &Assembly,
    page: &mut String,
) -> Result<(), AllocError>
    ensures { OnOk result (string_bytes page.new ≡ string_bytes page.old ++ spec.part_text part name.now assembly.now) }
{
    let teller = part.teller(name);
    if teller.0 > assembly.cores() {
        return Ok(());
    }
    put_chapters(part, name, teller, assembly.journal(teller), page)
}

/// Puts the lines of the notes of a journal that are of this part of the story.
fn put_chapters(
    part: Part,
    name: &JobId,
    teller: ActorNo,
    journal: &Journal<u64>,
    page: &mut String,
) -> Result<(), AllocError>
    ensures { OnOk result (string_bytes page.new ≡ string_bytes page.old ++ spec.chapters_text teller (chapters part name.now journal.now.notes)) }
{
    let mut walk = StoryWalk::new(part, *name);
    for place in 0..journal.len() {
        let note = note_at(journal, place);
        put_chapter(teller, walk.add(&note), page)?;
    }
    Ok(())
}

/// Puts the line of a note of the story, if it is one.
fn put_chapter(
    teller: ActorNo,
    chapter: Option<Chapter>,
    page: &mut String,
) -> Result<(), AllocError>
    ensures { OnOk result (string_bytes page.new ≡ string_bytes page.old ++ spec.chapter_if teller chapter) }
{
    let Some(chapter) = chapter else {
        return Ok(());
    };
    let line = ChapterLine(teller, chapter);
    writeln!(page, "{line}")?;
    Ok(())
}
