//! The lane of one core.

ghost use Rattle.std.specs.Prelude.{◌≡◌, ◌++◌, OnOk, Some, string_bytes};
ghost use Rattle.fairview_pictures.specs.Gantts as spec;

use crate::cut::Cut;
use crate::frame::{Frame, frame_of};
use crate::marks::QueueMark;
use crate::notes::{put_note, put_queue};
use base_words::{CoreNo, QueueNo, Shares};
use fairview_marks::Polls;
use note_facts::note_at;
use note_journal::Journal;
use std::alloc::{AllocError, Global};
use std::fmt;

/// The ground of a lane, and the name of its core.
#[derive(Clone, Copy)]
struct LaneHead(u32, CoreNo);

impl fmt::Display for LaneHead {
    ghost output = { λ head. Some (spec.lane_head head.0 head.1) };

    fn fmt<W: fmt::Write>(&self, f: &mut fmt::Formatter<W>) -> fmt::Result {
        let top = self.0;
        let y = self.0.saturating_add(38);
        let core = self.1.0;
        write!(
            f,
            "<rect class=\"lane\" x=\"300\" y=\"{top}\" width=\"2000\" height=\"56\"/><text x=\"40\" y=\"{y}\">core {core}</text>\n"
        )
    }
}

/// Puts the ground of a lane, and the name of its core.
fn put_head(head: LaneHead, page: &mut String) -> Result<(), AllocError>
    ensures { OnOk result (string_bytes page.new ≡ string_bytes page.old ++ spec.lane_head head.0 head.1) }
{
    write!(page, "{head}")?;
    Ok(())
}

/// Puts the shapes of all notes of a core.
fn put_notes(
    alloc: Global,
    frame: &Frame,
    journal: &Journal<u64>,
    page: &mut String,
) -> Result<(), AllocError>
    ensures { OnOk result (string_bytes page.new ≡ string_bytes page.old ++ spec.notes_text frame.now journal.now.notes) }
{
    let mut polls = Polls::new(alloc);
    for place in 0..journal.len() {
        let note = note_at(journal, place);
        put_note(frame, &polls, &note, page)?;
        polls.add(&note)?;
    }
    Ok(())
}

/// Puts the lane of a core: its ground, queue 0 of its legend, and the shapes of its notes.
fn put_whole_lane(
    alloc: Global,
    cut: &Cut,
    span: u128,
    core: CoreNo,
    journal: &Journal<u64>,
    page: &mut String,
) -> Result<(), AllocError>
    ensures { OnOk result (string_bytes page.new ≡ string_bytes page.old ++ spec.lane_text cut.now span core journal.now.notes) }
{
    let frame = frame_of(cut, span, core, journal);
    put_head(LaneHead(frame.top, core), page)?;
    put_queue(QueueMark(frame.top, QueueNo(0), Shares::default()), page)?;
    put_notes(alloc, &frame, journal, page)
}

/// Puts the lane of a core, if the core is shown.
pub(crate) fn put_lane(
    alloc: Global,
    cut: &Cut,
    span: u128,
    core: CoreNo,
    journal: &Journal<u64>,
    page: &mut String,
) -> Result<(), AllocError>
    ensures { OnOk result (string_bytes page.new ≡ string_bytes page.old ++ spec.lane_if cut.now span core journal.now.notes) }
{
    if cut.shows(core) {
        put_whole_lane(alloc, cut, span, core, journal, page)
    } else {
        Ok(())
    }
}
