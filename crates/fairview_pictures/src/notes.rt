//! The shapes of one note.

ghost use Rattle.std.specs.Prelude.{◌≡◌, ◌++◌, ℕ, OnOk, string_bytes};
ghost use Rattle.base_words.specs.Journal.{Journal as Notes};
ghost use Rattle.fairview_marks.specs.Bars.{KnowsPolls};
ghost use Rattle.fairview_pictures.specs.Gantts as spec;
ghost use Rattle.fairview_pictures.specs.Marks as marks;
ghost use Rattle.fairview_pictures.specs.Shapes as shapes;

use crate::frame::Frame;
use crate::marks::{BackMark, CloseMark, CoreMark, GateMark, Kind, QueueMark, Stroke};
use crate::shapes::{BarText, BoxText};
use base_words::Note;
use fairview_marks::{Bar, Polls};
use judge_view::End;
use std::alloc::AllocError;

/// The stroke of a mark at this time.
fn stroke(frame: &Frame, kind: Kind, time: u128) -> Stroke
    ensures { result ≡ spec.stroke_at frame.now kind time }
{
    Stroke {
        kind,
        x: frame.x(time),
        y: frame.top.saturating_add(kind.below()),
    }
}

/// The box of a bar from one half point to another.
fn bar_box(frame: &Frame, bar: &Bar, left: u128, right: u128) -> BoxText
    ensures { result ≡ spec.bar_box frame.now bar.now left right }
{
    BoxText {
        queue: bar.queue,
        x: left.saturating_add(300),
        y: frame.top,
        width: right.saturating_sub(left),
        height: 56,
    }
}

/// Puts this text.
fn put_text(text: BarText, page: &mut String) -> Result<(), AllocError>
    ensures { OnOk result (string_bytes page.new ≡ string_bytes page.old ++ shapes.bar_text text.0 text.1) }
{
    write!(page, "{text}")?;
    Ok(())
}

/// Puts the bar of a poll, if it runs where a half point of the lane begins.
fn put_poll(frame: &Frame, bar: &Bar, page: &mut String) -> Result<(), AllocError>
    ensures { OnOk result (string_bytes page.new ≡ string_bytes page.old ++ spec.poll_text frame.now bar.now) }
{
    let left = frame.cell(bar.start);
    let right = frame.cell(bar.start.saturating_add(bar.time as u128));
    if left < right {
        put_text(BarText(bar_box(frame, bar, left, right), *bar), page)
    } else {
        Ok(())
    }
}

/// Puts a job that is handed back.
fn put_back(mark: BackMark, page: &mut String) -> Result<(), AllocError>
    ensures { OnOk result (string_bytes page.new ≡ string_bytes page.old ++ marks.back_text mark.0 mark.1) }
{
    write!(page, "{mark}")?;
    Ok(())
}

/// Puts a queue that is closed.
fn put_close(mark: CloseMark, page: &mut String) -> Result<(), AllocError>
    ensures { OnOk result (string_bytes page.new ≡ string_bytes page.old ++ marks.close_text mark.0 mark.1) }
{
    write!(page, "{mark}")?;
    Ok(())
}

/// Puts the close of the core.
fn put_core_close(mark: CoreMark, page: &mut String) -> Result<(), AllocError>
    ensures { OnOk result (string_bytes page.new ≡ string_bytes page.old ++ marks.core_closed_text mark.0) }
{
    write!(page, "{mark}")?;
    Ok(())
}

/// Puts a gate that is shut.
fn put_gate(mark: GateMark, page: &mut String) -> Result<(), AllocError>
    ensures { OnOk result (string_bytes page.new ≡ string_bytes page.old ++ marks.gate_text mark.0 mark.1 mark.2) }
{
    write!(page, "{mark}")?;
    Ok(())
}

/// Puts a queue of the legend.
pub(crate) fn put_queue(mark: QueueMark, page: &mut String) -> Result<(), AllocError>
    ensures { OnOk result (string_bytes page.new ≡ string_bytes page.old ++ marks.legend_text mark.0 mark.1 mark.2) }
{
    write!(page, "{mark}")?;
    Ok(())
}

/// Puts the shape of the next note, whose turn is shown.
fn put_shape(
    frame: &Frame,
    polls: &Polls,
    note: &Note<u64>,
    page: &mut String,
) -> Result<(), AllocError>
    ensures { OnOk result ((before : Notes ℕ) → KnowsPolls polls.now before → string_bytes page.new ≡ string_bytes page.old ++ spec.shape_text frame.now note.now before) }
{
    let time = polls.clock().time;
    match *note {
        Note::Yield(name, time) => put_poll(frame, &polls.bar_of(name, time, End::Yield), page),
        Note::Park(name, time) => put_poll(frame, &polls.bar_of(name, time, End::Park), page),
        Note::Stayed(name, time) => put_poll(frame, &polls.bar_of(name, time, End::Stayed), page),
        Note::Done(name, time, _) => put_poll(frame, &polls.bar_of(name, time, End::Done), page),
        Note::Returned(name, _) => put_back(BackMark(stroke(frame, Kind::Back, time), name), page),
        Note::Back(name, _) => put_back(BackMark(stroke(frame, Kind::Back, time), name), page),
        Note::QueueClosed(queue, _) => put_close(
            CloseMark(stroke(frame, Kind::Close, time), queue),
            page,
        ),
        Note::CoreClosed(_) => put_core_close(CoreMark(stroke(frame, Kind::Close, time)), page),
        Note::Shut(sender, count) => put_gate(
            GateMark(stroke(frame, Kind::Gate, time), sender, count),
            page,
        ),
        _ => Ok(()),
    }
}

/// Puts the shape of the next note, if its turn is shown. The legend has each queue.
pub(crate) fn put_note(
    frame: &Frame,
    polls: &Polls,
    note: &Note<u64>,
    page: &mut String,
) -> Result<(), AllocError>
    ensures { OnOk result ((before : Notes ℕ) → KnowsPolls polls.now before → string_bytes page.new ≡ string_bytes page.old ++ spec.note_text frame.now note.now before) }
{
    if let Note::Created(queue, shares) = *note {
        return put_queue(QueueMark(frame.top, queue, shares), page);
    }
    if frame.cut.has_turn(polls.clock().turns) {
        put_shape(frame, polls, note, page)
    } else {
        Ok(())
    }
}
