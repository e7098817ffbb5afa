//! The shapes of a lane as text.

ghost use Rattle.std.specs.Prelude.{◌≡◌, Some};
ghost use Rattle.fairview_pictures.specs.Shapes as spec;

use base_words::QueueNo;
use fairview_marks::{Bar, XmlName};
use judge_view::End;
use std::fmt;

/// The colour of a queue: one of ten, or that of polls whose queue no note tells.
pub fn colour(queue: Option<QueueNo>) -> &'static str
    ensures { result.now ≡ spec.colour queue }
{
    match queue {
        Some(queue) => colour_word(queue.0 % 10),
        None => "n",
    }
}

/// The word of a colour.
fn colour_word(number: u8) -> &'static str
    ensures { result.now ≡ spec.colour_word number }
{
    match number {
        0 => "a",
        1 => "b",
        2 => "c",
        3 => "d",
        4 => "e",
        5 => "f",
        6 => "g",
        7 => "h",
        8 => "i",
        _ => "j",
    }
}

/// What is told of a job that asked to be parked.
fn end_text(end: End) -> &'static str
    ensures { result.now ≡ spec.end_text end }
{
    match end {
        End::Park => ", parked",
        End::Stayed => ", stayed",
        _ => "",
    }
}

/// A queue, or that there is none.
#[derive(Clone, Copy)]
pub struct QueueText(pub Option<QueueNo>);

/// A rectangle in the colour of a queue, without its end.
#[derive(Clone, Copy)]
pub struct BoxText {
    pub queue: Option<QueueNo>,
    pub x: u128,
    pub y: u32,
    pub width: u128,
    pub height: u32,
}

/// What is told of a poll where the pointer stands on its bar.
#[derive(Clone, Copy)]
pub struct BarTitle(pub Bar);

/// The bar of a poll.
#[derive(Clone, Copy)]
pub struct BarText(pub BoxText, pub Bar);

impl fmt::Display for QueueText {
    ghost output = { λ text. Some (spec.queue_text text.0) };

    fn fmt<W: fmt::Write>(&self, f: &mut fmt::Formatter<W>) -> fmt::Result {
        match self.0 {
            Some(queue) => {
                let queue = queue.0;
                write!(f, "q{queue}")
            }
            None => f.write_str("no queue"),
        }
    }
}

impl fmt::Display for BoxText {
    ghost output = { λ text. Some (spec.box_text text) };

    fn fmt<W: fmt::Write>(&self, f: &mut fmt::Formatter<W>) -> fmt::Result {
        let colour = colour(self.queue);
        let x = self.x;
        let y = self.y;
        let width = self.width;
        let height = self.height;
        write!(
            f,
            "<rect class=\"{colour}\" x=\"{x}\" y=\"{y}\" width=\"{width}\" height=\"{height}\""
        )
    }
}

impl fmt::Display for BarTitle {
    ghost output = { λ title. Some (spec.bar_title title.0) };

    fn fmt<W: fmt::Write>(&self, f: &mut fmt::Formatter<W>) -> fmt::Result {
        let name = XmlName(self.0.name);
        let queue = QueueText(self.0.queue);
        let turn = self.0.turn;
        let time = self.0.time;
        let start = self.0.start;
        let end = end_text(self.0.end);
        write!(
            f,
            "{name} of {queue}, turn {turn}: {time} ns from {start}{end}"
        )
    }
}

impl fmt::Display for BarText {
    ghost output = { λ text. Some (spec.bar_text text.0 text.1) };

    fn fmt<W: fmt::Write>(&self, f: &mut fmt::Formatter<W>) -> fmt::Result {
        let shape = self.0;
        let title = BarTitle(self.1);
        write!(f, "{shape}><title>{title}</title></rect>\n")
    }
}
