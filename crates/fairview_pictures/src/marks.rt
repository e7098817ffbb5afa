//! The marks of a lane as text: hand-backs, closes and gates, and the names of queues.

ghost use Rattle.std.specs.Prelude.{◌≡◌, Some};
ghost use Rattle.fairview_pictures.specs.Marks as spec;
ghost use Rattle.fairview_pictures.specs.Shapes.{box_text};

use crate::shapes::BoxText;
use base_words::{ActorNo, JobId, QueueNo, Shares};
use fairview_marks::XmlName;
use std::fmt;

/// What a mark under a lane tells.
#[derive(Clone, Copy)]
pub enum Kind {
    Back,
    Close,
    Gate,
}

impl Kind {
    /// Its word.
    pub fn word(self) -> &'static str
        ensures { result.now ≡ spec.kind_word self }
    {
        match self {
            Kind::Back => "back",
            Kind::Close => "close",
            Kind::Gate => "gate",
        }
    }

    /// How far below the top of its lane it stands.
    pub fn below(self) -> u32
        ensures { result ≡ spec.kind_below self }
    {
        match self {
            Kind::Back => 58,
            Kind::Close => 66,
            Kind::Gate => 74,
        }
    }
}

/// A mark under a lane, up to what is told of it.
#[derive(Clone, Copy)]
pub struct Stroke {
    pub kind: Kind,
    pub x: u128,
    pub y: u32,
}

/// A job is handed back.
#[derive(Clone, Copy)]
pub struct BackMark(pub Stroke, pub JobId);

/// A queue is closed.
#[derive(Clone, Copy)]
pub struct CloseMark(pub Stroke, pub QueueNo);

/// The core is closed.
#[derive(Clone, Copy)]
pub struct CoreMark(pub Stroke);

/// The gate of a sender is shut, with its final count.
#[derive(Clone, Copy)]
pub struct GateMark(pub Stroke, pub ActorNo, pub u64);

/// A queue of the legend: its colour, its number and its shares.
#[derive(Clone, Copy)]
pub struct QueueMark(pub u32, pub QueueNo, pub Shares);

/// The words of a queue of the legend.
#[derive(Clone, Copy)]
struct QueueWords(u32, QueueNo, Shares);

/// The left end of a queue of the legend.
fn legend_left(queue: QueueNo) -> u32
    ensures { result ≡ spec.legend_left queue }
{
    (queue.0 % 8) as u32 * 260 + 300
}

/// The box of a queue of the legend, in a lane of this top.
fn legend_box(top: u32, queue: QueueNo) -> BoxText
    ensures { result ≡ spec.legend_box top queue }
{
    BoxText {
        queue: Some(queue),
        x: legend_left(queue) as u128,
        y: top.saturating_add(92),
        width: 24,
        height: 24,
    }
}

/// The box of a queue of the legend.
#[derive(Clone, Copy)]
struct QueueBox(u32, QueueNo);

impl fmt::Display for Stroke {
    ghost output = { λ stroke. Some (spec.stroke_text stroke) };

    fn fmt<W: fmt::Write>(&self, f: &mut fmt::Formatter<W>) -> fmt::Result {
        let kind = self.kind.word();
        let x = self.x;
        let y = self.y;
        write!(
            f,
            "<rect class=\"{kind}\" x=\"{x}\" y=\"{y}\" width=\"6\" height=\"8\"><title>"
        )
    }
}

impl fmt::Display for BackMark {
    ghost output = { λ mark. Some (spec.back_text mark.0 mark.1) };

    fn fmt<W: fmt::Write>(&self, f: &mut fmt::Formatter<W>) -> fmt::Result {
        let stroke = self.0;
        let name = XmlName(self.1);
        write!(f, "{stroke}{name} handed back</title></rect>\n")
    }
}

impl fmt::Display for CloseMark {
    ghost output = { λ mark. Some (spec.close_text mark.0 mark.1) };

    fn fmt<W: fmt::Write>(&self, f: &mut fmt::Formatter<W>) -> fmt::Result {
        let stroke = self.0;
        let queue = self.1.0;
        write!(f, "{stroke}q{queue} closed</title></rect>\n")
    }
}

impl fmt::Display for CoreMark {
    ghost output = { λ mark. Some (spec.core_closed_text mark.0) };

    fn fmt<W: fmt::Write>(&self, f: &mut fmt::Formatter<W>) -> fmt::Result {
        let stroke = self.0;
        write!(f, "{stroke}core closed</title></rect>\n")
    }
}

impl fmt::Display for GateMark {
    ghost output = { λ mark. Some (spec.gate_text mark.0 mark.1 mark.2) };

    fn fmt<W: fmt::Write>(&self, f: &mut fmt::Formatter<W>) -> fmt::Result {
        let stroke = self.0;
        let sender = self.1.0;
        let count = self.2;
        write!(
            f,
            "{stroke}gate of {sender} shut after {count}</title></rect>\n"
        )
    }
}

impl fmt::Display for QueueBox {
    ghost output = { λ mark. Some (box_text (spec.legend_box mark.0 mark.1)) };

    fn fmt<W: fmt::Write>(&self, f: &mut fmt::Formatter<W>) -> fmt::Result {
        legend_box(self.0, self.1).fmt(f)
    }
}

impl fmt::Display for QueueWords {
    ghost output = { λ words. Some (spec.legend_words words.0 words.1 words.2) };

    fn fmt<W: fmt::Write>(&self, f: &mut fmt::Formatter<W>) -> fmt::Result {
        let x = legend_left(self.1) + 36;
        let y = self.0.saturating_add(113);
        let queue = self.1.0;
        let shares = self.2.get();
        write!(
            f,
            "/><text x=\"{x}\" y=\"{y}\">q{queue}: {shares} shares</text>\n"
        )
    }
}

impl fmt::Display for QueueMark {
    ghost output = { λ mark. Some (spec.legend_text mark.0 mark.1 mark.2) };

    fn fmt<W: fmt::Write>(&self, f: &mut fmt::Formatter<W>) -> fmt::Result {
        let shape = QueueBox(self.0, self.1);
        let words = QueueWords(self.0, self.1, self.2);
        write!(f, "{shape}{words}")
    }
}
