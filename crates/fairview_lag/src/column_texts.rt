//! A column of a panel as text.
//!
//! A column is a turn's end, or several where they are too many for the panel. It is a ground, at which the pointer finds it, with a title; a box
//! up for the lead of the first queue and one down for the second's; and the bound above and below.

ghost use Rattle.std.specs.Prelude.{◌≡◌, Some};
ghost use Rattle.fairview_pictures.specs.Shapes.{box_text};
ghost use Rattle.fairview_lag.specs.ColumnPlaces as places;
ghost use Rattle.fairview_lag.specs.ColumnTexts as spec;

use crate::columns::{Column, Panel};
use fairview_pictures::shapes::BoxText;
use std::fmt;

/// A part of a column, from a line on.
#[derive(Clone, Copy)]
pub struct Strip {
    pub x: u128,
    pub y: u32,
    pub width: u128,
}

/// The title of a column. It is told when the pointer stands on the column.
#[derive(Clone, Copy)]
struct TitleText(Panel, Column);

/// Its leads, and the bound above and below.
#[derive(Clone, Copy)]
struct ShapesText(Panel, Column);

/// A piece of the line of the bound.
#[derive(Clone, Copy)]
struct BoundText(Strip);

/// The ground of a column. The pointer finds the column on it.
#[derive(Clone, Copy)]
struct GroundText(Strip);

/// The box of the first queue's lead.
#[derive(Clone, Copy)]
struct AheadText(Panel, Column);

/// The box of the second queue's lead.
#[derive(Clone, Copy)]
struct BehindText(Panel, Column);

/// The bound above the middle.
#[derive(Clone, Copy)]
struct AboveText(Panel, Column);

/// The bound below the middle.
#[derive(Clone, Copy)]
struct BelowText(Panel, Column);

/// A column.
#[derive(Clone, Copy)]
pub struct ColumnText(pub Panel, pub Column);

/// How high a lead stands: the bound at the last turn has 60 points.
fn height(panel: &Panel, lead: u128) -> u32
    ensures { result ≡ places.height panel.now lead }
{
    let points = lead.min(panel.bound).saturating_mul(60) / panel.bound.max(1);
    points.min(60) as u32
}

/// The line on which a column stands when no queue is ahead.
fn middle(panel: &Panel) -> u32
    ensures { result ≡ places.middle panel.now }
{
    panel.top.saturating_add(60)
}

/// The left end of a column.
fn left(panel: &Panel, column: &Column) -> u128
    ensures { result ≡ places.left panel.now column.now }
{
    panel.cell(column.from) as u128 * 2 + 300
}

/// Its width, at least that of one column.
fn width(panel: &Panel, column: &Column) -> u128
    ensures { result ≡ places.width panel.now column.now }
{
    let right = panel.edge(column.to) * 2;
    right
        .saturating_sub(panel.cell(column.from) as u128 * 2)
        .max(2)
}

/// The box of the first queue's lead.
fn ahead_box(panel: &Panel, column: &Column) -> BoxText
    ensures { result ≡ places.ahead_box panel.now column.now }
{
    let height = height(panel, column.ahead);
    BoxText {
        queue: Some(panel.first),
        x: left(panel, column),
        y: middle(panel).saturating_sub(height),
        width: width(panel, column),
        height,
    }
}

/// The box of the second queue's lead.
fn behind_box(panel: &Panel, column: &Column) -> BoxText
    ensures { result ≡ places.behind_box panel.now column.now }
{
    BoxText {
        queue: Some(panel.second),
        x: left(panel, column),
        y: middle(panel),
        width: width(panel, column),
        height: height(panel, column.behind),
    }
}

/// The part of a column from a line on.
fn strip_at(panel: &Panel, column: &Column, y: u32) -> Strip
    ensures { result ≡ places.strip_at panel.now column.now y }
{
    Strip {
        x: left(panel, column),
        y,
        width: width(panel, column),
    }
}

/// The bound above the middle.
fn above_strip(panel: &Panel, column: &Column) -> Strip
    ensures { result ≡ places.above_strip panel.now column.now }
{
    let reach = height(panel, column.bound);
    strip_at(panel, column, middle(panel).saturating_sub(reach))
}

/// The bound below the middle.
fn below_strip(panel: &Panel, column: &Column) -> Strip
    ensures { result ≡ places.below_strip panel.now column.now }
{
    let reach = height(panel, column.bound);
    strip_at(panel, column, middle(panel).saturating_add(reach))
}

impl fmt::Display for Strip {
    ghost output = { λ strip. Some (spec.strip_text strip) };

    fn fmt<W: fmt::Write>(&self, f: &mut fmt::Formatter<W>) -> fmt::Result {
        let x = self.x;
        let y = self.y;
        let width = self.width;
        write!(f, "\" x=\"{x}\" y=\"{y}\" width=\"{width}\" height=\"")
    }
}

impl fmt::Display for BoundText {
    ghost output = { λ text. Some (spec.bound_text text.0) };

    fn fmt<W: fmt::Write>(&self, f: &mut fmt::Formatter<W>) -> fmt::Result {
        let strip = self.0;
        write!(f, "<rect class=\"bound{strip}2\"/>")
    }
}

impl fmt::Display for GroundText {
    ghost output = { λ text. Some (spec.ground_text text.0) };

    fn fmt<W: fmt::Write>(&self, f: &mut fmt::Formatter<W>) -> fmt::Result {
        let strip = self.0;
        write!(f, "<rect class=\"hit{strip}120\"/>")
    }
}

impl fmt::Display for TitleText {
    ghost output = { λ title. Some (spec.title_text title.0 title.1) };

    fn fmt<W: fmt::Write>(&self, f: &mut fmt::Formatter<W>) -> fmt::Result {
        let first = self.0.first.0;
        let second = self.0.second.0;
        let from = self.1.from;
        let to = self.1.to;
        let ahead = self.1.ahead;
        let behind = self.1.behind;
        let bound = self.1.bound;
        write!(
            f,
            "turns {from} to {to}: q{first} ahead by at most {ahead}, q{second} by {behind}, bound {bound}"
        )
    }
}

impl fmt::Display for AheadText {
    ghost output = { λ text. Some (box_text (places.ahead_box text.0 text.1)) };

    fn fmt<W: fmt::Write>(&self, f: &mut fmt::Formatter<W>) -> fmt::Result {
        ahead_box(&self.0, &self.1).fmt(f)
    }
}

impl fmt::Display for BehindText {
    ghost output = { λ text. Some (box_text (places.behind_box text.0 text.1)) };

    fn fmt<W: fmt::Write>(&self, f: &mut fmt::Formatter<W>) -> fmt::Result {
        behind_box(&self.0, &self.1).fmt(f)
    }
}

impl fmt::Display for AboveText {
    ghost output = { λ text. Some (spec.bound_text (places.above_strip text.0 text.1)) };

    fn fmt<W: fmt::Write>(&self, f: &mut fmt::Formatter<W>) -> fmt::Result {
        BoundText(above_strip(&self.0, &self.1)).fmt(f)
    }
}

impl fmt::Display for BelowText {
    ghost output = { λ text. Some (spec.bound_text (places.below_strip text.0 text.1)) };

    fn fmt<W: fmt::Write>(&self, f: &mut fmt::Formatter<W>) -> fmt::Result {
        BoundText(below_strip(&self.0, &self.1)).fmt(f)
    }
}

impl fmt::Display for ShapesText {
    ghost output = { λ text. Some (spec.shapes_text text.0 text.1) };

    fn fmt<W: fmt::Write>(&self, f: &mut fmt::Formatter<W>) -> fmt::Result {
        let ahead = AheadText(self.0, self.1);
        let behind = BehindText(self.0, self.1);
        let above = AboveText(self.0, self.1);
        let below = BelowText(self.0, self.1);
        write!(f, "{ahead}/>{behind}/>{above}{below}")
    }
}

impl fmt::Display for ColumnText {
    ghost output = { λ text. Some (spec.column_text text.0 text.1) };

    fn fmt<W: fmt::Write>(&self, f: &mut fmt::Formatter<W>) -> fmt::Result {
        let title = TitleText(self.0, self.1);
        let shapes = ShapesText(self.0, self.1);
        let ground = GroundText(strip_at(&self.0, &self.1, self.0.top));
        write!(f, "<g><title>{title}</title>{shapes}{ground}</g>\n")
    }
}
