//! Puts the picture of the polls of a run.

ghost use Rattle.std.specs.Prelude.{◌≡◌, ◌++◌, OnOk, Some, string_bytes};
ghost use Rattle.fairview_pictures.specs.Gantts as spec;
ghost use Rattle.fairview_pictures.specs.Heads as heads;

use crate::cut::Cut;
use crate::frame::longest;
use crate::lanes::put_lane;
use crate::style::{legend, style};
use base_words::{ActorNo, CoreNo};
use note_journal::Assembly;
use std::alloc::{AllocError, Global};
use std::fmt;

/// The first line of a picture, which has so many lanes.
#[derive(Clone, Copy)]
struct Opening(u32);

/// The axis: the time at its begin and at its end.
#[derive(Clone, Copy)]
struct Axis(u128);

impl fmt::Display for Opening {
    ghost output = { λ opening. Some (heads.opening_text opening.0) };

    fn fmt<W: fmt::Write>(&self, f: &mut fmt::Formatter<W>) -> fmt::Result {
        let height = self.0.saturating_mul(160).saturating_add(140);
        write!(
            f,
            "<svg xmlns=\"http://www.w3.org/2000/svg\" viewBox=\"0 0 2400 {height}\" width=\"1200\">\n"
        )
    }
}

impl fmt::Display for Axis {
    ghost output = { λ axis. Some (heads.axis_text axis.0) };

    fn fmt<W: fmt::Write>(&self, f: &mut fmt::Formatter<W>) -> fmt::Result {
        let span = self.0;
        write!(
            f,
            "<text class=\"axis\" x=\"300\" y=\"80\">processor time of each core: 0</text><text class=\"axis end\" x=\"2300\" y=\"80\">{span} ns</text>\n"
        )
    }
}

/// Puts the picture of a run by its journals: a lane for each core that is shown, with a bar for each poll in the colour of its queue,
/// marks for hand-backs, closes and gates, and the queues with their shares. A lane has 2000 half points; each has the colour of the
/// poll that runs where it begins.
///
/// # Errors
///
/// `AllocError` for want of memory. A first part of the text may then stand on the page.
pub fn put_gantt(
    alloc: Global,
    assembly: &Assembly,
    cut: &Cut,
    page: &mut String,
) -> Result<(), AllocError>
    ensures { OnOk result (string_bytes page.new ≡ string_bytes page.old ++ spec.gantt_text cut.now assembly.now) }
{
    let span = longest(cut, assembly);
    put_opening(cut.lanes(assembly.cores()), span, page)?;
    put_lanes(alloc, assembly, cut, span, page)?;
    put_end(page)
}

/// Puts what stands before the lanes, of which there are so many.
#[tactic(auto, unfolding(crate::specs::Heads::head_text))]
fn put_opening(lanes: u32, span: u128, page: &mut String) -> Result<(), AllocError>
    ensures { OnOk result (string_bytes page.new ≡ string_bytes page.old ++ heads.head_text lanes span) }
{
    let opening = Opening(lanes);
    let axis = Axis(span);
    let style = style();
    let legend = legend();
    write!(page, "{opening}{style}{legend}{axis}")?;
    Ok(())
}

/// Puts the last line.
fn put_end(page: &mut String) -> Result<(), AllocError>
    ensures { OnOk result (string_bytes page.new ≡ string_bytes page.old ++ heads.end_text) }
{
    page.push_str("</svg>\n")?;
    Ok(())
}

/// Puts the lanes of all cores that are shown.
fn put_lanes(
    alloc: Global,
    assembly: &Assembly,
    cut: &Cut,
    span: u128,
    page: &mut String,
) -> Result<(), AllocError>
    ensures { OnOk result (string_bytes page.new ≡ string_bytes page.old ++ spec.all_lanes cut.now span assembly.now) }
{
    for core in 0..assembly.cores() {
        put_lane(
            alloc,
            cut,
            span,
            CoreNo(core),
            assembly.journal(ActorNo(core)),
            page,
        )?;
    }
    Ok(())
}
