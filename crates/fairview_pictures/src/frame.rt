//! The place of a lane, and the places of its core's times on it.

ghost use Rattle.std.specs.Prelude.{◌≡◌, ◌<◌};
ghost use Rattle.fairview_pictures.specs.Frames as spec;

use crate::cut::{Cut, time_before};
use base_words::{ActorNo, CoreNo};
use note_journal::{Assembly, Journal};

/// The lane of a core: its top, the time at which it begins, how much time all lanes have, and what of the run is shown.
#[derive(Clone, Copy)]
pub struct Frame {
    pub top: u32,
    pub begin: u128,
    pub span: u128,
    pub cut: Cut,
}

impl Frame {
    /// The half point of this time, counted from the lane's begin: a lane has 2000.
    pub fn cell(&self, time: u128) -> u128
        ensures { result ≡ spec.cell self.now time }
    {
        time.saturating_sub(self.begin)
            .min(self.span)
            .saturating_mul(2000)
            / self.span.max(1)
    }

    /// Where this time stands in the picture.
    pub fn x(&self, time: u128) -> u128
        ensures { result ≡ spec.x self.now time }
    {
        self.cell(time).saturating_add(300)
    }
}

/// How long the clock of a core goes in the turns that are shown.
fn shown_time(cut: &Cut, journal: &Journal<u64>) -> u128
    ensures { result ≡ spec.shown_time cut.now journal.now.notes }
{
    time_before(journal, cut.to.saturating_add(1)).saturating_sub(time_before(journal, cut.from))
}

/// The longest of these times, if the core is shown.
fn longer(cut: &Cut, core: CoreNo, journal: &Journal<u64>, most: u128) -> u128
    ensures { result ≡ spec.longer cut.now core journal.now.notes most }
{
    if cut.shows(core) {
        most.max(shown_time(cut, journal))
    } else {
        most
    }
}

/// The longest time of a lane.
pub(crate) fn longest(cut: &Cut, assembly: &Assembly) -> u128
    ensures { result ≡ spec.longest cut.now assembly.now }
{
    let mut most: u128 = 0;
    for core in 0..assembly.cores() {
        most = longer(cut, CoreNo(core), assembly.journal(ActorNo(core)), most);
    }
    most
}

/// The frame of the lane of a core.
pub(crate) fn frame_of(cut: &Cut, span: u128, core: CoreNo, journal: &Journal<u64>) -> Frame
    ensures { result ≡ spec.frame_of cut.now span core journal.now.notes }
{
    Frame {
        top: cut.lane(core) * 160 + 120,
        begin: time_before(journal, cut.from),
        span,
        cut: *cut,
    }
}
