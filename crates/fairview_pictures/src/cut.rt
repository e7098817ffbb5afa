//! Which part of a run is shown.

ghost use Rattle.std.specs.Prelude.{◌≡◌};
ghost use Rattle.judge_view.specs.Clocks.{clock_of};
ghost use Rattle.fairview_pictures.specs.Cuts as spec;

use base_words::CoreNo;
use judge_view::CoreTime;
use note_facts::note_at;
use note_journal::Journal;

/// The cores and turns that are shown: all cores or one, and the turns from one number to another, both shown too.
#[derive(Clone, Copy)]
pub struct Cut {
    pub core: Option<CoreNo>,
    pub from: u64,
    pub to: u64,
}

impl Cut {
    /// Nothing is cut off.
    pub fn whole() -> Self
        ensures { result ≡ spec.whole }
    {
        Cut {
            core: None,
            from: 0,
            to: u64::MAX,
        }
    }

    /// Whether a core is shown.
    pub fn shows(&self, core: CoreNo) -> bool
        ensures { result ≡ spec.shows self.now core }
    {
        match self.core {
            Some(only) => only.0 == core.0,
            None => true,
        }
    }

    /// Whether a turn is shown.
    pub fn has_turn(&self, turn: u64) -> bool
        ensures { result ≡ spec.has_turn self.now turn }
    {
        self.from <= turn && turn <= self.to
    }

    /// How many lanes there are.
    pub fn lanes(&self, cores: u8) -> u32
        ensures { result ≡ spec.lanes self.now cores }
    {
        match self.core {
            Some(_) => 1,
            None => cores as u32,
        }
    }

    /// Which lane a core has, counted from 0.
    pub fn lane(&self, core: CoreNo) -> u32
        ensures { result ≡ spec.lane self.now core }
    {
        match self.core {
            Some(_) => 0,
            None => core.0 as u32,
        }
    }
}

/// The processor time of a core before this turn begins.
pub(crate) fn time_before(journal: &Journal<u64>, turn: u64) -> u128
    ensures { result ≡ spec.time_before turn journal.now.notes }
{
    let mut clock = CoreTime::new();
    let mut time: u128 = 0;
    for place in 0..journal.len() {
        clock.add(&note_at(journal, place));
        time = time_reached(&clock, turn, time);
    }
    time
}

/// The time of the clock, if this turn hasn't begun.
fn time_reached(clock: &CoreTime, turn: u64, before: u128) -> u128
    ensures { result ≡ spec.time_reached clock.now turn before }
{
    if clock.turns < turn {
        clock.time
    } else {
        before
    }
}
