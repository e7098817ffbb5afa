//! A meter that tells one time of all polls.

ghost use Rattle.std.specs.Prelude.{◌≡◌};

use core_queues::Meter;

/// The time that each poll takes.
#[derive(Drop)]
pub(crate) struct Known {
    time: u64,
}

impl Known {
    /// Each poll takes this time.
    pub(crate) fn each(time: u64) -> Self
        ensures { result.time ≡ time }
    {
        Known { time }
    }
}

impl Meter for Known {
    ghost use Rattle.std.specs.Prelude.{◌≡◌};

    ghost Tells = { λ known time after. (time ≡ known.time) × (after ≡ known) };

    ghost TellsBegun = { λ known time after. (time ≡ known.time) × (after ≡ known) };

    fn start(&mut self) {}

    fn spent(&mut self) -> u64 {
        self.time
    }
}
