//! How a ring ends.

ghost use Rattle.std.specs.Prelude.{◌≡◌, length, take};
ghost use Rattle.link_ends.specs.Calls.{final_of};
ghost use Rattle.link_ends.specs.Ends.{AreOf, Joined, SoundIn, SoundOut};
ghost use Rattle.link_ends.specs.Fits.{Fits};

use crate::ring_in::RingIn;
use crate::ring_out::RingOut;
use base_jobs::Task;
use link_ends::{InEnd, OutEnd};

/// The counts of a link that has ended. What `open_after` began with isn't counted, except in the final count.
#[derive(Clone, Copy, PartialEq, Eq, Debug)]
pub struct Accounts {
    /// The orders that were accepted.
    pub accepted: u64,
    /// The orders that were taken.
    pub taken: u64,
    /// The outcomes that were given.
    pub given: u64,
    /// The outcomes that were collected.
    pub collected: u64,
    /// The number of the last accepted order, if the gate was shut.
    pub shut: Option<u64>,
}

/// Ends a link. The orders and outcomes that are still in its cells are dropped.
pub fn reunite<J: Task>(out: RingOut<J>, inward: RingIn<J>) -> Accounts
    requires { inward.link ≡ out.link }
    ensures sound_out { SoundOut out.out out.credited }
    ensures sound_in { SoundIn inward.inward }
    ensures joined { Joined (⟦<RingOut<J> as OutEnd<J>>⟧.out out) (⟦<RingIn<J> as InEnd<J>>⟧.inward inward) }
    ensures outcomes { AreOf (Fits J.meaning) (⟦<RingOut<J> as OutEnd<J>>⟧.out out).base (take (⟦<RingIn<J> as InEnd<J>>⟧.inward inward).taken (⟦<RingOut<J> as OutEnd<J>>⟧.out out).sent) (⟦<RingIn<J> as InEnd<J>>⟧.inward inward).given }
    ensures accepted { result.accepted ≡ length (⟦<RingOut<J> as OutEnd<J>>⟧.out out).sent }
    ensures taken { result.taken ≡ (⟦<RingIn<J> as InEnd<J>>⟧.inward inward).taken }
    ensures given { result.given ≡ length (⟦<RingIn<J> as InEnd<J>>⟧.inward inward).given }
    ensures collected { result.collected ≡ (⟦<RingOut<J> as OutEnd<J>>⟧.out out).got }
    ensures shut { result.shut ≡ final_of (⟦<RingIn<J> as InEnd<J>>⟧.inward inward) (⟦<RingIn<J> as InEnd<J>>⟧.inward inward).shut }
{
    let mut out = out;
    let inward = inward.compare(&mut out);
    Accounts {
        accepted: out.count,
        taken: inward.taken,
        given: inward.given,
        collected: out.collected,
        shut: inward.final_count(),
    }
}
