//! What a turn has to have before a poll: that the gate was asked.

ghost use Rattle.std.specs.Prelude.{◌≡◌};

use base_words::{CoreNo, JobId};
use run_config::Gate;

/// That the gate was asked for the next poll of this job, by the core of this number. Only `ask` makes one, and a poll takes one.
#[derive(Drop)]
pub(crate) struct Leave {
    core: CoreNo,
    name: JobId,
}

/// Asks the gate of the core of this number, just before a poll.
#[inline]
pub(crate) fn ask<G: Gate>(gate: &mut G, core: CoreNo, name: &JobId) -> Leave
    ensures asked { G.Asked gate.old core name.now gate.new }
    ensures core { result.core ≡ core }
    ensures name { result.name ≡ name.now }
{
    gate.before_poll(core, *name);
    Leave { core, name: *name }
}
