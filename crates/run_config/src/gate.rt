//! What a worker asks before each poll.

ghost use Rattle.std.specs.Prelude.{ℕ};
ghost use Rattle.base_words.specs.declared.names.JobId.{JobId};

use base_words::{CoreNo, JobId};

/// A worker's own gate, which it asks just before each poll.
pub trait Gate {
    /// That it was asked for this job of this core, and what the gate is behind that. A gate that says nothing of it may be anything.
    ghost Asked: { Self → ℕ → JobId → Self → Type 0 } = { λ gate core job after. Unit {0} };

    fn before_poll(&mut self, core: CoreNo, job: JobId)
        ensures { Asked self.old core job self.new };
}

/// A gate that does nothing.
#[derive(Clone, Copy, Drop)]
pub struct NoGate;

impl Gate for NoGate {
    fn before_poll(&mut self, _core: CoreNo, _job: JobId) {}
}
