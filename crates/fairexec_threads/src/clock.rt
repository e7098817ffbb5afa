//! The clock of a core whose jobs tell their own time.

use run_config::Clock;

/// A clock that stands still. The jobs of a script tell their own time, so no reading of it counts.
#[derive(Clone, Copy, Drop)]
pub(crate) struct StillClock;

impl Clock for StillClock {
    fn now(&mut self) -> u64 {
        0
    }
}
