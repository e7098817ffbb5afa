//! How often each core was named, counted as it is named.

ghost use Rattle.std.specs.Prelude.{ℕ, ◌≡◌, ◌<◌, ◌+◌, ◌==◌, if◌then◌else◌};
ghost use Rattle.fairexec_script.specs.Counts.{count_of};

use base_words::CoreNo;
use std::marker::Model;

/// How often each core was named.
#[derive(Drop)]
pub struct CoreCounts {
    counts: [u16; 256],
}

impl Model for CoreCounts {
    ghost use Rattle.std.specs.Prelude.{ℕ, List};

    ghost Value = { List ℕ };

    ghost view = { λ c. c.counts };

    ghost invariant = { λ c. Unit {0} };
}

impl CoreCounts {
    /// Before any was named.
    pub fn new() -> CoreCounts
        ensures { (core : ℕ) → count_of core result ≡ 0 }
    {
        CoreCounts { counts: [0; 256] }
    }

    /// How often the core was named.
    pub fn of(&self, core: CoreNo) -> usize
        ensures { result ≡ count_of core self.now }
    {
        usize::from(self.counts[usize::from(core.0)])
    }

    /// The core is named once more.
    pub fn add(&mut self, core: CoreNo)
        requires { count_of core self.old < 65535 }
        ensures { (other : ℕ) → count_of other self.new ≡ count_of other self.old + (if core == other then 1 else 0) }
    {
        self.counts[usize::from(core.0)] += 1;
    }
}
