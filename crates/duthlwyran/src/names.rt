//! Which queue has which name.

ghost use Rattle.std.specs.Prelude.{◌≡◌, ◌++◌, ◌∷◌, [], OnErr, OnOk, option_map};
ghost use Rattle.std.specs.Str.{bytes_eq};
ghost use Rattle.std.specs.String.{string_bytes};
ghost use Rattle.duthlwyran.specs.Plans.{Name, name_of, queue_named};

use base_words::{CoreNo, QueueNo};
use std::alloc::{AllocError, Global};
use std::marker::Model;

/// A queue of a core: where a job is submitted to. Each core has queue 0, with 1000 shares.
#[derive(Clone, Copy, PartialEq, Eq, Debug)]
pub struct Queue {
    pub core: CoreNo,
    pub queue: QueueNo,
}

/// A queue of a core, and its name.
#[derive(Drop)]
struct Named {
    core: u8,
    queue: u8,
    name: String,
}

impl Model for Named {
    ghost use Rattle.duthlwyran.specs.Plans.{Name};
    ghost use Rattle.std.specs.String.{string_bytes};

    ghost Value = { Name };

    ghost view = { λ n. record { core = n.core; queue = n.queue; text = string_bytes n.name } };
}

/// The names of queues. A journal and its text know numbers alone, so whoever prints or draws looks the names up here.
#[derive(Drop)]
pub struct QueueNames {
    alloc: Global,
    all: Vec<Named, Global>,
}

impl Model for QueueNames {
    ghost use Rattle.std.specs.Prelude.{List};
    ghost use Rattle.duthlwyran.specs.Plans.{Name};

    ghost Value = { List Name };

    ghost view = { λ n. n.all.items };
}

/// Whether two texts are the same.
fn is_same(one: &str, other: &str) -> bool
    ensures { result ≡ bytes_eq one.now other.now }
{
    one == other
}

impl QueueNames {
    /// No queue has a name.
    pub(crate) fn new(alloc: Global) -> Self
        ensures { result ≡ [] }
    {
        QueueNames {
            alloc,
            all: Vec::new(alloc),
        }
    }

    /// What allocates the names.
    pub(crate) fn alloc(&self) -> Global {
        self.alloc
    }

    /// This queue has this name from now on.
    pub(crate) fn add(&mut self, core: u8, queue: u8, name: &str) -> Result<(), AllocError>
        ensures added { OnOk result (self.new ≡ self.old ++ record { core = core; queue = queue; text = name.now } ∷ []) }
        ensures same { OnErr result (self.new ≡ self.old) }
    {
        let name = String::from_str(self.alloc, name)?;
        self.all.push(Named { core, queue, name })?;
        Ok(())
    }

    /// The name of a queue, if it was planned with one. Queue 0 has none.
    #[tactic(auto, using(crate::proofs::Searches::named_here, crate::proofs::Searches::named_away, crate::proofs::Searches::named_behind, crate::proofs::Searches::named_none))]
    pub fn name(&self, core: CoreNo, queue: QueueNo) -> Option<&str>
        ensures { option_map (λ name. name.now) result ≡ name_of core queue self.now }
    {
        for index in 0..self.all.len() {
            let named = &self.all[index];
            if named.core == core.0 && named.queue == queue.0 {
                return Some(named.name.as_str());
            }
        }
        None
    }

    /// The queue of this core that was planned with this name: the first, if there are several.
    #[tactic(auto, using(crate::proofs::Finds::found_here, crate::proofs::Finds::found_away, crate::proofs::Finds::found_behind, crate::proofs::Finds::found_none))]
    pub fn queue(&self, core: CoreNo, name: &str) -> Option<Queue>
        ensures { result ≡ queue_named core name.now self.now }
    {
        let number = core.0;
        for index in 0..self.all.len() {
            let named = &self.all[index];
            if named.core == number && is_same(named.name.as_str(), name) {
                return Some(Queue {
                    core: CoreNo(number),
                    queue: QueueNo(named.queue),
                });
            }
        }
        None
    }
}
