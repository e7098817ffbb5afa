//! A house that is planned before its threads are there.
//!
//! A house is a plan: nothing is asked of the system before `start`. Each planned queue is checked at once, so a start fails for want of
//! memory or threads, or for a number that the plan took as it is.
//!
//! - A core has queue 0 from the beginning. The queues that are planned follow in the order of the plan, so their numbers are known at once.
//! - `start` hands the plan to the runtime and its names to the node. `start_with` takes parts for each core, by their order.

ghost use Rattle.std.specs.Prelude.{◌≡◌, ◌+◌, ◌<◌, ◌≤◌, All, [], IfOk, Some, length, min};
ghost use Rattle.std.specs.Result.{result_map_both};
ghost use Rattle.base_words.specs.Limits.{most_notes};
ghost use Rattle.base_words.specs.Charge.{InRange};
ghost use Rattle.run_config.specs.Configs.{least_room, queues_of};
ghost use Rattle.run_runtime.specs.Calls.{Starts};
ghost use Rattle.run_runtime.specs.WithLocals.{StartsWithSinksAndLocals};
ghost use Rattle.run_runtime.specs.WithSinks.{HasSinks};
ghost use Rattle.duthlwyran.specs.Errors.{plan_text};
ghost use Rattle.duthlwyran.specs.Plans.{fresh_plan, PlansQueue};

use crate::names::{Queue, QueueNames};
use crate::node::Node;
use crate::parts::Parts;
use base_jobs::{Job, Task};
use base_words::{CoreNo, MOST_NOTES, MOST_QUEUES, QueueNo, Shares};
use run_config::{Clock, Config, Gate, SystemClock, is_good};
use run_runtime::{Runtime, Sink, StartError};
use std::alloc::Global;
use std::error::Error;
use std::marker::Model;
use std::sync::Wait;
use std::thread::Threads;
use std::{fmt, time};

/// How many notes a journal has room for, beside those that a worker keeps free.
pub const SPARE_NOTES: usize = 65_536;

/// Why a queue wasn't planned, tried in this order.
#[derive(Clone, Copy, PartialEq, Eq, Debug, Drop)]
pub enum PlanError {
    /// There is no such core.
    NoCore,
    /// Shares are from 1 to 10,000.
    BadShares,
    /// The core has 256 queues, queue 0 among them.
    TooMany,
    /// There is no memory for one more.
    Memory,
}

impl fmt::Display for PlanError {
    ghost output = { λ error. Some (plan_text error) };

    fn fmt<W: fmt::Write>(&self, f: &mut fmt::Formatter<W>) -> fmt::Result {
        match self {
            PlanError::NoCore => f.write_str("no such core"),
            PlanError::BadShares => f.write_str("shares are from 1 to 10000"),
            PlanError::TooMany => f.write_str("the core has 256 queues"),
            PlanError::Memory => f.write_str("out of memory"),
        }
    }
}

impl Error for PlanError {}

/// How many queues were planned for this core.
#[tactic(auto, using(run_config::proofs::Counts::queues_here, run_config::proofs::Counts::queues_away, run_config::proofs::Counts::queues_none))]
fn planned_of(core: CoreNo, queues: &[(CoreNo, Shares)]) -> usize
    ensures is { result ≡ queues_of core queues.now }
    ensures few { result ≤ length queues.now }
{
    let mut count = 0;
    for index in 0..queues.len() {
        let of = queues[index].0;
        if of.0 == core.0 {
            count += 1;
        }
    }
    count
}

/// A house before its threads are there: how many cores it has, and which queues, by name.
pub struct House {
    config: Config,
    names: QueueNames,
}

impl Model for House {
    ghost use Rattle.duthlwyran.specs.Plans.{Plan};

    ghost Value = { Plan };

    ghost view = { λ h. record {
      cores = h.config.cores;
      cap = h.config.cap;
      burst = h.config.burst;
      room = h.config.room;
      queues = h.config.queues.items;
      names = h.names;
    } };
}

// By hand: a derived `drop` is proved again in each crate above.
impl Drop for House {
    fn drop(self) {
        let House {
            config: _,
            names: _,
        } = self;
    }
}

impl House {
    /// A house of so many cores, with so many submissions outstanding on a link at most. Each core has queue 0, with 1000 shares, and each
    /// turn is a single poll.
    ///
    /// A journal has room for 65,536 notes beside those that a worker keeps free, or for 2^24 in all if that is less.
    pub fn new(alloc: Global, cores: u8, cap: u16) -> Self
        ensures { result ≡ fresh_plan cores cap (min (least_room cores cap 1 + 65536) most_notes) }
    {
        let least = 16 * ((cores as usize + 1) * (cap as usize + 1));
        let room = (least + SPARE_NOTES).min(MOST_NOTES);
        House {
            config: Config {
                cores,
                cap,
                burst: 1,
                room: room as u32,
                queues: Vec::new(alloc),
            },
            names: QueueNames::new(alloc),
        }
    }

    /// The same house, whose turns may have so many polls: from 1 to 64, and `start` refuses any other number. The room of a journal stays.
    pub fn with_burst(self, burst: u8) -> Self
        ensures { result ≡ record self { burst = burst } }
    {
        let mut house = self;
        house.config.burst = burst;
        house
    }

    /// The same house, with room for so many notes in each journal. A poll makes at most three, the end of a turn one more where turns may
    /// have several polls, and a job that comes and goes four more.
    pub fn with_notes(self, notes: u32) -> Self
        ensures { result ≡ record self { room = notes } }
    {
        let mut house = self;
        house.config.room = notes;
        house
    }

    /// Plans the next queue of a core, with a name and shares from 1 to 10,000. The first of a core is its queue 1.
    ///
    /// # Errors
    ///
    /// `NoCore`, `BadShares`, `TooMany` or `Memory`, tried in this order. Nothing was planned then.
    pub fn queue(&mut self, core: CoreNo, name: &str, shares: u32) -> Result<Queue, PlanError>
        ensures { PlansQueue core shares name.now self.old result self.new }
    {
        if core.0 >= self.config.cores {
            return Err(PlanError::NoCore);
        }
        let Ok(shares) = Shares::try_new(shares) else {
            return Err(PlanError::BadShares);
        };
        self.next_queue(core, name, shares)
    }

    /// The next queue of a core that is there.
    fn next_queue(&mut self, core: CoreNo, name: &str, shares: Shares) -> Result<Queue, PlanError>
        requires there { core < self.old.cores }
        requires good { InRange shares }
        ensures { PlansQueue core shares name.now self.old result self.new }
    {
        let count = planned_of(core, &self.config.queues);
        if count + 1 >= MOST_QUEUES {
            return Err(PlanError::TooMany);
        }
        if self.config.queues.try_reserve(1).is_err() {
            return Err(PlanError::Memory);
        }
        let queue = QueueNo(count as u8 + 1);
        let Ok(()) = self.names.add(core.0, queue.0, name) else {
            return Err(PlanError::Memory);
        };
        self.config.queues.push_reserved((core, shares));
        Ok(Queue { core, queue })
    }

    /// The names of the queues that are planned.
    pub fn names(&self) -> &QueueNames
        ensures { result.now ≡ self.now.names }
    {
        &self.names
    }

    /// Starts a thread for each core, which reads the system's clock, asks no gate, passes no notes on and shares nothing with its jobs.
    ///
    /// # Errors
    ///
    /// Those of `Runtime::start`.
    pub fn start<J, R>(self, rt: R) -> Result<Node<J, SystemClock<R>>, StartError>
    where
        J: Job + Task<Out = u64, Local = ()> + Send + 'static,
        R: Threads + Wait + time::Clock + Copy + Drop + Send + 'static,
        ensures starts { Starts self.cores self.cap self.burst self.room self.queues self.cores self.cores (result_map_both (λ node. node.runtime) (λ error. error) result) }
        ensures cores { IfOk result (λ node. node.cores ≡ self.cores) }
        ensures names { IfOk result (λ node. node.names ≡ self.names) }
    {
        let cores = self.config.cores;
        if !is_good(&self.config, cores as usize, cores as usize) {
            return Err(StartError::BadConfig);
        }
        let Ok(parts) = Parts::of(rt, self.names.alloc(), cores) else {
            return Err(StartError::Memory);
        };
        self.start_with(rt, parts)
    }

    /// The same with parts of your own: clocks, gates, sinks that have no note yet, and the states that the jobs of a core share. The core of each
    /// number gets those of its number, and the caller the last sink.
    ///
    /// # Errors
    ///
    /// Those of `Runtime::start_with_sinks_and_locals`.
    pub fn start_with<J, R, C, G, S>(
        self,
        rt: R,
        parts: Parts<C, G, S, J::Local>,
    ) -> Result<Node<J, C, G, S>, StartError>
    where
        J: Job + Task<Out = u64> + Send + 'static,
        J::Local: Send + 'static,
        C: Clock + Drop + Send + 'static,
        G: Gate + Drop + Send + 'static,
        S: Sink + Send + 'static,
        R: Threads + Wait + Copy + Drop + Send + 'static,
        requires { All (λ sink. S.has sink ≡ []) parts.sinks.items }
        ensures starts { StartsWithSinksAndLocals self.cores self.cap self.burst self.room self.queues (length parts.clocks.items) (length parts.gates.items) (length parts.sinks.items) (length parts.locals.items) (result_map_both (λ node. node.runtime) (λ error. error) result) }
        ensures dealt { IfOk result (λ node. HasSinks S.asks S.mark parts.sinks.items node.runtime) }
        ensures cores { IfOk result (λ node. node.cores ≡ self.cores) }
        ensures names { IfOk result (λ node. node.names ≡ self.names) }
    {
        let House { config, names } = self;
        let Parts {
            clocks,
            gates,
            sinks,
            locals,
        } = parts;
        let (alloc, cores) = (names.alloc(), config.cores);
        match Runtime::start_with_sinks_and_locals(
            rt, alloc, config, clocks, gates, sinks, locals,
        ) {
            Ok(runtime) => Ok(Node {
                runtime,
                names,
                cores,
            }),
            Err(error) => Err(error),
        }
    }
}
