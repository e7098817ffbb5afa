//! The calls by which a runtime is started.

ghost use Rattle.std.specs.Prelude.{◌≡◌, ◌+◌, All, [], IfOk, length};
ghost use Rattle.run_runtime.specs.Calls.{Starts};
ghost use Rattle.run_runtime.specs.WithSinks.{HasSinks, StartsWithSinks};
ghost use Rattle.run_runtime.specs.WithLocals.{StartsWithLocals, StartsWithSinksAndLocals};

use crate::error::StartError;
use crate::runtime::Runtime;
use base_jobs::{Job, Task};
use note_journal::{Sink, Whole};
use run_config::{Clock, Config, Gate, is_good};
use std::alloc::{AllocError, Global};
use std::sync::Wait;
use std::thread::Threads;

/// A sink that takes nothing for each actor.
fn whole_sinks(alloc: Global, cores: u8) -> Result<Vec<Whole>, AllocError>
    ensures { IfOk result (λ sinks. length sinks.items ≡ cores + 1) }
{
    let mut sinks = Vec::new(alloc);
    sinks.resize(cores as usize + 1, Whole)?;
    Ok(sinks)
}

/// A state for each core of jobs that share nothing.
fn no_locals(alloc: Global, cores: u8) -> Result<Vec<()>, AllocError>
    ensures { IfOk result (λ locals. length locals.items ≡ cores) }
{
    let mut locals = Vec::new(alloc);
    locals.resize(cores as usize, ())?;
    Ok(locals)
}

impl<J: Task<Out = u64, Local = ()>, C: Drop, G: Drop, S: Sink> Runtime<J, C, G, S> {
    /// The same as `start`, where each actor passes its notes on: each core has a sink by its number, and the last one is the outside actor's.
    /// Memory is taken for the notes that are kept, so a runtime lives as long as its sinks take them.
    ///
    /// # Limits
    ///
    /// Those of `start`, except that room comes back each time a sink takes what is kept. A core closes by itself, and a submission finds the
    /// journal full, only where a sink refused. `finish_with_sinks` gives the sinks back.
    ///
    /// # Errors
    ///
    /// As `start`, and `BadConfig` also where there isn't a sink for each core and one for the outside actor.
    pub fn start_with_sinks<R>(
        rt: R,
        alloc: Global,
        config: Config,
        clocks: Vec<C>,
        gates: Vec<G>,
        sinks: Vec<S>,
    ) -> Result<Self, StartError>
    where
        J: Job + Send + 'static,
        C: Clock + Send + 'static,
        G: Gate + Send + 'static,
        S: Send + 'static,
        R: Threads + Wait + Copy + Drop + Send + 'static,
        requires { All (λ sink. S.has sink ≡ []) sinks.items }
        ensures starts { StartsWithSinks config.cores config.cap config.burst config.room config.queues.items (length clocks.items) (length gates.items) (length sinks.items) result }
        ensures dealt { IfOk result (HasSinks S.asks S.mark sinks.items) }
    {
        if !is_good(&config, clocks.len(), gates.len())
            || sinks.len() != config.cores as usize + 1
        {
            return Err(StartError::BadConfig);
        }
        let Ok(locals) = no_locals(alloc, config.cores) else {
            return Err(StartError::Memory);
        };
        Self::begin(rt, alloc, &config, clocks, gates, sinks, locals)
    }
}

impl<J: Task<Out = u64, Local = ()>, C: Drop, G: Drop> Runtime<J, C, G> {
    /// Starts a worker for each core, each with a clock and a gate of its own, on a thread of its own. All memory is taken here, except what
    /// an order to create a queue takes.
    ///
    /// # Limits
    ///
    /// - 1 to 16 cores. 1 to 1024 submissions from one actor to one core may be outstanding. A core has at most 255 queues beside queue 0.
    /// - A turn has 1 to 64 polls (`burst`).
    /// - A journal has room for `16 * (cores + 1) * (cap + 1) + 4 * (burst - 1)` notes and one for each queue at least, and for 2^24 at most.
    ///   The first poll of a turn makes three notes, each further one two, and the end of the turn one more if `burst` is above 1. A job
    ///   that comes and goes makes four more.
    /// - No room comes back, since a runtime that is started so has no sinks (`start_with_sinks`). A core whose journal grows short closes by
    ///   itself, and hands its jobs back. A caller whose journal is full can't submit any more.
    /// - A job that doesn't yield keeps its core.
    /// - Each core must be closed before `finish`. A runtime that is dropped without `finish` leaves its threads to themselves.
    ///
    /// # Errors
    ///
    /// Tried in this order: `BadConfig` where a number is outside its limits, a queue is of no core or one too many, or there is no clock or
    /// gate for each core; `Memory`; `Thread` where a thread can't be made. Then each worker that was started has ended.
    pub fn start<R>(
        rt: R,
        alloc: Global,
        config: Config,
        clocks: Vec<C>,
        gates: Vec<G>,
    ) -> Result<Self, StartError>
    where
        J: Job + Send + 'static,
        C: Clock + Send + 'static,
        G: Gate + Send + 'static,
        R: Threads + Wait + Copy + Drop + Send + 'static,
        ensures { Starts config.cores config.cap config.burst config.room config.queues.items (length clocks.items) (length gates.items) result }
    {
        if !is_good(&config, clocks.len(), gates.len()) {
            return Err(StartError::BadConfig);
        }
        let Ok(sinks) = whole_sinks(alloc, config.cores) else {
            return Err(StartError::Memory);
        };
        let Ok(locals) = no_locals(alloc, config.cores) else {
            return Err(StartError::Memory);
        };
        Self::begin(rt, alloc, &config, clocks, gates, sinks, locals)
    }
}

impl<J: Task<Out = u64>, C: Drop, G: Drop, S: Sink> Runtime<J, C, G, S> {
    /// The same as `start_with_sinks`, for jobs that share a state: each core has one by its number. `finish_with_locals` gives the states back.
    ///
    /// # Errors
    ///
    /// As `start_with_sinks`, and `BadConfig` also where there isn't a state for each core.
    pub fn start_with_sinks_and_locals<R>(
        rt: R,
        alloc: Global,
        config: Config,
        clocks: Vec<C>,
        gates: Vec<G>,
        sinks: Vec<S>,
        locals: Vec<J::Local>,
    ) -> Result<Self, StartError>
    where
        J: Job + Send + 'static,
        J::Local: Send + 'static,
        C: Clock + Send + 'static,
        G: Gate + Send + 'static,
        S: Send + 'static,
        R: Threads + Wait + Copy + Drop + Send + 'static,
        requires { All (λ sink. S.has sink ≡ []) sinks.items }
        ensures starts { StartsWithSinksAndLocals config.cores config.cap config.burst config.room config.queues.items (length clocks.items) (length gates.items) (length sinks.items) (length locals.items) result }
        ensures dealt { IfOk result (HasSinks S.asks S.mark sinks.items) }
    {
        if !is_good(&config, clocks.len(), gates.len())
            || config.cores as usize + 1 != sinks.len()
            || config.cores as usize != locals.len()
        {
            return Err(StartError::BadConfig);
        }
        Self::begin(rt, alloc, &config, clocks, gates, sinks, locals)
    }
}

impl<J: Task<Out = u64>, C: Drop, G: Drop> Runtime<J, C, G> {
    /// The same as `start`, for jobs that share a state: each core has one by its number. A worker lends its core's state to each poll,
    /// once `begin` has made it ready on the worker's thread. `finish_with_locals` gives the states back.
    ///
    /// # Errors
    ///
    /// As `start`, and `BadConfig` also where there isn't a state for each core.
    pub fn start_with_locals<R>(
        rt: R,
        alloc: Global,
        config: Config,
        clocks: Vec<C>,
        gates: Vec<G>,
        locals: Vec<J::Local>,
    ) -> Result<Self, StartError>
    where
        J: Job + Send + 'static,
        J::Local: Send + 'static,
        C: Clock + Send + 'static,
        G: Gate + Send + 'static,
        R: Threads + Wait + Copy + Drop + Send + 'static,
        ensures { StartsWithLocals config.cores config.cap config.burst config.room config.queues.items (length clocks.items) (length gates.items) (length locals.items) result }
    {
        if !is_good(&config, clocks.len(), gates.len()) || locals.len() != config.cores as usize {
            return Err(StartError::BadConfig);
        }
        let Ok(sinks) = whole_sinks(alloc, config.cores) else {
            return Err(StartError::Memory);
        };
        Self::begin(rt, alloc, &config, clocks, gates, sinks, locals)
    }
}
