//! How a script's runtime is started.

ghost use Rattle.std.specs.Prelude.{◌≡◌, ◌≤◌, length, IfOk, IfErr, Some};
ghost use Rattle.base_words.specs.Limits.{most_capacity, most_cores};
ghost use Rattle.run_runtime.specs.Calls.{IsStarted};
ghost use Rattle.fairexec_script.specs.Limits.{IsSize, IsBurst, ArePlaced, HasFewQueues};
ghost use Rattle.fairexec_threads.specs.Accepted as spec;
ghost use Rattle.fairexec_threads.specs.Runs.{IsOfStart};

use crate::clock::StillClock;
use base_jobs::ScriptJob;
use base_words::{CoreNo, Shares};
use fairexec_script::ThreadsFault;
use run_config::{Config, NoGate};
use run_runtime::{Runtime, StartError};
use std::alloc::{AllocError, Global};
use std::sync::Wait;
use std::thread::Threads;
use text_words::Fault;

/// A runtime of script jobs, which tell their own time.
pub(crate) type House = Runtime<ScriptJob, StillClock, NoGate>;

/// How many notes each journal has room for.
fn room_of(cores: u8, cap: u16, burst: u8) -> u32
    requires cores { cores ≤ most_cores }
    requires cap { cap ≤ most_capacity }
    requires bursts { IsBurst burst }
    ensures { result ≡ spec.room_of cores cap burst }
{
    (1 << 16) + 16 * ((u32::from(cores) + 1) * (u32::from(cap) + 1)) + 4 * u32::from(burst - 1)
}

/// A clock for each core.
fn clocks_of(alloc: Global, cores: u8) -> Result<Vec<StillClock>, AllocError>
    ensures { IfOk result (λ clocks. length clocks.items ≡ cores) }
{
    let mut clocks = Vec::new(alloc);
    clocks.resize(cores as usize, StillClock)?;
    Ok(clocks)
}

/// A gate for each core.
fn gates_of(alloc: Global, cores: u8) -> Result<Vec<NoGate>, AllocError>
    ensures { IfOk result (λ gates. length gates.items ≡ cores) }
{
    let mut gates = Vec::new(alloc);
    gates.resize(cores as usize, NoGate)?;
    Ok(gates)
}

/// Starts the runtime of a script of this size, with turns of so many polls and with these queues.
///
/// # Errors
///
/// `Memory`, and `Thread` where a thread can't be made.
pub(crate) fn start_house<R>(
    rt: R,
    alloc: Global,
    cores: u8,
    cap: u16,
    burst: u8,
    queues: Vec<(CoreNo, Shares)>,
) -> Result<House, ThreadsFault>
where
    R: Threads + Wait + Copy + Drop + Send + 'static,
    requires size { IsSize cores cap }
    requires bursts { IsBurst burst }
    requires placed { ArePlaced (Some (cores, cap)) queues.items }
    requires few { HasFewQueues queues.items }
    ensures ok { IfOk result (IsStarted cores cap burst (spec.room_of cores cap burst) queues.items) }
    ensures fault { IfErr result IsOfStart }
{
    let clocks = clocks_of(alloc, cores)?;
    let gates = gates_of(alloc, cores)?;
    let config = Config {
        cores,
        cap,
        burst,
        room: room_of(cores, cap, burst),
        queues,
    };
    match House::start(rt, alloc, config, clocks, gates) {
        Ok(house) => Ok(house),
        Err(StartError::Memory) => Err(ThreadsFault::Of(Fault::Memory)),
        Err(StartError::Thread) => Err(ThreadsFault::Thread),
        Err(StartError::BadConfig) => unreachable!(),
    }
}
