//! One worker, on a thread or off it.

ghost use Rattle.std.specs.Prelude.{◌≡◌};
ghost use Rattle.run_team.specs.Works.{IsLeft};
ghost use Rattle.run_team.specs.Seats.{IsSeatOf, Leaves};

use crate::work::{AsGiven, Left, Promised, Work};
use std::alloc::Global;
use std::marker::PhantomData;
use std::snapshot::Snapshot;
use std::sync::atomic::{AtomicU64, Ordering};
use std::sync::{Arc, Wait};
use std::thread;
use std::thread::{PromisedHandle, Threads};

/// The word that all threads of a team wait for.
pub(crate) type Signal = Arc<AtomicU64, Global>;

/// No thread may begin yet.
pub(crate) const WAIT: u64 = 0;

/// All threads are there: each begins.
pub(crate) const BEGIN: u64 = 1;

/// A thread could not be made: each gives its worker back.
pub(crate) const LEAVE: u64 = 2;

/// The place of a worker.
#[derive(Drop)]
pub(crate) enum WorkerAt<W: Promised> {
    /// On a thread of its own.
    Thread(PromisedHandle<Left<W>, AsGiven<W>>),
    /// On none.
    Here(Left<W>),
}

/// Waits for the signal. Whether to begin.
fn is_told_to_begin<R: Wait>(rt: &R, signal: &Signal) -> bool {
    for _ in rt.forever() {
        // step: hear
        let told = signal.load(Ordering::SeqCst);
        if told != WAIT {
            return told == BEGIN;
        }
        signal.park(rt, WAIT as u32);
    }
    unreachable!()
}

/// What a worker's thread does: it waits for the signal, and runs the worker if it is to begin.
///
/// `_kind` is of no use when it runs: by it the thread's function names the type that it gives back.
fn sit<W: Work, R: Wait + Drop>(
    rt: R,
    worker: W,
    signal: Signal,
    _kind: PhantomData<W::Ended>,
) -> Left<W>
    ensures { IsLeft W.keeps worker result }
{
    if is_told_to_begin(&rt, &signal) {
        Left::Ended(worker.run(&rt))
    } else {
        Left::Unbegun(worker)
    }
}

/// Makes a thread for a worker. Where none can be made, all threads are told to leave.
pub(crate) fn seat_one<W, R>(rt: R, worker: W, signal: &Signal) -> WorkerAt<W>
where
    W: Work + Send + 'static,
    W::Ended: Send + 'static,
    R: Threads + Wait + Copy + Drop + Send + 'static,
    ensures { IsSeatOf W.keeps worker result }
{
    let Ok(theirs) = Arc::try_clone(signal) else {
        // step: leave
        signal.store(LEAVE, Ordering::SeqCst);
        return WorkerAt::Here(Left::Unbegun(worker));
    };
    let promise = AsGiven(Snapshot::of(&worker));
    let kind = PhantomData::<W::Ended>;
    match thread::spawn_with(&rt, promise, move || sit(rt, worker, theirs, kind)) {
        Ok(handle) => WorkerAt::Thread(handle),
        Err(refused) => {
            // step: leave
            signal.store(LEAVE, Ordering::SeqCst);
            WorkerAt::Here((refused.value)())
        }
    }
}

/// Joins a worker's thread, if it has one.
pub(crate) fn left_of<W: Promised, R: Threads>(rt: &R, seat: WorkerAt<W>) -> Left<W>
    ensures { Leaves W.keeps seat result }
{
    match seat {
        WorkerAt::Thread(handle) => handle.join(rt),
        WorkerAt::Here(left) => left,
    }
}
