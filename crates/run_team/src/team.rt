//! Workers on threads of their own.

ghost use Rattle.std.specs.Prelude.{◌≡◌, ◌≤◌, ◌<◌, [], length, IfOk, IfErr, vec_capacity};
ghost use Rattle.run_team.specs.Works.{Together};
ghost use Rattle.run_team.specs.Seats.{IsSeatOf, Leaves, Ends};
ghost use Rattle.run_team.specs.Teams.{AccountsFor};

use crate::seat::{BEGIN, Signal, WAIT, WorkerAt, left_of, seat_one};
use crate::work::{Left, Promised, Work, end_of};
use std::alloc::Global;
use std::marker::Model;
use std::snapshot::Snapshot;
use std::sync::atomic::{AtomicU64, Ordering};
use std::sync::{Arc, Wait};
use std::thread::Threads;

/// Why no worker runs, and what became of each.
#[derive(Drop)]
pub enum NotStarted<W: Promised> {
    /// There was no memory. No thread was made, and all workers are back.
    Memory(Vec<W>),
    /// A thread could not be made. Those that were made have ended.
    Thread(Vec<Left<W>>),
}

/// Workers, each on a thread of its own.
#[derive(Drop)]
pub struct Team<W: Promised> {
    given: Snapshot<Vec<W>>,
    seats: Vec<WorkerAt<W>>,
    // Empty, with room for what the workers give back.
    ended: Vec<W::Ended>,
}

impl<W: Promised> Model for Team<W> {
    ghost use Rattle.std.specs.Prelude.{List};

    ghost Value = { List W };

    ghost use Rattle.std.specs.Prelude.{vec_capacity};
    ghost use Rattle.run_team.specs.Teams.{IsTeam};

    ghost view = { λ t. t.given.value.items };

    ghost invariant = { λ t. IsTeam W.keeps t.given.value.items t.seats.items t.ended.items (vec_capacity t.ended) };
}

/// Makes a thread for each worker.
fn seat_all<W, R>(
    rt: R,
    workers: Vec<W>,
    signal: &Signal,
    seats: Vec<WorkerAt<W>>,
) -> Vec<WorkerAt<W>>
where
    W: Work + Send + 'static,
    W::Ended: Send + 'static,
    R: Threads + Wait + Copy + Drop + Send + 'static,
    requires empty { seats.items ≡ [] }
    requires room { length workers.items ≤ vec_capacity seats }
    ensures { Together (IsSeatOf W.keeps) workers.items result.items }
{
    let mut seats = seats;
    for worker in workers {
        seats.push_reserved(seat_one(rt, worker, signal));
    }
    seats
}

/// Tells all threads to begin, unless they were told to leave. Whether they begin.
fn begins(signal: &Signal) -> bool {
    // step: begin
    let begun = signal
        .compare_exchange(WAIT, BEGIN, Ordering::SeqCst, Ordering::SeqCst)
        .is_ok();
    signal.wake_all();
    begun
}

/// Joins all threads.
fn leave_all<W: Promised, R: Threads>(
    rt: &R,
    seats: Vec<WorkerAt<W>>,
    lefts: Vec<Left<W>>,
) -> Vec<Left<W>>
    requires empty { lefts.items ≡ [] }
    requires room { length seats.items ≤ vec_capacity lefts }
    ensures { Together (Leaves W.keeps) seats.items result.items }
{
    let mut lefts = lefts;
    for seat in seats {
        lefts.push_reserved(left_of(rt, seat));
    }
    lefts
}

/// Joins all threads. A worker that never began is run here.
fn end_all<W: Work, R: Threads + Wait>(
    rt: &R,
    seats: Vec<WorkerAt<W>>,
    ended: Vec<W::Ended>,
) -> Vec<W::Ended>
    requires empty { ended.items ≡ [] }
    requires room { length seats.items ≤ vec_capacity ended }
    ensures { Together (Ends W.keeps) seats.items result.items }
{
    let mut ended = ended;
    for seat in seats {
        let left = left_of(rt, seat);
        ended.push_reserved(end_of(rt, left));
    }
    ended
}

impl<W: Promised> Team<W> {
    /// Makes a thread for each worker. None begins before all threads are there.
    ///
    /// # Errors
    ///
    /// `Memory` where there is none, `Thread` where a thread can't be made. Then no worker is on a thread any more: each is back as
    /// it was given, or has ended and gave back what it owes.
    pub fn start<R>(rt: R, alloc: Global, workers: Vec<W>) -> Result<Self, NotStarted<W>>
    where
        W: Work + Send + 'static,
        W::Ended: Send + 'static,
        R: Threads + Wait + Copy + Drop + Send + 'static,
        ensures ok { IfOk result (λ team. team ≡ workers.items) }
        ensures err { IfErr result (λ failed. AccountsFor W.keeps workers.items failed) }
    {
        let count = workers.len();
        let Ok(signal) = Arc::new(alloc, AtomicU64::new(WAIT)) else {
            return Err(NotStarted::Memory(workers));
        };
        let Ok(seats) = Vec::with_capacity(alloc, count) else {
            return Err(NotStarted::Memory(workers));
        };
        let Ok(lefts) = Vec::with_capacity(alloc, count) else {
            return Err(NotStarted::Memory(workers));
        };
        let Ok(ended) = Vec::with_capacity(alloc, count) else {
            return Err(NotStarted::Memory(workers));
        };
        let given = Snapshot::of(&workers);
        let seats = seat_all(rt, workers, &signal, seats);
        if begins(&signal) {
            Ok(Team {
                given,
                seats,
                ended,
            })
        } else {
            Err(NotStarted::Thread(leave_all(&rt, seats, lefts)))
        }
    }

    /// Waits until all workers have ended. What each gave back, in the order in which they were given.
    ///
    /// The body asks for no memory; no clause says so.
    pub fn join<R: Threads + Wait>(self, rt: &R) -> Vec<W::Ended>
    where
        W: Work,
        ensures { Together W.keeps self result.items }
    {
        let Team {
            given: _,
            seats,
            ended,
        } = self;
        end_all(rt, seats, ended)
    }
}
