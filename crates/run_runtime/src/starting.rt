//! How a house is opened, and its threads begin.
//!
//! All memory is asked for first: links, bells, seats, journals, and the room in which `finish` puts what comes back. Threads are made last.
//! If one can't be made, those that were end. Clocks, gates, sinks and shared states are dealt by their place.

ghost use Rattle.std.specs.Prelude.{◌≡◌, ◌+◌, ◌<◌, ◌≤◌, All, [], ◌∷◌, false, IfOk, length, map, replicate, vec_capacity};
ghost use Rattle.run_config.specs.Configs.{IsGood};
ghost use Rattle.run_team.specs.Works.{Together};
ghost use Rattle.actor_desk.specs.Submissions.{IsWritten, opened_desk, terms_of_desk};
ghost use Rattle.run_runtime.specs.Calls.{Begins};
ghost use Rattle.run_runtime.specs.Starting.{AreGiven, AreOpening, AreWired, IsHouse, IsOpenedWith, IsWatcherOf, IsWiredWith};
ghost use Rattle.run_runtime.specs.WithLocals.{without_locals};
ghost use Rattle.run_runtime.specs.WithSinks.{HasSinks};

use crate::error::StartError;
use crate::passed::ActorNotes;
use crate::runtime::{Crew, Runtime};
use actor_caller::Caller;
use actor_core::RecordedDesk;
use base_jobs::{Job, Task};
use base_words::ActorNo;
use link_ring::{Ends, open_all};
use note_journal::{Journal, Sink};
use run_config::{Clock, Config, Gate};
use run_team::{NotStarted, Team};
use run_watch::Watcher;
use run_worker::{Bells, OutsideSeat, Worker};
use std::alloc::{AllocError, Global};
use std::snapshot::Snapshot;
use std::sync::Wait;
use std::thread::Threads;

/// What a worker is opened with: its ends, and the clock, the gate, the sink and the shared state of its number.
#[derive(Drop)]
struct Station<J: Task<Out = u64>, C: Drop, G: Drop, S: Sink> {
    ends: Ends<J>,
    clock: C,
    gate: G,
    sink: S,
    local: J::Local,
}

/// The seat of these ends, with the first clock, gate, sink and shared state that are left.
fn next_seat<J: Task<Out = u64>, C: Drop, G: Drop, S: Sink>(
    ends: Ends<J>,
    clocks: &mut Vec<C>,
    gates: &mut Vec<G>,
    sinks: &mut Vec<S>,
    locals: &mut Vec<J::Local>,
) -> Station<J, C, G, S>
    requires clocks { 0 < length clocks.old.items }
    requires gates { 0 < length gates.old.items }
    requires sinks { 0 < length sinks.old.items }
    requires locals { 0 < length locals.old.items }
    ensures ends { result.ends ≡ ends }
    ensures clocks { clocks.old.items ≡ result.clock ∷ clocks.new.items }
    ensures gates { gates.old.items ≡ result.gate ∷ gates.new.items }
    ensures sinks { sinks.old.items ≡ result.sink ∷ sinks.new.items }
    ensures locals { locals.old.items ≡ result.local ∷ locals.new.items }
{
    let clock = clocks.remove(0);
    let gate = gates.remove(0);
    let sink = sinks.remove(0);
    let local = locals.remove(0);
    Station {
        ends,
        clock,
        gate,
        sink,
        local,
    }
}

/// Deals the clocks, the gates, the sinks and the shared states: the actor at each place gets those of its place.
fn deal<J: Task<Out = u64>, C: Drop, G: Drop, S: Sink>(
    alloc: Global,
    all: Vec<Ends<J>>,
    clocks: Vec<C>,
    gates: Vec<G>,
    sinks: Vec<S>,
    locals: Vec<J::Local>,
) -> Result<Vec<Station<J, C, G, S>>, AllocError>
    requires clocks { length clocks.items ≡ length all.items }
    requires gates { length gates.items ≡ length all.items }
    requires sinks { length sinks.items ≡ length all.items }
    requires locals { length locals.items ≡ length all.items }
    ensures ends { IfOk result (λ seats. map (λ seat. seat.ends) seats.items ≡ all.items) }
    ensures clocks { IfOk result (λ seats. map (λ seat. seat.clock) seats.items ≡ clocks.items) }
    ensures gates { IfOk result (λ seats. map (λ seat. seat.gate) seats.items ≡ gates.items) }
    ensures sinks { IfOk result (λ seats. map (λ seat. seat.sink) seats.items ≡ sinks.items) }
    ensures locals { IfOk result (λ seats. map (λ seat. seat.local) seats.items ≡ locals.items) }
{
    let mut seats = Vec::with_capacity(alloc, all.len())?;
    let (mut clocks, mut gates, mut sinks) = (clocks, gates, sinks);
    let mut locals = locals;
    for ends in all {
        let seat = next_seat(ends, &mut clocks, &mut gates, &mut sinks, &mut locals);
        seats.push_reserved(seat);
    }
    Ok(seats)
}

/// Workers, and the watcher of each.
type Watched<J, C, G, S> = (Vec<Worker<J, C, G, S>>, Vec<Watcher>);

/// Opens a worker of each seat.
fn open_seats<J: Task<Out = u64>, C: Drop, G: Drop, S: Sink>(
    alloc: Global,
    config: &Config,
    seats: Vec<Station<J, C, G, S>>,
    bells: &Bells,
) -> Result<Watched<J, C, G, S>, AllocError>
    requires each { All (λ seat. AreOpening config.now.cores config.now.cap config.now.burst config.now.room config.now.queues.items seat.ends) seats.items }
    requires empty { All (λ seat. S.has seat.sink ≡ []) seats.items }
    requires bells { length bells.now.rings ≡ config.now.cores + 1 }
    ensures workers { IfOk result (λ opened. Together (λ seat worker. IsWiredWith (IsOpenedWith config.now.cores config.now.cap config.now.burst config.now.room config.now.queues.items seat.ends) seat.clock seat.gate seat.sink bells.now.names worker) seats.items opened.0.items) }
    ensures watchers { IfOk result (λ opened. Together IsWatcherOf opened.0.items opened.1.items) }
{
    let mut workers = Vec::with_capacity(alloc, seats.len())?;
    let mut watchers = Vec::with_capacity(alloc, seats.len())?;
    for seat in seats {
        let Station {
            ends,
            clock,
            gate,
            sink,
            local,
        } = seat;
        let (worker, watcher) = Worker::open(alloc, config, ends, clock, gate, bells, sink, local)?;
        workers.push_reserved(worker);
        watchers.push_reserved(watcher);
    }
    Ok((workers, watchers))
}

/// Opens the workers of a house, each with the clock, the gate, the sink and the shared state of its number. All ring the same bells.
fn open_workers<J: Task<Out = u64>, C: Drop, G: Drop, S: Sink>(
    alloc: Global,
    config: &Config,
    all: Vec<Ends<J>>,
    bells: &Bells,
    clocks: Vec<C>,
    gates: Vec<G>,
    sinks: Vec<S>,
    locals: Vec<J::Local>,
) -> Result<Watched<J, C, G, S>, AllocError>
    requires each { All (AreOpening config.now.cores config.now.cap config.now.burst config.now.room config.now.queues.items) all.items }
    requires bells { length bells.now.rings ≡ config.now.cores + 1 }
    requires clocks { length clocks.items ≡ length all.items }
    requires gates { length gates.items ≡ length all.items }
    requires sinks { length sinks.items ≡ length all.items }
    requires locals { length locals.items ≡ length all.items }
    requires empty { All (λ sink. S.has sink ≡ []) sinks.items }
    ensures opened { IfOk result (λ opened. Together (IsOpenedWith config.now.cores config.now.cap config.now.burst config.now.room config.now.queues.items) all.items (map (λ worker. worker.linked) opened.0.items)) }
    ensures wired { IfOk result (λ opened. AreWired (length all.items) clocks.items gates.items sinks.items bells.now.names opened.0.items) }
    ensures watchers { IfOk result (λ opened. Together IsWatcherOf opened.0.items opened.1.items) }
{
    let seats = deal(alloc, all, clocks, gates, sinks, locals)?;
    open_seats(alloc, config, seats, bells)
}

/// What a house has before its threads are there: its workers, their bells, the outside actor's ends, and the watcher of each worker.
type Opened<J, C, G, S> = (Vec<Worker<J, C, G, S>>, Bells, Ends<J>, Vec<Watcher>);

/// Opens a house, for which no thread is there yet.
fn open_house<J: Task<Out = u64>, C: Drop, G: Drop, S: Sink>(
    alloc: Global,
    config: &Config,
    clocks: Vec<C>,
    gates: Vec<G>,
    sinks: Vec<S>,
    locals: Vec<J::Local>,
) -> Result<Opened<J, C, G, S>, AllocError>
    requires good { IsGood config.now.cores config.now.cap config.now.burst config.now.room config.now.queues.items (length clocks.items) (length gates.items) }
    requires sinks { length sinks.items ≡ config.now.cores }
    requires locals { length locals.items ≡ config.now.cores }
    requires empty { All (λ sink. S.has sink ≡ []) sinks.items }
    ensures house { IfOk result (λ house. IsHouse config.now.cores config.now.cap config.now.burst config.now.room config.now.queues.items (map (λ worker. worker.linked) house.0.items) house.2) }
    ensures wired { IfOk result (λ house. AreWired config.now.cores clocks.items gates.items sinks.items house.1.names house.0.items) }
    ensures bells { IfOk result (λ house. house.1.rings ≡ replicate (config.now.cores + 1) 0) }
    ensures watchers { IfOk result (λ house. Together IsWatcherOf house.0.items house.3.items) }
{
    let bells = Bells::open(alloc, config.cores)?;
    let Ok(mut all) = open_all::<J>(alloc, config.cores, config.cap) else {
        return Err(AllocError);
    };
    let Some(outside) = all.pop() else {
        unreachable!()
    };
    let (workers, watchers) = open_workers(
        alloc, config, all, &bells, clocks, gates, sinks, locals,
    )?;
    Ok((workers, bells, outside, watchers))
}

/// What the outside actor has at the start: its journal, and no core that it closed.
fn open_outside<J: Task<Out = u64>>(
    alloc: Global,
    config: &Config,
) -> Result<(RecordedDesk<J>, Vec<bool>), AllocError>
    ensures desk { IfOk result (λ outside. outside.0 ≡ opened_desk config.now.cores config.now.cores config.now.cap config.now.room config.now.burst) }
    ensures written { IfOk result (λ outside. IsWritten (terms_of_desk outside.0) outside.0.journal.notes) }
    ensures closing { IfOk result (λ outside. outside.1.items ≡ replicate config.now.cores false) }
{
    let mut desk = RecordedDesk::open_burst(
        alloc,
        ActorNo(config.cores),
        config.cores,
        config.cap,
        config.burst,
        config.room,
    )?;
    desk.prefault();
    // Each submission reads it, so its memory is apart from what the workers write to.
    let mut closing = Vec::with_capacity(alloc, config.cores as usize + 128)?;
    closing.resize(config.cores as usize, false)?;
    Ok((desk, closing))
}

/// Room for what the actors of a house give back: their ends, their notes, their journals, and what their jobs shared.
type Spares<J, S, L> = (Vec<Ends<J>>, Vec<ActorNotes<S>>, Vec<Journal<u64>>, Vec<L>);

/// Takes room for what so many actors give back.
fn open_spares<J: Task<Out = u64>, S: Sink>(
    alloc: Global,
    cores: u8,
) -> Result<Spares<J, S, J::Local>, AllocError>
    ensures ends { IfOk result (λ spares. (spares.0.items ≡ []) × (cores + 1 ≤ vec_capacity spares.0)) }
    ensures actors { IfOk result (λ spares. (spares.1.items ≡ []) × (cores + 1 ≤ vec_capacity spares.1)) }
    ensures journals { IfOk result (λ spares. (spares.2.items ≡ []) × (cores + 1 ≤ vec_capacity spares.2)) }
    ensures locals { IfOk result (λ spares. (spares.3.items ≡ []) × (cores + 1 ≤ vec_capacity spares.3)) }
{
    let actors = cores as usize + 1;
    let ends = Vec::with_capacity(alloc, actors)?;
    let notes = Vec::with_capacity(alloc, actors)?;
    let journals = Vec::with_capacity(alloc, actors)?;
    let locals = Vec::with_capacity(alloc, actors)?;
    Ok((ends, notes, journals, locals))
}

/// A house whose threads have begun, and for proofs alone the workers that the threads were given.
type Begun<J, C, G, S> = (Runtime<J, C, G, S>, Snapshot<Vec<Worker<J, C, G, S>>>);

impl<J: Task<Out = u64>, C: Drop, G: Drop, S: Sink> Runtime<J, C, G, S> {
    /// Starts the threads of a house. The worker of each core has the clock, the gate, the sink and the shared state of its number.
    fn begin_given<R>(
        rt: R,
        alloc: Global,
        config: &Config,
        clocks: Vec<C>,
        gates: Vec<G>,
        sinks: Vec<S>,
        locals: Vec<J::Local>,
    ) -> Result<Begun<J, C, G, S>, StartError>
    where
        J: Job + Send + 'static,
        J::Local: Send + 'static,
        C: Clock + Send + 'static,
        G: Gate + Send + 'static,
        S: Send + 'static,
        R: Threads + Wait + Copy + Drop + Send + 'static,
        requires good { IsGood config.now.cores config.now.cap config.now.burst config.now.room config.now.queues.items (length clocks.items) (length gates.items) }
        requires sinks { length sinks.items ≡ config.now.cores + 1 }
        requires locals { length locals.items ≡ config.now.cores }
        requires empty { All (λ sink. S.has sink ≡ []) sinks.items }
        ensures begins { Begins config.now.cores config.now.cap config.now.burst config.now.room config.now.queues.items (without_locals result) }
        ensures dealt { IfOk result (λ begun. HasSinks S.asks S.mark sinks.items begun.0) }
        ensures given { IfOk result (λ begun. AreGiven begun.0 clocks.items gates.items sinks.items begun.1.value.items) }
    {
        let mut sinks = sinks;
        let Some(sink) = sinks.pop() else {
            unreachable!()
        };
        let Ok((workers, bells, ends, watchers)) = open_house(
            alloc, config, clocks, gates, sinks, locals,
        ) else {
            return Err(StartError::Memory);
        };
        let Ok((desk, closing)) = open_outside(alloc, config) else {
            return Err(StartError::Memory);
        };
        let Ok((spare_ends, spare_actors, spare_journals, spare_locals)) = open_spares(
            alloc,
            config.cores,
        ) else {
            return Err(StartError::Memory);
        };
        let outside = OutsideSeat::of(desk, ends);
        let given = Snapshot::of(&workers);
        match Team::start(rt, alloc, workers) {
            Ok(team) => {
                let crew = Crew {
                    team,
                    ends: spare_ends,
                    actors: spare_actors,
                    journals: spare_journals,
                    locals: spare_locals,
                };
                let caller = Caller::of(
                    config.cores,
                    config.cap,
                    config.room,
                    outside,
                    sink,
                    bells,
                    closing,
                    watchers,
                    crew,
                );
                Ok((Runtime { caller }, given))
            }
            Err(NotStarted::Memory(_)) => Err(StartError::Memory),
            Err(NotStarted::Thread(_)) => Err(StartError::Thread),
        }
    }

    /// The same, without what it tells for proofs alone.
    pub(crate) fn begin<R>(
        rt: R,
        alloc: Global,
        config: &Config,
        clocks: Vec<C>,
        gates: Vec<G>,
        sinks: Vec<S>,
        locals: Vec<J::Local>,
    ) -> Result<Self, StartError>
    where
        J: Job + Send + 'static,
        J::Local: Send + 'static,
        C: Clock + Send + 'static,
        G: Gate + Send + 'static,
        S: Send + 'static,
        R: Threads + Wait + Copy + Drop + Send + 'static,
        requires good { IsGood config.now.cores config.now.cap config.now.burst config.now.room config.now.queues.items (length clocks.items) (length gates.items) }
        requires sinks { length sinks.items ≡ config.now.cores + 1 }
        requires locals { length locals.items ≡ config.now.cores }
        requires empty { All (λ sink. S.has sink ≡ []) sinks.items }
        ensures begins { Begins config.now.cores config.now.cap config.now.burst config.now.room config.now.queues.items result }
        ensures dealt { IfOk result (HasSinks S.asks S.mark sinks.items) }
    {
        match Self::begin_given(rt, alloc, config, clocks, gates, sinks, locals) {
            Ok((runtime, _given)) => Ok(runtime),
            Err(error) => Err(error),
        }
    }
}
