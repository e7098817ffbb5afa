//! How a worker is opened over the ends of its actor.

ghost use Rattle.std.specs.Prelude.{◌≡◌, ◌+◌, ◌<◌, ◌^◌, ◌≤◌, [], ◌∷◌, IfOk, OnOk, false, length};
ghost use Rattle.base_words.specs.declared.note.Note.TheVariants.{Created};
ghost use Rattle.base_words.specs.Commands.{IsOpening, created_count};
ghost use Rattle.run_config.specs.Configs.{least_room, queues_of};
ghost use Rattle.actor_core.specs.Recorded.{IsRecorded};
ghost use Rattle.actor_core.specs.Steps.{opened_beside};
ghost use Rattle.actor_seat.specs.Opening.{AreEndsOf, CreatesSince, IsOpenedOver};
ghost use Rattle.run_worker.specs.Queues.{behind_entries, creations};
ghost use Rattle.run_worker.specs.Workers.{HasNotBegun};

use crate::served::Served;
use crate::showing::PLACES;
use crate::worker::Worker;
use actor_core::Recorded;
use actor_seat::Bells;
use base_jobs::Task;
use base_words::{ActorNo, CoreNo, Shares};
use core_timers::Timers;
use link_ring::Ends;
use note_journal::Sink;
use run_config::Config;
use run_watch::{Terms, Watcher};
use std::alloc::{AllocError, Global};

/// How many jobs may be inside a core: each place of each link to it may hold one.
fn places_of(config: &Config) -> usize
    ensures { result < 2 ^ 31 }
{
    (config.cores as usize + 1) * config.cap as usize
}

/// Makes the next queue, before anything else is done.
fn create_one<J: Task<Out = u64>>(
    recorded: &mut Recorded<J>,
    shares: Shares,
) -> Result<(), AllocError>
    requires opening { IsOpening recorded.old.journal.notes }
    requires room { length recorded.old.journal.notes < recorded.old.journal.room }
    ensures since { OnOk result (CreatesSince J.meaning 1 recorded.old recorded.new) }
    ensures noted { OnOk result (recorded.new.journal.notes ≡ Created (created_count recorded.old.journal.notes + 1) shares ∷ recorded.old.journal.notes) }
{
    match recorded.create(shares) {
        Ok(_) => Ok(()),
        Err(_) => Err(AllocError),
    }
}

/// Makes the queues that are named for this core, in their order.
fn create_all<J: Task<Out = u64>>(
    recorded: &mut Recorded<J>,
    core: u8,
    queues: &[(CoreNo, Shares)],
) -> Result<(), AllocError>
    requires opening { IsOpening recorded.old.journal.notes }
    requires sound { IsRecorded J.meaning recorded.old }
    requires room { length recorded.old.journal.notes + queues_of core queues.now ≤ recorded.old.journal.room }
    ensures since { OnOk result (CreatesSince J.meaning (queues_of core queues.now) recorded.old recorded.new) }
    ensures noted { OnOk result (recorded.new.journal.notes ≡ behind_entries core queues.now recorded.old.journal.notes) }
{
    for index in 0..queues.len() {
        let (of, shares) = queues[index];
        if of.0 == core {
            create_one(recorded, shares)?;
        }
    }
    Ok(())
}

/// Opens a core with its queues.
fn open_core<J: Task<Out = u64>>(
    alloc: Global,
    core: u8,
    cores: u8,
    cap: u16,
    burst: u8,
    room: u32,
    queues: &[(CoreNo, Shares)],
) -> Result<Recorded<J>, AllocError>
    requires known { core < cores }
    requires room { queues_of core queues.now ≤ room }
    ensures since { IfOk result (λ recorded. CreatesSince J.meaning (queues_of core queues.now) (opened_beside core cores cap room burst) recorded) }
    ensures noted { IfOk result (λ recorded. recorded.journal.notes ≡ creations core queues.now) }
{
    let mut recorded = Recorded::open_burst(alloc, alloc, CoreNo(core), cores, cap, burst, room)?;
    create_all(&mut recorded, core, queues)?;
    Ok(recorded)
}

/// A core that was just opened, over its ends.
fn serve_core<J: Task<Out = u64>>(
    alloc: Global,
    config: &Config,
    ends: Ends<J>,
) -> Result<Served<J>, AllocError>
    requires ends { AreEndsOf config.now.cores config.now.cap ends }
    requires room { least_room config.now.cores config.now.cap config.now.burst + queues_of ends.number config.now.queues.items ≤ config.now.room }
    ensures over { IfOk result (λ served. IsOpenedOver config.now.cores config.now.cap config.now.burst config.now.room ends served.linked) }
    ensures ending { IfOk result (λ served. served.ending ≡ false) }
    ensures queues { IfOk result (λ served. served.linked.recorded.journal.notes ≡ creations ends.number config.now.queues.items) }
{
    let number = ends.number;
    let recorded = open_core(
        alloc,
        number.0,
        config.cores,
        config.cap,
        config.burst,
        config.room,
        &config.queues,
    )?;
    Ok(Served::of(config.cores, recorded, ends))
}

impl<J: Task<Out = u64>, C: Drop, G: Drop, S: Sink> Worker<J, C, G, S> {
    /// Opens the worker of the core that has these ends, with the queues that the configuration names for it. It rings these bells, and parks
    /// on that of its core. It passes on its notes to this sink, which has none yet. Its jobs share this state. The watcher is of the board on
    /// which it publishes its numbers, and tells those of no note.
    ///
    /// # Errors
    ///
    /// If there is no memory.
    pub fn open(
        alloc: Global,
        config: &Config,
        ends: Ends<J>,
        clock: C,
        gate: G,
        bells: &Bells,
        sink: S,
        local: J::Local,
    ) -> Result<(Self, Watcher), AllocError>
        requires ends { AreEndsOf config.now.cores config.now.cap ends }
        requires room { least_room config.now.cores config.now.cap config.now.burst + queues_of ends.number config.now.queues.items ≤ config.now.room }
        requires bells { length bells.now.rings ≡ config.now.cores + 1 }
        requires none { S.has sink ≡ [] }
        ensures over { IfOk result (λ opened. IsOpenedOver config.now.cores config.now.cap config.now.burst config.now.room ends opened.0.linked) }
        ensures clock { IfOk result (λ opened. opened.0.clock ≡ clock) }
        ensures gate { IfOk result (λ opened. opened.0.gate ≡ gate) }
        ensures sink { IfOk result (λ opened. opened.0.sink ≡ sink) }
        ensures bells { IfOk result (λ opened. opened.0.bells ≡ bells.now.names) }
        ensures begins { IfOk result (λ opened. HasNotBegun opened.0 × (opened.0.tries ≡ 1024)) }
        ensures queues { IfOk result (λ opened. opened.0.linked.recorded.journal.notes ≡ creations ends.number config.now.queues.items) }
        ensures shown { IfOk result (λ opened. (opened.0.shown.notes ≡ []) × (opened.0.shown.count ≡ 0) × (opened.0.since ≡ 0)) }
        ensures watches { IfOk result (λ opened. opened.1 ≡ record { board = opened.0.shown.board; terms = opened.0.shown.terms; notes = []; count = 0; closed = false }) }
    {
        let number = ends.number;
        let own = bells.own(ActorNo(number.0))?;
        let all = bells.again(alloc)?;
        let terms = Terms {
            cores: config.cores,
            burst: config.burst,
            places: PLACES,
        };
        let (publisher, watcher) = run_watch::open(alloc, terms)?;
        let timers = Timers::open(alloc, places_of(config))?;
        // The core is opened last: so nothing that drops it stands behind it.
        let served = serve_core(alloc, config, ends)?;
        let worker = Worker::of(
            served, timers, clock, gate, own, all, sink, local, publisher,
        );
        Ok((worker, watcher))
    }
}
