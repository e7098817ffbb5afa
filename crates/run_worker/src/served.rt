//! A linked core that keeps room for its end: each of its steps is one of a worker's round.
//!
//! Its ends are one side of each link. The other side belongs to another thread, and no step waits for it. All else here is the worker's own.
//!
//! - A step that may write looks at the room first (`look`). If the journal is short, the core closes in mode `Return`, and each gate is shut
//!   at once. `ending` says so, and is never unset.
//! - At its end it only delivers and hands back, two notes a step: nothing is polled or collected, and no notes are passed on.
//! - `alone` says that the close was the worker's own. It is published, and no step asks for it.

ghost use Rattle.std.specs.Prelude.{◌≡◌, ◌+◌, ◌*◌, ◌<◌, ◌≤◌, ◌↔◌, IsSome, IsTrue, drop, false, if◌then◌else◌, is_some, length, reverse, true};
ghost use Rattle.base_words.specs.Closing.{IsDrained, core_mode};
ghost use Rattle.actor_core.specs.Recorded.{IsRecorded};
ghost use Rattle.run_worker.specs.Asks.{NotesNoPoll};
ghost use Rattle.run_worker.specs.Ended.{IsServed};
ghost use Rattle.run_worker.specs.Few.{got_most, taken_most, turn_most};
ghost use Rattle.actor_seat.specs.Bells.{rung_for};
ghost use Rattle.actor_seat.specs.Linked.{IsBetweenTurns, IsLinked, StaysLinked};
ghost use Rattle.run_worker.specs.Gates.{KeepsTaken};
ghost use Rattle.run_worker.specs.Rooms.{ActsByCommand, HasSpare, IsReady, IsShort};
ghost use Rattle.run_worker.specs.Rounds.{AreRung, CollectsFirst, CollectsNext, HasShutGates, HearsAll, HearsFirst, HearsOne, HearsSome, LooksAtRoom, ShutsClosed, StepsServed, is_turn};
ghost use Rattle.actor_seat.specs.Steps.{HasNoTurn};
ghost use Rattle.run_worker.specs.Turns.{TakesTurn};

use crate::gates::{end, least_of, shut_gates};
use actor_core::{Recorded, Turned};
use actor_seat::{Bells, Seat};
use base_jobs::{CoreState, Job, Task};
use base_words::{ActorNo, CoreNo};
use core_core::{Ahead, PickError};
use core_queues::Meter;
use link_ring::Ends;
use note_journal::RunningJournal;
use run_config::Gate;
use std::marker::Model;

/// Whether there was work for a turn.
fn is_work(made: Turned) -> bool
    ensures { result ≡ is_turn made }
{
    match made {
        Turned::Polled | Turned::Returned => true,
        Turned::Idle | Turned::Spent => false,
    }
}

/// Wakes the workers that have something from the notes behind the first `count` that are kept.
#[inline(always)]
pub(crate) fn ring_since(bells: &mut Bells, journal: &RunningJournal<u64>, count: usize)
    requires { length journal.now.passed + count ≤ length journal.now.notes }
    ensures { bells.new ≡ record bells.old { rings = rung_for (drop (length journal.now.passed + count) (reverse journal.now.notes)) bells.old.rings } }
{
    bells.ring_for(journal.since(count));
}

/// A linked core, and whether its worker is at its end: then each gate is shut, and nothing is polled any more. No job of it is out, and no
/// turn is open.
#[derive(Drop)]
pub struct Served<J: Task<Out = u64>> {
    pub(crate) seat: Seat<J>,
    /// How many cores its house has.
    cores: u8,
    /// With how few free notes its journal is short.
    pub(crate) least: u32,
    pub(crate) ending: bool,
    /// The core closed by itself.
    pub(crate) alone: bool,
}

impl<J: Task<Out = u64>> Model for Served<J> {
    ghost use Rattle.std.specs.Prelude.{ℕ};
    ghost use Rattle.run_worker.specs.Ended.{ServedView};

    ghost Value = { ServedView J ℕ };

    ghost use Rattle.run_worker.specs.Ended.{IsServed, KnowsSeat};

    ghost view = { λ s. record { linked = s.seat; ending = s.ending } };

    ghost invariant = { λ s. IsServed J.meaning (record { linked = s.seat; ending = s.ending }) × KnowsSeat s.cores s.least s.alone s.seat };
}

impl<J: Task<Out = u64>> Served<J> {
    /// A core at its ends that has room for its end, in a house of so many cores. It never closed by itself.
    pub(crate) fn of(cores: u8, recorded: Recorded<J>, ends: Ends<J>) -> Self
        requires linked { IsLinked J.meaning (record { recorded = recorded; ends = ends }) }
        requires between { IsBetweenTurns recorded }
        requires cores { cores ≡ recorded.core.cores }
        requires spare { HasSpare recorded }
        requires acts { ActsByCommand recorded.journal.notes }
        ensures { result ≡ record { linked = record { recorded = recorded; ends = ends }; ending = false } }
    {
        let least = least_of(cores, recorded.cap(), recorded.burst());
        let seat = Seat::of(recorded, ends);
        Served {
            seat,
            cores,
            least,
            ending: false,
            alone: false,
        }
    }

    /// Whether the core is closed, in either mode.
    pub(crate) fn is_closed(&self) -> bool
        ensures { result ≡ is_some (core_mode self.now.linked.recorded.journal.notes) }
    {
        self.recorded().is_closed()
    }

    /// Whether every gate is shut, all behind it was delivered, no queue has work, and no job is parked.
    pub(crate) fn is_drained(&self) -> bool
        ensures { IsTrue result ↔ IsDrained self.now.linked.recorded.core.cores self.now.linked.recorded.journal.notes }
    {
        self.recorded().is_drained()
    }

    /// Writes to the memory of all notes that there may be, and makes what is still to be made of what the jobs of the core share. Nothing is noted.
    pub(crate) fn begin(&mut self, local: &mut J::Local)
        ensures { self.new ≡ self.old }
    {
        self.seat.prefault();
        local.begin(CoreNo(self.seat.actor().0));
    }

    /// Whether the worker is at its end.
    pub(crate) fn is_ending(&self) -> bool
        ensures { result ≡ self.now.ending }
    {
        self.ending
    }

    /// The core at its seat.
    pub(crate) fn into_seat(self) -> Seat<J>
        ensures same { result ≡ self.linked }
        ensures sound { IsServed J.meaning self }
    {
        let Served { seat, .. } = self;
        seat
    }

    /// Whether fewer notes are free than a worker keeps for its end.
    fn is_short(&self) -> bool
        ensures { IsTrue result ↔ IsShort self.now.linked.recorded }
    {
        self.recorded().journal().free() < self.least
    }

    /// Looks at the room before a step: a journal that is short is at its end.
    pub(crate) fn look(&mut self)
        ensures stays { StaysLinked self.old.linked self.new.linked }
        ensures looks { LooksAtRoom self.old self.new }
        ensures ready { IsReady self.new.ending self.new.linked.recorded }
        ensures polls { NotesNoPoll self.old.linked.recorded.journal.notes self.new.linked.recorded.journal.notes }
    {
        if !self.ending && self.is_short() {
            self.alone = end(&mut self.seat, self.cores);
            self.ending = true;
        }
    }

    /// Delivers the next order of this sender, if one shows. Whether there was one.
    fn deliver_one(&mut self, sender: ActorNo) -> bool
        requires { sender ≤ self.old.linked.recorded.core.cores }
        ensures steps { StepsServed 2 self.old result self.new }
        ensures hears { self.new.ending ≡ self.old.ending → HearsOne sender self.old.linked result self.new.linked }
        ensures polls { NotesNoPoll self.old.linked.recorded.journal.notes self.new.linked.recorded.journal.notes }
    {
        self.look();
        self.seat.deliver(sender)
    }

    /// Delivers at most as many orders of this sender as its link holds. Whether there was one.
    fn deliver_some(&mut self, sender: ActorNo) -> bool
        requires { sender ≤ self.old.linked.recorded.core.cores }
        ensures steps { StepsServed (2 * self.old.linked.recorded.cap) self.old result self.new }
        ensures hears { HearsSome sender self.old self.new }
        ensures polls { NotesNoPoll self.old.linked.recorded.journal.notes self.new.linked.recorded.journal.notes }
    {
        let cap = self.recorded().cap();
        for count in 0..cap {
            if !self.deliver_one(sender) {
                return count > 0;
            }
        }
        cap > 0
    }

    /// Delivers what shows of each sender. Whether there was anything.
    fn deliver_all(&mut self) -> bool
        ensures steps { StepsServed ((self.old.linked.recorded.core.cores + 1) * (2 * self.old.linked.recorded.cap)) self.old result self.new }
        ensures hears { HearsFirst (self.old.linked.recorded.core.cores + 1) self.old self.new }
        ensures polls { NotesNoPoll self.old.linked.recorded.journal.notes self.new.linked.recorded.journal.notes }
    {
        let mut some = false;
        for sender in 0..self.cores as usize + 1 {
            if self.deliver_some(ActorNo(sender as u8)) {
                some = true;
            }
        }
        some
    }

    /// Collects what the link to this core shows. Whether there was anything. A worker at its end leaves it.
    fn collect_one(&mut self, core: CoreNo) -> bool
        requires { core < self.old.linked.recorded.core.cores }
        ensures steps { StepsServed self.old.linked.recorded.cap self.old result self.new }
        ensures collects { CollectsNext core self.old self.new }
        ensures polls { NotesNoPoll self.old.linked.recorded.journal.notes self.new.linked.recorded.journal.notes }
    {
        self.look();
        if self.ending {
            return false;
        }
        self.seat.collect_from(core) > 0
    }

    /// Collects what the links to all cores show. Whether there was anything.
    fn collect_all(&mut self) -> bool
        ensures steps { StepsServed (got_most self.old) self.old result self.new }
        ensures collects { CollectsFirst self.old.linked.recorded.core.cores self.new }
        ensures polls { NotesNoPoll self.old.linked.recorded.journal.notes self.new.linked.recorded.journal.notes }
    {
        let mut some = false;
        for core in 0..self.cores {
            if self.collect_one(CoreNo(core)) {
                some = true;
            }
        }
        some
    }

    /// The sender whose gate a closed core spares: itself, as long as a job sleeps, and otherwise none.
    pub(crate) fn spared(&self, sleeps: bool) -> usize
        ensures { result ≡ (if sleeps then self.now.linked.recorded.core.core else self.now.linked.recorded.core.cores + 1) }
    {
        if sleeps {
            self.seat.actor().0 as usize
        } else {
            self.cores as usize + 1
        }
    }

    /// Whether a turn would poll a job or hand one back.
    fn has_turn(&self) -> bool
        ensures none { result ≡ false → HasNoTurn self.now.linked.recorded.journal.notes }
        ensures rightly { result ≡ true → HasNoTurn self.now.linked.recorded.journal.notes → ⊥ }
    {
        match self.seat.ahead() {
            Ok(Ahead::Job(_)) => true,
            Ok(Ahead::Back) => true,
            Ok(Ahead::Idle) => false,
            Err(PickError::Spent) => false,
            Err(PickError::Busy) => unreachable!(),
        }
    }

    /// Whether no turn is to be made and no link shows anything, behind a round in which nothing was done.
    pub(crate) fn has_nothing(&self, was_idle: bool) -> bool
        ensures idle { result ≡ true → was_idle ≡ true }
        ensures no_turn { result ≡ true → HasNoTurn self.now.linked.recorded.journal.notes }
    {
        if !was_idle {
            return false;
        }
        if self.has_turn() {
            return false;
        }
        !self.seat.shows()
    }

    /// The core beside its journal.
    pub(crate) fn recorded(&self) -> &Recorded<J>
        ensures recorded { result.now ≡ self.now.linked.recorded }
        ensures sound { IsRecorded J.meaning result.now }
    {
        self.seat.recorded()
    }

    /// The notes of this worker.
    pub(crate) fn journal(&self) -> &RunningJournal<u64>
        ensures journal { result.now ≡ self.now.linked.recorded.journal }
        ensures sound { IsServed J.meaning self.now }
    {
        self.seat.recorded().journal()
    }

    /// Shuts the open gates of a core that was closed, except that of the sender that is spared. Whether there was one. In an open core
    /// nothing is done.
    fn close_gates(&mut self, spared: usize) -> bool
        ensures steps { StepsServed (self.old.linked.recorded.core.cores + 1) self.old result self.new }
        ensures shuts { HasShutGates spared self.new.linked }
        ensures taken { self.new.ending ≡ self.old.ending → KeepsTaken self.old.linked self.new.linked }
        ensures polls { NotesNoPoll self.old.linked.recorded.journal.notes self.new.linked.recorded.journal.notes }
    {
        let closed = self.is_closed();
        if !closed {
            return false;
        }
        self.shut_if_closed(spared)
    }

    /// The same, once the room was looked at. It stands apart, so that a round of an open core stays short.
    #[cold]
    #[inline(never)]
    fn shut_if_closed(&mut self, spared: usize) -> bool
        requires closed { IsSome (core_mode self.old.linked.recorded.journal.notes) }
        ensures steps { StepsServed (self.old.linked.recorded.core.cores + 1) self.old result self.new }
        ensures shuts { HasShutGates spared self.new.linked }
        ensures taken { self.new.ending ≡ self.old.ending → KeepsTaken self.old.linked self.new.linked }
        ensures polls { NotesNoPoll self.old.linked.recorded.journal.notes self.new.linked.recorded.journal.notes }
    {
        self.look();
        // At its end each gate is shut already.
        if self.ending {
            return false;
        }
        shut_gates(&mut self.seat, self.cores, spared)
    }

    /// Shuts the gates of a closed core, except that of the sender that is spared, and delivers what shows. Whether anything was done.
    pub(crate) fn take_in(&mut self, bells: &mut Bells, spared: usize) -> bool
        requires rung { AreRung self.old bells.old }
        ensures steps { StepsServed (taken_most self.old) self.old result self.new }
        ensures shuts { ShutsClosed spared self.old.linked self.new.linked }
        ensures hears { HearsAll (self.old.linked.recorded.core.cores + 1) self.old self.new }
        ensures sound { IsServed J.meaning self.new }
        ensures polls { NotesNoPoll self.old.linked.recorded.journal.notes self.new.linked.recorded.journal.notes }
        ensures rung { AreRung self.new bells.new }
        ensures names { bells.new.names ≡ bells.old.names }
    {
        let before = self.journal().kept_count();
        let shut = self.close_gates(spared);
        let delivered = self.deliver_all();
        ring_since(bells, self.journal(), before);
        shut | delivered
    }

    /// Collects what came back. Whether anything was done.
    pub(crate) fn gather(&mut self, bells: &mut Bells) -> bool
        requires rung { AreRung self.old bells.old }
        ensures steps { StepsServed (got_most self.old) self.old result self.new }
        ensures collects { CollectsFirst self.old.linked.recorded.core.cores self.new }
        ensures polls { NotesNoPoll self.old.linked.recorded.journal.notes self.new.linked.recorded.journal.notes }
        ensures rung { AreRung self.new bells.new }
        ensures names { bells.new.names ≡ bells.old.names }
    {
        let before = self.journal().kept_count();
        let collected = self.collect_all();
        ring_since(bells, self.journal(), before);
        collected
    }
}

impl<J: Job + Task<Out = u64>> Served<J> {
    /// Makes one turn. Whether there was work. A job that is polled may submit, redeem and detach as this core, and is lent what the jobs of the
    /// core share. The gate is asked just before each poll, and the meter is told that the poll begins, and asked how long it took. Nobody is
    /// rung yet.
    pub(crate) fn take_turn<M: Meter, G: Gate>(
        &mut self,
        local: &mut J::Local,
        meter: &mut M,
        gate: &mut G,
    ) -> bool
        ensures steps { StepsServed (turn_most self.old) self.old result self.new }
        ensures takes { TakesTurn J.meaning M.Tells G.Asked meter.old meter.new gate.old gate.new self.old result self.new }
    {
        self.look();
        let made = self.seat.turn(local, meter, gate);
        is_work(made)
    }
}
