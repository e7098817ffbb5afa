//! What a worker does round by round. Each step rings the bells of those who have something from its notes.
//!
//! All fields are the worker's own. Only its rings reach another thread: each step counts the kept notes, does its work, and rings for the
//! notes behind that count. So an outcome lies in its link before its sender is woken.
//!
//! - `served` stands between two steps: no job is out, and no turn is open.
//! - `watch` and `gate` are lent to a turn alone. A look that made no turn makes the watch forget its reading.
//! - `timers` has each job that sleeps. A turn's notes say who does from now on and who doesn't. A look wakes first those that are due.
//! - A look sets `turns`, and each turn alone takes one of them. At 0 the next round looks.
//! - A look goes in the order of `look_again`: wakes, gates, deliveries, a turn, outcomes. So a job that is due is woken and delivered at once.

ghost use Rattle.std.specs.Prelude.{◌≡◌, None, true, unwrap_or};
ghost use Rattle.actor_seat.specs.Steps.{HasNoTurn};
ghost use Rattle.run_worker.specs.Few.{turn_most};
ghost use Rattle.run_worker.specs.Looks.{MakesRound, TurnsAlone, leaves_turns, turns_after};
ghost use Rattle.run_worker.specs.Views.{FindsNoneDue, Peeks, WakesDue, round_view};
ghost use Rattle.run_worker.specs.Readings.{TimesNext, watch_view};
ghost use Rattle.run_worker.specs.Rounds.{AreRung, StepsServed};
ghost use Rattle.run_worker.specs.Timing.{HearsTurn};
ghost use Rattle.run_worker.specs.Turns.{TakesTurn};

use crate::served::Served;
use crate::sleeping::{hear, nobody_hears};
use crate::stopwatch::Stopwatch;
use actor_seat::{Bells, LastLook};
use base_jobs::{Job, Task};
use core_timers::Timers;
use run_config::{Clock, Gate};
use std::alloc::Global;

/// How many turns a worker makes at most before it looks at its links again.
const MOST_TURNS: u32 = 24;

/// It looks again at once after polls that took so many nanoseconds together.
const MOST_TIME: u64 = 2_000;

/// How many turns may be made without another look behind one: some if there was work, and its core is open, or nothing came.
fn turns_left(worked: bool, came: bool, closed: bool) -> u32
    ensures { result ≡ turns_after (leaves_turns worked came closed) }
{
    if worked && !(came && closed) {
        MOST_TURNS
    } else {
        0
    }
}

/// A core beside its journal, over its actor's ends of the links, with a clock and a gate of its own, and the bells of all cores.
#[derive(Drop)]
pub(crate) struct Rounds<J: Task<Out = u64>, C: Drop, G: Drop> {
    pub(crate) served: Served<J>,
    /// When the jobs that sleep are woken.
    pub(crate) timers: Timers<Global>,
    watch: Stopwatch<C>,
    gate: G,
    bells: Bells,
    /// How many turns may be made before the next look at the links.
    turns: u32,
    /// How many looks at the links were made.
    pub(crate) looks: u64,
    /// What the clock told at the last look at the timers.
    read: u64,
}

impl<J: Task<Out = u64>, C: Drop, G: Drop> Rounds<J, C, G> {
    /// Before the first round.
    pub(crate) fn of(
        served: Served<J>,
        timers: Timers<Global>,
        clock: C,
        gate: G,
        bells: Bells,
    ) -> Self
        ensures served { result.served ≡ served }
        ensures timers { result.timers ≡ timers }
        ensures watch { result.watch ≡ watch_view clock None 0 }
        ensures gate { result.gate ≡ gate }
        ensures bells { result.bells ≡ bells }
        ensures turns { result.turns ≡ 0 }
    {
        Rounds {
            served,
            timers,
            watch: Stopwatch::new(clock),
            gate,
            bells,
            turns: 0,
            looks: 0,
            read: 0,
        }
    }
}

impl<J: Job + Task<Out = u64>, C: Clock + Drop, G: Gate + Drop> Rounds<J, C, G> {
    /// Makes one turn, rings for its notes, and sets the timers of the jobs that sleep behind it. Whether there was work.
    #[inline(always)]
    fn take_turn(&mut self, local: &mut J::Local) -> bool
        requires rung { AreRung self.old.served self.old.bells }
        ensures steps { StepsServed (turn_most self.old.served) self.old.served result self.new.served }
        ensures takes { TakesTurn J.meaning (TimesNext C.Reads) G.Asked self.old.watch self.new.watch self.old.gate self.new.gate self.old.served result self.new.served }
        ensures sets { HearsTurn J.sleeps (unwrap_or self.new.watch.last 0) self.old.served.linked.recorded self.new.served.linked.recorded self.old.timers self.new.timers }
        ensures rung { AreRung self.new.served self.new.bells }
        ensures names { self.new.bells.names ≡ self.old.bells.names }
        ensures turns { self.new.turns ≡ self.old.turns }
        ensures looks { self.new.looks ≡ self.old.looks }
    {
        let before = self.served.journal().kept_count();
        let turned = self
            .served
            .take_turn(local, &mut self.watch, &mut self.gate);
        let recorded = self.served.recorded();
        let notes = recorded.journal().since(before);
        if nobody_hears(&self.timers, notes) {
            return turned;
        }
        let (timers, bells) = (&mut self.timers, &mut self.bells);
        hear(recorded.core(), timers, bells, self.watch.last(), notes);
        turned
    }

    /// Wakes the jobs that slept long enough. Whether a wake was sent. The clock is read if a job sleeps.
    fn wake_due(&mut self) -> bool
        requires rung { AreRung self.old.served self.old.bells }
        ensures wakes { WakesDue C.Reads (round_view self.old.served self.old.timers self.old.watch self.old.gate self.old.turns) result (round_view self.new.served self.new.timers self.new.watch self.new.gate self.new.turns) }
        ensures rung { AreRung self.new.served self.new.bells }
        ensures names { self.new.bells.names ≡ self.old.bells.names }
        ensures looks { self.new.looks ≡ self.old.looks }
    {
        if self.timers.is_empty() {
            return false;
        }
        let now = self.watch.read();
        self.read = now;
        self.served.wake_due(&mut self.timers, now, &mut self.bells)
    }

    /// Makes a turn without a look at the links, if one is left and polls took little time since the last look. Whether there was work.
    fn turn_alone(&mut self, local: &mut J::Local) -> bool
        requires rung { AreRung self.old.served self.old.bells }
        ensures alone { TurnsAlone J.meaning J.sleeps C.Reads G.Asked (round_view self.old.served self.old.timers self.old.watch self.old.gate self.old.turns) result (round_view self.new.served self.new.timers self.new.watch self.new.gate self.new.turns) }
        ensures rung { AreRung self.new.served self.new.bells }
        ensures names { self.new.bells.names ≡ self.old.bells.names }
    {
        if self.turns == 0 {
            return false;
        }
        if self.watch.taken() >= MOST_TIME {
            return false;
        }
        self.turns -= 1;
        self.take_turn(local)
    }

    /// Whether no turn is to be made, no link shows anything and no timer is due, behind a round in which nothing was done. The clock is
    /// read if a job sleeps.
    #[inline(never)]
    fn has_nothing(&mut self, was_idle: bool) -> bool
        requires rung { AreRung self.old.served self.old.bells }
        ensures peeks { Peeks C.Reads (round_view self.old.served self.old.timers self.old.watch self.old.gate self.old.turns) (round_view self.new.served self.new.timers self.new.watch self.new.gate self.new.turns) }
        ensures idle { result ≡ true → was_idle ≡ true }
        ensures none_due { result ≡ true → FindsNoneDue C.Reads (round_view self.old.served self.old.timers self.old.watch self.old.gate self.old.turns) (round_view self.new.served self.new.timers self.new.watch self.new.gate self.new.turns) }
        ensures no_turn { result ≡ true → HasNoTurn self.new.served.linked.recorded.journal.notes }
        ensures rung { AreRung self.new.served self.new.bells }
        ensures names { self.new.bells.names ≡ self.old.bells.names }
    {
        if !self.served.has_nothing(was_idle) {
            return false;
        }
        match self.timers.next() {
            Some(time) => self.watch.read() < time,
            None => true,
        }
    }

    /// One round: a turn alone if one is left and there is work, else a look at all links and a turn. Whether anything was done. After a
    /// round in which nothing was done there is something to do only where a link shows it.
    #[inline(always)]
    pub(crate) fn round(&mut self, was_idle: bool, local: &mut J::Local) -> bool
        requires rung { AreRung self.old.served self.old.bells }
        ensures makes { MakesRound J.meaning J.sleeps C.Reads G.Asked was_idle (round_view self.old.served self.old.timers self.old.watch self.old.gate self.old.turns) result (round_view self.new.served self.new.timers self.new.watch self.new.gate self.new.turns) }
        ensures rung { AreRung self.new.served self.new.bells }
        ensures names { self.new.bells.names ≡ self.old.bells.names }
    {
        if self.turn_alone(local) {
            return true;
        }
        if self.has_nothing(was_idle) {
            return false;
        }
        self.look_again(local)
    }
}

/// A look at all links, and one turn. A worker makes one where no turn is left, and another one before it parks.
impl<J: Job + Task<Out = u64>, C: Clock + Drop, G: Gate + Drop> LastLook for Rounds<J, C, G> {
    type Local = J::Local;

    ghost use Rattle.run_worker.specs.Again.{LooksAgain};
    ghost use Rattle.run_worker.specs.Views.{round_view};
    ghost use Rattle.run_worker.specs.Rounds.{AreRung};

    ghost IsReady = { λ rounds. AreRung rounds.served rounds.bells };

    ghost Looks = { λ old some new. LooksAgain J.meaning J.sleeps C.Reads G.Asked old.looks old.bells (round_view old.served old.timers old.watch old.gate old.turns) some new.looks new.bells (round_view new.served new.timers new.watch new.gate new.turns) };

    #[inline(never)]
    fn look_again(&mut self, local: &mut J::Local) -> bool {
        let woke = self.wake_due();
        let sleeps = !self.timers.is_empty();
        let spared = self.served.spared(sleeps);
        let taken = self.served.take_in(&mut self.bells, spared);
        let turned = self.take_turn(local);
        let collected = self.served.gather(&mut self.bells);
        let came = taken | collected;
        let closed = self.served.is_closed();
        self.turns = turns_left(turned, came, closed);
        self.watch.forget(turned);
        self.looks = self.looks.saturating_add(1);
        woke | (turned | came)
    }

    fn limit(&self) -> Option<u64> {
        // One that was due then, and still is set, waits for a place of the link. Whoever frees one rings.
        match self.timers.next() {
            Some(time) if time > self.read => Some(time - self.read),
            _ => None,
        }
    }
}
