//! A worker: it serves one core until the core is drained.
//!
//! A worker that hasn't begun may go to any thread. From `Work::run` on it is its thread's, which gives back what is left of it.
//!
//! - `own` is its bell: others ring it, and only this worker sleeps on it. A rest looks at `rounds` between lying down and parking.
//! - `publisher` writes the board, which others read at any time. `since` counts the rounds that did something since the last publication.
//! - `sink` is asked between two rounds or before a rest, and once more at the end. A worker at its end doesn't ask it before that.
//! - `local` is ready before the first poll, and is lent to each poll.
//! - `idle` counts idle rounds in a row. A sleep leaves it as it is, so one idle round behind it leads to the next rest.
//!
//! In this order, each time (`serve`): publish if it is time, pass on if the journal is low, one round. If that was idle often enough:
//! publish, pass on, rest.

ghost use Rattle.std.specs.Prelude.{◌≡◌, false, if◌then◌else◌};
ghost use Rattle.base_words.specs.Closing.{IsDrained};
ghost use Rattle.core_timers.specs.Timers.{IsVacant};
ghost use Rattle.run_worker.specs.Asks.{AsksSince};
ghost use Rattle.run_worker.specs.Rounds.{AreRung};
ghost use Rattle.run_worker.specs.Shown.{IsShown, Shows, shown_of};
ghost use Rattle.run_worker.specs.Passing.{HandsOn, HandsOnWhere, IsDue, IsDueAtRest, IsSupplied, PassesTo};
ghost use Rattle.run_worker.specs.Serves.{CountsIdle, GoesOn, Rests, Serves, ServesToItsEnd, ShowsAgain, ShowsEnd, ShowsNow};
ghost use Rattle.run_worker.specs.Workers.{HasNotBegun, IsBellOf, KeepsOn, served_of};

use crate::ended::Ended;
use crate::passing::hand_on;
use crate::rounds::Rounds;
use crate::served::Served;
use crate::showing::SHOWN_EACH;
use actor_seat::{Bells, OwnBell};
use base_jobs::{Job, Task};
use core_timers::Timers;
use note_journal::{Sink, Whole};
use run_config::{Clock, Gate};
use run_team::{Promised, Work};
use run_watch::Publisher;
use std::alloc::Global;
use std::marker::Model;
use std::sync::Wait;

/// How many rounds in which nothing was done a worker makes before it parks.
const TRIES: u32 = 1024;

/// Whether the next round is made at once, and how many rounds in a row nothing was done, behind one more in which something was done or nothing.
fn count_idle(tries: u32, some: bool, idle: u32) -> (bool, u32)
    ensures { CountsIdle tries some idle result.0 result.1 }
{
    if some {
        return (true, 0);
    }
    count_on(tries, idle)
}

/// The same where nothing was done. It stands apart, so that a round in which something was done stays short.
#[inline(never)]
fn count_on(tries: u32, idle: u32) -> (bool, u32)
    ensures { CountsIdle tries false idle result.0 result.1 }
{
    if idle < tries {
        return (true, idle + 1);
    }
    (false, idle)
}

/// How many rounds in a row nothing was done behind a look before a rest: it counts anew where that found something.
fn idle_behind(found: bool, idle: u32) -> u32
    ensures { result ≡ (if found then 0 else idle) }
{
    if found { 0 } else { idle }
}

/// A core beside its journal, over its actor's ends of the links, with a clock and a gate of its own. It rang the bell of each core for each
/// of its notes that is for that core, and it parks on the bell of its own core. It passes on its notes to its sink, between rounds and rests, and publishes its numbers on its board.
///
/// If its core closes by itself, it publishes that at the latest right behind the round or the rest in which the core closed. The gates are shut in
/// that round or rest, so a sender may be refused shortly before the cause is told.
#[derive(Drop)]
pub struct Worker<J: Task<Out = u64>, C: Drop, G: Drop, S: Sink = Whole> {
    own: OwnBell<Rounds<J, C, G>>,
    rounds: Rounds<J, C, G>,
    sink: S,
    /// After how many rounds in which nothing was done it parks.
    tries: u32,
    /// How many rounds in a row nothing was done.
    idle: u32,
    /// What the jobs of the core share. It is ready once the worker runs.
    local: J::Local,
    publisher: Publisher,
    /// How many rounds in which something was done were counted since the last publication.
    since: u32,
}

impl<J: Task<Out = u64>, C: Drop, G: Drop, S: Sink> Model for Worker<J, C, G, S> {
    ghost use Rattle.std.specs.Prelude.{ℕ};
    ghost use Rattle.run_worker.specs.Workers.{WorkerView};

    ghost Value = { WorkerView J ℕ C G S };

    ghost use Rattle.run_worker.specs.Rounds.{AreRung};
    ghost use Rattle.run_worker.specs.Passing.{PassesTo};
    ghost use Rattle.run_worker.specs.Shown.{IsShown, shown_of};
    ghost use Rattle.run_worker.specs.Workers.{IsBellOf};

    ghost view = { λ w.
        record {
          linked = w.rounds.served.linked;
          ending = w.rounds.served.ending;
          timers = w.rounds.timers;
          clock = w.rounds.watch.clock;
          gate = w.rounds.gate;
          last = w.rounds.watch.last;
          taken = w.rounds.watch.taken;
          turns = w.rounds.turns;
          tries = w.tries;
          idle = w.idle;
          bells = w.rounds.bells.names;
          sink = w.sink;
          shown = shown_of w.publisher;
          since = w.since;
        } };

    ghost invariant = { λ w.
        AreRung w.rounds.served w.rounds.bells × IsBellOf w.rounds.served.linked.recorded.core.core w.rounds.bells.names w.own
        × PassesTo S.has S.refused w.rounds.served w.sink × IsShown w.rounds.served.linked.recorded (shown_of w.publisher) };
}

impl<J: Task<Out = u64>, C: Drop, G: Drop, S: Sink> Worker<J, C, G, S> {
    /// A worker that has not begun. It parks on its own bell, rings those of all cores, and passes on its notes to this sink.
    pub(crate) fn of(
        served: Served<J>,
        timers: Timers<Global>,
        clock: C,
        gate: G,
        own: OwnBell<Rounds<J, C, G>>,
        bells: Bells,
        sink: S,
        local: J::Local,
        publisher: Publisher,
    ) -> Self
        requires own { IsBellOf served.linked.recorded.core.core bells.names own }
        requires rung { AreRung served bells }
        requires ending { served.ending ≡ false }
        requires vacant { IsVacant timers }
        requires passes { PassesTo S.has S.refused served sink }
        requires shown { IsShown served.linked.recorded (shown_of publisher) }
        ensures linked { result.linked ≡ served.linked }
        ensures clock { result.clock ≡ clock }
        ensures gate { result.gate ≡ gate }
        ensures sink { result.sink ≡ sink }
        ensures bells { result.bells ≡ bells.names }
        ensures shown { result.shown ≡ shown_of publisher }
        ensures since { result.since ≡ 0 }
        ensures begins { HasNotBegun result }
        ensures tries { result.tries ≡ 1024 }
    {
        Worker {
            own,
            rounds: Rounds::of(served, timers, clock, gate, bells),
            sink,
            tries: TRIES,
            idle: 0,
            local,
            publisher,
            since: 0,
        }
    }

    /// The same worker, which parks after so many rounds in which nothing was done. With 0 it parks after the first.
    pub fn with_tries(self, tries: u32) -> Self
        ensures { result ≡ record self { tries = tries } }
    {
        let mut worker = self;
        worker.tries = tries;
        worker
    }

    /// Hands what is kept to the sink, where the journal is low and the worker isn't at its end.
    fn hand_on_if_low(&mut self)
        ensures hands { HandsOnWhere S.Sink (IsDue (served_of self.old)) self.old self.new }
        ensures supplied { IsSupplied S.has S.refused (served_of self.new) self.new.sink }
    {
        if self.rounds.served.is_due() {
            self.rounds.served.hand_on(&mut self.sink);
        }
    }

    /// Hands what is kept to the sink, unless that is nothing or the worker is at its end.
    fn hand_on_if_kept(&mut self)
        ensures hands { HandsOnWhere S.Sink (IsDueAtRest (served_of self.old)) self.old self.new }
        ensures supplied { IsSupplied S.has S.refused (served_of self.new) self.new.sink }
    {
        if self.rounds.served.is_due_at_rest() {
            self.rounds.served.hand_on(&mut self.sink);
        }
    }

    /// Publishes the numbers of the core and of its queues as they stand, unless they can't be published any more. The rounds are counted anew.
    fn show(&mut self)
        ensures { ShowsNow self.old self.new }
    {
        self.rounds.served.show_on(&mut self.publisher);
        self.since = 0;
    }

    /// Publishes where enough rounds were counted since the last time. Otherwise the round before is counted, if something was done in it.
    fn show_again(&mut self)
        ensures { ShowsAgain self.old self.new }
    {
        if self.since >= SHOWN_EACH {
            self.show();
        } else if self.idle == 0 {
            self.since += 1;
        }
    }

    /// Publishes where the worker is at its end, and wasn't before.
    fn show_end(&mut self, was: bool)
        ensures { ShowsEnd was self.old self.new }
    {
        if was {
            return;
        }
        if self.rounds.served.is_ending() {
            self.show();
        }
    }

    /// What a worker of a drained core leaves. Its numbers are published for the last time, and what is still kept is handed to the sink.
    fn into_ended(self) -> Ended<J, S>
        requires { IsDrained self.linked.recorded.core.cores self.linked.recorded.journal.notes }
        ensures hands { HandsOn S.Sink self.linked self.sink result.linked result.sink }
        ensures shows { Shows self.linked.recorded.journal.notes self.shown result.shown }
    {
        let Worker {
            rounds,
            sink,
            local,
            publisher,
            ..
        } = self;
        let Rounds { served, .. } = rounds;
        let (mut sink, mut publisher) = (sink, publisher);
        served.show_on(&mut publisher);
        let mut seat = served.into_seat();
        hand_on(&mut seat, &mut sink);
        Ended::of(seat, sink, local, publisher)
    }
}

impl<J: Job + Task<Out = u64>, C: Clock + Drop, G: Gate + Drop, S: Sink> Worker<J, C, G, S> {
    /// Passes on what is kept, lies down, looks once more, and parks until its bell rings if there was nothing. Whether there was something.
    fn rests<R: Wait>(&mut self, rt: &R) -> bool
        ensures { Rests J.meaning J.sleeps C.Reads G.Asked S.Sink self.old result self.new }
    {
        self.hand_on_if_kept();
        let found = self
            .own
            .rest(rt, &mut self.rounds, &mut self.local)
            .is_none();
        let idle = idle_behind(found, self.idle);
        self.idle = idle;
        found
    }

    /// Passes on what is kept if the journal is low, and makes one round. Whether the next one is made at once: unless nothing was to be done in
    /// it and in so many rounds before it.
    fn goes_on(&mut self) -> bool
        ensures { GoesOn J.meaning J.sleeps C.Reads G.Asked S.Sink self.old result self.new }
    {
        self.hand_on_if_low();
        let some = self.rounds.round(self.idle > 0, &mut self.local);
        let (again, idle) = count_idle(self.tries, some, self.idle);
        self.idle = idle;
        again
    }

    /// Publishes if it is time, makes one round, and publishes and rests if the next one isn't made at once. If the worker came to its end, it
    /// publishes at once.
    fn serve<R: Wait>(&mut self, rt: &R)
        ensures { Serves J.meaning J.sleeps C.Reads G.Asked S.Sink self.old self.new }
    {
        self.show_again();
        let was = self.rounds.served.is_ending();
        if !self.goes_on() {
            // Before it lies down, so that an idle core's board is complete.
            self.show();
            self.rests(rt);
        }
        self.show_end(was);
    }
}

impl<J: Task<Out = u64>, C: Drop, G: Drop, S: Sink> Promised for Worker<J, C, G, S> {
    type Ended = Ended<J, S>;

    ghost keeps = { λ worker ended. KeepsOn S.mark worker ended };
}

impl<J: Job + Task<Out = u64>, C: Clock + Drop, G: Gate + Drop, S: Sink> Work
    for Worker<J, C, G, S> {
    fn run<R: Wait>(self, rt: &R) -> Ended<J, S>
        ensures keeps { KeepsOn S.mark self result }
        ensures serves { ServesToItsEnd J.meaning J.sleeps C.Reads G.Asked S.Sink self result }
        ensures asks { (gate : G) × AsksSince G.Asked self.linked.recorded.core.core self.linked.recorded.journal.notes result.linked.recorded.journal.notes self.gate gate }
    {
        let mut worker = self;
        // On the thread that writes the notes, so that their pages come from memory that is near to it, and that polls the jobs.
        worker.rounds.served.begin(&mut worker.local);
        for _ in rt.forever() {
            if worker.rounds.served.is_drained() {
                return worker.into_ended();
            }
            worker.serve(rt);
        }
        unreachable!()
    }
}
