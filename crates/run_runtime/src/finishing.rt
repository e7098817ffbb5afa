//! How the workers of a runtime end, and what their journals are together.
//!
//! A worker ends by itself once its core is drained, so the caller has to have closed each core before: that is asked first, and the runtime comes
//! back if not. Then all threads are waited for, in the order of their numbers, and the links go with the last one who had them. The room for
//! what comes back was taken at the opening.

ghost use Rattle.std.specs.Prelude.{◌≡◌, ◌+◌, ◌<◌, ◌≤◌, ℕ, true, [], IfOk, length, map, vec_capacity};
ghost use Rattle.link_ring.specs.Grid.{IsGrid, AreReunited};
ghost use Rattle.note_journal.specs.Passing.{IsAsked};
ghost use Rattle.link_ends.specs.Fits.{Fits};
ghost use Rattle.run_runtime.specs.Calls.{Finishes};
ghost use Rattle.actor_caller.specs.State.{closing_at};
ghost use Rattle.run_runtime.specs.Finishing.{IsPart, Parts};
ghost use Rattle.actor_caller.specs.Watching.{watch_at};
ghost use Rattle.actor_seat.specs.Together.{worker_at};
ghost use Rattle.run_watch.specs.Growth.{Grows};
ghost use Rattle.run_runtime.specs.WithLocals.{without_locals};
ghost use Rattle.run_runtime.specs.WithSinks.{FinishesWithSinks, HasPassed, KeepsRefused, assembly_of, notes_of};

use crate::error::FinishError;
use crate::passed::{ActorNotes, Passed};
use crate::runtime::{Crew, Runtime};
use actor_core::RecordedDesk;
use base_jobs::{Job, Task};
use base_sealed::SealedVec;
use base_words::laws::{joined_are_spelled, joining_is_sound};
use link_ring::laws::grid_is_kept;
use link_ring::{Ends, reunite_all};
use note_journal::{Assembly, Journal, Sink, Whole};
use run_config::{Clock, Gate};
use run_watch::Watcher;
use run_worker::Ended;
use run_worker::laws::ended_are_joined;
use std::alloc::Global;
use std::sync::Wait;
use std::thread::Threads;

/// Tells, for proofs alone, that the journal of this worker begins with what its watcher has seen.
fn compare_at<J: Task<Out = u64>, S: Sink>(
    ended: &mut Vec<Ended<J, S>>,
    watchers: &mut SealedVec<Watcher, Global>,
    core: usize,
)
    requires there { core < length ended.old.items }
    requires boards { map (λ watcher. watcher.board) watchers.old.items ≡ map (λ worker. worker.shown.board) ended.old.items }
    ensures ended { ended.new.items ≡ ended.old.items }
    ensures watchers { watchers.new.items ≡ watchers.old.items }
    ensures grows { Grows (watch_at core watchers.old.items).notes (worker_at core (map (λ worker. worker.linked) ended.old.items)).recorded.journal.notes }
{
    ended[core].compare(&mut watchers[core]);
}

/// The same of all workers.
fn compare_all<J: Task<Out = u64>, S: Sink>(
    ended: &mut Vec<Ended<J, S>>,
    watchers: &mut SealedVec<Watcher, Global>,
)
    requires { map (λ watcher. watcher.board) watchers.old.items ≡ map (λ worker. worker.shown.board) ended.old.items }
    ensures ended { ended.new.items ≡ ended.old.items }
    ensures grows { (core : ℕ) → core < length ended.old.items → Grows (watch_at core watchers.old.items).notes (worker_at core (map (λ worker. worker.linked) ended.old.items)).recorded.journal.notes }
{
    for core in 0..ended.len() {
        compare_at(ended, watchers, core);
    }
}

/// What one worker leaves: its ends, its notes, and what its jobs shared.
fn part<J: Task<Out = u64>, S: Sink>(ended: Ended<J, S>) -> (Ends<J>, ActorNotes<S>, J::Local)
    ensures ends { result.0 ≡ ended.linked.ends }
    ensures part { IsPart J.meaning S.has S.refused ended result.1 }
{
    let (linked, sink, local) = ended.into_all();
    let (recorded, ends) = linked.into_parts();
    let kept = recorded.into_journal().into_kept();
    (ends, ActorNotes { sink, kept }, local)
}

/// What all workers leave: their ends, their notes, and what their jobs shared.
type Left<J, S, L> = (Vec<Ends<J>>, Vec<ActorNotes<S>>, Vec<L>);

/// Takes apart what all workers leave.
fn part_all<J: Task<Out = u64>, S: Sink>(
    all: Vec<Ended<J, S>>,
    ends: Vec<Ends<J>>,
    actors: Vec<ActorNotes<S>>,
    locals: Vec<J::Local>,
) -> Left<J, S, J::Local>
    requires no_ends { ends.items ≡ [] }
    requires no_actors { actors.items ≡ [] }
    requires no_locals { locals.items ≡ [] }
    requires room_ends { length all.items ≤ vec_capacity ends }
    requires room_actors { length all.items ≤ vec_capacity actors }
    requires room_locals { length all.items ≤ vec_capacity locals }
    ensures parts { Parts J.meaning S.has S.refused all.items result.0.items result.1.items }
    ensures room_ends { vec_capacity result.0 ≡ vec_capacity ends }
    ensures room_actors { vec_capacity result.1 ≡ vec_capacity actors }
    ensures locals { length result.2.items ≡ length all.items }
{
    let mut all_ends = ends;
    let mut all_actors = actors;
    let mut all_locals = locals;
    for one in all {
        let (its_ends, actor, local) = part(one);
        all_ends.push_reserved(its_ends);
        all_actors.push_reserved(actor);
        all_locals.push_reserved(local);
    }
    (all_ends, all_actors, all_locals)
}

/// The notes of the outside actor. What is kept is passed on for the last time.
fn part_outside<J: Task<Out = u64>, S: Sink>(desk: RecordedDesk<J>, sink: S) -> ActorNotes<S>
    requires { S.has sink ≡ desk.journal.passed }
    ensures notes { notes_of S.has result ≡ desk.journal.notes }
    ensures rest { KeepsRefused S.has S.refused result }
    ensures asked { IsAsked (S.asks sink) (S.asks result.sink) }
    ensures marked { S.mark result.sink ≡ S.mark sink }
{
    let (mut desk, mut sink) = (desk, sink);
    let _answer = desk.pass_on(&mut sink);
    let kept = desk.into_journal().into_kept();
    ActorNotes { sink, kept }
}

/// The journals of actors that passed nothing on, together.
fn whole_assembly(passed: Passed<Whole>, journals: Vec<Journal<u64>>) -> Assembly
    requires none { journals.items ≡ [] }
    requires room { length passed.actors.items ≤ vec_capacity journals }
    requires count { length passed.actors.items ≡ passed.cores + 1 }
    ensures { result ≡ assembly_of ⟦<Whole as Sink>⟧.has passed }
{
    let Passed {
        cores,
        cap,
        burst,
        actors,
    } = passed;
    let mut all = journals;
    for actor in actors {
        let ActorNotes { kept, .. } = actor;
        all.push_reserved(kept);
    }
    Assembly::of_burst(cores, cap, burst, all)
}

/// The notes of all actors, room for their journals, and what the jobs of each core shared.
type Over<S, L> = (Passed<S>, Vec<Journal<u64>>, Vec<L>);

impl<J: Job + Task<Out = u64>, C: Clock + Drop, G: Gate + Drop, S: Sink> Runtime<J, C, G, S> {
    /// Waits until all workers have ended, and ends the links. Room for the journals comes back beside the notes.
    fn end<R: Threads + Wait>(self, rt: &R) -> Over<S, J::Local>
        requires { (core : ℕ) → core < self.desk.cores → closing_at core self ≡ true }
        ensures passed { HasPassed J.meaning S.has S.refused S.asks S.mark self result.0 }
        ensures none { result.1.items ≡ [] }
        ensures room { length result.0.actors.items ≤ vec_capacity result.1 }
        ensures locals { length result.2.items ≡ self.desk.cores }
    {
        let caller = self.into_caller();
        let cores = caller.cores();
        let (outside, sink, crew, watchers) = caller.into_parts();
        let cap = outside.cap();
        let Crew {
            team,
            ends,
            actors,
            journals,
            locals,
        } = crew;
        let mut watchers = watchers;
        let mut ended = team.join(rt);
        compare_all(&mut ended, &mut watchers);
        let (mut all, mut actors, locals) = part_all(ended, ends, actors, locals);
        let (desk, ends) = outside.into_parts();
        let burst = desk.burst();
        all.push_reserved(ends);
        actors.push_reserved(part_outside(desk, sink));
        grid_is_kept::<J>();
        reunite_all(all, cores);
        ended_are_joined::<J>();
        joining_is_sound();
        joined_are_spelled();
        let passed = Passed {
            cores,
            cap,
            burst,
            actors,
        };
        (passed, journals, locals)
    }

    /// Waits until all workers have ended. The notes of each actor come back: its sink, and what the sink refused. The body asks for no
    /// memory; no clause says so.
    ///
    /// # Errors
    ///
    /// `NotClosed` for the first core that the caller didn't close: its worker would not end. The runtime comes back.
    pub fn finish_with_sinks<R: Threads + Wait>(
        self,
        rt: &R,
    ) -> Result<Passed<S>, FinishError<Self>>
        ensures { FinishesWithSinks J.meaning S.has S.refused S.asks S.mark self result }
    {
        match self.finish_with_sinks_and_locals(rt) {
            Ok((passed, _locals)) => Ok(passed),
            Err(error) => Err(error),
        }
    }

    /// The same, where what the jobs of each core shared comes back too, by the core's number.
    ///
    /// # Errors
    ///
    /// As `finish_with_sinks`.
    pub fn finish_with_sinks_and_locals<R: Threads + Wait>(
        self,
        rt: &R,
    ) -> Result<(Passed<S>, Vec<J::Local>), FinishError<Self>>
        ensures finishes { FinishesWithSinks J.meaning S.has S.refused S.asks S.mark self (without_locals result) }
        ensures locals { IfOk result (λ both. length both.1.items ≡ self.desk.cores) }
    {
        match self.caller.first_open() {
            Some(core) => Err(FinishError::NotClosed(core, self)),
            None => {
                let (passed, _journals, locals) = self.end(rt);
                Ok((passed, locals))
            }
        }
    }
}

impl<J: Job + Task<Out = u64>, C: Clock + Drop, G: Gate + Drop> Runtime<J, C, G> {
    /// Waits until all workers have ended, and puts the journals together. The body asks for no memory; no clause says so.
    ///
    /// # Errors
    ///
    /// `NotClosed` for the first core that the caller didn't close: its worker would not end. The runtime comes back.
    pub fn finish<R: Threads + Wait>(self, rt: &R) -> Result<Assembly, FinishError<Self>>
        ensures { Finishes J.meaning self result }
    {
        match self.finish_with_locals(rt) {
            Ok((assembly, _locals)) => Ok(assembly),
            Err(error) => Err(error),
        }
    }

    /// The same, where what the jobs of each core shared comes back too, by the core's number.
    ///
    /// # Errors
    ///
    /// As `finish`.
    pub fn finish_with_locals<R: Threads + Wait>(
        self,
        rt: &R,
    ) -> Result<(Assembly, Vec<J::Local>), FinishError<Self>>
        ensures finishes { Finishes J.meaning self (without_locals result) }
        ensures locals { IfOk result (λ both. length both.1.items ≡ self.desk.cores) }
    {
        match self.caller.first_open() {
            Some(core) => Err(FinishError::NotClosed(core, self)),
            None => {
                let (passed, journals, locals) = self.end(rt);
                Ok((whole_assembly(passed, journals), locals))
            }
        }
    }
}
