//! Events, one at a time and in a list.

ghost use Rattle.std.specs.Prelude.{◌≡◌, ◌↔◌, ◌≤◌, All, IsTrue};
ghost use Rattle.base_words.specs.Joining.{AreJoined};
ghost use Rattle.base_words.specs.Sound.{IsSound};
ghost use Rattle.base_jobs.specs.Ready.{HasReadyJob};
ghost use Rattle.model_world.specs.State.{IsNearlyFull};
ghost use Rattle.model_world.specs.Sends.{AreThere, actor_of};
ghost use Rattle.model_world.specs.Opening.{IsUnbegun, HasReadyEvent};
ghost use Rattle.model_world.specs.Runs.{Happens, RunsTo};

use super::World;
use crate::event::{Event, Reply};
use base_jobs::{Job, Task};
use base_words::ActorNo;
use note_journal::Assembly;
use std::alloc::Allocator;

impl<J: Task<Out = u64>, A: Allocator + Clone> World<J, A> {
    /// Whether the actors and cores of the event exist.
    fn has_actors(&self, event: &Event<J>) -> bool
        ensures { IsTrue result ↔ AreThere self.now.cores event.now }
    {
        match event {
            Event::Send(from, to, _) => from.0 <= self.cores && to.0 < self.cores,
            Event::Deliver(core, from) => core.0 < self.cores && from.0 <= self.cores,
            Event::Turn(core, _) => core.0 < self.cores,
            Event::Shut(core, from) => core.0 < self.cores && from.0 <= self.cores,
            Event::Collect(from, core) => from.0 <= self.cores && core.0 < self.cores,
            Event::Redeem(from, _) => from.0 <= self.cores,
            Event::Detach(from, _) => from.0 <= self.cores,
        }
    }

    /// Whether the actor's journal has fewer notes free than one event may need.
    fn is_nearly_full(&self, actor: ActorNo) -> bool
        requires { actor ≤ self.now.cores }
        ensures full { IsTrue result ↔ IsNearlyFull actor self.now }
        ensures some { 1 ≤ self.now.burst }
    {
        let needed = 3 * self.cores as u32 * self.cap as u32 + 2 * self.burst as u32 + 2;
        self.journal(actor).free() < needed
    }
}

impl<J: Job + Task<Out = u64, Local = ()>, A: Allocator + Clone> World<J, A> {
    /// One event. The reply says what it came to, and the new notes of its actor's journal what was done.
    ///
    /// # Errors
    ///
    /// An event whose actor or core doesn't exist (`NoActor`), or whose actor's journal has fewer than `3 * cores * cap + 2 * burst + 2`
    /// notes free (`NoRoom`), changes nothing and comes back.
    pub fn step(&mut self, event: Event<J>) -> Reply<J>
        requires ready { HasReadyEvent (HasReadyJob J.meaning) event }
        ensures { Happens J.meaning event self.old self.new result }
    {
        if !self.has_actors(&event) {
            return Reply::NoActor(event);
        }
        if self.is_nearly_full(event.actor()) {
            return Reply::NoRoom(event);
        }
        match event {
            Event::Send(from, to, order) => self.send(from, to, order),
            Event::Deliver(core, from) => self.deliver(core, from),
            Event::Turn(core, spent) => self.turn(core, spent),
            Event::Shut(core, from) => self.shut(core, from),
            Event::Collect(from, core) => self.collect(from, core),
            Event::Redeem(from, ticket) => self.redeem(from, ticket),
            Event::Detach(from, ticket) => self.detach(from, ticket),
        }
    }

    /// All these events, one after another. Their journals are a run of the events, and they are sound together.
    pub fn run(self, events: Vec<Event<J>>) -> Assembly
        requires unbegun { IsUnbegun self }
        requires ready { All (HasReadyEvent (HasReadyJob J.meaning)) events.items }
        ensures run { RunsTo J.meaning events.items self result }
        ensures sound { IsSound result }
        ensures joined { AreJoined result }
    {
        let mut world = self;
        for event in events {
            drop(world.step(event));
        }
        world.into_assembly()
    }
}
