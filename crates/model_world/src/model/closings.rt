//! Closed cores: the gates that they shut, and whether they are drained.

ghost use Rattle.std.specs.Prelude.{◌≡◌, ◌↔◌, ◌≤◌, ◌<◌, ◌+◌, [], ◌∷◌, length, is_some, IsTrue};
ghost use Rattle.std.specs.Option.{IsSome};
ghost use Rattle.base_words.specs.declared.note.Note.TheVariants as writes;
ghost use Rattle.base_words.specs.Closing.{core_mode, final_count, IsDrained};
ghost use Rattle.base_words.specs.Filters.{accepted_orders};
ghost use Rattle.model_world.specs.State.{journal_at, noted};
ghost use Rattle.model_world.specs.Closings.{IsGateOpen, Shuts};

use super::World;
use super::receipts::Receipt;
use crate::event::Reply;
use base_jobs::Task;
use base_words::{ActorNo, CoreNo};
use std::alloc::Allocator;

impl<J: Task<Out = u64>, A: Allocator + Clone> World<J, A> {
    /// Whether the core is closed, in either mode.
    pub fn is_closed(&self, core: CoreNo) -> bool
        requires { core < self.now.cores }
        ensures { result ≡ is_some (core_mode (journal_at core self.now)) }
    {
        self.recorded(core).is_closed()
    }

    /// Whether the core has shut the gate of this actor.
    pub fn is_shut(&self, core: CoreNo, from: ActorNo) -> bool
        requires core { core < self.now.cores }
        requires sender { from ≤ self.now.cores }
        ensures { result ≡ is_some (final_count from (journal_at core self.now)) }
    {
        self.recorded(core).gate(from).is_some()
    }

    /// Whether the core is drained: each gate is shut, all that was accepted is delivered, and no queue has work. It takes the same
    /// time however much the core has done.
    pub fn is_drained(&self, core: CoreNo) -> bool
        requires { core < self.now.cores }
        ensures { IsTrue result ↔ IsDrained self.now.cores (journal_at core self.now) }
    {
        self.recorded(core).is_drained()
    }

    /// Shuts the gate of the actor, if the core is closed and the gate isn't shut.
    pub(super) fn shut(&mut self, core: CoreNo, from: ActorNo) -> Reply<J>
        requires core { core < self.old.cores }
        requires sender { from ≤ self.old.cores }
        requires room { length (journal_at core self.old) + 4 ≤ self.old.room }
        ensures { Shuts core from self.old self.new result }
    {
        if !self.is_closed(core) {
            return Reply::NotClosed;
        }
        if self.is_shut(core, from) {
            return Reply::AlreadyShut;
        }
        self.receive(core, from, Receipt::Shut)
    }
}
