//! The steps: an order is sent, the next one is delivered, a core makes a turn.

ghost use Rattle.std.specs.Prelude.{◌≡◌, ◌≤◌, ◌<◌, ◌+◌, ◌*◌, length};
ghost use Rattle.base_jobs.specs.Ready.{HasReadyJob};
ghost use Rattle.model_world.specs.State.{journal_at};
ghost use Rattle.model_world.specs.Sends.{Sends};
ghost use Rattle.model_world.specs.Deliveries.{Delivers};
ghost use Rattle.model_world.specs.Turns.{Turns, turned_reply};

use super::World;
use super::acts::Act;
use super::receipts::Receipt;
use crate::event::Reply;
use crate::known::Known;
use actor_core::{Turned, turn};
use base_jobs::{Job, Task};
use base_words::{ActorNo, CoreNo, Order};
use run_config::NoGate;
use std::alloc::Allocator;

impl<J: Task<Out = u64>, A: Allocator + Clone> World<J, A> {
    /// Sends the order.
    pub(super) fn send(&mut self, from: ActorNo, to: CoreNo, order: Order<J>) -> Reply<J>
        requires sender { from ≤ self.old.cores }
        requires core { to < self.old.cores }
        requires room { length (journal_at from self.old) + 4 ≤ self.old.room }
        requires ready { HasReadyJob J.meaning order }
        ensures { Sends from to order self.old self.new result }
    {
        self.act(from, to, Act::Send(order))
    }

    /// Takes the next submission of the actor to the core, which carries it out.
    pub(super) fn deliver(&mut self, core: CoreNo, from: ActorNo) -> Reply<J>
        requires core { core < self.old.cores }
        requires sender { from ≤ self.old.cores }
        requires room { length (journal_at core self.old) + 4 ≤ self.old.room }
        ensures { Delivers core from self.old self.new result }
    {
        self.receive(core, from, Receipt::Take)
    }
}

impl<J: Job + Task<Out = u64, Local = ()>, A: Allocator + Clone> World<J, A> {
    /// Picks a queue of the core and polls its first job, and perhaps further ones, each once, or hands it back. The outcome of each goes
    /// to its sender's link.
    pub(super) fn turn(&mut self, core: CoreNo, spent: u64) -> Reply<J>
        requires core { core < self.old.cores }
        requires room { length (journal_at core self.old) + (3 * self.old.cores * self.old.cap + 2 * self.old.burst + 2) ≤ self.old.room }
        ensures { Turns J.meaning core spent self.old self.new result }
    {
        let mut local = ();
        let mut meter = Known::each(spent);
        let mut gate = NoGate;
        reply_for(turn(
            &mut self.inside[core.0 as usize],
            &mut self.links,
            &mut local,
            core,
            &mut meter,
            &mut gate,
        ))
    }
}

// What a core is told of its turn.
fn reply_for<J>(turned: Turned) -> Reply<J>
    ensures { result ≡ turned_reply turned }
{
    match turned {
        Turned::Polled | Turned::Returned => Reply::Noted,
        Turned::Idle => Reply::Idle,
        Turned::Spent => Reply::Spent,
    }
}
