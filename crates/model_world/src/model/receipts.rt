//! What a core does on the link of a sender: it takes the next order, or shuts the gate.

ghost use Rattle.std.specs.Prelude.{◌≡◌, ◌≤◌, ◌<◌, ◌+◌, length};
ghost use Rattle.actor_core.specs.Ends.{IsInOf};
ghost use Rattle.link_ends.specs.Whole.{inward_of};
ghost use Rattle.model_world.specs.Deliveries.{taken_reply};
ghost use Rattle.model_world.specs.Receipts.{HasReceived, MayReceive, Receives};
ghost use Rattle.model_world.specs.State.{journal_at};

use super::World;
use crate::event::Reply;
use actor_core::Recorded;
use base_jobs::Task;
use base_words::{ActorNo, CoreNo};
use link_ends::PlainLink;
use std::alloc::Allocator;

/// One step of a core on the link of a sender.
#[derive(Drop)]
pub(super) enum Receipt {
    /// The next order is taken, and carried out.
    Take,
    /// The gate is shut.
    Shut,
}

impl<J: Task<Out = u64>, A: Allocator + Clone> World<J, A> {
    /// The core does this on the link of the sender.
    pub(super) fn receive(&mut self, core: CoreNo, from: ActorNo, what: Receipt) -> Reply<J>
        requires core { core < self.old.cores }
        requires sender { from ≤ self.old.cores }
        requires room { length (journal_at core self.old) + 4 ≤ self.old.room }
        requires may { MayReceive from what (journal_at core self.old) }
        ensures { Receives core from what self.old self.new result }
    {
        let link = self.links.link_mut(from, core);
        core_receives(&mut self.inside[core.0 as usize], link, from, what)
    }
}

// One core does this on the link of the sender.
fn core_receives<J: Task<Out = u64>, A: Allocator + Clone>(
    core: &mut Recorded<J, A>,
    link: &mut PlainLink<J>,
    from: ActorNo,
    what: Receipt,
) -> Reply<J>
    requires beside { IsInOf from core.old (inward_of link.old) }
    requires room { length core.old.journal.notes + 4 ≤ core.old.journal.room }
    requires may { MayReceive from what core.old.journal.notes }
    ensures { HasReceived J.meaning from what core.old link.old result core.new link.new }
{
    match what {
        Receipt::Take => reply_if(core.deliver(link)),
        Receipt::Shut => {
            core.shut(link, from);
            Reply::Noted
        }
    }
}

// What the core is told.
fn reply_if<J>(found: bool) -> Reply<J>
    ensures { result ≡ taken_reply found }
{
    if found { Reply::Noted } else { Reply::Empty }
}
