//! Outcomes that come back: they are collected, redeemed, or let go of.

ghost use Rattle.std.specs.Prelude.{◌≡◌, ◌↔◌, ◌≤◌, ◌<◌, ◌+◌, ◌*◌, false, length, IsTrue};
ghost use Rattle.base_words.specs.declared.names.TicketError.TheVariants.{Unknown};
ghost use Rattle.model_world.specs.State.{journal_at};
ghost use Rattle.model_world.specs.Collections.{RefusesTicket, Collects, Redeems, Detaches};

use super::World;
use super::acts::Act;
use crate::event::Reply;
use base_jobs::Task;
use base_words::{ActorNo, CoreNo, Ticket, TicketError};
use std::alloc::Allocator;

impl<J: Task<Out = u64>, A: Allocator + Clone> World<J, A> {
    /// Collects all outcomes that the core gave the actor.
    pub(super) fn collect(&mut self, from: ActorNo, to: CoreNo) -> Reply<J>
        requires sender { from ≤ self.old.cores }
        requires core { to < self.old.cores }
        requires room { length (journal_at from self.old) + self.old.cap ≤ self.old.room }
        ensures { Collects from to self.old self.new result }
    {
        self.act(from, to, Act::Collect)
    }

    /// Whether the ticket is this actor's, and there is a core of its number.
    fn knows(&self, from: ActorNo, ticket: Ticket) -> bool
        requires { from ≤ self.now.cores }
        ensures knows { IsTrue result ↔ ((ticket.from ≡ from) × (ticket.to < self.now.cores)) }
        ensures unknown { result ≡ false → RefusesTicket ticket Unknown (journal_at from self.now) }
    {
        if from.0 < self.cores {
            self.recorded(CoreNo(from.0)).knows(ticket)
        } else {
            self.outside.knows(ticket)
        }
    }

    /// The outcome of a submission, which is gone from then on.
    pub(super) fn redeem(&mut self, from: ActorNo, ticket: Ticket) -> Reply<J>
        requires sender { from ≤ self.old.cores }
        requires room { length (journal_at from self.old) + 4 ≤ self.old.room }
        ensures { Redeems J.meaning from ticket self.old self.new result }
    {
        if !self.knows(from, ticket) {
            return Reply::NoTicket(TicketError::Unknown);
        }
        self.act(from, ticket.name().to, Act::Redeem(ticket))
    }

    /// Lets go of the outcome of a submission.
    pub(super) fn detach(&mut self, from: ActorNo, ticket: Ticket) -> Reply<J>
        requires sender { from ≤ self.old.cores }
        requires room { length (journal_at from self.old) + 4 ≤ self.old.room }
        ensures { Detaches from ticket self.old self.new result }
    {
        if !self.knows(from, ticket) {
            return Reply::NoTicket(TicketError::Unknown);
        }
        self.act(from, ticket.name().to, Act::Detach(ticket))
    }
}
