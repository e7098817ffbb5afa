//! What an actor does on its link to a core: it sends an order, collects outcomes, redeems one, or lets go of one.

ghost use Rattle.std.specs.Prelude.{◌≡◌, ◌≤◌, ◌<◌, ◌+◌, length};
ghost use Rattle.base_jobs.specs.Ready.{HasReadyJob};
ghost use Rattle.actor_desk.specs.Ends.{IsOutOf};
ghost use Rattle.actor_core.specs.Recorded.{desk_of};
ghost use Rattle.actor_desk.specs.Tickets.{HasLane};
ghost use Rattle.link_ends.specs.Fits.{Fits};
ghost use Rattle.link_ends.specs.Whole.{out_of};
ghost use Rattle.model_world.specs.State.{journal_at};
ghost use Rattle.model_world.specs.Acts.{Acts, HasActed, HasCoreActed, HasReadyAct, IsActAt, IsActOf, notes_for};
ghost use Rattle.model_world.specs.Sends.{sent_reply};
ghost use Rattle.model_world.specs.Collections.{redeemed_reply, detached_reply};

use super::World;
use crate::event::Reply;
use actor_core::{Recorded, RecordedDesk};
use base_jobs::Task;
use base_words::{ActorNo, CoreNo, Order, Outcome, SendError, Ticket, TicketError};
use link_ends::PlainLink;
use std::alloc::Allocator;

/// One step of an actor on its link to a core.
#[derive(Drop)]
pub(super) enum Act<J> {
    /// The order is sent.
    Send(Order<J>),
    /// All outcomes that the core gave are collected.
    Collect,
    /// The outcome of a submission is asked for.
    Redeem(Ticket),
    /// The outcome of a submission is let go of.
    Detach(Ticket),
}

impl<J: Task<Out = u64>, A: Allocator + Clone> World<J, A> {
    /// The actor does this on its link to the core.
    pub(super) fn act(&mut self, from: ActorNo, to: CoreNo, act: Act<J>) -> Reply<J>
        requires sender { from ≤ self.old.cores }
        requires core { to < self.old.cores }
        requires own { IsActOf from act }
        requires at { IsActAt to act }
        requires room { length (journal_at from self.old) + notes_for self.old.cap act ≤ self.old.room }
        requires ready { HasReadyAct (HasReadyJob J.meaning) act }
        ensures { Acts J.meaning from to act self.old self.new result }
    {
        let link = self.links.link_mut(from, to);
        if from.0 < self.cores {
            let actor = &mut self.inside[from.0 as usize];
            return core_acts(actor, link, to, act);
        }
        desk_acts(&mut self.outside, link, to, act)
    }
}

// A core does this on its link.
fn core_acts<J: Task<Out = u64>, A: Allocator + Clone>(
    core: &mut Recorded<J, A>,
    link: &mut PlainLink<J>,
    to: CoreNo,
    act: Act<J>,
) -> Reply<J>
    requires beside { IsOutOf to (desk_of core.old) (out_of link.old) link.old.credited }
    requires lane { HasLane (Fits J.meaning) to (desk_of core.old) (out_of link.old) link.old.credited }
    requires at { IsActAt to act }
    requires room { length core.old.journal.notes + notes_for core.old.cap act ≤ core.old.journal.room }
    requires ready { HasReadyAct (HasReadyJob J.meaning) act }
    ensures { HasCoreActed J.meaning to act core.old link.old result core.new link.new }
{
    match act {
        Act::Send(order) => reply_to(core.submit(link, to, order)),
        Act::Collect => Reply::Collected(core.collect_from(link, to)),
        Act::Redeem(ticket) => redeemed(core.redeem(link, ticket)),
        Act::Detach(ticket) => detached(core.detach(link, ticket)),
    }
}

// The outside actor does this on its link.
fn desk_acts<J: Task<Out = u64>>(
    desk: &mut RecordedDesk<J>,
    link: &mut PlainLink<J>,
    to: CoreNo,
    act: Act<J>,
) -> Reply<J>
    requires beside { IsOutOf to desk.old (out_of link.old) link.old.credited }
    requires lane { HasLane (Fits J.meaning) to desk.old (out_of link.old) link.old.credited }
    requires at { IsActAt to act }
    requires room { length desk.old.journal.notes + notes_for desk.old.cap act ≤ desk.old.journal.room }
    requires ready { HasReadyAct (HasReadyJob J.meaning) act }
    ensures { HasActed J.meaning to act desk.old link.old result desk.new link.new }
{
    match act {
        Act::Send(order) => reply_to(desk.submit(link, to, order)),
        Act::Collect => Reply::Collected(desk.collect_from(link, to)),
        Act::Redeem(ticket) => redeemed(desk.redeem(link, ticket)),
        Act::Detach(ticket) => detached(desk.detach(link, ticket)),
    }
}

// What the sender is told.
fn reply_to<J: Drop>(sent: Result<Ticket, SendError<J>>) -> Reply<J>
    ensures { result ≡ sent_reply sent }
{
    match sent {
        Ok(ticket) => Reply::Sent(ticket),
        Err(error) => Reply::NotSent(error),
    }
}

// What the actor is told of a redeem.
fn redeemed<J: Task<Out = u64>>(answer: Result<Outcome<J, u64>, TicketError>) -> Reply<J>
    ensures { result ≡ redeemed_reply answer }
{
    match answer {
        Ok(outcome) => Reply::Redeemed(outcome),
        Err(error) => Reply::NoTicket(error),
    }
}

// What the actor is told of a detach.
fn detached<J: Task<Out = u64>>(answer: Result<(), TicketError>) -> Reply<J>
    ensures { result ≡ detached_reply answer }
{
    match answer {
        Ok(()) => Reply::Detached,
        Err(error) => Reply::NoTicket(error),
    }
}
