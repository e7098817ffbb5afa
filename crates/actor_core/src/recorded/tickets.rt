//! What a core does with its own submissions: each call is the one of its desk.

ghost use Rattle.std.specs.Prelude.{◌≡◌, ℕ, ◌+◌, ◌<◌, ◌≤◌, ◌↔◌, false, length, IsTrue, IfOk};
ghost use Rattle.base_words.specs.Outstanding.{outstanding_count};
ghost use Rattle.base_words.specs.declared.names.TicketError.TheVariants.{Unknown};
ghost use Rattle.base_jobs.specs.Ready.{HasReadyJob};
ghost use Rattle.link_ends.specs.Calls.{Sends};
ghost use Rattle.link_ends.specs.Fits.{Fits};
ghost use Rattle.actor_desk.specs.Lanes.{IsGot, FitsSent};
ghost use Rattle.actor_desk.specs.Submissions.{Submits, numbered};
ghost use Rattle.actor_core.specs.Recorded.{IsRecorded, desk_of};
ghost use Rattle.actor_desk.specs.Ends.{IsOutOf};
ghost use Rattle.actor_core.specs.Ends.{KeepsIn, IsSameSeat};
ghost use Rattle.actor_desk.specs.Tickets.{HasLane, StaysBeside, RefusesTicket, RedeemsTicket, DetachesTicket, CollectsFrom, GetsAll, GetsNext};
ghost use Rattle.actor_desk.specs.Spending.{HoldsSome, booked};

use super::Recorded;
use base_jobs::Task;
use base_words::{CoreNo, Order, Outcome, SendError, Ticket, TicketError};
use link_ends::OutEnd;
use std::alloc::Allocator;

impl<J: Task<Out = u64>, A: Allocator + Clone> Recorded<J, A> {
    /// Sends an order to this core, on the end that is lent, and notes it if it is accepted. A job that is polled may do so.
    ///
    /// # Errors
    ///
    /// Those of the link: `Closed`, `Full` and `Spent`, tried in this order. The order comes back, and nothing is noted.
    pub fn submit<O: OutEnd<J>>(
        &mut self,
        end: &mut O,
        to: CoreNo,
        order: Order<J>,
    ) -> Result<Ticket, SendError<J>>
        requires beside { IsOutOf to (desk_of self.old) (O.out end.old) (O.credited end.old) }
        requires lane { HasLane (Fits J.meaning) to (desk_of self.old) (O.out end.old) (O.credited end.old) }
        requires room { length self.old.journal.notes < self.old.journal.room }
        requires ready { HasReadyJob J.meaning order }
        ensures submits { Submits to order (desk_of self.old) result (desk_of self.new) }
        ensures sends { Sends (O.out end.old) (O.credited end.old) order (O.out end.new) (numbered result) }
        ensures credited { O.credited end.new ≡ O.credited end.old }
        ensures stays { StaysBeside (Fits J.meaning) to (desk_of self.old) (desk_of self.new) (O.out end.new) (O.credited end.new) }
        ensures rest { self.new ≡ record self.old { journal = self.new.journal; lanes = self.new.lanes } }
        ensures ins { (sender : ℕ) → KeepsIn sender self.old self.new }
        ensures seat { IsSameSeat self.old self.new }
        ensures sound { IsRecorded J.meaning self.new }
        ensures untouched { O.untouched end.new ≡ O.untouched end.old }
    {
        self.said.submit(end, to, order)
    }

    /// Collects all outcomes that the link of a core shows, and notes each. How many there were.
    pub fn collect_from<O: OutEnd<J>>(&mut self, end: &mut O, core: CoreNo) -> usize
        requires beside { IsOutOf core (desk_of self.old) (O.out end.old) (O.credited end.old) }
        requires lane { HasLane (Fits J.meaning) core (desk_of self.old) (O.out end.old) (O.credited end.old) }
        requires room { length self.old.journal.notes + length (O.out end.old).sent ≤ self.old.journal.room + (O.out end.old).got }
        ensures collects { CollectsFrom core (desk_of self.old) result (desk_of self.new) }
        ensures books { booked (desk_of self.new) ≡ booked (desk_of self.old) }
        ensures few { length self.new.journal.notes ≤ length self.old.journal.notes + self.old.cap }
        ensures end { GetsAll (O.out end.old) (O.out end.new) }
        ensures stays { StaysBeside (Fits J.meaning) core (desk_of self.old) (desk_of self.new) (O.out end.new) (O.credited end.new) }
        ensures rest { self.new ≡ record self.old { journal = self.new.journal; lanes = self.new.lanes } }
        ensures ins { (sender : ℕ) → KeepsIn sender self.old self.new }
        ensures seat { IsSameSeat self.old self.new }
        ensures sound { IsRecorded J.meaning self.new }
        ensures untouched { O.untouched end.new ≡ O.untouched end.old }
    {
        self.said.collect_from(end, core)
    }

    /// Collects the next outcome that the link of a core shows, if there is one, and notes it. Whether there was one.
    pub fn collect_one<O: OutEnd<J>>(&mut self, end: &mut O, core: CoreNo) -> bool
        requires beside { IsOutOf core (desk_of self.old) (O.out end.old) (O.credited end.old) }
        requires lane { HasLane (Fits J.meaning) core (desk_of self.old) (O.out end.old) (O.credited end.old) }
        requires room { length self.old.journal.notes + length (O.out end.old).sent ≤ self.old.journal.room + (O.out end.old).got }
        ensures gets { GetsNext core (desk_of self.old) (desk_of self.new) (O.out end.old) (O.out end.new) result }
        ensures books { booked (desk_of self.new) ≡ booked (desk_of self.old) }
        ensures stays { StaysBeside (Fits J.meaning) core (desk_of self.old) (desk_of self.new) (O.out end.new) (O.credited end.new) }
        ensures rest { self.new ≡ record self.old { journal = self.new.journal; lanes = self.new.lanes } }
        ensures ins { (sender : ℕ) → KeepsIn sender self.old self.new }
        ensures seat { IsSameSeat self.old self.new }
        ensures sound { IsRecorded J.meaning self.new }
        ensures untouched { O.untouched end.new ≡ O.untouched end.old }
    {
        self.said.collect_one(end, core)
    }

    /// Whether a ticket is this core's, and there is a core of its number. Only then is there an end to lend; any other ticket is `Unknown`.
    pub fn knows(&self, ticket: Ticket) -> bool
        ensures knows { IsTrue result ↔ ((ticket.from ≡ self.now.core.core) × (ticket.to < self.now.core.cores)) }
        ensures unknown { result ≡ false → RefusesTicket ticket Unknown self.now.journal.notes }
    {
        self.said.knows(ticket)
    }

    /// The outcome of a submission, which is gone from then on, and noted as redeemed. Its place of the link is free.
    ///
    /// # Errors
    ///
    /// `Unknown` where nothing was accepted under the name; `Gone` where it was redeemed or detached before; `Pending` where its outcome
    /// isn't collected yet. Nothing changes.
    pub fn redeem<O: OutEnd<J>>(
        &mut self,
        end: &mut O,
        ticket: Ticket,
    ) -> Result<Outcome<J, u64>, TicketError>
        requires beside { IsOutOf ticket.to (desk_of self.old) (O.out end.old) (O.credited end.old) }
        requires lane { HasLane (Fits J.meaning) ticket.to (desk_of self.old) (O.out end.old) (O.credited end.old) }
        requires room { HoldsSome ticket (desk_of self.old) → length self.old.journal.notes < self.old.journal.room }
        ensures redeems { RedeemsTicket ticket (desk_of self.old) result (desk_of self.new) }
        ensures given { IfOk result (IsGot (O.out end.old) ticket.number) }
        ensures fits { IfOk result (FitsSent (Fits J.meaning) (O.out end.old) ticket.number) }
        ensures out { O.out end.new ≡ O.out end.old }
        ensures stays { StaysBeside (Fits J.meaning) ticket.to (desk_of self.old) (desk_of self.new) (O.out end.new) (O.credited end.new) }
        ensures rest { self.new ≡ record self.old { journal = self.new.journal; lanes = self.new.lanes } }
        ensures ins { (sender : ℕ) → KeepsIn sender self.old self.new }
        ensures seat { IsSameSeat self.old self.new }
        ensures sound { IsRecorded J.meaning self.new }
        ensures untouched { O.untouched end.new ≡ O.untouched end.old }
    {
        self.said.redeem(end, ticket)
    }

    /// Nobody will ask for the outcome of a submission. It is dropped, at once or when it is collected, and that frees its place of the link.
    ///
    /// # Errors
    ///
    /// `Unknown` and `Gone`, as `redeem`. Nothing changes.
    pub fn detach<O: OutEnd<J>>(&mut self, end: &mut O, ticket: Ticket) -> Result<(), TicketError>
        requires beside { IsOutOf ticket.to (desk_of self.old) (O.out end.old) (O.credited end.old) }
        requires lane { HasLane (Fits J.meaning) ticket.to (desk_of self.old) (O.out end.old) (O.credited end.old) }
        requires room { HoldsSome ticket (desk_of self.old) → length self.old.journal.notes < self.old.journal.room }
        ensures detaches { DetachesTicket ticket (desk_of self.old) result (desk_of self.new) }
        ensures out { O.out end.new ≡ O.out end.old }
        ensures stays { StaysBeside (Fits J.meaning) ticket.to (desk_of self.old) (desk_of self.new) (O.out end.new) (O.credited end.new) }
        ensures rest { self.new ≡ record self.old { journal = self.new.journal; lanes = self.new.lanes } }
        ensures ins { (sender : ℕ) → KeepsIn sender self.old self.new }
        ensures seat { IsSameSeat self.old self.new }
        ensures sound { IsRecorded J.meaning self.new }
        ensures untouched { O.untouched end.new ≡ O.untouched end.old }
    {
        self.said.detach(end, ticket)
    }

    /// How many submissions to a core are outstanding.
    pub fn outstanding<O: OutEnd<J>>(&self, end: &O, core: CoreNo) -> u64
        requires { IsOutOf core (desk_of self.now) (O.out end.now) (O.credited end.now) }
        ensures { result ≡ outstanding_count core self.now.journal.notes }
    {
        self.said.outstanding(end, core)
    }
}
