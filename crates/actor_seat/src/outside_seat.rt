//! The outside actor at its seat: its journal beside its end to each core.
//!
//! One thread owns it. The links are all that it shares with a core: it writes orders there and reads outcomes, and has no other way in.

ghost use Rattle.std.specs.Prelude.{◌≡◌, ◌↔◌, ◌+◌, ◌<◌, ◌≤◌, IfOk, OnErr, IsTrue, false, length};
ghost use Rattle.base_words.specs.Outstanding.{outstanding_count};
ghost use Rattle.base_words.specs.declared.names.TicketError.TheVariants.{Unknown};
ghost use Rattle.base_jobs.specs.Ready.{HasReadyJob};
ghost use Rattle.link_ends.specs.Calls.{Sends};
ghost use Rattle.link_ends.specs.Fits.{Fits};
ghost use Rattle.actor_desk.specs.Lanes.{FitsSent, IsGot};
ghost use Rattle.note_journal.specs.Passing.{IsAsked, KeepsRefusals, PassesOn};
ghost use Rattle.actor_desk.specs.Spending.{HoldsSome, Spends, booked};
ghost use Rattle.actor_desk.specs.Submissions.{Submits, numbered};
ghost use Rattle.actor_desk.specs.Tickets.{CollectsFrom, DetachesTicket, GetsAll, GetsNext, RedeemsTicket, RefusesTicket};
ghost use Rattle.link_ring.specs.Ends.{out_at};
ghost use Rattle.actor_seat.specs.OutsideSeats.{IsSeatedOutside, UsesOutside};

use actor_desk::RecordedDesk;
use base_jobs::Task;
use base_words::{CoreNo, Order, Outcome, SendError, Ticket, TicketError};
use link_ring::Ends;
use note_journal::{Refused, RunningJournal, Sink};
use std::marker::Model;

/// The outside actor's journal, which tells what it does with its submissions, and its end of the link to each core. It receives from nobody.
#[derive(Drop)]
pub struct OutsideSeat<J: Task<Out = u64>> {
    desk: RecordedDesk<J>,
    ends: Ends<J>,
}

impl<J: Task<Out = u64>> Model for OutsideSeat<J> {
    ghost use Rattle.std.specs.Prelude.{ℕ};
    ghost use Rattle.actor_seat.specs.OutsideSeats.{OutsideView};

    ghost Value = { OutsideView J ℕ };

    ghost use Rattle.link_ends.specs.Fits.{Fits};
    ghost use Rattle.actor_seat.specs.OutsideSeats.{IsSeatedOutside};

    ghost view = { λ s. record { desk = s.desk; ends = s.ends } };

    ghost invariant = { λ s. IsSeatedOutside (Fits J.meaning) (record { desk = s.desk; ends = s.ends }) };
}

impl<J: Task<Out = u64>> OutsideSeat<J> {
    /// A journal at these ends.
    pub fn of(desk: RecordedDesk<J>, ends: Ends<J>) -> Self
        requires { IsSeatedOutside (Fits J.meaning) (record { desk = desk; ends = ends }) }
        ensures is { result ≡ record { desk = desk; ends = ends } }
        ensures seated { IsSeatedOutside (Fits J.meaning) result }
    {
        OutsideSeat { desk, ends }
    }

    /// The journal, and the ends.
    pub fn into_parts(self) -> (RecordedDesk<J>, Ends<J>)
        ensures desk { result.0 ≡ self.desk }
        ensures ends { result.1 ≡ self.ends }
        ensures seated { IsSeatedOutside (Fits J.meaning) self }
    {
        let OutsideSeat { desk, ends } = self;
        (desk, ends)
    }

    /// The notes.
    pub fn journal(&self) -> &RunningJournal<u64>
        ensures { result.now ≡ self.now.desk.journal }
    {
        self.desk.journal()
    }

    /// The ends.
    pub fn ends(&self) -> &Ends<J>
        ensures { result.now ≡ self.now.ends }
    {
        &self.ends
    }

    /// How many submissions to one core may be outstanding.
    pub fn cap(&self) -> u16
        ensures cap { result ≡ self.now.desk.cap }
        ensures seated { IsSeatedOutside (Fits J.meaning) self.now }
    {
        self.desk.cap()
    }

    /// How many submissions to this core are outstanding.
    #[inline(always)]
    pub fn outstanding(&self, core: CoreNo) -> u64
        requires there { core < self.now.desk.cores }
        ensures { result ≡ outstanding_count core self.now.desk.journal.notes }
    {
        self.desk
            .outstanding(&self.ends.outs[core.0 as usize], core)
    }

    /// Whether a ticket is this actor's, and there is a core of its number. Any other ticket is `Unknown`.
    #[inline(always)]
    pub fn knows(&self, ticket: Ticket) -> bool
        ensures knows { IsTrue result ↔ ((ticket.from ≡ self.now.desk.actor) × (ticket.to < self.now.desk.cores)) }
        ensures unknown { result ≡ false → RefusesTicket ticket Unknown self.now.desk.journal.notes }
    {
        self.desk.knows(ticket)
    }

    /// Hands all notes that are kept to the sink, so that their places are free again. A sink that refuses leaves all as it was.
    ///
    /// # Errors
    ///
    /// `Refused` where the sink refuses.
    pub fn pass_on<S: Sink>(&mut self, sink: &mut S) -> Result<(), Refused>
        requires { S.has sink.old ≡ self.old.desk.journal.passed }
        ensures passes { PassesOn S.has S.refused self.old.desk.journal sink.old result self.new.desk.journal sink.new }
        ensures refusals { KeepsRefusals S.refused sink.old sink.new }
        ensures asked { IsAsked (S.asks sink.old) (S.asks sink.new) }
        ensures marked { S.mark sink.new ≡ S.mark sink.old }
        ensures rest { self.new ≡ record self.old { desk = record self.old.desk { journal = self.new.desk.journal } } }
        ensures seated { IsSeatedOutside (Fits J.meaning) self.new }
    {
        self.desk.pass_on(sink)
    }

    /// Sends an order on the end to this core, and notes it if it is accepted.
    ///
    /// # Errors
    ///
    /// Those of the link: `Closed`, `Full` and `Spent`, tried in this order. The order comes back, and nothing is noted.
    #[inline(always)]
    pub fn submit(&mut self, to: CoreNo, order: Order<J>) -> Result<Ticket, SendError<J>>
        requires there { to < self.old.desk.cores }
        requires room { length self.old.desk.journal.notes < self.old.desk.journal.room }
        requires ready { HasReadyJob J.meaning order }
        ensures submits { Submits to order self.old.desk result self.new.desk }
        ensures sends { Sends (out_at to self.old.ends).out (out_at to self.old.ends).credited order (out_at to self.new.ends).out (numbered result) }
        ensures credited { (out_at to self.new.ends).credited ≡ (out_at to self.old.ends).credited }
        ensures spends { IfOk result (λ _. Spends to 3 self.old.desk self.new.desk) }
        ensures uses { UsesOutside (Fits J.meaning) to self.old self.new }
    {
        self.desk.submit(self.ends.out_mut(to), to, order)
    }

    /// Collects all outcomes that the end to this core shows. How many there were.
    #[inline(always)]
    pub fn collect_from(&mut self, core: CoreNo) -> usize
        requires there { core < self.old.desk.cores }
        requires room { length self.old.desk.journal.notes + length (out_at core self.old.ends).out.sent ≤ self.old.desk.journal.room + (out_at core self.old.ends).out.got }
        ensures collects { CollectsFrom core self.old.desk result self.new.desk }
        ensures books { booked self.new.desk ≡ booked self.old.desk }
        ensures shown { GetsAll (out_at core self.old.ends).out (out_at core self.new.ends).out }
        ensures uses { UsesOutside (Fits J.meaning) core self.old self.new }
    {
        self.desk.collect_from(self.ends.out_mut(core), core)
    }

    /// Collects the next outcome that the end to this core shows, if there is one. Whether there was one.
    pub fn collect_one(&mut self, core: CoreNo) -> bool
        requires there { core < self.old.desk.cores }
        requires room { length self.old.desk.journal.notes + length (out_at core self.old.ends).out.sent ≤ self.old.desk.journal.room + (out_at core self.old.ends).out.got }
        ensures gets { GetsNext core self.old.desk self.new.desk (out_at core self.old.ends).out (out_at core self.new.ends).out result }
        ensures uses { UsesOutside (Fits J.meaning) core self.old self.new }
    {
        self.desk.collect_one(self.ends.out_mut(core), core)
    }

    /// The outcome of a submission, which is gone from then on.
    ///
    /// # Errors
    ///
    /// `Unknown` where nothing was accepted under the name; `Gone` where it was redeemed or detached before; `Pending` where its outcome
    /// isn't collected yet. Nothing changes.
    #[inline(always)]
    pub fn redeem(&mut self, ticket: Ticket) -> Result<Outcome<J, u64>, TicketError>
        requires there { ticket.to < self.old.desk.cores }
        requires room { HoldsSome ticket self.old.desk → length self.old.desk.journal.notes < self.old.desk.journal.room }
        ensures redeems { RedeemsTicket ticket self.old.desk result self.new.desk }
        ensures given { IfOk result (IsGot (out_at ticket.to self.old.ends).out ticket.number) }
        ensures fits { IfOk result (FitsSent (Fits J.meaning) (out_at ticket.to self.old.ends).out ticket.number) }
        ensures out { (out_at ticket.to self.new.ends).out ≡ (out_at ticket.to self.old.ends).out }
        ensures refused { OnErr result (self.new ≡ self.old) }
        ensures spends { IfOk result (λ _. Spends ticket.to 0 self.old.desk self.new.desk) }
        ensures uses { UsesOutside (Fits J.meaning) ticket.to self.old self.new }
    {
        let to = ticket.name().to;
        self.desk.redeem(self.ends.out_mut(to), ticket)
    }

    /// Nobody will ask for the outcome of a submission.
    ///
    /// # Errors
    ///
    /// `Unknown` and `Gone`, as `redeem`. Nothing changes.
    pub fn detach(&mut self, ticket: Ticket) -> Result<(), TicketError>
        requires there { ticket.to < self.old.desk.cores }
        requires room { HoldsSome ticket self.old.desk → length self.old.desk.journal.notes < self.old.desk.journal.room }
        ensures detaches { DetachesTicket ticket self.old.desk result self.new.desk }
        ensures out { (out_at ticket.to self.new.ends).out ≡ (out_at ticket.to self.old.ends).out }
        ensures refused { OnErr result (self.new ≡ self.old) }
        ensures spends { IfOk result (λ _. Spends ticket.to 0 self.old.desk self.new.desk) }
        ensures uses { UsesOutside (Fits J.meaning) ticket.to self.old self.new }
    {
        let to = ticket.name().to;
        self.desk.detach(self.ends.out_mut(to), ticket)
    }
}
