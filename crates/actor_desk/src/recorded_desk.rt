//! One actor's journal, and what it knows of its submissions.
//!
//! A call changes the lane and its link, and then writes its note, so each step has one. A call that is refused writes none.
//! Whoever keeps room for the notes that are booked (collected, and redeemed or detached, of each submission) is never refused for a full journal.

ghost use Rattle.std.specs.Prelude.{◌≡◌, ◌↔◌, ℕ, ◌+◌, ◌<◌, ◌≤◌, ◌≢◌, ◌++◌, false, length, reverse, replicate, IfOk, IsTrue};
ghost use Rattle.base_words.specs.Outstanding.{outstanding_count};
ghost use Rattle.base_words.specs.declared.names.TicketError.TheVariants.{Unknown};
ghost use Rattle.base_jobs.specs.Ready.{HasReadyJob};
ghost use Rattle.link_ends.specs.Calls.{Sends};
ghost use Rattle.link_ends.specs.Fits.{Fits};
ghost use Rattle.actor_desk.specs.Lanes.{fresh_lane, IsGot, FitsSent};
ghost use Rattle.note_journal.specs.Passing.{IsAsked, KeepsRefusals, PassesOn};
ghost use Rattle.actor_desk.specs.Submissions.{opened_desk, terms_of_desk, desk_with, IsWritten, Submits, numbered};
ghost use Rattle.actor_desk.specs.Ends.{IsOutOf, KeepsOut, KeepsSent};
ghost use Rattle.actor_desk.specs.Tickets.{HasLane, KnowsLanes, StaysBeside, RefusesTicket, RedeemsTicket, DetachesTicket, CollectsFrom, GetsAll, GetsNext};
ghost use Rattle.actor_desk.specs.Spending.{Spends, HoldsSome, booked};

use crate::lane::Lane;
use base_jobs::Task;
use base_sealed::SealedVec;
use base_words::{ActorNo, CoreNo, JobId, Note, Order, Outcome, SendError, Ticket, TicketError};
use link_ends::OutEnd;
use note_journal::{Refused, RunningJournal, Sink};
use std::alloc::{AllocError, Global};
use std::marker::Model;

/// One actor's journal, which tells what it does with its submissions. The outside actor is one, and each core has one.
pub struct RecordedDesk<J: Task<Out = u64>> {
    actor: ActorNo,
    cores: u8,
    cap: u16,
    burst: u8,
    journal: RunningJournal<u64>,
    lanes: SealedVec<Lane<J>, Global>,
}

impl<J: Task<Out = u64>> Model for RecordedDesk<J> {
    ghost use Rattle.std.specs.Prelude.{ℕ};
    ghost use Rattle.actor_desk.specs.Submissions.{DeskView};

    ghost Value = { DeskView J ℕ };

    ghost use Rattle.actor_desk.specs.Submissions.{IsWritten};
    ghost use Rattle.actor_desk.specs.Tickets.{KnowsLanes};

    ghost view = { λ d. record { actor = d.actor; cores = d.cores; cap = d.cap; burst = d.burst; journal = d.journal; lanes = d.lanes.items } };

    ghost invariant = { λ d.
        IsWritten (record { actor = d.actor; cores = d.cores; cap = d.cap; burst = d.burst }) d.journal.notes
        × KnowsLanes (record { actor = d.actor; cores = d.cores; cap = d.cap; burst = d.burst; journal = d.journal; lanes = d.lanes.items }) };
}

// Written out: a derived drop is proved again in each crate above.
impl<J: Task<Out = u64>> Drop for RecordedDesk<J> {
    fn drop(self) {
        let RecordedDesk {
            actor: _,
            cores: _,
            cap: _,
            burst: _,
            journal,
            lanes,
        } = self;
        drop(journal);
        drop(lanes);
    }
}

impl<J: Task<Out = u64>> RecordedDesk<J> {
    /// Opens a journal of `room` notes for an actor, who may submit on links of this capacity to `cores` cores. Each turn of a core is a single poll.
    /// No other call has an allocator in reach.
    pub fn open(
        alloc: Global,
        actor: ActorNo,
        cores: u8,
        cap: u16,
        room: u32,
    ) -> Result<Self, AllocError>
        ensures opened { IfOk result (λ desk. desk ≡ opened_desk actor cores cap room 1) }
        ensures written { IfOk result (λ desk. IsWritten (terms_of_desk desk) desk.journal.notes) }
    {
        Self::open_burst(alloc, actor, cores, cap, 1, room)
    }

    /// The same, where each turn of a core may have `burst` polls.
    pub fn open_burst(
        alloc: Global,
        actor: ActorNo,
        cores: u8,
        cap: u16,
        burst: u8,
        room: u32,
    ) -> Result<Self, AllocError>
        ensures opened { IfOk result (λ desk. desk ≡ opened_desk actor cores cap room burst) }
        ensures written { IfOk result (λ desk. IsWritten (terms_of_desk desk) desk.journal.notes) }
    {
        let lanes = open_lanes(alloc, cores, cap)?;
        let journal = RunningJournal::try_with_room(alloc, room)?;
        Ok(RecordedDesk {
            actor,
            cores,
            cap,
            burst,
            journal,
            lanes,
        })
    }

    /// How many submissions to one core may be outstanding.
    pub fn cap(&self) -> u16
        ensures { result ≡ self.now.cap }
    {
        self.cap
    }

    /// How many polls a turn of a core may have.
    pub fn burst(&self) -> u8
        ensures { result ≡ self.now.burst }
    {
        self.burst
    }

    /// The notes of this actor.
    pub fn journal(&self) -> &RunningJournal<u64>
        ensures { result.now ≡ self.now.journal }
    {
        &self.journal
    }

    /// Writes to the memory of all notes that there may be. Nothing is noted.
    pub fn prefault(&mut self)
        ensures { self.new ≡ self.old }
    {
        self.journal.prefault();
    }

    /// Hands all notes that are kept to the sink, so that their places are free again. A sink that refuses leaves all as it was.
    ///
    /// # Errors
    ///
    /// `Refused` where the sink refuses.
    pub fn pass_on<S: Sink>(&mut self, sink: &mut S) -> Result<(), Refused>
        requires { S.has sink.old ≡ self.old.journal.passed }
        ensures passes { PassesOn S.has S.refused self.old.journal sink.old result self.new.journal sink.new }
        ensures refusals { KeepsRefusals S.refused sink.old sink.new }
        ensures asked { IsAsked (S.asks sink.old) (S.asks sink.new) }
        ensures marked { S.mark sink.new ≡ S.mark sink.old }
        ensures rest { self.new ≡ record self.old { journal = self.new.journal } }
    {
        self.journal.pass_on(sink)
    }

    /// The notes alone.
    pub fn into_journal(self) -> RunningJournal<u64>
        ensures { result ≡ self.journal }
    {
        let RecordedDesk {
            actor: _,
            cores: _,
            cap: _,
            burst: _,
            journal,
            lanes,
        } = self;
        drop(lanes);
        journal
    }

    /// Sends an order to this core, on the end that is lent, and notes it if it is accepted.
    ///
    /// # Errors
    ///
    /// Those of the link: `Closed`, `Full` and `Spent`, tried in this order. The order comes back, and nothing is noted.
    #[inline(always)]
    pub fn submit<O: OutEnd<J>>(
        &mut self,
        end: &mut O,
        to: CoreNo,
        order: Order<J>,
    ) -> Result<Ticket, SendError<J>>
        requires beside { IsOutOf to self.old (O.out end.old) (O.credited end.old) }
        requires lane { HasLane (Fits J.meaning) to self.old (O.out end.old) (O.credited end.old) }
        requires room { length self.old.journal.notes < self.old.journal.room }
        requires ready { HasReadyJob J.meaning order }
        ensures submits { Submits to order self.old result self.new }
        ensures sends { Sends (O.out end.old) (O.credited end.old) order (O.out end.new) (numbered result) }
        ensures credited { O.credited end.new ≡ O.credited end.old }
        ensures stays { StaysBeside (Fits J.meaning) to self.old self.new (O.out end.new) (O.credited end.new) }
        ensures spends { IfOk result (λ _. Spends to 3 self.old self.new) }
        ensures untouched { O.untouched end.new ≡ O.untouched end.old }
    {
        let what = order.without_job();
        let lane = &mut self.lanes[to.0 as usize];
        match lane.submit(end, order) {
            Ok(number) => {
                let from = self.actor;
                let ticket = Ticket::named(JobId { from, to, number });
                self.journal.push(Note::Sent(ticket.name(), what));
                Ok(ticket)
            }
            Err(error) => Err(error),
        }
    }

    /// Collects all outcomes that the link of a core shows, and notes each. How many there were.
    #[inline(always)]
    pub fn collect_from<O: OutEnd<J>>(&mut self, end: &mut O, core: CoreNo) -> usize
        requires beside { IsOutOf core self.old (O.out end.old) (O.credited end.old) }
        requires lane { HasLane (Fits J.meaning) core self.old (O.out end.old) (O.credited end.old) }
        requires room { length self.old.journal.notes + length (O.out end.old).sent ≤ self.old.journal.room + (O.out end.old).got }
        ensures collects { CollectsFrom core self.old result self.new }
        ensures books { booked self.new ≡ booked self.old }
        ensures few { length self.new.journal.notes ≤ length self.old.journal.notes + self.old.cap }
        ensures end { GetsAll (O.out end.old) (O.out end.new) }
        ensures stays { StaysBeside (Fits J.meaning) core self.old self.new (O.out end.new) (O.credited end.new) }
        ensures untouched { O.untouched end.new ≡ O.untouched end.old }
    {
        let _lanes = &self.lanes;
        let mut count = 0;
        while self.collect_one(end, core) {
            count += 1;
        }
        count
    }

    /// Collects the next outcome that the link of a core shows, if there is one, and notes it. Whether there was one.
    #[inline(always)]
    pub fn collect_one<O: OutEnd<J>>(&mut self, end: &mut O, core: CoreNo) -> bool
        requires beside { IsOutOf core self.old (O.out end.old) (O.credited end.old) }
        requires lane { HasLane (Fits J.meaning) core self.old (O.out end.old) (O.credited end.old) }
        requires room { length self.old.journal.notes + length (O.out end.old).sent ≤ self.old.journal.room + (O.out end.old).got }
        ensures gets { GetsNext core self.old self.new (O.out end.old) (O.out end.new) result }
        ensures books { booked self.new ≡ booked self.old }
        ensures stays { StaysBeside (Fits J.meaning) core self.old self.new (O.out end.new) (O.credited end.new) }
        ensures untouched { O.untouched end.new ≡ O.untouched end.old }
    {
        let from = self.actor;
        let lane = &mut self.lanes[core.0 as usize];
        match lane.collect_told(end, from, core) {
            Some((name, told)) => {
                self.journal.push(Note::Collected(name, told));
                true
            }
            None => false,
        }
    }

    /// Whether a ticket is this actor's, and there is a core of its number. Only then is there an end to lend; any other ticket is `Unknown`.
    pub fn knows(&self, ticket: Ticket) -> bool
        ensures knows { IsTrue result ↔ ((ticket.from ≡ self.now.actor) × (ticket.to < self.now.cores)) }
        ensures unknown { result ≡ false → RefusesTicket ticket Unknown self.now.journal.notes }
    {
        let name = ticket.name();
        name.from == self.actor && name.to.0 < self.cores
    }

    /// The outcome of a submission, which is gone from then on, and noted as redeemed. Its place of the link is free.
    ///
    /// # Errors
    ///
    /// `Unknown` where nothing was accepted under the name; `Gone` where it was redeemed or detached before; `Pending` where its outcome
    /// isn't collected yet. Nothing changes.
    #[inline(always)]
    pub fn redeem<O: OutEnd<J>>(
        &mut self,
        end: &mut O,
        ticket: Ticket,
    ) -> Result<Outcome<J, u64>, TicketError>
        requires beside { IsOutOf ticket.to self.old (O.out end.old) (O.credited end.old) }
        requires lane { HasLane (Fits J.meaning) ticket.to self.old (O.out end.old) (O.credited end.old) }
        requires room { HoldsSome ticket self.old → length self.old.journal.notes < self.old.journal.room }
        ensures redeems { RedeemsTicket ticket self.old result self.new }
        ensures given { IfOk result (IsGot (O.out end.old) ticket.number) }
        ensures fits { IfOk result (FitsSent (Fits J.meaning) (O.out end.old) ticket.number) }
        ensures out { O.out end.new ≡ O.out end.old }
        ensures stays { StaysBeside (Fits J.meaning) ticket.to self.old self.new (O.out end.new) (O.credited end.new) }
        ensures spends { IfOk result (λ _. Spends ticket.to 0 self.old self.new) }
        ensures untouched { O.untouched end.new ≡ O.untouched end.old }
    {
        let name = ticket.name();
        if name.from != self.actor {
            return Err(TicketError::Unknown);
        }
        let lane = &mut self.lanes[name.to.0 as usize];
        match lane.redeem(end, name.number) {
            Ok(outcome) => {
                self.journal.push(Note::Redeemed(name, outcome.note()));
                Ok(outcome)
            }
            Err(error) => Err(error),
        }
    }

    /// Nobody will ask for the outcome of a submission. It is dropped, at once or when it is collected, and that frees its place of the link.
    ///
    /// # Errors
    ///
    /// `Unknown` and `Gone`, as `redeem`. Nothing changes.
    pub fn detach<O: OutEnd<J>>(&mut self, end: &mut O, ticket: Ticket) -> Result<(), TicketError>
        requires beside { IsOutOf ticket.to self.old (O.out end.old) (O.credited end.old) }
        requires lane { HasLane (Fits J.meaning) ticket.to self.old (O.out end.old) (O.credited end.old) }
        requires room { HoldsSome ticket self.old → length self.old.journal.notes < self.old.journal.room }
        ensures detaches { DetachesTicket ticket self.old result self.new }
        ensures out { O.out end.new ≡ O.out end.old }
        ensures stays { StaysBeside (Fits J.meaning) ticket.to self.old self.new (O.out end.new) (O.credited end.new) }
        ensures spends { IfOk result (λ _. Spends ticket.to 0 self.old self.new) }
        ensures untouched { O.untouched end.new ≡ O.untouched end.old }
    {
        let name = ticket.name();
        if name.from != self.actor {
            return Err(TicketError::Unknown);
        }
        let lane = &mut self.lanes[name.to.0 as usize];
        match lane.detach(end, name.number) {
            Ok(()) => {
                self.journal.push(Note::Detached(name));
                Ok(())
            }
            Err(error) => Err(error),
        }
    }

    /// How many submissions to a core are outstanding.
    pub fn outstanding<O: OutEnd<J>>(&self, end: &O, core: CoreNo) -> u64
        requires { IsOutOf core self.now (O.out end.now) (O.credited end.now) }
        ensures { result ≡ outstanding_count core self.now.journal.notes }
    {
        let _core = core;
        end.outstanding()
    }

    /// For the proofs alone: the lanes know what the journal says.
    pub fn see_lanes(&self)
        ensures known { KnowsLanes self.now }
        ensures written { IsWritten (terms_of_desk self.now) self.now.journal.notes }
    {
        let _lanes = &self.lanes;
    }

    /// Adds these notes one after another, so that the last of them is the newest. None of them is of a submission.
    #[inline(always)]
    pub fn write(&mut self, notes: &[Note<u64>])
        requires room { length self.old.journal.notes + length notes.now ≤ self.old.journal.room }
        requires written { IsWritten (terms_of_desk self.old) (reverse notes.now ++ self.old.journal.notes) }
        requires sent { KeepsSent self.old.journal.notes (reverse notes.now ++ self.old.journal.notes) }
        ensures { self.new ≡ desk_with (reverse notes.now) self.old }
    {
        self.journal.push_all(notes);
    }
}

/// A lane for each core, with room for so many submissions.
fn open_lanes<J: Task<Out = u64>>(
    alloc: Global,
    cores: u8,
    cap: u16,
) -> Result<SealedVec<Lane<J>, Global>, AllocError>
    ensures { IfOk result (λ lanes. lanes.items ≡ replicate cores (fresh_lane cap)) }
{
    let mut lanes = Vec::with_capacity(alloc, cores as usize)?;
    for _ in 0..cores {
        lanes.push_reserved(Lane::open(alloc, cap)?);
    }
    Ok(SealedVec::sealed(lanes))
}
