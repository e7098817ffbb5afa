//! The outside actor: the host's part of the house that belongs to no core.
//!
//! It sends and collects as a core does, and delivers nothing. Each call that may write asks first whether its notes are free, then does what
//! a core's seat does in the same case. So a refusal changes nothing.

ghost use Rattle.std.specs.Prelude.{◌≡◌, ◌≢◌, ◌↔◌, [], IfOk, IsTrue, length};
ghost use Rattle.actor_desk.specs.Submissions.{opened_desk};
ghost use Rattle.link_ends.specs.Fits.{Fits};
ghost use Rattle.link_ring.specs.Ends.{AreFresh};
ghost use Rattle.actor_seat.specs.OutsideSeats.{IsSeatedOutside};
ghost use Rattle.host_core.specs.Jobs.{host_meaning};
ghost use Rattle.host_core.specs.Submissions.{order_of_host};
ghost use Rattle.host_house.specs.Outside.{Collects, CollectsNext, Detaches, HasRoom, Posts, Redeems, StaysOutside};
ghost use Rattle.host_house.specs.Passing.{Forgets, HandsOn};

use crate::passing::{forget, hand_on};
use actor_desk::RecordedDesk;
use actor_seat::OutsideSeat;
use base_words::{ActorNo, CoreNo, Order, Outcome, Ticket};
use host_core::told::{host_order, told_detached, told_redeemed, told_sent};
use host_core::{HostJob, Refusal};
use host_text::PassError;
use link_ring::Ends;
use note_journal::{Discard, RunningJournal};
use std::alloc::{AllocError, Global};
use std::marker::Model;

/// The outside actor at its seat: its journal, what it knows of its submissions, and its ends of the links. It receives from nobody.
#[derive(Drop)]
pub struct Outside {
    cores: u8,
    seat: OutsideSeat<HostJob>,
    /// What was passed on.
    passed: Discard,
}

impl Model for Outside {
    ghost use Rattle.host_house.specs.Outside.{CallerView};

    ghost Value = { CallerView };

    ghost use Rattle.std.specs.Prelude.{◌≡◌};

    ghost view = { λ o. o.seat };

    ghost invariant = { λ o. (o.cores ≡ o.seat.desk.cores) × (o.passed ≡ o.seat.desk.journal.passed) };
}

impl Outside {
    /// Opens the outside actor over its ends of links that were just opened. It writes to the memory of all notes.
    pub(crate) fn open(
        alloc: Global,
        ends: Ends<HostJob>,
        cores: u8,
        cap: u16,
        burst: u8,
        room: u32,
    ) -> Result<Self, AllocError>
        requires outs { length ends.outs ≡ cores }
        requires fresh { AreFresh cap cores ends }
        ensures desk { IfOk result (λ outside. outside.desk ≡ opened_desk cores cores cap room burst) }
        ensures ends { IfOk result (λ outside. outside.ends ≡ ends) }
    {
        let mut desk = RecordedDesk::open_burst(alloc, ActorNo(cores), cores, cap, burst, room)?;
        desk.prefault();
        Ok(Outside {
            cores,
            seat: OutsideSeat::of(desk, ends),
            passed: Discard::new(),
        })
    }

    /// The number of this actor, which is the count of the cores.
    pub fn number(&self) -> ActorNo
        ensures { result ≡ self.now.desk.cores }
    {
        ActorNo(self.cores)
    }

    /// Whether there is room for so many notes.
    fn has_room(&self, count: u16) -> bool
        ensures { IsTrue result ↔ HasRoom count self.now }
    {
        u32::from(count) <= self.seat.journal().free()
    }

    /// Sends an order to a core, with the host's number of its job.
    ///
    /// # Errors
    ///
    /// Tried in this order: `NoCore`; `JournalFull` where no note is free; `Closed`, `Full` and `Spent`, as the link.
    pub fn submit(&mut self, to: CoreNo, order: Order<u64>) -> Result<Ticket, Refusal>
        ensures posts { Posts to (order_of_host order) self.old result self.new }
        ensures stays { StaysOutside self.old self.new }
    {
        if to.0 >= self.cores {
            return Err(Refusal::NoCore);
        }
        if !self.has_room(1) {
            return Err(Refusal::JournalFull);
        }
        let order = host_order(order);
        told_sent(self.seat.submit(to, order))
    }

    /// Collects all outcomes that the link to this core shows. How many there were.
    ///
    /// # Errors
    ///
    /// Tried in this order: `NoCore`; `JournalFull` where fewer notes are free than a link holds submissions.
    pub fn collect(&mut self, core: CoreNo) -> Result<usize, Refusal>
        ensures collects { Collects core self.old result self.new }
        ensures stays { StaysOutside self.old self.new }
    {
        if core.0 >= self.cores {
            return Err(Refusal::NoCore);
        }
        if !self.has_room(self.seat.cap()) {
            return Err(Refusal::JournalFull);
        }
        Ok(self.seat.collect_from(core))
    }

    /// Collects the next outcome that the link to this core shows, if there is one. Whether there was one.
    ///
    /// # Errors
    ///
    /// As of `collect`.
    pub fn collect_one(&mut self, core: CoreNo) -> Result<bool, Refusal>
        ensures collects { CollectsNext core self.old result self.new }
        ensures stays { StaysOutside self.old self.new }
    {
        if core.0 >= self.cores {
            return Err(Refusal::NoCore);
        }
        if !self.has_room(self.seat.cap()) {
            return Err(Refusal::JournalFull);
        }
        Ok(self.seat.collect_one(core))
    }

    /// The outcome of a submission, which is gone from then on.
    ///
    /// # Errors
    ///
    /// Tried in this order: `JournalFull` where no note is free; `Unknown`, `Gone` and `Pending`.
    pub fn redeem(&mut self, ticket: Ticket) -> Result<Outcome<HostJob, u64>, Refusal>
        ensures redeems { Redeems ticket self.old result self.new }
        ensures stays { StaysOutside self.old self.new }
    {
        if !self.has_room(1) {
            return Err(Refusal::JournalFull);
        }
        if !self.seat.knows(ticket) {
            return Err(Refusal::Unknown);
        }
        told_redeemed(self.seat.redeem(ticket))
    }

    /// Nobody will ask for the outcome of a submission.
    ///
    /// # Errors
    ///
    /// Tried in this order: `JournalFull` where no note is free; `Unknown` and `Gone`.
    pub fn detach(&mut self, ticket: Ticket) -> Result<(), Refusal>
        ensures detaches { Detaches ticket self.old result self.new }
        ensures stays { StaysOutside self.old self.new }
    {
        if !self.has_room(1) {
            return Err(Refusal::JournalFull);
        }
        if !self.seat.knows(ticket) {
            return Err(Refusal::Unknown);
        }
        told_detached(self.seat.detach(ticket))
    }

    /// Whether a link shows an outcome that wasn't seen yet: one load for each link. No clause says that the answer is right.
    pub fn shows(&self) -> bool {
        self.seat
            .ends()
            .outs
            .as_slice()
            .iter()
            .any(|end| end.shows())
    }

    /// The notes of the outside actor.
    pub fn journal(&self) -> &RunningJournal<u64>
        ensures { result.now ≡ self.now.desk.journal }
    {
        self.seat.journal()
    }

    /// Hands on the text of the notes that the journal keeps, as a core does.
    ///
    /// # Errors
    ///
    /// `Memory` if there isn't enough for the text, else `Short` if there is room for fewer bytes. Then nothing changes.
    pub fn pass_on(&mut self, alloc: Global, bytes: &mut [u8]) -> Result<u64, PassError>
        ensures { HandsOn self.old bytes.old result bytes.new self.new }
    {
        let number = self.number();
        hand_on(alloc, number, &mut self.seat, &mut self.passed, bytes)
    }

    /// Forgets the notes that the journal keeps, as a core does. How many they were.
    pub fn forget(&mut self) -> u64
        ensures { Forgets self.old result self.new }
    {
        let count = self.seat.journal().kept_count();
        forget(&mut self.seat, &mut self.passed);
        count as u64
    }

    /// Whether a note was passed on.
    pub fn has_passed(&self) -> bool
        ensures { IsTrue result ↔ (self.now.desk.journal.passed ≢ []) }
    {
        self.passed.count() > 0
    }

    /// The ends of this actor, which is given up with its notes.
    pub fn into_ends(self) -> Ends<HostJob>
        ensures ends { result ≡ self.ends }
        ensures seated { IsSeatedOutside (Fits host_meaning) self }
    {
        let Outside { seat, .. } = self;
        let (_desk, ends) = seat.into_parts();
        ends
    }

    /// The notes and the ends, which are given up.
    pub fn end(self) -> (RunningJournal<u64>, Ends<HostJob>)
        ensures journal { result.0 ≡ self.desk.journal }
        ensures ends { result.1 ≡ self.ends }
    {
        let Outside { seat, .. } = self;
        let (desk, ends) = seat.into_parts();
        (desk.into_journal(), ends)
    }
}
