//! A core whose jobs the host runs, over its actor's ends of the links.
//!
//! Between two calls either a job is out, which the host runs, or none is: `next` takes one out, `settle` takes its step. A call that writes notes
//! asks first that as many are free, beside the one that settles the job which is out. So that job can always be settled.

ghost use Rattle.std.specs.Prelude.{◌≡◌, ◌≢◌, ◌+◌, ◌*◌, ◌^◌, ◌<◌, ◌≤◌, ◌↔◌, [], IsSome, IsTrue, length};
ghost use Rattle.arrayvec.specs.ArrayVec.{array_vec_len};
ghost use Rattle.base_words.specs.Closing.{IsDrained};
ghost use Rattle.core_queues.specs.Queues.{queue_count};
ghost use Rattle.actor_core.specs.Stats.{TellsCore, TellsQueues};
ghost use Rattle.actor_seat.specs.Linked.{StaysLinked};
ghost use Rattle.host_core.specs.Hosted.{HasRoom, IsAtRest, IsHosted};
ghost use Rattle.host_core.specs.Links.{Closes, Collects, CollectsNext, Hears, Shuts};
ghost use Rattle.host_core.specs.Passing.{Forgets, HandsOn};
ghost use Rattle.host_core.specs.Submissions.{Detaches, Posts, Redeems, order_of_host};
ghost use Rattle.host_core.specs.Turns.{Follows, Nexts, SettlesStep};

use crate::answers::{Picked, Refusal};
use crate::job::HostJob;
use crate::passing::{forget, hand_on};
use crate::told::{host_order, told_detached, told_redeemed, told_sent};
use crate::turns::{Run, go_further, go_on};
use crate::word::poll_told;
use actor_core::{RunningJournal, told_stats_within};
use actor_seat::Seat;
use arrayvec::ArrayVec;
use base_jobs::Step;
use base_words::{ActorNo, CoreNo, CoreStats, Mode, Order, Outcome, QueueStats, Ticket};
use core_core::Settled;
use host_text::PassError;
use note_journal::Discard;
use std::alloc::Global;
use std::marker::Model;

mod opening;
mod waking;

/// The notes that a turn may take: the end of the one before, a pick with its note, and the settling.
const TURN_NOTES: u16 = 4;

/// A core at its seat, between its journal and its actor's ends of the links, and the job of it that the host runs.
#[derive(Drop)]
pub struct Hosted {
    cores: u8,
    seat: Seat<HostJob>,
    run: Option<Run>,
    /// What was passed on.
    passed: Discard,
}

impl Model for Hosted {
    ghost use Rattle.host_core.specs.Hosted.{HostedView, IsHosted, IsRunOf};

    ghost Value = { HostedView };

    ghost use Rattle.std.specs.Prelude.{◌≡◌};

    ghost view = { λ h. h.seat };

    ghost invariant = { λ h.
        IsHosted h.seat × IsRunOf h.seat.recorded.core.out h.run × (h.cores ≡ h.seat.recorded.core.cores) × (h.passed ≡ h.seat.recorded.journal.passed) };
}

impl Hosted {
    /// The number of the core.
    pub fn number(&self) -> CoreNo
        ensures { result ≡ self.now.recorded.core.core }
    {
        CoreNo(self.actor().0)
    }

    /// The number of the core, as that of an actor.
    fn actor(&self) -> ActorNo
        ensures { result ≡ self.now.recorded.core.core }
    {
        self.seat.actor()
    }

    /// Whether there is room for so many notes, beside the one that settles the job that is out.
    fn has_room(&self, count: u16) -> bool
        ensures { IsTrue result ↔ HasRoom count self.now.recorded }
    {
        let kept: u64 = if self.run.is_some() { 1 } else { 0 };
        kept + u64::from(count) <= u64::from(self.seat.recorded().journal().free())
    }

    /// Makes the next turn: a job goes out for the host to run it, or is handed back to its sender.
    ///
    /// # Errors
    ///
    /// Tried in this order: `Busy` while the host runs a job of this core; `JournalFull` where fewer than four notes are free; `Spent` where all
    /// turns are used and a queue has work. With `Spent` an open turn may have ended; else nothing changes.
    pub fn next(&mut self) -> Result<Picked, Refusal>
        ensures nexts { Nexts self.old result self.new }
        ensures stays { StaysLinked self.old self.new }
        ensures hosted { IsHosted self.new }
    {
        if self.run.is_some() {
            return Err(Refusal::Busy);
        }
        if !self.has_room(TURN_NOTES) {
            return Err(Refusal::JournalFull);
        }
        let (told, run) = go_on(&mut self.seat);
        self.run = run;
        told
    }

    /// Goes on with the open turn: a job goes out for the host to run it. If the turn may not go on, it ends. None where no turn is open then.
    ///
    /// # Errors
    ///
    /// `Busy` and `JournalFull`, as `next`.
    pub fn follow(&mut self) -> Result<Option<Picked>, Refusal>
        ensures follows { Follows self.old result self.new }
        ensures stays { StaysLinked self.old self.new }
        ensures hosted { IsHosted self.new }
    {
        if self.run.is_some() {
            return Err(Refusal::Busy);
        }
        if !self.has_room(TURN_NOTES) {
            return Err(Refusal::JournalFull);
        }
        let (told, run) = go_further(&mut self.seat);
        self.run = run;
        Ok(told)
    }

    /// Settles the run that the host made of the job that is out: what it came to, and how many nanoseconds it took.
    ///
    /// # Errors
    ///
    /// `NoJob` if the host runs no job of this core.
    pub fn settle(&mut self, step: Step<u64>, spent: u64) -> Result<Settled<u64>, Refusal>
        ensures settles { SettlesStep self.old step spent result self.new }
        ensures stays { StaysLinked self.old self.new }
        ensures hosted { IsHosted self.new }
    {
        let Some(run) = self.run.take() else {
            return Err(Refusal::NoJob);
        };
        let Run { name, job } = run;
        let ran = poll_told(job, step);
        Ok(self.seat.settle(name, ran, spent))
    }

    /// Delivers the next order of this sender, if one shows. Whether there was one. The host may run a job meanwhile.
    ///
    /// # Errors
    ///
    /// Tried in this order: `NoActor`; `JournalFull` where fewer than two notes are free.
    pub fn deliver(&mut self, sender: ActorNo) -> Result<bool, Refusal>
        ensures hears { Hears sender self.old result self.new }
        ensures stays { StaysLinked self.old self.new }
        ensures hosted { IsHosted self.new }
    {
        if sender.0 > self.cores {
            return Err(Refusal::NoActor);
        }
        if !self.has_room(2) {
            return Err(Refusal::JournalFull);
        }
        Ok(self.seat.deliver(sender))
    }

    /// Collects all outcomes that the link to this core shows. How many there were.
    ///
    /// # Errors
    ///
    /// Tried in this order: `NoCore`; `JournalFull` where fewer notes are free than a link holds submissions.
    pub fn collect(&mut self, core: CoreNo) -> Result<usize, Refusal>
        ensures collects { Collects core self.old result self.new }
        ensures stays { StaysLinked self.old self.new }
        ensures hosted { IsHosted self.new }
    {
        if core.0 >= self.cores {
            return Err(Refusal::NoCore);
        }
        if !self.has_room(self.seat.recorded().cap()) {
            return Err(Refusal::JournalFull);
        }
        Ok(self.seat.collect_from(core))
    }

    /// Collects the next outcome that the link to this core shows, if there is one. Whether there was one.
    ///
    /// # Errors
    ///
    /// As of `collect`.
    pub fn collect_one(&mut self, core: CoreNo) -> Result<bool, Refusal>
        ensures collects { CollectsNext core self.old result self.new }
        ensures stays { StaysLinked self.old self.new }
        ensures hosted { IsHosted self.new }
    {
        if core.0 >= self.cores {
            return Err(Refusal::NoCore);
        }
        if !self.has_room(self.seat.recorded().cap()) {
            return Err(Refusal::JournalFull);
        }
        Ok(self.seat.collect_one(core))
    }

    /// Shuts the gate of this sender.
    ///
    /// # Errors
    ///
    /// Tried in this order: `NoActor`; `Open` if the core isn't closed; `Shut` if the gate was shut before; `JournalFull`.
    pub fn shut(&mut self, sender: ActorNo) -> Result<(), Refusal>
        ensures shuts { Shuts sender self.old result self.new }
        ensures stays { StaysLinked self.old self.new }
        ensures hosted { IsHosted self.new }
    {
        if sender.0 > self.cores {
            return Err(Refusal::NoActor);
        }
        if !self.seat.recorded().is_closed() {
            return Err(Refusal::Open);
        }
        if self.seat.recorded().gate(sender).is_some() {
            return Err(Refusal::Shut);
        }
        if !self.has_room(1) {
            return Err(Refusal::JournalFull);
        }
        self.seat.shut(sender);
        Ok(())
    }

    /// Closes the core by itself. Whether that did anything: the first closing does, and `Return` after `Finish`.
    ///
    /// # Errors
    ///
    /// `JournalFull` where no note is free.
    pub fn close(&mut self, mode: Mode) -> Result<bool, Refusal>
        ensures closes { Closes mode self.old result self.new }
        ensures stays { StaysLinked self.old self.new }
        ensures hosted { IsHosted self.new }
    {
        if !self.has_room(1) {
            return Err(Refusal::JournalFull);
        }
        Ok(self.seat.close(mode))
    }

    /// Sends an order to a core, this one or another, with the host's number of its job. A job that the host runs may do so.
    ///
    /// # Errors
    ///
    /// Tried in this order: `NoCore`; `JournalFull` where no note is free; `Closed`, `Full` and `Spent`, as the link.
    pub fn submit(&mut self, to: CoreNo, order: Order<u64>) -> Result<Ticket, Refusal>
        ensures posts { Posts to (order_of_host order) self.old result self.new }
        ensures stays { StaysLinked self.old self.new }
        ensures hosted { IsHosted self.new }
    {
        if to.0 >= self.cores {
            return Err(Refusal::NoCore);
        }
        if !self.has_room(1) {
            return Err(Refusal::JournalFull);
        }
        let order = host_order(order);
        told_sent(self.seat.submit(to, order))
    }

    /// The outcome of a submission, which is gone from then on.
    ///
    /// # Errors
    ///
    /// Tried in this order: `JournalFull` where no note is free; `Unknown`, `Gone` and `Pending`.
    pub fn redeem(&mut self, ticket: Ticket) -> Result<Outcome<HostJob, u64>, Refusal>
        ensures redeems { Redeems ticket self.old result self.new }
        ensures stays { StaysLinked self.old self.new }
        ensures hosted { IsHosted self.new }
    {
        if !self.has_room(1) {
            return Err(Refusal::JournalFull);
        }
        told_redeemed(self.seat.redeem(ticket))
    }

    /// Nobody will ask for the outcome of a submission.
    ///
    /// # Errors
    ///
    /// Tried in this order: `JournalFull` where no note is free; `Unknown` and `Gone`.
    pub fn detach(&mut self, ticket: Ticket) -> Result<(), Refusal>
        ensures detaches { Detaches ticket self.old result self.new }
        ensures stays { StaysLinked self.old self.new }
        ensures hosted { IsHosted self.new }
    {
        if !self.has_room(1) {
            return Err(Refusal::JournalFull);
        }
        told_detached(self.seat.detach(ticket))
    }

    /// Whether a link shows an order or an outcome that wasn't seen yet: one load for each link. No clause says that the answer is right.
    pub fn shows(&self) -> bool {
        self.seat.shows()
    }

    /// Whether the host runs no job of this core, and no turn of it is open.
    pub fn is_at_rest(&self) -> bool
        ensures { IsTrue result ↔ IsAtRest self.now.recorded }
    {
        !self.run.is_some() && !self.seat.recorded().has_open_turn()
    }

    /// Whether the core has come to its end: the host runs no job of it, no turn is open, every gate is shut, all behind it was delivered, no
    /// queue has work, and no job is parked.
    pub fn is_drained(&self) -> bool
        ensures { IsTrue result ↔ (IsAtRest self.now.recorded × IsDrained self.now.recorded.core.cores self.now.recorded.journal.notes) }
    {
        self.is_at_rest() && self.seat.recorded().is_drained()
    }

    /// How many queues there are.
    pub fn queue_count(&self) -> u16
        ensures value { result ≡ queue_count self.now.recorded.core.queues }
        ensures few { result ≤ 256 }
    {
        self.seat.recorded().core().queue_count()
    }

    /// The numbers of the core and of its queues, by number, with places for so many queues. Times are in nanoseconds.
    pub fn stats<const N: usize>(&self) -> (CoreStats, ArrayVec<QueueStats, N>)
        requires few { queue_count self.now.recorded.core.queues ≤ N }
        ensures core { TellsCore self.now.recorded.core.cores self.now.recorded.journal.notes result.0 }
        ensures queues { length self.now.recorded.journal.notes < 2 ^ 64 → TellsQueues self.now.recorded.core.bursts.burst self.now.recorded.journal.notes (array_vec_len result.1) result.1.items }
    {
        told_stats_within(self.seat.recorded())
    }

    /// Whether the host runs a job of this core.
    pub fn is_running(&self) -> bool
        ensures { IsTrue result ↔ IsSome self.now.recorded.core.out }
    {
        self.run.is_some()
    }

    /// How the core is closed, if it is.
    pub fn mode(&self) -> Option<Mode>
        ensures { result ≡ self.now.recorded.core.mode }
    {
        self.seat.recorded().core().mode()
    }

    /// For how many jobs there is room.
    pub fn room(&self) -> u64
        ensures { result ≡ (self.now.recorded.core.cores + 1) * self.now.recorded.cap }
    {
        (u64::from(self.cores) + 1) * u64::from(self.seat.recorded().cap())
    }

    /// The notes of this core.
    pub fn journal(&self) -> &RunningJournal<u64>
        ensures { result.now ≡ self.now.recorded.journal }
    {
        self.seat.recorded().journal()
    }

    /// Hands on the text of the notes that the journal keeps, in the form of the journal text. It keeps none of them from then on, and has as many
    /// places free as it may keep. How many bytes the text has. The host may run a job meanwhile.
    ///
    /// # Errors
    ///
    /// `Memory` if there isn't enough for the text, else `Short` if there is room for fewer bytes. Then nothing changes.
    pub fn pass_on(&mut self, alloc: Global, bytes: &mut [u8]) -> Result<u64, PassError>
        ensures hands { HandsOn self.old bytes.old result bytes.new self.new }
        ensures hosted { IsHosted self.new }
    {
        let number = self.actor();
        hand_on(alloc, number, &mut self.seat, &mut self.passed, bytes)
    }

    /// Forgets the notes that the journal keeps: they are handed on to nobody. It has as many places free then as it may keep. How many notes they
    /// were. The host may run a job meanwhile.
    pub fn forget(&mut self) -> u64
        ensures forgets { Forgets self.old result self.new }
        ensures hosted { IsHosted self.new }
    {
        let count = self.seat.recorded().journal().kept_count();
        forget(&mut self.seat, &mut self.passed);
        count as u64
    }

    /// Whether a note was passed on.
    pub fn has_passed(&self) -> bool
        ensures { IsTrue result ↔ (self.now.recorded.journal.passed ≢ []) }
    {
        self.passed.count() > 0
    }
}
