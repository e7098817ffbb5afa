//! A core beside its journal, over any ends of links.
//!
//! Each call makes a step of the core, and writes the notes of that step at once. So core and journal agree between any two calls.
//!
//! - `said` is the desk of this actor beside the journal of all it did, its core's steps too.
//! - `took` has no bytes: it is the list of delivered orders, for proofs alone.
//! - Ends of links aren't held here. A call that needs one is lent it for that long.
//! - A job that a pick handed back, or that a poll in its place ended, is owed its outcome: `give_back` and `give_done` give it.

ghost use Rattle.std.specs.Prelude.{◌≡◌, ℕ, ◌+◌, ◌<◌, ◌≤◌, ◌≢◌, ◌↔◌, false, length, Ok, Some, None, is_some, IsSome, IsTrue, IfOk};
ghost use Rattle.base_words.specs.Closing.{IsDrained, core_mode, final_count};
ghost use Rattle.base_words.specs.Commands.{IsOpening};
ghost use Rattle.core_core.specs.declared.turn.Ahead.TheVariants as tells;
ghost use Rattle.core_core.specs.Answers.{IsReadyTurn};
ghost use Rattle.core_core.specs.Whole.{TellsAhead};
ghost use Rattle.base_words.specs.declared.note.OutcomeNote.TheVariants.{Returned};
ghost use Rattle.base_words.specs.declared.order.Outcome.TheVariants as outcome;
ghost use Rattle.note_journal.specs.Passing.{IsAsked, KeepsRefusals, PassesOn};
ghost use Rattle.link_ends.specs.Calls.{Shuts};
ghost use Rattle.link_ends.specs.Fits.{Fits};
ghost use Rattle.actor_core.specs.Recorded.{IsRecorded, desk_of};
ghost use Rattle.actor_core.specs.Ends.{IsInOf, IsInOwing, Gives, LeavesOwed, KeepsIn, IsSameSeat};
ghost use Rattle.actor_desk.specs.Ends.{KeepsOuts};
ghost use Rattle.actor_core.specs.Steps.{opened_beside, CreatesQueue, TellsShut, ClosesItself};
ghost use Rattle.actor_core.specs.Turns.{Picks, IsBack, IsOut, IsOutUnder, IsPolled, Settles};
ghost use Rattle.actor_desk.specs.Tickets.{KnowsLanes};
ghost use Rattle.actor_core.specs.Owed.{IsSentUnder, OwesSettled, outcome_settled, owed_back};

use crate::handed::{give_if, outcome_done};
use actor_desk::RecordedDesk;
use base_jobs::{Ran, Task};
use base_sealed::History;
use base_words::{ActorNo, CoreNo, Envelope, JobId, Mode, Order, Outcome, QueueNo, Reason, Shares};
use core_core::{Core, PickError, Settled, Turn};
use core_queues::CreateError;
use link_ends::InEnd;
use note_journal::{Refused, RunningJournal, Sink};
use std::alloc::{AllocError, Allocator, Global};
use std::marker::Model;

mod deliveries;
mod further;
mod tickets;
mod whole;

/// A core and its journal.
///
/// A contract sees the core, its notes, and the orders that were delivered to it. What an end of a link is to them says `IsInOf`
/// of an end that is received from, and `IsOutOf` of an end that is sent on.
pub struct Recorded<J: Task<Out = u64>, A: Allocator + Clone = Global> {
    core: Core<J, A>,
    took: History<Envelope<J>>,
    said: RecordedDesk<J>,
}

impl<J: Task<Out = u64>, A: Allocator + Clone> Model for Recorded<J, A> {
    ghost use Rattle.std.specs.Prelude.{ℕ};
    ghost use Rattle.actor_core.specs.Recorded.{RecordedView};

    ghost Value = { RecordedView J ℕ };

    ghost use Rattle.std.specs.Prelude.{◌≡◌};
    ghost use Rattle.actor_core.specs.Recorded.{IsRecorded, desk_of};

    ghost view = { λ r. record { cap = r.said.cap; core = r.core; journal = r.said.journal; took = r.took.items; lanes = r.said.lanes } };

    ghost invariant = { λ r.
        IsRecorded J.meaning (record { cap = r.said.cap; core = r.core; journal = r.said.journal; took = r.took.items; lanes = r.said.lanes })
        × (r.said ≡ desk_of (record { cap = r.said.cap; core = r.core; journal = r.said.journal; took = r.took.items; lanes = r.said.lanes })) };
}

// Written out: a derived drop is proved again in each crate above.
impl<J: Task<Out = u64>, A: Allocator + Clone> Drop for Recorded<J, A> {
    fn drop(self) {
        let Recorded { core, took, said } = self;
        drop(core);
        drop(took);
        drop(said);
    }
}

impl<J: Task<Out = u64>, A: Allocator + Clone> Recorded<J, A> {
    /// Opens a core with queue 0 alone, for links of this capacity from `cores` cores and the outside actor, and a journal of
    /// `room` notes. The core takes its memory from `core_alloc`. Each turn is a single poll.
    pub fn open(
        alloc: Global,
        core_alloc: A,
        core: CoreNo,
        cores: u8,
        cap: u16,
        room: u32,
    ) -> Result<Self, AllocError>
        requires { core < cores }
        ensures opened { IfOk result (λ recorded. recorded ≡ opened_beside core cores cap room 1) }
        ensures sound { IfOk result (λ recorded. IsRecorded J.meaning recorded) }
    {
        Self::open_burst(alloc, core_alloc, core, cores, cap, 1, room)
    }

    /// The same, where each turn may have `burst` polls.
    pub fn open_burst(
        alloc: Global,
        core_alloc: A,
        core: CoreNo,
        cores: u8,
        cap: u16,
        burst: u8,
        room: u32,
    ) -> Result<Self, AllocError>
        requires { core < cores }
        ensures opened { IfOk result (λ recorded. recorded ≡ opened_beside core cores cap room burst) }
        ensures sound { IfOk result (λ recorded. IsRecorded J.meaning recorded) }
    {
        let said = RecordedDesk::open_burst(alloc, ActorNo(core.0), cores, cap, burst, room)?;
        let core = Core::open_burst(core_alloc, core, cores, cap, burst)?;
        Ok(Recorded {
            core,
            took: History::new(),
            said,
        })
    }

    /// The notes of this actor.
    pub fn journal(&self) -> &RunningJournal<u64>
        ensures { result.now ≡ self.now.journal }
    {
        self.said.journal()
    }

    /// Writes to the memory of all notes that there may be. Nothing is noted.
    pub fn prefault(&mut self)
        ensures { self.new ≡ self.old }
    {
        self.said.prefault();
    }

    /// Hands all notes that are kept to the sink, so that their places are free again. A sink that refuses leaves all as it was.
    ///
    /// # Errors
    ///
    /// `Refused` where the sink refuses.
    pub fn pass_on<S: Sink>(&mut self, sink: &mut S) -> Result<(), Refused>
        requires { S.has sink.old ≡ self.old.journal.passed }
        ensures passes { PassesOn S.has S.refused self.old.journal sink.old result self.new.journal sink.new }
        ensures refusals { KeepsRefusals S.refused sink.old sink.new }
        ensures asked { IsAsked (S.asks sink.old) (S.asks sink.new) }
        ensures marked { S.mark sink.new ≡ S.mark sink.old }
        ensures rest { self.new ≡ record self.old { journal = self.new.journal } }
        ensures sound { IsRecorded J.meaning self.new }
    {
        self.said.pass_on(sink)
    }

    /// The notes alone.
    pub fn into_journal(self) -> RunningJournal<u64>
        ensures { result ≡ self.journal }
    {
        let Recorded { core, took, said } = self;
        drop(core);
        drop(took);
        said.into_journal()
    }

    /// The core, which tells of itself what the notes say.
    pub fn core(&self) -> &Core<J, A>
        ensures { result.now ≡ self.now.core }
    {
        &self.core
    }

    /// Makes a queue before anything else is done.
    ///
    /// # Errors
    ///
    /// `TooMany` where the core has 256 queues; otherwise `Memory`. Nothing changes.
    pub fn create(&mut self, shares: Shares) -> Result<QueueNo, CreateError>
        requires opening { IsOpening self.old.journal.notes }
        requires room { length self.old.journal.notes < self.old.journal.room }
        ensures creates { CreatesQueue shares self.old result self.new }
        ensures ins { (sender : ℕ) → KeepsIn sender self.old self.new }
        ensures outs { KeepsOuts (desk_of self.old) (desk_of self.new) }
        ensures seat { IsSameSeat self.old self.new }
        ensures lanes { self.new.lanes ≡ self.old.lanes }
        ensures sound { IsRecorded J.meaning self.new }
    {
        // The shares are within their range, which the law of its journal asks.
        let _in_range = shares.get();
        let (created, notes) = self.core.create(shares);
        self.said.write(notes.as_slice());
        created
    }

    /// Shuts the gate of this sender, whose end is lent, in a core that is closed. The number is that of the last order that came through.
    pub fn shut<I: InEnd<J>>(&mut self, end: &mut I, from: ActorNo) -> u64
        requires beside { IsInOf from self.old (I.inward end.old) }
        requires closed { IsSome (core_mode self.old.journal.notes) }
        requires untold { final_count from self.old.journal.notes ≡ None }
        requires room { length self.old.journal.notes < self.old.journal.room }
        ensures shuts { Shuts (I.inward end.old) (I.inward end.new) result }
        ensures tells { TellsShut self.old from result self.new }
        ensures beside { IsInOf from self.new (I.inward end.new) }
        ensures others { (sender : ℕ) → sender ≢ from → KeepsIn sender self.old self.new }
        ensures outs { KeepsOuts (desk_of self.old) (desk_of self.new) }
        ensures seat { IsSameSeat self.old self.new }
        ensures lanes { self.new.lanes ≡ self.old.lanes }
        ensures sound { IsRecorded J.meaning self.new }
        ensures untouched { I.untouched end.new ≡ I.untouched end.old }
    {
        let count = end.shut();
        let told = self.core.gate_shut(from, count);
        self.said.write(told.as_slice());
        count
    }

    /// Closes the core by itself. Whether that did anything: the first closing does, and `Return` after `Finish`.
    pub fn close(&mut self, mode: Mode) -> bool
        requires room { length self.old.journal.notes < self.old.journal.room }
        ensures closes { ClosesItself self.old mode result self.new }
        ensures ins { (sender : ℕ) → KeepsIn sender self.old self.new }
        ensures outs { KeepsOuts (desk_of self.old) (desk_of self.new) }
        ensures seat { IsSameSeat self.old self.new }
        ensures lanes { self.new.lanes ≡ self.old.lanes }
        ensures sound { IsRecorded J.meaning self.new }
    {
        let (closed, notes) = self.core.close(mode);
        self.said.write(notes.as_slice());
        closed
    }

    /// How many polls a turn may have.
    pub fn burst(&self) -> u8
        ensures { result ≡ self.now.core.bursts.burst }
    {
        self.said.burst()
    }

    /// How many orders of one sender may be without an outcome.
    pub fn cap(&self) -> u16
        ensures cap { result ≡ self.now.cap }
        ensures known { KnowsLanes (desk_of self.now) }
        ensures sound { IsRecorded J.meaning self.now }
    {
        self.said.see_lanes();
        self.said.cap()
    }

    /// Whether the core is closed, in either mode.
    pub fn is_closed(&self) -> bool
        ensures { result ≡ is_some (core_mode self.now.journal.notes) }
    {
        self.core.is_closed()
    }

    /// The final count of this sender's gate, if it is shut.
    pub fn gate(&self, from: ActorNo) -> Option<u64>
        requires { from ≤ self.now.core.cores }
        ensures { result ≡ final_count from self.now.journal.notes }
    {
        self.core.gate(from)
    }

    /// Whether every gate is shut, all behind it was delivered, no queue has work, and no job is parked.
    pub fn is_drained(&self) -> bool
        ensures { IsTrue result ↔ IsDrained self.now.core.cores self.now.journal.notes }
    {
        self.core.is_drained()
    }

    /// Picks the queue of least virtual runtime, then least number, and takes its first job out, or hands it back if the queue or the
    /// core is closed so. A job that `ahead` told to go back is handed back.
    ///
    /// # Errors
    ///
    /// `Busy` where a job is out or a turn is open; otherwise `Spent` where all turns are used and a queue has work. Nothing changes.
    pub fn pick(&mut self) -> Result<Turn<J>, PickError>
        requires room { length self.old.journal.notes + 2 ≤ self.old.journal.room }
        ensures picks { Picks J.meaning self.old result self.new }
        ensures ready { IsReadyTurn J.meaning result }
        ensures back { TellsAhead self.old.core (Ok tells.Back) → IsBack result }
        ensures ins { (sender : ℕ) → LeavesOwed sender (owed_back result sender) self.old self.new }
        ensures outs { KeepsOuts (desk_of self.old) (desk_of self.new) }
        ensures seat { IsSameSeat self.old self.new }
        ensures lanes { self.new.lanes ≡ self.old.lanes }
        ensures sound { IsRecorded J.meaning self.new }
    {
        // An error is told ahead. If there is none, a turn is left for each queue that has work.
        if let Err(error) = self.core.ahead() {
            return Err(error);
        }
        let (picked, notes) = self.core.pick();
        self.said.write(notes.as_slice());
        picked
    }

    /// Gives the outcome of a job that a pick handed back, on the end of its sender, before the next pick.
    pub fn give_back<I: InEnd<J>>(&self, end: &mut I, name: JobId, reason: Reason, order: Order<J>)
        requires owed { IsInOwing name.from (Some (name, Returned reason)) self.now (I.inward end.old) }
        requires sent { IsSentUnder J.meaning self.now.took name order }
        ensures gives { Gives (I.inward end.old) name.number (Some (outcome.Returned reason order)) (I.inward end.new) }
        ensures beside { IsInOf name.from self.now (I.inward end.new) }
        ensures untouched { I.untouched end.new ≡ I.untouched end.old }
    {
        let _said = &self.said;
        end.give(name.number, Outcome::Returned(reason, order));
    }

    /// Settles the poll of the job that is out, and gives its outcome on the end of its sender, if it is done. If the job told no time
    /// of its own, `spent` nanoseconds count.
    pub fn settle<I: InEnd<J>>(
        &mut self,
        end: &mut I,
        name: JobId,
        ran: Ran<J>,
        spent: u64,
    ) -> Settled<u64>
        requires out { IsOut self.old.core.out ran.before }
        requires named { IsOutUnder self.old.core.out name }
        requires beside { IsInOf name.from self.old (I.inward end.old) }
        requires polled { IsPolled J.meaning ran }
        requires room { length self.old.journal.notes < self.old.journal.room }
        ensures settles { Settles J.meaning self.old ran spent result self.new }
        ensures gives { Gives (I.inward end.old) name.number (outcome_settled result) (I.inward end.new) }
        ensures beside { IsInOf name.from self.new (I.inward end.new) }
        ensures others { (sender : ℕ) → sender ≢ name.from → KeepsIn sender self.old self.new }
        ensures outs { KeepsOuts (desk_of self.old) (desk_of self.new) }
        ensures seat { IsSameSeat self.old self.new }
        ensures lanes { self.new.lanes ≡ self.old.lanes }
        ensures sound { IsRecorded J.meaning self.new }
        ensures untouched { I.untouched end.new ≡ I.untouched end.old }
    {
        let settled = self.settle_out(ran, spent);
        give_if(end, name.number, outcome_done(&settled));
        settled
    }

    /// Settles the poll of the job that is out. Its outcome is owed from then on, if it is done.
    fn settle_out(&mut self, ran: Ran<J>, spent: u64) -> Settled<u64>
        requires out { IsOut self.old.core.out ran.before }
        requires polled { IsPolled J.meaning ran }
        requires room { length self.old.journal.notes < self.old.journal.room }
        ensures settles { Settles J.meaning self.old ran spent result self.new }
        ensures owes { OwesSettled self.old result self.new }
        ensures outs { KeepsOuts (desk_of self.old) (desk_of self.new) }
        ensures seat { IsSameSeat self.old self.new }
        ensures lanes { self.new.lanes ≡ self.old.lanes }
        ensures sound { IsRecorded J.meaning self.new }
    {
        let (settled, notes) = self.core.settle(ran, spent);
        self.said.write(notes.as_slice());
        settled
    }
}
