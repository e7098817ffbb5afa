//! A core beside its journal, at its actor's ends of the links.
//!
//! A seat is all that one actor with a core has: its core and journal, and one end of each of its links.
//!
//! - It belongs to one thread. The other end of each link belongs to another thread, and no call waits for it.
//! - Each call hands the end that it needs to the core, and gives what is owed on it before it returns.
//! - So between two calls no outcome is owed, and each order on a link has its note.

ghost use Rattle.std.specs.Prelude.{◌≡◌, ◌+◌, ◌<◌, ◌≤◌, None, Ok, Some, IfSome, IsSome, length, OnErr};
ghost use Rattle.core_core.specs.Answers.{IsReadyTurn};
ghost use Rattle.core_core.specs.Whole.{TellsAhead};
ghost use Rattle.base_words.specs.declared.note.OutcomeNote.TheVariants.{Returned};
ghost use Rattle.base_words.specs.Bursts.{queue_in_turn};
ghost use Rattle.base_words.specs.Closing.{core_mode, final_count};
ghost use Rattle.base_words.specs.Commands.{IsOpening};
ghost use Rattle.base_jobs.specs.Ready.{HasReadyJob};
ghost use Rattle.actor_core.specs.Owed.{IsSentUnder};
ghost use Rattle.actor_core.specs.Ends.{IsSameSeat};
ghost use Rattle.actor_core.specs.Steps.{ClosesItself, CreatesQueue};
ghost use Rattle.actor_core.specs.Turns.{EndsTurn, Follows, IsOut, IsOutUnder, IsPolled, NothingFollows, Settles};
ghost use Rattle.note_journal.specs.Passing.{IsAsked, KeepsRefusals, PassesOn};
ghost use Rattle.link_ends.specs.Ends.{SoundIn};
ghost use Rattle.link_ends.specs.Fits.{Fits};
ghost use Rattle.link_ring.specs.Ends.{SameEnds, in_at};
ghost use Rattle.actor_seat.specs.declared.seat.Taken.TheVariants as taken;
ghost use Rattle.actor_seat.specs.Linked.{AreBeside, AreOwing, IsLinked, SeesNoLess, StaysLinked};
ghost use Rattle.actor_seat.specs.Seats.{DetachesOn, IsSeated, PicksTaken, RedeemsOn, SubmitsOn};
ghost use Rattle.actor_seat.specs.Steps.{CollectsOf, CollectsOne, DeliversFrom, ShutsGate};

use actor_core::Recorded;
use base_jobs::{Ran, Task};
use base_words::{
    ActorNo, CoreNo, JobId, Mode, Order, Outcome, QueueNo, Reason, SendError, Shares, Ticket,
    TicketError,
};
use core_core::{Ahead, PickError, Settled, Turn};
use core_queues::CreateError;
use link_ends::InEnd;
use link_ring::Ends;
use note_journal::{Refused, Sink};
use std::marker::Model;

/// What a pick took out of its queue.
#[derive(Drop)]
pub enum Taken<J> {
    /// The job is out for its first poll.
    Start(JobId, QueueNo, J),
    /// The job is out for a further poll.
    Resume(JobId, QueueNo, J),
    /// The job went back to its sender.
    Back(JobId, Reason),
    /// No queue has work.
    Idle,
}

/// A core, its journal, and its actor's ends of the links. A job of it may be out, and a turn open. No outcome is owed that wasn't given.
#[derive(Drop)]
pub struct Seat<J: Task<Out = u64>> {
    pub(crate) recorded: Recorded<J>,
    pub(crate) ends: Ends<J>,
}

impl<J: Task<Out = u64>> Model for Seat<J> {
    ghost use Rattle.std.specs.Prelude.{ℕ};
    ghost use Rattle.actor_seat.specs.Linked.{LinkedView};

    ghost Value = { LinkedView J ℕ };

    ghost use Rattle.actor_seat.specs.Seats.{IsSeated};

    ghost view = { λ s. record { recorded = s.recorded; ends = s.ends } };

    ghost invariant = { λ s. IsSeated J.meaning (record { recorded = s.recorded; ends = s.ends }) };
}

// Gives the outcome of a job that a pick handed back, on the end of its sender.
fn give_on<J: Task<Out = u64>>(
    recorded: &Recorded<J>,
    ends: &mut Ends<J>,
    name: JobId,
    reason: Reason,
    order: Order<J>,
)
    requires known { name.from ≤ recorded.now.core.cores }
    requires sent { IsSentUnder J.meaning recorded.now.took name order }
    requires owing { AreOwing (Fits J.meaning) name.from (Some (name, Returned reason)) recorded.now ends.old }
    ensures beside { AreBeside (Fits J.meaning) recorded.now ends.new }
    ensures outs { ends.new.outs ≡ ends.old.outs }
    ensures ends { SameEnds ends.old ends.new }
    ensures sees { SeesNoLess ends.old ends.new }
{
    recorded.give_back(ends.in_mut(name.from), name, reason, order);
}

// This job went back to its sender.
fn back<J>(name: &JobId, reason: &Reason) -> Taken<J>
    ensures { result ≡ taken.Back name.now reason.now }
{
    Taken::Back(*name, *reason)
}

impl<J: Task<Out = u64>> Seat<J> {
    /// A core at its ends.
    pub fn of(recorded: Recorded<J>, ends: Ends<J>) -> Self
        requires seated { IsSeated J.meaning (record { recorded = recorded; ends = ends }) }
        ensures { result ≡ record { recorded = recorded; ends = ends } }
    {
        Seat { recorded, ends }
    }

    /// The core beside its journal, and the ends.
    pub fn into_parts(self) -> (Recorded<J>, Ends<J>)
        ensures recorded { result.0 ≡ self.recorded }
        ensures ends { result.1 ≡ self.ends }
        ensures seated { IsSeated J.meaning self }
    {
        let Seat { recorded, ends } = self;
        (recorded, ends)
    }

    /// The core beside its journal.
    pub fn recorded(&self) -> &Recorded<J>
        ensures same { result.now ≡ self.now.recorded }
        ensures seated { IsSeated J.meaning self.now }
    {
        &self.recorded
    }

    /// The number of the core, as that of an actor.
    pub fn actor(&self) -> ActorNo
        ensures { result ≡ self.now.recorded.core.core }
    {
        self.ends.number
    }

    /// What the next pick would come to. Nothing changes.
    ///
    /// # Errors
    ///
    /// Those of `pick`.
    #[inline(always)]
    pub fn ahead(&self) -> Result<Ahead, PickError>
        ensures { TellsAhead self.now.recorded.core result }
    {
        self.recorded.ahead()
    }

    /// Whether a link shows an order or an outcome that wasn't seen yet: one load for each link. No clause says that the answer is right.
    pub fn shows(&self) -> bool {
        self.ends.ins.as_slice().iter().any(|end| end.shows())
            || self.ends.outs.as_slice().iter().any(|end| end.shows())
    }

    /// What the end of this sender tells of itself: how many orders may be without an outcome.
    pub fn look_at(&self, sender: ActorNo)
        requires known { sender ≤ self.now.recorded.core.cores }
        ensures { SoundIn (in_at sender self.now.ends).inward }
    {
        let _count = self.ends.ins[sender.0 as usize].final_count();
    }

    /// Writes to the memory of all notes that there may be. Nothing is noted.
    pub fn prefault(&mut self)
        ensures { self.new ≡ self.old }
    {
        self.recorded.prefault();
    }

    /// Hands all notes that are kept to the sink, so that their places are free again. A sink that refuses leaves all as it was.
    ///
    /// # Errors
    ///
    /// `Refused` where the sink refuses.
    pub fn pass_on<S: Sink>(&mut self, sink: &mut S) -> Result<(), Refused>
        requires { S.has sink.old ≡ self.old.recorded.journal.passed }
        ensures passes { PassesOn S.has S.refused self.old.recorded.journal sink.old result self.new.recorded.journal sink.new }
        ensures refusals { KeepsRefusals S.refused sink.old sink.new }
        ensures asked { IsAsked (S.asks sink.old) (S.asks sink.new) }
        ensures marked { S.mark sink.new ≡ S.mark sink.old }
        ensures rest { self.new ≡ record self.old { recorded = record self.old.recorded { journal = self.new.recorded.journal } } }
        ensures seated { IsSeated J.meaning self.new }
        ensures linked { IsLinked J.meaning self.old → IsLinked J.meaning self.new }
    {
        self.recorded.pass_on(sink)
    }

    /// Makes a queue before anything else is done.
    ///
    /// # Errors
    ///
    /// `TooMany` where the core has 256 queues; otherwise `Memory`. Nothing changes.
    pub fn create(&mut self, shares: Shares) -> Result<QueueNo, CreateError>
        requires opening { IsOpening self.old.recorded.journal.notes }
        requires room { length self.old.recorded.journal.notes < self.old.recorded.journal.room }
        ensures creates { CreatesQueue shares self.old.recorded result self.new.recorded }
        ensures same { self.new.ends ≡ self.old.ends }
        ensures seat { IsSameSeat self.old.recorded self.new.recorded }
        ensures seated { IsSeated J.meaning self.new }
    {
        self.recorded.create(shares)
    }

    /// Closes the core by itself. Whether that did anything: the first closing does, and `Return` after `Finish`.
    pub fn close(&mut self, mode: Mode) -> bool
        requires room { length self.old.recorded.journal.notes < self.old.recorded.journal.room }
        ensures closes { ClosesItself self.old.recorded mode result self.new.recorded }
        ensures same { self.new.ends ≡ self.old.ends }
        ensures stays { StaysLinked self.old self.new }
        ensures seated { IsSeated J.meaning self.new }
        ensures linked { IsLinked J.meaning self.old → IsLinked J.meaning self.new }
    {
        self.recorded.close(mode)
    }

    /// Shuts the gate of this sender in a closed core.
    pub fn shut(&mut self, sender: ActorNo)
        requires known { sender ≤ self.old.recorded.core.cores }
        requires closed { IsSome (core_mode self.old.recorded.journal.notes) }
        requires untold { final_count sender self.old.recorded.journal.notes ≡ None }
        requires room { length self.old.recorded.journal.notes < self.old.recorded.journal.room }
        ensures does { ShutsGate sender self.old self.new }
        ensures seated { IsSeated J.meaning self.new }
        ensures linked { IsLinked J.meaning self.old → IsLinked J.meaning self.new }
    {
        self.recorded.shut(self.ends.in_mut(sender), sender);
    }

    /// Delivers the next order of this sender, if one shows. Whether there was one.
    pub fn deliver(&mut self, sender: ActorNo) -> bool
        requires known { sender ≤ self.old.recorded.core.cores }
        requires room { length self.old.recorded.journal.notes + 2 ≤ self.old.recorded.journal.room }
        ensures does { DeliversFrom sender self.old result self.new }
        ensures seated { IsSeated J.meaning self.new }
        ensures linked { IsLinked J.meaning self.old → IsLinked J.meaning self.new }
    {
        self.recorded.deliver(self.ends.in_mut(sender))
    }

    /// Collects all outcomes that the link to this core shows. How many there were.
    pub fn collect_from(&mut self, core: CoreNo) -> usize
        requires known { core < self.old.recorded.core.cores }
        requires room { length self.old.recorded.journal.notes + self.old.recorded.cap ≤ self.old.recorded.journal.room }
        ensures does { CollectsOf core self.old result self.new }
        ensures seated { IsSeated J.meaning self.new }
        ensures linked { IsLinked J.meaning self.old → IsLinked J.meaning self.new }
    {
        self.recorded.collect_from(self.ends.out_mut(core), core)
    }

    /// Collects the next outcome that the link to this core shows, if there is one. Whether there was one.
    pub fn collect_one(&mut self, core: CoreNo) -> bool
        requires known { core < self.old.recorded.core.cores }
        requires room { length self.old.recorded.journal.notes + self.old.recorded.cap ≤ self.old.recorded.journal.room }
        ensures does { CollectsOne core self.old result self.new }
        ensures seated { IsSeated J.meaning self.new }
    {
        self.recorded.collect_one(self.ends.out_mut(core), core)
    }

    /// Sends an order to this core, and notes it if it is accepted.
    ///
    /// # Errors
    ///
    /// Those of the link: `Closed`, `Full` and `Spent`, tried in this order. The order comes back, and nothing is noted.
    pub fn submit(&mut self, to: CoreNo, order: Order<J>) -> Result<Ticket, SendError<J>>
        requires known { to < self.old.recorded.core.cores }
        requires room { length self.old.recorded.journal.notes < self.old.recorded.journal.room }
        requires ready { HasReadyJob J.meaning order }
        ensures does { SubmitsOn to order self.old result self.new }
        ensures seated { IsSeated J.meaning self.new }
        ensures linked { IsLinked J.meaning self.old → IsLinked J.meaning self.new }
    {
        self.recorded.submit(self.ends.out_mut(to), to, order)
    }

    /// The outcome of a submission, which is gone from then on.
    ///
    /// # Errors
    ///
    /// `Unknown` where nothing was accepted under the name; `Gone` where it was redeemed or detached before; `Pending` where its outcome
    /// isn't collected yet. Nothing changes.
    pub fn redeem(&mut self, ticket: Ticket) -> Result<Outcome<J, u64>, TicketError>
        requires room { length self.old.recorded.journal.notes < self.old.recorded.journal.room }
        ensures does { RedeemsOn J.meaning ticket self.old result self.new }
        ensures seated { IsSeated J.meaning self.new }
    {
        if !self.recorded.knows(ticket) {
            return Err(TicketError::Unknown);
        }
        let to = ticket.name().to;
        self.recorded.redeem(self.ends.out_mut(to), ticket)
    }

    /// Nobody will ask for the outcome of a submission.
    ///
    /// # Errors
    ///
    /// `Unknown` and `Gone`, as `redeem`. Nothing changes.
    pub fn detach(&mut self, ticket: Ticket) -> Result<(), TicketError>
        requires room { length self.old.recorded.journal.notes < self.old.recorded.journal.room }
        ensures does { DetachesOn ticket self.old result self.new }
        ensures seated { IsSeated J.meaning self.new }
        ensures linked { IsLinked J.meaning self.old → IsLinked J.meaning self.new }
    {
        if !self.recorded.knows(ticket) {
            return Err(TicketError::Unknown);
        }
        let to = ticket.name().to;
        self.recorded.detach(self.ends.out_mut(to), ticket)
    }

    /// Picks the queue of least virtual runtime, then least number, and takes its first job out. If the queue or the core is closed so, the job
    /// goes back, and its outcome is given to its sender at once.
    ///
    /// # Errors
    ///
    /// `Busy` where a job is out or a turn is open; otherwise `Spent` where all turns are used and a queue has work. Nothing changes.
    pub fn pick(&mut self) -> Result<Taken<J>, PickError>
        requires room { length self.old.recorded.journal.notes + 2 ≤ self.old.recorded.journal.room }
        ensures picks { PicksTaken J.meaning self.old.recorded result self.new.recorded }
        ensures refused { OnErr result (self.new ≡ self.old) }
        ensures stays { StaysLinked self.old self.new }
        ensures seated { IsSeated J.meaning self.new }
        ensures linked { IsLinked J.meaning self.old → self.new.recorded.core.out ≡ None → IsLinked J.meaning self.new }
    {
        match self.recorded.pick() {
            Ok(Turn::Start(name, queue, job)) => Ok(Taken::Start(name, queue, job)),
            Ok(Turn::Resume(name, queue, job)) => Ok(Taken::Resume(name, queue, job)),
            Ok(Turn::Back(name, order, reason)) => {
                let told = back(&name, &reason);
                give_on(&self.recorded, &mut self.ends, name, reason, order);
                Ok(told)
            }
            Ok(Turn::Idle) => Ok(Taken::Idle),
            Err(error) => Err(error),
        }
    }

    /// Settles the poll of the job that is out, and gives its outcome to its sender, if it is done. If the job told no time of its own,
    /// `spent` nanoseconds count.
    pub fn settle(&mut self, name: JobId, ran: Ran<J>, spent: u64) -> Settled<u64>
        requires out { IsOut self.old.recorded.core.out ran.before }
        requires named { IsOutUnder self.old.recorded.core.out name }
        requires known { name.from ≤ self.old.recorded.core.cores }
        requires polled { IsPolled J.meaning ran }
        requires room { length self.old.recorded.journal.notes < self.old.recorded.journal.room }
        ensures settles { Settles J.meaning self.old.recorded ran spent result self.new.recorded }
        ensures stays { StaysLinked self.old self.new }
        ensures seated { IsSeated J.meaning self.new }
    {
        self.recorded
            .settle(self.ends.in_mut(name.from), name, ran, spent)
    }

    /// Takes the first job of the queue whose turn is open out, for a further poll. None if no turn is open, if a job is out, or if the
    /// turn may not go on.
    pub fn follow(&mut self) -> Option<Turn<J>>
        requires room { length self.old.recorded.journal.notes < self.old.recorded.journal.room }
        ensures follows { Follows self.old.recorded result self.new.recorded }
        ensures ready { IfSome result (λ turn. IsReadyTurn J.meaning (Ok turn)) }
        ensures same { self.new.ends ≡ self.old.ends }
        ensures stays { StaysLinked self.old self.new }
        ensures seated { IsSeated J.meaning self.new }
    {
        self.recorded.follow()
    }

    /// Ends the open turn, which may not go on. The answer: the time of all its polls.
    pub fn end_turn(&mut self) -> u64
        requires is_open { IsSome (queue_in_turn self.old.recorded.core.bursts.burst self.old.recorded.journal.notes) }
        requires rest { self.old.recorded.core.out ≡ None }
        requires over { NothingFollows self.old.recorded }
        requires room { length self.old.recorded.journal.notes < self.old.recorded.journal.room }
        ensures ends { EndsTurn self.old.recorded result self.new.recorded }
        ensures same { self.new.ends ≡ self.old.ends }
        ensures stays { StaysLinked self.old self.new }
        ensures seated { IsSeated J.meaning self.new }
        ensures linked { IsLinked J.meaning self.old → IsLinked J.meaning self.new }
    {
        self.recorded.end_turn()
    }
}
