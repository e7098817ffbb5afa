//! One core.
//!
//! Each call is one step of the core, and makes the notes of that step. Which calls may follow one another is asked by their clauses.
//!
//! - `ready` has the key of each queue in which a job waits, except the queue of the job that is out and that of the open turn. So its
//!   least key is the next pick.
//! - A virtual runtime stands in the queue's tally, and while the queue is in `ready` also in its key. Only a queue outside of it is charged.
//! - `floor` is the greatest virtual runtime at which a pick was made. A queue that gets work starts there, or above.
//! - `out` is the job that a pick took out of its queue, from the pick until `settle`. At most one is out.
//! - `bursts.open` is the turn that goes on: from the pick until `end_turn`, if a turn may have several polls. Its queue isn't in `ready`.
//! - `inside` counts what is in the queues, and the job that is out. It never passes `room`, since senders have so many places.
ghost use Rattle.std.specs.Prelude.{◌≡◌, ◌↔◌, ℕ, ◌+◌, ◌*◌, ◌<◌, ◌≤◌, IsTrue, IfOk, Some, None, slice_get};
ghost use Rattle.arrayvec.specs.ArrayVec.{array_vec_len};
ghost use Rattle.base_jobs.specs.Ready.{HasReadyJob};
ghost use Rattle.core_queues.specs.Queues.{queue_count};
ghost use Rattle.core_core.specs.State.{delivered_of, inside_count, IsBounded, opened};
ghost use Rattle.core_core.specs.Closing.{IsDrained};
ghost use Rattle.core_core.specs.Deliveries.{Delivers, CreatesQueue};
ghost use Rattle.core_core.specs.Turns.{Picks};
ghost use Rattle.core_core.specs.Settling.{SettlesOut};
ghost use Rattle.core_core.specs.Answers.{IsReadyTurn, IsTaskOut, AnswersOut};
ghost use Rattle.core_core.specs.Figures.{core_stats, queue_stats};

use crate::bursts::Bursts;
use crate::delivery::Delivered;
use crate::notes::{Notes, one_note};
use crate::out::{Out, is_busy};
use crate::senders::Senders;
use crate::tally::Tally;
use crate::turn::{PickError, Settled, Turn};
use arrayvec::ArrayVec;
use base_jobs::{Ran, Step, Task};
use base_sealed::SealedVec;
use base_words::{
    CoreNo, CoreStats, Envelope, JobId, MOST_QUEUES, Mode, Note, Order, QueueNo, QueueStats, Shares,
};
use core_queues::{CreateError, Queues};
use core_timeline::Timeline;
use std::alloc::{AllocError, Allocator, Global};
use std::marker::Model;

mod bursts;
mod closings;
mod deliveries;
mod figures;
mod further;
mod parks;
mod picks;
mod polls;
mod rests;
mod settles;
mod wakes;
mod whole;

/// One core: its task queues, what each has used of the core, and the job that is being polled.
pub struct Core<J: Task, A: Allocator + Clone = Global> {
    core: CoreNo,
    cores: u8,
    queues: Queues<J, A>,
    // The queues in which a job waits, except that of the job that is out and that of the open turn. A queue's slip is here while it is
    // among them. At all other times it is with its queue.
    ready: Timeline<A>,
    tallies: SealedVec<Tally, A>,
    senders: Senders<A>,
    floor: u128,
    turns: u64,
    // How many jobs are inside: those that wait or are parked, and the one that is out.
    inside: usize,
    room: usize,
    out: Option<Out<J>>,
    // How the core was closed, if it was.
    mode: Option<Mode>,
    // How many polls a turn may have, and the turn that is open.
    bursts: Bursts,
}

impl<J: Task, A: Allocator + Clone> Model for Core<J, A> {
    ghost use Rattle.core_core.specs.State.{CoreView};

    ghost Value = { CoreView J };

    ghost use Rattle.core_queues.specs.Slips.{queues_alone};
    ghost use Rattle.core_core.specs.Inside.{job_out, core_view, IsCore};

    ghost view = { λ c. core_view c.core c.cores (queues_alone c.queues) c.tallies.items c.floor c.turns (job_out c.out) c.senders c.mode c.bursts };

    ghost invariant = { λ c. IsCore J.meaning (core_view c.core c.cores (queues_alone c.queues) c.tallies.items c.floor c.turns (job_out c.out) c.senders c.mode c.bursts) c.queues.slips c.ready.keys c.inside c.room c.tallies.cap };
}

// Written out: a derived drop is proved again in each crate above.
impl<J: Task, A: Allocator + Clone> Drop for Core<J, A> {
    fn drop(self) {
        let Core {
            core: _,
            cores: _,
            queues,
            ready,
            tallies,
            senders,
            floor: _,
            turns: _,
            inside: _,
            room: _,
            out,
            mode: _,
            bursts: _,
        } = self;
        drop(queues);
        drop(ready);
        drop(tallies);
        drop(senders);
        drop(out);
    }
}

impl<J: Task, A: Allocator + Clone> Core<J, A> {
    /// Opens a core with queue 0 alone, and with room for all that `cores` cores and the outside actor may have outstanding on
    /// links of capacity `cap`. A turn is one poll.
    pub fn open(alloc: A, core: CoreNo, cores: u8, cap: u16) -> Result<Self, AllocError>
        ensures { IfOk result (λ c. c ≡ opened core cores ((cores + 1) * cap) 0 1) }
    {
        Core::open_at(alloc, core, cores, cap, 0, 1)
    }

    /// The same, with turns of so many polls. 0 acts as 1.
    pub fn open_burst(
        alloc: A,
        core: CoreNo,
        cores: u8,
        cap: u16,
        burst: u8,
    ) -> Result<Self, AllocError>
        ensures { IfOk result (λ c. c ≡ opened core cores ((cores + 1) * cap) 0 burst) }
    {
        Core::open_at(alloc, core, cores, cap, 0, burst)
    }

    /// The same as `open`, as if that many turns had been made.
    pub fn open_at_turn(
        alloc: A,
        core: CoreNo,
        cores: u8,
        cap: u16,
        turns: u64,
    ) -> Result<Self, AllocError>
        ensures { IfOk result (λ c. c ≡ opened core cores ((cores + 1) * cap) turns 1) }
    {
        Core::open_at(alloc, core, cores, cap, turns, 1)
    }

    /// Opens a core after so many turns, each of so many polls.
    fn open_at(
        alloc: A,
        core: CoreNo,
        cores: u8,
        cap: u16,
        turns: u64,
        burst: u8,
    ) -> Result<Self, AllocError>
        ensures { IfOk result (λ c. c ≡ opened core cores ((cores + 1) * cap) turns burst) }
    {
        let count = usize::from(cores) + 1;
        let room = count * usize::from(cap);
        let mut tallies = Vec::with_capacity(alloc.clone()?, MOST_QUEUES)?;
        tallies.push_reserved(Tally::NONE);
        let senders = Senders::open(alloc.clone()?, count)?;
        let ready = Timeline::with_front(alloc.clone()?)?;
        Ok(Core {
            core,
            cores,
            queues: Queues::open(alloc, room)?,
            ready,
            tallies: SealedVec::sealed(tallies),
            senders,
            floor: 0,
            turns,
            inside: 0,
            room,
            out: None,
            mode: None,
            bursts: Bursts { burst, open: None },
        })
    }

    /// Whether one more job may come in. A job that is out keeps its place.
    pub fn has_room(&self) -> bool
        ensures { IsTrue result ↔ (inside_count self.now < self.now.queues.room) }
    {
        self.inside < self.room
    }

    /// Whether a submission of this name is the next of its sender.
    pub fn is_next(&self, name: &JobId) -> bool
        ensures { IsTrue result
            ↔ ((name.now.from ≤ self.now.cores) × (name.now.number ≡ delivered_of name.now.from self.now + 1)) }
    {
        let sender = usize::from(name.from.0);
        sender < self.senders.len()
            && name.number > 0
            && self.senders.delivered(sender) == name.number - 1
    }

    /// Makes a queue in an open core, under the next number.
    pub fn create(&mut self, shares: Shares) -> (Result<QueueNo, CreateError>, Notes<J::Out>)
    where
        J::Out: Copy,
        requires is_open { self.old.mode ≡ None }
        ensures creates { CreatesQueue self.old shares result.0 self.new result.1.items }
        ensures bounded { IsBounded self.new }
    {
        match self.queues.try_create(shares) {
            Ok(queue) => {
                self.tallies.push_reserved(Tally::NONE);
                (Ok(queue), one_note(Note::Created(queue, shares)))
            }
            Err(error) => (Err(error), ArrayVec::new()),
        }
    }

    /// Carries out the next submission of its sender.
    #[inline(always)]
    pub fn deliver(&mut self, envelope: Envelope<J>) -> (Delivered<J>, Notes<J::Out>)
    where
        J::Out: Copy,
        requires room { inside_count self.old < self.old.queues.room }
        requires sender { envelope.name.from ≤ self.old.cores }
        requires next { envelope.name.number ≡ delivered_of envelope.name.from self.old + 1 }
        requires ready { HasReadyJob J.meaning envelope.order }
        ensures delivers { Delivers self.old envelope.name envelope.order result.0 self.new result.1.items }
        ensures bounded { IsBounded self.new }
    {
        let Envelope { name, order } = envelope;
        match order {
            Order::Job(queue, job) => self.deliver_noted(name, queue, job),
            Order::Create(shares) => self.deliver_create(name, shares),
            Order::SetShares(queue, shares) => self.deliver_shares(name, queue, shares),
            Order::Close(queue, mode) => self.deliver_close(name, queue, mode),
            Order::CloseCore(mode) => self.deliver_close_core(name, mode),
            Order::Wake(actor, number) => self.deliver_wake(name, actor, number),
        }
    }

    /// Picks the queue of least virtual runtime, then least number, and takes its first job out, or hands it back if the queue or the
    /// core is closed so. If a turn may have several polls, a pick for a poll opens the turn of its queue.
    pub fn pick(&mut self) -> (Result<Turn<J>, PickError>, Notes<J::Out>)
    where
        J::Out: Copy,
        ensures picks { Picks self.old result.0 self.new result.1.items }
        ensures ready { IsReadyTurn J.meaning result.0 }
        ensures bounded { IsBounded self.new }
    {
        if is_busy(&self.out, &self.bursts) {
            return (Err(PickError::Busy), ArrayVec::new());
        }
        if self.ready.is_empty() {
            return (Ok(Turn::Idle), ArrayVec::new());
        }
        if self.turns == u64::MAX {
            return (Err(PickError::Spent), ArrayVec::new());
        }
        let (turn, notes) = self.pick_first();
        (Ok(turn), notes)
    }

    /// Settles the poll of the job that is out. If the job told no time of its own, `spent` nanoseconds count. A job that asks to be
    /// parked is, unless a wake of it is kept or its queue or the core hands back what is inside. The queue is charged, unless a turn is
    /// open: the end of the turn charges it.
    #[inline(always)]
    pub fn settle(&mut self, ran: Ran<J>, spent: u64) -> (Settled<J::Out>, Notes<J::Out>)
    where
        J::Out: Copy,
        requires { IsTaskOut J.meaning self.old.out ran.before }
        ensures settles { SettlesOut self.old ran spent result.0 self.new result.1.items }
        ensures answers { AnswersOut J.meaning self.old.out result.0 }
        ensures bounded { IsBounded self.new }
    {
        let (job, step, told) = ran.into_parts();
        let time = told.unwrap_or(spent);
        match step {
            Step::Yield => {
                let woken = self.is_out_woken();
                let name = self.rejoin_out(job, time, woken);
                (Settled::Yielded, one_note(Note::Yield(name, time)))
            }
            Step::Park => self.rest_out(job, time),
            Step::Done(answer) => {
                let name = self.finish_out(time);
                (
                    Settled::Finished(answer),
                    one_note(Note::Done(name, time, answer)),
                )
            }
        }
    }

    /// What the core tells of itself in numbers, with one entry for each queue by number.
    pub fn stats(&self) -> (CoreStats, ArrayVec<QueueStats, 256>)
        ensures core { result.0 ≡ core_stats self.now result.0.drained }
        ensures drained { IsTrue result.0.drained ↔ IsDrained self.now }
        ensures count { array_vec_len result.1 ≡ queue_count self.now.queues }
        ensures queues { (queue : ℕ) → queue < queue_count self.now.queues → slice_get result.1.items queue ≡ Some (queue_stats queue self.now) }
    {
        // That there are at most 256 queues is known once they are counted.
        let _count = self.queue_count();
        self.stats_within()
    }

    /// The same with places for so many queues alone. A few are handed on faster than 256.
    pub fn stats_within<const N: usize>(&self) -> (CoreStats, ArrayVec<QueueStats, N>)
        requires few { queue_count self.now.queues ≤ N }
        ensures core { result.0 ≡ core_stats self.now result.0.drained }
        ensures drained { IsTrue result.0.drained ↔ IsDrained self.now }
        ensures count { array_vec_len result.1 ≡ queue_count self.now.queues }
        ensures queues { (queue : ℕ) → queue < queue_count self.now.queues → slice_get result.1.items queue ≡ Some (queue_stats queue self.now) }
    {
        (self.core_stats(), self.all_queue_stats())
    }
}
