//! All task queues of a core.
//!
//! All jobs of a core stand in one slab. A queue is two lines through it: of jobs that wait, and of parked ones.
//!
//! - An entry of the slab knows the key of the next one in its line. A queue knows head, tail and count of either line.
//! - `names` finds the key of a job by its name. It has a row for each key of the slab.
//! - `seats` knows of each key where its job is parked, and the key parked before it. So a wake takes a job out of the middle of its line.
//! - A job that leaves its queue to be polled leaves the slab. A turn in place (`turn_front`) leaves it where it is, and writes keys alone.
//! - A queue has its slip, or the timeline of its core has it. Nothing here says when: the core does.
ghost use Rattle.std.specs.Prelude.{◌≡◌, ◌+◌, ◌<◌, ◌≤◌, ◌↔◌, [], ◌∷◌, ◌++◌, true, false, drop, length, None, is_some, IsTrue, IfOk, OnErr, IfSome, IfNone, OnSome};
ghost use Rattle.core_queues.specs.Slips.{queue_count, shares_of, mode_of, waiting_of, parked_of, held_count, has_slip, without_slip, with_slip, first_queue, IsWithinLimits, ChangesLine, ChangesShares, ChangesMode, AddsQueue};
ghost use Rattle.base_words.specs.Closing as spec;
ghost use Rattle.base_words.specs.Limits.{most_queues};

use crate::closing::closes;
use crate::line::{Line, Queue};
use crate::seats::{ParkedAt, open_seats};
use crate::slips::Slips;
use crate::waiting::{Waiting, append};
use base_sealed::{SealedSlab, SealedVec};
use base_words::{JobId, MOST_QUEUES, Mode, QueueNo, Shares};
use core_index::Index;
use core_timeline::Slip;
use slab::Slab;
use std::alloc::{AllocError, Allocator};
use std::marker::Model;
use std::mem;

mod fronts;
mod parks;

pub use parks::Woke;

/// Why no queue was created.
#[derive(Clone, Copy, PartialEq, Eq, Debug, thiserror::Error)]
pub enum CreateError {
    /// There are 256 queues. This is tried first.
    #[error("256 queues exist already")]
    TooMany,
    /// The allocator refused what the queue needs.
    #[error("no memory for one more queue")]
    Memory,
}

/// The task queues of a core, numbered from 0, with room for so many jobs in all of them together.
///
/// A queue's slip is the node by which it stands in a timeline. It is made with the queue, and is with it while it stands in none.
/// Only `open` and `try_create` ask for memory: the bodies of the other calls have no allocator in reach. No clause says so.
pub struct Queues<J, A: Allocator> {
    // The jobs of all queues, each with the key of the next in its line. A key names nothing outside this crate.
    jobs: SealedSlab<Waiting<J>, A>,
    lines: SealedVec<Queue, A>,
    slips: Slips<A>,
    room: usize,
    // From a name to the key of its job.
    names: Index<A>,
    // For each key where its job is parked, if it is.
    seats: SealedVec<ParkedAt, A>,
}

// The index takes fewer keys than this.
const MOST_PLACES: usize = 1 << 31;

impl<J, A: Allocator> Model for Queues<J, A> {
    ghost use Rattle.core_queues.specs.Slips.{SlippedView};

    ghost Value = { SlippedView J };

    ghost use Rattle.std.specs.Prelude.{length};
    ghost use Rattle.core_queues.specs.Linked.{linked_view, IsKept, HasOwnSlips};
    ghost use Rattle.core_queues.specs.Rests.{AreAtRest};
    ghost use Rattle.core_queues.specs.Seats.{AreFound};

    ghost view = { λ q. linked_view q.room q.jobs q.lines.items q.slips.at.items };

    ghost invariant = { λ q.
        IsKept q.room q.lines.cap q.jobs q.lines.items
        × HasOwnSlips (length q.lines.items) q.slips.at.cap q.slips.at.items
        × AreAtRest q.jobs q.lines.items
        × AreFound q.jobs q.lines.items q.names q.seats.items };
}

// Written out: a derived drop is proved again in each crate above.
impl<J: Drop, A: Allocator> Drop for Queues<J, A> {
    fn drop(self) {
        let Queues {
            jobs,
            lines,
            slips,
            room: _,
            names,
            seats,
        } = self;
        drop(jobs);
        drop(lines);
        drop(slips);
        drop(names);
        drop(seats);
    }
}

impl<J: Drop, A: Allocator + Clone> Queues<J, A> {
    /// Opens queue 0, with the default shares, and takes the memory for this many jobs and for all queues but their slips.
    pub fn open(alloc: A, room: usize) -> Result<Self, AllocError>
        ensures opened { IfOk result (λ queues. queues ≡ first_queue room) }
    {
        let mut lines = Vec::with_capacity(alloc.clone()?, MOST_QUEUES)?;
        lines.push_reserved(Queue::empty(Shares::default()));
        let jobs = Slab::with_capacity(alloc.clone()?, room)?;
        let places = jobs.capacity();
        if places >= MOST_PLACES {
            return Err(AllocError);
        }
        let names = Index::open(alloc.clone()?, places)?;
        let seats = open_seats(alloc.clone()?, places)?;
        let mut slips = Slips::open(alloc, MOST_QUEUES)?;
        slips.add(QueueNo(0))?;
        Ok(Queues {
            jobs: SealedSlab::sealed(jobs),
            lines: SealedVec::sealed(lines),
            slips,
            room,
            names,
            seats,
        })
    }

    /// Creates a queue under the next number. It asks for the queue's slip before it changes anything.
    pub fn try_create(&mut self, shares: Shares) -> Result<QueueNo, CreateError>
        ensures created { IfOk result (λ queue. AddsQueue self.old self.new queue shares) }
        ensures too_many { (result ≡ Err CreateError.TooMany) ↔ (queue_count self.old ≡ most_queues) }
        ensures refused { OnErr result (self.new ≡ self.old) }
        ensures limits { IsWithinLimits self.new }
    {
        let count = self.lines.len();
        if count == MOST_QUEUES {
            return Err(CreateError::TooMany);
        }
        let queue = QueueNo(count as u8);
        match self.slips.add(queue) {
            Ok(()) => {
                self.lines.push_reserved(Queue::empty(shares));
                Ok(queue)
            }
            Err(_) => Err(CreateError::Memory),
        }
    }

    /// How many queues there are.
    pub fn queue_count(&self) -> u16
        ensures value { result ≡ queue_count self.now }
        ensures limits { IsWithinLimits self.now }
    {
        self.lines.len() as u16
    }

    /// Whether one more job may join.
    pub fn has_room(&self) -> bool
        ensures value { IsTrue result ↔ (held_count self.now < self.now.room) }
        ensures limits { IsWithinLimits self.now }
    {
        self.jobs.len() < self.room
    }

    /// A job that was never started joins the tail of an open queue.
    #[inline(always)]
    pub fn admit(&mut self, queue: QueueNo, name: JobId, job: J)
        requires exists { queue < queue_count self.old }
        requires is_open { mode_of queue self.old ≡ None }
        requires room { held_count self.old < self.old.room }
        ensures joins { ChangesLine self.old self.new queue (waiting_of queue self.old ++ (name, record { started = false; woken = false }, job) ∷ []) }
        ensures one_more { held_count self.new ≡ held_count self.old + 1 }
        ensures limits { IsWithinLimits self.new }
    {
        self.join(queue, name, false, false, job);
    }

    /// Takes the job at the head, with its name, whether it was started, and whether a wake of it is kept.
    #[inline(always)]
    pub fn pop_front(&mut self, queue: QueueNo) -> Option<(JobId, bool, bool, J)>
        requires exists { queue < queue_count self.old }
        ensures empty { IfNone result (waiting_of queue self.old ≡ []) }
        ensures unchanged { IfNone result (self.new ≡ self.old) }
        ensures head { IfSome result (λ front. waiting_of queue self.old ≡ (front.0, record { started = front.1; woken = front.2 }, front.3) ∷ waiting_of queue self.new) }
        ensures rest { OnSome result (ChangesLine self.old self.new queue (drop 1 (waiting_of queue self.old))) }
        ensures one_less { OnSome result (held_count self.new + 1 ≡ held_count self.old) }
        ensures room { OnSome result (held_count self.new < self.new.room) }
        ensures limits { IsWithinLimits self.new }
    {
        let place = queue.0 as usize;
        let line = self.lines[place].waiting;
        if line.count == 0 {
            return None;
        }
        let front = self.jobs.remove(line.head);
        self.names.remove(line.head);
        self.lines[place].waiting = Line {
            head: front.next,
            tail: line.tail,
            count: line.count - 1,
        };
        // Field by field: bytes that lie between them would go through memory, and wait there.
        let name = JobId {
            from: front.name.from,
            to: front.name.to,
            number: front.name.number,
        };
        Some((name, front.started, front.woken, front.job))
    }

    /// A job that was started joins the tail again, with the wake that is kept beside it, if one is.
    #[inline(always)]
    pub fn push_back(&mut self, queue: QueueNo, name: JobId, woken: bool, job: J)
        requires exists { queue < queue_count self.old }
        requires room { held_count self.old < self.old.room }
        ensures joins { ChangesLine self.old self.new queue (waiting_of queue self.old ++ (name, record { started = true; woken = woken }, job) ∷ []) }
        ensures one_more { held_count self.new ≡ held_count self.old + 1 }
        ensures limits { IsWithinLimits self.new }
    {
        self.join(queue, name, true, woken, job);
    }

    /// Whether no job waits in this queue.
    pub fn is_empty(&self, queue: QueueNo) -> bool
        requires exists { queue < queue_count self.now }
        ensures { IsTrue result ↔ (waiting_of queue self.now ≡ []) }
    {
        self.lines[queue.0 as usize].waiting.count == 0
    }

    /// How many jobs wait in this queue.
    pub fn count(&self, queue: QueueNo) -> usize
        requires exists { queue < queue_count self.now }
        ensures { result ≡ length (waiting_of queue self.now) }
    {
        let place = queue.0 as usize;
        self.lines[place].waiting.count
    }

    /// How many jobs of this queue are parked.
    pub fn parked_count(&self, queue: QueueNo) -> usize
        requires exists { queue < queue_count self.now }
        ensures { result ≡ length (parked_of queue self.now) }
    {
        let place = queue.0 as usize;
        self.lines[place].parked.count
    }

    /// The shares of this queue.
    pub fn shares(&self, queue: QueueNo) -> Shares
        requires exists { queue < queue_count self.now }
        ensures { result ≡ shares_of queue self.now }
    {
        let place = queue.0 as usize;
        self.lines[place].shares
    }

    /// Gives this queue other shares.
    pub fn set_shares(&mut self, queue: QueueNo, shares: Shares)
        requires exists { queue < queue_count self.old }
        ensures given { ChangesShares self.old self.new queue shares }
        ensures limits { IsWithinLimits self.new }
    {
        self.lines[queue.0 as usize].shares = shares;
    }

    /// Closes this queue. The answer: whether that did anything. The first closing does, and `Return` after `Finish`.
    pub fn close(&mut self, queue: QueueNo, mode: Mode) -> bool
        requires exists { queue < queue_count self.old }
        ensures told { result ≡ spec.closes (mode_of queue self.old) mode }
        ensures closed { result ≡ true → ChangesMode self.old self.new queue mode }
        ensures unchanged { result ≡ false → self.new ≡ self.old }
        ensures limits { IsWithinLimits self.new }
    {
        let does = closes(self.mode(queue), mode);
        if does {
            self.lines[queue.0 as usize].mode = Some(mode);
        }
        does
    }

    /// How this queue was closed, if it was.
    pub fn mode(&self, queue: QueueNo) -> Option<Mode>
        requires exists { queue < queue_count self.now }
        ensures { result ≡ mode_of queue self.now }
    {
        let place = queue.0 as usize;
        self.lines[place].mode
    }

    /// Gives the slip of this queue out, if it is with the queue.
    pub fn take_slip(&mut self, queue: QueueNo) -> Option<Slip<A>>
        requires exists { queue < queue_count self.old }
        ensures there { is_some result ≡ has_slip queue self.old }
        ensures own { IfSome result (λ slip. slip ≡ queue) }
        ensures given { self.new ≡ without_slip queue self.old }
        ensures out { has_slip queue self.new ≡ false }
    {
        self.slips.at[queue.0 as usize].take()
    }

    /// Takes the slip of its queue back.
    #[inline(always)]
    pub fn put_slip(&mut self, slip: Slip<A>)
        requires exists { slip < queue_count self.old }
        requires out { has_slip slip self.old ≡ false }
        ensures { self.new ≡ with_slip slip self.old }
    {
        let place = slip.queue().0 as usize;
        // None was there. A drop would look, once a turn.
        mem::forget(mem::replace(&mut self.slips.at[place], Some(slip)));
    }
}

impl<J: Drop, A: Allocator + Clone> Queues<J, A> {
    /// A job joins the tail.
    #[inline(always)]
    fn join(&mut self, queue: QueueNo, name: JobId, started: bool, woken: bool, job: J)
        requires exists { queue < queue_count self.old }
        requires room { held_count self.old < self.old.room }
        ensures joins { ChangesLine self.old self.new queue (waiting_of queue self.old ++ (name, record { started = started; woken = woken }, job) ∷ []) }
        ensures one_more { held_count self.new ≡ held_count self.old + 1 }
        ensures limits { IsWithinLimits self.new }
    {
        let place = queue.0 as usize;
        let line = self.lines[place].waiting;
        let last = Waiting {
            next: 0,
            // Field by field, as in `pop_front`.
            name: JobId {
                from: name.from,
                to: name.to,
                number: name.number,
            },
            job,
            started,
            woken,
        };
        let longer = append(&mut self.jobs, line, last);
        self.names.insert(&name, longer.tail);
        self.lines[place].waiting = longer;
    }
}
