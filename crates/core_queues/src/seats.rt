//! The seats of jobs: for each key of an entry the queue in which its job is parked, if it is.
ghost use Rattle.std.specs.Prelude.{◌≡◌, ℕ, ◌<◌, length, replicate, IfOk};
ghost use Rattle.slab.specs.Slab.{get};
ghost use Rattle.core_queues.specs.Linked.{key_at};
ghost use Rattle.core_queues.specs.Lines.{IsChain};
ghost use Rattle.core_queues.specs.Seats.{no_seat, seat_at, Tells, LeavesSeat, Vacates};

use crate::line::Line;
use crate::waiting::Waiting;
use base_sealed::{SealedSlab, SealedVec};
use base_words::QueueNo;
use std::alloc::{AllocError, Allocator};

/// The seat of a key: the queue in which its job is parked, if it is.
#[derive(Clone, Copy)]
pub struct ParkedAt {
    /// The key of the one parked right before it. At the head of the line it says nothing.
    pub before: usize,
    /// Its queue.
    pub queue: QueueNo,
    /// Whether a parked job has this key. If not, the rest says nothing.
    pub parked: bool,
}

impl ParkedAt {
    /// The seat of a key that no parked job has.
    pub const VACANT: ParkedAt = ParkedAt {
        before: 0,
        queue: QueueNo(0),
        parked: false,
    };
}

/// What a seat tells of its job.
#[derive(Clone, Copy)]
pub enum Stands {
    /// Parked in this queue, right behind the job of this key, if it isn't the first.
    Parked(QueueNo, usize),
    /// In the line of a queue.
    Waits,
}

/// Reads the seat of this key.
#[inline(always)]
pub fn read_seat<A: Allocator>(seats: &SealedVec<ParkedAt, A>, key: usize) -> Stands
    requires { key < length seats.now.items }
    ensures { Tells (seat_at seats.now.items key) result }
{
    let seat = &seats[key];
    if seat.parked {
        return Stands::Parked(seat.queue, seat.before);
    }
    Stands::Waits
}

/// Takes the memory for the seats of so many keys, from 0 on. All are vacant.
pub fn open_seats<A: Allocator>(
    alloc: A,
    places: usize,
) -> Result<SealedVec<ParkedAt, A>, AllocError>
    ensures { IfOk result (λ seats. seats.items ≡ replicate places no_seat) }
{
    let mut seats = Vec::with_capacity(alloc, places)?;
    seats.resize(places, ParkedAt::VACANT)?;
    Ok(SealedVec::sealed(seats))
}

/// The job under this key leaves the line of parked ones. The one behind it, which has the next key, is told the key before it.
#[inline(always)]
pub fn leave<A: Allocator>(seats: &mut SealedVec<ParkedAt, A>, line: Line, key: usize, next: usize)
    requires within { key < length seats.old.items }
    requires behind { (line.tail ≡ key → ⊥) → next < length seats.old.items }
    ensures { LeavesSeat seats.old.items line key next seats.new.items }
{
    let before = seats[key].before;
    seats[key].parked = false;
    if line.tail == key {
        return;
    }
    seats[next].before = before;
}

/// All jobs of a line of parked ones leave it.
pub fn vacate<J, A: Allocator>(
    jobs: &SealedSlab<Waiting<J>, A>,
    seats: &mut SealedVec<ParkedAt, A>,
    line: Line,
)
    requires chain { IsChain jobs.now line }
    requires within { (place : ℕ) → place < line.count → key_at (get jobs.now) line.head place < length seats.old.items }
    ensures { Vacates (key_at (get jobs.now) line.head) line.count seats.old.items seats.new.items }
{
    let mut key = line.head;
    for index in 0..line.count {
        seats[key].parked = false;
        key = jobs[key].next;
    }
}
