//! A timer goes to its place in the heap.
//!
//! While it goes, the place that it has to fill next is open: its old content stands elsewhere already.
ghost use Rattle.std.specs.Prelude.{◌≡◌, ℕ, ◌+◌, ◌*◌, ◌<◌, ◌≤◌, ◌^◌, None, length, slice_set};
ghost use Rattle.core_timers.specs.Tables.{table, put, place_of, due_at, timers_of};
ghost use Rattle.core_timers.specs.Heap.{above, IsPlaced, IsOrdered, IsOrderedBut, IsEarly, IsLate, Settles};

use crate::row::{Row, Slot};
use base_sealed::SealedVec;
use std::alloc::Allocator;

/// Writes a timer to a place, and the place to the row of its key.
#[inline(always)]
pub fn write<A: Allocator>(
    heap: &mut SealedVec<Slot, A>,
    rows: &mut SealedVec<Row, A>,
    at: usize,
    slot: Slot,
)
    requires within { at < length heap.old.items }
    requires key { slot.key < length rows.old.items }
    requires few { at < 2 ^ 31 }
    ensures { table heap.new.items rows.new.items ≡ put (table heap.old.items rows.old.items) at slot }
{
    heap[at] = slot;
    rows[slot.key as usize].at = at as u32;
}

/// The place of the timer that is due first of those right below a place.
#[inline(always)]
pub fn first_below<A: Allocator>(heap: &SealedVec<Slot, A>, count: usize, at: usize) -> usize
    requires within { count ≤ length heap.now.items }
    requires few { count < 2 ^ 31 }
    requires some { 2 * at + 1 < count }
    ensures within { result < count }
    ensures above { above result ≡ at }
    ensures behind { at < result }
    ensures first { (place : ℕ) → place < count → above place ≡ at → 0 < place → due_at heap.now.items result ≤ due_at heap.now.items place }
{
    let left = 2 * at + 1;
    let right = left + 1;
    if right < count && heap[right].time < heap[left].time {
        return right;
    }
    left
}

/// Brings a timer into an open place, or above it: it isn't due after any below that place. Only the contract reads the count.
#[inline(always)]
pub fn rise<A: Allocator>(
    heap: &mut SealedVec<Slot, A>,
    rows: &mut SealedVec<Row, A>,
    count: usize,
    hole: usize,
    slot: Slot,
)
    requires within { hole < count }
    requires few { count ≤ length heap.old.items }
    requires placed { IsPlaced (put (table heap.old.items rows.old.items) hole slot) }
    requires order { IsOrderedBut count hole (put (table heap.old.items rows.old.items) hole slot) }
    requires early { IsEarly count hole (put (table heap.old.items rows.old.items) hole slot) }
    ensures { Settles count (put (table heap.old.items rows.old.items) hole slot) (table heap.new.items rows.new.items) }
{
    let mut at = hole;
    while at > 0 {
        let next = (at - 1) / 2;
        let other = heap[next];
        if other.time <= slot.time {
            break;
        }
        write(heap, rows, at, other);
        at = next;
    }
    write(heap, rows, at, slot);
}

/// Brings a timer into an open place, or below it: it isn't due before the one above that place.
#[inline(always)]
pub fn sink<A: Allocator>(
    heap: &mut SealedVec<Slot, A>,
    rows: &mut SealedVec<Row, A>,
    count: usize,
    hole: usize,
    slot: Slot,
)
    requires within { hole < count }
    requires few { count ≤ length heap.old.items }
    requires placed { IsPlaced (put (table heap.old.items rows.old.items) hole slot) }
    requires order { IsOrderedBut count hole (put (table heap.old.items rows.old.items) hole slot) }
    requires late { IsLate hole (put (table heap.old.items rows.old.items) hole slot) }
    ensures { Settles count (put (table heap.old.items rows.old.items) hole slot) (table heap.new.items rows.new.items) }
{
    let mut at = hole;
    while 2 * at + 1 < count {
        let next = first_below(heap, count, at);
        let other = heap[next];
        if slot.time <= other.time {
            break;
        }
        write(heap, rows, at, other);
        at = next;
    }
    write(heap, rows, at, slot);
}

/// Brings a timer into an open place, or above or below it.
#[inline]
pub fn settle<A: Allocator>(
    heap: &mut SealedVec<Slot, A>,
    rows: &mut SealedVec<Row, A>,
    count: usize,
    hole: usize,
    slot: Slot,
)
    requires within { hole < count }
    requires few { count ≤ length heap.old.items }
    requires placed { IsPlaced (put (table heap.old.items rows.old.items) hole slot) }
    requires order { IsOrderedBut count hole (put (table heap.old.items rows.old.items) hole slot) }
    ensures { Settles count (put (table heap.old.items rows.old.items) hole slot) (table heap.new.items rows.new.items) }
{
    if hole > 0 && slot.time < heap[(hole - 1) / 2].time {
        rise(heap, rows, count, hole, slot);
    } else {
        sink(heap, rows, count, hole, slot);
    }
}

/// The timer of a key goes. The last place is that of the key from then on, and behind those that are set.
#[inline]
pub fn take_out<A: Allocator>(
    heap: &mut SealedVec<Slot, A>,
    rows: &mut SealedVec<Row, A>,
    last: usize,
    key: usize,
)
    requires within { last < length heap.old.items }
    requires key { key < length rows.old.items }
    requires set { place_of (table heap.old.items rows.old.items) key ≤ last }
    requires placed { IsPlaced (table heap.old.items rows.old.items) }
    requires order { IsOrdered (last + 1) (table heap.old.items rows.old.items) }
    ensures placed { IsPlaced (table heap.new.items rows.new.items) }
    ensures order { IsOrdered last (table heap.new.items rows.new.items) }
    ensures gone { timers_of last (table heap.new.items rows.new.items) ≡ slice_set (timers_of (last + 1) (table heap.old.items rows.old.items)) key None }
{
    let at = rows[key].at as usize;
    if at == last {
        return;
    }
    let gone = heap[at];
    let moved = heap[last];
    write(heap, rows, last, gone);
    settle(heap, rows, last, at, moved);
}
