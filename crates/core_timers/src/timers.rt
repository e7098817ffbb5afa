//! The timers.
ghost use Rattle.std.specs.Prelude.{◌≡◌, ◌↔◌, ◌<◌, ◌^◌, None, replicate, IsTrue, IfSome, IfNone, IfOk, MatchOption};
ghost use Rattle.std.specs.Bool.{OnTrue, OnFalse};
ghost use Rattle.core_timers.specs.Timers.{IsVacant, IsAfter, IsDue, IsNext, LacksName, HasOneEach, Sets, HasNoKey, Forgets};

use crate::heap::{rise, settle, take_out};
use crate::opening::{open_heap, open_rows};
use crate::row::{Row, Slot};
use base_sealed::SealedVec;
use base_words::JobId;
use core_index::Index;
use std::alloc::{AllocError, Allocator};
use std::marker::Model;

/// The timers of a core: for each job that sleeps when it is due, and which of them is due next.
///
/// A job has at most one timer. Only `open` asks for memory.
pub struct Timers<A: Allocator> {
    names: Index<A>,
    heap: SealedVec<Slot, A>,
    rows: SealedVec<Row, A>,
    // How many are set: they stand at the first places of the heap.
    count: usize,
}

impl<A: Allocator> Model for Timers<A> {
    ghost use Rattle.core_timers.specs.Timers.{Timers as Set};
    ghost use Rattle.core_timers.specs.Tables.{table, timers_of};
    ghost use Rattle.core_timers.specs.Heap.{AreKept};

    ghost Value = { Set };

    ghost view = { λ t. timers_of t.count (table t.heap.items t.rows.items) };

    ghost invariant = { λ t. AreKept (table t.heap.items t.rows.items) t.names t.count };
}

// Written out: a derived drop is proved again in each crate above.
impl<A: Allocator> Drop for Timers<A> {
    fn drop(self) {
        let Timers {
            names,
            heap,
            rows,
            count: _,
        } = self;
        drop(names);
        drop(heap);
        drop(rows);
    }
}

impl<A: Allocator + Clone> Timers<A> {
    /// Takes the memory for so many timers. None is set.
    pub fn open(alloc: A, places: usize) -> Result<Self, AllocError>
        requires { places < 2 ^ 31 }
        ensures { IfOk result (λ timers. timers ≡ replicate places None) }
    {
        let names = Index::open(alloc.clone()?, places)?;
        let heap = open_heap(alloc.clone()?, places)?;
        let rows = open_rows(alloc, places)?;
        Ok(Timers {
            names,
            heap,
            rows,
            count: 0,
        })
    }
}

impl<A: Allocator> Timers<A> {
    /// Whether no timer is set.
    #[inline(always)]
    pub fn is_empty(&self) -> bool
        ensures { IsTrue result ↔ IsVacant self.now }
    {
        self.count == 0
    }

    /// Sets the timer of this name, in place of the one that it has. If all places are taken by timers of other names, the answer is
    /// false, and nothing changes.
    #[inline]
    pub fn set(&mut self, name: &JobId, time: u64) -> bool
        ensures set { OnTrue result (Sets self.old name.now time self.new) }
        ensures full { OnFalse result (HasNoKey self.old name.now self.new) }
    {
        if let Some(key) = self.names.find(name) {
            let at = self.rows[key].at as usize;
            let slot = Slot {
                time,
                key: key as u32,
            };
            settle(&mut self.heap, &mut self.rows, self.count, at, slot);
            return true;
        }
        let last = self.count;
        if last == self.heap.len() {
            return false;
        }
        let key = self.heap[last].key;
        self.names.insert(name, key as usize);
        self.rows[key as usize].name = *name;
        self.count = last + 1;
        rise(
            &mut self.heap,
            &mut self.rows,
            last + 1,
            last,
            Slot { time, key },
        );
        true
    }

    /// Forgets the timer of this name. Whether it had one.
    #[inline]
    pub fn forget(&mut self, name: &JobId) -> bool
        ensures forgot { OnTrue result (Forgets self.old name.now self.new) }
        ensures none { OnFalse result (LacksName self.old name.now) }
        ensures unchanged { OnFalse result (self.new ≡ self.old) }
        ensures lacks { LacksName self.new name.now }
    {
        match self.names.find(name) {
            None => false,
            Some(key) => {
                self.names.remove(key);
                self.count -= 1;
                take_out(&mut self.heap, &mut self.rows, self.count, key);
                true
            }
        }
    }

    /// The least time for which a timer is set.
    #[inline(always)]
    pub fn next(&self) -> Option<u64>
        ensures { MatchOption result (IsVacant self.now) (λ time. IsNext time self.now) }
    {
        if self.count > 0 {
            return Some(self.heap[0].time);
        }
        None
    }

    /// The name of a timer of least time, if that time is not after `now`.
    #[inline]
    pub fn due(&self, now: u64) -> Option<JobId>
        ensures due { IfSome result (IsDue self.now now) }
        ensures none { IfNone result (IsAfter now self.now) }
    {
        if self.count == 0 {
            return None;
        }
        let first = self.heap[0];
        if now < first.time {
            return None;
        }
        Some(self.rows[first.key as usize].name)
    }

    /// No name has two timers.
    pub fn one_timer_each(&self)
        ensures { HasOneEach self.now }
    {
        let _ = &self.count;
    }
}
