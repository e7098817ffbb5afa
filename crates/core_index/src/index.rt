//! The index.
ghost use Rattle.std.specs.Prelude.{◌≡◌, ◌≢◌, ℕ, ◌<◌, ◌^◌, length, replicate, Some, None, IsSome, IfSome, IfNone, IfOk, slice_set};
ghost use Rattle.core_index.specs.Buckets.{name_at};

use crate::filing::{file, unfile};
use crate::row::{Bucket, Row, is_same, place_of};
use crate::walk::look;
use base_sealed::SealedVec;
use base_words::JobId;
use std::alloc::{AllocError, Allocator};
use std::marker::Model;

/// For each key of a slab the name of the job that has it, if one has, and from a name to such a key.
///
/// The keys stand in buckets by their names. Only `open` asks for memory.
pub struct Index<A: Allocator> {
    buckets: SealedVec<Bucket, A>,
    rows: SealedVec<Row, A>,
    // One less than the buckets, which are a power of two.
    mask: u64,
}

impl<A: Allocator> Model for Index<A> {
    ghost use Rattle.std.specs.Prelude.{map};
    ghost use Rattle.core_index.specs.Buckets.{Names, shown, IsIndexed};

    ghost Value = { Names };

    ghost view = { λ i. map shown i.rows.items };

    ghost invariant = { λ i. IsIndexed i.mask i.rows.items i.buckets.items };
}

// Written out: a derived drop is proved again in each crate above.
impl<A: Allocator> Drop for Index<A> {
    fn drop(self) {
        let Index {
            buckets,
            rows,
            mask: _,
        } = self;
        drop(buckets);
        drop(rows);
    }
}

impl<A: Allocator + Clone> Index<A> {
    /// Takes the memory for so many keys, from 0 on. No job has one.
    pub fn open(alloc: A, capacity: usize) -> Result<Self, AllocError>
        requires { capacity < 2 ^ 31 }
        ensures { IfOk result (λ index. index ≡ replicate capacity None) }
    {
        let count = capacity.next_power_of_two();
        let mut buckets = Vec::with_capacity(alloc.clone()?, count)?;
        buckets.resize(count, Bucket::EMPTY)?;
        let mut rows = Vec::with_capacity(alloc, capacity)?;
        rows.resize(capacity, Row::VACANT)?;
        Ok(Index {
            buckets: SealedVec::sealed(buckets),
            rows: SealedVec::sealed(rows),
            mask: count as u64 - 1,
        })
    }
}

impl<A: Allocator> Index<A> {
    /// A key of a job of this name, if there is such a job.
    pub fn find(&self, name: &JobId) -> Option<usize>
        ensures found { IfSome result (λ key. name_at self.now key ≡ Some name.now) }
        ensures none { IfNone result ((key : ℕ) → name_at self.now key ≢ Some name.now) }
    {
        let bucket = self.buckets[place_of(name, self.mask)];
        look(&self.rows, bucket, name)
    }

    /// A job of this name gets a key that none has. If the last one that had it was of this name, the key is still in its bucket.
    #[inline(always)]
    pub fn insert(&mut self, name: &JobId, key: usize)
        requires within { key < length self.old }
        requires vacant { name_at self.old key ≡ None }
        ensures { self.new ≡ slice_set self.old key (Some name.now) }
    {
        let row = &self.rows[key];
        let is_filed = row.filed;
        if is_filed && is_same(name, &row.name) {
            self.rows[key].taken = true;
            return;
        }
        if is_filed {
            unfile(&mut self.rows, &mut self.buckets, self.mask, key);
        }
        file(&mut self.rows, &mut self.buckets, self.mask, name, key);
    }

    /// The job that has this key gives it up. The key stays in its bucket, since the same job often comes back to it.
    #[inline(always)]
    pub fn remove(&mut self, key: usize)
        requires { IsSome (name_at self.old key) }
        ensures { self.new ≡ slice_set self.old key None }
    {
        self.rows[key].taken = false;
    }
}
