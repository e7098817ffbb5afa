//! A walk through one bucket.
ghost use Rattle.std.specs.Prelude.{◌≡◌, ◌≢◌, ℕ, Some, IfSome, IfNone};
ghost use Rattle.core_index.specs.Buckets.{shown_at, keys_in, copies, HoldsFiled, HoldsAll, Precedes};

use crate::row::{Bucket, Row, is_same};
use base_sealed::SealedVec;
use base_words::JobId;
use std::alloc::Allocator;

/// Looks for a key that a job of this name has in the bucket of the name.
#[inline(always)]
pub fn look<A: Allocator>(rows: &SealedVec<Row, A>, bucket: Bucket, name: &JobId) -> Option<usize>
    requires held { HoldsFiled rows.now.items bucket }
    requires complete { HoldsAll rows.now.items bucket name.now }
    ensures found { IfSome result (λ key. shown_at rows.now.items key ≡ Some name.now) }
    ensures none { IfNone result ((key : ℕ) → shown_at rows.now.items key ≢ Some name.now) }
{
    let mut key = bucket.head as usize;
    for index in 0..bucket.count {
        let row = &rows[key];
        if is_same(name, &row.name) && row.taken {
            return Some(key);
        }
        key = row.next as usize;
    }
    None
}

/// The key right before this one, which is in the bucket but isn't its head.
#[inline(never)]
pub fn before<A: Allocator>(rows: &SealedVec<Row, A>, bucket: Bucket, key: usize) -> usize
    requires there { copies key (keys_in rows.now.items bucket) ≡ 1 }
    requires behind { bucket.head ≢ key }
    requires held { HoldsFiled rows.now.items bucket }
    ensures { Precedes rows.now.items bucket.head bucket.count result key }
{
    let mut at = bucket.head as usize;
    for index in 0..bucket.count - 1 {
        let next = rows[at].next as usize;
        if next == key {
            return at;
        }
        at = next;
    }
    unreachable!()
}
