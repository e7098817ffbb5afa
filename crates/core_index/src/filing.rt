//! A key comes into the bucket of its name, or leaves it.
ghost use Rattle.std.specs.Prelude.{◌≡◌, ◌<◌, length, map, Some, None, IsSome, slice_set};
ghost use Rattle.core_index.specs.Buckets.{shown, shown_at, filed_at, IsIndexed};

use crate::row::{Bucket, Row, place_of};
use crate::walk::before;
use base_sealed::SealedVec;
use base_words::JobId;
use std::alloc::Allocator;

/// A key that isn't filed, and that a job of this name gets, becomes the head of the name's bucket.
#[inline(always)]
pub fn file<A: Allocator>(
    rows: &mut SealedVec<Row, A>,
    buckets: &mut SealedVec<Bucket, A>,
    mask: u64,
    name: &JobId,
    key: usize,
)
    requires indexed { IsIndexed mask rows.old.items buckets.old.items }
    requires within { key < length rows.old.items }
    requires unfiled { filed_at rows.old.items key ≡ None }
    ensures indexed { IsIndexed mask rows.new.items buckets.new.items }
    ensures names { map shown rows.new.items ≡ slice_set (map shown rows.old.items) key (Some name.now) }
{
    let place = place_of(name, mask);
    let bucket = buckets[place];
    rows[key] = Row {
        name: *name,
        next: bucket.head,
        filed: true,
        taken: true,
    };
    buckets[place] = Bucket {
        head: key as u32,
        count: bucket.count + 1,
    };
}

/// A key that no job has any more leaves its bucket.
#[inline(always)]
pub fn unfile<A: Allocator>(
    rows: &mut SealedVec<Row, A>,
    buckets: &mut SealedVec<Bucket, A>,
    mask: u64,
    key: usize,
)
    requires indexed { IsIndexed mask rows.old.items buckets.old.items }
    requires there { IsSome (filed_at rows.old.items key) }
    requires vacant { shown_at rows.old.items key ≡ None }
    ensures indexed { IsIndexed mask rows.new.items buckets.new.items }
    ensures gone { filed_at rows.new.items key ≡ None }
    ensures names { map shown rows.new.items ≡ map shown rows.old.items }
{
    let row = rows[key];
    let place = place_of(&row.name, mask);
    let bucket = buckets[place];
    if bucket.head as usize == key {
        rows[key].filed = false;
        buckets[place] = Bucket {
            head: row.next,
            count: bucket.count - 1,
        };
        return;
    }
    let last = before(rows, bucket, key);
    rows[last].next = row.next;
    rows[key].filed = false;
    buckets[place] = Bucket {
        head: bucket.head,
        count: bucket.count - 1,
    };
}
