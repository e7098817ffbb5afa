//! The heap and the rows of timers of which none is set.
ghost use Rattle.std.specs.Prelude.{◌≡◌, ℕ, ◌<◌, ◌^◌, length, slice_index_or, IfOk};
ghost use Rattle.core_timers.specs.Tables.{no_slot, no_row};

use crate::row::{Row, Slot};
use base_sealed::SealedVec;
use base_words::{ActorNo, CoreNo, JobId};
use std::alloc::{AllocError, Allocator};

/// Each key at the place of its number.
pub fn open_heap<A: Allocator>(alloc: A, places: usize) -> Result<SealedVec<Slot, A>, AllocError>
    requires { places < 2 ^ 31 }
    ensures long { IfOk result (λ heap. length heap.items ≡ places) }
    ensures keys { IfOk result (λ heap. (place : ℕ) → place < places → (slice_index_or heap.items place no_slot).key ≡ place) }
{
    let mut heap = Vec::with_capacity(alloc, places)?;
    for key in 0..places {
        heap.push(Slot {
            time: 0,
            key: key as u32,
        })?;
    }
    Ok(SealedVec::sealed(heap))
}

/// The row of each key, which tells the place of its number.
pub fn open_rows<A: Allocator>(alloc: A, places: usize) -> Result<SealedVec<Row, A>, AllocError>
    requires { places < 2 ^ 31 }
    ensures long { IfOk result (λ rows. length rows.items ≡ places) }
    ensures places { IfOk result (λ rows. (key : ℕ) → key < places → (slice_index_or rows.items key no_row).at ≡ key) }
{
    let mut rows = Vec::with_capacity(alloc, places)?;
    for key in 0..places {
        rows.push(Row {
            name: JobId {
                from: ActorNo(0),
                to: CoreNo(0),
                number: 0,
            },
            at: key as u32,
        })?;
    }
    Ok(SealedVec::sealed(rows))
}
