//! How far the cells of two orders that follow each other are apart.
//!
//! On a full link both ends work on neighbouring cells, and a processor fetches more lines of a cache than it is asked for. So between two cells in
//! use lies one that is never used, and three if a cell takes less than three lines. `benches/ring/RESULTS.md` tells what other distances take.

ghost use Rattle.std.specs.Prelude.{◌≡◌, ℕ, ◌+◌, ◌*◌, ◌^◌, ◌<◌};
ghost use Rattle.std.specs.Mem.{type_size};
ghost use prog.Memory.{capped};
ghost use Rattle.link_board.specs.Cells.{place_of};
ghost use Rattle.link_board.specs.Places.{gap_for};

use crate::board::Board;
use base_jobs::Task;
use std::mem::size_of_val;

/// The bytes of a slot whose cell takes three lines of 64: before it stand a word and a link.
const LARGE: usize = 176;

/// Whether cells are kept apart.
#[derive(Clone, Copy)]
pub enum Spacing {
    /// For two ends that may be on two threads.
    Apart,
    /// They lie side by side, for two ends on one thread.
    Dense,
}

/// How many cells that are never used lie between two that are, if they hold such a value.
pub(crate) fn gap_of<X>(held: &X, spacing: Spacing) -> u64
    ensures gap { result ≡ gap_for spacing (capped (type_size X.row)) }
    ensures few { result < 4 }
{
    let bytes = size_of_val(held);
    match spacing {
        Spacing::Dense => 0,
        Spacing::Apart => if bytes < LARGE { 3 } else { 1 },
    }
}

/// The place of the cell of an index.
#[inline]
pub(crate) fn place_at(gap: u64, capacity: u64, index: u64) -> u64
    requires gap { gap < 4 }
    requires some { 0 < capacity }
    requires few { capacity < 2 ^ 16 }
    ensures { result ≡ place_of gap capacity index }
{
    (gap + 1) * (index % capacity)
}

/// How many cells it takes for so many orders, also for none.
pub(crate) fn cells_for(gap: u64, capacity: u64) -> u64
    requires gap { gap < 4 }
    requires few { capacity < 2 ^ 16 }
    ensures some { 0 < result }
    ensures all { 0 < capacity → result ≡ (gap + 1) * capacity }
    ensures enough { (turn : ℕ) → turn < capacity → (gap + 1) * turn < result }
{
    (gap + 1) * capacity.max(1)
}

/// The place of the index after this one; after the last comes the first again. The index is for the proof alone.
#[inline]
pub fn next_place<J: Task>(board: &Board<J>, place: u64, index: u64) -> u64
    requires place { place ≡ place_of board.now.gap board.now.lines.key.capacity index }
    requires some { 0 < board.now.lines.key.capacity }
    requires few { board.now.lines.key.capacity < 2 ^ 16 }
    ensures { result ≡ place_of board.now.gap board.now.lines.key.capacity (index + 1) }
{
    let next = place + board.gap + 1;
    if next == board.len { 0 } else { next }
}
