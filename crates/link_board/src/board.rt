//! The board that the two ends of a ring share: a word for the gate, and a cell for each order that may be outstanding.
//!
//! **The word of a cell.** It is 0 while an order lies in the cell, or was taken out of it and has no outcome yet. Otherwise its low 63 bits are a
//! number above 0: that of the order whose outcome lies in the cell or did, and at first 1. The sender makes it 0, by a compare-and-exchange that
//! finds the word as it was: that is how an order is accepted. The receiver makes it a number again when it gives an outcome.
//!
//! **The gate.** Who shuts it sets the top bit of the word that the next order would find, so that order isn't accepted, nor is any behind it.
//! If K orders have no outcome yet, there is no such word: then each outcome that is given sets the bit. The word of the gate is 1 from then on,
//! for a sender that asks while it has no free cell. Nobody unsets these bits.
//!
//! **What can't be at once.** The gate is shut and an order is accepted. The word of a cell is 0 and the sender has that cell, or it isn't 0 and
//! the receiver has it.
//!
//! An end looks at one word alone: that of the cell of its next order or outcome. So what waits comes with the word that tells of it.

ghost use Rattle.std.specs.Prelude.{◌≡◌, ◌+◌, ◌*◌, ◌<◌};
ghost use denote.RawPtr.{InBlock};
ghost use Rattle.link_board.specs.Places.{in_blocks_prop};

use crate::held::Cell;
use atomic_blocks::rows::{Link, RowRule, Rows, Seat};
use base_jobs::Task;
use base_words::{ActorNo, CoreNo};
use link_ends::{Inward, Outward};
use std::alloc::Global;
use std::marker::PhantomData;

/// The row of the gate.
pub(crate) const GATE_ROW: u64 = 0;

/// The row of the cells.
pub(crate) const CELL_ROW: u64 = 1;

/// The top bit of a word.
pub(crate) const GATE: u64 = 1 << 63;

/// What the board is told when it is made.
#[derive(Drop)]
pub struct Terms<J, T> {
    pub from: ActorNo,
    pub to: CoreNo,
    /// The number before the first order.
    pub base: u64,
    pub capacity: u64,
    /// How many cells that are never used lie between those of two orders that follow each other (`spacing`).
    pub gap: u64,
    /// How many cells there are, also those that are never used: one at least, also for no order.
    pub len: u64,
    pub gate: Link<Cell<J, T>>,
    pub cells: Link<Cell<J, T>>,
}

/// What a seat at the board knows. No value of it is made.
pub struct Known<J, T> {
    /// It is the sender's seat, so `out` is true.
    pub sends: bool,
    /// It is the receiver's seat, so `inward` is true.
    pub takes: bool,
    /// The place of the cell that is out with it.
    pub away: Option<u64>,
    pub out: Outward<J, T>,
    pub inward: Inward<J, T>,
}

/// The rule of the board.
pub struct Ring<J> {
    job: PhantomData<J>,
}

impl<J: Task> RowRule<Cell<J, J::Out>, Known<J, J::Out>, Terms<J, J::Out>> for Ring<J> {
    ghost use Rattle.base_jobs.specs.Ready.{HasReadyJob};
    ghost use Rattle.link_ends.specs.Fits.{Fits};
    ghost use Rattle.link_board.specs.Rule.{IsRing};
    ghost use Rattle.link_board.specs.Views.{first_view};

    ghost holds = { IsRing (Fits J.meaning) (HasReadyJob J.meaning) };

    ghost first = { first_view };
}

pub type Lines<J> = Rows<
    Cell<J, <J as Task>::Out>,
    Known<J, <J as Task>::Out>,
    Terms<J, <J as Task>::Out>,
    Ring<J>,
    Global,
>;

pub type Place<J> = Seat<Cell<J, <J as Task>::Out>, Known<J, <J as Task>::Out>, Global>;

/// The cells with their memory, and where they lie. What lies in a cell when the board is dropped is forgotten.
///
/// The allocator is for the drop alone. It is private here, and this module lends it to nobody: no step on a board can ask for memory.
pub struct Board<J: Task> {
    pub(crate) lines: Lines<J>,
    pub(crate) gate: Link<Cell<J, J::Out>>,
    pub(crate) cells: Link<Cell<J, J::Out>>,
    /// How many cells that are never used lie between two that are.
    pub gap: u64,
    pub(crate) len: u64,
    alloc: Global,
    ghost keyed: { (lines.key.gate.ptr ≡ gate.ptr) × (lines.key.cells.ptr ≡ cells.ptr) × (lines.key.len ≡ len) × (lines.heap ≡ alloc) },
    ghost placed: { InBlock gate.ptr × InBlock cells.ptr } by { in_blocks_prop gate.ptr cells.ptr },
    ghost spaced: { (lines.key.gap ≡ gap) × (gap < 4) × (0 < lines.key.capacity → len ≡ (gap + 1) * lines.key.capacity) },
}

impl<J: Task> Board<J> {
    /// The board of these rows, which were opened on these terms.
    pub(crate) fn of(lines: Lines<J>, terms: Terms<J, J::Out>, alloc: Global) -> Board<J>
        requires rows { (lines.key ≡ terms) × (lines.heap ≡ alloc) }
        requires placed { InBlock terms.gate.ptr × InBlock terms.cells.ptr }
        requires gap { terms.gap < 4 }
        requires len { 0 < terms.capacity → terms.len ≡ (terms.gap + 1) * terms.capacity }
        ensures { result.lines ≡ lines }
    {
        let Terms {
            from: _,
            to: _,
            base: _,
            capacity: _,
            gap,
            len,
            gate,
            cells,
        } = terms;
        Board {
            lines,
            gate,
            cells,
            gap,
            len,
            alloc,
        }
    }
}

impl<J: Task> Drop for Board<J> {
    fn drop(self) {
        let Self {
            lines,
            gate,
            cells,
            gap: _,
            len,
            alloc,
        } = self;
        let mut closed = lines.close();
        closed
            .take(CELL_ROW, cells)
            .free(&alloc, cells, len as usize);
        closed.take(GATE_ROW, gate).free(&alloc, gate, 1);
    }
}
