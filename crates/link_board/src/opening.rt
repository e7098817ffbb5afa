//! How a board is made, and how its two seats are compared at the end.

ghost use Rattle.std.specs.Prelude.{◌≡◌, ◌+◌, ◌^◌, ◌<◌, ◌≤◌, true, length, take, IfOk};
ghost use denote.RawPtr.{InBlock};
ghost use Rattle.link_ends.specs.Ends.{AreOf, Joined};
ghost use Rattle.link_ends.specs.Fits.{Fits};
ghost use Rattle.link_ends.specs.Whole.{fresh, inward_of, out_of};
ghost use Rattle.link_board.specs.Places.{AreFresh};
ghost use Rattle.link_board.specs.Seats.{IsReceiver, IsSender};

use crate::board::{Board, GATE_ROW, Lines, Place, Terms};
use crate::held::{Cell, Held};
use crate::plays::{Compare, Halves};
use crate::spacing::{Spacing, cells_for, gap_of};
use atomic_blocks::rows::{Link, Loose, Rows};
use base_jobs::Task;
use base_words::{ActorNo, CoreNo};
use link_cells::MaybeTaken;
use std::alloc::{AllocError, Global};

/// A row of cells that hold nothing, each with this word.
fn row_of<J: Drop, T: Drop>(
    alloc: &Global,
    len: u64,
    word: u64,
) -> Result<(Link<Cell<J, T>>, Loose<Cell<J, T>, Global>), AllocError>
    ensures place { IfOk result (λ row. (row.1.heap ≡ alloc.now) × (row.1.at ≡ row.0.ptr) × InBlock row.0.ptr × (row.1.left ≡ 0)) }
    ensures cells { IfOk result (λ row. AreFresh row.1.cells len word) }
{
    let (link, mut row) = Loose::reserve(alloc, len as usize)?;
    'cells: for index in 0..len {
        row.push(
            link,
            index as usize,
            word,
            link,
            MaybeTaken::bytes_of(Held::Empty),
        );
    }
    Ok((link, row))
}

/// A board and its two seats, the sender's and the receiver's.
pub fn lay<J: Task>(
    alloc: Global,
    from: ActorNo,
    to: CoreNo,
    base: u64,
    capacity: u16,
    spacing: Spacing,
) -> Result<(Board<J>, Place<J>, Place<J>), AllocError>
    requires { base < 2 ^ 63 }
    ensures sender_at { IfOk result (λ laid. (laid.1.rows ≡ laid.0.lines.id) × (laid.1.heap ≡ laid.0.lines.heap)) }
    ensures receiver_at { IfOk result (λ laid. (laid.2.rows ≡ laid.0.lines.id) × (laid.2.heap ≡ laid.0.lines.heap)) }
    ensures capacity { IfOk result (λ laid. laid.0.lines.key.capacity ≡ capacity) }
    ensures sender { IfOk result (λ laid. IsSender laid.1.me) }
    ensures receiver { IfOk result (λ laid. IsReceiver laid.2.me) }
    ensures out { IfOk result (λ laid. laid.1.me.view.out ≡ out_of (fresh from to capacity base)) }
    ensures inward { IfOk result (λ laid. laid.2.me.view.inward ≡ inward_of (fresh from to capacity base)) }
{
    let capacity = capacity as u64;
    let empty: Cell<J, J::Out> = MaybeTaken::bytes_of(Held::Empty);
    let gap = gap_of(&empty, spacing);
    let len = cells_for(gap, capacity);
    let (gate, gate_row) = row_of::<J, J::Out>(&alloc, 1, 0)?;
    let Ok((cells, cell_row)) = row_of::<J, J::Out>(&alloc, len, 1) else {
        gate_row.free(&alloc, gate, 1);
        return Err(AllocError);
    };
    let terms = Terms {
        from,
        to,
        base,
        capacity,
        gap,
        len,
        gate,
        cells,
    };
    let (lines, mut seat): (Lines<J>, Place<J>) = Rows::open(&terms, gate_row, cell_row);
    let other = lines.split_seat::<Halves>(&mut seat, GATE_ROW, gate);
    Ok((Board::of(lines, terms, alloc), seat, other))
}

/// Compares what the two seats know, by which both ends are those of one link. The receiver's seat comes back.
pub fn compare<J: Task>(board: &Board<J>, seat: &mut Place<J>, other: Place<J>) -> Place<J>
    requires at { (seat.old.rows ≡ board.now.lines.id) × (seat.old.heap ≡ board.now.lines.heap) }
    requires other_at { (other.rows ≡ board.now.lines.id) × (other.heap ≡ board.now.lines.heap) }
    requires sender { IsSender seat.old.me }
    requires receiver { IsReceiver other.me }
    ensures at { (seat.new.rows ≡ seat.old.rows) × (seat.new.heap ≡ seat.old.heap) }
    ensures other_at { (result.rows ≡ other.rows) × (result.heap ≡ other.heap) }
    ensures sender { IsSender seat.new.me }
    ensures receiver { IsReceiver result.me }
    ensures out { seat.new.me.view.out ≡ seat.old.me.view.out }
    ensures inward { result.me.view.inward ≡ other.me.view.inward }
    ensures joined { Joined seat.old.me.view.out other.me.view.inward }
    ensures outcomes { AreOf (Fits J.meaning) seat.old.me.view.out.base (take other.me.view.inward.taken seat.old.me.view.out.sent) other.me.view.inward.given }
{
    let lines = &board.lines;
    lines.join_seat::<Halves>(seat, other, GATE_ROW, board.gate);
    // step: the last load, by the seat that now knows both ends. No other thread has an end any more.
    let _word = lines.load::<Compare>(seat, GATE_ROW, board.gate, 0);
    lines.split_seat::<Halves>(seat, GATE_ROW, board.gate)
}
