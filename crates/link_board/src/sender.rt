//! The steps of the sender's seat.

ghost use Rattle.std.specs.Prelude.{◌≡◌, ◌+◌, ◌*◌, ◌^◌, ◌<◌, false, true, length, Some, slice_get, IfErr, IfNone, IfOk, IfSome};
ghost use Rattle.base_jobs.specs.Ready.{HasReadyJob};
ghost use Rattle.link_ends.specs.Fits.{Fits};
ghost use Rattle.link_board.specs.After.{with_closed, with_got, with_sent};
ghost use Rattle.link_board.specs.Cells.{place_of};
ghost use Rattle.link_board.specs.Seats.{IsSender};
ghost use Rattle.link_board.specs.Told.{SeesOutcomes};

use crate::board::{Board, CELL_ROW, GATE, GATE_ROW, Place};
use crate::held::{hold_order, order_of, outcome_of};
use crate::plays::{Accept, Gather, HomeFree, LendOrder, LiftOutcome, Peek, Probe};
use base_jobs::Task;
use base_words::{Order, Outcome};
use link_cells::{MaybeTaken, take_out};
use std::mem::forget;

/// One try to have an order accepted, in the cell of the next one. The order comes back if the gate is shut.
#[inline(always)]
pub fn offer<J: Task>(
    board: &Board<J>,
    seat: &mut Place<J>,
    place: usize,
    order: Order<J>,
) -> Result<(), Order<J>>
    requires at { (seat.old.rows ≡ board.now.lines.id) × (seat.old.heap ≡ board.now.lines.heap) }
    requires sender { IsSender seat.old.me }
    requires place { place ≡ place_of board.now.gap seat.old.me.view.out.capacity (length seat.old.me.view.out.sent) }
    requires number { seat.old.me.view.out.base + length seat.old.me.view.out.sent + 1 < 2 ^ 63 }
    requires room { length seat.old.me.view.out.sent < seat.old.me.view.out.got + seat.old.me.view.out.capacity }
    requires ready { HasReadyJob J.meaning order }
    ensures at { (seat.new.rows ≡ seat.old.rows) × (seat.new.heap ≡ seat.old.heap) }
    ensures sender { IsSender seat.new.me }
    ensures ok { IfOk result (λ _. (seat.old.me.view.out.closed ≡ false) × (seat.new.me.view ≡ with_sent seat.old.me.view order)) }
    ensures err { IfErr result (λ back. (back ≡ order) × (seat.new.me.view ≡ with_closed seat.old.me.view)) }
{
    let lines = &board.lines;
    // step: lend. The word stays, except its top bit.
    let word = lines.load::<LendOrder>(seat, CELL_ROW, board.cells, place);
    if word >= GATE {
        return Err(order);
    }
    let held = MaybeTaken::of(hold_order(order));
    forget(lines.exchange(seat, board.cells, place, held));
    // step: accept. One try decides, since only the gate can make it fail.
    if lines.compare_exchange::<Accept>(seat, CELL_ROW, board.cells, place, word, 0) == word {
        return Ok(());
    }
    let back = order_of(take_out(lines, seat, board.cells, place));
    // step: home.
    let _word = lines.load::<HomeFree>(seat, CELL_ROW, board.cells, place);
    Err(back)
}

/// Whether the gate is open, as its word tells.
pub fn is_open<J: Task>(board: &Board<J>, seat: &mut Place<J>) -> bool
    requires at { (seat.old.rows ≡ board.now.lines.id) × (seat.old.heap ≡ board.now.lines.heap) }
    requires sender { IsSender seat.old.me }
    ensures at { (seat.new.rows ≡ seat.old.rows) × (seat.new.heap ≡ seat.old.heap) }
    ensures sender { IsSender seat.new.me }
    ensures clear { result ≡ true → seat.new.me.view ≡ seat.old.me.view }
    ensures shut { result ≡ false → seat.new.me.view ≡ with_closed seat.old.me.view }
{
    // step: probe.
    board.lines.load::<Probe>(seat, GATE_ROW, board.gate, 0) == 0
}

/// The next outcome, with its order's number, if it was given.
#[inline(always)]
pub fn next_outcome<J: Task>(
    board: &Board<J>,
    seat: &mut Place<J>,
    place: usize,
) -> Option<(u64, Outcome<J, J::Out>)>
    requires at { (seat.old.rows ≡ board.now.lines.id) × (seat.old.heap ≡ board.now.lines.heap) }
    requires sender { IsSender seat.old.me }
    requires place { place ≡ place_of board.now.gap seat.old.me.view.out.capacity seat.old.me.view.out.got }
    requires waits { seat.old.me.view.out.got < length seat.old.me.view.out.sent }
    ensures at { (seat.new.rows ≡ seat.old.rows) × (seat.new.heap ≡ seat.old.heap) }
    ensures sender { IsSender seat.new.me }
    ensures sees { SeesOutcomes (Fits J.meaning) seat.old.me.view.out seat.new.me.view.out.seen }
    ensures none { IfNone result (seat.new.me.view ≡ seat.old.me.view) }
    ensures got { IfSome result (λ _. seat.new.me.view ≡ with_got seat.old.me.view seat.new.me.view.out.seen (seat.old.me.view.out.got + 1)) }
    ensures outcome { IfSome result (λ found. slice_get seat.new.me.view.out.seen seat.old.me.view.out.got ≡ Some found) }
{
    let lines = &board.lines;
    // step: lift an outcome.
    let word = lines.load::<LiftOutcome>(seat, CELL_ROW, board.cells, place);
    if word == 0 {
        return None;
    }
    let outcome = outcome_of(take_out(lines, seat, board.cells, place));
    // step: home.
    let _word = lines.load::<HomeFree>(seat, CELL_ROW, board.cells, place);
    Some((word % GATE, outcome))
}

/// What each outcome that was seen before is of. It is asked where nothing is outstanding.
pub fn see_none<J: Task>(board: &Board<J>, seat: &mut Place<J>)
    requires at { (seat.old.rows ≡ board.now.lines.id) × (seat.old.heap ≡ board.now.lines.heap) }
    requires sender { IsSender seat.old.me }
    ensures at { (seat.new.rows ≡ seat.old.rows) × (seat.new.heap ≡ seat.old.heap) }
    ensures sender { IsSender seat.new.me }
    ensures sees { SeesOutcomes (Fits J.meaning) seat.old.me.view.out seat.old.me.view.out.seen }
    ensures same { seat.new.me.view ≡ seat.old.me.view }
{
    // step: gather. It tells the proof alone something.
    let _word = board.lines.load::<Gather>(seat, GATE_ROW, board.gate, 0);
}

/// Whether an outcome lies in the cell of this index, which is the next one's and outstanding. No clause says that the answer is right.
pub fn shows_outcome<J: Task>(board: &Board<J>, place: usize, index: u64) -> bool
    requires place { place ≡ place_of board.now.gap board.now.lines.key.capacity index }
    requires some { 0 < board.now.lines.key.capacity }
    requires few { board.now.lines.key.capacity < 2 ^ 16 }
{
    // step: peek. Neither end knows more by it.
    let (word, seat) = board
        .lines
        .load_new_seat::<Peek>(CELL_ROW, board.cells, place);
    seat.leave();
    word != 0
}
