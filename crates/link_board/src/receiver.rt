//! The steps of the receiver's seat.

ghost use Rattle.std.specs.Prelude.{◌≡◌, ◌+◌, ◌*◌, ◌^◌, ◌<◌, ◌≤◌, ◌⊎◌, false, true, length, Some, slice_get, IfNone, IfSome};
ghost use Rattle.base_jobs.specs.Ready.{HasReadyJob};
ghost use Rattle.link_ends.specs.Calls.{MayGive};
ghost use Rattle.link_ends.specs.Fits.{Fits};
ghost use Rattle.link_board.specs.After.{with_given, with_shut, with_taken};
ghost use Rattle.link_board.specs.Cells.{gate_bit, place_of};
ghost use Rattle.link_board.specs.Seats.{IsReceiver, Watches};
ghost use Rattle.link_board.specs.Told.{SeesOrders};

use crate::board::{Board, CELL_ROW, GATE, GATE_ROW, Place};
use crate::held::{hold_outcome, order_of};
use crate::plays::{Give, HomeAnswered, LendBack, LiftOrder, Look, Mark, Peek, Seal};
use crate::spacing::place_at;
use base_jobs::Task;
use base_words::{Order, Outcome};
use link_cells::{MaybeTaken, take_out};
use std::mem::forget;

/// The next order, if it was sent.
#[inline(always)]
pub fn next_order<J: Task>(board: &Board<J>, seat: &mut Place<J>, place: usize) -> Option<Order<J>>
    requires at { (seat.old.rows ≡ board.now.lines.id) × (seat.old.heap ≡ board.now.lines.heap) }
    requires receiver { IsReceiver seat.old.me }
    requires place { place ≡ place_of board.now.gap seat.old.me.view.inward.capacity seat.old.me.view.inward.taken }
    requires room { seat.old.me.view.inward.taken < length seat.old.me.view.inward.given + seat.old.me.view.inward.capacity }
    ensures at { (seat.new.rows ≡ seat.old.rows) × (seat.new.heap ≡ seat.old.heap) }
    ensures receiver { IsReceiver seat.new.me }
    ensures sees { SeesOrders (HasReadyJob J.meaning) seat.old.me.view.inward seat.new.me.view.inward.seen }
    ensures none { IfNone result ((seat.new.me.view ≡ seat.old.me.view) × (length seat.old.me.view.inward.seen ≡ seat.old.me.view.inward.taken)) }
    ensures took { IfSome result (λ _. seat.new.me.view ≡ with_taken seat.old.me.view seat.new.me.view.inward.seen (seat.old.me.view.inward.taken + 1)) }
    ensures order { IfSome result (λ order. slice_get seat.new.me.view.inward.seen seat.old.me.view.inward.taken ≡ Some order) }
    ensures last { IfSome result (λ _. length seat.old.me.view.inward.seen ≡ seat.old.me.view.inward.taken → length seat.new.me.view.inward.seen ≡ seat.old.me.view.inward.taken + 1) }
{
    let lines = &board.lines;
    // step: lift an order.
    if lines.load::<LiftOrder>(seat, CELL_ROW, board.cells, place) != 0 {
        return None;
    }
    let order = order_of(take_out(lines, seat, board.cells, place));
    // step: home.
    let _word = lines.load::<HomeAnswered>(seat, CELL_ROW, board.cells, place);
    Some(order)
}

/// The word of a cell in which the outcome of this number lies.
#[inline]
fn given_word(shut: bool, number: u64) -> u64
    requires { number < 2 ^ 63 }
    ensures { result ≡ number + gate_bit shut }
{
    if shut { number + GATE } else { number }
}

/// Gives the outcome of the order of this number.
#[inline(always)]
pub fn give<J: Task>(
    board: &Board<J>,
    seat: &mut Place<J>,
    place: usize,
    shut: bool,
    number: u64,
    outcome: Outcome<J, J::Out>,
)
    requires at { (seat.old.rows ≡ board.now.lines.id) × (seat.old.heap ≡ board.now.lines.heap) }
    requires receiver { IsReceiver seat.old.me }
    requires place { place ≡ place_of board.now.gap seat.old.me.view.inward.capacity (length seat.old.me.view.inward.given) }
    requires owed { length seat.old.me.view.inward.given < seat.old.me.view.inward.taken }
    requires shut { shut ≡ seat.old.me.view.inward.shut }
    requires number { number < 2 ^ 63 }
    requires may { MayGive (Fits J.meaning) seat.old.me.view.inward number outcome }
    ensures at { (seat.new.rows ≡ seat.old.rows) × (seat.new.heap ≡ seat.old.heap) }
    ensures receiver { IsReceiver seat.new.me }
    ensures gave { seat.new.me.view ≡ with_given seat.old.me.view number outcome }
{
    let lines = &board.lines;
    // step: lend back. The word stays 0 until the outcome is given.
    let _word = lines.load::<LendBack>(seat, CELL_ROW, board.cells, place);
    let held = MaybeTaken::of(hold_outcome(outcome));
    forget(lines.exchange(seat, board.cells, place, held));
    let marked = given_word(shut, number);
    // step: give.
    lines.store::<Give>(seat, CELL_ROW, board.cells, place, marked);
}

/// Marks the word that the next order would find, if there is a free cell. `seen` orders were seen before, and `given` outcomes given. How many
/// orders were seen.
fn mark_next<J: Task>(
    board: &Board<J>,
    seat: &mut Place<J>,
    seen: u64,
    given: u64,
    capacity: u64,
) -> u64
    requires at { (seat.old.rows ≡ board.now.lines.id) × (seat.old.heap ≡ board.now.lines.heap) }
    requires receiver { IsReceiver seat.old.me }
    requires clear { seat.old.me.view.inward.shut ≡ false }
    requires seen { seen ≡ length seat.old.me.view.inward.seen }
    requires given { given ≡ length seat.old.me.view.inward.given }
    requires capacity { capacity ≡ seat.old.me.view.inward.capacity }
    ensures at { (seat.new.rows ≡ seat.old.rows) × (seat.new.heap ≡ seat.old.heap) }
    ensures watches { Watches seat.old.me seat.new.me }
    ensures ends { (seat.new.me.view.inward.shut ≡ true) ⊎ (length seat.new.me.view.inward.given + seat.new.me.view.inward.capacity ≤ length seat.new.me.view.inward.seen) }
    ensures value { result ≡ length seat.new.me.view.inward.seen }
{
    let mut seen = seen;
    'looks: while seen - given < capacity {
        let place = place_at(board.gap, capacity, seen) as usize;
        // step: look.
        let word = board.lines.load::<Look>(seat, CELL_ROW, board.cells, place);
        if word != 0 {
            let marked = word + GATE;
            // step: mark. From here on no order is accepted.
            if board
                .lines
                .compare_exchange::<Mark>(seat, CELL_ROW, board.cells, place, word, marked)
                == word
            {
                return seen;
            }
        }
        seen += 1;
    }
    seen
}

/// Shuts the gate. `seen` orders were seen before, and `given` outcomes given. How many orders were accepted.
pub fn close<J: Task>(
    board: &Board<J>,
    seat: &mut Place<J>,
    seen: u64,
    given: u64,
    capacity: u64,
) -> u64
    requires at { (seat.old.rows ≡ board.now.lines.id) × (seat.old.heap ≡ board.now.lines.heap) }
    requires receiver { IsReceiver seat.old.me }
    requires clear { seat.old.me.view.inward.shut ≡ false }
    requires few { length seat.old.me.view.inward.seen ≤ length seat.old.me.view.inward.given + seat.old.me.view.inward.capacity }
    requires seen { seen ≡ length seat.old.me.view.inward.seen }
    requires given { given ≡ length seat.old.me.view.inward.given }
    requires capacity { capacity ≡ seat.old.me.view.inward.capacity }
    ensures at { (seat.new.rows ≡ seat.old.rows) × (seat.new.heap ≡ seat.old.heap) }
    ensures receiver { IsReceiver seat.new.me }
    ensures sees { SeesOrders (HasReadyJob J.meaning) seat.old.me.view.inward seat.new.me.view.inward.seen }
    ensures shut { seat.new.me.view ≡ with_shut seat.old.me.view seat.new.me.view.inward.seen }
    ensures value { result ≡ length seat.new.me.view.inward.seen }
{
    let all = mark_next(board, seat, seen, given, capacity);
    // step: seal. If no cell is free, no order can be accepted before an outcome is given.
    board.lines.store::<Seal>(seat, GATE_ROW, board.gate, 0, 1);
    all
}

/// Whether an order lies in the cell of this index, which is the next one's. No clause says that the answer is right.
pub fn shows_order<J: Task>(board: &Board<J>, place: usize, index: u64) -> bool
    requires place { place ≡ place_of board.now.gap board.now.lines.key.capacity index }
    requires some { 0 < board.now.lines.key.capacity }
    requires few { board.now.lines.key.capacity < 2 ^ 16 }
{
    // step: peek. Neither end knows more by it.
    let (word, seat) = board
        .lines
        .load_new_seat::<Peek>(CELL_ROW, board.cells, place);
    seat.leave();
    word == 0
}
