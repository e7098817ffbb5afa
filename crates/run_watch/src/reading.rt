//! The steps of a watcher's seat.

ghost use Rattle.std.specs.Prelude.{◌≡◌, ◌+◌, ◌<◌, ◌≤◌, [], true, IfSome, None, length};
ghost use Rattle.run_watch.specs.Told.{Checks, Found, FoundNone};
ghost use Rattle.run_watch.specs.Views.{with_look, with_reads};
ghost use Rattle.run_watch.specs.Words as spec;

use crate::board::{BEGUN, Board, DONE, Place, ROW};
use crate::plays::{Check, Look, Read};

/// A look begins. The count of publications done, as it is now.
fn look(board: &Board, seat: &mut Place) -> u64
    requires board { (seat.old.table_id ≡ board.now.shared.table_id) × (2 ≤ board.now.shared.table_id.words) }
    ensures table { seat.new.table_id ≡ seat.old.table_id }
    ensures view { seat.new.me.0 ≡ with_look seat.old.me.0 result }
{
    // step: look.
    board.shared.load::<Look>(seat, DONE)
}

/// Reads the words of the row, as many as there are here.
fn read_all(board: &Board, seat: &mut Place, row: &mut Vec<u64>)
    requires board { (seat.old.table_id ≡ board.now.shared.table_id) × (board.now.shared.table_id.words ≡ 2 + length row.old.items) }
    requires knows { seat.old.me.0.knows ≡ true }
    requires wide { length row.old.items ≡ spec.place_of seat.old.me.0.terms.places }
    requires none { seat.old.me.0.looked.read ≡ [] }
    ensures table { seat.new.table_id ≡ seat.old.table_id }
    ensures view { seat.new.me.0 ≡ with_reads seat.old.me.0 row.new.items }
    ensures wide { length row.new.items ≡ length row.old.items }
{
    for index in 0..row.len() {
        // step: read.
        let word = board.shared.load::<Read>(seat, ROW + index);
        row[index] = word;
    }
}

/// The count of publications begun. If it is the one of those done at the look, then the look found one publication.
fn check(board: &Board, seat: &mut Place) -> u64
    requires board { (seat.old.table_id ≡ board.now.shared.table_id) × (2 ≤ board.now.shared.table_id.words) }
    requires knows { seat.old.me.0.knows ≡ true }
    requires whole { 6 < length seat.old.me.0.looked.read }
    ensures table { seat.new.table_id ≡ seat.old.table_id }
    ensures checks { Checks seat.old.me result seat.new.me }
{
    // step: check.
    board.shared.load::<Check>(seat, BEGUN)
}

/// One try of a look. If it found one publication, the row is the one of that, and its number is answered.
pub(crate) fn look_on(board: &Board, seat: &mut Place, row: &mut Vec<u64>) -> Option<u64>
    requires board { (seat.old.table_id ≡ board.now.shared.table_id) × (board.now.shared.table_id.words ≡ 2 + length row.old.items) }
    requires knows { seat.old.me.0.knows ≡ true }
    requires wide { length row.old.items ≡ spec.place_of seat.old.me.0.terms.places }
    ensures table { seat.new.table_id ≡ seat.old.table_id }
    ensures terms { (seat.new.me.0.terms ≡ seat.old.me.0.terms) × (seat.new.me.0.knows ≡ true) }
    ensures wide { length row.new.items ≡ length row.old.items }
    ensures found { IfSome result (λ count. Found row.new.items count seat.old.me.0 seat.new.me.0) }
    ensures none { result ≡ None → FoundNone seat.old.me.0 seat.new.me.0 }
{
    let at = look(board, seat);
    read_all(board, seat, row);
    let found = check(board, seat);
    if found != at {
        return None;
    }
    Some(at)
}
