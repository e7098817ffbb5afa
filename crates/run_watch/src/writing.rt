//! The steps of the publisher's seat.

ghost use Rattle.std.specs.Prelude.{◌≡◌, ℕ, ◌+◌, ◌-◌, ◌<◌, ◌≤◌, ◌^◌, [], true, is_some, length, slice_get, slice_set, Some};
ghost use Rattle.base_words.specs.declared.stats.QueueStats.{QueueStats as Queue};
ghost use Rattle.base_words.specs.Charge.{InRange};
ghost use Rattle.run_watch.specs.Closed.{closed_by_itself, told_after};
ghost use Rattle.run_watch.specs.Ends.{IsPublisher, IsWriting};
ghost use Rattle.run_watch.specs.Growth.{Grows};
ghost use Rattle.run_watch.specs.Tells.{Tells, TellsCore, TellsQueues};
ghost use Rattle.run_watch.specs.Views.{with_begun, with_row, with_done};
ghost use Rattle.run_watch.specs.Words.{HasAt, Writes, closed_in};
ghost use Rattle.run_watch.specs.Words as spec;

use crate::board::{BEGUN, Board, DONE, Place, ROW, Terms};
use crate::plays::{Begin, End, Put};
use crate::words::{core_words, place_of, words_at};
use base_words::{CoreStats, QueueStats};
use note_journal::RunningJournal;

/// So many publications are begun.
fn begin(board: &Board, seat: &mut Place, count: u64)
    requires board { (seat.old.table_id ≡ board.now.shared.table_id) × (2 ≤ board.now.shared.table_id.words) }
    requires publishes { seat.old.me.0.publishes ≡ true }
    requires next { seat.old.me.0.published.done < count }
    ensures table { seat.new.table_id ≡ seat.old.table_id }
    ensures view { seat.new.me.0 ≡ with_begun seat.old.me.0 count }
{
    // step: begin. From here on no look that is on the way finds one publication.
    board.shared.store::<Begin>(seat, BEGUN, count);
}

/// The word of the row at this place becomes this one, and in the publisher's own row too. A word that is so already isn't stored.
fn put(board: &Board, seat: &mut Place, row: &mut Vec<u64>, place: usize, word: u64)
    requires writing { IsWriting seat.old.table_id board.now.shared.table_id seat.old.me row.old.items }
    requires within { place < length row.old.items }
    ensures writing { IsWriting seat.new.table_id board.now.shared.table_id seat.new.me row.new.items }
    ensures table { seat.new.table_id ≡ seat.old.table_id }
    ensures view { seat.new.me.0 ≡ with_row seat.old.me.0 row.new.items }
    ensures row { row.new.items ≡ slice_set row.old.items place word }
{
    if row[place] == word {
        return;
    }
    // step: put. The two counts differ meanwhile.
    board.shared.store::<Put>(seat, ROW + place, word);
    row[place] = word;
}

/// The words of the row from this place on become these.
fn put_words(board: &Board, seat: &mut Place, row: &mut Vec<u64>, place: usize, words: &[u64])
    requires writing { IsWriting seat.old.table_id board.now.shared.table_id seat.old.me row.old.items }
    requires within { place + length words.now ≤ length row.old.items }
    ensures writing { IsWriting seat.new.table_id board.now.shared.table_id seat.new.me row.new.items }
    ensures table { seat.new.table_id ≡ seat.old.table_id }
    ensures view { seat.new.me.0 ≡ with_row seat.old.me.0 row.new.items }
    ensures writes { Writes place words.now row.old.items row.new.items }
{
    for index in 0..words.len() {
        put(board, seat, row, place + index, words[index]);
    }
}

/// The words of each queue that has a place become those of its numbers.
fn put_queues(
    board: &Board,
    seat: &mut Place,
    row: &mut Vec<u64>,
    places: usize,
    queues: &[QueueStats],
)
    requires writing { IsWriting seat.old.table_id board.now.shared.table_id seat.old.me row.old.items }
    requires places { (places < 2 ^ 16) × (length row.old.items ≡ spec.place_of places) }
    ensures writing { IsWriting seat.new.table_id board.now.shared.table_id seat.new.me row.new.items }
    ensures table { seat.new.table_id ≡ seat.old.table_id }
    ensures view { seat.new.me.0 ≡ with_row seat.old.me.0 row.new.items }
    ensures writes { Writes 7 [] row.old.items row.new.items }
    ensures has { (queue : ℕ) (stats : Queue) → queue < places → slice_get queues.now queue ≡ Some stats → HasAt row.new.items (spec.place_of queue) (spec.queue_words stats) × InRange stats.shares }
{
    for number in 0..queues.len().min(places) {
        let words = words_at(queues, number);
        put_words(board, seat, row, place_of(number), &words);
    }
}

/// The row becomes that of these numbers.
fn put_row(
    board: &Board,
    seat: &mut Place,
    row: &mut Vec<u64>,
    places: usize,
    closed: bool,
    core: &CoreStats,
    queues: &[QueueStats],
)
    requires writing { IsWriting seat.old.table_id board.now.shared.table_id seat.old.me row.old.items }
    requires places { (places < 2 ^ 16) × (length row.old.items ≡ spec.place_of places) }
    ensures table { seat.new.table_id ≡ seat.old.table_id }
    ensures view { seat.new.me.0 ≡ with_row seat.old.me.0 row.new.items }
    ensures wide { length row.new.items ≡ length row.old.items }
    ensures core { HasAt row.new.items 0 (spec.core_words core.now (length queues.now) closed) }
    ensures queues { (queue : ℕ) (stats : Queue) → queue < places → slice_get queues.now queue ≡ Some stats → HasAt row.new.items (spec.place_of queue) (spec.queue_words stats) × InRange stats.shares }
{
    let head = core_words(core, queues.len(), closed);
    put_words(board, seat, row, 0, &head);
    put_queues(board, seat, row, places, queues);
}

/// So many publications are done, the last of which was of the notes of this journal.
fn end(board: &Board, seat: &mut Place, count: u64, journal: &RunningJournal<u64>)
    requires board { (seat.old.table_id ≡ board.now.shared.table_id) × (2 ≤ board.now.shared.table_id.words) }
    requires publishes { (seat.old.me.0.publishes ≡ true) × (seat.old.me.0.knows ≡ true) }
    requires begun { (seat.old.me.0.published.done + 1 ≡ count) × (seat.old.me.0.published.begun ≡ count) }
    requires grows { Grows seat.old.me.0.published.notes journal.now.notes }
    requires tells { Tells seat.old.me.0.terms journal.now.notes seat.old.me.0.published.row }
    requires closed { is_some seat.old.me.0.published.closed ≡ true → closed_in seat.old.me.0.published.row ≡ true }
    ensures table { seat.new.table_id ≡ seat.old.table_id }
    ensures view { seat.new.me.0 ≡ with_done seat.old.me.0 count journal.now.notes }
{
    // step: end. No other seat changes the word, so this one try succeeds.
    let _before = board
        .shared
        .compare_exchange_with::<End>(seat, DONE, count - 1, count, journal);
}

/// Publishes these numbers, behind so many publications.
pub(crate) fn publish_on(
    board: &Board,
    seat: &mut Place,
    row: &mut Vec<u64>,
    terms: Terms,
    count: u64,
    closed: bool,
    journal: &RunningJournal<u64>,
    core: &CoreStats,
    queues: &[QueueStats],
)
    requires publisher { IsPublisher seat.old.table_id board.now.shared.table_id seat.old.me terms row.old.items count }
    requires stays { is_some seat.old.me.0.published.closed ≡ true → closed ≡ true }
    requires own { closed ≡ true → closed_by_itself journal.now.notes ≡ true }
    requires spent { count < 2 ^ 64 - 1 }
    requires grows { Grows seat.old.me.0.published.notes journal.now.notes }
    requires core { TellsCore terms.cores journal.now.notes core.now }
    requires queues { TellsQueues terms.burst journal.now.notes queues.now }
    ensures publisher { IsPublisher seat.new.table_id board.now.shared.table_id seat.new.me terms row.new.items (count + 1) }
    ensures table { seat.new.table_id ≡ seat.old.table_id }
    ensures notes { seat.new.me.0.published.notes ≡ journal.now.notes }
    ensures closed { seat.new.me.0.published.closed ≡ told_after seat.old.me.0.published.closed (count + 1) closed }
{
    let next = count + 1;
    begin(board, seat, next);
    put_row(
        board,
        seat,
        row,
        terms.places as usize,
        closed,
        core,
        queues,
    );
    end(board, seat, next, journal);
}
