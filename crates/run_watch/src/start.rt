//! How a board is opened.

ghost use Rattle.std.specs.Prelude.{◌≡◌, ◌+◌, [], ◌∷◌, length, IfOk, None, false};
ghost use Rattle.run_watch.specs.Views.{first_view, watching};
ghost use Rattle.run_watch.specs.Words as spec;

use crate::board::{Board, Place, Terms};
use crate::plays::Further;
use crate::publisher::Publisher;
use crate::watcher::Watcher;
use crate::words::place_of;
use atomic_table::Table;
use std::alloc::{AllocError, Global};
use std::sync::Arc;

/// Opens a board. It tells the numbers of a core with no note, until something is published.
///
/// The memory of the board is taken here. That its ends ask for none is said by no clause.
///
/// # Errors
///
/// `AllocError` for want of memory.
pub fn open(alloc: Global, terms: Terms) -> Result<(Publisher, Watcher), AllocError>
    ensures publisher { IfOk result (λ ends. ends.0 ≡ record { board = ends.0.board; terms = terms; notes = []; count = 0; closed = None }) }
    ensures watcher { IfOk result (λ ends. ends.1 ≡ record { board = ends.0.board; terms = terms; notes = []; count = 0; closed = false }) }
{
    let row = first_row(alloc, &terms)?;
    let seen = Vec::from_slice(alloc, row.as_slice())?;
    let next = Vec::from_slice(alloc, row.as_slice())?;
    let (board, seat, other) = lay(alloc, &terms, &row)?;
    let board = Arc::new(alloc, board)?;
    let again = Arc::try_clone(&board)?;
    let publisher = Publisher {
        board,
        seat,
        terms,
        row,
        count: 0,
        closed: false,
    };
    let watcher = Watcher {
        board: again,
        seat: other,
        terms,
        row: seen,
        next,
        count: 0,
    };
    Ok((publisher, watcher))
}

/// The word at this place of a row that tells of no note: there is one queue, with the shares that a queue has unless told otherwise.
fn first_word(index: usize) -> u64
    ensures { result ≡ spec.first_word index }
{
    if index == 5 {
        1
    } else if index == 7 {
        1000
    } else {
        0
    }
}

/// The row of a core with no note.
fn first_row(alloc: Global, terms: &Terms) -> Result<Vec<u64>, AllocError>
    ensures { IfOk result (λ row. row.items ≡ spec.first_row terms.now.places) }
{
    let count = place_of(terms.places as usize);
    let mut row = Vec::with_capacity(alloc, count)?;
    for index in 0..count {
        row.push(first_word(index))?;
    }
    Ok(row)
}

/// The words of a table: both counts at 0, and this row.
fn words_of(alloc: Global, row: &Vec<u64>) -> Result<Vec<u64>, AllocError>
    ensures { IfOk result (λ words. words.items ≡ 0 ∷ 0 ∷ row.now.items) }
{
    let mut words = vec![in alloc; 0, 0]?;
    words.extend_from_slice(row.as_slice())?;
    Ok(words)
}

/// The table, the publisher's seat and a watcher's.
fn lay(alloc: Global, terms: &Terms, row: &Vec<u64>) -> Result<(Board, Place, Place), AllocError>
    requires { row.now.items ≡ spec.first_row terms.now.places }
    ensures table { IfOk result (λ laid. (laid.1.table_id ≡ laid.0.shared.table_id) × (laid.2.table_id ≡ laid.0.shared.table_id) × (laid.0.shared.table_id.words ≡ 2 + length row.now.items)) }
    ensures publisher { IfOk result (λ laid. laid.1.me ≡ (first_view terms.now, [])) }
    ensures watcher { IfOk result (λ laid. laid.2.me ≡ (watching (first_view terms.now), [])) }
{
    let words = words_of(alloc, row)?;
    let (table, mut seat) = Table::of_words(alloc, words.as_slice(), terms)?;
    let other = table.shared.split_seat::<Further>(&mut seat);
    Ok((table, seat, other))
}
