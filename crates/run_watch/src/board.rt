//! The table that a publisher and its watchers share: two counts and a row of numbers.
//!
//! **The first word** counts the publications that were begun, **the second** those that are done. Only the publisher changes
//! them, and they only rise: the first by one before the row is changed, the second by one behind that.
//!
//! **The row** stands behind them. Its words are the numbers of the core and of its queues, and one that tells whether the core
//! closed by itself (`specs/Words.antt`). Only the publisher changes them, and only between the two counts.
//!
//! A watcher loads the second word, then the row, then the first word. If both counts are the same, no publication was begun
//! while it read: so the row that it read is the one that the last publication left.
//!
//! **What can't be at once.** Both counts are the same, and the row isn't that of one journal. The count of those that are done is
//! above that of those begun.

use atomic_table::{Seat, Table, TableRule};
use base_words::Note;
use note_journal::RunningJournal;
use std::alloc::Global;
use std::collections::LinkedList;

/// The count of publications that were begun.
pub(crate) const BEGUN: usize = 0;

/// The count of publications that are done.
pub(crate) const DONE: usize = 1;

/// The place at which the row begins.
pub(crate) const ROW: usize = 2;

/// What a board is of.
#[derive(Clone, Copy, PartialEq, Eq, Debug)]
pub struct Terms {
    /// How many cores there are in the house.
    pub cores: u8,
    /// How many polls a turn may have.
    pub burst: u8,
    /// For how many queues the board has places. Of the queues behind them it tells nothing.
    pub places: u16,
}

/// What the publisher's seat knows. No value of it is made.
pub struct Published {
    pub begun: u64,
    pub done: u64,
    pub row: LinkedList<u64>,
    /// The notes whose numbers were published last, the newest first.
    pub notes: LinkedList<Note<u64>>,
    /// The number of the first publication that told that the core closed by itself.
    pub closed: Option<u64>,
}

/// What a watcher's seat knows. No value of it is made.
pub struct Looked {
    /// The count of publications done as it was when the look began.
    pub at: u64,
    /// The words of the row that the look found so far.
    pub read: LinkedList<u64>,
    /// The notes whose numbers the last look told that found one publication, the newest first.
    pub seen: LinkedList<Note<u64>>,
    /// The number of the publication which that look found.
    pub count: u64,
    /// That publication told that the core closed by itself.
    pub closed: bool,
}

/// What a seat at the table knows. No value of it is made.
pub struct Known {
    /// It is the publisher's seat, so `published` is true.
    pub publishes: bool,
    /// It is in use, so `terms` are true.
    pub knows: bool,
    pub terms: Terms,
    pub published: Published,
    pub looked: Looked,
}

/// The rule of the table.
pub struct Numbers;

impl TableRule<RunningJournal<u64>, Known, Terms> for Numbers {
    ghost use Rattle.run_watch.specs.Rule.{IsBoard};
    ghost use Rattle.run_watch.specs.Views.{first_view};

    ghost holds = { IsBoard };

    ghost first = { first_view };
}

/// It has no slots: the type of a slot is that of the journal whose numbers a publication tells.
pub type Board = Table<RunningJournal<u64>, Known, Terms, Numbers, Global>;

pub type Place = Seat<RunningJournal<u64>, Known>;
