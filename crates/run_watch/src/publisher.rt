//! The end that publishes.

ghost use Rattle.std.specs.Prelude.{◌≡◌, ◌↔◌, ◌+◌, ◌-◌, ◌^◌, ◌<◌, ◌≤◌, IsTrue, is_some, true};
ghost use Rattle.run_watch.specs.Closed.{closed_by_itself, first_told, told_after};
ghost use Rattle.run_watch.specs.Growth.{Grows};
ghost use Rattle.run_watch.specs.Tells.{TellsCore, TellsQueues};

use crate::board::{Board, Place, Terms};
use crate::writing::publish_on;
use base_words::{CoreStats, Note, QueueStats};
use note_journal::RunningJournal;
use std::alloc::Global;
use std::collections::LinkedList;
use std::marker::Model;
use std::sync::Arc;

/// What a contract sees of a publisher. No value of it is made.
pub struct Publishing {
    /// Which board it is.
    pub board: LinkedList<u64>,
    pub terms: Terms,
    /// The notes whose numbers were published last, the newest first.
    pub notes: LinkedList<Note<u64>>,
    /// How many publications were made.
    pub count: u64,
    /// The number of the first publication that told that the core closed by itself.
    pub closed: Option<u64>,
}

/// The end that publishes the numbers of a core. It may go to any thread.
///
/// No body of its calls asks for memory, takes a lock or waits; no clause says so.
#[derive(Drop)]
pub struct Publisher {
    pub(crate) board: Arc<Board, Global>,
    pub(crate) seat: Place,
    pub(crate) terms: Terms,
    /// The row as it stands on the board.
    pub(crate) row: Vec<u64>,
    pub(crate) count: u64,
    /// A publication told that the core closed by itself.
    pub(crate) closed: bool,
}

impl Model for Publisher {
    ghost use Rattle.run_watch.specs.declared.publisher.Publishing.{Publishing};

    ghost Value = { Publishing };

    ghost use Rattle.std.specs.Arc.{arc_value};
    ghost use Rattle.std.specs.Prelude.{◌≡◌, is_some};
    ghost use Rattle.run_watch.specs.Ends.{IsPublisher, name_of};

    ghost view = { λ p. record { board = name_of p.seat.table_id; terms = p.terms; notes = p.seat.me.0.published.notes; count = p.count; closed = p.seat.me.0.published.closed } };

    ghost invariant = { λ p. IsPublisher p.seat.table_id (arc_value p.board).shared.table_id p.seat.me p.terms p.row.items p.count × (is_some p.seat.me.0.published.closed ≡ p.closed) };
}

impl Publisher {
    /// What its board is of.
    pub fn terms(&self) -> Terms
        ensures { result ≡ self.now.terms }
    {
        self.terms
    }

    /// Whether it has made as many publications as it may.
    pub fn is_spent(&self) -> bool
        ensures { IsTrue result ↔ (2 ^ 64 - 1 ≤ self.now.count) }
    {
        self.count == u64::MAX
    }

    /// Publishes these numbers, and whether the core closed by itself.
    fn publish_as(
        &mut self,
        closed: bool,
        journal: &RunningJournal<u64>,
        core: &CoreStats,
        queues: &[QueueStats],
    )
        requires spent { self.old.count < 2 ^ 64 - 1 }
        requires grows { Grows self.old.notes journal.now.notes }
        requires core { TellsCore self.old.terms.cores journal.now.notes core.now }
        requires queues { TellsQueues self.old.terms.burst journal.now.notes queues.now }
        requires stays { is_some self.old.closed ≡ true → closed ≡ true }
        requires own { closed ≡ true → closed_by_itself journal.now.notes ≡ true }
        ensures { self.new ≡ record self.old { notes = journal.now.notes; count = self.old.count + 1; closed = told_after self.old.closed (self.old.count + 1) closed } }
    {
        publish_on(
            &self.board,
            &mut self.seat,
            &mut self.row,
            self.terms,
            self.count,
            closed,
            journal,
            core,
            queues,
        );
        self.count += 1;
        self.closed = closed;
    }

    /// Publishes the numbers of this journal's core and of its queues: one pass of stores. The journal itself isn't read.
    ///
    /// If a publication before told that the core closed by itself, this one tells it, too.
    pub fn publish(
        &mut self,
        journal: &RunningJournal<u64>,
        core: &CoreStats,
        queues: &[QueueStats],
    )
        requires spent { self.old.count < 2 ^ 64 - 1 }
        requires grows { Grows self.old.notes journal.now.notes }
        requires core { TellsCore self.old.terms.cores journal.now.notes core.now }
        requires queues { TellsQueues self.old.terms.burst journal.now.notes queues.now }
        ensures { self.new ≡ record self.old { notes = journal.now.notes; count = self.old.count + 1 } }
    {
        let closed = self.closed;
        self.publish_as(closed, journal, core, queues);
    }

    /// Publishes the same, and that the core closed by itself. Each publication from this one on tells it.
    pub fn publish_own_closing(
        &mut self,
        journal: &RunningJournal<u64>,
        core: &CoreStats,
        queues: &[QueueStats],
    )
        requires spent { self.old.count < 2 ^ 64 - 1 }
        requires grows { Grows self.old.notes journal.now.notes }
        requires core { TellsCore self.old.terms.cores journal.now.notes core.now }
        requires queues { TellsQueues self.old.terms.burst journal.now.notes queues.now }
        requires closed { closed_by_itself journal.now.notes ≡ true }
        ensures { self.new ≡ record self.old { notes = journal.now.notes; count = self.old.count + 1; closed = first_told self.old.closed (self.old.count + 1) } }
    {
        self.publish_as(true, journal, core, queues);
    }
}
