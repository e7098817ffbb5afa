//! The end that watches.

ghost use Rattle.std.specs.Prelude.{◌≡◌, ◌+◌, ◌<◌, ◌≤◌, true, false, IfOk, None};
ghost use Rattle.base_words.specs.Commands.{created_count};
ghost use Rattle.base_words.specs.Stats as spec;
ghost use Rattle.run_watch.specs.Closed.{closed_by_itself as tells_own_closing};
ghost use Rattle.run_watch.specs.Growth.{Grows};
ghost use Rattle.run_watch.specs.Tells.{TellsCore};

use crate::board::{Board, Place, Terms};
use crate::plays::Further;
use crate::reading::look_on;
use crate::words::{core_of, place_of, queue_of};
use base_words::{CoreStats, Note, QueueNo, QueueStats};
use std::alloc::{AllocError, Global};
use std::collections::LinkedList;
use std::marker::Model;
use std::mem::swap;
use std::sync::Arc;

/// How often a look tries at most.
const TRIES: u32 = 64;

/// What a contract sees of a watcher. No value of it is made.
pub struct Watching {
    /// Which board it is.
    pub board: LinkedList<u64>,
    pub terms: Terms,
    /// The notes whose numbers it tells, the newest first.
    pub notes: LinkedList<Note<u64>>,
    /// The number of the publication that it tells, 0 if it saw none.
    pub count: u64,
    /// That publication told that the core closed by itself.
    pub closed: bool,
}

/// The end that watches the numbers of a core. It may go to any thread.
///
/// It tells the numbers that its last look found, and at first those of no note.
///
/// No body of its calls takes a lock or waits, and none except `again` asks for memory; no clause says so.
#[derive(Drop)]
pub struct Watcher {
    pub(crate) board: Arc<Board, Global>,
    pub(crate) seat: Place,
    pub(crate) terms: Terms,
    /// The row that the last look found.
    pub(crate) row: Vec<u64>,
    /// The row that a look reads.
    pub(crate) next: Vec<u64>,
    /// The number of the publication that the last look found.
    pub(crate) count: u64,
}

impl Model for Watcher {
    ghost use Rattle.run_watch.specs.declared.watcher.Watching.{Watching};

    ghost Value = { Watching };

    ghost use Rattle.std.specs.Arc.{arc_value};
    ghost use Rattle.run_watch.specs.Ends.{IsWatcher, name_of};

    ghost view = { λ w. record { board = name_of w.seat.table_id; terms = w.terms; notes = w.seat.me.0.looked.seen; count = w.count; closed = w.seat.me.0.looked.closed } };

    ghost invariant = { λ w. IsWatcher w.seat.table_id (arc_value w.board).shared.table_id w.seat.me w.terms w.row.items w.next.items w.count };
}

impl Watcher {
    /// One try of a look.
    fn look_once(&mut self) -> bool
        ensures same { (self.new.board ≡ self.old.board) × (self.new.terms ≡ self.old.terms) }
        ensures grows { Grows self.old.notes self.new.notes }
        ensures counted { self.old.count ≤ self.new.count }
        ensures told { self.old.closed ≡ true → self.new.closed ≡ true }
        ensures none { result ≡ false → self.new.notes ≡ self.old.notes }
        ensures kept { result ≡ false → (self.new.count ≡ self.old.count) × (self.new.closed ≡ self.old.closed) }
    {
        let Some(count) = look_on(&self.board, &mut self.seat, &mut self.next) else {
            return false;
        };
        swap(&mut self.row, &mut self.next);
        self.count = count;
        true
    }

    /// Looks at what was published last. If each try met a publication on the way, the watcher tells the same as before, and the answer is false.
    ///
    /// No clause says that a look sees a publication soon.
    pub fn look(&mut self) -> bool
        ensures same { (self.new.board ≡ self.old.board) × (self.new.terms ≡ self.old.terms) }
        ensures grows { Grows self.old.notes self.new.notes }
        ensures counted { self.old.count ≤ self.new.count }
        ensures told { self.old.closed ≡ true → self.new.closed ≡ true }
        ensures none { result ≡ false → self.new.notes ≡ self.old.notes }
        ensures kept { result ≡ false → (self.new.count ≡ self.old.count) × (self.new.closed ≡ self.old.closed) }
    {
        for _ in 0..TRIES {
            if self.look_once() {
                return true;
            }
        }
        false
    }

    /// A further watcher of the same board, which tells the same.
    ///
    /// # Errors
    ///
    /// `AllocError` for want of memory.
    pub fn again(&mut self, alloc: Global) -> Result<Watcher, AllocError>
        ensures same { self.new ≡ self.old }
        ensures other { IfOk result (λ other. other ≡ self.old) }
    {
        let row = Vec::from_slice(alloc, self.row.as_slice())?;
        let next = Vec::from_slice(alloc, self.next.as_slice())?;
        let board = Arc::try_clone(&self.board)?;
        let seat = self.board.shared.split_seat::<Further>(&mut self.seat);
        Ok(Watcher {
            board,
            seat,
            terms: self.terms,
            row,
            next,
            count: self.count,
        })
    }

    /// The number of the publication that it tells. 0 if no look found one yet.
    pub fn publication(&self) -> u64
        ensures { result ≡ self.now.count }
    {
        self.count
    }

    /// Whether that publication told that the core closed by itself, without a command. A core that did may have been closed by a command, too.
    ///
    /// False says that it wasn't told. No clause says that what did happen is told.
    pub fn closed_by_itself(&self) -> bool
        ensures told { result ≡ self.now.closed }
        ensures notes { result ≡ true → tells_own_closing self.now.notes ≡ true }
    {
        self.row[6] == 1
    }

    /// The numbers of the core.
    pub fn core_stats(&self) -> CoreStats
        ensures { TellsCore self.now.terms.cores self.now.notes result }
    {
        core_of(self.row.as_slice())
    }

    /// How many queues there are.
    pub fn queue_count(&self) -> u64
        ensures { result ≡ created_count self.now.notes + 1 }
    {
        self.row[5]
    }

    /// The numbers of a queue, if there is such a queue and it has a place.
    pub fn queue_stats(&self, queue: QueueNo) -> Option<QueueStats>
        ensures told { queue < self.now.terms.places → result ≡ spec.queue_stats self.now.terms.burst queue self.now.notes }
        ensures beyond { self.now.terms.places ≤ queue → result ≡ None }
    {
        let number = usize::from(queue.0);
        if number >= self.terms.places as usize || number as u64 >= self.queue_count() {
            return None;
        }
        Some(queue_of(self.row.as_slice(), place_of(number)))
    }
}
