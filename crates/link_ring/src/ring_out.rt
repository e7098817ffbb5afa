//! The sender's end of a ring.
//!
//! It shares the board with the receiver's end (link_board): a word for the gate, and a cell with a word for each place. All other fields are
//! its thread's own.
//!
//! - It may touch a cell while that cell's word isn't 0. Making it 0 gives the cell to the receiver, with an order in it.
//! - `count - credited` is at most `capacity`, and credits are of collected outcomes. So the cell of the next order was emptied.
//! - `send` writes the order, then the word: one compare-and-exchange, which only a shut gate can make fail. It asks the gate's own word only if
//!   it has no free cell or no further number.
//! - `collect` reads the word of the next outcome's cell first. What lies in the cell comes with the word that tells of it.

ghost use Rattle.std.specs.Prelude.{◌≡◌, ◌+◌, ◌-◌, ◌%◌, ◌^◌, ◌<◌, ◌≤◌, ℕ, true, length, take};
ghost use Rattle.base_jobs.specs.Ready.{HasReadyJob};
ghost use Rattle.link_ends.specs.Calls.{Sends};
ghost use Rattle.link_ends.specs.Ends.{AreOf, Joined};
ghost use Rattle.link_ends.specs.Fits.{Fits};
ghost use Rattle.link_ring.specs.RingEnds.{name_of};
ghost use Rattle.link_board.specs.Seats.{IsReceiver};

use base_jobs::Task;
use base_words::{Order, Outcome, SendError};
use link_board::{
    Board, Place, compare, is_open, next_outcome, next_place, offer, see_none, shows_outcome,
};
use link_ends::{LAST_NUMBER, OutEnd, Outward};
use std::alloc::Global;
use std::collections::LinkedList;
use std::marker::Model;
use std::sync::Arc;

/// What a contract sees of a sender's end. No value of it is made.
pub struct Sending<J, T> {
    /// Which link it is.
    pub link: LinkedList<u64>,
    pub out: Outward<J, T>,
    /// How many credits were given back.
    pub credited: u64,
}

/// The end that sends orders and collects their outcomes. It may go to any thread.
///
/// Its calls have no allocator in reach, unless a job has one. No body of them takes a lock or waits; no clause says so. When it is dropped, it
/// collects what was given, and drops that.
pub struct RingOut<J: Task> {
    pub(crate) board: Arc<Board<J>, Global>,
    pub(crate) seat: Place<J>,
    pub(crate) base: u64,
    pub(crate) capacity: u64,
    /// How many orders were sent.
    pub(crate) count: u64,
    /// How many outcomes were collected.
    pub(crate) collected: u64,
    pub(crate) credited: u64,
    /// Whether this end has seen the gate shut.
    pub(crate) closed: bool,
    /// The place of the next order.
    pub(crate) next_order: u64,
    /// The place of the next outcome.
    pub(crate) next_outcome: u64,
}

impl<J: Task> Model for RingOut<J> {
    ghost use Rattle.link_ring.specs.declared.ring_out.Sending.{Sending};

    ghost Value = { Sending J J.Out };

    ghost use Rattle.link_ring.specs.RingEnds.{IsOut, name_of};

    ghost view = { λ s. record { link = name_of s.seat.rows; out = s.seat.me.view.out; credited = s.credited } };

    ghost invariant = { IsOut };
}

impl<J: Task> RingOut<J> {
    /// Whether an outcome waits that wasn't collected.
    ///
    /// Of outcomes that this end hasn't seen no clause says that the answer is right: who needs to know collects.
    pub fn shows(&self) -> bool
        ensures seen { self.now.out.got < length self.now.out.seen → result ≡ true }
        ensures sent { result ≡ true → self.now.out.got < length self.now.out.sent }
    {
        self.collected < self.count
            && shows_outcome(&self.board, self.next_outcome as usize, self.collected)
    }

    /// Compares both ends of the link. `other` is the seat of the receiver's, and comes back.
    pub(crate) fn compare(&mut self, other: Place<J>) -> Place<J>
        requires link { name_of other.rows ≡ self.old.link }
        requires receiver { IsReceiver other.me }
        ensures link { self.new.link ≡ self.old.link }
        ensures out { self.new.out ≡ self.old.out }
        ensures at { (result.rows ≡ other.rows) × (result.heap ≡ other.heap) }
        ensures receiver { IsReceiver result.me }
        ensures inward { result.me.view.inward ≡ other.me.view.inward }
        ensures joined { Joined self.old.out other.me.view.inward }
        ensures outcomes { AreOf (Fits J.meaning) self.old.out.base (take other.me.view.inward.taken self.old.out.sent) other.me.view.inward.given }
    {
        compare(&self.board, &mut self.seat, other)
    }

    /// Drops the outcomes that lie in the cells.
    fn empty(&mut self) {
        'outcomes: while let Some(found) = self.collect() {
            drop(found);
        }
    }
}

impl<J: Task> Drop for RingOut<J> {
    fn drop(mut self) {
        self.empty();
        let Self {
            board: _,
            seat: _,
            base: _,
            capacity: _,
            count: _,
            collected: _,
            credited: _,
            closed: _,
            next_order: _,
            next_outcome: _,
        } = self;
    }
}

impl<J: Task> OutEnd<J> for RingOut<J> {
    ghost untouched = { λ s. s.link };

    ghost out = { λ s. s.out };

    ghost credited = { λ s. s.credited };

    #[inline(always)]
    fn send(&mut self, order: Order<J>) -> Result<u64, SendError<J>>
        requires ready { HasReadyJob J.meaning order }
        ensures link { self.new.link ≡ self.old.link }
        ensures credited { self.new.credited ≡ self.old.credited }
        ensures sends { Sends self.old.out self.old.credited order self.new.out result }
    {
        let last = self.base + self.count;
        if self.closed {
            return Err(SendError::Closed(order, last));
        }
        let full = self.count - self.credited == self.capacity;
        if full || last == LAST_NUMBER {
            if !is_open(&self.board, &mut self.seat) {
                self.closed = true;
                return Err(SendError::Closed(order, last));
            }
            if full {
                return Err(SendError::Full(order));
            }
            return Err(SendError::Spent(order));
        }
        let place = self.next_order as usize;
        match offer(&self.board, &mut self.seat, place, order) {
            Ok(()) => {
                self.next_order = next_place(&self.board, self.next_order, self.count);
                self.count += 1;
                Ok(last + 1)
            }
            Err(back) => {
                self.closed = true;
                Err(SendError::Closed(back, last))
            }
        }
    }

    #[inline(always)]
    fn collect(&mut self) -> Option<(u64, Outcome<J, J::Out>)> {
        if self.collected == self.count {
            // One load for the proof alone: what was seen before is of what was sent. Nobody writes to that cache line before the gate is shut.
            see_none(&self.board, &mut self.seat);
            return None;
        }
        let place = self.next_outcome as usize;
        let found = next_outcome(&self.board, &mut self.seat, place)?;
        self.next_outcome = next_place(&self.board, self.next_outcome, self.collected);
        self.collected += 1;
        Some(found)
    }

    fn credit(&mut self) {
        self.credited += 1;
    }

    fn outstanding(&self) -> u64 {
        self.count - self.credited
    }
}
