//! The receiver's end of a ring.
//!
//! It shares the board with the sender's end (link_board). All other fields are its thread's own.
//!
//! - It may touch a cell while that cell's word is 0. Making it a number gives the cell back, with an outcome in it.
//! - `taken - given` is at most `capacity`: an order's outcome goes back through the order's cell.
//! - `take` reads the word of the next order's cell first. `give` writes the outcome, then the word.
//! - `shut` sets the top bit of the word that the next order would find, and is the last word on how many were accepted (`total`). If there is no
//!   such word, each outcome that is given sets the bit.

ghost use Rattle.std.specs.Prelude.{◌≡◌, ◌+◌, ◌-◌, ◌%◌, ◌^◌, ◌<◌, ◌≤◌, ℕ, true, length, take, [], ◌∷◌, ◌++◌};
ghost use Rattle.link_ends.specs.Calls.{MayGive};
ghost use Rattle.link_ends.specs.Ends.{AreOf, Joined};
ghost use Rattle.link_ends.specs.Fits.{Fits};

use crate::ring_out::RingOut;
use base_jobs::Task;
use base_words::{ActorNo, CoreNo, Envelope, JobId, Outcome};
use link_board::{Board, Place, close, give, next_order, next_place, shows_order};
use link_ends::{InEnd, Inward};
use std::alloc::Global;
use std::collections::LinkedList;
use std::marker::Model;
use std::sync::Arc;

/// What a contract sees of a receiver's end. No value of it is made.
pub struct Receiving<J, T> {
    /// Which link it is.
    pub link: LinkedList<u64>,
    pub inward: Inward<J, T>,
}

/// The end that takes orders and gives their outcomes. It may go to any thread.
///
/// Its calls have no allocator in reach, unless a job has one. No body of them takes a lock or waits; no clause says so. When it is dropped, it shuts
/// its gate, and drops the orders that were sent and not taken.
pub struct RingIn<J: Task> {
    pub(crate) board: Arc<Board<J>, Global>,
    pub(crate) seat: Place<J>,
    pub(crate) from: ActorNo,
    pub(crate) to: CoreNo,
    pub(crate) base: u64,
    pub(crate) capacity: u64,
    /// How many orders were taken.
    pub(crate) taken: u64,
    /// How many outcomes were given.
    pub(crate) given: u64,
    /// Whether the gate is shut.
    pub(crate) shut: bool,
    /// How many orders were accepted, if the gate is shut. Until then this end has seen as many as it took.
    pub(crate) total: u64,
    /// The place of the next order.
    pub(crate) next_order: u64,
    /// The place of the next outcome.
    pub(crate) next_outcome: u64,
}

impl<J: Task> Model for RingIn<J> {
    ghost use Rattle.link_ring.specs.declared.ring_in.Receiving.{Receiving};

    ghost Value = { Receiving J J.Out };

    ghost use Rattle.link_ring.specs.RingEnds.{IsInward, name_of};

    ghost view = { λ s. record { link = name_of s.seat.rows; inward = s.seat.me.view.inward } };

    ghost invariant = { IsInward };
}

impl<J: Task> RingIn<J> {
    /// Whether an order waits that wasn't taken.
    ///
    /// Of orders that this end hasn't seen no clause says that the answer is right: who needs to know takes.
    pub fn shows(&self) -> bool
        ensures seen { self.now.inward.taken < length self.now.inward.seen → result ≡ true }
        ensures shut { self.now.inward.shut ≡ true → result ≡ true → self.now.inward.taken < length self.now.inward.seen }
        ensures room { result ≡ true → self.now.inward.taken < length self.now.inward.given + self.now.inward.capacity }
    {
        if self.shut {
            return self.taken != self.total;
        }
        self.taken - self.given < self.capacity
            && shows_order(&self.board, self.next_order as usize, self.taken)
    }

    /// Compares both ends of the link, and comes back.
    pub(crate) fn compare(self, out: &mut RingOut<J>) -> RingIn<J>
        requires { self.link ≡ out.old.link }
        ensures out { out.new.out ≡ out.old.out }
        ensures inward { result.inward ≡ self.inward }
        ensures joined { Joined out.old.out self.inward }
        ensures outcomes { AreOf (Fits J.meaning) out.old.out.base (take self.inward.taken out.old.out.sent) self.inward.given }
    {
        let Self {
            board,
            seat,
            from,
            to,
            base,
            capacity,
            taken,
            given,
            shut,
            total,
            next_order,
            next_outcome,
        } = self;
        let seat = out.compare(seat);
        Self {
            board,
            seat,
            from,
            to,
            base,
            capacity,
            taken,
            given,
            shut,
            total,
            next_order,
            next_outcome,
        }
    }

    /// Drops the orders that lie in the cells. The gate is shut, so no other comes.
    fn empty(&mut self)
        requires { self.old.inward.shut ≡ true }
    {
        'orders: while let Some(envelope) = self.take() {
            drop(envelope);
        }
    }
}

impl<J: Task> Drop for RingIn<J> {
    fn drop(mut self) {
        let _last = self.shut();
        self.empty();
        let Self {
            board: _,
            seat: _,
            from: _,
            to: _,
            base: _,
            capacity: _,
            taken: _,
            given: _,
            shut: _,
            total: _,
            next_order: _,
            next_outcome: _,
        } = self;
    }
}

impl<J: Task> InEnd<J> for RingIn<J> {
    ghost untouched = { λ s. s.link };

    ghost inward = { λ s. s.inward };

    #[inline(always)]
    fn take(&mut self) -> Option<Envelope<J>> {
        if self.taken - self.given == self.capacity || (self.shut && self.taken == self.total) {
            return None;
        }
        let place = self.next_order as usize;
        let order = next_order(&self.board, &mut self.seat, place)?;
        self.next_order = next_place(&self.board, self.next_order, self.taken);
        self.taken += 1;
        Some(Envelope {
            name: JobId {
                from: self.from,
                to: self.to,
                number: self.base + self.taken,
            },
            order,
        })
    }

    #[inline(always)]
    fn give(&mut self, number: u64, outcome: Outcome<J, J::Out>)
        requires { MayGive (Fits J.meaning) self.old.inward number outcome }
        ensures link { self.new.link ≡ self.old.link }
        ensures gives { self.new.inward ≡ record self.old.inward { given = self.old.inward.given ++ (number, outcome) ∷ [] } }
    {
        let place = self.next_outcome as usize;
        give(
            &self.board,
            &mut self.seat,
            place,
            self.shut,
            number,
            outcome,
        );
        self.next_outcome = next_place(&self.board, self.next_outcome, self.given);
        self.given += 1;
    }

    fn shut(&mut self) -> u64 {
        if self.shut {
            return self.base + self.total;
        }
        let total = close(
            &self.board,
            &mut self.seat,
            self.taken,
            self.given,
            self.capacity,
        );
        self.shut = true;
        self.total = total;
        self.base + total
    }

    fn final_count(&self) -> Option<u64> {
        if self.shut {
            Some(self.base + self.total)
        } else {
            None
        }
    }
}
