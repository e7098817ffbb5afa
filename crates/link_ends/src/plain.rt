//! A link within one thread.
//!
//! Orders go one way through a buffer, outcomes the other way through a second one. Both have a place for each submission that may be
//! outstanding, and a submission is that from `send` to `credit`: what was collected still counts. So neither buffer is ever full where a
//! call pushes.

ghost use Rattle.std.specs.Prelude.{◌≡◌, ◌+◌, ◌-◌, ◌^◌, ◌<◌, [], ◌∷◌, ◌++◌, length, slice_get, IfOk, IfSome, OnSome};
ghost use Rattle.base_jobs.specs.Ready.{HasReadyJob};
ghost use Rattle.link_ends.specs.Calls.{Sends, Collects, Takes, Shuts, MayGive, final_of};
ghost use Rattle.link_ends.specs.Ends.{AreNamed, AreOf, SoundIn, SoundOut};
ghost use Rattle.link_ends.specs.Fits.{Fits};
ghost use Rattle.link_ends.specs.Whole.{fresh, out_of, inward_of, kept_by_sender, kept_by_receiver, IsLink};

use crate::ends::{InEnd, OutEnd};
use base_jobs::Task;
use base_sealed::History;
use base_words::{ActorNo, CoreNo, Envelope, JobId, LAST_NUMBER, Order, Outcome, SendError};
use circular_buffer::HeapCircularBuffer;
use std::alloc::{AllocError, Global};
use std::collections::LinkedList;
use std::marker::Model;

/// What a plain link is: the lists of what was sent and given, and how much of them came across. No value of it is made.
pub struct Whole<J, T> {
    /// The sender.
    pub from: ActorNo,
    /// The receiver.
    pub to: CoreNo,
    /// The number before the first.
    pub base: u64,
    /// How many may be outstanding.
    pub capacity: u64,
    /// All orders that were sent.
    pub sent: LinkedList<Order<J>>,
    /// How many of these were taken, from the first on.
    pub taken: u64,
    /// All outcomes that were given, each with its order's number.
    pub given: LinkedList<(u64, Outcome<J, T>)>,
    /// How many of these were got, from the first on.
    pub got: u64,
    /// How many credits were given back.
    pub credited: u64,
    /// Whether the gate is shut.
    pub shut: bool,
}

/// A link whose two ends are one value, for one thread. Both ends see all.
///
/// The opening asks for a place of each buffer for each submission that may be outstanding. The other calls ask for no memory; no
/// clause says so.
#[derive(Drop)]
pub struct PlainLink<J: Task> {
    /// What was sent and not taken.
    orders: HeapCircularBuffer<Order<J>, Global>,
    /// What was given and not got.
    outcomes: HeapCircularBuffer<(u64, Outcome<J, J::Out>), Global>,
    from: ActorNo,
    to: CoreNo,
    base: u64,
    capacity: u64,
    /// How many were sent.
    count: u64,
    taken: u64,
    got: u64,
    credited: u64,
    shut: bool,
    sent: History<Order<J>>,
    given: History<(u64, Outcome<J, J::Out>)>,
}

impl<J: Task> Model for PlainLink<J> {
    ghost use Rattle.base_jobs.specs.Ready.{HasReadyJob};
    ghost use Rattle.link_ends.specs.Fits.{Fits};
    ghost use Rattle.link_ends.specs.declared.plain.Whole.{Whole};

    ghost Value = { Whole J J.Out };

    ghost use Rattle.link_ends.specs.Plain.{whole_of, IsPlain};

    ghost view = { whole_of };

    ghost invariant = { IsPlain (Fits J.meaning) (HasReadyJob J.meaning) };
}

impl<J: Task> PlainLink<J> {
    /// Opens a link on which at most `capacity` submissions are outstanding at any time.
    ///
    /// # Errors
    ///
    /// Want of memory, and of nothing else.
    pub fn open(alloc: Global, from: ActorNo, to: CoreNo, capacity: u16) -> Result<Self, AllocError>
        ensures { IfOk result (λ link. link ≡ fresh from to capacity 0) }
    {
        Self::open_after(alloc, from, to, capacity, 0)
    }

    /// Opens a link as if that many submissions had been accepted and redeemed: its first number is one more.
    ///
    /// # Errors
    ///
    /// Want of memory, and of nothing else.
    pub fn open_after(
        alloc: Global,
        from: ActorNo,
        to: CoreNo,
        capacity: u16,
        accepted: u64,
    ) -> Result<Self, AllocError>
        requires { accepted < 2 ^ 63 }
        ensures { IfOk result (λ link. link ≡ fresh from to capacity accepted) }
    {
        let orders = HeapCircularBuffer::with_capacity(alloc, capacity as usize)?;
        let outcomes = HeapCircularBuffer::with_capacity(alloc, capacity as usize)?;
        Ok(PlainLink {
            orders,
            outcomes,
            from,
            to,
            base: accepted,
            capacity: capacity as u64,
            count: 0,
            taken: 0,
            got: 0,
            credited: 0,
            shut: false,
            sent: History::new(),
            given: History::new(),
        })
    }
}

impl<J: Task> OutEnd<J> for PlainLink<J> {
    ghost untouched = { kept_by_sender };

    ghost out = { out_of };

    ghost credited = { λ link. link.credited };

    fn send(&mut self, order: Order<J>) -> Result<u64, SendError<J>>
        requires ready { HasReadyJob J.meaning order }
        ensures credited { self.new.credited ≡ self.old.credited }
        ensures sends { Sends (out_of self.old) self.old.credited order (out_of self.new) result }
        ensures others { self.new ≡ record self.old { sent = self.new.sent } }
        ensures law { IsLink (Fits J.meaning) (HasReadyJob J.meaning) self.new }
    {
        let last = self.base + self.count;
        if self.shut {
            return Err(SendError::Closed(order, last));
        }
        if self.outstanding() == self.capacity {
            return Err(SendError::Full(order));
        }
        if last == LAST_NUMBER {
            return Err(SendError::Spent(order));
        }
        self.sent = self.sent.with(&order);
        let Ok(()) = self.orders.try_push_back(order) else {
            unreachable!()
        };
        self.count += 1;
        Ok(last + 1)
    }

    fn collect(&mut self) -> Option<(u64, Outcome<J, J::Out>)>
        ensures credited { self.new.credited ≡ self.old.credited }
        ensures collects { Collects (out_of self.old) (out_of self.new) result }
        ensures sound_out { SoundOut (out_of self.new) self.new.credited }
        ensures named { AreOf (Fits J.meaning) self.new.base self.new.sent self.new.given }
        ensures earned { OnSome result (self.new.credited < self.new.got) }
        ensures next { result ≡ slice_get self.old.given self.old.got }
        ensures others { self.new ≡ record self.old { got = self.new.got } }
        ensures law { IsLink (Fits J.meaning) (HasReadyJob J.meaning) self.new }
    {
        match self.outcomes.pop_front() {
            Some(found) => {
                self.got += 1;
                Some(found)
            }
            None => None,
        }
    }

    fn credit(&mut self)
        requires { self.old.credited < self.old.got }
        ensures credited { self.new ≡ record self.old { credited = self.old.credited + 1 } }
        ensures law { IsLink (Fits J.meaning) (HasReadyJob J.meaning) self.new }
    {
        self.credited += 1;
    }

    fn outstanding(&self) -> u64
        ensures value { result ≡ length self.now.sent - self.now.credited }
        ensures sound_out { SoundOut (out_of self.now) self.now.credited }
        ensures law { IsLink (Fits J.meaning) (HasReadyJob J.meaning) self.now }
    {
        self.count - self.credited
    }
}

impl<J: Task> InEnd<J> for PlainLink<J> {
    ghost untouched = { kept_by_receiver };

    ghost inward = { inward_of };

    fn take(&mut self) -> Option<Envelope<J>>
        ensures named { AreNamed self.old.base self.old.taken self.old.given }
        ensures takes { Takes (inward_of self.old) (inward_of self.new) result }
        ensures sound_in { SoundIn (inward_of self.new) }
        ensures ready { IfSome result (λ envelope. HasReadyJob J.meaning envelope.order) }
        ensures others { self.new ≡ record self.old { taken = self.new.taken } }
        ensures law { IsLink (Fits J.meaning) (HasReadyJob J.meaning) self.new }
    {
        match self.orders.pop_front() {
            Some(order) => {
                self.taken += 1;
                let number = self.base + self.taken;
                Some(Envelope {
                    name: JobId {
                        from: self.from,
                        to: self.to,
                        number,
                    },
                    order,
                })
            }
            None => None,
        }
    }

    fn give(&mut self, number: u64, outcome: Outcome<J, J::Out>)
        requires { MayGive (Fits J.meaning) (inward_of self.old) number outcome }
        ensures gives { self.new ≡ record self.old { given = self.old.given ++ (number, outcome) ∷ [] } }
        ensures law { IsLink (Fits J.meaning) (HasReadyJob J.meaning) self.new }
    {
        let pair = (number, outcome);
        self.given = self.given.with(&pair);
        let Ok(()) = self.outcomes.try_push_back(pair) else {
            unreachable!()
        };
    }

    fn shut(&mut self) -> u64
        ensures shuts { Shuts (inward_of self.old) (inward_of self.new) result }
        ensures sound_in { SoundIn (inward_of self.new) }
        ensures others { self.new ≡ record self.old { shut = self.new.shut } }
        ensures law { IsLink (Fits J.meaning) (HasReadyJob J.meaning) self.new }
    {
        self.shut = true;
        self.base + self.count
    }

    fn final_count(&self) -> Option<u64>
        ensures value { result ≡ final_of (inward_of self.now) self.now.shut }
        ensures sound_in { SoundIn (inward_of self.now) }
        ensures law { IsLink (Fits J.meaning) (HasReadyJob J.meaning) self.now }
    {
        if self.shut {
            Some(self.base + self.count)
        } else {
            None
        }
    }
}
