//! What a core knows of its senders: what was delivered, and where each one ends.
ghost use Rattle.std.specs.Prelude.{◌≡◌, ◌↔◌, ◌<◌, IsTrue, IfOk, Some, None, length, replicate, slice_index_or, slice_set};
ghost use Rattle.core_core.specs.Senders.{is_awaited, AreThrough};

use base_sealed::SealedVec;
use std::alloc::{AllocError, Allocator};
use std::marker::Model;

/// One sender.
#[derive(Clone, Copy)]
pub struct Sender {
    /// How many of its submissions were delivered.
    pub delivered: u64,
    /// How many it made in all, if its gate is shut.
    pub gate: Option<u64>,
}

impl Sender {
    /// One if its gate isn't shut, or if more of it is to come.
    fn awaited(self) -> usize
        ensures { result ≡ is_awaited self }
    {
        match self.gate {
            Some(count) if self.delivered == count => 0,
            _ => 1,
        }
    }
}

/// The senders of a core, by number. Only `open` asks for memory; no clause says so.
#[derive(Drop)]
pub struct Senders<A: Allocator> {
    senders: SealedVec<Sender, A>,
    // How many have an open gate, or are to deliver more.
    awaited: usize,
}

impl<A: Allocator> Model for Senders<A> {
    ghost use Rattle.core_core.specs.Senders.{SendersView};

    ghost Value = { SendersView };

    ghost use Rattle.std.specs.Prelude.{◌≡◌};
    ghost use Rattle.core_core.specs.Senders.{senders_view, awaited_count};

    ghost view = { λ s. senders_view s.senders.items };

    ghost invariant = { λ s. s.awaited ≡ awaited_count s.senders.items };
}

impl<A: Allocator> Senders<A> {
    /// So many senders, of whom nothing was delivered.
    pub(crate) fn open(alloc: A, count: usize) -> Result<Self, AllocError>
        ensures { IfOk result (λ senders. senders ≡ record { delivered = replicate count 0; gates = replicate count None }) }
    {
        let none = Sender {
            delivered: 0,
            gate: None,
        };
        Ok(Senders {
            senders: SealedVec::sealed(Vec::from_elem(alloc, none, count)?),
            awaited: count,
        })
    }

    /// How many there are.
    pub(crate) fn len(&self) -> usize
        ensures { result ≡ length self.now.delivered }
    {
        self.senders.len()
    }

    /// How many submissions of this sender were delivered.
    pub(crate) fn delivered(&self, sender: usize) -> u64
        requires { sender < length self.now.delivered }
        ensures { result ≡ slice_index_or self.now.delivered sender 0 }
    {
        self.senders[sender].delivered
    }

    /// The final count of this sender's gate, if it is shut.
    pub(crate) fn gate(&self, sender: usize) -> Option<u64>
        requires { sender < length self.now.delivered }
        ensures { result ≡ slice_index_or self.now.gates sender None }
    {
        self.senders[sender].gate
    }

    /// Counts a delivery.
    #[inline(always)]
    pub(crate) fn count(&mut self, sender: usize, number: u64)
        requires { sender < length self.old.delivered }
        ensures { self.new ≡ record self.old { delivered = slice_set self.old.delivered sender number } }
    {
        let was = self.senders[sender];
        if was.gate.is_none() {
            // Whose gate is open is awaited as before.
            self.senders[sender].delivered = number;
            return;
        }
        let is = Sender {
            delivered: number,
            gate: was.gate,
        };
        self.put(sender, is);
    }

    /// Tells that the gate of this sender is shut, with its final count.
    pub(crate) fn shut(&mut self, sender: usize, count: u64)
        requires { sender < length self.old.delivered }
        ensures { self.new ≡ record self.old { gates = slice_set self.old.gates sender (Some count) } }
    {
        let was = self.senders[sender];
        let is = Sender {
            delivered: was.delivered,
            gate: Some(count),
        };
        self.put(sender, is);
    }

    /// Writes what is known of this sender, and counts anew who is awaited.
    #[inline(never)]
    fn put(&mut self, sender: usize, is: Sender)
        requires { sender < length self.old.delivered }
        ensures { self.new ≡ record { delivered = slice_set self.old.delivered sender is.delivered; gates = slice_set self.old.gates sender is.gate } }
    {
        // That the count below fits is known of a vector whose length was asked for.
        let _count = self.senders.len();
        let before = self.senders[sender].awaited();
        let after = is.awaited();
        self.senders[sender] = is;
        self.awaited = self.awaited - before + after;
    }

    /// Whether every gate is shut and all behind it was delivered.
    pub(crate) fn are_through(&self) -> bool
        ensures { IsTrue result ↔ AreThrough self.now.delivered self.now.gates }
    {
        self.awaited == 0
    }
}
