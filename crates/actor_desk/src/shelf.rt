//! What is known of outstanding submissions, by number: their marks in a roll, and their outcomes in a slab of their own.

ghost use Rattle.std.specs.Prelude.{◌≡◌, ◌<◌, [], Some, IfOk};
ghost use Rattle.actor_desk.specs.Held.{at, count_of, Adds, Removes, Becomes};
ghost use Rattle.actor_desk.specs.Kept.{IsCollectedAt};
ghost use Rattle.actor_desk.specs.Rolls.{IsAbove};
ghost use Rattle.actor_desk.specs.Steps.{StandsAs};
ghost use Rattle.actor_desk.specs.declared.entry.Entry.TheVariants.{Pending, Detached, Collected};

use crate::entry::{Mark, Standing};
use crate::roll::Roll;
use base_sealed::SealedSlab;
use base_words::Outcome;
use slab::Slab;
use std::alloc::{AllocError, Global};
use std::marker::Model;

/// Entries by number. It has room for so many. The other calls ask for no memory; no clause says so.
#[derive(Drop)]
pub(crate) struct Shelf<J: Drop, T: Drop> {
    held: Roll<Mark>,
    kept: SealedSlab<Outcome<J, T>, Global>,
}

impl<J: Drop, T: Drop> Model for Shelf<J, T> {
    ghost use Rattle.actor_desk.specs.declared.entry.Entry.{Entry};
    ghost use Rattle.actor_desk.specs.Shelves.{Entries};

    ghost Value = { Entries (Entry J T) };

    ghost use Rattle.std.specs.Prelude.{◌<◌, ◌≤◌};
    ghost use Rattle.actor_desk.specs.Held.{count_of};
    ghost use Rattle.actor_desk.specs.Kept.{AreKept, shown};

    ghost view = { λ s. record { entries = shown s.kept s.held.entries; room = s.held.room } };

    ghost invariant = { λ s. AreKept s.kept s.held.entries × (count_of s.held.entries ≤ s.kept.capacity) × (s.held.room ≤ s.kept.capacity) × (s.kept.capacity < 65536) };
}

impl<J: Drop, T: Drop> Shelf<J, T> {
    /// Room for so many entries.
    pub(crate) fn open(alloc: Global, room: u16) -> Result<Self, AllocError>
        ensures { IfOk result (λ shelf. shelf ≡ record { entries = []; room = room }) }
    {
        let kept = Slab::with_capacity(alloc, room as usize)?;
        // A key is below the capacity, which is what was asked for. No clause of the slab says so, and a mark has 16 bits for a key.
        if kept.capacity() > u16::MAX as usize {
            return Err(AllocError);
        }
        Ok(Shelf {
            held: Roll::open(alloc, room)?,
            kept: SealedSlab::sealed(kept),
        })
    }

    /// What stands at a number.
    #[inline(always)]
    pub(crate) fn standing(&self, number: u64) -> Standing
        ensures { StandsAs result (at self.now.entries number) }
    {
        match self.held.get(number) {
            None => Standing::Nothing,
            Some(Mark::Waits) => Standing::Pending,
            Some(Mark::LetGo) => Standing::Detached,
            Some(Mark::Holds(_)) => Standing::Collected,
        }
    }

    /// Adds an entry that waits at a number above all others.
    #[inline(always)]
    pub(crate) fn put(&mut self, number: u64)
        requires above { IsAbove self.old.entries number }
        requires room { count_of self.old.entries < self.old.room }
        ensures adds { Adds self.old.entries self.new.entries number Pending }
        ensures room { self.new.room ≡ self.old.room }
    {
        self.held.add(number, Mark::Waits);
    }

    /// Keeps the outcome of a number that waits for it.
    #[inline(always)]
    pub(crate) fn keep(&mut self, number: u64, outcome: Outcome<J, T>)
        requires waits { at self.old.entries number ≡ Some Pending }
        ensures becomes { Becomes self.old.entries self.new.entries number Pending (Collected outcome) }
        ensures room { self.new.room ≡ self.old.room }
    {
        let key = self.kept.insert_reserved(outcome);
        let Some(_waited) = self.held.swap(number, Mark::Holds(key as u16)) else {
            unreachable!()
        };
    }

    /// Takes the outcome out that a number has, and with it the entry.
    #[inline(always)]
    pub(crate) fn take(&mut self, number: u64) -> Outcome<J, T>
        requires { IsCollectedAt self.old.entries number }
        ensures removes { Removes self.old.entries self.new.entries number (Collected result) }
        ensures room { self.new.room ≡ self.old.room }
    {
        let Some(mark) = self.held.remove(number) else {
            unreachable!()
        };
        let Mark::Holds(key) = mark else {
            unreachable!()
        };
        self.kept.remove(key as usize)
    }

    /// Nobody will ask for the outcome of a number that waits for it.
    #[inline(always)]
    pub(crate) fn let_go(&mut self, number: u64)
        requires waits { at self.old.entries number ≡ Some Pending }
        ensures becomes { Becomes self.old.entries self.new.entries number Pending Detached }
        ensures room { self.new.room ≡ self.old.room }
    {
        let Some(_waited) = self.held.swap(number, Mark::LetGo) else {
            unreachable!()
        };
    }

    /// Takes the entry of a number out for whose outcome nobody will ask.
    #[inline(always)]
    pub(crate) fn forget(&mut self, number: u64)
        requires detached { at self.old.entries number ≡ Some Detached }
        ensures removes { Removes self.old.entries self.new.entries number Detached }
        ensures room { self.new.room ≡ self.old.room }
    {
        let Some(_detached) = self.held.remove(number) else {
            unreachable!()
        };
    }
}
