//! The bells of all actors, in the hands of one who rings them.

ghost use Rattle.std.specs.Prelude.{◌≡◌, ◌+◌, ◌<◌, IfOk, length, replicate};
ghost use Rattle.std.specs.Option.{option_map};
ghost use Rattle.actor_seat.specs.Bells.{AreApart, bell_at, rung_at, rung_for, told_by};

use crate::bell::{Bell, OwnBell};
use base_sealed::SealedVec;
use base_words::{ActorNo, CoreNo, Note};
use std::alloc::{AllocError, Global};
use std::marker::Model;

/// A list has so many places beside those of its bells. Each thread writes to its own list as it rings, so what stands behind it in memory,
/// another thread's list perhaps, is kept off its lines.
const APART: usize = 8;

/// Who has something from this note: the receiver of an order that was sent, or the sender of a job or command that has its outcome.
#[inline(always)]
fn told(note: &Note<u64>) -> Option<u8>
    ensures { result ≡ told_by note.now }
{
    match note {
        Note::Sent(name, _) => Some(name.to.0),
        Note::Answered(name, _)
        | Note::Back(name, _)
        | Note::Returned(name, _)
        | Note::Done(name, _, _) => Some(name.from.0),
        _ => None,
    }
}

/// The bells of all cores of a house and of the outside actor, each at the number of its actor. Contracts see which bells they are, and how
/// often each was rung by these hands.
#[derive(Drop)]
pub struct Bells {
    bells: SealedVec<Bell, Global>,
}

impl Model for Bells {
    ghost use Rattle.actor_seat.specs.Bells.{AreInPlace, BellsView, bells_view};

    ghost Value = { BellsView };

    ghost view = { λ b. bells_view b.bells.items };

    ghost invariant = { λ b. AreInPlace b.bells.items };
}

impl Bells {
    /// A bell for each core, and one for the outside actor.
    ///
    /// # Errors
    ///
    /// If there is no memory.
    pub fn open(alloc: Global, cores: u8) -> Result<Self, AllocError>
        ensures rings { IfOk result (λ bells. bells.rings ≡ replicate (cores + 1) 0) }
        ensures apart { IfOk result (λ bells. AreApart bells.names) }
    {
        let room = Vec::with_capacity(alloc, cores as usize + 1 + APART)?;
        let mut bells = SealedVec::sealed(room);
        for actor in 0..cores as usize + 1 {
            let bell = Bell::open(alloc, ActorNo(actor as u8))?;
            bells.push_reserved(bell);
        }
        Ok(Bells { bells })
    }

    /// The same bells, in other hands.
    ///
    /// # Errors
    ///
    /// If there is no memory.
    pub fn again(&self, alloc: Global) -> Result<Self, AllocError>
        ensures names { IfOk result (λ bells. bells.names ≡ self.now.names) }
        ensures rings { IfOk result (λ bells. bells.rings ≡ replicate (length self.now.rings) 0) }
    {
        let room = Vec::with_capacity(alloc, self.bells.len().saturating_add(APART))?;
        let mut bells = SealedVec::sealed(room);
        for place in 0..self.bells.len() {
            let bell = self.bells[place].again()?;
            bells.push_reserved(bell);
        }
        Ok(Bells { bells })
    }

    /// The bell of this actor, in hands of its own, for an `L` to sleep on.
    ///
    /// # Errors
    ///
    /// If it is in too many.
    pub fn own<L>(&self, actor: ActorNo) -> Result<OwnBell<L>, AllocError>
        requires { actor < length self.now.rings }
        ensures { IfOk result (λ own. own ≡ bell_at actor self.now) }
    {
        let bell = self.bells[actor.0 as usize].again()?;
        Ok(OwnBell::of(bell))
    }

    /// Tells this actor, if there is one, that there is something for it.
    fn ring_actor(&mut self, actor: u8)
        ensures { self.new ≡ record self.old { rings = rung_at actor self.old.rings } }
    {
        let place = actor as usize;
        if place < self.bells.len() {
            self.bells[place].ring();
        }
    }

    /// Tells the worker of this core, if there is one, that there is something for it.
    pub fn ring(&mut self, core: CoreNo)
        ensures { self.new ≡ record self.old { rings = rung_at core self.old.rings } }
    {
        self.ring_actor(core.0);
    }

    /// Rings the bell of each actor that has something from these notes.
    #[inline(always)]
    pub fn ring_for(&mut self, notes: &[Note<u64>])
        ensures { self.new ≡ record self.old { rings = rung_for notes.now self.old.rings } }
    {
        for note in notes {
            if let Some(actor) = told(note) {
                self.ring_actor(actor);
            }
        }
    }
}
