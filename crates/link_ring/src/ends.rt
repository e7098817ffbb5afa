//! What one actor has of the links.

ghost use Rattle.std.specs.Prelude.{◌≡◌, ◌<◌, [], ◌∷◌, ◌++◌, length, IfOk, OnOk, IfSome, IsSome};
ghost use Rattle.std.specs.Borrow.{sem};
ghost use Rattle.link_ring.specs.Ends.{out_at, in_at};

use crate::ring_in::RingIn;
use crate::ring_out::RingOut;
use base_jobs::Task;
use base_sealed::SealedVec;
use base_words::{ActorNo, CoreNo};
use std::alloc::{AllocError, Global};
use std::marker::Model;

/// So many ends more than an actor has find room behind its own, 128 bytes and more.
///
/// An actor writes to its ends at each step, from a thread of its own. Had another actor's lists begun on the same cache line, or on the
/// one that a processor fetches along with it, each of the two would take that line from the other again and again.
const APART: usize = 2;

/// One actor's ends of the links, by the number of the actor at the other side. They may go to any thread.
///
/// The outside actor receives from nobody, so it has no `ins`.
/// Both lists have their room for good, and lend no allocator.
#[derive(Drop)]
pub struct Ends<J: Task> {
    pub number: ActorNo,
    /// The end of the link to each core.
    pub outs: SealedVec<RingOut<J>, Global>,
    /// The end of the link from each actor.
    pub ins: SealedVec<RingIn<J>, Global>,
}

impl<J: Task> Model for Ends<J> {
    ghost use Rattle.link_ring.specs.Ends.{EndsView};

    ghost Value = { EndsView J J.Out };

    ghost view = { λ e. record { number = e.number; outs = e.outs.items; ins = e.ins.items } };
}

impl<J: Task> Ends<J> {
    ghost use Rattle.link_ring.specs.Lending.{LendsOut, LendsIn};

    /// The end of the link to this core.
    pub fn out_mut(&mut self, core: CoreNo) -> &mut RingOut<J>
        requires there { core < length self.old.outs }
        ensures value { result.now ≡ out_at core self.old }
        ensures* lends { sem 𝓛 (LendsOut J.row J.Out.row J.Local.row J.Task J.Local.CoreState self.entry core result) }
    {
        &mut self.outs[core.0 as usize]
    }

    /// The end of the link from this actor.
    pub fn in_mut(&mut self, sender: ActorNo) -> &mut RingIn<J>
        requires there { sender < length self.old.ins }
        ensures value { result.now ≡ in_at sender self.old }
        ensures* lends { sem 𝓛 (LendsIn J.row J.Out.row J.Local.row J.Task J.Local.CoreState self.entry sender result) }
    {
        &mut self.ins[sender.0 as usize]
    }

    // Takes out the end of the link to the last core.
    pub(crate) fn pop_out(&mut self) -> Option<RingOut<J>>
        ensures some { IfSome result (λ end. self.old ≡ record self.new { outs = self.new.outs ++ end ∷ [] }) }
        ensures there { 0 < length self.old.outs → IsSome result }
    {
        self.outs.pop()
    }

    // Takes out the end of the link from the last actor.
    pub(crate) fn pop_in(&mut self) -> Option<RingIn<J>>
        ensures some { IfSome result (λ end. self.old ≡ record self.new { ins = self.new.ins ++ end ∷ [] }) }
        ensures there { 0 < length self.old.ins → IsSome result }
    {
        self.ins.pop()
    }
}

/// One actor's ends while they are made.
#[derive(Drop)]
pub(crate) struct Unsealed<J: Task> {
    number: ActorNo,
    outs: Vec<RingOut<J>>,
    ins: Vec<RingIn<J>>,
}

impl<J: Task> Model for Unsealed<J> {
    ghost use Rattle.link_ring.specs.Ends.{EndsView};

    ghost Value = { EndsView J J.Out };

    ghost view = { λ e. record { number = e.number; outs = e.outs.items; ins = e.ins.items } };
}

impl<J: Task> Unsealed<J> {
    // An actor without an end, with room for as many as it will have.
    pub(crate) fn bare(
        alloc: Global,
        number: ActorNo,
        outs: u8,
        ins: u16,
    ) -> Result<Self, AllocError>
        ensures { IfOk result (λ ends. ends ≡ record { number = number; outs = []; ins = [] }) }
    {
        Ok(Unsealed {
            number,
            outs: Vec::with_capacity(alloc, outs as usize + APART)?,
            ins: Vec::with_capacity(alloc, ins as usize + APART)?,
        })
    }

    pub(crate) fn push_out(&mut self, end: RingOut<J>) -> Result<(), AllocError>
        ensures { OnOk result (self.new ≡ record self.old { outs = self.old.outs ++ end ∷ [] }) }
    {
        self.outs.push(end)?;
        Ok(())
    }

    pub(crate) fn push_in(&mut self, end: RingIn<J>) -> Result<(), AllocError>
        ensures { OnOk result (self.new ≡ record self.old { ins = self.old.ins ++ end ∷ [] }) }
    {
        self.ins.push(end)?;
        Ok(())
    }

    // The same ends, with no way to more.
    pub(crate) fn sealed(self) -> Ends<J>
        ensures { result ≡ self }
    {
        Ends {
            number: self.number,
            outs: SealedVec::sealed(self.outs),
            ins: SealedVec::sealed(self.ins),
        }
    }
}
