//! The slips of the queues, each at the place of its queue, and what the next one is taken from.
ghost use Rattle.std.specs.Prelude.{◌≡◌, ◌<◌, ◌≤◌, [], ◌∷◌, ◌++◌, length, Some, IfOk, OnOk, OnErr};

use base_sealed::SealedVec;
use base_words::QueueNo;
use core_timeline::Slip;
use std::alloc::{AllocError, Allocator};

/// The slips of the queues, each at the place of its queue while it is with it.
///
/// The allocator can be reached in this file alone. A call that asks it for memory leaves one more slip here.
#[derive(Drop)]
pub struct Slips<A: Allocator> {
    pub(crate) at: SealedVec<Option<Slip<A>>, A>,
    alloc: A,
}

impl<A: Allocator + Clone> Slips<A> {
    /// Room for so many slips, and none of them.
    pub(crate) fn open(alloc: A, most: usize) -> Result<Self, AllocError>
        ensures empty { IfOk result (λ slips. slips.at.items ≡ []) }
        ensures room { IfOk result (λ slips. most ≤ slips.at.cap) }
    {
        let at = Vec::with_capacity(alloc.clone()?, most)?;
        Ok(Slips {
            at: SealedVec::sealed(at),
            alloc,
        })
    }

    /// Asks for the slip of one more queue. It stands behind the others.
    pub(crate) fn add(&mut self, queue: QueueNo) -> Result<(), AllocError>
        requires room { length self.old.at.items < self.old.at.cap }
        ensures added { OnOk result (self.new.at.items ≡ self.old.at.items ++ Some queue ∷ []) }
        ensures refused { OnErr result (self.new ≡ self.old) }
        ensures capacity { self.new.at.cap ≡ self.old.at.cap }
    {
        let slip = Slip::try_new(self.alloc.clone()?, queue)?;
        self.at.push_reserved(Some(slip));
        Ok(())
    }
}
