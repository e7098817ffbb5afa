//! An actor's ends, as the core of that actor is lent them for a turn.

use crate::ends::Ends;
use crate::ring_in::RingIn;
use crate::ring_out::RingOut;
use base_jobs::Task;
use base_sealed::SealedVec;
use base_words::{ActorNo, CoreNo};
use link_ends::Around;
use std::alloc::Global;

/// The ends of one actor are those of its core, whichever number is told.
impl<J: Task<Out = u64>> Around<J> for Ends<J> {
    ghost use Rattle.std.specs.Prelude.{refl};
    ghost use Rattle.link_ring.specs.Reached.{ends_reach};
    ghost use Rattle.link_ring.specs.Reaching.{ends_laws};

    type Out = RingOut<J>;

    type In = RingIn<J>;

    ghost reach = { ends_reach };

    fn lend_outs(&mut self, _own: CoreNo) -> &mut SealedVec<RingOut<J>, Global> {
        &mut self.outs
    }

    fn lend_in(&mut self, _own: CoreNo, sender: ActorNo) -> &mut RingIn<J> {
        &mut self.ins[sender.0 as usize]
    }

    ghost sides = { refl };

    ghost laws = { ends_laws };
}
