//! The links of a whole house, as one core is lent them for a turn.

use crate::links::Links;
use base_jobs::Task;
use base_sealed::SealedVec;
use base_words::{ActorNo, CoreNo};
use link_ends::{Around, PlainLink};
use std::alloc::Global;

/// A core sends on the links of its row, and receives on one link of each row.
impl<J: Task<Out = u64>> Around<J> for Links<J> {
    ghost use Rattle.std.specs.Prelude.{refl};
    ghost use Rattle.model_world.specs.Reached.{links_reach};
    ghost use Rattle.model_world.specs.Reaching.{links_laws};

    type Out = PlainLink<J>;

    type In = PlainLink<J>;

    ghost reach = { links_reach };

    fn lend_outs(&mut self, own: CoreNo) -> &mut SealedVec<PlainLink<J>, Global> {
        &mut self.rows[own.0 as usize]
    }

    fn lend_in(&mut self, own: CoreNo, sender: ActorNo) -> &mut PlainLink<J> {
        self.link_mut(sender, own)
    }

    ghost sides = { refl };

    ghost laws = { links_laws };
}
