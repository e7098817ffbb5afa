//! What a core is lent for a turn.

ghost use Rattle.std.specs.Prelude.{◌≡◌, ℕ};
ghost use Rattle.std.specs.Borrow.{sem};

use crate::ends::{InEnd, OutEnd};
use base_jobs::Task;
use base_sealed::SealedVec;
use base_words::{ActorNo, CoreNo};
use std::alloc::Global;

/// What a core is lent for a turn: in one list the ends on which it sends, and an end of each sender.
///
/// The number of the core is told at each call, since the links of a whole house may be lent. A link from the core to itself may be one
/// value, which stands in the list and is the end of a sender, too.
pub trait Around<J: Task<Out = u64>> {
    ghost use Rattle.link_ends.specs.Around.{Reach, IsAround};
    ghost use Rattle.link_ends.specs.Lending.{LendsOuts, LendsIn};

    /// An end on which the core sends.
    type Out: OutEnd<J> + Drop;

    /// An end on which it receives.
    type In: InEnd<J>;

    /// The places of the ends, and what they are.
    ghost reach: { Reach J ℕ Self Self.Out Self.In };

    /// The ends on which the core of this number sends, one to each core.
    fn lend_outs(&mut self, own: CoreNo) -> &mut SealedVec<Self::Out, Global>
        requires there { reach.HasOuts own self.old }
        ensures value { result.now.items ≡ reach.outs own self.old }
        ensures* lends { sem 𝓛 (LendsOuts Self.row Self.Out.row Self.In.row reach self.entry own result) };

    /// The end on which the core of this number receives from this sender.
    fn lend_in(&mut self, own: CoreNo, sender: ActorNo) -> &mut Self::In
        requires there { reach.HasIn own sender self.old }
        ensures value { result.now ≡ reach.in_at own sender self.old }
        ensures* lends { sem 𝓛 (LendsIn Self.row Self.Out.row Self.In.row reach self.entry own sender result) };

    // They are those of the two kinds of end.
    ghost sides: { reach.sides ≡ record { out = Self.Out.out; credited = Self.Out.credited; kept = Self.Out.untouched; inward = Self.In.inward; held = Self.In.untouched } };

    // Other ends in their place leave the rest as it was.
    ghost laws: { IsAround reach };
}
