//! How a ring is opened.

ghost use Rattle.std.specs.Prelude.{◌≡◌, ◌^◌, ◌<◌, IfOk};
ghost use Rattle.link_ends.specs.Whole.{fresh, out_of, inward_of};

use crate::ring_in::RingIn;
use crate::ring_out::RingOut;
use base_jobs::Task;
use base_words::{ActorNo, CoreNo};
use link_board::{Spacing, lay};
use link_ends::{InEnd, OutEnd};
use std::alloc::Global;
use std::sync::Arc;
use thiserror::Error;

/// Why a link was not opened.
#[derive(Debug, Drop, Error)]
pub enum OpenError {
    #[error("out of memory")]
    Memory,
}

/// A link whose two ends may be on two threads: orders one way, outcomes back, with no lock.
pub struct RingLink;

impl RingLink {
    /// Opens a link. At most `capacity` submissions are outstanding at any time.
    ///
    /// The memory of the link is taken here. Its ends have no allocator in reach.
    ///
    /// # Errors
    ///
    /// `Memory` where there is none.
    pub fn open<J: Task>(
        alloc: Global,
        from: ActorNo,
        to: CoreNo,
        capacity: u16,
    ) -> Result<(RingOut<J>, RingIn<J>), OpenError>
        ensures out { IfOk result (λ ends. ⟦<RingOut<J> as OutEnd<J>>⟧.out ends.0 ≡ out_of (fresh from to capacity 0)) }
        ensures credited { IfOk result (λ ends. ⟦<RingOut<J> as OutEnd<J>>⟧.credited ends.0 ≡ 0) }
        ensures inward { IfOk result (λ ends. ⟦<RingIn<J> as InEnd<J>>⟧.inward ends.1 ≡ inward_of (fresh from to capacity 0)) }
        ensures link { IfOk result (λ ends. ends.1.link ≡ ends.0.link) }
    {
        Self::open_after(alloc, from, to, capacity, 0)
    }

    /// Opens a link as if that many submissions had been accepted and redeemed.
    ///
    /// # Errors
    ///
    /// As `open`.
    pub fn open_after<J: Task>(
        alloc: Global,
        from: ActorNo,
        to: CoreNo,
        capacity: u16,
        accepted: u64,
    ) -> Result<(RingOut<J>, RingIn<J>), OpenError>
        requires { accepted < 2 ^ 63 }
        ensures out { IfOk result (λ ends. ⟦<RingOut<J> as OutEnd<J>>⟧.out ends.0 ≡ out_of (fresh from to capacity accepted)) }
        ensures credited { IfOk result (λ ends. ⟦<RingOut<J> as OutEnd<J>>⟧.credited ends.0 ≡ 0) }
        ensures inward { IfOk result (λ ends. ⟦<RingIn<J> as InEnd<J>>⟧.inward ends.1 ≡ inward_of (fresh from to capacity accepted)) }
        ensures link { IfOk result (λ ends. ends.1.link ≡ ends.0.link) }
    {
        Self::open_spaced(alloc, from, to, capacity, accepted, Spacing::Apart)
    }

    /// The same, with cells as far apart as this says.
    pub(crate) fn open_spaced<J: Task>(
        alloc: Global,
        from: ActorNo,
        to: CoreNo,
        capacity: u16,
        accepted: u64,
        spacing: Spacing,
    ) -> Result<(RingOut<J>, RingIn<J>), OpenError>
        requires { accepted < 2 ^ 63 }
        ensures out { IfOk result (λ ends. ⟦<RingOut<J> as OutEnd<J>>⟧.out ends.0 ≡ out_of (fresh from to capacity accepted)) }
        ensures credited { IfOk result (λ ends. ⟦<RingOut<J> as OutEnd<J>>⟧.credited ends.0 ≡ 0) }
        ensures inward { IfOk result (λ ends. ⟦<RingIn<J> as InEnd<J>>⟧.inward ends.1 ≡ inward_of (fresh from to capacity accepted)) }
        ensures link { IfOk result (λ ends. ends.1.link ≡ ends.0.link) }
    {
        let laid = lay::<J>(alloc, from, to, accepted, capacity, spacing);
        let Ok((board, seat, other)) = laid else {
            return Err(OpenError::Memory);
        };
        let Ok(board) = Arc::new(alloc, board) else {
            return Err(OpenError::Memory);
        };
        let Ok(again) = Arc::try_clone(&board) else {
            return Err(OpenError::Memory);
        };
        let capacity = capacity as u64;
        let out = RingOut {
            board,
            seat,
            base: accepted,
            capacity,
            count: 0,
            collected: 0,
            credited: 0,
            closed: false,
            next_order: 0,
            next_outcome: 0,
        };
        let inward = RingIn {
            board: again,
            seat: other,
            from,
            to,
            base: accepted,
            capacity,
            taken: 0,
            given: 0,
            shut: false,
            total: 0,
            next_order: 0,
            next_outcome: 0,
        };
        Ok((out, inward))
    }
}
