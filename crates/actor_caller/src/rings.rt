//! The bells in a caller's hands.
//!
//! Nobody else in this crate has a bell, so nobody else makes one that can be slept on.

ghost use Rattle.std.specs.Prelude.{◌≡◌, ◌+◌, IfOk, length};
ghost use Rattle.actor_seat.specs.Bells.{rung_at};
ghost use Rattle.actor_caller.specs.Rings.{IsBellOf};

use crate::caller::{Beside, Caller};
use crate::looker::Looker;
use actor_seat::{Bells, OwnBell};
use base_jobs::Task;
use base_words::{ActorNo, CoreNo};
use link_ring::Ends;
use note_journal::Sink;
use std::alloc::{AllocError, Global};
use std::marker::Model;
use std::snapshot::Snapshot;

/// The bells of all cores, and the caller's own. Contracts see which bells they are, how often each was rung, and what the caller's ends were
/// at the last ring. So a ring before the send that it tells of is another ring.
#[derive(Drop)]
pub(crate) struct Rings<J: Task<Out = u64>> {
    bells: Bells,
    over: Snapshot<Ends<J>>,
}

impl<J: Task<Out = u64>> Model for Rings<J> {
    ghost use Rattle.std.specs.Prelude.{ℕ};
    ghost use Rattle.actor_caller.specs.Rings.{RingsView};

    ghost Value = { RingsView J ℕ };

    ghost view = { λ r. record { names = r.bells.names; times = r.bells.rings; over = r.over.value } };
}

impl<J: Task<Out = u64>> Rings<J> {
    /// Bells that these hands haven't rung yet.
    pub(crate) fn of(bells: Bells, ends: &Ends<J>) -> Self
        ensures { result ≡ record { names = bells.names; times = bells.rings; over = ends.now } }
    {
        Rings {
            bells,
            over: Snapshot::of(ends),
        }
    }

    /// The bell of the outside actor, which is the last one, in hands of its own, for a caller to sleep on.
    ///
    /// # Errors
    ///
    /// If it is in too many.
    pub(crate) fn own<S: Sink, H: Beside<Job = J>>(
        &self,
        actor: ActorNo,
    ) -> Result<OwnBell<Caller<J, S, H>>, AllocError>
        requires { length self.now.times ≡ actor + 1 }
        ensures { IfOk result (λ own. IsBellOf actor self.now.names own) }
    {
        self.bells.own(actor)
    }

    /// The same, for a handle that leads to sleep on.
    ///
    /// # Errors
    ///
    /// If it is in too many.
    pub(crate) fn own_to_lead<S: Sink, H: Beside<Job = J>, R: Drop>(
        &self,
        actor: ActorNo,
    ) -> Result<OwnBell<Looker<J, S, H, R>>, AllocError>
        requires { length self.now.times ≡ actor + 1 }
        ensures { IfOk result (λ own. IsBellOf actor self.now.names own) }
    {
        self.bells.own(actor)
    }

    /// The right to ring the outside actor's bell.
    ///
    /// # Errors
    ///
    /// If there is no memory.
    pub(crate) fn waker(&self, alloc: Global, actor: ActorNo) -> Result<Waker, AllocError> {
        let bells = self.bells.again(alloc)?;
        Ok(Waker { bells, actor })
    }

    /// Tells the worker of this core that there is something for it on these ends.
    pub(crate) fn ring(&mut self, ends: &Ends<J>, core: CoreNo)
        ensures { self.new ≡ record self.old { times = rung_at core self.old.times; over = ends.now } }
    {
        self.bells.ring(core);
        self.over = Snapshot::of(ends);
    }
}

/// Rings the outside actor's bell for one that collected what another sleeps for. No call makes a bell of it.
#[derive(Drop)]
pub(crate) struct Waker {
    bells: Bells,
    actor: ActorNo,
}

impl Waker {
    /// Wakes whoever sleeps on the bell.
    pub(crate) fn wake(&mut self) {
        self.bells.ring(CoreNo(self.actor.0));
    }
}
