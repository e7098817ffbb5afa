//! The bells by which idle workers, and a caller that waits, are woken; and the steps by which an actor sleeps on its own.
//!
//! It lies down, looks once more at everything, and parks only if there was nothing. The types force this order, here too: what lay down
//! (`Lain`) can only be handed to a look, and what may park (`Quiet`) is only given by one. Neither of them has the bell, so neither lies down
//! anew, and what has the bell can't park.
//!
//! A sleep may have a limit. Right behind its look the actor is asked for it, and what may park (`Quiet`) holds it from then on.

ghost use Rattle.std.specs.Prelude.{◌≡◌, Bool, IfOk, is_none};
ghost use Rattle.actor_seat.specs.Bells.{IsNamedFor, once_more};

use crate::event::{Event, Key};
use base_words::ActorNo;
use std::alloc::{AllocError, Global};
use std::marker::{Model, PhantomData};
use std::sync::{Arc, OnceLock, Wait};

/// What all handles on one bell share.
#[derive(Drop)]
struct Hung {
    event: Event,
    /// Whose bell it is. It stands here, so that no bell is that of two actors.
    actor: u8,
    /// Nothing is ever put in. By its number contracts tell one bell from another.
    name: OnceLock<u8>,
    /// Keeps off the lines of `event` what stands behind this in memory, and which another thread may write to.
    apart: [u64; 16],
}

/// The bell of one actor, in the hands of one who rings it. Contracts see whose it is, which bell it is, and how often it was rung here.
#[derive(Drop)]
pub struct Bell {
    rings: u64,
    hung: Arc<Hung, Global>,
}

impl Model for Bell {
    ghost use Rattle.actor_seat.specs.Bells.{BellView};

    ghost Value = { BellView };

    ghost use Rattle.std.specs.Arc.{arc_value};
    ghost use Rattle.actor_seat.specs.Bells.{bell_name};

    ghost view = { λ b. record { actor = (arc_value b.hung).actor; name = bell_name (arc_value b.hung).name.id (arc_value b.hung).actor; rings = b.rings } };
}

impl Bell {
    /// A bell for this actor.
    ///
    /// # Errors
    ///
    /// If there is no memory.
    pub fn open(alloc: Global, actor: ActorNo) -> Result<Self, AllocError>
        ensures { IfOk result (λ bell. (bell.rings ≡ 0) × IsNamedFor actor bell) }
    {
        Ok(Bell {
            rings: 0,
            hung: Arc::new(
                alloc,
                Hung {
                    event: Event::new(),
                    actor: actor.0,
                    name: OnceLock::new(),
                    apart: [0; 16],
                },
            )?,
        })
    }

    /// The same bell, in other hands.
    ///
    /// # Errors
    ///
    /// If it is in too many.
    pub fn again(&self) -> Result<Self, AllocError>
        ensures { IfOk result (λ bell. bell ≡ record self.now { rings = 0 }) }
    {
        Ok(Bell {
            rings: 0,
            hung: Arc::try_clone(&self.hung)?,
        })
    }

    /// Tells the actor that there is something for it. The bell of an actor that is awake is only read, and no system call is made.
    pub fn ring(&mut self)
        ensures { self.new ≡ record self.old { rings = once_more self.old.rings } }
    {
        self.rings = self.rings.saturating_add(1);
        // step: ring. A load and, if the actor lay down, an addition to the word on which it parks.
        self.hung.event.ring();
    }
}

/// Who sleeps on a bell of its own.
pub trait LastLook {
    /// What a look is lent.
    type Local;

    /// What holds whenever it looks.
    ghost IsReady: { Self → Type 0 };
    /// What one look does, and whether it found something.
    ghost Looks: { Self → Bool → Self → Type 0 };

    /// Looks once more at everything for which the bell may have been rung. Whether there was something.
    fn look_again(&mut self, local: &mut Self::Local) -> bool
        requires { IsReady self.old }
        ensures { Looks self.old result self.new };

    /// For how many nanoseconds it may sleep at most behind such a look. None: until its bell rings.
    fn limit(&self) -> Option<u64> {
        None
    }
}

/// An actor's own bell. Only an `L` sleeps on it, behind a look of its own (`rest`).
#[derive(Drop)]
pub struct OwnBell<L> {
    bell: Bell,
    of: PhantomData<L>,
}

impl<L> Model for OwnBell<L> {
    ghost use Rattle.actor_seat.specs.Bells.{BellView};

    ghost Value = { BellView };

    ghost view = { λ b. b.bell };
}

impl<L> OwnBell<L> {
    /// This bell, to sleep on.
    pub(crate) fn of(bell: Bell) -> Self
        ensures { result ≡ bell }
    {
        OwnBell {
            bell,
            of: PhantomData,
        }
    }

    /// From here on a ring ends the sleep. What came before it is seen by the look that follows.
    pub(crate) fn lie_down(&self) -> Lain<'_, L> {
        // step: lie down
        Lain {
            key: self.bell.hung.event.lie_down(),
            of: PhantomData,
        }
    }
}

/// That an `L` lay down. It can't be dropped: only a look ends it.
pub(crate) struct Lain<'a, L> {
    key: Key<'a>,
    of: PhantomData<L>,
}

/// That an `L` lay down, and that a look of it since then found nothing. It can't be dropped: only a sleep ends it.
pub(crate) struct Quiet<'a, L> {
    key: Key<'a>,
    /// For how many nanoseconds it may sleep at most.
    limit: Option<u64>,
    of: PhantomData<L>,
}

/// That one parked. Only `Quiet::sleep` makes one.
#[derive(Drop)]
pub(crate) struct Slept {
    _own: (),
}

impl<'a, L: LastLook> Lain<'a, L> {
    /// Looks once more. It gets up if there was something.
    pub(crate) fn look(self, last: &mut L, local: &mut L::Local) -> Option<Quiet<'a, L>>
        requires { L.IsReady last.old }
        ensures { L.Looks last.old (is_none result) last.new }
    {
        let Lain { key, of } = self;
        if last.look_again(local) {
            // step: get up, by the key that is dropped
            return None;
        }
        let limit = last.limit();
        Some(Quiet { key, limit, of })
    }
}

impl<L> Quiet<'_, L> {
    /// Parks until the bell rings or the limit is over. It doesn't if the bell has rung since the actor lay down.
    pub(crate) fn sleep<R: Wait>(self, rt: &R) -> Slept {
        let Quiet { key, limit, of: _ } = self;
        // step: park, which looks at the word once more; then get up
        key.sleep(rt, limit);
        Slept { _own: () }
    }
}
