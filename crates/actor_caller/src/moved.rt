//! The event on which those handles sleep that follow, and the one way to sleep on it.
//!
//! A follower lies down, looks once more, and sleeps only if its look found nothing. The types force this order: a `Prepared` can only be handed
//! to the look of a `Follower`, and a `Quiet` is only given by that look. Neither of them has the event, and what has the event
//! can't sleep, nor can a look. So a second sleep needs a second look.
//!
//! Whoever ends what a follower waits for owes a ring (`Due`), which can't be dropped.

ghost use Rattle.std.specs.Prelude.{◌≡◌, Err, IfSome};
ghost use Rattle.base_words.specs.declared.names.TicketError.TheVariants.{Pending};
ghost use Rattle.link_ends.specs.Fits.{Fits};
ghost use Rattle.actor_caller.specs.Tickets.{RedeemsHere};
ghost use Rattle.actor_caller.specs.Callers.{IsAmongCalls};

use crate::caller::Beside;
use crate::follower::Follower;
use base_jobs::Task;
use base_words::{Outcome, TicketError};
use crossbeam_utils::sync::{EventCount, Key};
use note_journal::Sink;
use std::sync::Wait;

/// On which those sleep who follow. It is rung behind each collection while one leads, and when nobody leads any more.
#[derive(Drop)]
pub(crate) struct Moved {
    event: EventCount,
}

/// That a ring is owed to those who follow. It can't be dropped: only a ring ends it.
pub(crate) struct Due {
    own: (),
}

impl Due {
    /// One ring is owed.
    pub(crate) fn ring() -> Self {
        Due { own: () }
    }
}

impl Moved {
    /// An event on which nobody sleeps.
    pub(crate) fn new() -> Self {
        Moved {
            event: EventCount::new(),
        }
    }

    /// Wakes all who sleep on it, and all who lay down on it before.
    pub(crate) fn ring(&self, due: Due) {
        let Due { own: () } = due;
        // step: ring all
        self.event.notify_all();
    }

    /// From here on a ring ends the sleep. What came before it is seen by the look that follows.
    pub(crate) fn lie_down(&self) -> Prepared<'_> {
        // step: lie down
        Prepared {
            key: self.event.prepare_wait(),
        }
    }
}

/// That a follower lay down. It can't be dropped: only a look ends it.
pub(crate) struct Prepared<'a> {
    key: Key<'a>,
}

/// That a follower lay down, and that a look since then found nothing. It can't be dropped: only a sleep ends it.
pub(crate) struct Quiet<'a> {
    key: Key<'a>,
}

impl<'a> Prepared<'a> {
    /// Looks once more. It gets up if there was something.
    pub(crate) fn look<J: Task<Out = u64>, S: Sink, H: Beside<Job = J>, R: Wait>(
        self,
        follower: &Follower<'_, J, S, H, R>,
    ) -> (Result<Outcome<J, u64>, TicketError>, Option<Quiet<'a>>)
        ensures redeems { IsAmongCalls J.meaning (λ old new. RedeemsHere (Fits J.meaning) follower.now.ticket old result.0 new) follower.now.shared.now.hall.table.shared.key.value }
        ensures quiet { IfSome result.1 (λ _. result.0 ≡ Err Pending) }
    {
        let Prepared { key } = self;
        let (answer, found) = follower.looks();
        if found {
            // step: get up, by the key that is dropped
            return (answer, None);
        }
        (answer, Some(Quiet { key }))
    }
}

impl Quiet<'_> {
    /// Sleeps until a ring. It doesn't if there was one since the follower lay down.
    pub(crate) fn sleep<R: Wait>(self, rt: &R) {
        let Quiet { key } = self;
        // step: park, which looks at the word once more
        key.wait(rt);
    }
}
