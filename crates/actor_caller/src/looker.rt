//! How one handle of those that wait looks for the outcomes of all, and rests.
//!
//! A rest is one look at all links (`Looker::looks`), and it sleeps only if that look found nothing; a look takes the lock and gives it back, so
//! nothing is held while it sleeps. Its bell names `Looker`, whose fields are private to this module, and rings.rs makes it for that type
//! alone: a body that sleeps behind another look, or keeps the `Loan` of its look, isn't compiled.

ghost use Rattle.std.specs.Prelude.{◌≡◌, IfSome, is_none};
ghost use Rattle.std.specs.Arc.{arc_value};
ghost use Rattle.actor_caller.specs.Callers.{IsAmongCalls, LooksFor};

use crate::caller::Beside;
use crate::shared::Shared;
use actor_seat::{LastLook, OwnBell, Woken};
use base_jobs::Task;
use note_journal::Sink;
use std::alloc::{AllocError, Global};
use std::marker::Model;
use std::sync::{Arc, Wait};

/// How often one that leads looks for outcomes before it sleeps.
const TRIES: u32 = 1024;

/// One that leads, while it looks. Contracts see the caller as it was when it was put behind its lock.
#[derive(Drop)]
pub(crate) struct Looker<J: Task<Out = u64>, S: Sink, H: Beside<Job = J>, R: Drop> {
    shared: Arc<Shared<J, S, H>, Global>,
    rt: R,
}

impl<J: Task<Out = u64>, S: Sink, H: Beside<Job = J>, R: Drop> Model for Looker<J, S, H, R> {
    ghost use Rattle.std.specs.Prelude.{ℕ};
    ghost use Rattle.actor_caller.specs.State.{RuntimeView};

    ghost Value = { RuntimeView J ℕ };

    ghost use Rattle.std.specs.Arc.{arc_value};

    ghost view = { λ l. (arc_value l.shared).hall.table.shared.key.value };
}

/// Leads: looks for outcomes until there is one, and sleeps on the outside actor's bell if none comes soon. Then nobody leads, and all that
/// follow look for themselves.
pub(crate) fn lead<J: Task<Out = u64>, S: Sink, H: Beside<Job = J>, R: Wait + Copy + Drop>(
    shared: &Arc<Shared<J, S, H>, Global>,
    rt: &R,
) {
    // With a lock or a bell in too many hands it looks again at once.
    if let Ok(shared) = Arc::try_clone(shared) {
        let mut looker = Looker { shared, rt: *rt };
        looker.rest();
    }
    let (mut inside, loan) = shared.hall.take(rt);
    let due = inside.ends_leading();
    shared.hall.give(inside, loan);
    shared.moved.ring(due);
}

impl<J: Task<Out = u64>, S: Sink, H: Beside<Job = J>, R: Wait + Copy + Drop> Looker<J, S, H, R> {
    /// Collects all outcomes that the links show. Whether there was one, or another collected one since the last look.
    #[tactic(auto, using(crate::proofs::CallsMade::look_call, crate::proofs::CallsMade::looks_for))]
    fn looks(&self) -> bool
        ensures { IsAmongCalls J.meaning (LooksFor result) self.now }
    {
        let (mut inside, loan) = self.shared.hall.take(&self.rt);
        let found = inside.caller.collect_all();
        let told = inside.told;
        inside.told = false;
        self.shared.hall.give(inside, loan);
        found || told
    }

    /// The same, until there was one, at most so often as one looks before it sleeps.
    fn looks_soon(&self) -> bool {
        for _ in 0..TRIES {
            if self.looks() {
                return true;
            }
        }
        false
    }

    /// The outside actor's bell.
    ///
    /// # Errors
    ///
    /// If it is in too many hands.
    fn bell(&self) -> Result<OwnBell<Looker<J, S, H, R>>, AllocError> {
        let (inside, loan) = self.shared.hall.take(&self.rt);
        let own = inside.caller.bell_to_lead();
        self.shared.hall.give(inside, loan);
        own
    }

    /// Lies down on the outside actor's bell, looks once more at all links, and parks until that bell rings if there was no outcome.
    fn rest_on<'b>(
        &mut self,
        own: &'b OwnBell<Looker<J, S, H, R>>,
    ) -> Option<Woken<'b, Looker<J, S, H, R>>>
        ensures same { self.new ≡ self.old }
        ensures looks { IsAmongCalls J.meaning (LooksFor (is_none result)) self.old }
        ensures woken { IfSome result (λ woken. woken.own.now ≡ own.now) }
    {
        let rt = self.rt;
        own.rest(&rt, self, &mut ())
    }

    /// Looks until there was an outcome, and sleeps on the outside actor's bell if none comes soon.
    fn rest(&mut self) {
        if self.looks_soon() {
            return;
        }
        let Ok(own) = self.bell() else {
            return;
        };
        let _slept = self.rest_on(&own);
    }
}

/// Before it sleeps, one that leads looks at all links.
impl<J: Task<Out = u64>, S: Sink, H: Beside<Job = J>, R: Wait + Copy + Drop> LastLook
    for Looker<J, S, H, R> {
    type Local = ();

    ghost use Rattle.actor_caller.specs.Callers.{IsAmongCalls, LooksFor};

    ghost IsReady = { λ looker. Unit {0} };

    ghost Looks = { λ old some new. (new ≡ old) × IsAmongCalls J.meaning (LooksFor some) old };

    fn look_again(&mut self, _local: &mut ()) -> bool {
        self.looks()
    }
}
