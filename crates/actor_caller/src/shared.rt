//! What all handles on one caller share.
//!
//! # What is shared
//!
//! The caller, that is the outside actor: its journal, its ends, its tickets. It stands behind a lock (hall.rt). What stood beside it stays with
//! `Callers`, since only the thread that started the workers may join them.
//!
//! # In which order
//!
//! 1. A handle's call takes the caller out, makes the same call of it, and gives it back. A wait has given it back before it sleeps.
//! 2. Of those that wait one leads: it sleeps on the outside actor's bell, behind a look with the caller in its hands (looker.rt). The others
//!    lie down on `moved`, look once more with the caller in their hands, and sleep (moved.rt). They collect nothing while one leads.
//! 3. Whoever collects something rings `moved` behind it, and the leader's bell if another leads. Each looks for its own outcome then.

ghost use Rattle.std.specs.Prelude.{◌≡◌, IfErr, IfOk};
ghost use Rattle.std.specs.Arc.{arc_value};
ghost use Rattle.actor_caller.specs.Callers.{CallsMake};
ghost use Rattle.actor_caller.specs.Teams.{IsBeside};

use crate::caller::{Beside, Caller};
use crate::hall::{Hall, Keyed};
use crate::moved::{Due, Moved};
use crate::rings::Waker;
use base_jobs::Task;
use note_journal::Sink;
use std::alloc::{AllocError, Global};
use std::snapshot::Snapshot;
use std::sync::{Arc, Wait};

/// Stands beside a caller whose workers are elsewhere, and shows them as they are.
#[derive(Drop)]
pub(crate) struct Away<H: Beside> {
    house: Snapshot<H>,
}

impl<H: Beside> Away<H> {
    /// Instead of these workers.
    pub(crate) fn of(house: &H) -> Self
        ensures { result.house.value ≡ house.now }
    {
        Away {
            house: Snapshot::of(house),
        }
    }
}

impl<H: Beside> Beside for Away<H> {
    type Job = H::Job;

    ghost team = { λ away. H.team away.house.value };
}

/// The caller, without its workers.
pub(crate) type Outside<J, S, H> = Caller<J, S, Away<H>>;

/// What stands behind the lock: the caller, whether one leads of those that wait, and by what who collects for a leader wakes it.
#[derive(Drop)]
pub(crate) struct Inside<J: Task<Out = u64>, S: Sink, H: Beside<Job = J>> {
    pub(crate) caller: Outside<J, S, H>,
    leads: bool,
    /// Whether another collected something since the leader looked.
    pub(crate) told: bool,
    waker: Waker,
}

impl<J: Task<Out = u64>, S: Sink, H: Beside<Job = J>> Inside<J, S, H> {
    /// Whether one leads of those that wait.
    #[inline(always)]
    pub(crate) fn is_led(&self) -> bool {
        self.leads
    }

    /// One leads from now on. Nobody did.
    pub(crate) fn begins_to_lead(&mut self)
        ensures { self.new.caller ≡ self.old.caller }
    {
        self.leads = true;
        self.told = false;
    }

    /// Nobody leads any more. Those who follow are owed a ring.
    pub(crate) fn ends_leading(&mut self) -> Due
        ensures { self.new.caller ≡ self.old.caller }
    {
        self.leads = false;
        Due::ring()
    }

    /// Wakes the leader, if there is one. Then those who follow it are owed a ring.
    pub(crate) fn tells_leader(&mut self) -> Option<Due>
        ensures { self.new.caller ≡ self.old.caller }
    {
        if !self.leads {
            return None;
        }
        self.told = true;
        self.waker.wake();
        Some(Due::ring())
    }
}

/// The caller as it was when it was put behind the lock.
pub(crate) type Origin<J, S, H> = Snapshot<Caller<J, S, H>>;

/// It lies on the heap, so that a call moves an address.
impl<J: Task<Out = u64>, S: Sink, H: Beside<Job = J>> Keyed<Origin<J, S, H>>
    for Box<Inside<J, S, H>, Global> {
    ghost use Rattle.actor_caller.specs.Callers.{CallsMake};

    ghost fits = { λ origin inside. CallsMake J.meaning origin.value inside.value.caller };
}

/// What all handles share.
#[derive(Drop)]
pub(crate) struct Shared<J: Task<Out = u64>, S: Sink, H: Beside<Job = J>> {
    pub(crate) hall: Hall<Box<Inside<J, S, H>, Global>, Origin<J, S, H>>,
    /// On which those sleep who follow.
    pub(crate) moved: Moved,
}

/// What all handles share, with nobody behind the lock yet.
pub(crate) fn shared_of<J: Task<Out = u64>, S: Sink, H: Beside<Job = J>>(
    alloc: Global,
    origin: &Origin<J, S, H>,
) -> Result<Arc<Shared<J, S, H>, Global>, AllocError>
    ensures { IfOk result (λ shared. (arc_value shared).hall.table.shared.key ≡ origin.now) }
{
    let hall = Hall::vacant(alloc, origin)?;
    let shared = Shared {
        hall,
        moved: Moved::new(),
    };
    Ok(Arc::new(alloc, shared)?)
}

/// Puts the caller behind the lock.
#[tactic(auto, using(crate::proofs::CallsMade::no_call))]
pub(crate) fn put_behind<J: Task<Out = u64>, S: Sink, H: Beside<Job = J>>(
    shared: &Shared<J, S, H>,
    alloc: Global,
    caller: Outside<J, S, H>,
    waker: Waker,
) -> Result<(), Outside<J, S, H>>
    requires { shared.now.hall.table.shared.key.value ≡ caller }
    ensures { IfErr result (λ back. back ≡ caller) }
{
    let inside = Inside {
        caller,
        leads: false,
        told: false,
        waker,
    };
    let inside = match Box::new(alloc, inside) {
        Ok(inside) => inside,
        Err(failed) => return Err(failed.value.caller),
    };
    match shared.hall.fill(inside) {
        Ok(()) => Ok(()),
        Err(inside) => Err(Box::into_inner(inside).caller),
    }
}

/// Takes the caller out for good, and puts it beside these workers. Waits as long as a handle has it.
pub(crate) fn taken_out<J: Task<Out = u64>, S: Sink, H: Beside<Job = J>, R: Wait>(
    shared: &Shared<J, S, H>,
    rt: &R,
    house: H,
) -> Caller<J, S, H>
    requires { IsBeside (H.team house) shared.now.hall.table.shared.key.value }
    ensures { CallsMake J.meaning shared.now.hall.table.shared.key.value result }
{
    let inside = shared.hall.close(rt);
    Box::into_inner(inside).caller.with_house(house).0
}
