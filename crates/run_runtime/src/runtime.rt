//! The running threads of a house, and its outside actor.

ghost use Rattle.std.specs.Prelude.{◌≡◌};

use crate::passed::ActorNotes;
use actor_caller::{Beside, Caller};
use base_jobs::Task;
use link_ring::Ends;
use note_journal::{Journal, Sink, Whole};
use run_team::Team;
use run_worker::Worker;
use std::marker::Model;

/// The workers of a house on their threads, and room for what they and the caller give back.
#[derive(Drop)]
pub struct Crew<J: Task<Out = u64>, C: Drop, G: Drop, S: Sink> {
    pub(crate) team: Team<Worker<J, C, G, S>>,
    // Empty, with room for what the workers and the caller give back.
    pub(crate) ends: Vec<Ends<J>>,
    pub(crate) actors: Vec<ActorNotes<S>>,
    pub(crate) journals: Vec<Journal<u64>>,
    pub(crate) locals: Vec<J::Local>,
}

impl<J: Task<Out = u64>, C: Drop, G: Drop, S: Sink> Model for Crew<J, C, G, S> {
    ghost use Rattle.std.specs.Prelude.{ℕ, List};
    ghost use Rattle.run_worker.specs.Workers.{WorkerView};

    ghost Value = { List (WorkerView J ℕ C G S) };

    ghost use Rattle.std.specs.Prelude.{vec_capacity};
    ghost use Rattle.run_runtime.specs.Crews.{IsSpare};

    ghost view = { λ c. c.team };

    ghost invariant = { λ c.
        IsSpare c.team c.ends.items (vec_capacity c.ends)
        × IsSpare c.team c.actors.items (vec_capacity c.actors)
        × IsSpare c.team c.journals.items (vec_capacity c.journals)
        × IsSpare c.team c.locals.items (vec_capacity c.locals) };
}

impl<J: Task<Out = u64>, C: Drop, G: Drop, S: Sink> Beside for Crew<J, C, G, S> {
    ghost use Rattle.run_runtime.specs.Crews.{team_of};

    type Job = J;

    ghost team = { λ workers. team_of S.mark workers };
}

/// A worker on a thread of its own for each core, and the outside actor, whose calls the caller makes.
///
/// A journal keeps 2^24 notes at most. Without sinks (`S` is `Whole`) no room comes back: a core whose journal grows short closes by itself,
/// and a caller whose journal is full can't submit. With sinks each journal passes on what it keeps, and that happens only where a sink
/// refused.
///
/// Each core must be closed, and then `finish` or `finish_with_sinks` called. A runtime that is dropped without that closes no core: each
/// worker is left to itself and serves until the process ends, and its journal and its sink are lost with it. The caller's are dropped at
/// once, and what is kept is passed on to nobody.
pub struct Runtime<J: Task<Out = u64>, C: Drop, G: Drop, S: Sink = Whole> {
    pub(crate) caller: Caller<J, S, Crew<J, C, G, S>>,
}

// Written out, so that no crate above proves again that what is below can be dropped.
impl<J: Task<Out = u64>, C: Drop, G: Drop, S: Sink> Drop for Runtime<J, C, G, S> {
    fn drop(self) {
        let Self { caller } = self;
        drop(caller);
    }
}

impl<J: Task<Out = u64>, C: Drop, G: Drop, S: Sink> Model for Runtime<J, C, G, S> {
    ghost use Rattle.std.specs.Prelude.{ℕ};
    ghost use Rattle.actor_caller.specs.State.{RuntimeView};

    ghost Value = { RuntimeView J ℕ };

    ghost view = { λ r. r.caller };
}

impl<J: Task<Out = u64>, C: Drop, G: Drop, S: Sink> Runtime<J, C, G, S> {
    /// The caller, with the workers beside it.
    pub(crate) fn into_caller(self) -> Caller<J, S, Crew<J, C, G, S>>
        ensures { result ≡ self }
    {
        let Self { caller } = self;
        caller
    }
}
