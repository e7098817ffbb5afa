//! Laws of cores beside their journals, and of recorded actors. Their bodies are empty: each contract is the law.

ghost use Rattle.std.specs.Prelude.{ℕ};
ghost use Rattle.actor_core.specs.BadPolls.{OneIsOwed, PollsAreRefused};
ghost use Rattle.actor_core.specs.BadRefusals.{RefusalsAreCounted};
ghost use Rattle.actor_core.specs.BadTurns.{FurtherPollsAreCounted};
ghost use Rattle.actor_core.specs.Laws.{PicksRight, RefusesAsTold, StaysAsTold, WorksAsTold};
ghost use Rattle.actor_core.specs.OwedLaws.{CollectionsSeeNoLess, OthersKeepOwed, TurnsKeepOwed};
ghost use Rattle.actor_core.specs.ScriptPolls.{ScriptPollsAreWords};
ghost use Rattle.actor_core.specs.Together.{TogetherAreJoined};

use base_jobs::{ScriptJob, Task};
use core_queues::Meter;
use link_ends::OutEnd;

/// Actors that are recorded each by itself are joined, and so they are sound together, where the ends of their links are joined.
pub fn recorded_are_joined<J: Task<Out = u64>>()
    ensures { TogetherAreJoined {T = ℕ} J.meaning }
{}

/// A queue works in a core exactly if the journal says that it has work.
pub fn works_as_told<J, T>()
    ensures { WorksAsTold J T }
{}

/// A core refuses a job for the reason that the journal gives, and takes it if there is none.
pub fn refuses_as_told<J, T>()
    ensures { RefusesAsTold J T }
{}

/// A job that is out and asks to be parked stays in its line exactly if the journal says so.
pub fn stays_as_told<J, T>()
    ensures { StaysAsTold J T }
{}

/// The head of the line that a core takes out is a right pick in the journal.
pub fn picks_right<J, T>()
    ensures { PicksRight J T }
{}

/// A whole turn, and a further poll in place, leaves each poll owed that the journal tells: the poll that it settles did what its task says.
pub fn turns_owe_polls<J: Task<Out = u64>, O: OutEnd<J>, M: Meter>()
    ensures { (before after : M) → TurnsKeepOwed J.meaning O.out O.credited O.untouched (λ time. M.Tells before time after) }
{}

/// Each other step of a core and of its desk leaves each poll owed: it settles none. A collection leaves all that the ends have seen of their links.
pub fn others_owe_polls<J: Task<Out = u64>, O: OutEnd<J>>()
    ensures steps { OthersKeepOwed J.meaning O.out }
    ensures seen { CollectionsSeeNoLess J.meaning O.out }
{}

/// Small journals with a poll that isn't owed are refused: among them one that yields for ever, one whose poll submits nothing, one whose
/// core closes itself in a poll, and one in which another time counts than was told. A journal of a job that submits once and is done isn't.
/// A refusal by a shut gate is right only behind as many orders as the gate let through: so no order is accepted after it. A further poll
/// is owed in its turn alone, and the turn has at most as many polls as it may have.
pub fn bad_polls_are_refused()
    ensures refused { PollsAreRefused }
    ensures owed { OneIsOwed }
    ensures counted { RefusalsAreCounted }
    ensures further { FurtherPollsAreCounted }
{}

/// Each poll that a script job owes is a word of its script, in their order: the word's time counts, and the job is done exactly at the last word.
pub fn script_polls_are_words<O: OutEnd<ScriptJob>>()
    ensures { ScriptPollsAreWords O.out }
{}
