//! Laws over the definitions alone. Their bodies are empty or call those of the crates below: each contract is the law.

ghost use Rattle.std.specs.Prelude.{ℕ};
ghost use Rattle.run_worker.specs.Ended.{NeverRefusedActs};
ghost use Rattle.run_worker.specs.Together.{EndedAreJoined};

use actor_core::laws::recorded_are_joined;
pub use actor_seat::laws::notes_are_for_links;
use base_jobs::Task;
use note_journal::Sink;

/// Cores that are drained, the outside actor and their links together have journals that are joined, and so they are sound.
pub fn ended_are_joined<J: Task<Out = u64>>()
    ensures { EndedAreJoined {T = ℕ} J.meaning }
{
    recorded_are_joined::<J>();
}

/// A core whose sink never refused never closed by itself.
pub fn never_refused_never_short<J: Task<Out = u64>, S: Sink>()
    ensures { NeverRefusedActs {T = ℕ} J.meaning S.has S.refused }
{}
