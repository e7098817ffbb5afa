//! What a core beside its journal tells of itself in numbers: the sums over the journal.

ghost use Rattle.std.specs.Prelude.{◌^◌, ◌<◌, ◌≤◌, ◌↔◌, IsTrue, length};
ghost use Rattle.arrayvec.specs.ArrayVec.{array_vec_len};
ghost use Rattle.core_queues.specs.Queues.{queue_count};
ghost use Rattle.actor_core.specs.Recorded.{IsRecorded};
ghost use Rattle.actor_core.specs.Stats.{AreExact, TellsCore, TellsQueues};

use crate::Recorded;
use arrayvec::ArrayVec;
use base_jobs::Task;
use base_words::{CoreStats, QueueStats};
use std::alloc::Allocator;

/// The numbers of the core and of its queues, by number. Times are in nanoseconds. A count of jobs that are done stays at 2^64 - 1: `are_exact`
/// tells whether each is below that. A journal of fewer notes tells of fewer jobs.
pub fn told_stats<J: Task<Out = u64>, A: Allocator + Clone>(
    recorded: &Recorded<J, A>,
) -> (CoreStats, ArrayVec<QueueStats, 256>)
    requires sound { IsRecorded J.meaning recorded.now }
    ensures core { TellsCore recorded.now.core.cores recorded.now.journal.notes result.0 }
    ensures queues { length recorded.now.journal.notes < 2 ^ 64 → TellsQueues recorded.now.core.bursts.burst recorded.now.journal.notes (array_vec_len result.1) result.1.items }
    ensures exact { AreExact result.1.items → TellsQueues recorded.now.core.bursts.burst recorded.now.journal.notes (array_vec_len result.1) result.1.items }
{
    // That there are at most 256 queues is known once they are counted.
    let _count = recorded.core().queue_count();
    told_stats_within(recorded)
}

/// The same with places for so many queues alone. A few are handed on faster than 256.
pub fn told_stats_within<J: Task<Out = u64>, A: Allocator + Clone, const N: usize>(
    recorded: &Recorded<J, A>,
) -> (CoreStats, ArrayVec<QueueStats, N>)
    requires sound { IsRecorded J.meaning recorded.now }
    requires few { queue_count recorded.now.core.queues ≤ N }
    ensures core { TellsCore recorded.now.core.cores recorded.now.journal.notes result.0 }
    ensures queues { length recorded.now.journal.notes < 2 ^ 64 → TellsQueues recorded.now.core.bursts.burst recorded.now.journal.notes (array_vec_len result.1) result.1.items }
    ensures exact { AreExact result.1.items → TellsQueues recorded.now.core.bursts.burst recorded.now.journal.notes (array_vec_len result.1) result.1.items }
{
    recorded.core().stats_within()
}

/// Whether of each queue fewer than 2^64 - 1 jobs are told as done, where a core counts no further.
pub fn are_exact(queues: &[QueueStats]) -> bool
    ensures { IsTrue result ↔ AreExact queues.now }
{
    queues.iter().all(|stats| stats.finished < u64::MAX)
}
