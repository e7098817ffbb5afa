//! What a core tells of itself in numbers.

ghost use Rattle.std.specs.Prelude.{◌≡◌, ◌↔◌, ◌≤◌, IfSome, IsNone};
ghost use Rattle.arrayvec.specs.ArrayVec.{array_vec_len};
ghost use Rattle.model_world.specs.State.{journal_at};
ghost use Rattle.actor_core.specs.Stats.{TellsCore, TellsQueues};

use super::World;
use actor_core::told_stats;
use arrayvec::ArrayVec;
use base_jobs::Task;
use base_words::{CoreNo, CoreStats, QueueStats};
use std::alloc::Allocator;

impl<J: Task<Out = u64>, A: Allocator + Clone> World<J, A> {
    /// The numbers of a core and of its queues, by number. None where there is no such core. Times are in nanoseconds.
    pub fn stats(&self, core: CoreNo) -> Option<(CoreStats, ArrayVec<QueueStats, 256>)>
        ensures missing { IsNone result ↔ (self.now.cores ≤ core) }
        ensures core { IfSome result (λ told. TellsCore self.now.cores (journal_at core self.now) told.0) }
        ensures queues { IfSome result (λ told. TellsQueues self.now.burst (journal_at core self.now) (array_vec_len told.1) told.1.items) }
    {
        if core.0 >= self.cores {
            return None;
        }
        // All notes are kept, so there are fewer than a count of jobs can tell.
        let recorded = self.recorded(core);
        let _kept = recorded.journal().kept_count();
        Some(told_stats(recorded))
    }
}
