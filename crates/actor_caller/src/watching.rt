//! What the caller sees of the cores while they run.

ghost use Rattle.std.specs.Prelude.{◌≡◌, ◌<◌, ◌≤◌, IsSomeAnd, None, false};
ghost use Rattle.actor_caller.specs.Watching.{IsToldRightly, Watches, closing_told, watch_at};

use crate::caller::{Beside, Caller};
use base_jobs::Task;
use base_words::CoreNo;
use note_journal::Sink;
use run_watch::Watcher;

impl<J: Task<Out = u64>, S: Sink, H: Beside<Job = J>> Caller<J, S, H> {
    /// Looks at the numbers that the worker of this core published last. `watched` tells them. False if there is no such core, or if each try
    /// of the look met a publication on the way; then `watched` tells the same as before.
    pub fn watch(&mut self, core: CoreNo) -> bool
        ensures watches { core < self.old.desk.cores → Watches core self.old result self.new }
        ensures missing { self.old.desk.cores ≤ core → (result ≡ false) × (self.new ≡ self.old) }
    {
        if core.0 >= self.cores {
            return false;
        }
        self.watchers[core.0 as usize].look()
    }

    /// What the last watch of this core saw. None if there is no such core.
    pub fn watched(&self, core: CoreNo) -> Option<&Watcher>
        ensures some { core < self.now.desk.cores → IsSomeAnd result (λ watcher. watcher.now ≡ watch_at core self.now.watched) }
        ensures none { self.now.desk.cores ≤ core → result ≡ None }
    {
        if self.cores <= core.0 {
            return None;
        }
        Some(&self.watchers[core.0 as usize])
    }

    /// Whether the core closed by itself, as far as the last watch saw. None if no watch saw a publication yet, or if there is no such core.
    pub fn closed_by_itself(&self, core: CoreNo) -> Option<bool>
        ensures some { core < self.now.desk.cores → result ≡ closing_told (watch_at core self.now.watched) }
        ensures rightly { core < self.now.desk.cores → IsToldRightly (watch_at core self.now.watched) result }
        ensures none { self.now.desk.cores ≤ core → result ≡ None }
    {
        let watcher = self.watched(core)?;
        if watcher.publication() == 0 {
            return None;
        }
        Some(watcher.closed_by_itself())
    }
}
