//! How the numbers of a core are published, so that others may watch it while it runs.

ghost use Rattle.std.specs.Prelude.{◌-◌, ◌^◌, ◌<◌, ◌≤◌, length};
ghost use Rattle.core_queues.specs.Queues.{queue_count};
ghost use Rattle.actor_core.specs.Recorded.{IsRecorded};
ghost use Rattle.actor_core.specs.Stats.{AreExact, TellsCore, TellsQueues};
ghost use Rattle.run_worker.specs.Shown.{IsShown, Shows, TellsAlone, shown_of};

use crate::served::Served;
use actor_core::{Recorded, are_exact, told_stats, told_stats_within};
use arrayvec::ArrayVec;
use base_jobs::Task;
use base_words::{CoreStats, QueueStats};
use run_watch::Publisher;

/// For how many queues a board has places.
pub(crate) const PLACES: u16 = 256;

/// Behind so many rounds in which something was done the numbers are published.
pub(crate) const SHOWN_EACH: u32 = 1024;

/// The numbers of so many queues, or of fewer, are handed on in a small place. One for 256 has 20 kB, which are written and copied each time.
const FEW: u16 = 16;

/// Publishes these numbers, if the counts are exact.
fn show_told<J: Task<Out = u64>>(
    recorded: &Recorded<J>,
    alone: bool,
    publisher: &mut Publisher,
    core: &CoreStats,
    queues: &[QueueStats],
)
    requires unspent { publisher.old.count < 2 ^ 64 - 1 }
    requires shown { IsShown recorded.now (shown_of publisher.old) }
    requires alone { TellsAlone alone recorded.now.journal.notes }
    requires core { TellsCore recorded.now.core.cores recorded.now.journal.notes core.now }
    requires few { length recorded.now.journal.notes < 2 ^ 64 → TellsQueues recorded.now.core.bursts.burst recorded.now.journal.notes (length queues.now) queues.now }
    requires exact { AreExact queues.now → TellsQueues recorded.now.core.bursts.burst recorded.now.journal.notes (length queues.now) queues.now }
    ensures { Shows recorded.now.journal.notes (shown_of publisher.old) (shown_of publisher.new) }
{
    if !are_exact(queues) {
        return;
    }
    let journal = recorded.journal();
    if alone {
        publisher.publish_own_closing(journal, core, queues);
        return;
    }
    publisher.publish(journal, core, queues);
}

/// As `show_on`, where there are few queues.
fn show_few<J: Task<Out = u64>>(recorded: &Recorded<J>, alone: bool, publisher: &mut Publisher)
    requires sound { IsRecorded J.meaning recorded.now }
    requires few { queue_count recorded.now.core.queues ≤ 16 }
    requires unspent { publisher.old.count < 2 ^ 64 - 1 }
    requires shown { IsShown recorded.now (shown_of publisher.old) }
    requires alone { TellsAlone alone recorded.now.journal.notes }
    ensures { Shows recorded.now.journal.notes (shown_of publisher.old) (shown_of publisher.new) }
{
    let (core, queues): (CoreStats, ArrayVec<QueueStats, 16>) = told_stats_within(recorded);
    show_told(recorded, alone, publisher, &core, queues.as_slice());
}

/// As `show_on`, however many queues there are.
#[inline(never)]
fn show_many<J: Task<Out = u64>>(recorded: &Recorded<J>, alone: bool, publisher: &mut Publisher)
    requires sound { IsRecorded J.meaning recorded.now }
    requires unspent { publisher.old.count < 2 ^ 64 - 1 }
    requires shown { IsShown recorded.now (shown_of publisher.old) }
    requires alone { TellsAlone alone recorded.now.journal.notes }
    ensures { Shows recorded.now.journal.notes (shown_of publisher.old) (shown_of publisher.new) }
{
    let (core, queues) = told_stats(recorded);
    show_told(recorded, alone, publisher, &core, queues.as_slice());
}

impl<J: Task<Out = u64>> Served<J> {
    /// Publishes the numbers of the core and of its queues as they stand, and that it closed by itself if it did, unless they can't be published
    /// any more.
    pub(crate) fn show_on(&self, publisher: &mut Publisher)
        requires shown { IsShown self.now.linked.recorded (shown_of publisher.old) }
        ensures { Shows self.now.linked.recorded.journal.notes (shown_of publisher.old) (shown_of publisher.new) }
    {
        if publisher.is_spent() {
            return;
        }
        let alone = self.alone;
        let recorded = self.recorded();
        if recorded.core().queue_count() <= FEW {
            show_few(recorded, alone, publisher);
        } else {
            show_many(recorded, alone, publisher);
        }
    }
}
