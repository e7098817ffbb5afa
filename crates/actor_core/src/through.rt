//! The further polls of a turn, one after another, and the end of the turn.

ghost use Rattle.std.specs.Prelude.{◌≡◌, ◌<◌, None, IsSome, List, length};
ghost use Rattle.base_words.specs.declared.names.JobId.{JobId};
ghost use Rattle.actor_core.specs.Turns.{NothingFollows};
ghost use Rattle.actor_core.specs.Beside.{IsAtRest, PollsAsOwed};
ghost use Rattle.actor_core.specs.Rooms.{HasRestRoom, open_queue};
ghost use Rattle.actor_core.specs.WholeTurns.{EndsAmong, PollsOn, turn_view};

use crate::polls::poll_further;
use crate::recorded::Recorded;
use base_jobs::{Job, Task};
use base_words::CoreNo;
use core_queues::Meter;
use link_ends::Around;
use run_config::Gate;
use std::alloc::Allocator;

/// Makes further polls of the open turn, as long as it may go on.
pub(crate) fn poll_on<
    J: Job + Task<Out = u64>,
    A: Allocator + Clone,
    E: Around<J>,
    M: Meter,
    G: Gate,
>(
    core: &mut Recorded<J, A>,
    around: &mut E,
    local: &mut J::Local,
    own: CoreNo,
    meter: &mut M,
    gate: &mut G,
)
    requires rest { IsAtRest J.meaning E.reach own core.old around.old }
    requires is_open { IsSome (open_queue core.old) }
    requires room { HasRestRoom core.old }
    ensures polls { (polls : List JobId) × PollsOn J.meaning E.reach own M.Tells G.Asked polls (turn_view core.old around.old meter.old gate.old) (turn_view core.new around.new meter.new gate.new) }
    ensures over { NothingFollows core.new }
    ensures is_open { IsSome (open_queue core.new) }
    ensures room { HasRestRoom core.new }
    ensures rest { IsAtRest J.meaning E.reach own core.new around.new }
    ensures owed { PollsAsOwed J.meaning E.reach own core.old around.old → PollsAsOwed J.meaning E.reach own core.new around.new }
{
    while let Some(next) = core.ahead_in_turn() {
        poll_further(core, around, local, own, &next, meter, gate);
    }
}

/// Ends the open turn, which may not go on.
pub(crate) fn end_among<J: Task<Out = u64>, A: Allocator + Clone, E: Around<J>>(
    core: &mut Recorded<J, A>,
    around: &E,
    own: CoreNo,
)
    requires rest { IsAtRest J.meaning E.reach own core.old around.now }
    requires is_open { IsSome (open_queue core.old) }
    requires over { NothingFollows core.old }
    requires room { length core.old.journal.notes < core.old.journal.room }
    ensures ends { EndsAmong J.meaning E.reach own core.old core.new around.now }
    ensures no_turn { open_queue core.new ≡ None }
    ensures owed { PollsAsOwed J.meaning E.reach own core.old around.now → PollsAsOwed J.meaning E.reach own core.new around.now }
{
    let _around = around;
    core.end_turn();
}
