//! One poll of a turn, with the job in its place. Its outcome is given right behind it, if the job is done.

ghost use Rattle.std.specs.Prelude.{◌≡◌, ◌+◌, ◌*◌, ◌≤◌, length, sum_by};
ghost use Rattle.base_words.specs.Bursts.{polls_in_turn};
ghost use Rattle.core_core.specs.Further.{IsAheadInTurn};
ghost use Rattle.core_core.specs.Whole.{IsAhead};
ghost use Rattle.actor_desk.specs.Spending.{left_of};
ghost use Rattle.actor_core.specs.Owed.{outcome_settled};
ghost use Rattle.actor_core.specs.Turns.{IsPick, IsFurther};
ghost use Rattle.actor_core.specs.Whole.{MayAnswer};
ghost use Rattle.actor_core.specs.Beside.{AreAround, IsAtRest, PollsAsOwed, none_owed, owed_under};
ghost use Rattle.actor_core.specs.TurnPolls.{GivesOn, PostsOne};
ghost use Rattle.actor_core.specs.Rooms.{HasPollRoom, HasRestRoom};
ghost use Rattle.actor_core.specs.WholeTurns.{BeginsTurn, GoesFurther, turn_view};

use crate::leave::{Leave, ask};
use crate::recorded::Recorded;
use base_jobs::{Job, Task};
use base_words::{CoreNo, JobId};
use core_core::{Next, Settled};
use core_queues::Meter;
use link_ends::Around;
use run_config::Gate;
use std::alloc::Allocator;

// Makes the first poll of the turn of the job that was told ahead, by the leave of its core and name. What the poll owes to the job's sender isn't given yet.
fn post_first<J: Job + Task<Out = u64>, A: Allocator + Clone, E: Around<J>, M: Meter>(
    core: &mut Recorded<J, A>,
    around: &mut E,
    local: &mut J::Local,
    own: CoreNo,
    leave: Leave,
    next: &Next,
    meter: &mut M,
) -> Settled<u64>
    requires leave_core { leave.core ≡ own }
    requires leave_name { leave.name ≡ next.now.name }
    requires ahead { IsAhead core.old.core next.now.queue next.now.vr next.now.name next.now.started next.now.woken }
    requires rest { IsAtRest J.meaning E.reach own core.old around.old }
    requires room { length core.old.journal.notes + core.old.core.cores * (3 * core.old.cap) + 3 ≤ core.old.journal.room }
    ensures posts { PostsOne J.meaning E.reach own IsPick (λ time. M.Tells meter.old time meter.new) 3 1 next.now.name next.now.queue next.now.started result core.old core.new around.old around.new }
    ensures owed { PollsAsOwed J.meaning E.reach own core.old around.old → PollsAsOwed J.meaning E.reach own core.new around.new }
{
    let _leave = leave;
    core.turn_posting(around.lend_outs(own), local, next, meter)
}

// Makes a further poll of the open turn, of the job that was told ahead, in the same way.
#[inline(always)]
fn post_further<J: Job + Task<Out = u64>, A: Allocator + Clone, E: Around<J>, M: Meter>(
    core: &mut Recorded<J, A>,
    around: &mut E,
    local: &mut J::Local,
    own: CoreNo,
    leave: Leave,
    next: &Next,
    meter: &mut M,
) -> Settled<u64>
    requires leave_core { leave.core ≡ own }
    requires leave_name { leave.name ≡ next.now.name }
    requires ahead { IsAheadInTurn core.old.core next.now.queue next.now.vr next.now.name next.now.started next.now.woken }
    requires rest { IsAtRest J.meaning E.reach own core.old around.old }
    requires room { length core.old.journal.notes + sum_by left_of core.old.lanes + 2 ≤ core.old.journal.room }
    ensures posts { PostsOne J.meaning E.reach own IsFurther (λ time. M.Tells meter.old time meter.new) 2 (polls_in_turn core.old.journal.notes + 1) next.now.name next.now.queue next.now.started result
        core.old core.new around.old around.new }
    ensures owed { PollsAsOwed J.meaning E.reach own core.old around.old → PollsAsOwed J.meaning E.reach own core.new around.new }
{
    let _leave = leave;
    core.further_posting(around.lend_outs(own), local, next, meter)
}

// Gives the outcome of a poll on the end of the job's sender, if the job is done.
fn give_done_on<J: Job + Task<Out = u64>, A: Allocator + Clone, E: Around<J>>(
    core: &Recorded<J, A>,
    around: &mut E,
    own: CoreNo,
    name: JobId,
    settled: &Settled<u64>,
)
    requires known { name.from ≤ core.now.core.cores }
    requires may_answer { MayAnswer J.meaning core.now.took name settled.now }
    requires owing { AreAround J.meaning E.reach own (owed_under {J = J} name (outcome_settled settled.now)) core.now around.old }
    ensures gives { GivesOn E.reach own name.from name.number (outcome_settled settled.now) around.old around.new }
    ensures around { AreAround J.meaning E.reach own none_owed core.now around.new }
    ensures owed { PollsAsOwed J.meaning E.reach own core.now around.old → PollsAsOwed J.meaning E.reach own core.now around.new }
{
    core.give_done(around.lend_in(own, name.from), name, settled);
}

/// Asks the gate for the first poll of a turn, of the job that was told ahead, makes it, and gives its outcome.
pub(crate) fn poll_first<
    J: Job + Task<Out = u64>,
    A: Allocator + Clone,
    E: Around<J>,
    M: Meter,
    G: Gate,
>(
    core: &mut Recorded<J, A>,
    around: &mut E,
    local: &mut J::Local,
    own: CoreNo,
    next: &Next,
    meter: &mut M,
    gate: &mut G,
)
    requires ahead { IsAhead core.old.core next.now.queue next.now.vr next.now.name next.now.started next.now.woken }
    requires rest { IsAtRest J.meaning E.reach own core.old around.old }
    requires room { HasPollRoom core.old }
    ensures begins { BeginsTurn J.meaning E.reach own M.Tells G.Asked next.now.name (turn_view core.old around.old meter.old gate.old) (turn_view core.new around.new meter.new gate.new) }
    ensures rest { IsAtRest J.meaning E.reach own core.new around.new }
    ensures owed { PollsAsOwed J.meaning E.reach own core.old around.old → PollsAsOwed J.meaning E.reach own core.new around.new }
{
    let leave = ask(gate, own, &next.name);
    let settled = post_first(core, around, local, own, leave, next, meter);
    give_done_on(core, around, own, next.name, &settled);
}

/// Asks the gate for a further poll of the open turn, of the job that was told ahead, makes it, and gives its outcome.
#[inline(always)]
pub(crate) fn poll_further<
    J: Job + Task<Out = u64>,
    A: Allocator + Clone,
    E: Around<J>,
    M: Meter,
    G: Gate,
>(
    core: &mut Recorded<J, A>,
    around: &mut E,
    local: &mut J::Local,
    own: CoreNo,
    next: &Next,
    meter: &mut M,
    gate: &mut G,
)
    requires ahead { IsAheadInTurn core.old.core next.now.queue next.now.vr next.now.name next.now.started next.now.woken }
    requires rest { IsAtRest J.meaning E.reach own core.old around.old }
    requires room { HasRestRoom core.old }
    ensures further { GoesFurther J.meaning E.reach own M.Tells G.Asked next.now.name (turn_view core.old around.old meter.old gate.old) (turn_view core.new around.new meter.new gate.new) }
    ensures rest { IsAtRest J.meaning E.reach own core.new around.new }
    ensures owed { PollsAsOwed J.meaning E.reach own core.old around.old → PollsAsOwed J.meaning E.reach own core.new around.new }
{
    let leave = ask(gate, own, &next.name);
    let settled = post_further(core, around, local, own, leave, next, meter);
    give_done_on(core, around, own, next.name, &settled);
}
