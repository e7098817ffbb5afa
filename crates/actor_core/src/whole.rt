//! One turn of a core: polls of its next jobs, or a job that is handed back.

ghost use Rattle.std.specs.Prelude.{◌≡◌, None};
ghost use Rattle.actor_core.specs.Beside.{IsAtRest, PollsAsOwed};
ghost use Rattle.actor_core.specs.Rooms.{HasTurnRoom, open_queue};
ghost use Rattle.actor_core.specs.WholeTurns.{MakesTurn, turn_view};

use crate::back::hand_back;
use crate::polls::poll_first;
use crate::recorded::Recorded;
use crate::through::{end_among, poll_on};
use base_jobs::{Job, Task};
use base_words::CoreNo;
use core_core::{Ahead, PickError};
use core_queues::Meter;
use link_ends::Around;
use run_config::Gate;
use std::alloc::Allocator;

/// What a turn came to.
#[derive(Clone, Copy, PartialEq, Eq, Debug)]
pub enum Turned {
    /// Jobs of one queue were polled: one, or as many as a turn may have.
    Polled,
    /// A job was handed back.
    Returned,
    /// No queue has work.
    Idle,
    /// All turns are used, and a queue has work.
    Spent,
}

/// Makes one turn of the core of this number: the first job of the right pick is polled, or handed back. What is to be done is told ahead of
/// the pick. If a turn may have several polls, jobs of the same queue are polled as long as the turn may go on, and a note of its own ends
/// the turn.
///
/// A job that is polled may submit, redeem and detach as this core, on the ends that the core is lent, and is lent what the jobs of the core
/// share. Each outcome is given on the end of its sender before the next poll. The gate is asked just before each poll, and the meter is
/// told that the poll begins, and asked how long it took.
pub fn turn<J: Job + Task<Out = u64>, A: Allocator + Clone, E: Around<J>, M: Meter, G: Gate>(
    core: &mut Recorded<J, A>,
    around: &mut E,
    local: &mut J::Local,
    own: CoreNo,
    meter: &mut M,
    gate: &mut G,
) -> Turned
    requires rest { IsAtRest J.meaning E.reach own core.old around.old }
    requires no_turn { open_queue core.old ≡ None }
    requires room { HasTurnRoom core.old }
    ensures makes { MakesTurn J.meaning E.reach own M.Tells G.Asked (turn_view core.old around.old meter.old gate.old) result (turn_view core.new around.new meter.new gate.new) }
    ensures rest { IsAtRest J.meaning E.reach own core.new around.new }
    ensures no_turn { open_queue core.new ≡ None }
    ensures owed { PollsAsOwed J.meaning E.reach own core.old around.old → PollsAsOwed J.meaning E.reach own core.new around.new }
{
    match core.ahead() {
        Ok(Ahead::Job(next)) => {
            poll_first(core, around, local, own, &next, meter, gate);
            if !core.has_open_turn() {
                return Turned::Polled;
            }
            poll_on(core, around, local, own, meter, gate);
            end_among(core, around, own);
            Turned::Polled
        }
        Ok(Ahead::Back) => {
            hand_back(core, around, own);
            Turned::Returned
        }
        Ok(Ahead::Idle) => Turned::Idle,
        Err(PickError::Spent) => Turned::Spent,
        Err(PickError::Busy) => unreachable!(),
    }
}
