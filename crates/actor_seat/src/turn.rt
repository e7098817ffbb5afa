//! One turn of a core at its ends.

ghost use Rattle.actor_core.specs.Rooms.{HasTurnRoom};
ghost use Rattle.actor_seat.specs.Bursts.{MakesTurn, turn_view};
ghost use Rattle.actor_seat.specs.Linked.{IsBetweenTurns, IsLinked, StaysLinked};

use crate::seat::Seat;
use actor_core::{Turned, turn};
use base_jobs::{Job, Task};
use base_words::CoreNo;
use core_queues::Meter;
use run_config::Gate;

impl<J: Job + Task<Out = u64>> Seat<J> {
    /// Makes one turn of the core, among its own ends.
    #[inline(always)]
    pub fn turn<M: Meter, G: Gate>(
        &mut self,
        local: &mut J::Local,
        meter: &mut M,
        gate: &mut G,
    ) -> Turned
        requires linked { IsLinked J.meaning self.old }
        requires between { IsBetweenTurns self.old.recorded }
        requires room { HasTurnRoom self.old.recorded }
        ensures makes { MakesTurn J.meaning M.Tells G.Asked (turn_view self.old meter.old gate.old) result (turn_view self.new meter.new gate.new) }
        ensures stays { StaysLinked self.old self.new }
        ensures linked { IsLinked J.meaning self.new }
        ensures between { IsBetweenTurns self.new.recorded }
    {
        let own = CoreNo(self.actor().0);
        turn(&mut self.recorded, &mut self.ends, local, own, meter, gate)
    }
}
