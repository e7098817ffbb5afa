//! How a core wakes a job of its own: by an order to itself.

ghost use Rattle.std.specs.Prelude.{◌+◌, ◌≤◌, length};
ghost use Rattle.actor_seat.specs.Linked.{IsLinked, StaysLinked};
ghost use Rattle.actor_seat.specs.Seats.{IsSeated};
ghost use Rattle.actor_seat.specs.Wakes.{WakesOwn};

use crate::seat::Seat;
use base_jobs::Task;
use base_words::{CoreNo, JobId, Order};

impl<J: Task<Out = u64>> Seat<J> {
    /// Sends the core a wake of a job of its own, on its link to itself, and lets go of the outcome. Whether the link took it: if not,
    /// nothing is noted.
    pub fn wake_own(&mut self, job: JobId) -> bool
        requires room { length self.old.recorded.journal.notes + 2 ≤ self.old.recorded.journal.room }
        ensures wakes { WakesOwn job self.old result self.new }
        ensures stays { StaysLinked self.old self.new }
        ensures seated { IsSeated J.meaning self.new }
        ensures linked { IsLinked J.meaning self.old → IsLinked J.meaning self.new }
    {
        let _seated = self.recorded();
        let own = CoreNo(self.actor().0);
        let Ok(ticket) = self.submit(own, Order::Wake(job.from, job.number)) else {
            return false;
        };
        // Nobody can have let go of a ticket that was just given, so this is never refused.
        let _done = self.detach(ticket);
        true
    }
}
