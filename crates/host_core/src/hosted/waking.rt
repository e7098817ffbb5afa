//! How a core wakes a job of its own.

ghost use Rattle.std.specs.Prelude.{◌≡◌, false, true};
ghost use Rattle.core_queues.specs.Waking.{FindsNoPark};
ghost use Rattle.actor_seat.specs.Linked.{StaysLinked};
ghost use Rattle.host_core.specs.Hosted.{IsHosted};
ghost use Rattle.host_core.specs.Waking.{HasParked, WakesItself, name_out};

use super::Hosted;
use crate::answers::Refusal;
use base_words::JobId;

/// The notes of a wake that the core sends itself, and whose outcome it lets go.
const WAKE_NOTES: u16 = 2;

impl Hosted {
    /// The name of the job that the host runs, if it runs one.
    pub fn running(&self) -> Option<JobId>
        ensures { result ≡ name_out self.now.recorded.core.out }
    {
        match &self.run {
            Some(run) => Some(run.name),
            None => None,
        }
    }

    /// Whether a wake of this job would find it parked.
    pub fn is_parked(&self, job: &JobId) -> bool
        ensures parked { result ≡ true → HasParked self.now.recorded.core.queues job.now }
        ensures awake { result ≡ false → FindsNoPark self.now.recorded.core.queues job.now }
    {
        match self.seat.recorded().core().parked(*job) {
            Some(_) => true,
            None => false,
        }
    }

    /// Sends the core a wake of a job of its own, on its link to itself, and lets go of the outcome. The host may run a job meanwhile.
    ///
    /// # Errors
    ///
    /// Tried in this order: `JournalFull` where fewer than two notes are free; `Closed` if the core shut its own gate; `Full` if the link takes
    /// nothing more. Nothing is noted then.
    pub fn wake_own(&mut self, job: JobId) -> Result<(), Refusal>
        ensures wakes { WakesItself job self.old result self.new }
        ensures stays { StaysLinked self.old self.new }
        ensures hosted { IsHosted self.new }
    {
        let own = self.seat.actor();
        if !self.has_room(WAKE_NOTES) {
            return Err(Refusal::JournalFull);
        }
        if self.seat.wake_own(job) {
            return Ok(());
        }
        match self.seat.recorded().gate(own) {
            Some(last) => Err(Refusal::Closed(last)),
            None => Err(Refusal::Full),
        }
    }
}
