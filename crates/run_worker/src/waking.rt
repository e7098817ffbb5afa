//! A worker wakes the jobs of its core that slept long enough, by orders of the core to itself.

ghost use Rattle.std.specs.Prelude.{◌≡◌, ◌*◌, false, true};
ghost use Rattle.run_worker.specs.Asks.{NotesNoPoll};
ghost use Rattle.run_worker.specs.Ended.{IsServed};
ghost use Rattle.run_worker.specs.Few.{woken_most};
ghost use Rattle.run_worker.specs.Rounds.{AreRung, StepsServed};
ghost use Rattle.run_worker.specs.Waking as spec;
ghost use Rattle.run_worker.specs.Waking.{HasParked, WakesAll, WakesNext, own_job};
ghost use Rattle.core_queues.specs.Waking.{FindsNoPark};

use crate::served::{Served, ring_since};
use actor_seat::Bells;
use base_jobs::Task;
use base_words::{CoreNo, JobId};
use core_timers::Timers;
use std::alloc::Global;

/// What became of the timer that is due next.
#[derive(Clone, Copy, Drop)]
pub enum Due {
    /// Its job is parked, and a wake of it was sent.
    Sent,
    /// Its job isn't parked any more.
    Awake,
    /// Its job is parked, but the link to the core itself took no wake.
    Refused,
    /// No timer is due, or the worker is at its end.
    Nothing,
}

/// Whether a wake was sent.
fn is_wake(due: Due) -> bool
    ensures { result ≡ spec.is_wake due }
{
    match due {
        Due::Sent => true,
        Due::Awake | Due::Refused | Due::Nothing => false,
    }
}

/// Whether no further timer is to be looked at.
fn is_over(due: Due) -> bool
    ensures { result ≡ spec.is_over due }
{
    match due {
        Due::Refused | Due::Nothing => true,
        Due::Sent | Due::Awake => false,
    }
}

impl<J: Task<Out = u64>> Served<J> {
    /// The job of this sender and number at this core.
    fn own_job(&self, name: &JobId) -> JobId
        ensures { result ≡ own_job self.now.linked name.now }
    {
        let JobId { from, number, .. } = *name;
        JobId {
            from,
            to: CoreNo(self.seat.actor().0),
            number,
        }
    }

    /// Whether a wake of this job would find it parked.
    fn is_parked(&self, job: &JobId) -> bool
        ensures parked { result ≡ true → HasParked self.now.linked job.now }
        ensures awake { result ≡ false → FindsNoPark self.now.linked.recorded.core.queues job.now }
    {
        match self.recorded().core().parked(*job) {
            Some(_) => true,
            None => false,
        }
    }

    /// Looks at the timer that is due next, and wakes its job if that is parked. A worker at its end leaves it.
    fn wake_next(&mut self, timers: &mut Timers<Global>, now: u64) -> Due
        ensures steps { StepsServed 2 self.old (spec.is_wake result) self.new }
        ensures wakes { self.new.ending ≡ false → WakesNext now self.old.linked timers.old result self.new.linked timers.new }
        ensures polls { NotesNoPoll self.old.linked.recorded.journal.notes self.new.linked.recorded.journal.notes }
    {
        self.look();
        if self.ending {
            return Due::Nothing;
        }
        let Some(name) = timers.due(now) else {
            return Due::Nothing;
        };
        let job = self.own_job(&name);
        if !self.is_parked(&job) {
            timers.forget(&name);
            return Due::Awake;
        }
        if !self.seat.wake_own(job) {
            return Due::Refused;
        }
        timers.forget(&name);
        Due::Sent
    }

    /// Wakes the jobs whose timers are due, at most as many as a link holds. Whether a wake was sent.
    fn wake_some(&mut self, timers: &mut Timers<Global>, now: u64) -> bool
        ensures steps { StepsServed (woken_most self.old) self.old result self.new }
        ensures wakes { self.new.ending ≡ false → WakesAll now self.old.linked timers.old self.new.linked timers.new }
        ensures polls { NotesNoPoll self.old.linked.recorded.journal.notes self.new.linked.recorded.journal.notes }
    {
        let cap = self.recorded().cap();
        let mut some = false;
        for count in 0..cap {
            let due = self.wake_next(timers, now);
            if is_over(due) {
                return some;
            }
            some = some | is_wake(due);
        }
        some
    }

    /// Wakes the jobs whose timers are due by this reading of the clock. Whether a wake was sent.
    pub(crate) fn wake_due(
        &mut self,
        timers: &mut Timers<Global>,
        now: u64,
        bells: &mut Bells,
    ) -> bool
        requires rung { AreRung self.old bells.old }
        ensures steps { StepsServed (woken_most self.old) self.old result self.new }
        ensures wakes { self.new.ending ≡ false → WakesAll now self.old.linked timers.old self.new.linked timers.new }
        ensures polls { NotesNoPoll self.old.linked.recorded.journal.notes self.new.linked.recorded.journal.notes }
        ensures rung { AreRung self.new bells.new }
        ensures names { bells.new.names ≡ bells.old.names }
    {
        let before = self.journal().kept_count();
        let some = self.wake_some(timers, now);
        ring_since(bells, self.journal(), before);
        some
    }
}
