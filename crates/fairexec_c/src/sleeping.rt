//! Jobs of a core alone that sleep until a time.

ghost use Rattle.std.specs.Prelude.{◌≡◌, false, true};
ghost use Rattle.core_queues.specs.Waking.{FindsNoPark};
ghost use Rattle.host_core.specs.Waking.{HasParked};
ghost use Rattle.host_calls.specs.Members.{OnSleepers};
ghost use Rattle.fairexec_c.specs.Running.{step_of};
ghost use Rattle.fairexec_c.specs.Sleeping.{SettlesUntil, WakesDueAlone};

use crate::hosted::{Hosted, step_numbered};
use base_words::JobId;
use host_calls::sleepers::sleep;
use host_calls::{Code, Member, Sleepers};

impl Hosted {
    /// Whether a wake of this job would find it parked.
    fn is_parked(&self, job: &JobId) -> bool
        ensures parked { result ≡ true → HasParked self.now.queues job.now }
        ensures awake { result ≡ false → FindsNoPark self.now.queues job.now }
    {
        match self.core.parked(*job) {
            Some(_) => true,
            None => false,
        }
    }

    /// Settles the run of the job that is out. If it parks, its job sleeps until this time.
    pub(crate) fn settle_asleep(
        &mut self,
        sleepers: &mut Sleepers,
        number: u32,
        spent: u64,
        time: u64,
    ) -> Code
        ensures { SettlesUntil (step_of number) (record { spent = spent; until = time }) self.old sleepers.old result self.new sleepers.new }
    {
        let Some(step) = step_numbered(number) else {
            return Code::BadNumber;
        };
        let Some(name) = self.name_out() else {
            return Code::NoJob;
        };
        if !sleepers.arm(&name, sleep(&step, time)) {
            return Code::Full;
        }
        let told = self.settle(number, spent);
        sleepers.disarm(told, &name);
        told
    }

    /// Wakes the job whose timer is due next, if one is due by now.
    fn wake_sleeper(&mut self, sleepers: &mut Sleepers, now: u64) -> Code
        ensures { WakesDueAlone now self.old sleepers.old result self.new sleepers.new }
    {
        let Some(name) = sleepers.due(now) else {
            return Code::Idle;
        };
        if !self.is_parked(&name) {
            sleepers.forget(&name);
            return Code::Absent;
        }
        let told = self.wake_from(name.from, name.number);
        sleepers.pass(told, &name);
        told
    }

    /// The same with the timers of a handle.
    pub(crate) fn wake_due(&mut self, timers: &mut Member, now: u64) -> Code
        ensures { OnSleepers timers.old (self.new ≡ self.old) result timers.new (λ before code after. WakesDueAlone now self.old before code self.new after) }
    {
        match timers {
            Member::Sleepers(sleepers) => self.wake_sleeper(sleepers, now),
            _ => Code::Empty,
        }
    }
}
