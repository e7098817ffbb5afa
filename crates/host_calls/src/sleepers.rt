//! Jobs that sleep: the timers of a core's jobs, and their wakes. Times are of the host's clock, which no call here knows.
//!
//! A timer is set before its run is settled, since there may be no place for it, and goes again if the job doesn't park. So a job has one
//! only while it is parked, or once a wake came before its time: then it goes with the next run that is settled, or is passed over when due.

ghost use Rattle.std.specs.Prelude.{◌≡◌, ◌↔◌, IfErr, IfOk, IfSome, IfNone, IsTrue, None, Some};
ghost use Rattle.std.specs.Bool.{OnFalse, OnTrue};
ghost use Rattle.core_timers.specs.Timers.{Forgets, IsAfter, IsDue};
ghost use Rattle.host_calls.specs.declared.code.Code.TheVariants as code;
ghost use Rattle.host_calls.specs.Sleepers.{Arms, Disarms, GoesIfWoken, IsSet, LosesTimer, OpensTimers, SettlesUntil, TellsNext, WakesDueTold, WakesItselfTold, sleep_of};
ghost use Rattle.host_calls.specs.Turns.{step_of};

use crate::code::Code;
use crate::links::tell_shut;
use crate::turns::{settle, step_numbered};
use base_jobs::Step;
use base_words::JobId;
use core_timers::Timers;
use host_core::Hosted;
use std::alloc::Global;
use std::marker::Model;

/// As many jobs as one core may hold at most.
const MOST_JOBS: u32 = 131070;

/// The time that says that a job is parked until a wake comes.
const NEVER: u64 = u64::MAX;

/// The timers of the jobs of one core.
#[derive(Drop)]
pub struct Sleepers {
    timers: Timers<Global>,
}

impl Model for Sleepers {
    ghost use Rattle.core_timers.specs.Timers.{Timers as Set};

    ghost Value = { Set };

    ghost view = { λ sleepers. sleepers.timers };
}

/// The time until which a run that came to this step lets its job sleep.
pub fn sleep(step: &Step<u64>, time: u64) -> Option<u64>
    ensures { result ≡ sleep_of step.now time }
{
    match step {
        Step::Park if time != NEVER => Some(time),
        _ => None,
    }
}

impl Sleepers {
    /// Takes the memory for the timers of so many jobs.
    ///
    /// # Errors
    ///
    /// `BadNumber` for 0 and for more than 131070 jobs, else `NoMemory`.
    pub fn open(alloc: Global, jobs: u32) -> Result<Self, Code>
        ensures opened { IfOk result (λ sleepers. OpensTimers jobs code.Ok (Some sleepers)) }
        ensures refused { IfErr result (λ told. OpensTimers jobs told None) }
    {
        if jobs == 0 || jobs > MOST_JOBS {
            return Err(Code::BadNumber);
        }
        match Timers::open(alloc, jobs as usize) {
            Ok(timers) => Ok(Sleepers { timers }),
            Err(_) => Err(Code::NoMemory),
        }
    }

    /// Tells when the next timer is due.
    pub fn next_time(&self, time: &mut u64) -> Code
        ensures { TellsNext self.now time.old result time.new }
    {
        match self.timers.next() {
            Some(next) => {
                *time = next;
                Code::Ok
            }
            None => Code::Idle,
        }
    }

    /// The name of a job whose timer is due by now, and none before it.
    pub fn due(&self, now: u64) -> Option<JobId>
        ensures due { IfSome result (IsDue self.now now) }
        ensures none { IfNone result (IsAfter now self.now) }
    {
        self.timers.due(now)
    }

    /// Sets the timer of a job that is to sleep, or forgets it. Whether there was a place for it.
    pub fn arm(&mut self, name: &JobId, until: Option<u64>) -> bool
        ensures { Arms until name.now self.old result self.new }
    {
        match until {
            Some(time) => self.timers.set(name, time),
            None => {
                self.forget(name);
                true
            }
        }
    }

    /// Forgets the timer of a job whose run was settled, unless it parked.
    pub fn disarm(&mut self, told: Code, name: &JobId)
        ensures { Disarms told name.now self.old self.new }
    {
        match told {
            Code::Parked => {}
            _ => self.forget(name),
        }
    }

    /// Forgets the timer of this job, if it has one.
    pub fn forget(&mut self, name: &JobId)
        ensures loses { LosesTimer name.now self.old self.new }
        ensures had { IsSet self.old name.now → Forgets self.old name.now self.new }
    {
        let _had = self.timers.forget(name);
    }

    /// Settles the run of the job that is out. If it parks, its job sleeps until this time.
    pub(crate) fn settle_until(
        &mut self,
        core: &mut Hosted,
        number: u32,
        answer: u64,
        spent: u64,
        time: u64,
    ) -> Code
        ensures { SettlesUntil (step_of number answer) (record { spent = spent; until = time }) core.old self.old result core.new self.new }
    {
        let Some(step) = step_numbered(number, answer) else {
            return Code::BadNumber;
        };
        let Some(name) = core.running() else {
            return Code::NoJob;
        };
        if !self.arm(&name, sleep(&step, time)) {
            return Code::Full;
        }
        let told = settle(core, number, answer, spent);
        self.disarm(told, &name);
        told
    }

    /// Wakes the job whose timer is due next, if one is due by now.
    pub(crate) fn wake_due(&mut self, core: &mut Hosted, now: u64) -> Code
        ensures { WakesDueTold now core.old self.old result core.new self.new }
    {
        let Some(name) = self.due(now) else {
            return Code::Idle;
        };
        if !core.is_parked(&name) {
            self.forget(&name);
            return Code::Absent;
        }
        let told = tell_shut(core.wake_own(name));
        self.pass(told, &name);
        told
    }

    /// Forgets the timer of a job that was woken.
    pub fn pass(&mut self, told: Code, name: &JobId)
        requires { IsSet self.old name.now }
        ensures { GoesIfWoken told name.now self.old self.new }
    {
        if let Code::Ok = told {
            self.forget(name);
        }
    }
}
