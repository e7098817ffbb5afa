//! One core, and the job of it that the host runs.

ghost use Rattle.std.specs.Prelude.{◌≡◌, ℕ, ◌+◌, ◌-◌, ◌*◌, ◌^◌, ◌<◌, Some, None, IfOk, IfErr, is_some, ◌≤◌};
ghost use Rattle.core_core.specs.State.{delivered_of, inside_count, opened};
ghost use Rattle.base_words.specs.Work.{number_if};
ghost use Rattle.base_jobs.specs.Ready.{HasReadyJob};
ghost use Rattle.fairexec_c.specs.Hosting.{HandsIn};
ghost use Rattle.host_core.specs.Jobs.{host_meaning};
ghost use Rattle.host_core.specs.Waking.{name_out};
ghost use Rattle.fairexec_c.specs.Opening.{OpensCore, half_room};
ghost use Rattle.host_calls.specs.declared.code.Code.TheVariants as code;
ghost use Rattle.fairexec_c.specs.Running.{Nexts, SettlesStep, step_of};

use base_jobs::Step;
use base_words::{ActorNo, CoreNo, Envelope, JobId, Order};
use core_core::{Core, Delivered, PickError, Settled, Turn};
use host_calls::Code;
use host_core::word::poll_told;
use host_core::{HostJob, Run};
use std::alloc::{AllocError, Global};
use std::marker::Model;

/// A core has room for twice a number of 16 bits.
const MOST_JOBS: u32 = 131070;

/// A core, how many orders the host handed in, for how many jobs there is room, and the job that the host runs.
#[derive(Drop)]
pub struct Hosted {
    pub core: Core<HostJob>,
    pub sent: u64,
    pub room: u64,
    run: Option<Run>,
}

impl Model for Hosted {
    ghost use Rattle.core_core.specs.State.{CoreView};
    ghost use Rattle.host_core.specs.declared.job.HostJob.{HostJob};
    ghost use Rattle.fairexec_c.specs.Hosting.{IsHosted};

    ghost Value = { CoreView HostJob };

    ghost view = { λ hosted. hosted.core };

    ghost invariant = { λ hosted. IsHosted hosted.core hosted.sent hosted.room hosted.run };
}

impl Hosted {
    /// Opens a core with room for twice `cap` jobs.
    pub fn open(alloc: Global, cap: u16) -> Result<Self, AllocError>
        ensures { IfOk result (λ hosted. hosted ≡ opened 0 1 (2 * cap) 0 1) }
    {
        Ok(Hosted {
            core: Core::open(alloc, CoreNo(0), 1, cap)?,
            sent: 0,
            room: u64::from(cap) * 2,
            run: None,
        })
    }

    /// Delivers an order of the host.
    pub(crate) fn hand_in(&mut self, order: Order<HostJob>) -> Delivered<HostJob>
        requires room { inside_count self.old < self.old.queues.room }
        requires left { delivered_of 1 self.old < 2 ^ 64 - 1 }
        requires ready { HasReadyJob host_meaning order }
        ensures { HandsIn self.old order result self.new }
    {
        self.sent += 1;
        let name = JobId {
            from: ActorNo(1),
            to: CoreNo(0),
            number: self.sent,
        };
        let (delivered, _notes) = self.core.deliver(Envelope { name, order });
        delivered
    }

    /// The name of the job that the host runs, if it runs one.
    pub(crate) fn name_out(&self) -> Option<JobId>
        ensures { result ≡ name_out self.now.out }
    {
        match &self.run {
            Some(run) => Some(run.name),
            None => None,
        }
    }

    /// 1 while the host runs a job of this core, else 0.
    pub(crate) fn running(&self) -> u32
        ensures { result ≡ number_if (is_some self.now.out) }
    {
        match self.run {
            Some(_) => 1,
            None => 0,
        }
    }

    /// Takes the next job out, for the host to run it, or hands one back. `job` is the host's number of it.
    pub fn next(&mut self, job: &mut u64) -> Code
        ensures { Nexts self.old job.old result job.new self.new }
    {
        let (picked, _notes) = self.core.pick();
        match picked {
            Ok(Turn::Start(name, _, next)) => {
                *job = next.handle;
                self.run = Some(Run { name, job: next });
                Code::Start
            }
            Ok(Turn::Resume(name, _, next)) => {
                *job = next.handle;
                self.run = Some(Run { name, job: next });
                Code::Resume
            }
            Ok(Turn::Back(_, Order::Job(_, back), _)) => {
                *job = back.handle;
                Code::Back
            }
            Ok(Turn::Back(_, _, _)) => Code::Back,
            Ok(Turn::Idle) => Code::Idle,
            Err(PickError::Spent) => Code::Spent,
            Err(PickError::Busy) => Code::Busy,
        }
    }

    /// Settles the run that the host made of the job that is out. It took `spent` nanoseconds.
    #[inline(always)]
    pub fn settle(&mut self, step: u32, spent: u64) -> Code
        ensures { SettlesStep self.old (step_of step) spent result self.new }
    {
        let Some(step) = step_numbered(step) else {
            return Code::BadNumber;
        };
        let Some(run) = self.run.take() else {
            return Code::NoJob;
        };
        let (settled, _notes) = self.core.settle(poll_told(run.job, step), spent);
        match settled {
            Settled::Yielded => Code::Ok,
            Settled::Parked => Code::Parked,
            Settled::Stayed => Code::Ok,
            Settled::Finished(_) => Code::Done,
        }
    }
}

/// Opens a core with room for so many jobs, an odd number rounded up, on the heap.
///
/// # Errors
///
/// `BadNumber` for 0 and for more than 131070 jobs, else `NoMemory`.
pub(crate) fn open_for(alloc: Global, jobs: u32) -> Result<Box<Hosted>, Code>
    ensures opened { IfOk result (λ hosted. OpensCore jobs code.Ok (Some hosted.value)) }
    ensures refused { IfErr result (λ told. OpensCore jobs told None) }
{
    if jobs == 0 || jobs > MOST_JOBS {
        return Err(Code::BadNumber);
    }
    let Ok(hosted) = Hosted::open(alloc, half(jobs)) else {
        return Err(Code::NoMemory);
    };
    match Box::new(alloc, hosted) {
        Ok(hosted) => Ok(hosted),
        Err(_) => Err(Code::NoMemory),
    }
}

/// Half of so many jobs, rounded up.
fn half(jobs: u32) -> u16
    requires { jobs ≤ 131070 }
    ensures { result ≡ half_room jobs }
{
    ((jobs + 1) / 2) as u16
}

/// The step of this number. A job that is done answers 0, since nobody reads its answer.
pub(crate) fn step_numbered(number: u32) -> Option<Step<u64>>
    ensures { result ≡ step_of number }
{
    match number {
        0 => Some(Step::Yield),
        1 => Some(Step::Done(0)),
        2 => Some(Step::Park),
        _ => None,
    }
}
