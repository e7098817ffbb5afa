//! A job of the host. What its task is, the host alone knows: any answer may be its answer.

ghost use Rattle.std.specs.Prelude.{◌≡◌, false};
ghost use Rattle.host_core.specs.Jobs.{heard};
ghost use Rattle.base_jobs.specs.Steps as steps;

use crate::flag::Flag;
use base_jobs::{Job, Post, Step, Task};
use base_words::{ActorNo, CoreNo, JobId, Outcome, Ticket, TicketError};

/// A job by the number that the host gave it. A poll asks its post what the host's run of the job came to.
#[derive(Drop)]
pub struct HostJob {
    pub handle: u64,
    pub ended: Flag,
}

impl HostJob {
    /// A job that wasn't run yet.
    pub fn new(handle: u64) -> Self
        ensures { result ≡ record { handle = handle; ended = false } }
    {
        HostJob {
            handle,
            ended: Flag::of(false),
        }
    }
}

impl Task for HostJob {
    ghost use Rattle.host_core.specs.Jobs.{host_meaning, host_laws};

    type Out = u64;

    type Local = ();

    ghost meaning = { host_meaning };

    ghost laws = { host_laws };

    fn is_done(&self) -> bool {
        self.ended.get()
    }

    fn told(&self) -> Option<u64> {
        None
    }
}

impl Job for HostJob {
    fn poll<P: Post<Self, u64>>(&mut self, post: &mut P) -> Step<u64> {
        let step = step_heard(post.redeem(run_ticket()));
        self.ended = Flag::of(is_done_step(&step));
        step
    }
}

/// What an answer of the post says of the run.
fn step_heard(answer: Result<Outcome<HostJob, u64>, TicketError>) -> Step<u64>
    ensures { result ≡ heard answer }
{
    match answer {
        Ok(Outcome::Finished(answer)) => Step::Done(answer),
        Ok(Outcome::Returned(_, _)) => Step::Yield,
        Ok(Outcome::Answered(_)) => Step::Yield,
        Err(TicketError::Unknown) => Step::Park,
        Err(TicketError::Gone | TicketError::Pending) => Step::Yield,
    }
}

/// Whether a step ends its job.
fn is_done_step(step: &Step<u64>) -> bool
    ensures { result ≡ steps.is_done_step step.now }
{
    match step {
        Step::Done(_) => true,
        Step::Yield => false,
        Step::Park => false,
    }
}

/// The ticket of a run. A job asks for no other, so its name says nothing.
fn run_ticket() -> Ticket {
    Ticket::named(JobId {
        from: ActorNo(0),
        to: CoreNo(0),
        number: 0,
    })
}
