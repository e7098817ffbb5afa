//! A script job as a world holds it, in 24 bytes: each link has four places for a job.
//!
//! - A job of one poll holds its time and its answer in place, and needs no box.
//! - Any other job is a `ScriptJob` in a box. The box is made with the job, so no poll takes memory.
//! - What a job of a script submits is the job `d1=0`, of one poll. So a poll sends without a box, too: `Recorder` keeps the place to which the
//!   boxed job would send, and the job is sent there behind its poll.

ghost use Rattle.std.specs.Prelude.{◌≡◌, false, IfOk, None};
ghost use Rattle.base_jobs.specs.ScriptMeaning.{script_meaning};
ghost use Rattle.base_jobs.specs.Steps.{IfDone, IfUndone, OwesAt, OwesOn, is_done_step};
ghost use Rattle.fairexec_run.specs.BoxedScripts.{SendsTo};

use base_jobs::{Job, Post, ScriptJob, Step, Task};
use base_words::{CoreNo, Order, Outcome, QueueNo, SendError, Ticket, TicketError};
use std::alloc::{AllocError, Global};
use std::marker::Model;

/// A script job. If it has one poll, it needs no memory beside its place; else its polls lie in a box.
///
/// A contract sees of it what it sees of a `ScriptJob`.
#[derive(Drop)]
pub(crate) struct BoxedScript {
    form: Form,
}

/// What is kept of a script job.
#[derive(Drop)]
enum Form {
    /// Its one poll isn't made: the time that it tells, and its answer.
    Short(u64, u64),
    /// Its one poll is made.
    Polled(u64, u64),
    /// Any other job.
    Long(Box<ScriptJob>),
}

impl Model for BoxedScript {
    ghost use Rattle.base_jobs.specs.Scripts.{Script};

    ghost Value = { Script };

    ghost use Rattle.fairexec_run.specs.BoxedScripts.{script_in};

    ghost view = { λ job. script_in job.form };
}

impl BoxedScript {
    /// The same job.
    ///
    /// # Errors
    ///
    /// There is no memory for its box.
    pub(crate) fn new(alloc: Global, job: ScriptJob) -> Result<BoxedScript, AllocError>
        ensures same { IfOk result (λ boxed. boxed ≡ job) }
    {
        if job.is_done() || job.poll_count() > 1 {
            let boxed = Box::new(alloc, job)?;
            return Ok(BoxedScript {
                form: Form::Long(boxed),
            });
        }
        // A poll tells its time and its answer, and this job has no other.
        let mut job = job;
        let step = job.poll(&mut Recorder::new());
        let (Step::Done(answer), Some(told)) = (step, job.told()) else {
            unreachable!()
        };
        Ok(BoxedScript {
            form: Form::Short(told, answer),
        })
    }
}

impl Task for BoxedScript {
    ghost use Rattle.base_jobs.specs.ScriptMeaning.{script_meaning, script_laws};

    type Out = u64;

    type Local = ();

    ghost meaning = { script_meaning };

    ghost laws = { script_laws };

    fn is_done(&self) -> bool {
        match &self.form {
            Form::Short(_, _) => false,
            Form::Polled(_, _) => true,
            Form::Long(job) => job.is_done(),
        }
    }

    fn told(&self) -> Option<u64> {
        match &self.form {
            Form::Short(_, _) => None,
            Form::Polled(told, _) => Some(*told),
            Form::Long(job) => job.told(),
        }
    }
}

impl Job for BoxedScript {
    fn poll<P: Post<Self, u64>>(&mut self, post: &mut P) -> Step<u64> {
        match &mut self.form {
            Form::Short(told, answer) => {
                let (told, answer) = (*told, *answer);
                self.form = Form::Polled(told, answer);
                Step::Done(answer)
            }
            Form::Polled(_, _) => unreachable!(),
            Form::Long(job) => poll_boxed(job, post),
        }
    }
}

/// One poll of a job in a box. What it submits is submitted here as a job that needs no box, since a poll takes no memory.
fn poll_boxed<P: Post<BoxedScript, u64>>(job: &mut ScriptJob, post: &mut P) -> Step<u64>
    requires open { script_meaning.done job.old ≡ false }
    ensures owed { OwesAt script_meaning P.Does job.old post.old post.new result (script_meaning.says job.new) }
    ensures answers { IfDone result (script_meaning.answers job.old) }
    ensures same { IfUndone result (script_meaning.same job.old job.new) }
    ensures later { IfUndone result (OwesOn script_meaning job.old job.new) }
    ensures done { script_meaning.done job.new ≡ is_done_step result }
{
    let mut recorder = Recorder::new();
    let step = job.poll(&mut recorder);
    send_to(recorder.place, post);
    step
}

/// Submits the job `d1=0` to this place, if there is one, and detaches it if it is accepted.
fn send_to<P: Post<BoxedScript, u64>>(place: Option<(CoreNo, QueueNo)>, post: &mut P)
    ensures { SendsTo P.Does place post.old post.new }
{
    let Some(place) = place else {
        return;
    };
    let (core, queue) = place;
    let small = BoxedScript {
        form: Form::Short(1, 0),
    };
    if let Ok(ticket) = post.submit(core, Order::Job(queue, small)) {
        let _detached = post.detach(ticket);
    }
}

/// A post that keeps the place to which a poll submits a job, and refuses the job.
///
/// A contract sees that place.
#[derive(Drop)]
struct Recorder {
    place: Option<(CoreNo, QueueNo)>,
    local: (),
}

impl Model for Recorder {
    ghost use Rattle.std.specs.Prelude.{ℕ, Option};

    ghost Value = { Option (ℕ × ℕ) };

    ghost view = { λ recorder. recorder.place };
}

impl Recorder {
    fn new() -> Recorder
        ensures { result ≡ None }
    {
        Recorder {
            place: None,
            local: (),
        }
    }
}

impl Post<ScriptJob, u64> for Recorder {
    ghost use Rattle.std.specs.Prelude.{◌≡◌, ℕ, [], Err};
    ghost use Rattle.base_words.specs.declared.order.SendError.TheVariants.{NoCore};
    ghost use Rattle.base_jobs.specs.Calls.Call.{Submit};
    ghost use Rattle.base_jobs.specs.Posts.{NotesSubmit};
    ghost use Rattle.base_jobs.specs.Ready.{HasReadyJob};
    ghost use Rattle.base_jobs.specs.ScriptMeaning.{script_meaning};
    ghost use Rattle.fairexec_run.specs.BoxedScripts.{Records};

    ghost notes = { λ _. [] };

    ghost Waits = { λ _ _. ⊥ };

    ghost Does = { Records };

    fn submit(
        &mut self,
        to: CoreNo,
        order: Order<ScriptJob>,
    ) -> Result<Ticket, SendError<ScriptJob>>
        requires { HasReadyJob script_meaning order }
        ensures no_core { result ≡ Err (NoCore order) }
        ensures noted { NotesSubmit {T = ℕ} [] to order result [] }
        ensures does { Records self.old (Submit to order result) self.new }
    {
        if let Order::Job(queue, _) = &order {
            self.place = Some((to, *queue));
        }
        Err(SendError::NoCore(order))
    }

    fn redeem(&mut self, _ticket: Ticket) -> Result<Outcome<ScriptJob, u64>, TicketError> {
        Err(TicketError::Unknown)
    }

    fn detach(&mut self, _ticket: Ticket) -> Result<(), TicketError> {
        Err(TicketError::Unknown)
    }

    fn local(&mut self) -> &mut () {
        &mut self.local
    }
}
