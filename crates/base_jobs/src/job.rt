//! A job, and a job after one poll.

ghost use Rattle.std.specs.Prelude.{◌≡◌, ℕ, IfSome, None, Option, Some, false};
ghost use Rattle.base_jobs.specs.Meanings.{Meaning, IsMeaning};
ghost use Rattle.base_jobs.specs.Steps.{IfDone, IfUndone, OwesAt, OwesOn, OwesOnce, is_done_step};

use crate::post::Post;
use crate::state::CoreState;
use std::marker::Model;
use std::snapshot::Snapshot;

/// What a poll came to.
#[derive(Clone, Copy, PartialEq, Eq, Debug, Drop)]
pub enum Step<T> {
    /// The job is done, with its answer.
    Done(T),
    /// The job wants another poll.
    Yield,
    /// The job wants another poll once it is woken.
    Park,
}

/// What a job is asked to do. A type that keeps facts of jobs has this bound, and a function that polls has the bound `Job`.
pub trait Task: Drop {
    /// What it answers.
    type Out: Drop;

    /// What the jobs of one core share: `()` for jobs that share nothing.
    type Local: CoreState;

    /// What the job means: its task, whether it has answered, what a poll needs and owes, and which answers the task may have.
    ghost meaning: { Meaning Self Self.Out };

    /// For how long it sleeps where its last poll parked it, if it does.
    ghost sleeps: { Self → Option ℕ } = { λ _. None };

    /// Whether it has answered, and must not be polled again.
    fn is_done(&self) -> bool
        ensures { result ≡ meaning.done self.now };

    /// The nanoseconds that its last poll states of itself. When it states none, whoever polls tells the time.
    fn told(&self) -> Option<u64>
        ensures { result ≡ meaning.says self.now };

    /// For how long it sleeps, in nanoseconds, if its last poll parked it: its worker wakes it that long after the poll or a little later,
    /// unless a wake comes first. When it states none, it is parked until a wake comes.
    fn sleeps(&self) -> Option<u64>
        ensures { IfSome result (λ time. sleeps self.now ≡ Some time) }
    {
        None
    }

    // To have the same task is an equivalence; jobs of one task have the same answers, owe the same polls, and can be polled alike.
    ghost laws: { IsMeaning meaning };
}

/// Work that is done in polls.
pub trait Job: Task {
    /// One poll, which may submit orders at its post. Its number is `made`; later polls owe what they owed.
    fn poll<P: Post<Self, Self::Out>>(&mut self, post: &mut P) -> Step<Self::Out>
        requires open { Self.meaning.done self.old ≡ false }
        requires ready { Self.meaning.can_poll self.old }
        ensures owed { OwesAt Self.meaning P.Does self.old post.old post.new result (Self.meaning.says self.new) }
        ensures answers { IfDone result (Self.meaning.answers self.old) }
        ensures same { IfUndone result (Self.meaning.same self.old self.new) }
        ensures later { IfUndone result (OwesOn Self.meaning self.old self.new) }
        ensures done { Self.meaning.done self.new ≡ is_done_step result }
        ensures ready { IfUndone result (Self.meaning.can_poll self.new) };
}

/// A job after one poll. It keeps the job as it was before, and what the poll owes.
#[derive(Drop)]
pub struct Ran<J: Task> {
    job: J,
    step: Step<J::Out>,
    told: Option<u64>,
    before: Snapshot<J>,
}

impl<J: Task> Model for Ran<J> {
    ghost use Rattle.std.specs.Prelude.{◌≡◌};
    ghost use Rattle.base_jobs.specs.Steps.{AfterPoll, IfDone, IfUndone, OwesOn, OwesOnce, is_done_step};

    ghost Value = { AfterPoll J J.Out };

    ghost view = { λ r. record { job = r.job; step = r.step; told = r.told; before = r.before.value } };

    ghost invariant = { λ r.
        OwesOnce J.meaning r.before.value r.step r.told
        × IfDone r.step (J.meaning.answers r.before.value)
        × IfUndone r.step (J.meaning.same r.before.value r.job)
        × IfUndone r.step (OwesOn J.meaning r.before.value r.job)
        × IfUndone r.step (J.meaning.can_poll r.job)
        × (J.meaning.done r.job ≡ is_done_step r.step) };
}

impl<J: Job> Ran<J> {
    /// Polls the job once, with this post. No other call makes a `Ran`.
    pub fn poll<P: Post<J, J::Out>>(job: J, post: &mut P) -> Ran<J>
        requires open { J.meaning.done job ≡ false }
        requires ready { J.meaning.can_poll job }
        ensures before { result.before ≡ job }
        ensures owed { OwesAt J.meaning P.Does job post.old post.new result.step result.told }
        ensures answers { IfDone result.step (J.meaning.answers job) }
        ensures same { IfUndone result.step (J.meaning.same job result.job) }
        ensures later { IfUndone result.step (OwesOn J.meaning job result.job) }
    {
        let before = Snapshot::of(&job);
        let mut job = job;
        let step = job.poll(post);
        let told = job.told();
        Ran {
            job,
            step,
            told,
            before,
        }
    }
}

impl<J: Task> Ran<J> {
    /// The job, its step and its told time.
    pub fn into_parts(self) -> (J, Step<J::Out>, Option<u64>)
        ensures job { result.0 ≡ self.job }
        ensures step { result.1 ≡ self.step }
        ensures told { result.2 ≡ self.told }
        ensures owed { OwesOnce J.meaning self.before result.1 result.2 }
        ensures answers { IfDone result.1 (J.meaning.answers self.before) }
        ensures same { IfUndone result.1 (J.meaning.same self.before result.0) }
        ensures later { IfUndone result.1 (OwesOn J.meaning self.before result.0) }
        ensures ready { IfUndone result.1 (J.meaning.can_poll result.0) }
        ensures done { J.meaning.done result.0 ≡ is_done_step result.1 }
    {
        let Ran {
            job,
            step,
            told,
            before: _,
        } = self;
        (job, step, told)
    }
}
