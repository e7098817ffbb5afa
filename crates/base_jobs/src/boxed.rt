//! Jobs that hold what a program put in, whose answers are known by a key.
//!
//! A type that keeps facts of jobs can be named at boxes only where the impl of `Task` asks nothing of them but that they can be dropped.
//! So a boxed job keeps a key beside its box, plain data that says which numbers may answer it, and each box compares that key with its own.

ghost use Rattle.std.specs.Prelude.{◌≡◌, ℕ, false, IfOk, IfErr, Some};
ghost use Rattle.base_jobs.specs.Bodies.{IsStepOf, is_ended};
ghost use Rattle.base_jobs.specs.Steps.{IfDone, IfUndone, is_done_step};
ghost use Rattle.base_jobs.specs.declared.boxed.Body.TheVariants.{Polled, Once};
ghost use Rattle.base_jobs.specs.declared.job.Step.{Step};

use crate::job::{Job, Step, Task};
use crate::post::Post;

/// Which numbers may answer a job that has a key.
pub trait KeyAnswers {
    /// What a job's answers are known by.
    type Key: Drop;

    /// Which numbers may answer a job that has this key.
    ghost answers: { Self.Key → ℕ → Type 0 };
}

/// Work in polls, whose answers have the meaning `M` under the key that it is polled with.
pub trait PolledAs<M: KeyAnswers>: Drop {
    /// The steps that its next poll may come to under that key.
    ghost steps: { Self → M.Key → Step ℕ → Type 0 };

    /// One poll. It yields, and does nothing, where that isn't its key or it has answered.
    fn poll_as(&mut self, key: &M::Key) -> Step<u64>
        ensures answers { IfDone result (M.answers key.now) }
        ensures steps { steps self.old key.now result };
}

/// A call that is made once, whose answer has the meaning `M` under the key that it is called with.
pub trait CalledAs<M: KeyAnswers>: Drop {
    /// Whether it is a call for that key.
    ghost IsFor: { Self → M.Key → Type 0 };

    /// The numbers that the call may give.
    ghost gives: { Self → ℕ → Type 0 };

    /// Makes the call, or gives it back where it isn't for that key.
    fn call_as(self, key: &M::Key) -> Result<u64, Self>
        ensures answers { IfOk result (M.answers key.now) }
        ensures gives { IfOk result (gives self) }
        ensures made { IfOk result (λ _. IsFor self key.now) }
        ensures same { IfErr result (λ back. back ≡ self) }
        ensures refused { IfErr result (λ _. ¬ IsFor self key.now) };
}

/// What a boxed job does. None where it is done: the box is dropped at once.
#[derive(Drop)]
pub enum Body<B, C> {
    /// Work in polls.
    Polled(Option<B>),
    /// A call that is made at the first poll.
    Once(Option<C>),
}

/// A job that holds work in polls or a call, with the key that says what may answer it. It tells no time of its own.
pub struct BoxedJob<B, C, M: KeyAnswers> {
    key: M::Key,
    body: Body<B, C>,
}

impl<B: Drop, C: Drop, M: KeyAnswers> Drop for BoxedJob<B, C, M> {
    fn drop(self) {
        let BoxedJob { key, body } = self;
        drop(key);
        drop(body);
    }
}

impl<B, C, M: KeyAnswers> BoxedJob<B, C, M> {
    /// A job that polls the body. When the key isn't the body's own, it yields for ever.
    pub fn polled(key: M::Key, body: B) -> Self
        ensures key { result.key ≡ key }
        ensures body { result.body ≡ Polled (Some body) }
    {
        BoxedJob {
            key,
            body: Body::Polled(Some(body)),
        }
    }

    /// A job that makes the call at its first poll. When the key isn't the call's own, it yields for ever.
    pub fn once(key: M::Key, call: C) -> Self
        ensures key { result.key ≡ key }
        ensures body { result.body ≡ Once (Some call) }
    {
        BoxedJob {
            key,
            body: Body::Once(Some(call)),
        }
    }
}

impl<B: Drop, C: Drop, M: KeyAnswers> Task for BoxedJob<B, C, M> {
    ghost use Rattle.std.specs.Prelude.{◌≡◌, ℕ, None};
    ghost use Rattle.base_jobs.specs.Bodies.{is_ended};
    ghost use Rattle.base_jobs.specs.Steps.{PostsNothing};
    ghost use Rattle.base_jobs.specs.Same.{same_value};
    ghost use Rattle.std.proofs.Common.{subst};

    type Out = u64;

    type Local = ();

    ghost meaning = { record {
      same = λ a b. a.key ≡ b.key;
      done = λ job. is_ended job.body;
      can_poll = λ _. Unit {0};
      made = λ _. 0;
      says = λ _. None;
      polls = λ job made calls step told. PostsNothing calls told;
      answers = λ job out. M.answers job.key out;
    } };

    ghost laws = { record {
      same_task = same_value (λ job. job.key);
      answers_same = λ a b out same here. subst (λ key. M.answers key out) same here;
      polls_same = λ a b made calls step told same owed. owed;
      can_poll_same = λ a b same can. can;
    } };

    fn is_done(&self) -> bool {
        match &self.body {
            Body::Polled(job) => job.is_none(),
            Body::Once(call) => call.is_none(),
        }
    }

    fn told(&self) -> Option<u64> {
        None
    }
}

impl<B: PolledAs<M>, C: CalledAs<M>, M: KeyAnswers> Job for BoxedJob<B, C, M> {
    fn poll<P: Post<Self, u64>>(&mut self, _post: &mut P) -> Step<u64>
        requires { is_ended self.old.body ≡ false }
        ensures own { IsStepOf B.steps C.IsFor C.gives self.old.key self.old.body result }
        ensures answers { IfDone result (M.answers self.old.key) }
        ensures same { IfUndone result (self.old.key ≡ self.new.key) }
        ensures done { is_ended self.new.body ≡ is_done_step result }
        ensures posts { _post.new ≡ _post.old }
    {
        match &mut self.body {
            Body::Polled(job) => {
                let Some(inside) = job else {
                    return Step::Yield;
                };
                let step = inside.poll_as(&self.key);
                if let Step::Done(_) = &step {
                    *job = None;
                }
                step
            }
            Body::Once(call) => match call.take() {
                Some(inside) => match inside.call_as(&self.key) {
                    Ok(out) => Step::Done(out),
                    Err(back) => {
                        *call = Some(back);
                        Step::Yield
                    }
                },
                None => Step::Yield,
            },
        }
    }
}
