//! Calls of a type with a name, made at the first poll.

ghost use Rattle.std.specs.Prelude.{◌≡◌, Some};

use crate::job::{Job, Step, Task};
use crate::post::Post;

/// A call of a type with a name, whose answers are known by what it is.
///
/// A closure has no name, so a type such as a core of jobs can't be named at `Once` of it. It can at `OnceOf` of a struct with this trait.
pub trait Called: Drop {
    /// What it answers.
    type Out: Drop;

    /// Which answers the call may give.
    ghost gives: { Self → Self.Out → Type 0 };

    /// Makes the call, which is its only one.
    fn call(self) -> Self::Out
        ensures { gives self result };
}

/// A job that makes its call at its first poll, and is done. It tells no time of its own.
///
/// It is for a core, a link or a desk of calls that take no box and are known by what they may answer.
#[derive(Drop)]
pub struct OnceOf<C> {
    call: Option<C>,
}

impl<C> OnceOf<C> {
    /// A job that makes this call.
    pub fn new(call: C) -> OnceOf<C>
        ensures { result.call ≡ Some call }
    {
        OnceOf { call: Some(call) }
    }
}

impl<C: Called> Task for OnceOf<C> {
    ghost use Rattle.std.specs.Prelude.{◌≡◌, ℕ, None, is_none, IfSome};
    ghost use Rattle.base_jobs.specs.Steps.{AnswersAtOnce};
    ghost use Rattle.base_jobs.specs.Same.{same_value};
    ghost use Rattle.std.proofs.Common.{subst};

    type Out = C::Out;

    type Local = ();

    ghost meaning = { record {
      same = λ a b. a.call ≡ b.call;
      done = λ job. is_none job.call;
      can_poll = λ _. Unit {0};
      made = λ _. 0;
      says = λ _. None;
      polls = λ job made calls step told. AnswersAtOnce calls step told;
      answers = λ job out. IfSome job.call (λ call. C.gives call out);
    } };

    ghost laws = { record {
      same_task = same_value (λ job. job.call);
      answers_same = λ a b out same here. subst (λ call. IfSome call (λ c. C.gives c out)) same here;
      polls_same = λ a b made calls step told same owed. owed;
      can_poll_same = λ a b same can. can;
    } };

    fn is_done(&self) -> bool {
        self.call.is_none()
    }

    fn told(&self) -> Option<u64> {
        None
    }
}

impl<C: Called> Job for OnceOf<C> {
    fn poll<P: Post<Self, C::Out>>(&mut self, _post: &mut P) -> Step<C::Out> {
        match self.call.take() {
            Some(call) => Step::Done(call.call()),
            None => Step::Yield,
        }
    }
}
