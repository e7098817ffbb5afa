//! Closures and functions that are called at the first poll.

ghost use Rattle.std.specs.Prelude.{◌≡◌, Some};

use crate::job::{Job, Step, Task};
use crate::post::Post;

/// A job that makes its call at its first poll, and is done. It tells no time of its own.
///
/// It is for functions that are generic over the job, as `Ran::poll`: a test or a program polls a closure there without a box.
/// If a type is to be named at it, as a link of such jobs, take `OnceOf`, or `AnyJob` with `OnceBox`.
#[derive(Drop)]
pub struct Once<F> {
    call: Option<F>,
}

impl<F> Once<F> {
    /// A job that makes this call.
    pub fn new(call: F) -> Once<F>
        ensures { result.call ≡ Some call }
    {
        Once { call: Some(call) }
    }
}

impl<R: Drop, F: FnOnce() -> R + Drop> Task for Once<F> {
    ghost use Rattle.std.specs.Prelude.{◌≡◌, ℕ, None, is_none, IfSome};
    ghost use Rattle.std.specs.Option.{ForSome};
    ghost use Rattle.base_jobs.specs.Steps.{AnswersAtOnce};
    ghost use Rattle.base_jobs.specs.Same.{same_value};
    ghost use Rattle.std.proofs.Common.{subst};

    type Out = R;

    type Local = ();

    ghost meaning = { record {
      same = λ a b. a.call ≡ b.call;
      done = λ job. is_none job.call;
      can_poll = λ job. ForSome job.call F.IsAlwaysCallable;
      made = λ _. 0;
      says = λ _. None;
      polls = λ job made calls step told. AnswersAtOnce calls step told;
      answers = λ job out. IfSome job.call (λ f. F.post f out);
    } };

    ghost laws = { record {
      same_task = same_value (λ job. job.call);
      answers_same = λ a b out same here. subst (λ call. IfSome call (λ f. F.post f out)) same here;
      polls_same = λ a b made calls step told same owed. owed;
      can_poll_same = λ a b same can. subst (λ call. ForSome call F.IsAlwaysCallable) same can;
    } };

    fn is_done(&self) -> bool {
        self.call.is_none()
    }

    fn told(&self) -> Option<u64> {
        None
    }
}

impl<R: Drop, F: FnOnce() -> R + Drop> Job for Once<F> {
    fn poll<P: Post<Self, R>>(&mut self, _post: &mut P) -> Step<R> {
        match self.call.take() {
            Some(call) => Step::Done(call()),
            None => Step::Yield,
        }
    }
}
