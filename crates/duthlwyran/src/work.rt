//! Work that needs no words for the prover: one function, and what it answers is a number.

ghost use Rattle.std.specs.Prelude.{◌≡◌, false};
ghost use Rattle.base_jobs.specs.Plain.{plain_laws, plain_meaning};

use base_jobs::{Job, Post, Step, Task};

/// Work in steps. It submits nothing itself, and shares nothing with other jobs of its core.
///
/// A job that submits, that shares a state of its core, or whose answers are known to a contract is a type of your own, with `Task`
/// and `Job`.
pub trait Work: Drop {
    /// One step, which takes the core until it returns.
    fn step(&mut self) -> Step<u64>;

    /// For how many nanoseconds it sleeps, if its last step parked it. None: until somebody wakes it.
    fn sleeps(&self) -> Option<u64> {
        None
    }
}

/// A job that does such work, a step in each poll. A contract knows whether it has answered, and nothing else.
#[derive(Drop)]
pub struct Plain<W> {
    work: W,
    ended: bool,
    /// What the work said behind its last step.
    sleeps: Option<u64>,
}

impl<W: Work> Plain<W> {
    /// A job that has still to do this work.
    pub fn new(work: W) -> Self
        ensures open { result.ended ≡ false }
    {
        Plain {
            work,
            ended: false,
            sleeps: None,
        }
    }
}

impl<W: Work> Task for Plain<W> {
    type Out = u64;

    type Local = ();

    ghost meaning = { plain_meaning (λ job. job.ended) };

    ghost laws = { plain_laws (λ job. job.ended) };

    ghost sleeps = { λ job. job.sleeps };

    fn is_done(&self) -> bool {
        self.ended
    }

    fn told(&self) -> Option<u64> {
        None
    }

    fn sleeps(&self) -> Option<u64> {
        self.sleeps
    }
}

impl<W: Work> Job for Plain<W> {
    fn poll<P: Post<Self, u64>>(&mut self, _post: &mut P) -> Step<u64> {
        let step = self.work.step();
        self.ended = matches!(step, Step::Done(_));
        self.sleeps = self.work.sleeps();
        step
    }
}
