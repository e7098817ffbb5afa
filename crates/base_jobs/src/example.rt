//! An example of a program's own jobs: three kinds of work in one type.
//!
//! Where a program knows its kinds of work, such an enum is the best job to use: it needs no box, its answers are exact,
//! and every type that keeps facts of jobs can be named at it.

ghost use Rattle.std.specs.Prelude.{◌≡◌, false, IfOk, IfErr};

use crate::job::{Job, Ran, Step, Task};
use crate::post::{NoPost, Post};

/// The work of a program.
#[derive(Debug, Drop)]
pub enum Work {
    /// Adds two numbers, in one poll.
    Sum { left: u32, right: u32 },
    /// Finds the greatest common divisor of two numbers, with one division a poll.
    Divisor { left: u64, right: u64 },
    /// Yields so many times, and then answers the number.
    Later { yields: u32, number: u64 },
    /// It has answered.
    Ended,
}

impl Task for Work {
    ghost use Rattle.base_jobs.specs.Example.{MayAnswer, is_ended};
    ghost use Rattle.base_jobs.specs.Plain.{answering_meaning, answering_laws};

    type Out = u64;

    type Local = ();

    ghost meaning = { answering_meaning is_ended MayAnswer };

    ghost laws = { answering_laws is_ended MayAnswer };

    fn is_done(&self) -> bool {
        matches!(self, Work::Ended)
    }

    fn told(&self) -> Option<u64> {
        None
    }
}

impl Job for Work {
    fn poll<P: Post<Self, u64>>(&mut self, _post: &mut P) -> Step<u64> {
        let answer = match self {
            Work::Sum { left, right } => *left as u64 + *right as u64,
            Work::Divisor { left, right } => {
                if *right != 0 {
                    let rest = *left % *right;
                    *left = *right;
                    *right = rest;
                    return Step::Yield;
                }
                *left
            }
            Work::Later { yields, number } => {
                if *yields > 0 {
                    *yields -= 1;
                    return Step::Yield;
                }
                *number
            }
            Work::Ended => return Step::Yield,
        };
        *self = Work::Ended;
        Step::Done(answer)
    }
}

/// Polls a job until it is done, at most so often, where it can submit nothing. If it isn't done by then, it comes back and can be polled on.
pub fn drive<J: Job<Local = ()>>(job: J, most: u32) -> Result<J::Out, J>
    requires open { J.meaning.done job ≡ false }
    requires ready { J.meaning.can_poll job }
    ensures answers { IfOk result (J.meaning.answers job) }
    ensures same { IfErr result (J.meaning.same job) }
    ensures open { IfErr result (λ back. J.meaning.done back ≡ false) }
    ensures ready { IfErr result J.meaning.can_poll }
{
    let mut job = job;
    for _polled in 0..most {
        let (back, step, _told) = Ran::poll(job, &mut NoPost).into_parts();
        match step {
            Step::Done(out) => return Ok(out),
            Step::Yield | Step::Park => job = back,
        }
    }
    Err(job)
}
