//! Boxed jobs whose answers lie in a range, which each box tells.

ghost use Rattle.std.specs.Prelude.{◌≡◌, ℕ, ◌<◌, ◌^◌, ◌||◌, Bool, false, Some};
ghost use Rattle.base_jobs.specs.Steps.{IfDone, is_done_step};
ghost use Rattle.base_jobs.specs.declared.boxed.Body.TheVariants.{Polled, Once};
ghost use Rattle.base_jobs.specs.declared.any.Range.{Range};
ghost use Rattle.base_jobs.specs.declared.job.Step.{Step};
ghost use Rattle.base_jobs.specs.declared.job.Step.TheVariants.{Done};
ghost use Rattle.base_jobs.specs.Ranges.{IsWithin, any_number};

use crate::boxed::{BoxedJob, CalledAs, KeyAnswers, PolledAs};
use crate::job::Step;

/// The numbers from the least to the greatest, both counted in. One number is a range of itself.
#[derive(Clone, Copy, PartialEq, Eq, Debug)]
pub struct Range {
    pub least: u64,
    pub greatest: u64,
}

/// The answer is within the range that is the key.
#[derive(Drop)]
pub struct Within;

impl KeyAnswers for Within {
    type Key = Range;

    ghost answers = { IsWithin };
}

/// Work in polls for a box. It submits nothing while it is polled.
pub trait Polled: Drop {
    /// The numbers that it may answer.
    ghost range: { Self → Range };

    /// Whether it has answered.
    ghost ended: { Self → Bool };

    /// The steps that its next poll may come to. A box that doesn't say may come to any.
    ghost steps: { Self → Step ℕ → Type 0 } = { λ _ _. Unit {0} };

    /// One poll.
    fn poll(&mut self) -> Step<u64>
        requires { ended self.old ≡ false }
        ensures steps { steps self.old result }
        ensures answers { IfDone result (IsWithin (range self.old)) }
        ensures same { range self.new ≡ range self.old }
        ensures done { ended self.new ≡ is_done_step result };

    /// Whether it has answered, and must not be polled again.
    fn is_done(&self) -> bool
        ensures { result ≡ ended self.now };

    /// The numbers that it may answer. Two words are compared with it at each poll, so it should cost little.
    fn range(&self) -> Range
        ensures { result ≡ range self.now };
}

impl PolledAs<Within> for Box<dyn Polled + Send> {
    // What a box has in itself can't be named here: the clauses of its poll say it.
    ghost steps = { λ job key step. Unit {0} };

    fn poll_as(&mut self, key: &Range) -> Step<u64>
        ensures answers { IfDone result (IsWithin key.now) }
        ensures open { IfDone result (λ _. ended self.old ≡ false) }
        ensures meant { IfDone result (λ _. range self.old ≡ key.now) }
        ensures own { IfDone result (λ out. steps self.old (Done out)) }
        ensures asked { range self.old ≡ key.now → ended self.old ≡ false → steps self.old result }
        ensures ended { ended self.new ≡ (ended self.old || is_done_step result) }
        ensures same { range self.new ≡ range self.old }
    {
        if (**self).is_done() || (**self).range() != *key {
            return Step::Yield;
        }
        (**self).poll()
    }
}

/// A call with no arguments, made once.
type Call = Box<dyn FnOnce() -> u64 + Send>;

/// A boxed call that may be made, and gives a number within its range.
#[derive(Drop)]
pub struct OnceBox {
    range: Range,
    call: Call,
    ghost callable: { Call.IsAlwaysCallable call },
    ghost within: { (out : ℕ) → Call.post call out → out < 2 ^ 64 → IsWithin range out },
}

impl OnceBox {
    /// A call that may give any number.
    pub fn new(call: Box<dyn FnOnce() -> u64 + Send>) -> OnceBox
        requires { IsAlwaysCallable call }
        ensures call { result.call ≡ call }
        ensures range { result.range ≡ any_number }
    {
        let range = Range {
            least: 0,
            greatest: u64::MAX,
        };
        OnceBox::within(range, call)
    }

    /// A call that gives a number within the range.
    pub fn within(range: Range, call: Box<dyn FnOnce() -> u64 + Send>) -> OnceBox
        requires callable { IsAlwaysCallable call }
        requires within { (out : ℕ) → post call out → out < 2 ^ 64 → IsWithin range out }
        ensures call { result.call ≡ call }
        ensures range { result.range ≡ range }
    {
        OnceBox { range, call }
    }

    /// Makes the call.
    pub fn run(self) -> u64
        ensures post { Call.post self.call result }
        ensures within { IsWithin self.range result }
    {
        let OnceBox { range: _, call } = self;
        call()
    }
}

impl CalledAs<Within> for OnceBox {
    ghost use Rattle.std.specs.Prelude.{◌≡◌};

    ghost IsFor = { λ call key. call.range ≡ key };

    ghost gives = { λ once out. Call.post once.call out };

    fn call_as(self, key: &Range) -> Result<u64, Self> {
        if self.range == *key {
            Ok(self.run())
        } else {
            Err(self)
        }
    }
}

/// A boxed job, whose key is the range of the numbers that its box may answer.
pub type AnyJob = BoxedJob<Box<dyn Polled + Send>, OnceBox, Within>;

/// A job that polls the box, until the box is done. It is for work in polls whose type the program doesn't know, as a plug-in's.
///
/// If the kinds of work are known, an enum of them needs no box and has exact answers.
pub fn polled_job(job: Box<dyn Polled + Send>) -> AnyJob
    requires { ended job ≡ false }
    ensures key { result.key ≡ range job }
    ensures body { result.body ≡ Polled (Some job) }
{
    let key = job.range();
    BoxedJob::polled(key, job)
}

/// A job that makes the call at its first poll, and is done. It is for closures that stand in one core with boxes of work.
///
/// If a core has calls alone, and their type has a name, take `OnceOf`.
pub fn once_job(call: OnceBox) -> AnyJob
    ensures key { result.key ≡ call.range }
    ensures body { result.body ≡ Once (Some call) }
{
    let key = call.range;
    BoxedJob::once(key, call)
}
