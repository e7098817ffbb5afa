//! The threads of a house, with its queues by name.

ghost use Rattle.std.specs.Prelude.{◌≡◌, IfErr, IfOk, length};
ghost use Rattle.base_words.specs.declared.order.Order.TheVariants.{Job};
ghost use Rattle.base_jobs.specs.Ready.{HasReadyJob};
ghost use Rattle.link_ends.specs.Fits.{Fits};
ghost use Rattle.run_runtime.specs.Calls.{Finishes};
ghost use Rattle.run_runtime.specs.Sends.{SubmitsTo};
ghost use Rattle.run_runtime.specs.Waiting.{RedeemsAtLast};
ghost use Rattle.run_runtime.specs.WithLocals.{without_locals};
ghost use Rattle.run_runtime.specs.WithSinks.{FinishesWithSinks};
ghost use Rattle.duthlwyran.specs.Finishes.{by_back, by_error, ClosesAndFinishes, ClosesAt, ClosesBelow, not_closed};
ghost use Rattle.duthlwyran.specs.Waits.{outcome_of};

use crate::error::{NotFinished, NotSubmitted, WaitError};
use crate::names::{Queue, QueueNames};
use base_jobs::{Job, Task};
use base_words::{CoreNo, Mode, Order, Outcome, Ticket};
use note_journal::{Assembly, Sink, Whole};
use run_config::{Clock, Gate, NoGate};
use run_runtime::{FinishError, Passed, Runtime};
use std::sync::Wait;
use std::thread::Threads;

/// The running threads of a house: how many cores it has, their runtime, whose calls a caller may make too, and the names of their queues.
pub struct Node<J: Task<Out = u64>, C: Drop, G: Drop = NoGate, S: Sink = Whole> {
    pub cores: u8,
    pub runtime: Runtime<J, C, G, S>,
    pub names: QueueNames,
}

// By hand: a derived `drop` is proved again in each crate above.
impl<J: Task<Out = u64>, C: Drop, G: Drop, S: Sink> Drop for Node<J, C, G, S> {
    fn drop(self) {
        let Node {
            cores: _,
            runtime: _,
            names: _,
        } = self;
    }
}

impl<J: Task<Out = u64>, C: Drop, G: Drop, S: Sink> Node<J, C, G, S> {
    /// Submits a job to a queue.
    ///
    /// # Errors
    ///
    /// As `Runtime::submit`. The job comes back, in its order.
    #[inline(always)]
    pub fn submit(&mut self, to: Queue, job: J) -> Result<Ticket, NotSubmitted<J>>
        requires ready { HasReadyJob J.meaning (Job to.queue job) }
        ensures submits { SubmitsTo 3 to.core (Job to.queue job) self.old.runtime result self.new.runtime }
        ensures cores { self.new.cores ≡ self.old.cores }
        ensures names { self.new.names ≡ self.old.names }
    {
        match self.runtime.submit(to.core, Order::Job(to.queue, job)) {
            Ok(ticket) => Ok(ticket),
            Err(error) => Err(NotSubmitted { error }),
        }
    }

    /// Waits until a job is done, and returns its number.
    ///
    /// # Errors
    ///
    /// `Returned` where the job came back unrun or undone; `Answered` where the order was a command; `Refused` as `Runtime::wait`.
    pub fn wait<R: Wait>(&mut self, rt: &R, ticket: Ticket) -> Result<u64, NotFinished<J>>
        ensures waits { RedeemsAtLast (Fits J.meaning) ticket self.old.runtime (outcome_of result) self.new.runtime }
        ensures cores { self.new.cores ≡ self.old.cores }
        ensures names { self.new.names ≡ self.old.names }
    {
        let error = match self.runtime.wait(rt, ticket) {
            Ok(Outcome::Finished(number)) => return Ok(number),
            Ok(Outcome::Returned(reason, order)) => WaitError::Returned(reason, order),
            Ok(Outcome::Answered(answer)) => WaitError::Answered(answer),
            Err(error) => WaitError::Refused(error),
        };
        Err(NotFinished { error })
    }

    /// How many cores it has, their runtime, and the names of their queues.
    pub(crate) fn into_parts(self) -> (u8, Runtime<J, C, G, S>, QueueNames)
        ensures { (result.0 ≡ self.cores) × (result.1 ≡ self.runtime) × (result.2 ≡ self.names) }
    {
        let Node {
            cores,
            runtime,
            names,
        } = self;
        (cores, runtime, names)
    }
}

/// Closes a core, if it lets itself be closed.
fn close_at<J: Task<Out = u64>, C: Drop, G: Drop, S: Sink>(
    runtime: &mut Runtime<J, C, G, S>,
    core: u8,
    mode: Mode,
)
    ensures { ClosesAt mode core runtime.old runtime.new }
{
    let _answer = runtime.close_core(CoreNo(core), mode);
}

/// Closes each core.
fn close_all<J: Task<Out = u64>, C: Drop, G: Drop, S: Sink>(
    runtime: &mut Runtime<J, C, G, S>,
    cores: u8,
    mode: Mode,
)
    ensures { ClosesBelow mode cores runtime.old runtime.new }
{
    for core in 0..cores {
        close_at(runtime, core, mode);
    }
}

/// A refused finish, with all that the node had.
fn come_back<J: Task<Out = u64>, C: Drop, G: Drop, S: Sink>(
    error: FinishError<Runtime<J, C, G, S>>,
    cores: u8,
    names: QueueNames,
) -> FinishError<Node<J, C, G, S>>
    ensures same { by_error (λ node. node.runtime) result ≡ error }
    ensures cores { (not_closed result).cores ≡ cores }
    ensures names { (not_closed result).names ≡ names }
{
    match error {
        FinishError::NotClosed(core, runtime) => FinishError::NotClosed(
            core,
            Node {
                cores,
                runtime,
                names,
            },
        ),
    }
}

impl<J: Job + Task<Out = u64>, C: Clock + Drop, G: Gate + Drop> Node<J, C, G> {
    /// Closes each core in this mode, waits until all have ended, and puts the journals together. What the jobs of each core shared comes back
    /// beside them, by the core's number.
    ///
    /// In mode `Finish` it waits for parked jobs too, also for those that nobody wakes.
    ///
    /// # Errors
    ///
    /// `NotClosed` for the first core that refused to close, as its `close_core` tells. The node comes back.
    pub fn finish<R: Threads + Wait>(
        self,
        rt: &R,
        mode: Mode,
    ) -> Result<(Assembly, Vec<J::Local>), FinishError<Self>>
        ensures finishes { ClosesAndFinishes (λ closed. Finishes J.meaning closed (without_locals (by_back (λ node. node.runtime) result))
            × IfOk result (λ both. length both.1.items ≡ closed.desk.cores)) mode self.cores self.runtime }
        ensures cores { IfErr result (λ error. (not_closed error).cores ≡ self.cores) }
        ensures names { IfErr result (λ error. (not_closed error).names ≡ self.names) }
    {
        let Node {
            cores,
            mut runtime,
            names,
        } = self;
        close_all(&mut runtime, cores, mode);
        match runtime.finish_with_locals(rt) {
            Ok(both) => Ok(both),
            Err(error) => Err(come_back(error, cores, names)),
        }
    }
}

impl<J: Job + Task<Out = u64>, C: Clock + Drop, G: Gate + Drop, S: Sink> Node<J, C, G, S> {
    /// The same where notes were passed on: the notes of each actor come back, its sink and what that refused.
    ///
    /// # Errors
    ///
    /// As `finish`.
    pub fn finish_with_sinks<R: Threads + Wait>(
        self,
        rt: &R,
        mode: Mode,
    ) -> Result<(Passed<S>, Vec<J::Local>), FinishError<Self>>
        ensures finishes { ClosesAndFinishes (λ closed. FinishesWithSinks J.meaning S.has S.refused S.asks S.mark closed (without_locals (by_back (λ node. node.runtime) result))
            × IfOk result (λ both. length both.1.items ≡ closed.desk.cores)) mode self.cores self.runtime }
        ensures cores { IfErr result (λ error. (not_closed error).cores ≡ self.cores) }
        ensures names { IfErr result (λ error. (not_closed error).names ≡ self.names) }
    {
        let Node {
            cores,
            mut runtime,
            names,
        } = self;
        close_all(&mut runtime, cores, mode);
        match runtime.finish_with_sinks_and_locals(rt) {
            Ok(both) => Ok(both),
            Err(error) => Err(come_back(error, cores, names)),
        }
    }
}
