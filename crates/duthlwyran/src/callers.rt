//! A node whose calls several threads make, by handles, with its queues by name.

ghost use Rattle.std.specs.Prelude.{◌≡◌, ◌≢◌, ◌+◌, Err, IfErr, IfOk};
ghost use Rattle.std.specs.Result.{result_map_both};
ghost use Rattle.base_words.specs.declared.names.TicketError.TheVariants.{Pending, Unknown};
ghost use Rattle.base_words.specs.declared.order.Order.TheVariants.{Job};
ghost use Rattle.base_jobs.specs.Ready.{HasReadyJob};
ghost use Rattle.link_ends.specs.Fits.{Fits};
ghost use Rattle.run_runtime.specs.Callers.{CallsMake, IsAmongCalls};
ghost use Rattle.run_runtime.specs.Sends.{SubmitsTo};
ghost use Rattle.run_runtime.specs.Tickets.{RedeemsHere};
ghost use Rattle.duthlwyran.specs.Waits.{outcome_of};

use crate::error::{NotFinished, NotSubmitted, WaitError};
use crate::names::{Queue, QueueNames};
use crate::node::Node;
use base_jobs::Task;
use base_words::{Order, Outcome};
use note_journal::{Sink, Whole};
use run_config::NoGate;
use run_runtime::{CallerTicket, HandleOut, Runtime, RuntimeCallers, RuntimeHandle};
use std::alloc::{AllocError, Global};
use std::sync::Wait;

/// A node behind a lock, and the handles that were given on it.
pub struct NodeCallers<J: Task<Out = u64>, C: Drop, G: Drop = NoGate, S: Sink = Whole> {
    pub cores: u8,
    pub callers: RuntimeCallers<J, C, G, S>,
    pub names: QueueNames,
}

// By hand: a derived `drop` is proved again in each crate above.
impl<J: Task<Out = u64>, C: Drop, G: Drop, S: Sink> Drop for NodeCallers<J, C, G, S> {
    fn drop(self) {
        let NodeCallers {
            cores: _,
            callers: _,
            names: _,
        } = self;
    }
}

/// The calls of a node, from any thread. What isn't here is a call of `handle`.
pub struct NodeHandle<J: Task<Out = u64>, C: Drop, G: Drop = NoGate, S: Sink = Whole> {
    pub handle: RuntimeHandle<J, C, G, S>,
}

impl<J: Task<Out = u64>, C: Drop, G: Drop, S: Sink> Drop for NodeHandle<J, C, G, S> {
    fn drop(self) {
        let NodeHandle { handle: _ } = self;
    }
}

impl<J: Task<Out = u64>, C: Drop, G: Drop, S: Sink> Node<J, C, G, S> {
    /// Puts the node behind a lock, so that handles on any threads make its calls.
    ///
    /// # Errors
    ///
    /// If there is no memory. The node comes back.
    pub fn into_callers(self, alloc: Global) -> Result<NodeCallers<J, C, G, S>, Self>
        ensures ok { IfOk result (λ all. (all.callers.begun ≡ self.runtime) × (all.callers.given ≡ 0) × (all.cores ≡ self.cores) × (all.names ≡ self.names)) }
        ensures refused { IfErr result (λ back. (back.cores ≡ self.cores) × (back.runtime ≡ self.runtime) × (back.names ≡ self.names)) }
    {
        let (cores, runtime, names) = self.into_parts();
        match runtime.into_callers(alloc) {
            Ok(callers) => Ok(NodeCallers {
                cores,
                callers,
                names,
            }),
            Err(runtime) => Err(Node {
                cores,
                runtime,
                names,
            }),
        }
    }
}

impl<J: Task<Out = u64>, C: Drop, G: Drop, S: Sink> NodeCallers<J, C, G, S> {
    /// A handle, which may go to any thread.
    ///
    /// # Errors
    ///
    /// If there is no memory. Nothing was given then.
    pub fn handle(&mut self) -> Result<NodeHandle<J, C, G, S>, AllocError>
        ensures ok { IfOk result (λ one. (one.handle.begun ≡ self.old.callers.begun) × (one.handle.number ≡ self.old.callers.given) × (self.new.callers ≡ record self.old.callers { given = self.old.callers.given + 1 })) }
        ensures refused { IfErr result (λ _. self.new.callers ≡ self.old.callers) }
        ensures cores { self.new.cores ≡ self.old.cores }
        ensures names { self.new.names ≡ self.old.names }
    {
        let handle = self.callers.handle()?;
        Ok(NodeHandle { handle })
    }

    /// The node, once all handles are gone: what the calls of all of them made of it.
    ///
    /// # Errors
    ///
    /// `HandleOut` with the number of the first handle that isn't gone. All comes back.
    pub fn into_node<R: Wait>(self, rt: &R) -> Result<Node<J, C, G, S>, HandleOut<Self>>
        ensures ok { IfOk result (λ node. CallsMake J.meaning self.callers.begun node.runtime × (node.cores ≡ self.cores) × (node.names ≡ self.names)) }
        ensures refused { IfErr result (λ out. (out.back.cores ≡ self.cores) × (out.back.callers ≡ self.callers) × (out.back.names ≡ self.names)) }
    {
        let NodeCallers {
            cores,
            callers,
            names,
        } = self;
        match Runtime::from_callers(rt, callers) {
            Ok(runtime) => Ok(Node {
                cores,
                runtime,
                names,
            }),
            Err(out) => Err(HandleOut {
                number: out.number,
                back: NodeCallers {
                    cores,
                    callers: out.back,
                    names,
                },
            }),
        }
    }
}

impl<J: Task<Out = u64>, C: Drop, G: Drop, S: Sink> NodeHandle<J, C, G, S> {
    /// Submits a job to a queue.
    ///
    /// # Errors
    ///
    /// As `Runtime::submit`. The job comes back, in its order.
    #[inline(always)]
    pub fn submit<R: Wait>(
        &self,
        rt: &R,
        to: Queue,
        job: J,
    ) -> Result<CallerTicket, NotSubmitted<J>>
        requires ready { HasReadyJob J.meaning (Job to.queue job) }
        ensures submits { IsAmongCalls J.meaning (λ old new. SubmitsTo 3 to.core (Job to.queue job) old (result_map_both (λ ticket. ticket.ticket) (λ error. error) result) new) self.now.handle.begun }
        ensures own { IfOk result (λ ticket. ticket.handle ≡ self.now.handle.number) }
    {
        match self.handle.submit(rt, to.core, Order::Job(to.queue, job)) {
            Ok(ticket) => Ok(ticket),
            Err(error) => Err(NotSubmitted { error }),
        }
    }

    /// Waits until a job of this handle is done, and returns its number. While it sleeps, others make their calls.
    ///
    /// # Errors
    ///
    /// As `Node::wait`, and `Refused` with `Unknown` where another handle submitted it.
    pub fn wait<R: Wait + Copy + Drop>(
        &self,
        rt: &R,
        ticket: CallerTicket,
    ) -> Result<u64, NotFinished<J>>
        ensures waits { ticket.handle ≡ self.now.handle.number → IsAmongCalls J.meaning (λ old new. RedeemsHere (Fits J.meaning) ticket.ticket old (outcome_of result) new) self.now.handle.begun }
        ensures there { outcome_of result ≡ Err Pending → ⊥ }
        ensures others { ticket.handle ≢ self.now.handle.number → outcome_of result ≡ Err Unknown }
    {
        let error = match self.handle.wait(rt, ticket) {
            Ok(Outcome::Finished(number)) => return Ok(number),
            Ok(Outcome::Returned(reason, order)) => WaitError::Returned(reason, order),
            Ok(Outcome::Answered(answer)) => WaitError::Answered(answer),
            Err(error) => WaitError::Refused(error),
        };
        Err(NotFinished { error })
    }
}
