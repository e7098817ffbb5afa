//! Closing: of the core, of its queues, of the gates before it, and when it is drained.
ghost use Rattle.std.specs.Prelude.{◌≡◌, ◌≢◌, ◌↔◌, ◌<◌, ◌≤◌, None, is_some, IsTrue};
ghost use Rattle.core_queues.specs.Queues.{queue_count};
ghost use Rattle.core_core.specs.State.{gate_of, IsBounded};
ghost use Rattle.core_core.specs.Closing as spec;
ghost use Rattle.core_core.specs.Closing.{IsDrained, ClosesCore, ClosesQueue, ShutsGate};

use super::Core;
use crate::notes::{Notes, one_note};
use arrayvec::ArrayVec;
use base_jobs::Task;
use base_words::{ActorNo, Answer, Mode, Note, QueueNo, Reason};
use core_queues::closes;
use std::alloc::Allocator;

impl<J: Task, A: Allocator + Clone> Core<J, A> {
    /// Closes the core. The answer: whether that did anything. The first closing does, and `Return` after `Finish`. In mode `Return` all
    /// parked jobs join the tails of their queues.
    pub fn close(&mut self, mode: Mode) -> (bool, Notes<J::Out>)
    where
        J::Out: Copy,
        ensures closes { ClosesCore self.old mode result.0 self.new result.1.items }
        ensures bounded { IsBounded self.new }
    {
        if !closes(self.mode, mode) {
            return (false, ArrayVec::new());
        }
        self.mode = Some(mode);
        self.end_parks_for(mode);
        (true, one_note(Note::CoreClosed(mode)))
    }

    /// Closes a queue, by the same rules.
    pub fn close_queue(&mut self, queue: QueueNo, mode: Mode) -> (Answer, Notes<J::Out>)
    where
        J::Out: Copy,
        ensures closes { ClosesQueue self.old queue mode result.0 self.new result.1.items }
        ensures bounded { IsBounded self.new }
    {
        if !self.has_queue(queue) {
            return (Answer::NoQueue, ArrayVec::new());
        }
        if !closes(self.queues.mode(queue), mode) {
            return (Answer::AlreadyClosed, ArrayVec::new());
        }
        self.queues.close(queue, mode);
        self.end_queue_parks_for(queue, mode);
        (Answer::Closed, one_note(Note::QueueClosed(queue, mode)))
    }

    /// Tells a closed core that the gate of a sender is shut, and how many of its submissions were accepted in all.
    pub fn gate_shut(&mut self, from: ActorNo, count: u64) -> Notes<J::Out>
    where
        J::Out: Copy,
        requires sender { from ≤ self.old.cores }
        requires closed { self.old.mode ≢ None }
        requires untold { gate_of from self.old ≡ None }
        ensures shuts { ShutsGate self.old from count self.new result.items }
        ensures bounded { IsBounded self.new }
    {
        self.senders.shut(usize::from(from.0), count);
        one_note(Note::Shut(from, count))
    }

    /// Whether the core is closed, in either mode.
    pub fn is_closed(&self) -> bool
        ensures { result ≡ is_some self.now.mode }
    {
        self.mode.is_some()
    }

    /// How the core was closed, if it was.
    pub fn mode(&self) -> Option<Mode>
        ensures { result ≡ self.now.mode }
    {
        self.mode
    }

    /// The final count of this sender's gate, if the core was told that it is shut.
    pub fn gate(&self, from: ActorNo) -> Option<u64>
        requires { from ≤ self.now.cores }
        ensures { result ≡ gate_of from self.now }
    {
        self.senders.gate(usize::from(from.0))
    }

    /// Whether every gate is shut, all behind it was delivered, no queue has work, and no job is parked.
    pub fn is_drained(&self) -> bool
        ensures { IsTrue result ↔ IsDrained self.now }
    {
        self.senders.are_through() && self.inside == 0
    }

    /// Why a job that is delivered to this queue goes back, if it does.
    #[inline(always)]
    pub(super) fn refusal(&self, queue: QueueNo) -> Option<Reason>
        ensures { result ≡ spec.refusal queue self.now }
    {
        if !self.has_queue(queue) {
            return Some(Reason::NoQueue);
        }
        match (self.queues.mode(queue), self.mode) {
            (Some(_), _) => Some(Reason::QueueClosed),
            (None, Some(Mode::Return)) => Some(Reason::CoreClosing),
            (None, _) => None,
        }
    }

    /// Why a pick of this queue hands its job back, if it does.
    pub(super) fn return_reason(&self, queue: QueueNo) -> Option<Reason>
        requires { queue < queue_count self.now.queues }
        ensures { result ≡ spec.return_reason queue self.now }
    {
        match (self.queues.mode(queue), self.mode) {
            (Some(Mode::Return), _) => Some(Reason::QueueReturned),
            (_, Some(Mode::Return)) => Some(Reason::CoreReturned),
            (_, _) => None,
        }
    }
}
