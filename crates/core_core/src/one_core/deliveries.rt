//! What a delivery does, by its order.
//!
//! Each delivery counts, whatever comes of it: a job enters its queue, or goes back in its order, and a command is answered.
//!
//! - A job in a queue without work makes the queue active: its virtual runtime is placed at the floor, and its slip goes into the timeline,
//!   unless the queue's turn is open.
//! - Only a Create takes memory, and changes nothing if there is none.
ghost use Rattle.std.specs.Prelude.{◌≡◌, ◌↔◌, ℕ, ◌+◌, ◌<◌, ◌≤◌, [], ◌∷◌, true, false, None, IsTrue};
ghost use Rattle.core_core.specs.declared.delivery.Delivered.TheVariants as deliveries;
ghost use Rattle.base_words.specs.declared.note.Note.TheVariants as notes;
ghost use Rattle.base_words.specs.declared.order.Answer.TheVariants as answers;
ghost use Rattle.base_words.specs.declared.order.Order.TheVariants as orders;
ghost use Rattle.base_jobs.specs.Ready.{IsReady};
ghost use Rattle.core_queues.specs.Queues.{queue_count, mode_of};
ghost use Rattle.core_core.specs.State.{delivered_of, is_working, inside_count, IsBounded};
ghost use Rattle.core_core.specs.Answers.{note_told};
ghost use Rattle.core_core.specs.Deliveries.{Delivers, CountsAlone, Enters};

use super::Core;
use crate::delivery::Delivered;
use crate::notes::{Notes, one_note, two_notes, with_effect};
use crate::out::is_of_queue;
use crate::ready::enter_placed;
use crate::tally::place;
use base_jobs::Task;
use base_words::{Answer, JobId, Mode, Note, Order, QueueNo, Shares, placed};
use core_queues::CreateError;
use std::alloc::Allocator;

impl<J: Task, A: Allocator + Clone> Core<J, A> {
    /// Counts a delivery.
    pub(super) fn count(&mut self, name: &JobId)
        requires { name.now.from ≤ self.old.cores }
        ensures counts { CountsAlone self.old name.now self.new }
        ensures bounded { IsBounded self.new }
    {
        self.senders.count(usize::from(name.from.0), name.number);
    }

    /// Whether there is a queue of this number.
    pub(super) fn has_queue(&self, queue: QueueNo) -> bool
        ensures { IsTrue result ↔ (queue < queue_count self.now.queues) }
    {
        place(queue) < usize::from(self.queues.queue_count())
    }

    /// Whether a job waits in the queue or is out of it.
    pub(super) fn has_work(&self, queue: QueueNo) -> bool
        requires { queue < queue_count self.now.queues }
        ensures { result ≡ is_working queue self.now }
    {
        !self.queues.is_empty(queue) || is_of_queue(&self.out, queue)
    }

    /// Carries out the next submission of its sender, which is a job. The caller writes its one note.
    #[inline(always)]
    pub fn deliver_job(&mut self, name: JobId, queue: QueueNo, job: J) -> Delivered<J>
        requires room { inside_count self.old < self.old.queues.room }
        requires sender { name.from ≤ self.old.cores }
        requires next { name.number ≡ delivered_of name.from self.old + 1 }
        requires ready { IsReady J.meaning job }
        ensures delivers { Delivers {T = J.Out} self.old name (orders.Job queue job) result self.new (note_told name queue result ∷ []) }
        ensures bounded { IsBounded self.new }
    {
        match self.refusal(queue) {
            Some(reason) => {
                self.count(&name);
                Delivered::Back(reason, Order::Job(queue, job))
            }
            None => {
                self.take_in(name, queue, job);
                Delivered::Took
            }
        }
    }

    /// Delivers a job, and makes its note.
    #[inline(always)]
    pub(super) fn deliver_noted(
        &mut self,
        name: JobId,
        queue: QueueNo,
        job: J,
    ) -> (Delivered<J>, Notes<J::Out>)
    where
        J::Out: Copy,
        requires room { inside_count self.old < self.old.queues.room }
        requires sender { name.from ≤ self.old.cores }
        requires next { name.number ≡ delivered_of name.from self.old + 1 }
        requires ready { IsReady J.meaning job }
        ensures delivers { Delivers self.old name (orders.Job queue job) result.0 self.new result.1.items }
        ensures bounded { IsBounded self.new }
    {
        let named = name;
        match self.deliver_job(name, queue, job) {
            Delivered::Took => {
                let took = Note::Took(named, queue);
                (Delivered::Took, one_note(took))
            }
            Delivered::Back(reason, order) => {
                let back = Note::Back(named, reason);
                (Delivered::Back(reason, order), one_note(back))
            }
            Delivered::Answered(_) => unreachable!(),
        }
    }

    /// A job enters an open queue.
    #[inline(always)]
    fn take_in(&mut self, name: JobId, queue: QueueNo, job: J)
        requires room { inside_count self.old < self.old.queues.room }
        requires sender { name.from ≤ self.old.cores }
        requires ready { IsReady J.meaning job }
        requires exists { queue < queue_count self.old.queues }
        requires is_open { mode_of queue self.old.queues ≡ None }
        ensures enters { Enters self.old name queue job self.new }
        ensures bounded { IsBounded self.new }
    {
        if self.has_work(queue) {
            self.join(name, queue, job);
        } else {
            self.activate(name, queue, job);
        }
    }

    /// A job enters a queue that has work.
    #[inline(always)]
    pub(super) fn join(&mut self, name: JobId, queue: QueueNo, job: J)
        requires room { inside_count self.old < self.old.queues.room }
        requires sender { name.from ≤ self.old.cores }
        requires ready { IsReady J.meaning job }
        requires exists { queue < queue_count self.old.queues }
        requires is_open { mode_of queue self.old.queues ≡ None }
        requires work { is_working queue self.old ≡ true }
        ensures enters { Enters self.old name queue job self.new }
        ensures bounded { IsBounded self.new }
    {
        self.senders.count(usize::from(name.from.0), name.number);
        self.queues.admit(queue, name, job);
        self.inside += 1;
    }

    /// A job enters a queue without work, which is placed at the floor.
    #[inline(always)]
    pub(super) fn activate(&mut self, name: JobId, queue: QueueNo, job: J)
        requires room { inside_count self.old < self.old.queues.room }
        requires sender { name.from ≤ self.old.cores }
        requires ready { IsReady J.meaning job }
        requires exists { queue < queue_count self.old.queues }
        requires is_open { mode_of queue self.old.queues ≡ None }
        requires idle { is_working queue self.old ≡ false }
        ensures enters { Enters self.old name queue job self.new }
        ensures bounded { IsBounded self.new }
    {
        self.senders.count(usize::from(name.from.0), name.number);
        self.queues.admit(queue, name, job);
        self.inside += 1;
        let tally = &mut self.tallies[place(queue)];
        let vr = placed(tally.runtime, self.floor);
        tally.runtime = vr;
        enter_placed(&mut self.queues, &mut self.ready, &self.bursts, queue, vr);
    }

    pub(super) fn deliver_create(
        &mut self,
        name: JobId,
        shares: Shares,
    ) -> (Delivered<J>, Notes<J::Out>)
    where
        J::Out: Copy,
        requires { name.from ≤ self.old.cores }
        ensures delivers { Delivers self.old name (orders.Create shares) result.0 self.new result.1.items }
        ensures bounded { IsBounded self.new }
    {
        if self.is_closed() {
            self.count(&name);
            let answered = Note::Answered(name, Answer::CoreClosing);
            return (Delivered::Answered(Answer::CoreClosing), one_note(answered));
        }
        self.create_open(name, shares)
    }

    /// Makes a queue in an open core, or answers why there is none.
    fn create_open(&mut self, name: JobId, shares: Shares) -> (Delivered<J>, Notes<J::Out>)
    where
        J::Out: Copy,
        requires sender { name.from ≤ self.old.cores }
        requires is_open { self.old.mode ≡ None }
        ensures delivers { Delivers self.old name (orders.Create shares) result.0 self.new result.1.items }
        ensures bounded { IsBounded self.new }
    {
        let (made, _) = self.create(shares);
        self.count(&name);
        match made {
            Ok(queue) => {
                let answered = Note::Answered(name, Answer::Created(queue));
                let notes = two_notes(answered, Note::Created(queue, shares));
                (Delivered::Answered(Answer::Created(queue)), notes)
            }
            Err(CreateError::TooMany) => {
                let answered = Note::Answered(name, Answer::TooMany);
                (Delivered::Answered(Answer::TooMany), one_note(answered))
            }
            Err(CreateError::Memory) => {
                let answered = Note::Answered(name, Answer::NoMemory);
                (Delivered::Answered(Answer::NoMemory), one_note(answered))
            }
        }
    }

    pub(super) fn deliver_shares(
        &mut self,
        name: JobId,
        queue: QueueNo,
        shares: Shares,
    ) -> (Delivered<J>, Notes<J::Out>)
    where
        J::Out: Copy,
        requires { name.from ≤ self.old.cores }
        ensures delivers { Delivers self.old name (orders.SetShares queue shares) result.0 self.new result.1.items }
        ensures bounded { IsBounded self.new }
    {
        if !self.has_queue(queue) {
            self.count(&name);
            let answered = Note::Answered(name, Answer::NoQueue);
            return (Delivered::Answered(Answer::NoQueue), one_note(answered));
        }
        self.senders.count(usize::from(name.from.0), name.number);
        self.queues.set_shares(queue, shares);
        let answered = Note::Answered(name, Answer::SharesSet);
        (
            Delivered::Answered(Answer::SharesSet),
            two_notes(answered, Note::SharesSet(queue, shares)),
        )
    }

    /// A closing of a queue is counted, and done.
    pub(super) fn deliver_close(
        &mut self,
        name: JobId,
        queue: QueueNo,
        mode: Mode,
    ) -> (Delivered<J>, Notes<J::Out>)
    where
        J::Out: Copy,
        requires { name.from ≤ self.old.cores }
        ensures delivers { Delivers self.old name (orders.Close queue mode) result.0 self.new result.1.items }
        ensures bounded { IsBounded self.new }
    {
        self.count(&name);
        let done = self.close_queue(queue, mode);
        let told = told(&done.0);
        let note = answered_note(name, &done.0);
        (told, with_effect(note, done.1))
    }

    /// So is one of the core.
    pub(super) fn deliver_close_core(
        &mut self,
        name: JobId,
        mode: Mode,
    ) -> (Delivered<J>, Notes<J::Out>)
    where
        J::Out: Copy,
        requires { name.from ≤ self.old.cores }
        ensures delivers { Delivers self.old name (orders.CloseCore mode) result.0 self.new result.1.items }
        ensures bounded { IsBounded self.new }
    {
        self.count(&name);
        let done = self.close(mode);
        let answer = closing_answer(done.0);
        let told = told(&answer);
        let note = answered_note(name, &answer);
        (told, with_effect(note, done.1))
    }
}

/// What a closing of the core is answered.
fn closing_answer(closed: bool) -> Answer
    ensures closed { closed ≡ true → result ≡ answers.Closed }
    ensures before { closed ≡ false → result ≡ answers.AlreadyClosed }
{
    if closed {
        Answer::Closed
    } else {
        Answer::AlreadyClosed
    }
}

/// What a delivery of a command tells.
fn told<J>(answer: &Answer) -> Delivered<J>
    ensures { result ≡ deliveries.Answered answer.now }
{
    Delivered::Answered(*answer)
}

/// The note of an answer.
fn answered_note<T>(name: JobId, answer: &Answer) -> Note<T>
    ensures { result ≡ notes.Answered name answer.now }
{
    Note::Answered(name, *answer)
}
