//! The outside actor's calls.

ghost use Rattle.std.specs.Prelude.{◌≡◌, ◌+◌, ◌<◌, ◌≤◌, ◌^◌, ◌↔◌, IsTrue, length, true, false, slice_index_or, slice_set, ◌||◌};
ghost use Rattle.note_journal.specs.Journals.{free_notes};
ghost use Rattle.base_jobs.specs.Ready.{HasReadyJob};
ghost use Rattle.base_words.specs.declared.order.Order.TheVariants.{CloseCore};
ghost use Rattle.actor_desk.specs.Spending.{booked};
ghost use Rattle.actor_caller.specs.Passing.{passed_on};
ghost use Rattle.actor_caller.specs.Sends.{Sends, SubmitsTo, is_closing, outstanding_upto, room_left, tells_closing};

use crate::caller::{Beside, Caller};
use crate::error::SubmitError;
use base_jobs::Task;
use base_sealed::SealedVec;
use base_words::{CoreNo, Mode, Order, SendError, Ticket};
use note_journal::Sink;
use std::alloc::Global;

/// Whether the order closes the core.
fn closes<J>(order: &Order<J>) -> bool
    ensures { result ≡ is_closing order.now }
{
    match order {
        Order::CloseCore(_) => true,
        _ => false,
    }
}

/// Whether a send with this answer tells that the core is closed, or closes it.
#[inline(always)]
fn tells<J>(closing: bool, answer: &Result<Ticket, SendError<J>>) -> bool
    ensures { result ≡ tells_closing closing answer.now }
{
    match answer {
        Ok(_) => closing,
        Err(SendError::Closed(_, _)) => true,
        Err(_) => false,
    }
}

/// Keeps in mind that a core is closed, if it was told so.
#[inline(always)]
fn mark(closing: &mut SealedVec<bool, Global>, core: usize, told: bool)
    requires { core < length closing.old.items }
    ensures { closing.new.items ≡ slice_set closing.old.items core (slice_index_or closing.old.items core false || told) }
{
    let was = closing[core];
    closing[core] = was || told;
}

impl<J: Task<Out = u64>, S: Sink, H: Beside<Job = J>> Caller<J, S, H> {
    /// How many submissions are outstanding on all links.
    #[inline(always)]
    fn outstanding(&self) -> u128
        ensures value { result ≡ outstanding_upto self.now.desk.journal.notes self.now.desk.cores }
        ensures few { result < 2 ^ 72 }
    {
        let mut count: u128 = 0;
        for core in 0..self.cores {
            count += self.outside.outstanding(CoreNo(core)) as u128;
        }
        count
    }

    /// Whether the journal has too few notes free for a send: three for each submission that is outstanding, this one among them, and so
    /// many for each core.
    #[inline(always)]
    pub(crate) fn is_full(&self, each: u8) -> bool
        ensures full { IsTrue result ↔ (free_notes self.now.desk.journal < room_left each self.now) }
        ensures room { result ≡ false → booked self.now.desk + 3 ≤ self.now.desk.journal.room }
        ensures behind { booked (passed_on self.now).desk + 3 ≤ (passed_on self.now).desk.journal.room }
    {
        if self.has_plenty(each) {
            return false;
        }
        self.is_full_now(each)
    }

    /// Whether as many notes are free as a send would ask for if each link held all that it may. Then no link is asked.
    #[inline(always)]
    fn has_plenty(&self, each: u8) -> bool
        ensures plenty { result ≡ true → room_left each self.now ≤ free_notes self.now.desk.journal }
        ensures room { result ≡ true → booked self.now.desk + 3 ≤ self.now.desk.journal.room }
        ensures behind { booked (passed_on self.now).desk + 3 ≤ (passed_on self.now).desk.journal.room }
    {
        let most = self.cores as u64 * self.cap as u64;
        3 * (most + 1) + each as u64 * self.cores as u64 <= self.outside.journal().free() as u64
    }

    /// The same as `is_full`, by what is outstanding.
    #[inline(never)]
    fn is_full_now(&self, each: u8) -> bool
        ensures full { IsTrue result ↔ (free_notes self.now.desk.journal < room_left each self.now) }
        ensures room { result ≡ false → booked self.now.desk + 3 ≤ self.now.desk.journal.room }
        ensures behind { booked (passed_on self.now).desk + 3 ≤ (passed_on self.now).desk.journal.room }
    {
        let places = 3 * (self.outstanding() + 1) + each as u128 * self.cores as u128;
        (self.outside.journal().free() as u128) < places
    }

    /// Sends an order to a core.
    #[inline(always)]
    fn send(&mut self, to: CoreNo, order: Order<J>) -> Result<Ticket, SendError<J>>
        requires ready { HasReadyJob J.meaning order }
        requires room { booked self.old.desk + 3 ≤ self.old.desk.journal.room }
        ensures { Sends to order self.old result self.new }
    {
        if to.0 >= self.cores {
            return Err(SendError::NoCore(order));
        }
        let core = to.0 as usize;
        let closing = closes(&order);
        let answer = self.outside.submit(to, order);
        mark(&mut self.closing, core, tells(closing, &answer));
        self.bells.ring(self.outside.ends(), to);
        answer
    }

    /// Sends an order to a core, and leaves room for what the submissions may still need. If the journal has too few notes free, those that are
    /// kept are passed on first.
    ///
    /// # Errors
    ///
    /// `JournalFull` where the sink refuses then; `Send` where there is no such core, or its link refuses. The order comes back.
    #[inline(always)]
    pub fn submit(&mut self, to: CoreNo, order: Order<J>) -> Result<Ticket, SubmitError<J>>
        requires ready { HasReadyJob J.meaning order }
        ensures { SubmitsTo 3 to order self.old result self.new }
    {
        if self.make_room(3).is_err() {
            return Err(SubmitError::JournalFull(order));
        }
        match self.send(to, order) {
            Ok(ticket) => Ok(ticket),
            Err(error) => Err(SubmitError::Send(error)),
        }
    }

    /// Sends an order to close a core. It may take the notes that `submit` leaves for it.
    ///
    /// # Errors
    ///
    /// As `submit`.
    pub fn close_core(&mut self, core: CoreNo, mode: Mode) -> Result<Ticket, SubmitError<J>>
        ensures { SubmitsTo 0 core (CloseCore mode) self.old result self.new }
    {
        let order = Order::CloseCore(mode);
        if self.make_room(0).is_err() {
            return Err(SubmitError::JournalFull(order));
        }
        match self.send(core, order) {
            Ok(ticket) => Ok(ticket),
            Err(error) => Err(SubmitError::Send(error)),
        }
    }
}
