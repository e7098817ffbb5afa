//! The outside actor's calls.

ghost use Rattle.std.specs.Prelude.{◌≡◌, ◌+◌, ◌<◌, ◌≤◌, ◌++◌, IsSomeAnd, None, Some, [], false, length, slice_get, true};
ghost use Rattle.base_words.specs.declared.order.Order.TheVariants.{CloseCore};
ghost use Rattle.base_jobs.specs.Ready.{HasReadyJob};
ghost use Rattle.link_ends.specs.Fits.{Fits};
ghost use Rattle.actor_caller.specs.Passing.{PassesHere};
ghost use Rattle.actor_caller.specs.Sends.{SubmitsTo};
ghost use Rattle.actor_caller.specs.Tickets.{Collects, DetachesHere, RedeemsHere};
ghost use Rattle.actor_caller.specs.Waiting.{RedeemsAtLast, SubmitsAtLast, WaitsForAny};
ghost use Rattle.actor_caller.specs.Watching.{IsToldRightly, Watches, closing_told, watch_at};

use crate::error::SubmitError;
use crate::runtime::Runtime;
use base_jobs::Task;
use base_words::{CoreNo, Mode, Order, Outcome, Ticket, TicketError};
use note_journal::{Journal, Refused, Sink};
use run_watch::Watcher;
use std::sync::Wait;

impl<J: Task<Out = u64>, C: Drop, G: Drop> Runtime<J, C, G> {
    /// The outside actor's journal. It is whole: nothing is passed on of it.
    pub fn journal(&self) -> &Journal<u64>
        ensures { result.now ≡ self.now.desk.journal }
    {
        self.caller.journal()
    }
}

impl<J: Task<Out = u64>, C: Drop, G: Drop, S: Sink> Runtime<J, C, G, S> {
    /// Sends an order to a core, and leaves room for what the submissions may still need. If the outside journal has too few notes free,
    /// those that are kept are passed on first.
    ///
    /// # Errors
    ///
    /// Tried in this order, and the order comes back: `JournalFull` where the outside journal has too few notes free, and its sink refuses;
    /// `Send` where there is no such core, and where its link refuses.
    #[inline(always)]
    pub fn submit(&mut self, to: CoreNo, order: Order<J>) -> Result<Ticket, SubmitError<J>>
        requires ready { HasReadyJob J.meaning order }
        ensures { SubmitsTo 3 to order self.old result self.new }
    {
        self.caller.submit(to, order)
    }

    /// Sends an order to close a core. It may take the notes that `submit` leaves for it.
    ///
    /// # Errors
    ///
    /// As `submit`.
    pub fn close_core(&mut self, core: CoreNo, mode: Mode) -> Result<Ticket, SubmitError<J>>
        ensures { SubmitsTo 0 core (CloseCore mode) self.old result self.new }
    {
        self.caller.close_core(core, mode)
    }

    /// Collects all outcomes that the link to a core shows. How many there were: 0 where there is no such core.
    #[inline(always)]
    pub fn collect(&mut self, core: CoreNo) -> usize
        ensures { Collects core self.old result self.new }
    {
        self.caller.collect(core)
    }

    /// The outcome of a submission, which is gone from then on.
    ///
    /// # Errors
    ///
    /// `Unknown` where this caller submitted nothing under the name; `Gone` where it was redeemed or detached before; `Pending` where its
    /// outcome isn't collected yet. Nothing changes.
    #[inline(always)]
    pub fn redeem(&mut self, ticket: Ticket) -> Result<Outcome<J, u64>, TicketError>
        ensures { RedeemsHere (Fits J.meaning) ticket self.old result self.new }
    {
        self.caller.redeem(ticket)
    }

    /// Nobody will ask for the outcome of a submission.
    ///
    /// # Errors
    ///
    /// `Unknown` and `Gone`, as `redeem`. Nothing changes.
    pub fn detach(&mut self, ticket: Ticket) -> Result<(), TicketError>
        ensures { DetachesHere ticket self.old result self.new }
    {
        self.caller.detach(ticket)
    }

    /// Waits until the outcome of a submission is there, and redeems it. The caller is parked meanwhile, if that takes long.
    ///
    /// # Errors
    ///
    /// `Unknown` and `Gone`, as `redeem`. Then it doesn't wait.
    pub fn wait<R: Wait>(&mut self, rt: &R, ticket: Ticket) -> Result<Outcome<J, u64>, TicketError>
        ensures { RedeemsAtLast (Fits J.meaning) ticket self.old result self.new }
    {
        self.caller.wait(rt, ticket)
    }

    /// Waits until the outcome of one of these submissions is there, and redeems it: the place of its ticket, and what `redeem` answers. Where
    /// several are there, the first one of the slice is redeemed. A ticket that is unknown or gone is answered as if its outcome were there.
    /// None if there are no tickets.
    pub fn wait_any<R: Wait>(
        &mut self,
        rt: &R,
        tickets: &[Ticket],
    ) -> Option<(usize, Result<Outcome<J, u64>, TicketError>)>
        ensures { WaitsForAny (Fits J.meaning) tickets.now self.old result self.new }
    {
        self.caller.wait_any(rt, tickets)
    }

    /// Submits an order, and waits as long as the link to its core is full. A place is free there by the outcome of a submission that was
    /// let go (`detach`). If the caller keeps a ticket of each submission to this core, it waits for ever: redeem one instead.
    ///
    /// # Errors
    ///
    /// As `submit`, except that the link is full.
    pub fn submit_wait<R: Wait>(
        &mut self,
        rt: &R,
        to: CoreNo,
        order: Order<J>,
    ) -> Result<Ticket, SubmitError<J>>
        requires ready { HasReadyJob J.meaning order }
        ensures { SubmitsAtLast 3 to order self.old result self.new }
    {
        self.caller.submit_wait(rt, to, order)
    }

    /// The notes of the outside actor that are kept. The older ones are in its sink.
    pub fn kept(&self) -> &Journal<u64>
        ensures notes { result.now.notes ++ self.now.desk.journal.passed ≡ self.now.desk.journal.notes }
        ensures room { length self.now.desk.journal.passed + result.now.room ≡ self.now.desk.journal.room }
        ensures whole { self.now.desk.journal.passed ≡ [] → result.now ≡ self.now.desk.journal }
    {
        self.caller.kept()
    }

    /// The outside actor's sink. It has the notes that were passed on. If it refused when it was last asked, it says so.
    pub fn sink(&self) -> &S
        ensures has { S.has result.now ≡ self.now.desk.journal.passed }
        ensures asks { S.asks result.now ≡ self.now.asks }
        ensures mark { slice_get self.now.marks (length self.now.workers) ≡ Some (S.mark result.now) }
        ensures refused { self.now.refused ≡ true → S.refused result.now (length self.now.desk.journal.passed) }
    {
        self.caller.sink()
    }

    /// Passes on all notes of the outside actor that are kept, so that their places are free again. The caller may do so at any time; a
    /// submission does so where there are too few. The sink is asked each time, also if it refused before.
    ///
    /// # Errors
    ///
    /// `Refused` where the sink refuses. Nothing changes then.
    pub fn pass_on(&mut self) -> Result<(), Refused>
        ensures { PassesHere self.old result self.new }
    {
        self.caller.pass_on()
    }

    /// Looks at the numbers that the worker of this core published last. `watched` tells them. False if there is no such core, or if each try
    /// of the look met a publication on the way; then `watched` tells the same as before.
    ///
    /// A worker publishes behind each 1024 rounds in which something was done, before it lies down, behind the round in which its journal grew
    /// short, and when its core is drained. It waits for nobody that looks, and isn't asked. No clause says that a look sees a publication
    /// soon.
    pub fn watch(&mut self, core: CoreNo) -> bool
        ensures watches { core < self.old.desk.cores → Watches core self.old result self.new }
        ensures missing { self.old.desk.cores ≤ core → (result ≡ false) × (self.new ≡ self.old) }
    {
        self.caller.watch(core)
    }

    /// What the last watch of this core saw: its numbers and those of its queues, all of one moment. Before the first watch they are those of a
    /// core with no note. None if there is no such core.
    pub fn watched(&self, core: CoreNo) -> Option<&Watcher>
        ensures some { core < self.now.desk.cores → IsSomeAnd result (λ watcher. watcher.now ≡ watch_at core self.now.watched) }
        ensures none { self.now.desk.cores ≤ core → result ≡ None }
    {
        self.caller.watched(core)
    }

    /// Whether the core closed by itself, since its journal was short: what the publication tells that the last watch of this core saw. None
    /// if no watch saw one yet, or if there is no such core. `Some(true)` stays. `Some(false)` says that it wasn't told then.
    ///
    /// A core that closes by itself shuts its gates in the same round, and its worker publishes it right behind that round at the latest. So a
    /// caller that was answered `SendError::Closed` watches until this is told, or until the core is told as drained. That is by the body of
    /// the worker: no clause says when it publishes this, or that a watch sees it. A core that was closed by order in mode `Finish` may close
    /// by itself later, if its journal grows short. Then it is told, too.
    pub fn closed_by_itself(&self, core: CoreNo) -> Option<bool>
        ensures some { core < self.now.desk.cores → result ≡ closing_told (watch_at core self.now.watched) }
        ensures rightly { core < self.now.desk.cores → IsToldRightly (watch_at core self.now.watched) result }
        ensures none { self.now.desk.cores ≤ core → result ≡ None }
    {
        self.caller.closed_by_itself(core)
    }
}
