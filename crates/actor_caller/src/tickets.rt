//! The outside actor's calls on outcomes and tickets.

ghost use Rattle.link_ends.specs.Fits.{Fits};
ghost use Rattle.actor_caller.specs.Tickets.{Collects, DetachesHere, RedeemsHere};

use crate::caller::{Beside, Caller};
use base_jobs::Task;
use base_words::{CoreNo, Outcome, Ticket, TicketError};
use note_journal::Sink;

impl<J: Task<Out = u64>, S: Sink, H: Beside<Job = J>> Caller<J, S, H> {
    /// Collects all outcomes that the link to a core shows. How many there were: 0 where there is no such core.
    #[inline(always)]
    pub fn collect(&mut self, core: CoreNo) -> usize
        ensures { Collects core self.old result self.new }
    {
        if core.0 >= self.cores {
            return 0;
        }
        self.outside.collect_from(core)
    }

    /// The outcome of a submission, which is gone from then on.
    ///
    /// # Errors
    ///
    /// `Unknown`, `Gone` and `Pending`. Nothing changes.
    #[inline(always)]
    pub fn redeem(&mut self, ticket: Ticket) -> Result<Outcome<J, u64>, TicketError>
        ensures { RedeemsHere (Fits J.meaning) ticket self.old result self.new }
    {
        if !self.outside.knows(ticket) {
            return Err(TicketError::Unknown);
        }
        self.outside.redeem(ticket)
    }

    /// Nobody will ask for the outcome of a submission.
    ///
    /// # Errors
    ///
    /// `Unknown` and `Gone`. Nothing changes.
    pub fn detach(&mut self, ticket: Ticket) -> Result<(), TicketError>
        ensures { DetachesHere ticket self.old result self.new }
    {
        if !self.outside.knows(ticket) {
            return Err(TicketError::Unknown);
        }
        self.outside.detach(ticket)
    }
}
