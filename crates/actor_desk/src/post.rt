//! A desk and its ends, lent to a job for one poll.

ghost use Rattle.std.specs.Prelude.{◌≡◌, ◌+◌, ◌<◌, length, sum_by, IfOk, IsOk};
ghost use Rattle.base_words.specs.Collecting.{IsDetachable};
ghost use Rattle.base_jobs.specs.Ready.{HasReadyJob};
ghost use Rattle.base_jobs.specs.Posts.{NotesSubmit, NotesRedeem, NotesDetach};
ghost use Rattle.link_ends.specs.Fits.{Fits};
ghost use Rattle.base_jobs.specs.Calls.Call.{Submit, Redeem, Detach};
ghost use Rattle.actor_desk.specs.Posts.{AreOutsOf, IsLent};
ghost use Rattle.actor_desk.specs.Lent.{DoesLent};
ghost use Rattle.actor_desk.specs.Spending.{left_of};

use crate::recorded_desk::RecordedDesk;
use base_jobs::{Post, Task};
use base_sealed::SealedVec;
use base_words::{CoreNo, Order, Outcome, SendError, Ticket, TicketError};
use link_ends::OutEnd;
use std::alloc::Global;
use std::marker::Model;

/// A desk and its ends, one for each core, beside what the jobs of the core share, as they are lent. It has no model, so that the prover knows
/// of each borrow what it left.
pub struct LentDesk<'a, J: Task<Out = u64>, O: OutEnd<J>> {
    pub said: &'a mut RecordedDesk<J>,
    pub ends: &'a mut SealedVec<O, Global>,
    pub local: &'a mut J::Local,
}

impl<'a, J: Task<Out = u64>, O: OutEnd<J>> LentDesk<'a, J, O> {
    /// Lends all three.
    pub fn of(
        said: &'a mut RecordedDesk<J>,
        ends: &'a mut SealedVec<O, Global>,
        local: &'a mut J::Local,
    ) -> Self
        ensures said { result.said.now ≡ said.old }
        ensures ends { result.ends.now ≡ ends.old }
        ensures said_at { result.said.ghost_name ≡ said.entry.ghost_name }
        ensures ends_at { result.ends.ghost_name ≡ ends.entry.ghost_name }
    {
        LentDesk { said, ends, local }
    }
}

/// The same, lent to a job for one poll.
///
/// A contract sees the desk and the ends as they are, and of which borrows they are, and nothing of what is shared. What each call does
/// says `DoesLent`.
pub struct RecordedPost<'a, J: Task<Out = u64>, O: OutEnd<J>> {
    said: &'a mut RecordedDesk<J>,
    ends: &'a mut SealedVec<O, Global>,
    local: &'a mut J::Local,
}

impl<'a, J: Task<Out = u64>, O: OutEnd<J>> Model for RecordedPost<'a, J, O> {
    ghost use Rattle.std.specs.Prelude.{ℕ};
    ghost use Rattle.link_ends.specs.Fits.{Fits};
    ghost use Rattle.actor_desk.specs.Posts.{IsLent};
    ghost use Rattle.actor_desk.specs.Lent.{LentView};

    ghost Value = { LentView J ℕ O };

    ghost view = { λ p. record { lent = record { desk = p.said.now; ends = p.ends.now.items }; desk_at = p.said.ghost_name; ends_at = p.ends.ghost_name } };

    ghost invariant = { λ p. IsLent (Fits J.meaning) O.out O.credited (record { desk = p.said.now; ends = p.ends.now.items }) };
}

impl<'a, J: Task<Out = u64>, O: OutEnd<J>> RecordedPost<'a, J, O> {
    /// Lends a desk and its ends. There is room for each note that can be made before the next outcome is collected, and for one more.
    pub fn lend(lent: LentDesk<'a, J, O>) -> Self
        requires outs { AreOutsOf (Fits J.meaning) O.out O.credited lent.said.now lent.ends.now.items }
        requires spare { length lent.said.now.journal.notes + sum_by left_of lent.said.now.lanes < lent.said.now.journal.room }
        ensures lent { result ≡ record { lent = record { desk = lent.entry.said.now; ends = lent.entry.ends.now.items }; desk_at = lent.entry.said.ghost_name; ends_at = lent.entry.ends.ghost_name } }
    {
        let LentDesk { said, ends, local } = lent;
        RecordedPost { said, ends, local }
    }

    /// The desk and its ends, after what was posted. Whoever lent them uses both once more in one call: only then does the prover know what
    /// they left.
    pub fn into_parts(self) -> LentDesk<'a, J, O>
        ensures desk { result.said.now ≡ self.entry.lent.desk }
        ensures ends { result.ends.now.items ≡ self.entry.lent.ends }
        ensures desk_at { result.said.ghost_name ≡ self.entry.desk_at }
        ensures ends_at { result.ends.ghost_name ≡ self.entry.ends_at }
        ensures lent { IsLent (Fits J.meaning) O.out O.credited self.entry.lent }
    {
        let RecordedPost { said, ends, local } = self;
        LentDesk { said, ends, local }
    }
}

impl<J: Task<Out = u64>, O: OutEnd<J>> Post<J, u64> for RecordedPost<'_, J, O> {
    ghost use Rattle.base_words.specs.Collecting.{IsDetachable};
    ghost use Rattle.link_ends.specs.Fits.{Fits};
    ghost use Rattle.actor_desk.specs.Lent.{DoesLent};

    ghost notes = { λ post. post.lent.desk.journal.notes };

    ghost Waits = { λ post name. IsDetachable name post.lent.desk.journal.notes };

    ghost Does = { DoesLent (Fits J.meaning) O.out O.credited O.untouched };

    fn submit(&mut self, to: CoreNo, order: Order<J>) -> Result<Ticket, SendError<J>>
        requires ready { HasReadyJob J.meaning order }
        ensures noted { NotesSubmit self.old.lent.desk.journal.notes to order result self.new.lent.desk.journal.notes }
        ensures waits { IfOk result (λ name. IsDetachable name self.new.lent.desk.journal.notes) }
        ensures does { DoesLent (Fits J.meaning) O.out O.credited O.untouched self.old (Submit to order result) self.new }
    {
        if to.0 as usize >= self.ends.len() {
            return Err(SendError::NoCore(order));
        }
        self.said.see_lanes();
        let end = &mut self.ends[to.0 as usize];
        self.said.submit(end, to, order)
    }

    fn redeem(&mut self, ticket: Ticket) -> Result<Outcome<J, u64>, TicketError>
        ensures noted { NotesRedeem self.old.lent.desk.journal.notes ticket result self.new.lent.desk.journal.notes }
        ensures does { DoesLent (Fits J.meaning) O.out O.credited O.untouched self.old (Redeem ticket result) self.new }
    {
        if !self.said.knows(ticket) {
            return Err(TicketError::Unknown);
        }
        let end = &mut self.ends[ticket.name().to.0 as usize];
        self.said.redeem(end, ticket)
    }

    fn detach(&mut self, ticket: Ticket) -> Result<(), TicketError>
        ensures noted { NotesDetach self.old.lent.desk.journal.notes ticket result self.new.lent.desk.journal.notes }
        ensures waits { IsDetachable ticket self.old.lent.desk.journal.notes → IsOk result }
        ensures does { DoesLent (Fits J.meaning) O.out O.credited O.untouched self.old (Detach ticket result) self.new }
    {
        if !self.said.knows(ticket) {
            return Err(TicketError::Unknown);
        }
        let end = &mut self.ends[ticket.name().to.0 as usize];
        self.said.detach(end, ticket)
    }

    fn local(&mut self) -> &mut J::Local {
        self.local
    }
}
