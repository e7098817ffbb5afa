//! How a handle that waits follows: another leads, and it sleeps until that one rings.
//!
//! A look redeems once more, with the lock, which it gives back, so nothing is held while it sleeps. Who follows looks for its own outcome
//! alone: the leader collects for all. Only this module makes a `Follower`, so nobody else sleeps on `moved`.

ghost use Rattle.std.specs.Prelude.{◌≡◌, Err, false};
ghost use Rattle.base_words.specs.declared.names.TicketError.TheVariants.{Pending};
ghost use Rattle.link_ends.specs.Fits.{Fits};
ghost use Rattle.actor_caller.specs.Tickets.{RedeemsHere};
ghost use Rattle.actor_caller.specs.Callers.{IsAmongCalls};

use crate::caller::Beside;
use crate::shared::Shared;
use base_jobs::Task;
use base_words::{Outcome, Ticket, TicketError};
use note_journal::Sink;
use std::sync::Wait;

/// One that follows, while it looks.
#[derive(Drop)]
pub(crate) struct Follower<'a, J: Task<Out = u64>, S: Sink, H: Beside<Job = J>, R> {
    shared: &'a Shared<J, S, H>,
    rt: &'a R,
    ticket: Ticket,
}

/// Sleeps on `moved`, behind a look each time, until the outcome is there or nobody leads any more. Then the outcome may be pending still.
pub(crate) fn follow<J: Task<Out = u64>, S: Sink, H: Beside<Job = J>, R: Wait>(
    shared: &Shared<J, S, H>,
    rt: &R,
    ticket: Ticket,
) -> Result<Outcome<J, u64>, TicketError>
    ensures { IsAmongCalls J.meaning (λ old new. RedeemsHere (Fits J.meaning) ticket old result new) shared.now.hall.table.shared.key.value }
{
    for _ in rt.forever() {
        let follower = Follower { shared, rt, ticket };
        let (answer, quiet) = shared.moved.lie_down().look(&follower);
        match quiet {
            Some(quiet) => quiet.sleep(rt),
            None => return answer,
        }
    }
    unreachable!()
}

impl<J: Task<Out = u64>, S: Sink, H: Beside<Job = J>, R: Wait> Follower<'_, J, S, H, R> {
    /// Redeems, and says whether there was something: the outcome, or that nobody leads.
    #[tactic(auto, using(crate::proofs::CallsMade::redeem_call))]
    pub(crate) fn looks(&self) -> (Result<Outcome<J, u64>, TicketError>, bool)
        ensures redeems { IsAmongCalls J.meaning (λ old new. RedeemsHere (Fits J.meaning) self.now.ticket old result.0 new) self.now.shared.now.hall.table.shared.key.value }
        ensures quiet { result.1 ≡ false → result.0 ≡ Err Pending }
    {
        let (mut inside, loan) = self.shared.hall.take(self.rt);
        let answer = inside.caller.redeem(self.ticket);
        let led = inside.is_led();
        self.shared.hall.give(inside, loan);
        let found = !led || !matches!(answer, Err(TicketError::Pending));
        (answer, found)
    }
}
