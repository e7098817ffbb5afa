//! What the host told of a run, as the post that its job asks.

ghost use Rattle.std.specs.Prelude.{◌≡◌, false, None};
ghost use Rattle.host_core.specs.Words.{word_notes};
ghost use Rattle.base_jobs.specs.Posts.{NotesSubmit, NotesRedeem, NotesDetach};
ghost use Rattle.base_jobs.specs.Ready.{HasReadyJob};
ghost use Rattle.base_jobs.specs.Steps.{IfUndone};
ghost use Rattle.actor_core.specs.Turns.{IsPolled};
ghost use Rattle.host_core.specs.Jobs.{host_meaning};

use crate::job::HostJob;
use base_jobs::{Post, Ran, Step, Task};
use base_words::{CoreNo, Order, Outcome, SendError, Ticket, TicketError};

/// What a run came to. The job of that run asks for it, and is told once.
#[derive(Drop)]
pub struct Word {
    pub step: Step<u64>,
    pub asked: Option<Ticket>,
    // Jobs of a host share nothing.
    local: (),
}

impl Post<HostJob, u64> for Word {
    ghost use Rattle.host_core.specs.Words.{word_notes, SaysOnce};

    ghost notes = { word_notes };

    ghost Waits = { λ _ _. ⊥ };

    ghost Does = { SaysOnce };

    fn submit(&mut self, to: CoreNo, order: Order<HostJob>) -> Result<Ticket, SendError<HostJob>>
        requires { HasReadyJob ⟦<HostJob as Task>⟧.meaning order }
        ensures noted { NotesSubmit (word_notes self.old) to order result (word_notes self.new) }
        ensures same { self.new ≡ self.old }
    {
        let _core = to;
        Err(SendError::NoCore(order))
    }

    fn redeem(&mut self, ticket: Ticket) -> Result<Outcome<HostJob, u64>, TicketError> {
        match (self.step, self.asked) {
            (Step::Yield, _) => Err(TicketError::Pending),
            (Step::Park, _) => Err(TicketError::Unknown),
            (Step::Done(_), Some(_)) => Err(TicketError::Gone),
            (Step::Done(answer), None) => {
                self.asked = Some(ticket);
                Ok(Outcome::Finished(answer))
            }
        }
    }

    fn detach(&mut self, ticket: Ticket) -> Result<(), TicketError>
        ensures noted { NotesDetach (word_notes self.old) ticket result (word_notes self.new) }
        ensures same { self.new ≡ self.old }
    {
        let _name = ticket;
        Err(TicketError::Unknown)
    }

    fn local(&mut self) -> &mut () {
        &mut self.local
    }
}

/// Polls a job whose run came to this step.
#[tactic(auto, using(crate::proofs::Asked::told_step))]
pub fn poll_told(job: HostJob, step: Step<u64>) -> Ran<HostJob>
    requires { job.ended ≡ false }
    ensures before { result.before ≡ job }
    ensures step { result.step ≡ step }
    ensures told { result.told ≡ None }
    ensures polled { IsPolled host_meaning result }
    ensures same { IfUndone result.step (job.handle ≡ result.job.handle) }
{
    let mut word = Word {
        step,
        asked: None,
        local: (),
    };
    Ran::poll(job, &mut word)
}
