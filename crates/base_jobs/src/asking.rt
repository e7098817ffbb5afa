//! Jobs of which nothing is told and that ask their post. What they submit, keep and redeem takes no proof file.
//!
//! `Asks` is such a job, and `poll_asking` is the body of its `Job::poll`. The three calls are those of a post.
//! Each is lent the post as it was when the poll began, since a contract counts the calls from there.

ghost use Rattle.std.specs.Prelude.{◌≡◌, [], ◌∷◌, false, None, IfErr};
ghost use Rattle.base_jobs.specs.Asking.{MakesSome, RedeemsAs, detached_calls};
ghost use Rattle.base_jobs.specs.Calls.Call.{Submit};
ghost use Rattle.base_jobs.specs.Calls.{Makes};
ghost use Rattle.base_jobs.specs.Plain.{plain_meaning};
ghost use Rattle.base_jobs.specs.Posts.{order_back};
ghost use Rattle.base_jobs.specs.Ready.{HasReadyJob};
ghost use Rattle.base_jobs.specs.Steps.{OwesAt, is_done_step};
ghost use Rattle.base_jobs.specs.declared.job.Step.{Step};

use crate::job::{Step, Task};
use crate::post::Post;
use base_words::{CoreNo, JobId, Order, Outcome, SendError, Ticket, TicketError};
use std::snapshot::Snapshot;

/// A job whose meaning is `plain_meaning`, and that asks its post.
pub trait Asks: Task {
    /// The steps that its next poll may come to. A job that doesn't say may come to any.
    ghost steps: { Self → Step Self.Out → Type 0 } = { λ _ _. Unit {0} };

    /// One poll. `begun` is the post as it was when the poll began.
    fn ask<P: Post<Self, Self::Out>>(
        &mut self,
        begun: &Snapshot<P>,
        post: &mut P,
    ) -> Step<Self::Out>
        requires open { Self.meaning.done self.old ≡ false }
        requires some { MakesSome P.Does begun.now.value post.old }
        ensures steps { steps self.old result }
        ensures done { Self.meaning.done self.new ≡ is_done_step result }
        ensures some { MakesSome P.Does begun.now.value post.new };
}

/// Polls such a job once. It is the body of its `Job::poll`.
pub fn poll_asking<J: Asks, P: Post<J, J::Out>>(job: &mut J, post: &mut P) -> Step<J::Out>
    requires open { J.meaning.done job.old ≡ false }
    ensures owed { OwesAt (plain_meaning J.meaning.done) P.Does job.old post.old post.new result None }
    ensures steps { J.steps job.old result }
    ensures done { J.meaning.done job.new ≡ is_done_step result }
{
    let begun = Snapshot::of(&*post);
    job.ask(&begun, post)
}

/// Submits an order. Its ticket is for the job to keep, until it redeems or detaches it.
///
/// # Errors
///
/// As `Post::submit`. The order comes back.
pub fn submit_and_keep<J: Task, P: Post<J, J::Out>>(
    begun: &Snapshot<P>,
    post: &mut P,
    to: CoreNo,
    order: Order<J>,
) -> Result<Ticket, SendError<J>>
    requires ready { HasReadyJob J.meaning order }
    requires some { MakesSome P.Does begun.now.value post.old }
    ensures calls { Makes P.Does (Submit to order result ∷ []) post.old post.new }
    ensures back { IfErr result (λ error. order_back error ≡ order) }
    ensures some { MakesSome P.Does begun.now.value post.new }
{
    post.submit(to, order)
}

/// Submits an order whose outcome nobody asks for. It answers the order's name.
///
/// # Errors
///
/// As `Post::submit`. The order comes back.
pub fn submit_and_detach<J: Task, P: Post<J, J::Out>>(
    begun: &Snapshot<P>,
    post: &mut P,
    to: CoreNo,
    order: Order<J>,
) -> Result<JobId, SendError<J>>
    requires ready { HasReadyJob J.meaning order }
    requires some { MakesSome P.Does begun.now.value post.old }
    ensures calls { Makes P.Does (detached_calls to order result) post.old post.new }
    ensures back { IfErr result (λ error. order_back error ≡ order) }
    ensures some { MakesSome P.Does begun.now.value post.new }
{
    match post.submit(to, order) {
        Ok(ticket) => {
            let _detached = post.detach(ticket);
            Ok(ticket.name())
        }
        Err(error) => Err(error),
    }
}

/// What a ticket came to.
#[derive(Drop)]
pub enum Redeemed<J, T> {
    /// Its outcome. The ticket is used up.
    There(Outcome<J, T>),
    /// The outcome hasn't come back yet. The ticket stays good.
    NotYet,
    /// No outcome will come: it was redeemed or detached before, or it is no ticket of this actor.
    Gone,
}

/// The outcome of a submission, if it is there.
pub fn redeem_if_there<J: Task, P: Post<J, J::Out>>(
    begun: &Snapshot<P>,
    post: &mut P,
    ticket: Ticket,
) -> Redeemed<J, J::Out>
    requires some { MakesSome P.Does begun.now.value post.old }
    ensures calls { RedeemsAs P.Does ticket result post.old post.new }
    ensures some { MakesSome P.Does begun.now.value post.new }
{
    match post.redeem(ticket) {
        Ok(outcome) => Redeemed::There(outcome),
        Err(TicketError::Pending) => Redeemed::NotYet,
        Err(TicketError::Gone) => Redeemed::Gone,
        Err(TicketError::Unknown) => Redeemed::Gone,
    }
}
