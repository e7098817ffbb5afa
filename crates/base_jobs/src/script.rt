//! A job whose polls are written down.

ghost use Rattle.std.specs.Prelude.{◌≡◌, ◌∷◌, [], ◌↔◌, length, Some, IsSome, IfSome};
ghost use Rattle.base_jobs.specs.declared.poll.Early.TheVariants.{Submits};
ghost use Rattle.base_jobs.specs.declared.poll.Poll.TheVariants.{Done};
ghost use Rattle.base_jobs.specs.Scripts.{IsScript, Posts, step_of};

use crate::job::{Job, Step, Task};
use crate::poll::{Early, Poll, Yielding};
use crate::post::Post;
use arrayvec::ArrayVec;
use base_words::{CoreNo, Order, QueueNo};
use std::marker::Model;

mod fill;

/// The most polls of a script job.
pub const MOST_POLLS: usize = 64;

/// The most polls of a script job that yield: all but the last.
const MOST_YIELDS: usize = 63;

/// A job whose polls are written down: some that yield or are parked, then one that is done with a number.
///
/// A contract sees the list of its polls, and how many of them were made. Each poll tells its own time.
/// The last poll stands by itself, so that the answer is stored once.
#[derive(PartialEq, Eq, Drop)]
pub struct ScriptJob {
    yields: ArrayVec<Yielding, MOST_YIELDS>,
    last_told: u64,
    answer: u64,
    polled: usize,
}

impl Model for ScriptJob {
    ghost use Rattle.std.specs.Prelude.{◌≤◌, length};
    ghost use Rattle.base_jobs.specs.Scripts.{Script, script_polls};
    ghost use Rattle.base_jobs.specs.Kept.{kept_yields, last_time, last_value, kept_yields-script_polls, last_time-script_polls, last_value-script_polls};

    ghost Value = { Script };

    ghost view = { λ job. record { polls = script_polls job.yields.items job.last_told job.answer; polled = job.polled } };

    ghost invariant = { λ job. job.polled ≤ length (script_polls job.yields.items job.last_told job.answer) };

    ghost inverse = { λ script. record {
      yields = record { items = kept_yields script.polls };
      last_told = last_time script.polls;
      answer = last_value script.polls;
      polled = script.polled;
    } };

    ghost inverse_ok = { λ job within i. record {
      yields = record { items = kept_yields-script_polls job.yields.items job.last_told job.answer i };
      last_told = last_time-script_polls job.yields.items job.last_told job.answer i;
      answer = last_value-script_polls job.yields.items job.last_told job.answer i;
      polled = job.polled;
    } };
}

impl ScriptJob {
    /// A job of one poll, which tells the time in nanoseconds and is done with the value.
    pub fn done(told: u64, value: u64) -> ScriptJob
        ensures polls { result.polls ≡ Done told value ∷ [] }
        ensures fresh { result.polled ≡ 0 }
    {
        ScriptJob {
            yields: ArrayVec::new(),
            last_told: told,
            answer: value,
            polled: 0,
        }
    }

    /// The job of these polls, or None where they are none: they are 1 to 64, and exactly the last one is done.
    pub fn try_new(polls: &[Poll]) -> Option<ScriptJob>
        ensures script { IsSome result ↔ IsScript polls.now }
        ensures polls { IfSome result (λ job. job.polls ≡ polls.now) }
        ensures fresh { IfSome result (λ job. job.polled ≡ 0) }
    {
        let (last, early) = polls.split_last()?;
        let Poll::Done(last_told, answer) = *last else {
            return None;
        };
        if early.len() > MOST_YIELDS {
            return None;
        }
        let mut yields = ArrayVec::new();
        for poll in early {
            let kept = match *poll {
                Poll::Yield(told) => Yielding {
                    told,
                    does: Early::Yields,
                },
                Poll::Submit(told, core, queue) => Yielding {
                    told,
                    does: Early::Submits(core, queue),
                },
                Poll::Park(told) => Yielding {
                    told,
                    does: Early::Parks,
                },
                Poll::Done(_, _) => return None,
            };
            yields.push(kept);
        }
        Some(ScriptJob {
            yields,
            last_told,
            answer,
            polled: 0,
        })
    }

    /// How many polls it has, those made counted too: 1 to 64.
    pub fn poll_count(&self) -> usize
        ensures count { result ≡ length self.now.polls }
        ensures script { IsScript self.now.polls }
    {
        self.yields.len() + 1
    }
}

impl Task for ScriptJob {
    ghost use Rattle.base_jobs.specs.ScriptMeaning.{script_meaning, script_laws};

    type Out = u64;

    type Local = ();

    ghost meaning = { script_meaning };

    ghost laws = { script_laws };

    fn is_done(&self) -> bool {
        self.polled > self.yields.len()
    }

    fn told(&self) -> Option<u64> {
        if self.polled == 0 {
            None
        } else if self.polled <= self.yields.len() {
            let place = self.polled - 1;
            Some(self.yields[place].told)
        } else {
            Some(self.last_told)
        }
    }
}

impl Job for ScriptJob {
    fn poll<P: Post<Self, u64>>(&mut self, post: &mut P) -> Step<u64> {
        let yields = self.yields.len();
        let place = self.polled;
        self.polled = place + 1;
        if place >= yields {
            return Step::Done(self.answer);
        }
        let yielding = self.yields[place];
        post_as(yielding.does, post);
        yielding.does.step()
    }
}

impl Early {
    /// What the poll comes to.
    fn step(self) -> Step<u64>
        ensures { result ≡ step_of self }
    {
        match self {
            Early::Parks => Step::Park,
            _ => Step::Yield,
        }
    }
}

/// What a poll that isn't the last one does at its post: nothing, or it sends the small job.
fn post_as<P: Post<ScriptJob, u64>>(does: Early, post: &mut P)
    ensures posts { Posts P.Does does post.old post.new }
{
    if let Early::Submits(core, queue) = does {
        send_small(core, queue, post);
    }
}

/// Submits the job `d1=0` to this queue of this core, and detaches it if it is accepted.
fn send_small<P: Post<ScriptJob, u64>>(core: CoreNo, queue: QueueNo, post: &mut P)
    ensures posts { Posts P.Does (Submits core queue) post.old post.new }
{
    let order = Order::Job(queue, ScriptJob::done(1, 0));
    if let Ok(ticket) = post.submit(core, order) {
        let _detached = post.detach(ticket);
    }
}
