//! Outcomes on their way back: what a delivery or a settled poll came to, given on the end of its sender.

ghost use Rattle.std.specs.Prelude.{◌≡◌, IfSome};
ghost use Rattle.link_ends.specs.Calls.{MayGive};
ghost use Rattle.link_ends.specs.Fits.{Fits};
ghost use Rattle.actor_core.specs.Deliveries.{outcome_delivered};
ghost use Rattle.actor_core.specs.Ends.{Gives};
ghost use Rattle.actor_core.specs.Owed.{outcome_settled};

use base_jobs::Task;
use base_words::Outcome;
use core_core::{Delivered, Settled};
use link_ends::InEnd;

/// The outcome of a delivery, if it has one yet.
#[inline(always)]
pub(crate) fn outcome_of<J: Task<Out = u64>>(delivered: Delivered<J>) -> Option<Outcome<J, u64>>
    ensures { result ≡ outcome_delivered delivered }
{
    match delivered {
        Delivered::Took => None,
        Delivered::Back(reason, order) => Some(Outcome::Returned(reason, order)),
        Delivered::Answered(answer) => Some(Outcome::Answered(answer)),
    }
}

/// The outcome of a settled poll, if the job is done.
#[inline(always)]
pub(crate) fn outcome_done<J: Task<Out = u64>>(settled: &Settled<u64>) -> Option<Outcome<J, u64>>
    ensures { result ≡ outcome_settled settled.now }
{
    match settled {
        Settled::Yielded | Settled::Parked | Settled::Stayed => None,
        Settled::Finished(answer) => Some(Outcome::Finished(*answer)),
    }
}

/// Gives an outcome on this end, if there is one.
#[inline(always)]
pub(crate) fn give_if<J: Task<Out = u64>, I: InEnd<J>>(
    end: &mut I,
    number: u64,
    outcome: Option<Outcome<J, u64>>,
)
    requires { IfSome outcome (λ outcome. MayGive (Fits J.meaning) (I.inward end.old) number outcome) }
    ensures gives { Gives (I.inward end.old) number outcome (I.inward end.new) }
    ensures untouched { I.untouched end.new ≡ I.untouched end.old }
{
    if let Some(outcome) = outcome {
        end.give(number, outcome);
    }
}
