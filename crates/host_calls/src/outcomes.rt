//! What became of a submission, as a struct of C.

ghost use Rattle.std.specs.Prelude.{◌≡◌};
ghost use Rattle.host_calls.specs.Outcomes.{answer_number, answer_told, back_told, code_of_outcome, outcome_of, outcome_told, queue_made};

use crate::code::{Code, code_of};
use crate::turns::number_of_reason;
use base_words::{Answer, Order, Outcome, Reason};
use host_core::{HostJob, Refusal};

/// An outcome, as `fx_outcome` of the header has it.
#[repr(C)]
#[derive(Clone, Copy)]
pub struct OutcomeTold {
    /// The caller tells how many bytes the struct has.
    pub size: u32,
    pub kind: u32,
    pub why: u32,
    pub queue: u32,
    pub answer: u64,
    pub job: u64,
}

/// The bytes of `fx_outcome`.
pub(crate) const OUTCOME_SIZE: u32 = 32;

/// Tells an outcome, or why there is none.
pub(crate) fn tell(redeemed: Result<Outcome<HostJob, u64>, Refusal>, told: &mut OutcomeTold) -> Code
    ensures code { result ≡ code_of_outcome redeemed }
    ensures told { told.new ≡ outcome_told redeemed told.old }
{
    match redeemed {
        Ok(outcome) => {
            *told = numbers_of(outcome);
            Code::Ok
        }
        Err(refusal) => code_of(refusal),
    }
}

/// An outcome in numbers.
fn numbers_of(outcome: Outcome<HostJob, u64>) -> OutcomeTold
    ensures { result ≡ outcome_of outcome }
{
    match outcome {
        Outcome::Finished(answer) => OutcomeTold {
            size: OUTCOME_SIZE,
            kind: 0,
            why: 0,
            queue: 0,
            answer,
            job: 0,
        },
        Outcome::Returned(reason, order) => numbers_of_back(reason, order),
        Outcome::Answered(answer) => numbers_of_answer(answer),
    }
}

/// A job that comes back, in numbers.
fn numbers_of_back(reason: Reason, order: Order<HostJob>) -> OutcomeTold
    ensures { result ≡ back_told reason order }
{
    let why = number_of_reason(reason);
    let (queue, job) = match order {
        Order::Job(queue, job) => (u32::from(queue.0), job.handle),
        _ => (0, 0),
    };
    OutcomeTold {
        size: OUTCOME_SIZE,
        kind: 1,
        why,
        queue,
        answer: 0,
        job,
    }
}

/// What an order that is no job was answered, in numbers.
fn numbers_of_answer(answer: Answer) -> OutcomeTold
    ensures { result ≡ answer_told answer }
{
    OutcomeTold {
        size: OUTCOME_SIZE,
        kind: 2,
        why: number_of_answer(&answer),
        queue: made(&answer),
        answer: 0,
        job: 0,
    }
}

/// The queue that was made, or 0.
fn made(answer: &Answer) -> u32
    ensures { result ≡ queue_made answer.now }
{
    match answer {
        Answer::Created(queue) => u32::from(queue.0),
        _ => 0,
    }
}

/// The number of an answer, as `enum fx_answer` of the header has it.
fn number_of_answer(answer: &Answer) -> u32
    ensures { result ≡ answer_number answer.now }
{
    match answer {
        Answer::Created(_) => 0,
        Answer::TooMany => 1,
        Answer::NoMemory => 2,
        Answer::CoreClosing => 3,
        Answer::SharesSet => 4,
        Answer::NoQueue => 5,
        Answer::Closed => 6,
        Answer::AlreadyClosed => 7,
        Answer::Woken => 8,
        Answer::NoJob => 9,
    }
}
