//! Turns of a core: which job the host is to run, and what the run came to.

ghost use Rattle.std.specs.Prelude.{◌≡◌, ◌↔◌, IsTrue};
ghost use Rattle.host_calls.specs.Turns.{IsSettled, NextsTold, SettlesTold, StepsTold, code_of_picked, code_of_settled, reason_number, step_of, turn_told};

use crate::code::{Code, code_of};
use crate::names::{Name, told};
use base_jobs::Step;
use base_words::{JobId, QueueNo, Reason};
use core_core::Settled;
use host_core::{Hosted, Picked, Refusal};

/// A turn, as `fx_turn` of the header has it.
#[repr(C)]
#[derive(Clone, Copy)]
pub struct TurnTold {
    /// The caller tells how many bytes the struct has.
    pub size: u32,
    pub queue: u32,
    pub name: Name,
    pub job: u64,
    pub reason: u32,
    pub zero: u32,
}

/// The bytes of `fx_turn`.
const TURN_SIZE: u32 = 40;

/// Makes the next turn of the core, and tells it.
pub(crate) fn next(core: &mut Hosted, turn: &mut TurnTold) -> Code
    ensures { NextsTold core.old turn.old result turn.new core.new }
{
    if turn.size != TURN_SIZE {
        return Code::BadNumber;
    }
    tell(core.next(), turn)
}

/// Tells a turn.
fn tell(picked: Result<Picked, Refusal>, turn: &mut TurnTold) -> Code
    ensures code { result ≡ code_of_picked picked }
    ensures turn { turn.new ≡ turn_told picked turn.old }
{
    match picked {
        Ok(Picked::Start(name, queue, job)) => {
            *turn = run_told(name, queue, job);
            Code::Start
        }
        Ok(Picked::Resume(name, queue, job)) => {
            *turn = run_told(name, queue, job);
            Code::Resume
        }
        Ok(Picked::Back(name, reason)) => {
            *turn = back_told(name, reason);
            Code::Back
        }
        Ok(Picked::Idle) => Code::Idle,
        Err(refusal) => code_of(refusal),
    }
}

/// The host is to run this job.
fn run_told(name: JobId, queue: QueueNo, job: u64) -> TurnTold
    ensures { result ≡ record { size = 40; queue = queue; name = record { number = name.number; from = name.from; to = name.to }; job = job; reason = 0; zero = 0 } }
{
    TurnTold {
        size: TURN_SIZE,
        queue: u32::from(queue.0),
        name: told(name),
        job,
        reason: 0,
        zero: 0,
    }
}

/// This job went back to its sender.
fn back_told(name: JobId, reason: Reason) -> TurnTold
    ensures { result ≡ record { size = 40; queue = 0; name = record { number = name.number; from = name.from; to = name.to }; job = 0; reason = reason_number reason; zero = 0 } }
{
    TurnTold {
        size: TURN_SIZE,
        queue: 0,
        name: told(name),
        job: 0,
        reason: number_of_reason(reason),
        zero: 0,
    }
}

/// The number of a reason, as `enum fx_reason` of the header has it.
pub(crate) fn number_of_reason(reason: Reason) -> u32
    ensures { result ≡ reason_number reason }
{
    match reason {
        Reason::NoQueue => 0,
        Reason::QueueClosed => 1,
        Reason::CoreClosing => 2,
        Reason::QueueReturned => 3,
        Reason::CoreReturned => 4,
    }
}

/// Settles the run of the job that is out. It took `spent` nanoseconds.
pub(crate) fn settle(core: &mut Hosted, step: u32, answer: u64, spent: u64) -> Code
    ensures { SettlesTold core.old (step_of step answer) spent result core.new }
{
    let Some(step) = step_numbered(step, answer) else {
        return Code::BadNumber;
    };
    tell_settled(core.settle(step, spent))
}

/// The code of a settled run.
fn tell_settled(settled: Result<Settled<u64>, Refusal>) -> Code
    ensures { result ≡ code_of_settled settled }
{
    match settled {
        Ok(Settled::Yielded) => Code::Ok,
        Ok(Settled::Parked) => Code::Parked,
        Ok(Settled::Stayed) => Code::Ok,
        Ok(Settled::Finished(_)) => Code::Done,
        Err(refusal) => code_of(refusal),
    }
}

/// Settles the run of the job that is out, and makes the next turn of the core. If the run isn't settled, that is told, and no turn is made.
pub(crate) fn settle_and_next(
    core: &mut Hosted,
    step: u32,
    answer: u64,
    spent: u64,
    turn: &mut TurnTold,
) -> Code
    ensures { StepsTold core.old (step_of step answer) spent turn.old result turn.new core.new }
{
    if turn.size != TURN_SIZE {
        return Code::BadNumber;
    }
    let settled = settle(core, step, answer, spent);
    if !is_settled(settled) {
        return settled;
    }
    next(core, turn)
}

/// Whether this is told of a run that was settled.
fn is_settled(code: Code) -> bool
    ensures { IsTrue result ↔ IsSettled code }
{
    matches!(code, Code::Ok | Code::Parked | Code::Done)
}

/// The step of this number, with the answer of a job that is done.
pub fn step_numbered(number: u32, answer: u64) -> Option<Step<u64>>
    ensures { result ≡ step_of number answer }
{
    match number {
        0 => Some(Step::Yield),
        1 => Some(Step::Done(answer)),
        2 => Some(Step::Park),
        _ => None,
    }
}
