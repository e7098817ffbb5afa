//! What a house that has ended tells: the verdict of an audit, as a struct of C, and the text of the journals.

ghost use Rattle.std.specs.Prelude.{◌≡◌};
ghost use Rattle.host_calls.specs.Verdicts.{AuditsTold, JudgesTold, ReadsTold, WaitsTold, code_of_text, count_read, verdict_told};

use crate::code::Code;
use crate::member::Member;
use host_text::{EndedHouse, JudgeError, TextError};
use judge_audit::Verdict;
use std::alloc::Global;

/// A verdict, as `fx_verdict` of the header has it.
#[repr(C)]
#[derive(Clone, Copy)]
pub struct VerdictTold {
    /// The caller tells how many bytes the struct has.
    pub size: u32,
    pub sound: u32,
    pub rule: u32,
    pub actor: u32,
    pub line: u64,
}

/// The bytes of `fx_verdict`.
const VERDICT_SIZE: u32 = 24;

impl Member {
    /// Audits the journals of the house, once all are handed in.
    pub fn audit(&mut self, alloc: Global, verdict: &mut VerdictTold) -> Code
        ensures { AuditsTold self.old verdict.old result verdict.new self.new }
    {
        match self {
            Member::House(_) => waits(verdict),
            Member::Ended(ended) => judge(alloc, ended, verdict),
            Member::Core(_) | Member::Outside(_) | Member::Sleepers(_) => Code::Empty,
        }
    }

    /// Copies the text of the journals from this byte on, as much as there is room for, and tells how much that was.
    pub fn read(&mut self, alloc: Global, from: u64, bytes: &mut [u8], count: &mut u64) -> Code
        ensures { ReadsTold self.old from bytes.old count.old result self.new bytes.new count.new }
    {
        match self {
            Member::House(_) => Code::Pending,
            Member::Ended(ended) => tell_read(ended.read(alloc, from, bytes), count),
            Member::Core(_) | Member::Outside(_) | Member::Sleepers(_) => Code::Empty,
        }
    }
}

/// A journal is missing.
fn waits(verdict: &VerdictTold) -> Code
    ensures { WaitsTold verdict.now result }
{
    if verdict.size != VERDICT_SIZE {
        Code::BadNumber
    } else {
        Code::Pending
    }
}

/// Audits journals, and tells the verdict.
fn judge(alloc: Global, ended: &EndedHouse, verdict: &mut VerdictTold) -> Code
    ensures { JudgesTold ended.now verdict.old result verdict.new }
{
    if verdict.size != VERDICT_SIZE {
        return Code::BadNumber;
    }
    match ended.audit(alloc) {
        Ok(found) => {
            *verdict = told(found);
            Code::Ok
        }
        Err(JudgeError::Parted) => Code::PassedOn,
        Err(JudgeError::Memory) => Code::NoMemory,
    }
}

/// Tells how much was read, or why nothing was.
fn tell_read(read: Result<u64, TextError>, count: &mut u64) -> Code
    ensures code { result ≡ code_of_text read }
    ensures count { count.new ≡ count_read read count.old }
{
    match read {
        Ok(bytes) => {
            *count = bytes;
            Code::Ok
        }
        Err(TextError::Mixed) => Code::Mixed,
        Err(TextError::Memory) => Code::NoMemory,
    }
}

/// A verdict in numbers.
fn told(verdict: Verdict) -> VerdictTold
    ensures { result ≡ verdict_told verdict }
{
    match verdict {
        Verdict::Sound => VerdictTold {
            size: VERDICT_SIZE,
            sound: 1,
            rule: 0,
            actor: 0,
            line: 0,
        },
        Verdict::Fault { actor, line, rule } => VerdictTold {
            size: VERDICT_SIZE,
            sound: 0,
            rule: u32::from(rule),
            actor: u32::from(actor.0),
            line: line as u64,
        },
    }
}
