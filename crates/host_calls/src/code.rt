//! What a call came to, and the number by which the host knows it.

ghost use Rattle.std.specs.Prelude.{◌≡◌};
ghost use Rattle.host_calls.specs.Codes.{code_of_refusal, number_of};

use host_core::Refusal;

/// What a call came to. hosts/c/fairexec.h tells of each when it is answered.
#[derive(Clone, Copy, PartialEq, Eq, Debug)]
pub enum Code {
    Ok,
    Start,
    Resume,
    Done,
    Back,
    Idle,
    Spent,
    Busy,
    NoJob,
    Full,
    NoMemory,
    BadShares,
    Empty,
    NoQueue,
    /// The queue is closed.
    QueueClosed,
    /// The core is closed, or the gate of a link is shut. The host knows all three by one number.
    CoreClosed,
    TooMany,
    BadNumber,
    Occupied,
    /// The job parks. One that stays in its queue is told as `Ok`.
    Parked,
    /// No job of this number is inside, or no seat is left.
    Absent,
    JournalFull,
    UnknownCore,
    NoActor,
    Unknown,
    Gone,
    Pending,
    Open,
    Shut,
    NotDrained,
    Mixed,
    /// The buffer is too short for the text.
    Short,
    /// Notes were passed on, so the journals of the house lack them.
    PassedOn,
}

/// The number of a code, as `enum fx_code` of the header has it.
pub fn number(code: Code) -> u32
    ensures { result ≡ number_of code }
{
    match code {
        Code::Ok => 0,
        Code::Start => 1,
        Code::Resume => 2,
        Code::Done => 3,
        Code::Back => 4,
        Code::Idle => 5,
        Code::Spent => 6,
        Code::Busy => 7,
        Code::NoJob => 8,
        Code::Full => 9,
        Code::NoMemory => 10,
        Code::BadShares => 11,
        Code::Empty => 12,
        Code::NoQueue => 13,
        Code::QueueClosed | Code::CoreClosed => 14,
        Code::TooMany => 15,
        Code::BadNumber => 16,
        Code::Occupied => 17,
        Code::Parked => 18,
        Code::Absent => 19,
        Code::JournalFull => 20,
        Code::UnknownCore => 21,
        Code::NoActor => 22,
        Code::Unknown => 23,
        Code::Gone => 24,
        Code::Pending => 25,
        Code::Open => 26,
        Code::Shut => 27,
        Code::NotDrained => 28,
        Code::Mixed => 29,
        Code::Short => 30,
        Code::PassedOn => 31,
    }
}

/// The code of a refusal.
pub(crate) fn code_of(refusal: Refusal) -> Code
    ensures { result ≡ code_of_refusal refusal }
{
    match refusal {
        Refusal::Busy => Code::Busy,
        Refusal::NoJob => Code::NoJob,
        Refusal::JournalFull => Code::JournalFull,
        Refusal::NoCore => Code::UnknownCore,
        Refusal::NoActor => Code::NoActor,
        Refusal::Closed(_) => Code::CoreClosed,
        Refusal::Full => Code::Full,
        Refusal::Spent => Code::Spent,
        Refusal::Unknown => Code::Unknown,
        Refusal::Gone => Code::Gone,
        Refusal::Pending => Code::Pending,
        Refusal::Open => Code::Open,
        Refusal::Shut => Code::Shut,
        Refusal::NotDrained => Code::NotDrained,
    }
}
