//! What calls answer.

use base_words::{JobId, QueueNo, Reason};

/// What `next` came to.
#[derive(Clone, Copy)]
pub enum Picked {
    /// The host is to run this job for the first time: its name, its queue and the host's number of it.
    Start(JobId, QueueNo, u64),
    /// The host is to run this job again.
    Resume(JobId, QueueNo, u64),
    /// This job was handed back to its sender.
    Back(JobId, Reason),
    /// No queue has work.
    Idle,
}

/// Why a call was refused. Nothing changed.
#[derive(Clone, Copy)]
pub enum Refusal {
    /// The host runs a job of this core: it is to be settled first.
    Busy,
    /// The host runs no job of this core.
    NoJob,
    /// The journal has too few notes free for the call.
    JournalFull,
    /// There is no such core.
    NoCore,
    /// There is no such actor.
    NoActor,
    /// The gate is shut. The number is that of the last order that was accepted.
    Closed(u64),
    /// As many submissions are outstanding as may be.
    Full,
    /// The last number was given, or the last turn was made.
    Spent,
    /// The ticket is another actor's, names no core, or has a number that was never given.
    Unknown,
    /// It was redeemed or detached before.
    Gone,
    /// Its outcome isn't collected yet.
    Pending,
    /// The core isn't closed.
    Open,
    /// The gate was shut before.
    Shut,
    /// The core isn't drained, or a job of it runs, or a turn of it is open.
    NotDrained,
}
