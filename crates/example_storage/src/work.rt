//! The jobs of this program, as one type: it needs no box, and a contract knows its answers.

ghost use Rattle.std.specs.Prelude.{◌≡◌, false};

use crate::table::Table;
use duthlwyran::{Job, Post, Step, Task};

/// What is submitted to a core.
#[derive(Drop)]
pub enum StoreJob {
    /// In the foreground: the value of a key, in one poll.
    Read { key: u32 },
    /// In the background: so many blocks are merged, one in each poll.
    Compact { blocks: u32, left: u32 },
    /// In the foreground: a key is written into the table of its core, and the job parks until it is woken, since another core has the key too.
    Commit { key: u32, is_written: bool },
    /// In the foreground: a key is leased for so many nanoseconds. The answer is 1 if the lease ran out, and 0 if it was given back.
    Lease { key: u32, time: u64, is_held: bool },
    /// In the foreground: a lease is given back. The answer is 1 if it hadn't run out.
    GiveBack { key: u32 },
    /// It has answered.
    Ended,
}

// What the work answers and how long it sleeps stand in specs/Answers.antt. The rest of this block, except `sleeps`, is the same for each
// such enum that submits nothing itself.
impl Task for StoreJob {
    ghost use Rattle.duthlwyran.specs.Jobs.{answering_meaning, answering_laws};
    ghost use Rattle.example_storage.specs.Answers.{MayAnswer, is_ended, sleep_of};

    type Out = u64;

    type Local = Table;

    ghost meaning = { answering_meaning is_ended MayAnswer };

    ghost laws = { answering_laws is_ended MayAnswer };

    ghost sleeps = { sleep_of };

    fn is_done(&self) -> bool {
        matches!(self, StoreJob::Ended)
    }

    fn told(&self) -> Option<u64> {
        None
    }

    fn sleeps(&self) -> Option<u64> {
        match self {
            StoreJob::Lease { time, .. } => Some(*time),
            _ => None,
        }
    }
}

impl Job for StoreJob {
    fn poll<P: Post<Self, u64>>(&mut self, post: &mut P) -> Step<u64> {
        let answer = match self {
            StoreJob::Read { key } => {
                let table = post.local();
                table.reads = table.reads.saturating_add(1);
                *key as u64 * *key as u64
            }
            StoreJob::Compact { blocks, left } => {
                if *left > 0 {
                    *left -= 1;
                    return Step::Yield;
                }
                *blocks as u64
            }
            StoreJob::Commit { key, is_written } => {
                if !*is_written {
                    *is_written = post.local().keys.push(*key).is_ok();
                    return if *is_written { Step::Park } else { Step::Yield };
                }
                *key as u64
            }
            StoreJob::Lease { key, is_held, .. } => {
                let leased = &mut post.local().leased;
                if !*is_held {
                    *is_held = matches!(leased.insert(*key), Ok(true));
                    return if *is_held { Step::Park } else { Step::Yield };
                }
                // It was woken, or its time came. If the key is still here, nobody gave it back.
                leased.remove(&*key) as u64
            }
            StoreJob::GiveBack { key } => post.local().leased.remove(&*key) as u64,
            StoreJob::Ended => return Step::Yield,
        };
        *self = StoreJob::Ended;
        Step::Done(answer)
    }
}
