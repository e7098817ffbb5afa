//! The job that is out.
ghost use Rattle.std.specs.Prelude.{◌≡◌, is_some};
ghost use Rattle.base_words.specs.Names.{is_number};
ghost use Rattle.core_core.specs.State.{queue_out};
ghost use Rattle.core_core.specs.Bursts.{held_by};
ghost use Rattle.core_core.specs.Inside.{job_out};

use crate::bursts::Bursts;
use base_words::{JobId, QueueNo};
use std::snapshot::Snapshot;

/// The job that is out: its name, its queue, whether a wake of it is kept, and, for proofs alone, the job as it was when it left.
#[derive(Drop)]
pub struct Out<J> {
    pub name: JobId,
    pub queue: QueueNo,
    pub woken: bool,
    pub job: Snapshot<J>,
}

/// Whether a job of this queue is out.
pub(crate) fn is_of_queue<J>(out: &Option<Out<J>>, queue: QueueNo) -> bool
    ensures { result ≡ is_number queue (queue_out (job_out out.now)) }
{
    match out {
        Some(out) => queue == out.queue,
        None => false,
    }
}

/// Whether a job is out, or a turn is open.
pub(crate) fn is_busy<J>(out: &Option<Out<J>>, bursts: &Bursts) -> bool
    ensures { result ≡ is_some (held_by (job_out out.now) bursts.now.open) }
{
    out.is_some() || bursts.open.is_some()
}
