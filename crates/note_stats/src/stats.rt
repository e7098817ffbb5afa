//! The statistics of a journal, each by a call of its own.
//!
//! Each call reads the journal once. Who asks for many queues reads it once for all by `Sums`.
//!
//! The burst tells how many polls a turn may have: 0 and 1 mean that each poll is a turn, and more that a note of its own ends a turn.

ghost use Rattle.std.specs.Prelude.{◌≡◌, ◌↔◌, IfOk, IsTrue};
ghost use Rattle.base_words.specs.Closing.{IsDrained};
ghost use Rattle.base_words.specs.Lag.{greatest_charge};
ghost use Rattle.note_stats.specs.Places.{gained_between};
ghost use Rattle.base_words.specs.Stats as spec;

use crate::sums::Sums;
use base_words::{CoreStats, QueueNo, QueueStats};
use note_journal::Journal;
use std::alloc::{AllocError, Global};

/// The statistics of a queue, if there is such a queue. Times are nanoseconds.
///
/// # Errors
///
/// `AllocError` for want of memory.
pub fn queue_stats(
    alloc: Global,
    journal: &Journal<u64>,
    queue: QueueNo,
    burst: u8,
) -> Result<Option<QueueStats>, AllocError>
    ensures { IfOk result (λ stats. stats ≡ spec.queue_stats burst queue journal.now.notes) }
{
    Ok(Sums::of(alloc, journal, burst)?.queue_stats(queue))
}

/// The statistics of a core, in a house of so many cores.
///
/// # Errors
///
/// `AllocError` for want of memory.
pub fn core_stats(alloc: Global, journal: &Journal<u64>, cores: u8) -> Result<CoreStats, AllocError>
    ensures core { IfOk result (λ stats. stats ≡ spec.core_stats stats.drained journal.now.notes) }
    ensures drained { IfOk result (λ stats. IsTrue stats.drained ↔ IsDrained cores journal.now.notes) }
{
    Ok(Sums::of(alloc, journal, 1)?.core_stats(cores))
}

/// What a queue gained from one place of the journal to another: the sum of its charges in the notes between them.
///
/// # Errors
///
/// `AllocError` for want of memory.
pub fn gained(
    alloc: Global,
    journal: &Journal<u64>,
    queue: QueueNo,
    from: usize,
    to: usize,
    burst: u8,
) -> Result<u128, AllocError>
    ensures { IfOk result (λ sum. sum ≡ gained_between burst queue from to journal.now.notes) }
{
    if to <= from {
        return Ok(0);
    }
    let mut sums = Sums::new(alloc, burst);
    sums.read(journal, 0, from)?;
    let earlier = sums.charged(queue);
    sums.read(journal, from, to)?;
    Ok(sums.charged(queue).saturating_sub(earlier))
}

/// The greatest charge of one turn of a queue, 0 if it was charged nothing.
///
/// # Errors
///
/// `AllocError` for want of memory.
pub fn greatest_turn(
    alloc: Global,
    journal: &Journal<u64>,
    queue: QueueNo,
    burst: u8,
) -> Result<u64, AllocError>
    ensures { IfOk result (λ charge. charge ≡ greatest_charge burst queue journal.now.notes) }
{
    Ok(Sums::of(alloc, journal, burst)?.greatest_turn(queue))
}
