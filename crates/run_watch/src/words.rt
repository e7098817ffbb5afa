//! Numbers as words, and words as numbers.

ghost use Rattle.std.specs.Prelude.{◌≡◌, ℕ, ◌+◌, ◌*◌, ◌^◌, ◌<◌, ◌≤◌, Bool, length, slice_get, slice_index, Some};
ghost use Rattle.base_words.specs.declared.stats.CoreStats.{CoreStats as Core};
ghost use Rattle.base_words.specs.declared.stats.QueueStats.{QueueStats as Queue};
ghost use Rattle.base_words.specs.Charge.{InRange};
ghost use Rattle.run_watch.specs.Words as spec;
ghost use Rattle.run_watch.specs.Words.{HasAt};

use base_words::{CoreStats, QueueStats, Shares};

/// How many words the numbers of a core take.
pub(crate) const CORE_WORDS: usize = 7;

/// How many words the numbers of a queue take.
pub(crate) const QUEUE_WORDS: usize = 9;

/// The words of a queue begin here.
pub(crate) fn place_of(queue: usize) -> usize
    requires { queue < 2 ^ 32 }
    ensures { result ≡ spec.place_of queue }
{
    CORE_WORDS + QUEUE_WORDS * queue
}

fn upper(number: u128) -> u64
    ensures { result ≡ spec.upper number }
{
    (number / (1 << 64)) as u64
}

fn lower(number: u128) -> u64
    ensures { result ≡ spec.lower number }
{
    (number % (1 << 64)) as u64
}

/// The number of these two words.
fn joined(upper: u64, lower: u64) -> u128
    ensures { (number : ℕ) → upper ≡ spec.upper number → lower ≡ spec.lower number → result ≡ number }
{
    u128::from(upper) * (1 << 64) + u128::from(lower)
}

/// 1 if it is so, else 0.
fn word_if(is: bool) -> u64
    ensures { result ≡ spec.word_if is }
{
    if is { 1 } else { 0 }
}

/// The words of a core that has so many queues, and of which it is told or not that it closed by itself.
pub(crate) fn core_words(core: &CoreStats, count: usize, closed: bool) -> [u64; 7]
    ensures { result ≡ spec.core_words core.now count closed }
{
    [
        core.turns,
        upper(core.floor),
        lower(core.floor),
        core.held,
        word_if(core.drained),
        count as u64,
        word_if(closed),
    ]
}

/// The words of a queue.
fn queue_words(queue: &QueueStats) -> [u64; 9]
    ensures words { result ≡ spec.queue_words queue.now }
    ensures shares { InRange queue.now.shares }
{
    [
        u64::from(queue.shares.get()),
        queue.selected,
        upper(queue.runtime),
        lower(queue.runtime),
        upper(queue.virtual_runtime),
        lower(queue.virtual_runtime),
        queue.waiting,
        queue.finished,
        queue.returned,
    ]
}

/// The words of the queue at this place of a list.
pub(crate) fn words_at(queues: &[QueueStats], number: usize) -> [u64; 9]
    ensures wide { length result ≡ 9 }
    ensures words { (queue : Queue) → slice_get queues.now number ≡ Some queue → (result ≡ spec.queue_words queue) × InRange queue.shares }
{
    match queues.get(number) {
        Some(queue) => queue_words(queue),
        None => [0; 9],
    }
}

/// The shares of this number.
fn shares_of(word: u64) -> Shares
    requires { InRange word }
    ensures { result ≡ word }
{
    match Shares::try_new(word as u32) {
        Ok(shares) => shares,
        Err(_) => unreachable!(),
    }
}

/// The numbers of a core, from the words at the head of a row.
pub(crate) fn core_of(row: &[u64]) -> CoreStats
    requires { 7 ≤ length row.now }
    ensures { (core : Core) (count : ℕ) (closed : Bool) → HasAt row.now 0 (spec.core_words core count closed) → result ≡ core }
{
    CoreStats {
        turns: row[0],
        floor: joined(row[1], row[2]),
        held: row[3],
        drained: row[4] == 1,
    }
}

/// The numbers of a queue, from its words, which begin at this place.
pub(crate) fn queue_of(row: &[u64], place: usize) -> QueueStats
    requires within { place + 9 ≤ length row.now }
    requires shares { InRange (slice_index row.now place) }
    ensures { (queue : Queue) → HasAt row.now place (spec.queue_words queue) → result ≡ queue }
{
    QueueStats {
        shares: shares_of(row[place]),
        selected: row[place + 1],
        runtime: joined(row[place + 2], row[place + 3]),
        virtual_runtime: joined(row[place + 4], row[place + 5]),
        waiting: row[place + 6],
        finished: row[place + 7],
        returned: row[place + 8],
    }
}
