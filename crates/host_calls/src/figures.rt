//! What a core tells of itself in numbers, as structs that C reads.

ghost use Rattle.std.specs.Prelude.{◌≡◌, ◌+◌, ◌*◌, ◌^◌};
ghost use Rattle.host_calls.specs.Figures.{AreFiguresOf, closed_number};

use base_words::{Mode, QueueStats};

/// The counts of a core, as `fx_core_stats` of the header has them.
#[repr(C)]
#[derive(Clone, Copy)]
pub struct CoreFigures {
    /// The caller tells how many bytes the struct has.
    pub size: u32,
    pub queues: u32,
    pub room: u64,
    pub held: u64,
    pub turns: u64,
    pub floor_low: u64,
    pub floor_high: u64,
    pub running: u32,
    pub closed: u32,
}

/// The counts of a queue, as `fx_queue_stats` of the header has them. Times are nanoseconds.
#[repr(C)]
#[derive(Clone, Copy)]
pub struct QueueFigures {
    /// The caller tells how many bytes the struct has.
    pub size: u32,
    pub shares: u32,
    pub picks: u64,
    pub waiting: u64,
    pub done: u64,
    pub back: u64,
    pub time_low: u64,
    pub time_high: u64,
    pub virtual_low: u64,
    pub virtual_high: u64,
}

/// The bytes of `fx_core_stats`.
pub const CORE_SIZE: u32 = 56;

/// The bytes of `fx_queue_stats`.
pub const QUEUE_SIZE: u32 = 72;

/// The numbers of a queue.
pub fn queue_figures(stats: &QueueStats) -> QueueFigures
    ensures { AreFiguresOf stats.now result }
{
    let (time_low, time_high) = low_and_high(stats.runtime);
    let (virtual_low, virtual_high) = low_and_high(stats.virtual_runtime);
    QueueFigures {
        size: QUEUE_SIZE,
        shares: stats.shares.get(),
        picks: stats.selected,
        waiting: stats.waiting,
        done: stats.finished,
        back: stats.returned,
        time_low,
        time_high,
        virtual_low,
        virtual_high,
    }
}

/// The low and the high 64 bits of a number.
pub fn low_and_high(number: u128) -> (u64, u64)
    ensures { result.0 + result.1 * 2 ^ 64 ≡ number }
{
    let half: u128 = 1 << 64;
    ((number % half) as u64, (number / half) as u64)
}

/// 0 for an open core, else 1 and the number of its mode.
pub fn number_of_mode(mode: Option<Mode>) -> u32
    ensures { result ≡ closed_number mode }
{
    match mode {
        None => 0,
        Some(Mode::Finish) => 1,
        Some(Mode::Return) => 2,
    }
}
