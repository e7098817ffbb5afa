//! A whole script for threads.

ghost use Rattle.std.specs.Prelude.{Some, length, ◌≤◌};
ghost use Rattle.fairexec_script.specs.Limits.{IsSize, IsBurst, ArePlaced, HasFewQueues};
ghost use Rattle.fairexec_script.specs.ThreadsLimits.{AreTold, HasSpare};
ghost use Rattle.fairexec_script.specs.TextLimits.{most_lines};

use base_jobs::ScriptJob;
use base_words::{CoreNo, Order, Shares};

/// A whole script for threads, well spelled and within the limits of a runtime.
#[derive(Drop)]
pub struct ThreadsScript {
    /// How many cores there are.
    pub cores: u8,
    /// How many submissions each link may have outstanding.
    pub cap: u16,
    /// How many polls a turn may have.
    pub burst: u8,
    /// The queues that there are from the start, by core, in order.
    pub queues: Vec<(CoreNo, Shares)>,
    /// The orders that the outside actor sends, each with its core, in order.
    pub orders: Vec<(CoreNo, Order<ScriptJob>)>,
    ghost sized: { IsSize cores cap },
    ghost bursts: { IsBurst burst },
    ghost placed: { ArePlaced (Some (cores, cap)) queues.items },
    ghost few: { HasFewQueues queues.items },
    ghost told: { AreTold (Some (cores, cap)) orders.items },
    ghost spare: { HasSpare (Some (cores, cap)) orders.items },
    ghost short: { length orders.items ≤ most_lines },
}
