//! A whole script.

ghost use Rattle.std.specs.Prelude.{Some, length, ◌≤◌};
ghost use Rattle.fairexec_script.specs.Limits.{IsSize, IsBurst, ArePlaced, HasFewQueues, AreEventsOf};
ghost use Rattle.fairexec_script.specs.TextLimits.{most_lines};

use crate::event::ScriptEvent;
use base_words::{CoreNo, Shares};

/// A whole script, well spelled and within the limits of a system.
#[derive(Drop)]
pub struct Script {
    /// How many cores there are.
    pub cores: u8,
    /// How many submissions each link may have outstanding.
    pub cap: u16,
    /// How many polls a turn may have.
    pub burst: u8,
    /// The queues to create at the opening, by core, in order.
    pub queues: Vec<(CoreNo, Shares)>,
    /// What then happens, in order.
    pub events: Vec<ScriptEvent>,
    ghost sized: { IsSize cores cap },
    ghost bursts: { IsBurst burst },
    ghost placed: { ArePlaced (Some (cores, cap)) queues.items },
    ghost few: { HasFewQueues queues.items },
    ghost happen: { AreEventsOf (Some (cores, cap)) events.items },
    ghost short: { length events.items ≤ most_lines },
}
