//! What a core tells of itself in numbers.

use crate::shares::Shares;

/// The counts of one queue. Times are nanoseconds.
#[derive(Clone, Copy, PartialEq, Eq, Debug)]
pub struct QueueStats {
    pub shares: Shares,
    /// Picks of this queue, those that hand a job back counted too.
    pub selected: u64,
    /// The sum of the times of its turns, each as it is charged. Without bursts a turn is one poll.
    pub runtime: u128,
    pub virtual_runtime: u128,
    /// Jobs inside that aren't being polled, parked ones counted too.
    pub waiting: u64,
    /// Jobs that are done.
    pub finished: u64,
    /// Jobs that a pick handed back.
    pub returned: u64,
}

impl Default for QueueStats {
    fn default() -> Self {
        QueueStats {
            shares: Shares::default(),
            selected: 0,
            runtime: 0,
            virtual_runtime: 0,
            waiting: 0,
            finished: 0,
            returned: 0,
        }
    }
}

/// The counts of one core.
#[derive(Clone, Copy, PartialEq, Eq, Debug)]
pub struct CoreStats {
    /// Picks, those that hand a job back counted too.
    pub turns: u64,
    /// The greatest virtual runtime of a pick.
    pub floor: u128,
    /// Jobs inside.
    pub held: u64,
    /// Whether the core is closed and all that it accepted has ended.
    pub drained: bool,
}
