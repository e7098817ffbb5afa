//! The polls of a script job.

use base_words::{CoreNo, QueueNo};

/// One poll of a script job, as its script spells it. Times are nanoseconds.
#[derive(Clone, Copy, PartialEq, Eq, Debug)]
pub enum Poll {
    /// `yT`: it yields, and tells T.
    Yield(u64),
    /// `pT>D.Q`: it submits the job `d1=0` to queue Q of core D, detaches it if it was accepted and drops it if not. It yields, and tells T.
    Submit(u64, CoreNo, QueueNo),
    /// `kT`: it is parked, and tells T.
    Park(u64),
    /// `dT=V`: it is done with V, and tells T.
    Done(u64, u64),
}

/// Fills the unused places of a list of polls.
impl Default for Poll {
    fn default() -> Self {
        Poll::Yield(0)
    }
}

/// What a poll does that isn't the last one.
#[derive(Clone, Copy, PartialEq, Eq, Debug)]
pub(crate) enum Early {
    /// It yields.
    Yields,
    /// It submits a job to this queue of this core, and yields.
    Submits(CoreNo, QueueNo),
    /// It is parked.
    Parks,
}

/// A poll that isn't the last one, as a script job keeps it. Its 16 bytes decide the size of a script job, which has room for 63 of them.
/// An enum of the kinds of poll with their times would take 24.
#[derive(Clone, Copy, PartialEq, Eq, Debug)]
pub(crate) struct Yielding {
    /// The nanoseconds that it tells.
    pub(crate) told: u64,
    /// What it does.
    pub(crate) does: Early,
}

/// Fills the unused places of a job's list.
impl Default for Yielding {
    fn default() -> Self {
        Yielding {
            told: 0,
            does: Early::Yields,
        }
    }
}
