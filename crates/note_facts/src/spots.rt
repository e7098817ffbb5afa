//! Which queues a note speaks of.

use base_words::QueueNo;

/// The queues of which a note speaks.
#[derive(Clone, Copy)]
pub struct Spot {
    /// The queue of the note, by its number or by its job.
    pub queue: Option<QueueNo>,
    /// The queue in which its job is parked, where the note ends the park or parks the job anew.
    pub parked: Option<QueueNo>,
}
