//! What a delivery came to.

use base_words::{Answer, Order, Reason};

/// What became of a delivered submission.
#[derive(Drop)]
pub enum Delivered<J> {
    /// The job entered its queue.
    Took,
    /// The job goes back, in its order.
    Back(Reason, Order<J>),
    /// The command was carried out, or refused.
    Answered(Answer),
}
