//! Why no further note comes.

use std::alloc::AllocError;
use text_parts::part::PartCause;

/// What is wrong with the bytes behind the parts that were read.
#[derive(Clone, Copy)]
pub enum FeedCause {
    /// They are no part.
    Part(PartCause),
    /// They are a part of another actor.
    Actor,
    /// Notes of the actor are missing before it, or stand twice.
    Before,
}

/// Why no further note comes.
#[derive(Clone, Copy)]
pub enum FeedError {
    /// A read failed, or 1000 in a row were interrupted.
    Read,
    /// There is no memory for the bytes or the notes of a part, or the actor has 2^64 notes.
    Memory,
    /// No part stands there, or one that may not come next.
    Faulty(FeedCause),
}

impl From<AllocError> for FeedError {
    ghost use Rattle.std.specs.Prelude.{◌≡◌};
    ghost use Rattle.text_feed.specs.declared.fault.FeedError.TheVariants.{Memory};

    ghost from_gives = { λ _ e. e ≡ Memory };

    fn from(_error: AllocError) -> FeedError {
        FeedError::Memory
    }
}
