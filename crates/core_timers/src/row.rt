//! A place of the heap, and what is known of a key.

use base_words::JobId;

/// A place of the heap: when its timer is due, and the key of the timer. Behind the timers that are set, only the key counts.
#[derive(Clone, Copy)]
pub struct Slot {
    pub time: u64,
    pub key: u32,
}

/// What is known of a key.
#[derive(Clone, Copy)]
pub struct Row {
    /// The name of its timer. If the key has none, it says nothing.
    pub name: JobId,
    /// The place of the heap at which the key stands.
    pub at: u32,
}
