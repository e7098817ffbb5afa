//! One read, write or flush.

/// This many interruptions in a row are a fault.
pub const MOST_INTERRUPTIONS: u32 = 1000;

/// What became of one read, write or flush.
#[derive(Clone, Copy)]
pub enum Once<T> {
    /// It was made, and gave this.
    Made(T),
    /// A signal interrupted it.
    Interrupted,
    /// It failed.
    Failed,
}

/// A device failed.
#[derive(Clone, Copy, PartialEq, Eq)]
pub struct DeviceFault;
