//! What a runtime is started with: its numbers and queues, and the clock and gate of each worker.
#![tactic(auto)]

pub mod clock;
pub mod config;
pub mod gate;

pub use clock::{Clock, SystemClock, spent_between};
pub use config::{Config, is_good};
pub use gate::{Gate, NoGate};
