//! The task queues of a core: each has its shares and a line of jobs that wait in it.
#![tactic(auto)]

mod closing;
// A crate can name the queues in a contract only if the types of their fields are exported.
#[doc(hidden)]
pub mod line;
mod meter;
#[doc(hidden)]
pub mod parks;
mod queues;
#[doc(hidden)]
pub mod seats;
#[doc(hidden)]
pub mod slips;
#[doc(hidden)]
pub mod waiting;

pub use closing::closes;
pub use meter::Meter;
pub use queues::{CreateError, Queues, Woke};
