//! A house of cores whose jobs the host runs: how it is opened, and the outside actor.
#![tactic(auto)]

pub mod house;
pub mod outside;
mod passing;

pub use house::{HostedHouse, OpenError, open_dense, open_house};
pub use outside::Outside;
