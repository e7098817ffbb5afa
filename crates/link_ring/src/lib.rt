//! A link between two threads, without a lock.
//!
//! All links of one house between threads: how they are opened and dealt, and how their ends are brought together again.
#![tactic(auto)]

pub mod accounts;
pub mod around;
pub mod ends;
pub mod laws;
pub mod link;
pub mod opening;
pub mod reunion;
pub mod ring_in;
pub mod ring_out;

pub use accounts::{Accounts, reunite};
pub use ends::Ends;
pub use link::{OpenError, RingLink};
pub use opening::{open_all, open_spaced};
pub use reunion::reunite_all;
pub use ring_in::{Receiving, RingIn};
pub use ring_out::{RingOut, Sending};
