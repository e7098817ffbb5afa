//! Whether a fault of journals that go on stays one, whatever notes come later.
#![tactic(auto)]

mod certain;
mod counts;
mod gates;
pub mod laws;
mod lost;
mod past;
mod told;

pub use lost::is_lost;
