//! What an actor of a hosted house hands on while it runs: the notes that its journal keeps, as text or in bytes.
//!
//! The journals that a house left behind: their audit, and their text in parts.
#![tactic(auto)]

pub mod ended;
pub mod laws;
pub mod part;

pub use ended::{EndedHouse, JudgeError, TextError};
pub use part::{Form, PassError, Piece, copy_kept, copy_piece};
