//! A vector and a slab that ask for no memory any more. Who holds one has no allocator in reach.
//!
//! A list that only proofs read.
//!
//! A box as its address, and the box again.
#![tactic(auto)]

pub mod history;
mod loose;
mod sealed_slab;
mod sealed_vec;

pub use history::History;
pub use loose::Loose;
pub use sealed_slab::SealedSlab;
pub use sealed_vec::SealedVec;
