//! Parts of a journal, and the journals of a house, as bytes.
#![tactic(auto)]

mod byte_fields;
pub mod byte_notes;
pub mod fault;
pub mod laws;
pub mod note_bytes;
pub mod part;
pub mod parts;
pub mod whole;

pub use fault::BytesFault;
pub use whole::text_of_parts;
