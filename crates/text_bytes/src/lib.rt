//! Writes to whatever takes bytes, and tells when a write failed.
//!
//! Reads a text line by line into a draft, up to the first faulty line.
#![tactic(auto)]

pub mod draft;
pub mod fault;
pub mod laws;
pub mod lines;
pub mod once;
mod reader;
pub mod sink;
pub mod source;
pub mod steady;

pub use draft::{LineDraft, MOST_BYTES};
pub use fault::Stop;
pub use lines::{read_lines, read_text};
pub use once::{DeviceFault, MOST_INTERRUPTIONS, Once};
pub use sink::ByteSink;
pub use source::{Source, TextSource};
pub use steady::{flush, write_all};
