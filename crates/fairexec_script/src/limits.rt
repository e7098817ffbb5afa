//! How long the text of a script may be.

use text_bytes::MOST_BYTES;

/// The most lines.
pub const MOST_LINES: u32 = 4096;

/// The most bytes of a line before its line feed: as many as any text may have.
pub const LONGEST_LINE: usize = MOST_BYTES;

/// The most `queue` lines of a core: with queue 0 they make 256.
pub const MOST_QUEUE_LINES: usize = 255;
