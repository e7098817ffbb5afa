//! A page of text that waits to be written.

ghost use Rattle.std.specs.Prelude.{◌≡◌, ◌<◌, ℕ, [], OnOk, OnErr, length, string_bytes, take};
ghost use Rattle.std.specs.Io.KnownBytes.{Appends};

use crate::steady::{DeviceFault, write_all};
use std::io::Write;

/// Writes the page, and empties it. After a fault the page is as it was, and the first of its bytes are written, and not all.
pub fn write_page<W: Write>(page: &mut String, sink: &mut W) -> Result<(), DeviceFault>
    ensures ok { OnOk result (Appends (W.contents sink.old) (W.contents sink.new) (string_bytes page.old)) }
    ensures empty { OnOk result (string_bytes page.new ≡ []) }
    ensures err { OnErr result (string_bytes page.new ≡ string_bytes page.old) }
    ensures refused { OnErr result ((count : ℕ) × (count < length (string_bytes page.old))
        × Appends (W.contents sink.old) (W.contents sink.new) (take count (string_bytes page.old))) }
{
    write_all(sink, page.as_bytes())?;
    page.clear();
    Ok(())
}
