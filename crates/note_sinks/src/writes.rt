//! Writes that tell how many bytes went, also where one fails.

ghost use Rattle.std.specs.Prelude.{◌≡◌, ◌≤◌, ◌<◌, IfOk, OnOk, OnErr, drop, length, take};
ghost use Rattle.std.specs.Io.KnownBytes.{Appends, Keeps};
ghost use Rattle.text_bytes.specs.Tries.{HasFailed, HasFailedSince, IsNoFewer};
ghost use Rattle.note_sinks.specs.Outlets.{Writes};

use text_bytes::{ByteSink, DeviceFault, MOST_INTERRUPTIONS, Once};

/// Writes the first of the bytes, one at least.
fn write_some<W: ByteSink>(writer: &mut W, bytes: &[u8]) -> Result<usize, DeviceFault>
    requires { 0 < length bytes.now }
    ensures some { IfOk result (λ count. 1 ≤ count) }
    ensures within { IfOk result (λ count. count ≤ length bytes.now) }
    ensures bytes { IfOk result (λ count. Appends (W.contents writer.old) (W.contents writer.new) (take count bytes.now)) }
    ensures err { OnErr result (Keeps (W.contents writer.old) (W.contents writer.new)) }
    ensures failed { OnErr result (HasFailed W.tries W.interrupts W.fails writer.old writer.new) }
    ensures tried { IsNoFewer (W.tries writer.old) (W.tries writer.new) }
{
    for _i in 0..MOST_INTERRUPTIONS {
        match writer.write_once(bytes) {
            Once::Made(count) => return Ok(count),
            Once::Failed => return Err(DeviceFault),
            Once::Interrupted => {}
        }
    }
    Err(DeviceFault)
}

/// Writes the bytes behind the first ones, which are written already. Counts those that are written, also where it fails.
pub fn write_rest<W: ByteSink>(
    writer: &mut W,
    bytes: &[u8],
    written: &mut usize,
) -> Result<(), DeviceFault>
    requires { written.old ≤ length bytes.now }
    ensures within { written.new ≤ length bytes.now }
    ensures writes { Writes (W.contents writer.old) (W.contents writer.new) (drop written.old bytes.now) (drop written.new bytes.now) }
    ensures ok { OnOk result (written.new ≡ length bytes.now) }
    ensures failed { OnErr result (HasFailedSince W.tries W.interrupts W.fails writer.old writer.new) }
    ensures tried { IsNoFewer (W.tries writer.old) (W.tries writer.new) }
{
    while *written < bytes.len() {
        *written += write_some(writer, &bytes[*written..])?;
    }
    Ok(())
}
