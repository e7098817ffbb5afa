//! Writes that go on where a signal interrupts them.

ghost use Rattle.std.specs.Prelude.{ℕ, ◌≤◌, ◌<◌, IfOk, OnOk, OnErr, length, take};
ghost use Rattle.std.specs.Io.KnownBytes.{Keeps, Appends};
ghost use Rattle.text_bytes.specs.Tries.{HasFailed, HasFailedSince, IsNoFewer};

use crate::once::{DeviceFault, MOST_INTERRUPTIONS, Once};
use crate::sink::ByteSink;

/// Writes all of the bytes. After a fault the first of them are written, and not all.
pub fn write_all<S: ByteSink>(sink: &mut S, bytes: &[u8]) -> Result<(), DeviceFault>
    ensures ok { OnOk result (Appends (S.contents sink.old) (S.contents sink.new) bytes.now) }
    ensures err { OnErr result ((count : ℕ) × (count < length bytes.now)
        × Appends (S.contents sink.old) (S.contents sink.new) (take count bytes.now)) }
    ensures failed { OnErr result (HasFailedSince S.tries S.interrupts S.fails sink.old sink.new) }
    ensures tried { IsNoFewer (S.tries sink.old) (S.tries sink.new) }
{
    let mut written = 0;
    while written < bytes.len() {
        written += write_some(sink, &bytes[written..])?;
    }
    Ok(())
}

/// Writes the first of the bytes, one at least.
fn write_some<S: ByteSink>(sink: &mut S, bytes: &[u8]) -> Result<usize, DeviceFault>
    requires { 0 < length bytes.now }
    ensures some { IfOk result (λ count. 1 ≤ count) }
    ensures within { IfOk result (λ count. count ≤ length bytes.now) }
    ensures bytes { IfOk result (λ count.
        Appends (S.contents sink.old) (S.contents sink.new) (take count bytes.now)) }
    ensures err { OnErr result (Keeps (S.contents sink.old) (S.contents sink.new)) }
    ensures failed { OnErr result (HasFailed S.tries S.interrupts S.fails sink.old sink.new) }
    ensures tried { IsNoFewer (S.tries sink.old) (S.tries sink.new) }
{
    for _i in 0..MOST_INTERRUPTIONS {
        match sink.write_once(bytes) {
            Once::Made(count) => return Ok(count),
            Once::Failed => return Err(DeviceFault),
            Once::Interrupted => {}
        }
    }
    Err(DeviceFault)
}

/// Tells the writer that no more comes.
pub fn flush<S: ByteSink>(sink: &mut S) -> Result<(), DeviceFault>
    ensures kept { Keeps (S.contents sink.old) (S.contents sink.new) }
    ensures failed { OnErr result (HasFailed S.tries S.interrupts S.fails sink.old sink.new) }
    ensures tried { IsNoFewer (S.tries sink.old) (S.tries sink.new) }
{
    for _i in 0..MOST_INTERRUPTIONS {
        match sink.flush_once() {
            Once::Made(()) => return Ok(()),
            Once::Failed => return Err(DeviceFault),
            Once::Interrupted => {}
        }
    }
    Err(DeviceFault)
}
