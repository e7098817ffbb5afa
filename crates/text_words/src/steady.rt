//! Reads and writes that go on where a signal interrupts them.

ghost use Rattle.std.specs.Prelude.{ℕ, List, ◌≡◌, ◌≤◌, ◌<◌, IfOk, OnOk, OnErr, IfErr, length, take};
ghost use Rattle.std.specs.Io.KnownBytes.{Keeps, Appends, Consumes, IsAtEnd};

use std::io::{ErrorKind, Read, Write};

/// This many interruptions in a row are a fault.
const MOST_INTERRUPTIONS: u32 = 1000;

/// A device failed.
#[derive(Clone, Copy, PartialEq, Eq)]
pub struct DeviceFault;

/// Reads what comes next, at most as much as there is room for. At the end of the input it answers 0. After a fault nothing was read, and the
/// room may have any bytes.
pub fn read_some<R: Read>(source: &mut R, room: &mut [u8]) -> Result<usize, DeviceFault>
    ensures within { IfOk result (λ count. count ≤ length room.new) }
    ensures bytes { IfOk result (λ count.
        Consumes (R.remaining source.old) (R.remaining source.new) (take count room.new)) }
    ensures end { IfOk result (λ count.
        count ≡ 0 → 0 < length room.old → IsAtEnd (R.remaining source.new)) }
    ensures err { OnErr result (Keeps (R.remaining source.old) (R.remaining source.new)) }
{
    for _i in 0..MOST_INTERRUPTIONS {
        match source.read(room) {
            Ok(count) => return Ok(count),
            Err(error) => {
                if error.kind() != ErrorKind::Interrupted {
                    return Err(DeviceFault);
                }
            }
        }
    }
    Err(DeviceFault)
}

/// Writes all of the bytes. After a fault the first of them are written, and not all.
pub fn write_all<W: Write>(sink: &mut W, bytes: &[u8]) -> Result<(), DeviceFault>
    ensures ok { OnOk result (Appends (W.contents sink.old) (W.contents sink.new) bytes.now) }
    ensures err { OnErr result ((count : ℕ) × (count < length bytes.now)
        × Appends (W.contents sink.old) (W.contents sink.new) (take count bytes.now)) }
{
    let mut written = 0;
    while written < bytes.len() {
        written += write_some(sink, &bytes[written..])?;
    }
    Ok(())
}

/// Writes the first of the bytes, one at least.
fn write_some<W: Write>(sink: &mut W, bytes: &[u8]) -> Result<usize, DeviceFault>
    ensures some { IfOk result (λ count. 1 ≤ count) }
    ensures within { IfOk result (λ count. count ≤ length bytes.now) }
    ensures bytes { IfOk result (λ count.
        Appends (W.contents sink.old) (W.contents sink.new) (take count bytes.now)) }
    ensures err { OnErr result (Keeps (W.contents sink.old) (W.contents sink.new)) }
{
    for _i in 0..MOST_INTERRUPTIONS {
        match sink.write(bytes) {
            Ok(0) => return Err(DeviceFault),
            Ok(count) => return Ok(count),
            Err(error) => {
                if error.kind() != ErrorKind::Interrupted {
                    return Err(DeviceFault);
                }
            }
        }
    }
    Err(DeviceFault)
}

/// Tells the writer that no more comes.
pub fn flush<W: Write>(sink: &mut W) -> Result<(), DeviceFault>
    ensures { Keeps (W.contents sink.old) (W.contents sink.new) }
{
    for _i in 0..MOST_INTERRUPTIONS {
        match sink.flush() {
            Ok(()) => return Ok(()),
            Err(error) => {
                if error.kind() != ErrorKind::Interrupted {
                    return Err(DeviceFault);
                }
            }
        }
    }
    Err(DeviceFault)
}
