//! What a text is read from.

ghost use Rattle.std.specs.Prelude.{ℕ, List, Option, None, ◌≡◌, ◌≤◌, ◌<◌, IfOk, OnErr, length, take};
ghost use Rattle.std.specs.Io.KnownBytes.{Consumes, Keeps, IsAtEnd};
ghost use Rattle.text_bytes.specs.Sources.{ReadsSome};
ghost use Rattle.text_bytes.specs.Tries.{IfMade, IfNotMade, IfInterrupted, IfFailed, IsOneMore, IsNoFewer, HasFailed};

use crate::once::{DeviceFault, MOST_INTERRUPTIONS, Once};
use std::io::{ErrorKind, Read};

/// What a text is read from. A contract sees the bytes that are left, if they are known, and what one read may do.
///
/// `tries` is how many reads were tried, if the source counts them. `reads` says that a read that gives these bytes leads from one state to
/// another. `interrupts` and `fails` say the same of a read that is interrupted, and of one that fails.
pub trait Source {
    ghost remaining: { Self → Option (List ℕ) };

    ghost tries: { Self → Option ℕ };

    ghost reads: { Self → List ℕ → Self → Type 0 };

    ghost interrupts: { Self → Self → Type 0 };

    ghost fails: { Self → Self → Type 0 };

    /// One read of what comes next, at most as much as there is room for. None are the end of the input, if there is room.
    fn read_once(&mut self, room: &mut [u8]) -> Once<usize>
        ensures room { length room.new ≡ length room.old }
        ensures within { IfMade result (λ count. count ≤ length room.new) }
        ensures bytes { IfMade result (λ count.
            Consumes (remaining self.old) (remaining self.new) (take count room.new)) }
        ensures end { IfMade result (λ count.
            count ≡ 0 → 0 < length room.old → IsAtEnd (remaining self.new)) }
        ensures tried { IsOneMore (tries self.old) (tries self.new) }
        ensures kept { IfNotMade result (Keeps (remaining self.old) (remaining self.new)) }
        ensures gives { IfMade result (λ count. reads self.old (take count room.new) self.new) }
        ensures interrupted { IfInterrupted result (interrupts self.old self.new) }
        ensures failed { IfFailed result (fails self.old self.new) };
}

/// Any reader. What its reads may do is not known.
impl<R: Read> Source for R {
    ghost remaining = { R.remaining };

    ghost tries = { λ source. None };

    ghost reads = { λ old bytes new. Unit {0} };

    ghost interrupts = { λ old new. Unit {0} };

    ghost fails = { λ old new. Unit {0} };

    fn read_once(&mut self, room: &mut [u8]) -> Once<usize> {
        match self.read(room) {
            Ok(count) => Once::Made(count),
            Err(error) => {
                if error.kind() == ErrorKind::Interrupted {
                    Once::Interrupted
                } else {
                    Once::Failed
                }
            }
        }
    }
}

/// A text in memory. No read of it is interrupted, and none fails.
#[derive(Drop)]
pub struct TextSource<'a> {
    left: &'a [u8],
}

impl<'a> TextSource<'a> {
    /// Before its first byte.
    pub fn of(text: &'a [u8]) -> TextSource<'a>
        ensures { result.left.now ≡ text.now }
    {
        TextSource { left: text }
    }
}

impl<'a> Source for TextSource<'a> {
    ghost use Rattle.std.specs.Prelude.{◌≡◌, ◌++◌, None, Some};

    ghost remaining = { λ source. Some source.left.now };

    ghost tries = { λ source. None };

    ghost reads = { λ old bytes new. old.left.now ≡ bytes ++ new.left.now };

    ghost interrupts = { λ old new. ⊥ };

    ghost fails = { λ old new. ⊥ };

    fn read_once(&mut self, room: &mut [u8]) -> Once<usize> {
        let count = self.left.len().min(room.len());
        let (now, later) = self.left.split_at(count);
        room[..count].copy_from_slice(now);
        self.left = later;
        Once::Made(count)
    }
}

/// Reads what comes next, and goes on where a signal interrupts it. At the end of the input it answers 0.
///
/// # Errors
///
/// A read failed, or 1000 in a row were interrupted.
pub fn read_some<S: Source>(source: &mut S, room: &mut [u8]) -> Result<usize, DeviceFault>
    ensures room { length room.new ≡ length room.old }
    ensures within { IfOk result (λ count. count ≤ length room.new) }
    ensures bytes { IfOk result (λ count.
        Consumes (S.remaining source.old) (S.remaining source.new) (take count room.new)) }
    ensures end { IfOk result (λ count.
        count ≡ 0 → 0 < length room.old → IsAtEnd (S.remaining source.new)) }
    ensures gives { IfOk result (λ count.
        ReadsSome S.tries S.reads S.interrupts source.old (take count room.new) source.new) }
    ensures kept { OnErr result (Keeps (S.remaining source.old) (S.remaining source.new)) }
    ensures failed { OnErr result (HasFailed S.tries S.interrupts S.fails source.old source.new) }
    ensures tried { IsNoFewer (S.tries source.old) (S.tries source.new) }
{
    for _i in 0..MOST_INTERRUPTIONS {
        match source.read_once(room) {
            Once::Made(count) => return Ok(count),
            Once::Failed => return Err(DeviceFault),
            Once::Interrupted => {}
        }
    }
    Err(DeviceFault)
}
