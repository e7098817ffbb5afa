//! The bytes that were read from a source, and that are not yet taken.

ghost use Rattle.std.specs.Prelude.{◌≡◌, ◌+◌, ◌-◌, ◌<◌, ◌≤◌, ◌++◌, [], Ok, false, IfErr, IfOk, OnErr, OnOk, drop, length, take};
ghost use Rattle.std.specs.Io.KnownBytes.{Consumes, IsAtEnd, Keeps};
ghost use Rattle.text_bytes.specs.Tries.{HasFailed, HasFailedSince, IsNoFewer};
ghost use Rattle.text_feed.specs.Faults.{IfFaulty, IfRead};
ghost use Rattle.text_feed.specs.Intakes.{IsWithin, Reads, between};

use crate::fault::FeedError;
use base_sealed::History;
use std::alloc::{AllocError, Global};
use std::marker::Model;
use text_bytes::once::DeviceFault;
use text_bytes::source::{Source, read_some};

/// Each read has room for at least so many bytes.
const ROOM: usize = 65536;

/// A source, and the bytes of it that were read and not yet taken.
///
/// A contract sees an `IntakeView`: the source, all bytes that were read, and those that are not yet taken.
#[derive(Drop)]
pub(crate) struct Intake<S> {
    source: S,
    /// All bytes that were read.
    got: History<u8>,
    /// Those from `from` to `to` are not yet taken. What stands before them is taken, and what stands behind them is room.
    bytes: Vec<u8>,
    from: usize,
    to: usize,
}

impl<S> Model for Intake<S> {
    ghost use Rattle.std.specs.Prelude.{length};
    ghost use Rattle.text_feed.specs.Intakes.{IntakeView, IsWithin, between};

    ghost Value = { IntakeView S };

    ghost view = { λ i. record { source = i.source; got = i.got.items; rest = between i.from i.to i.bytes.items } };

    ghost invariant = { λ i. IsWithin i.from i.to (length i.bytes.items) };
}

/// Moves the bytes between two places to the front.
fn move_front(bytes: &mut Vec<u8>, from: usize, to: usize)
    requires { IsWithin from to (length bytes.old.items) }
    ensures front { take (to - from) bytes.new.items ≡ between from to bytes.old.items }
    ensures len { length bytes.new.items ≡ length bytes.old.items }
{
    if from > 0 {
        bytes.as_mut_slice().copy_within(from..to, 0);
    }
}

/// Makes room for a read behind the first bytes.
fn make_room(bytes: &mut Vec<u8>, held: usize) -> Result<(), AllocError>
    requires { held ≤ length bytes.old.items }
    ensures front { take held bytes.new.items ≡ take held bytes.old.items }
    ensures within { held ≤ length bytes.new.items }
    ensures room { OnOk result (held < length bytes.new.items) }
{
    if bytes.len() - held < ROOM {
        let Some(end) = held.checked_add(ROOM) else {
            return Err(AllocError);
        };
        bytes.resize(end, 0)?;
    }
    Ok(())
}

/// Reads once behind the first bytes, and goes on where a signal interrupts it.
fn read_behind<S: Source>(
    source: &mut S,
    bytes: &mut [u8],
    held: usize,
) -> Result<usize, DeviceFault>
    requires { held < length bytes.old }
    ensures len { length bytes.new ≡ length bytes.old }
    ensures front { take held bytes.new ≡ take held bytes.old }
    ensures within { IfOk result (λ count. held + count ≤ length bytes.new) }
    ensures bytes { IfOk result (λ count. Consumes (S.remaining source.old) (S.remaining source.new) (take count (drop held bytes.new))) }
    ensures end { IfOk result (λ count. count ≡ 0 → IsAtEnd (S.remaining source.new)) }
    ensures kept { OnErr result (Keeps (S.remaining source.old) (S.remaining source.new)) }
    ensures failed { OnErr result (HasFailed S.tries S.interrupts S.fails source.old source.new) }
    ensures tried { IsNoFewer (S.tries source.old) (S.tries source.new) }
{
    read_some(source, &mut bytes[held..])
}

/// Puts bytes behind all others.
fn lengthen(got: &mut History<u8>, more: &[u8])
    ensures { got.new.items ≡ got.old.items ++ more.now }
{
    for byte in more {
        *got = got.with(byte);
    }
}

impl<S: Source> Intake<S> {
    /// No byte was read.
    pub(crate) fn new(alloc: Global, source: S) -> Intake<S>
        ensures { result ≡ record { source = source; got = []; rest = [] } }
    {
        Intake {
            source,
            got: History::new(),
            bytes: Vec::new(alloc),
            from: 0,
            to: 0,
        }
    }

    /// The bytes that are not yet taken.
    pub(crate) fn rest(&self) -> &[u8]
        ensures { result.now ≡ self.now.rest }
    {
        &self.bytes.as_slice()[self.from..self.to]
    }

    /// Takes so many bytes.
    pub(crate) fn skip(&mut self, count: usize)
        requires { count ≤ length self.old.rest }
        ensures { self.new ≡ record self.old { rest = drop count self.old.rest } }
    {
        self.from += count;
    }

    /// Reads once behind the bytes that are there. Whether some came: at the end of the source none do.
    ///
    /// # Errors
    ///
    /// A failed read (`Read`), want of memory (`Memory`). No byte is read then.
    pub(crate) fn read_more(&mut self) -> Result<bool, FeedError>
        ensures reads { Reads S.remaining self.old self.new }
        ensures end { result ≡ Ok false → IsAtEnd (S.remaining self.new.source) }
        ensures faulty { IfErr result (IfFaulty (λ why. ⊥)) }
        ensures failed { IfErr result (IfRead (HasFailedSince S.tries S.interrupts S.fails self.old.source self.new.source)) }
        ensures tried { IsNoFewer (S.tries self.old.source) (S.tries self.new.source) }
    {
        let held = self.to - self.from;
        move_front(&mut self.bytes, self.from, self.to);
        self.from = 0;
        self.to = held;
        let Ok(()) = make_room(&mut self.bytes, held) else {
            return Err(FeedError::Memory);
        };
        let Ok(count) = read_behind(&mut self.source, self.bytes.as_mut_slice(), held) else {
            return Err(FeedError::Read);
        };
        self.to = held + count;
        lengthen(&mut self.got, &self.bytes.as_slice()[held..self.to]);
        Ok(count > 0)
    }
}
