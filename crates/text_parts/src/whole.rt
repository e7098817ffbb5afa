//! Reads the journals of a house as bytes, and tells them as text.

ghost use Rattle.std.specs.Prelude.{◌≡◌, ℕ, List, IfErr, IfOk, IfSome};
ghost use Rattle.std.specs.Io.KnownBytes.{Consumes, IsAtEnd};
ghost use Rattle.base_words.specs.Spelled.{IsSpelled};
ghost use Rattle.text_bytes.specs.Tries.{HasFailedSince};
ghost use Rattle.text_journal.specs.Texts.{journal_text};
ghost use Rattle.text_parts.specs.Faults.{IfBytes, IfRead, IfUnwritten};
ghost use Rattle.text_parts.specs.Houses.{IsFault};
ghost use Rattle.text_parts.specs.Wholes.{MakesText};

use crate::fault::BytesFault;
use crate::parts::{PartsError, read_parts};
use note_journal::Assembly;
use std::alloc::Global;
use text_bytes::Source;
use text_bytes::source::read_some;
use text_journal::write_journal;

/// The most bytes that are read at once.
const PAGE: usize = 8192;

/// The text of the journals whose bytes the source tells: the numbers of a house, and behind them its parts, actor after actor. They are
/// judged as `read_parts` does, once the source is read to its end.
///
/// # Errors
///
/// The first byte from which on they are faulty, and the cause (`Faulty`), a failed read or 1000 interrupted ones in a row (`Read`), want
/// of memory (`Memory`). Bytes of the source may be read by then, from its front on, and none else.
pub fn text_of_parts<S: Source>(alloc: Global, source: &mut S) -> Result<Vec<u8>, BytesFault>
    ensures ok { IfOk result (λ text. IfSome (S.remaining source.old) (MakesText text.items)) }
    ensures end { IfOk result (λ text. IsAtEnd (S.remaining source.new)) }
    ensures faulty { IfErr result (IfBytes (λ place cause. IfSome (S.remaining source.old) (λ bytes. IsFault bytes place cause))) }
    ensures device { IfErr result (IfUnwritten ⊥) }
    ensures failed { IfErr result (IfRead (HasFailedSince S.tries S.interrupts S.fails source.old source.new)) }
    ensures taken { (taken : List ℕ) × Consumes (S.remaining source.old) (S.remaining source.new) taken }
{
    match read_all(alloc, source) {
        Ok(bytes) => text_in(alloc, &bytes),
        Err(fault) => Err(fault),
    }
}

/// Reads the source to its end.
fn read_all<S: Source>(alloc: Global, source: &mut S) -> Result<Vec<u8>, BytesFault>
    ensures ok { IfOk result (λ bytes. Consumes (S.remaining source.old) (S.remaining source.new) bytes.items) }
    ensures end { IfOk result (λ bytes. IsAtEnd (S.remaining source.new)) }
    ensures faulty { IfErr result (IfBytes (λ place cause. ⊥)) }
    ensures device { IfErr result (IfUnwritten ⊥) }
    ensures failed { IfErr result (IfRead (HasFailedSince S.tries S.interrupts S.fails source.old source.new)) }
    ensures taken { (taken : List ℕ) × Consumes (S.remaining source.old) (S.remaining source.new) taken }
{
    let mut page = [0u8; PAGE];
    let mut bytes = Vec::new(alloc);
    while bytes.len() < usize::MAX {
        let Ok(count) = read_some(source, &mut page) else {
            return Err(BytesFault::Read);
        };
        if count == 0 {
            return Ok(bytes);
        }
        bytes.extend_from_slice(&page[..count])?;
    }
    Err(BytesFault::Memory)
}

/// The text of the journals that these bytes are.
fn text_in(alloc: Global, bytes: &[u8]) -> Result<Vec<u8>, BytesFault>
    ensures ok { IfOk result (λ text. MakesText text.items bytes.now) }
    ensures faulty { IfErr result (IfBytes (IsFault bytes.now)) }
    ensures read { IfErr result (IfRead ⊥) }
    ensures device { IfErr result (IfUnwritten ⊥) }
{
    match read_parts(alloc, bytes) {
        Ok(assembly) => text_of(alloc, &assembly),
        Err(PartsError::Memory) => Err(BytesFault::Memory),
        Err(PartsError::Faulty { place, cause }) => Err(BytesFault::Faulty { place, cause }),
    }
}

/// The text of spelled journals. Nothing but memory may lack.
fn text_of(alloc: Global, assembly: &Assembly) -> Result<Vec<u8>, BytesFault>
    requires { IsSpelled assembly.now }
    ensures ok { IfOk result (λ text. text.items ≡ journal_text assembly.now) }
    ensures faulty { IfErr result (IfBytes (λ place cause. ⊥)) }
    ensures read { IfErr result (IfRead ⊥) }
    ensures device { IfErr result (IfUnwritten ⊥) }
{
    let mut text = Vec::new(alloc);
    match write_journal::<(), Vec<u8>>(alloc, assembly, &mut text) {
        Ok(()) => Ok(text),
        Err(_) => Err(BytesFault::Memory),
    }
}
