//! The part in front of the bytes that were read.

ghost use Rattle.std.specs.Prelude.{◌≡◌, ◌<◌, ◌↔◌, [], IfErr, IfOk, IfNone, IfSome, IsTrue, length};
ghost use Rattle.text_feed.specs.Faults.{IfFaulty, IfRead};
ghost use Rattle.text_feed.specs.Fronts as spec;
ghost use Rattle.text_parts.specs.Parts.{Fails, part_at as read_part, part_seen};
ghost use Rattle.text_parts.specs.declared.part.PartCause.TheVariants as why;

use crate::fault::{FeedCause, FeedError};
use std::alloc::Global;
use text_parts::part::{Part, PartCause, PartError, part_at};

/// So many bytes the mark and the head of a part have.
const HEAD: usize = 29;

/// So many its sums have, which stand behind its notes.
const SUMS: u64 = 16;

/// Whether the bytes are as many as the head in front says. It only spares a try: `part_at` judges the bytes.
pub(crate) fn may_be_whole(bytes: &[u8]) -> bool
    ensures { IsTrue result → 0 < length bytes.now }
{
    if bytes.len() < HEAD {
        return false;
    }
    let size = u64::from_le_bytes([
        bytes[21], bytes[22], bytes[23], bytes[24], bytes[25], bytes[26], bytes[27], bytes[28],
    ]);
    let behind = (bytes.len() - HEAD) as u64;
    behind >= SUMS && behind - SUMS >= size
}

/// Whether the part is cut.
fn is_cut(cause: PartCause) -> bool
    ensures { IsTrue result ↔ (cause ≡ why.Cut) }
{
    match cause {
        PartCause::Cut => true,
        PartCause::Form | PartCause::Sum | PartCause::Notes => false,
    }
}

/// The part in front, and how many bytes it has.
fn front_part(alloc: Global, bytes: &[u8]) -> Result<(Part, usize), PartError>
    ensures ok { IfOk result (λ found. spec.StandsInFront (part_seen found.0) found.1 bytes.now) }
    ensures faulty { IfErr result (λ error. Fails error (read_part bytes.now)) }
{
    match part_at(alloc, bytes) {
        Ok((part, rest)) => Ok((part, bytes.len() - rest.len())),
        Err(error) => Err(error),
    }
}

/// The part in front, if the bytes may have one whole. None if more have to be read.
pub(crate) fn whole_part(alloc: Global, bytes: &[u8]) -> Result<Option<(Part, usize)>, FeedError>
    ensures ok { IfOk result (λ found. IfSome found (λ f. spec.StandsInFront (part_seen f.0) f.1 bytes.now)) }
    ensures faulty { IfErr result (IfFaulty (λ cause. spec.IsNoPart cause bytes.now ⊥)) }
    ensures read { IfErr result (IfRead ⊥) }
{
    if !may_be_whole(bytes) {
        return Ok(None);
    }
    match front_part(alloc, bytes) {
        Ok(found) => Ok(Some(found)),
        Err(PartError::Memory) => Err(FeedError::Memory),
        Err(PartError::Faulty(cause)) => {
            if is_cut(cause) {
                Ok(None)
            } else {
                Err(FeedError::Faulty(FeedCause::Part(cause)))
            }
        }
    }
}

/// The part in front, behind which no byte comes. None if there is no byte.
pub(crate) fn last_part(alloc: Global, bytes: &[u8]) -> Result<Option<(Part, usize)>, FeedError>
    ensures ok { IfOk result (λ found. IfSome found (λ f. spec.StandsInFront (part_seen f.0) f.1 bytes.now)) }
    ensures none { IfOk result (λ found. IfNone found (bytes.now ≡ [])) }
    ensures faulty { IfErr result (IfFaulty (λ cause. spec.IsNoPart cause bytes.now (Unit {0}))) }
    ensures read { IfErr result (IfRead ⊥) }
{
    if bytes.is_empty() {
        return Ok(None);
    }
    match front_part(alloc, bytes) {
        Ok(found) => Ok(Some(found)),
        Err(PartError::Memory) => Err(FeedError::Memory),
        Err(PartError::Faulty(cause)) => Err(FeedError::Faulty(FeedCause::Part(cause))),
    }
}
