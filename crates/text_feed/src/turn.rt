//! The notes of the next part.

ghost use Rattle.std.specs.Prelude.{◌≡◌, ◌+◌, ◌<◌, ◌^◌, [], None, Ok, IfErr, IfOk, IfNone, IfSome, OnOk, length};
ghost use Rattle.std.specs.Io.KnownBytes.{IsAtEnd};
ghost use Rattle.text_bytes.specs.Tries.{HasFailedSince, IsNoFewer};
ghost use Rattle.text_feed.specs.Faults.{IfFaulty, IfRead};
ghost use Rattle.text_feed.specs.Fronts.{Fits, IsNoPart, IsUnfit, IsWrong, StandsInFront};
ghost use Rattle.text_feed.specs.Intakes.{Reads, Takes, notes_in};
ghost use Rattle.text_parts.specs.Parts.{part_seen};

use crate::fault::{FeedCause, FeedError};
use crate::front::{last_part, whole_part};
use crate::intake::Intake;
use base_words::{ActorNo, Note};
use std::alloc::Global;
use text_bytes::Source;
use text_parts::part::Part;

/// Reads until a part stands in front, and tells how many bytes it has. None if the source is at its end and no byte is left.
fn find_part<S: Source>(
    alloc: Global,
    intake: &mut Intake<S>,
) -> Result<Option<(Part, usize)>, FeedError>
    ensures reads { Reads S.remaining intake.old intake.new }
    ensures ok { IfOk result (λ found. IfSome found (λ f. StandsInFront (part_seen f.0) f.1 intake.new.rest)) }
    ensures none { IfOk result (λ found. IfNone found ((intake.new.rest ≡ []) × IsAtEnd (S.remaining intake.new.source))) }
    ensures faulty { IfErr result (IfFaulty (λ cause. IsNoPart cause intake.new.rest (IsAtEnd (S.remaining intake.new.source)))) }
    ensures failed { IfErr result (IfRead (HasFailedSince S.tries S.interrupts S.fails intake.old.source intake.new.source)) }
    ensures tried { IsNoFewer (S.tries intake.old.source) (S.tries intake.new.source) }
{
    for _ in 0..u64::MAX {
        if let Some(found) = whole_part(alloc, intake.rest())? {
            return Ok(Some(found));
        }
        match intake.read_more() {
            Ok(true) => {}
            Ok(false) => return last_part(alloc, intake.rest()),
            Err(error) => return Err(error),
        }
    }
    Err(FeedError::Memory)
}

/// Judges a part of an actor, of whom so many notes came before.
fn judge_part(actor: ActorNo, before: u64, part: &Part) -> Result<(), FeedError>
    ensures ok { OnOk result (Fits actor before (part_seen part.now)) }
    ensures faulty { IfErr result (IfFaulty (λ cause. IsUnfit cause actor before (part_seen part.now))) }
    ensures read { IfErr result (IfRead ⊥) }
{
    if part.actor.0 != actor.0 {
        return Err(FeedError::Faulty(FeedCause::Actor));
    }
    if part.before != before {
        return Err(FeedError::Faulty(FeedCause::Before));
    }
    if part.notes.len() as u64 > u64::MAX - before {
        return Err(FeedError::Memory);
    }
    Ok(())
}

/// The notes of the next part of an actor, of whom so many notes came before. None at the end of the source.
fn next_part<S: Source>(
    alloc: Global,
    actor: ActorNo,
    before: u64,
    intake: &mut Intake<S>,
) -> Result<Option<Vec<Note<u64>>>, FeedError>
    ensures takes { Takes S.remaining actor before intake.old (notes_in (λ notes. notes.items) result) intake.new }
    ensures few { before + length (notes_in (λ notes. notes.items) result) < 2 ^ 64 }
    ensures none { result ≡ Ok None → (intake.new.rest ≡ []) × IsAtEnd (S.remaining intake.new.source) }
    ensures faulty { IfErr result (IfFaulty (λ cause. IsWrong cause actor before intake.new.rest (IsAtEnd (S.remaining intake.new.source)))) }
    ensures failed { IfErr result (IfRead (HasFailedSince S.tries S.interrupts S.fails intake.old.source intake.new.source)) }
    ensures tried { IsNoFewer (S.tries intake.old.source) (S.tries intake.new.source) }
{
    let Some((part, size)) = find_part(alloc, intake)? else {
        return Ok(None);
    };
    judge_part(actor, before, &part)?;
    intake.skip(size);
    Ok(Some(part.notes))
}

/// The notes of the next part that has some. None at the end of the source. It stays out of line, so that `Feed::next` is short.
///
/// # Errors
///
/// Those of `Feed::next`.
#[cold]
#[inline(never)]
pub(crate) fn next_notes<S: Source>(
    alloc: Global,
    actor: ActorNo,
    before: u64,
    intake: &mut Intake<S>,
) -> Result<Option<Vec<Note<u64>>>, FeedError>
    ensures takes { Takes S.remaining actor before intake.old (notes_in (λ notes. notes.items) result) intake.new }
    ensures few { before + length (notes_in (λ notes. notes.items) result) < 2 ^ 64 }
    ensures some { IfOk result (λ found. IfSome found (λ notes. 0 < length notes.items)) }
    ensures none { result ≡ Ok None → (intake.new.rest ≡ []) × IsAtEnd (S.remaining intake.new.source) }
    ensures faulty { IfErr result (IfFaulty (λ cause. IsWrong cause actor before intake.new.rest (IsAtEnd (S.remaining intake.new.source)))) }
    ensures failed { IfErr result (IfRead (HasFailedSince S.tries S.interrupts S.fails intake.old.source intake.new.source)) }
    ensures tried { IsNoFewer (S.tries intake.old.source) (S.tries intake.new.source) }
{
    for _ in 0..u64::MAX {
        match next_part(alloc, actor, before, intake) {
            Ok(Some(notes)) => {
                if !notes.is_empty() {
                    return Ok(Some(notes));
                }
            }
            Ok(None) => return Ok(None),
            Err(error) => return Err(error),
        }
    }
    Err(FeedError::Memory)
}
