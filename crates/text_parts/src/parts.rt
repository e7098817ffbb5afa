//! The journals of a house as bytes: its numbers, and parts one behind the other, actor after actor.
//!
//! Each part is read whole, judged beside the one before it, and only then are its notes handed to the draft that texts use too. A fault is told
//! by the byte at which its part begins. What remains behind the last part tells the place: it is counted from the end.

ghost use Rattle.std.specs.Prelude.{◌≡◌, ◌+◌, ◌<◌, ◌≤◌, ◌↔◌, ◌++◌, ℕ, List, [], All, Ok, Some, IfErr, IfOk, IsTrue, OnOk, length};
ghost use Rattle.base_words.specs.Assembly.{IsPrefix};
ghost use Rattle.base_words.specs.Limits.{most_notes};
ghost use Rattle.base_words.specs.Spelled.{IsSpelled, IsSpelledNote};
ghost use Rattle.note_journal.specs.Writers.{terms_seen};
ghost use Rattle.text_bytes.specs.Faults.{IfCause};
ghost use Rattle.text_parts.specs.ByteNotes.{Gives};
ghost use Rattle.text_journal.specs.Drafts.{Drafted};
ghost use Rattle.text_journal.specs.Handed.{IsBegun, nothing_handed};
ghost use Rattle.text_parts.specs.Parts.{PartView, part_at as read_part, part_seen};
ghost use Rattle.text_parts.specs.Houses as spec;

use crate::byte_fields::{byte_at, short_at};
use crate::note_bytes::{put_bytes, put_short};
use crate::part::{Part, PartCause, PartError, part_at};
use base_words::{MOST_BURST, MOST_CAPACITY, MOST_CORES, MOST_NOTES, Note};
use note_journal::Assembly;
use note_journal::spelled::{Writer, is_spelled_note};
use std::alloc::{AllocError, Global};
use text_bytes::Stop;
use text_journal::NoteTaker;
use text_journal::draft::Draft;
use text_journal::keeper::Keeper;
use text_words::field::is_word;

/// The numbers of a house: how many cores there are, how much each link may hold, and how many polls a turn may have.
#[derive(Clone, Copy)]
pub struct HouseNumbers {
    pub cores: u8,
    pub cap: u16,
    pub burst: u8,
}

/// What is wrong with the journals of a house as bytes. Of several causes the first in this order is told.
#[derive(Clone, Copy)]
pub enum PartsCause {
    /// They don't begin with `fxh1` and the numbers of a house within their limits.
    House,
    /// No part stands there.
    Part(PartCause),
    /// It is a part of no actor, or of one before that of the part before.
    Actor,
    /// Notes of its actor are missing before it, or stand twice.
    Before,
    /// Its actor has more notes with it than there may be.
    TooMany,
    /// It has a note that its actor may not write.
    Note,
}

/// Why the journals of a house aren't read.
#[derive(Clone, Copy)]
pub enum PartsError {
    /// There is no memory.
    Memory,
    /// From this byte on they are faulty.
    Faulty { place: u64, cause: PartsCause },
}

/// The journals that bytes are, read and judged to their end.
///
/// # Errors
///
/// `Faulty` where no part stands, or one that may not come next; `Memory`.
pub fn read_parts(alloc: Global, bytes: &[u8]) -> Result<Assembly, PartsError>
    ensures ok { IfOk result (λ assembly. IsSpelled assembly × spec.AreJournals bytes.now assembly) }
    ensures faulty { IfErr result (spec.IfFaulty (spec.IsFault bytes.now)) }
{
    pass_parts(alloc, Keeper::new(alloc), bytes)
}

/// What the notes become. Each part is judged, and then its notes are handed to a taker.
///
/// # Errors
///
/// As those of `read_parts`. Want of memory may be the taker's.
pub fn pass_parts<T: NoteTaker>(
    alloc: Global,
    taker: T,
    bytes: &[u8],
) -> Result<T::Whole, PartsError>
    requires { T.has taker nothing_handed }
    ensures ok { IfOk result (λ whole. spec.MakesParts T.makes whole bytes.now) }
    ensures faulty { IfErr result (spec.IfFaulty (spec.IsFault bytes.now)) }
{
    let (house, rest) = house_in(bytes)?;
    let Ok(mut draft) = Draft::begun(taker, house.cores, house.cap, house.burst) else {
        return Err(PartsError::Memory);
    };
    take_parts(alloc, &mut draft, bytes.len(), rest)?;
    match draft.into_whole() {
        Ok(whole) => Ok(whole),
        Err(_) => Err(PartsError::Memory),
    }
}

/// Puts the numbers of a house, behind which its parts stand.
///
/// # Errors
///
/// There is no memory for them. A first part of them may then stand behind what was there.
pub fn put_house(house: HouseNumbers, out: &mut Vec<u8>) -> Result<(), AllocError>
    ensures bytes { OnOk result (out.new.items ≡ out.old.items ++ spec.house_bytes house) }
    ensures front { IsPrefix out.old.items out.new.items }
{
    put_bytes(b"fxh1", out)?;
    put_bytes(&[house.cores, house.burst], out)?;
    put_short(house.cap, out)
}

/// The numbers at the front, and the bytes behind them.
#[tactic(auto, unfolding(crate::specs::Houses::house_at))]
fn house_at(bytes: &[u8]) -> Option<(HouseNumbers, &[u8])>
    ensures { Gives (λ x. (x.0, x.1.now)) result (spec.house_at bytes.now) }
{
    if bytes.len() < 4 {
        return None;
    }
    if !is_word(&bytes[..4], "fxh1") {
        return None;
    }
    numbers_at(&bytes[4..])
}

fn numbers_at(bytes: &[u8]) -> Option<(HouseNumbers, &[u8])>
    ensures { Gives (λ x. (x.0, x.1.now)) result (spec.numbers_at bytes.now) }
{
    let Some((cores, rest)) = byte_at(bytes) else {
        return None;
    };
    let Some((burst, rest)) = byte_at(rest) else {
        return None;
    };
    let Some((cap, rest)) = short_at(rest) else {
        return None;
    };
    Some((HouseNumbers { cores, cap, burst }, rest))
}

/// Whether the numbers are within their limits.
fn is_house(house: HouseNumbers) -> bool
    ensures { IsTrue result ↔ spec.IsHouse house }
{
    house.cores >= 1
        && house.cores <= MOST_CORES
        && house.cap >= 1
        && house.cap <= MOST_CAPACITY
        && house.burst >= 1
        && house.burst <= MOST_BURST
}

/// The numbers of the house whose journals these are, and the bytes behind them.
fn house_in(bytes: &[u8]) -> Result<(HouseNumbers, &[u8]), PartsError>
    ensures ok { IfOk result (λ x. (spec.house_at bytes.now ≡ Some (x.0, x.1.now)) × spec.IsHouse x.0) }
    ensures short { IfOk result (λ x. length x.1.now ≤ length bytes.now) }
    ensures faulty { IfErr result (spec.IfFaulty (spec.IsFault bytes.now)) }
{
    match house_at(bytes) {
        Some((house, rest)) if is_house(house) => Ok((house, rest)),
        _ => Err(PartsError::Faulty {
            place: 0,
            cause: PartsCause::House,
        }),
    }
}

/// Whether the actor may write each note.
fn are_spelled(writer: Writer, notes: &[Note<u64>]) -> bool
    ensures { IsTrue result ↔ All (IsSpelledNote (terms_seen writer)) notes.now }
{
    for note in notes {
        if !is_spelled_note(writer, *note) {
            return false;
        }
    }
    true
}

/// Judges a part of the actor whose notes come now.
fn judge_part<T: NoteTaker>(draft: &Draft<T>, part: &Part) -> Result<(), PartsCause>
    requires { part.now.actor ≡ length draft.now.earlier }
    ensures ok { OnOk result (spec.Fits draft.now (part_seen part.now)) }
    ensures faulty { IfErr result (λ cause. spec.IsUnfit cause draft.now (part_seen part.now)) }
{
    let count = draft.count();
    if part.before != u64::from(count) {
        return Err(PartsCause::Before);
    }
    if part.notes.len() > MOST_NOTES - count as usize {
        return Err(PartsCause::TooMany);
    }
    if !are_spelled(draft.writer(), &part.notes) {
        return Err(PartsCause::Note);
    }
    Ok(())
}

/// Hands notes on.
fn take_notes<T: NoteTaker>(
    draft: &mut Draft<T>,
    notes: &[Note<u64>],
) -> Result<(), Stop<PartsCause>>
    requires begun { IsBegun draft.old.part }
    requires few { length draft.old.notes + length notes.now ≤ most_notes }
    ensures ok { OnOk result (draft.new ≡ spec.with_notes notes.now draft.old) }
    ensures faulty { IfErr result (IfCause (λ cause. ⊥)) }
{
    for note in notes {
        let Ok(()) = draft.hand(note) else {
            return Err(Stop::Memory);
        };
    }
    Ok(())
}

/// Takes a part, if it may come next.
fn take_part<T: NoteTaker>(draft: &mut Draft<T>, part: &Part) -> Result<(), Stop<PartsCause>>
    requires { IsBegun draft.old.part }
    ensures next { OnOk result (spec.IsNext draft.old (part_seen part.now)) }
    ensures ok { OnOk result (draft.new ≡ spec.with_part (part_seen part.now) draft.old) }
    ensures faulty { IfErr result (IfCause (λ cause. spec.IsNotNext cause draft.old (part_seen part.now))) }
{
    let writer = draft.writer();
    let actor = part.actor.0;
    if actor < writer.actor {
        return Err(Stop::Cause(PartsCause::Actor));
    }
    if actor > writer.cores {
        return Err(Stop::Cause(PartsCause::Actor));
    }
    let Ok(()) = draft.raise_to(actor) else {
        return Err(Stop::Memory);
    };
    match judge_part(draft, part) {
        Ok(()) => take_notes(draft, &part.notes),
        Err(cause) => Err(Stop::Cause(cause)),
    }
}

/// Takes the part at the front, if one stands there and may come next. The bytes behind it come back.
fn take_next<'a, T: NoteTaker>(
    alloc: Global,
    draft: &mut Draft<T>,
    bytes: &'a [u8],
) -> Result<&'a [u8], Stop<PartsCause>>
    requires begun { IsBegun draft.old.part }
    requires some { 0 < length bytes.now }
    ensures ok { IfOk result (λ rest. (part : PartView) × (read_part bytes.now ≡ Ok (part, rest.now)) × spec.IsNext draft.old part × (draft.new ≡ spec.with_part part draft.old)) }
    ensures shorter { IfOk result (λ rest. length rest.now < length bytes.now) }
    ensures faulty { IfErr result (IfCause (λ cause. spec.IsWrong cause draft.old bytes.now)) }
{
    match part_at(alloc, bytes) {
        Ok((part, rest)) => {
            take_part(draft, &part)?;
            Ok(rest)
        }
        Err(PartError::Memory) => Err(Stop::Memory),
        Err(PartError::Faulty(cause)) => Err(Stop::Cause(PartsCause::Part(cause))),
    }
}

/// Takes parts to the end of the bytes, which are the last of so many.
fn take_parts<T: NoteTaker>(
    alloc: Global,
    draft: &mut Draft<T>,
    size: usize,
    bytes: &[u8],
) -> Result<(), PartsError>
    requires begun { IsBegun draft.old.part }
    requires last { length bytes.now ≤ size }
    ensures ok { OnOk result ((parts : List PartView) × spec.MakeDraft parts draft.old bytes.now draft.new []) }
    ensures begun { OnOk result (IsBegun draft.new.part) }
    ensures faulty { IfErr result (spec.IfFaulty (λ place cause. (parts : List PartView) × (made : Drafted) × (rest : List ℕ)
        × spec.MakeDraft parts draft.old bytes.now made rest × (place + length rest ≡ size) × spec.IsWrong cause made rest)) }
{
    let mut rest = bytes;
    while !rest.is_empty() {
        match take_next(alloc, draft, rest) {
            Ok(behind) => rest = behind,
            Err(Stop::Memory) => return Err(PartsError::Memory),
            Err(Stop::Cause(cause)) => {
                let place = (size - rest.len()) as u64;
                return Err(PartsError::Faulty { place, cause });
            }
        }
    }
    Ok(())
}
