//! Parts of a journal as bytes.
//!
//! A part stands alone: it says whose notes it has, how many came before, how many it has and of how many bytes, and ends with two sums of all of
//! these. It is read in that order, and each step here may tell one cause; so of a damaged part the first thing that is wrong is told, and its
//! notes are tried only once its sums are right.

ghost use Rattle.std.specs.Prelude.{◌≡◌, ◌<◌, ◌++◌, ◌^◌, IfOk, OnOk, drop, length};
ghost use Rattle.base_words.specs.Assembly.{IsPrefix};
ghost use Rattle.text_parts.specs.ByteNotes.{Gives};
ghost use Rattle.text_parts.specs.PartLaws.{HasHead};
ghost use Rattle.text_parts.specs.Parts as spec;

use crate::byte_fields::{byte_at, wide_at};
use crate::byte_notes::note_at;
use crate::note_bytes::{note_size, put_bytes, put_note, put_wide};
use base_words::{ActorNo, Note};
use std::alloc::{AllocError, AllocFailed, Global};
use text_words::field::is_word;

/// What is wrong with a part. Of several causes the first in this order is told.
#[derive(Clone, Copy)]
pub enum PartCause {
    /// The bytes end inside it.
    Cut,
    /// It doesn't begin with `fxp1`.
    Form,
    /// Its sums are not those of its bytes: it is damaged.
    Sum,
    /// Its bytes are no notes, or not as many as its head says.
    Notes,
}

/// Why no part is read.
#[derive(Drop)]
pub enum PartError {
    /// There is no memory for its notes.
    Memory,
    /// It is faulty.
    Faulty(PartCause),
}

/// Whose notes they are, how many notes of that actor came before, how many they are, and how many bytes they have.
#[derive(Clone, Copy)]
pub struct Head {
    pub actor: ActorNo,
    pub before: u64,
    pub count: u64,
    pub size: u64,
}

/// Whose notes they are, how many notes of that actor came before, and the notes, the oldest first.
#[derive(Drop)]
pub struct Part {
    pub actor: ActorNo,
    pub before: u64,
    pub notes: Vec<Note<u64>>,
}

impl<T: Drop> From<AllocFailed<T>> for PartError {
    ghost use Rattle.std.specs.Prelude.{◌≡◌};
    ghost use Rattle.text_parts.specs.declared.part.PartError.TheVariants.{Memory};

    ghost from_gives = { λ _ e. e ≡ Memory };

    fn from(_failed: AllocFailed<T>) -> PartError {
        PartError::Memory
    }
}

/// Puts a part behind the bytes of a vector. It asks for no memory if the vector has room.
///
/// # Errors
///
/// There is no memory for it. Other bytes may then stand behind what was there.
pub fn put_part(
    actor: ActorNo,
    before: u64,
    notes: &[Note<u64>],
    out: &mut Vec<u8>,
) -> Result<(), AllocError>
    requires { length notes.now < 2 ^ 32 }
    ensures bytes { OnOk result (out.new.items ≡ out.old.items ++ spec.part_bytes (record { actor = actor; before = before; notes = notes.now })) }
    ensures front { IsPrefix out.old.items out.new.items }
    ensures head { HasHead (spec.head_of (record { actor = actor; before = before; notes = notes.now })) }
{
    let start = out.len();
    let head = Head {
        actor,
        before,
        count: notes.len() as u64,
        size: size_of(notes),
    };
    put_head(head, out)?;
    put_notes(notes, out)?;
    put_sums(start, out)
}

/// Puts the mark and a head.
fn put_head(head: Head, out: &mut Vec<u8>) -> Result<(), AllocError>
    ensures bytes { OnOk result (out.new.items ≡ out.old.items ++ (spec.mark ++ spec.head_bytes head)) }
    ensures front { IsPrefix out.old.items out.new.items }
{
    put_bytes(&[b'f', b'x', b'p', b'1', head.actor.0], out)?;
    put_wide(head.before, out)?;
    put_wide(head.count, out)?;
    put_wide(head.size, out)
}

/// Puts notes.
fn put_notes(notes: &[Note<u64>], out: &mut Vec<u8>) -> Result<(), AllocError>
    ensures bytes { OnOk result (out.new.items ≡ out.old.items ++ spec.body_bytes notes.now) }
    ensures front { IsPrefix out.old.items out.new.items }
{
    for note in notes {
        put_note(*note, out)?;
    }
    Ok(())
}

/// Puts the sums of the bytes from this place on.
fn put_sums(start: usize, out: &mut Vec<u8>) -> Result<(), AllocError>
    requires { start < length out.old.items }
    ensures bytes { OnOk result (out.new.items ≡ out.old.items ++ spec.sums_bytes (spec.sums_of (drop start out.old.items))) }
    ensures front { IsPrefix out.old.items out.new.items }
{
    let sums = sums_behind((0, 0), &out.as_slice()[start..]);
    put_wide(sums.0, out)?;
    put_wide(sums.1, out)
}

/// How many bytes notes have.
fn size_of(notes: &[Note<u64>]) -> u64
    requires { length notes.now < 2 ^ 32 }
    ensures { result ≡ length (spec.body_bytes notes.now) }
{
    let mut size = 0;
    for note in notes {
        size += note_size(*note);
    }
    size
}

/// The sums that some bytes make of these.
fn sums_behind(sums: (u64, u64), bytes: &[u8]) -> (u64, u64)
    ensures { result ≡ spec.sums_behind sums bytes.now }
{
    let (mut first, mut second) = sums;
    for byte in bytes {
        first = first.wrapping_add(u64::from(*byte));
        second = second.wrapping_add(first);
    }
    (first, second)
}

#[tactic(auto, unfolding(crate::specs::Parts::head_at))]
fn head_at(bytes: &[u8]) -> Option<(Head, &[u8])>
    ensures { Gives (λ x. (x.0, x.1.now)) result (spec.head_at bytes.now) }
{
    let Some((actor, rest)) = byte_at(bytes) else {
        return None;
    };
    let Some((before, rest)) = wide_at(rest) else {
        return None;
    };
    let Some((count, rest)) = wide_at(rest) else {
        return None;
    };
    let Some((size, rest)) = wide_at(rest) else {
        return None;
    };
    let head = Head {
        actor: ActorNo(actor),
        before,
        count,
        size,
    };
    Some((head, rest))
}

/// The first `count` notes, and the bytes behind them.
fn notes_at(alloc: Global, count: u64, bytes: &[u8]) -> Result<(Vec<Note<u64>>, &[u8]), PartError>
    ensures { spec.GivesPart (λ x. (x.0.items, x.1.now)) result (spec.or_notes (spec.notes_at count bytes.now)) }
{
    let mut notes = Vec::new(alloc);
    let mut rest = bytes;
    for _ in 0..count {
        let Some((note, after)) = note_at(rest) else {
            return Err(PartError::Faulty(PartCause::Notes));
        };
        notes.push(note)?;
        rest = after;
    }
    Ok((notes, rest))
}

/// The part at the front, and the bytes behind it.
///
/// # Errors
///
/// The first thing that is wrong with it, or `Memory`.
pub fn part_at(alloc: Global, bytes: &[u8]) -> Result<(Part, &[u8]), PartError>
    ensures exact { spec.GivesPart (λ x. (spec.part_seen x.0, x.1.now)) result (spec.part_at bytes.now) }
    ensures found { IfOk result (λ x. bytes.now ≡ spec.part_bytes (spec.part_seen x.0) ++ x.1.now) }
{
    part_in(alloc, bytes)
}

#[tactic(auto, unfolding(crate::specs::Parts::part_at))]
fn part_in(alloc: Global, bytes: &[u8]) -> Result<(Part, &[u8]), PartError>
    ensures { spec.GivesPart (λ x. (spec.part_seen x.0, x.1.now)) result (spec.part_at bytes.now) }
{
    if bytes.len() < 29 {
        return Err(PartError::Faulty(PartCause::Cut));
    }
    if !is_word(&bytes[..4], "fxp1") {
        return Err(PartError::Faulty(PartCause::Form));
    }
    match head_at(&bytes[4..]) {
        Some((head, rest)) => headed(alloc, sums_behind((0, 0), &bytes[..29]), head, rest),
        None => Err(PartError::Faulty(PartCause::Cut)),
    }
}

/// The part behind its head.
fn headed(
    alloc: Global,
    sums: (u64, u64),
    head: Head,
    bytes: &[u8],
) -> Result<(Part, &[u8]), PartError>
    ensures { spec.GivesPart (λ x. (spec.part_seen x.0, x.1.now)) result (spec.bodied sums head bytes.now) }
{
    let room = bytes.len() as u64;
    if room < 16 || room - 16 < head.size {
        return Err(PartError::Faulty(PartCause::Cut));
    }
    let (body, rest) = bytes.split_at(head.size as usize);
    let sums = sums_behind(sums, body);
    summed(alloc, sums, head, body, rest)
}

/// The part, behind whose notes its sums stand.
fn summed<'a>(
    alloc: Global,
    sums: (u64, u64),
    head: Head,
    body: &[u8],
    bytes: &'a [u8],
) -> Result<(Part, &'a [u8]), PartError>
    ensures { spec.GivesPart (λ x. (spec.part_seen x.0, x.1.now)) result (spec.summed sums head body.now (spec.sums_at bytes.now)) }
{
    let Some((told, rest)) = sums_at(bytes) else {
        return Err(PartError::Faulty(PartCause::Cut));
    };
    if told.0 == sums.0 && told.1 == sums.1 {
        noted(alloc, head, body, rest)
    } else {
        Err(PartError::Faulty(PartCause::Sum))
    }
}

/// Two sums.
fn sums_at(bytes: &[u8]) -> Option<((u64, u64), &[u8])>
    ensures { Gives (λ x. (x.0, x.1.now)) result (spec.sums_at bytes.now) }
{
    let Some((first, rest)) = wide_at(bytes) else {
        return None;
    };
    let Some((second, rest)) = wide_at(rest) else {
        return None;
    };
    Some(((first, second), rest))
}

/// The part of this head, if these bytes are its notes.
fn noted<'a>(
    alloc: Global,
    head: Head,
    body: &[u8],
    rest: &'a [u8],
) -> Result<(Part, &'a [u8]), PartError>
    ensures { spec.GivesPart (λ x. (spec.part_seen x.0, x.1.now)) result (spec.noted head rest.now (spec.or_notes (spec.notes_at head.count body.now))) }
{
    let (notes, left) = notes_at(alloc, head.count, body)?;
    if !left.is_empty() {
        return Err(PartError::Faulty(PartCause::Notes));
    }
    let part = Part {
        actor: head.actor,
        before: head.before,
        notes,
    };
    Ok((part, rest))
}
