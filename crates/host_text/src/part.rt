//! The notes that a journal keeps, as text or as a part in bytes, into bytes of the host.

ghost use Rattle.std.specs.Prelude.{◌≡◌, ◌-◌, ◌<◌, ◌++◌, ◌^◌, IfOk, OnOk, codes, drop, length, map, min, string_bytes, take};
ghost use Rattle.text_words.specs.Notes.{note_line};
ghost use Rattle.text_parts.specs.Parts.{part_bytes};
ghost use Rattle.text_journal.specs.Texts.{text_of};
ghost use Rattle.host_text.specs.Parts.{CopiesAll, CopiesPart};
ghost use Rattle.host_text.specs.Pieces.{CopiesPiece, in_form, piece_told};

use base_words::{ActorNo, Note};
use note_journal::RunningJournal;
use std::alloc::{AllocError, Global};
use text_parts::part::put_part;
use text_words::NoteLine;

/// Why nothing was handed on. Nothing changed.
#[derive(Clone, Copy, PartialEq, Eq, Debug)]
pub enum PassError {
    /// The copy has so many bytes, and there is room for fewer.
    Short(u64),
    /// There is no memory to make it.
    Memory,
}

/// How notes are written.
#[derive(Clone, Copy)]
pub enum Form {
    /// As their lines.
    Text,
    /// As a part of a journal in bytes, before which came so many notes of the actor.
    Bytes(u64),
}

/// A piece that was copied: how many notes it has, and how many bytes it has in its form.
#[derive(Clone, Copy)]
pub struct Piece {
    pub notes: u64,
    pub bytes: u64,
}

/// Copies the lines of the notes that a journal keeps, the oldest first, if there is room for all of them. How many bytes that were.
///
/// # Errors
///
/// `Memory` if there isn't enough to make the text, else `Short`.
pub fn copy_kept(
    alloc: Global,
    actor: ActorNo,
    journal: &RunningJournal<u64>,
    bytes: &mut [u8],
) -> Result<u64, PassError>
    ensures { CopiesPart actor journal.now bytes.old result bytes.new }
{
    match lines_of(alloc, actor, journal.kept().as_slice()) {
        Ok(text) => copy_all(text.as_bytes(), bytes),
        Err(_) => Err(PassError::Memory),
    }
}

/// Copies so many notes at most of those that a journal keeps, from this place on, the oldest first, in this form, if there is room for all of them.
///
/// # Errors
///
/// `Memory` if there isn't enough to write them, else `Short`.
pub fn copy_piece(
    alloc: Global,
    actor: ActorNo,
    form: Form,
    journal: &RunningJournal<u64>,
    from: u64,
    most: u64,
    bytes: &mut [u8],
) -> Result<Piece, PassError>
    ensures { CopiesPiece actor form from most journal.now bytes.old result bytes.new }
{
    let kept = journal.kept();
    let _room = kept.room();
    let notes = piece_of(kept.as_slice(), from, most);
    let Ok(written) = write(alloc, actor, form, notes) else {
        return Err(PassError::Memory);
    };
    told(notes.len() as u64, copy_all(written.as_slice(), bytes))
}

/// So many of these notes at most, from this place on.
fn piece_of(notes: &[Note<u64>], from: u64, most: u64) -> &[Note<u64>]
    ensures count { length result.now ≡ min most (length notes.now - from) }
    ensures notes { result.now ≡ take (length result.now) (drop from notes.now) }
{
    let start = from.min(notes.len() as u64) as usize;
    let rest = &notes[start..];
    let count = most.min(rest.len() as u64) as usize;
    &rest[..count]
}

/// A piece of so many notes, if it was copied.
fn told(notes: u64, copied: Result<u64, PassError>) -> Result<Piece, PassError>
    ensures { result ≡ piece_told notes copied }
{
    match copied {
        Ok(bytes) => Ok(Piece { notes, bytes }),
        Err(error) => Err(error),
    }
}

/// These notes in this form.
fn write(
    alloc: Global,
    actor: ActorNo,
    form: Form,
    notes: &[Note<u64>],
) -> Result<Vec<u8>, AllocError>
    requires { length notes.now < 2 ^ 32 }
    ensures { IfOk result (λ written. written.items ≡ in_form actor form notes.now) }
{
    match form {
        Form::Text => Ok(lines_of(alloc, actor, notes)?.into_bytes()),
        Form::Bytes(before) => part_of(alloc, actor, before, notes),
    }
}

/// These notes as a part in bytes.
fn part_of(
    alloc: Global,
    actor: ActorNo,
    before: u64,
    notes: &[Note<u64>],
) -> Result<Vec<u8>, AllocError>
    requires { length notes.now < 2 ^ 32 }
    ensures { IfOk result (λ part. part.items ≡ part_bytes (record { actor = actor; before = before; notes = notes.now })) }
{
    // The head and the sums have 45 bytes, and a note has 27 at most.
    let mut part = Vec::with_capacity(alloc, 45 + 27 * notes.len())?;
    put_part(actor, before, notes, &mut part)?;
    Ok(part)
}

/// The lines of these notes.
fn lines_of(alloc: Global, actor: ActorNo, notes: &[Note<u64>]) -> Result<String, AllocError>
    ensures { IfOk result (λ text. string_bytes text ≡ text_of (map (note_line actor) notes.now)) }
{
    let mut text = String::new(alloc);
    for note in notes {
        put_note(actor, *note, &mut text)?;
    }
    Ok(text)
}

/// Puts the line of one note behind a text.
fn put_note(actor: ActorNo, note: Note<u64>, text: &mut String) -> Result<(), AllocError>
    ensures { OnOk result (string_bytes text.new ≡ string_bytes text.old ++ (note_line actor note ++ codes "\n")) }
{
    let line = NoteLine(actor, note);
    match writeln!(text, "{line}") {
        Ok(()) => Ok(()),
        Err(_) => Err(AllocError),
    }
}

/// Copies what was written to the first bytes, if there is room for all of it.
fn copy_all(text: &[u8], bytes: &mut [u8]) -> Result<u64, PassError>
    ensures { CopiesAll text.now bytes.old result bytes.new }
{
    let count = text.len();
    if count > bytes.len() {
        return Err(PassError::Short(count as u64));
    }
    bytes[..count].copy_from_slice(text);
    Ok(count as u64)
}
