//! The journals of all actors of a house that has ended.

ghost use Rattle.std.specs.Prelude.{◌≡◌, ◌≤◌, IfErr, IfOk};
ghost use Rattle.host_text.specs.Ended.{ended_of};
ghost use Rattle.host_text.specs.Texts.{CopiesFrom, IsNoText, IsText, ReadsNone, ReadsPart};
ghost use Rattle.host_text.specs.Verdicts.{IsUnjudged, Judges};

use judge_audit::{Verdict, audit};
use note_journal::Assembly;
use std::alloc::Global;
use std::marker::Model;
use text_journal::write_journal;

/// The journals, whether they lack notes that were passed on, and their text once it was asked for.
#[derive(Drop)]
pub struct EndedHouse {
    assembly: Assembly,
    parted: bool,
    text: Option<Vec<u8>>,
}

impl Model for EndedHouse {
    ghost use Rattle.host_text.specs.Ended.{EndedView};

    ghost Value = { EndedView };

    ghost use Rattle.std.specs.Prelude.{IfSome};
    ghost use Rattle.host_text.specs.Texts.{IsText};

    ghost view = { λ e. record { assembly = e.assembly; parted = e.parted } };

    ghost invariant = { λ e. IfSome e.text (λ text. IsText e.assembly text.items) };
}

/// Why journals aren't judged.
#[derive(Clone, Copy, PartialEq, Eq, Debug)]
pub enum JudgeError {
    /// Notes of them were passed on, so they lack what an audit needs.
    Parted,
    /// There is no memory.
    Memory,
}

/// Why journals have no text.
#[derive(Clone, Copy, PartialEq, Eq, Debug)]
pub enum TextError {
    /// They can't be those of one house.
    Mixed,
    /// There is no memory.
    Memory,
}

impl EndedHouse {
    /// These journals, whose text nobody asked for yet. If they are parted, notes of them were passed on.
    pub fn of(assembly: Assembly, parted: bool) -> Self
        ensures { result ≡ ended_of assembly parted }
    {
        EndedHouse {
            assembly,
            parted,
            text: None,
        }
    }

    /// Whether the journals are sound, and if not, their first fault.
    ///
    /// # Errors
    ///
    /// `Parted` if they lack notes, else `Memory` if there isn't enough.
    pub fn audit(&self, alloc: Global) -> Result<Verdict, JudgeError>
        ensures ok { IfOk result (Judges self.now) }
        ensures err { IfErr result (IsUnjudged self.now) }
    {
        if self.parted {
            return Err(JudgeError::Parted);
        }
        match audit(alloc, &self.assembly) {
            Ok(verdict) => Ok(verdict),
            Err(_) => Err(JudgeError::Memory),
        }
    }

    /// Copies the text of the notes that the journals have, from this byte on, as much as there is room for. How much that was. The first call
    /// makes the text.
    ///
    /// # Errors
    ///
    /// `Mixed` if the journals have no text, else `Memory`.
    pub fn read(&mut self, alloc: Global, from: u64, bytes: &mut [u8]) -> Result<u64, TextError>
        ensures same { self.new ≡ self.old }
        ensures ok { IfOk result (λ count. ReadsPart self.old.assembly from bytes.old count bytes.new) }
        ensures err { IfErr result (λ error. ReadsNone self.old.assembly error bytes.old bytes.new) }
    {
        if let Some(text) = &self.text {
            return Ok(copy_part(text.as_slice(), from, bytes));
        }
        let text = text_of(alloc, &self.assembly)?;
        let count = copy_part(text.as_slice(), from, bytes);
        self.text = Some(text);
        Ok(count)
    }
}

/// The text of journals.
fn text_of(alloc: Global, assembly: &Assembly) -> Result<Vec<u8>, TextError>
    ensures ok { IfOk result (λ text. IsText assembly.now text.items) }
    ensures err { IfErr result (IsNoText assembly.now) }
{
    if !assembly.is_spelled() {
        return Err(TextError::Mixed);
    }
    let mut text = Vec::new(alloc);
    match write_journal::<(), Vec<u8>>(alloc, assembly, &mut text) {
        Ok(()) => Ok(text),
        Err(_) => Err(TextError::Memory),
    }
}

/// Copies a text from this byte on, as much as there is room for. How much that was.
fn copy_part(text: &[u8], from: u64, bytes: &mut [u8]) -> u64
    ensures { CopiesFrom text.now from bytes.old result bytes.new }
{
    let start = from.min(text.len() as u64) as usize;
    let rest = &text[start..];
    let count = rest.len().min(bytes.len());
    bytes[..count].copy_from_slice(&rest[..count]);
    count as u64
}
