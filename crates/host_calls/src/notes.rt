//! What an actor tells of the notes that its journal keeps, and how it copies and forgets them.

ghost use Rattle.std.specs.Prelude.{◌≡◌, ℕ, Option};
ghost use Rattle.base_words.specs.declared.note.Note.{Note};
ghost use Rattle.host_text.specs.Pieces.{AreCounts};
ghost use Rattle.host_calls.specs.declared.code.Code.TheVariants as code;
ghost use Rattle.host_calls.specs.Notes.{CameTold, CopiesOn, CopiesTold, ForgetsTold, KeepsAt, NotesTold, came, came_told, code_of_came, count_copied, notes_copied};
ghost use Rattle.host_calls.specs.Passing.{code_of_passed};

use crate::code::Code;
use crate::member::Member;
use crate::names::{Name, told};
use base_words::{ActorNo, JobId, Note};
use host_text::{Form, PassError, Piece, copy_piece};
use note_journal::RunningJournal;
use std::alloc::Global;

impl Member {
    /// Tells how many notes the journal of an actor keeps, and how many more it may.
    pub fn notes(&self, kept: &mut u64, free: &mut u64) -> Code
        ensures { NotesTold self.now kept.old free.old result kept.new free.new }
    {
        match self {
            Member::Core(core) => tell_counts(core.journal(), kept, free),
            Member::Outside(outside) => tell_counts(outside.journal(), kept, free),
            _ => Code::Empty,
        }
    }

    /// Copies so many notes at most of those that the journal of an actor keeps, from this place on, in this form, and tells how many bytes that
    /// has and of how many notes it is. If there is room for fewer bytes, it tells how many are wanted. Nothing else changes.
    pub fn copy(
        &self,
        alloc: Global,
        form: Form,
        from: u64,
        most: u64,
        bytes: &mut [u8],
        count: &mut u64,
        notes: &mut u64,
    ) -> Code
        ensures { CopiesTold self.now form from most bytes.old count.old notes.old result bytes.new count.new notes.new }
    {
        if !self.is_actor() {
            return Code::Empty;
        }
        tell_copied(self.piece(alloc, form, from, most, bytes), count, notes)
    }

    /// Copies that. Nobody but an actor has any.
    fn piece(
        &self,
        alloc: Global,
        form: Form,
        from: u64,
        most: u64,
        bytes: &mut [u8],
    ) -> Result<Piece, PassError>
        ensures { CopiesOn self.now form from most bytes.old result bytes.new }
    {
        match self {
            Member::Core(core) => {
                let number = ActorNo(core.number().0);
                copy_piece(alloc, number, form, core.journal(), from, most, bytes)
            }
            Member::Outside(outside) => copy_piece(
                alloc,
                outside.number(),
                form,
                outside.journal(),
                from,
                most,
                bytes,
            ),
            _ => Err(PassError::Memory),
        }
    }

    /// Tells the name under which the note at this place, of those that the journal of an actor keeps, says that an outcome was collected.
    pub fn came(&self, place: u64, name: &mut Name) -> Code
        ensures { CameTold self.now place name.old result name.new }
    {
        match self {
            Member::Core(core) => tell_came(core.journal(), place, name),
            Member::Outside(outside) => tell_came(outside.journal(), place, name),
            _ => Code::Empty,
        }
    }

    /// Forgets the notes that the journal of an actor keeps, and tells how many they were.
    pub fn forget(&mut self, count: &mut u64) -> Code
        ensures { ForgetsTold self.old count.old result count.new self.new }
    {
        let forgotten = match self {
            Member::Core(core) => core.forget(),
            Member::Outside(outside) => outside.forget(),
            _ => return Code::Empty,
        };
        *count = forgotten;
        Code::Ok
    }
}

/// Tells how many notes a journal keeps, and how many more it may.
fn tell_counts(journal: &RunningJournal<u64>, kept: &mut u64, free: &mut u64) -> Code
    ensures code { result ≡ code.Ok }
    ensures counts { AreCounts journal.now kept.new free.new }
{
    *kept = journal.kept_count() as u64;
    *free = u64::from(journal.free());
    Code::Ok
}

/// Tells that name, or that the note says no such thing.
fn tell_came(journal: &RunningJournal<u64>, place: u64, name: &mut Name) -> Code
    ensures { (note : Option (Note ℕ)) × KeepsAt journal.now place note × (result ≡ code_of_came (came note)) × (name.new ≡ came_told (came note) name.old) }
{
    match collected_at(journal, place) {
        Some(found) => {
            *name = told(found);
            Code::Ok
        }
        None => Code::Absent,
    }
}

/// The name under which the note that a journal keeps at this place says that an outcome was collected.
fn collected_at(journal: &RunningJournal<u64>, place: u64) -> Option<JobId>
    ensures { (note : Option (Note ℕ)) × KeepsAt journal.now place note × (result ≡ came note) }
{
    match journal.kept().get(place as usize) {
        Some(Note::Collected(name, _)) => Some(name),
        _ => None,
    }
}

/// Tells how many bytes of how many notes were copied, or how many bytes are wanted, or why none were copied.
fn tell_copied(copied: Result<Piece, PassError>, count: &mut u64, notes: &mut u64) -> Code
    ensures code { result ≡ code_of_passed copied }
    ensures count { count.new ≡ count_copied copied count.old }
    ensures notes { notes.new ≡ notes_copied copied notes.old }
{
    match copied {
        Ok(piece) => {
            *count = piece.bytes;
            *notes = piece.notes;
            Code::Ok
        }
        Err(PassError::Short(wanted)) => {
            *count = wanted;
            Code::Short
        }
        Err(PassError::Memory) => Code::NoMemory,
    }
}
