//! A sink that writes the journal's text.
//!
//! Notes go into a page as lines. A page that is full is written as a whole before the next notes are put, so a `take` makes room first and
//! puts all its notes or none: what it refuses has left no line.

ghost use Rattle.std.specs.Prelude.{◌≡◌, ◌+◌, ◌-◌, ◌^◌, ◌∷◌, ◌++◌, ℕ, [], Contains, IfErr, IfOk, IsErr, OnErr, OnOk, length, min, reverse};
ghost use Rattle.text_journal.specs.Texts.{actor_lines, text_of};
ghost use Rattle.text_bytes.specs.Tries.{HasFailedSince, IsNoFewer};
ghost use Rattle.note_sinks.specs.Lines.{HasWritten, HoldsText, IsBlank, IsRefused};
ghost use Rattle.note_sinks.specs.Outlets.{notes_text, Writes};

use crate::outlet::Outlet;
use base_sealed::History;
use base_words::{ActorNo, Note};
use note_journal::{Refused, Sink};
use std::alloc::{AllocError, Global};
use std::marker::Model;
use text_bytes::DeviceFault;

/// The lines of all notes that the sink took, in the form of the journal text. They go to a writer by way of a page.
///
/// It refuses only where a write fails or memory lacks, and then has what it had. Nothing is lost then, and nothing is written twice.
///
/// A contract sees the notes that it took, the newest first, the writer, and the text that is still to be written.
#[derive(Drop)]
pub struct Lines<W: text_bytes::ByteSink> {
    actor: ActorNo,
    outlet: Outlet<W>,
    /// A page of this many bytes is full, and is written.
    full: usize,
    /// The notes that were taken, the oldest first.
    has: History<Note<u64>>,
    refusals: u64,
    /// Those of the refusals that were for want of memory.
    shortages: u64,
    /// What was taken by the time of each refusal, the first one first.
    refused_at: History<History<Note<u64>>>,
}

impl<W: text_bytes::ByteSink> Model for Lines<W> {
    ghost use Rattle.note_sinks.specs.Lines.{LinesView};

    ghost Value = { LinesView W };

    ghost use Rattle.std.specs.Prelude.{length, map, reverse};
    ghost use Rattle.note_sinks.specs.Lines.{HoldsText};

    ghost view = { λ lines. record { actor = lines.actor; writer = lines.outlet.writer; pending = lines.outlet.pending; has = reverse lines.has.items; refusals = lines.refusals; shortages = lines.shortages; refused = map (λ it. length it.items) lines.refused_at.items } };

    ghost invariant = { λ lines. HoldsText W.contents (record { actor = lines.actor; writer = lines.outlet.writer; pending = lines.outlet.pending; has = reverse lines.has.items; refusals = lines.refusals; shortages = lines.shortages; refused = map (λ it. length it.items) lines.refused_at.items }) };
}

/// Puts these notes behind all others.
fn lengthen(has: &mut History<Note<u64>>, notes: &[Note<u64>])
    ensures { has.new.items ≡ has.old.items ++ notes.now }
{
    for note in notes {
        *has = has.with(note);
    }
}

impl<W: text_bytes::ByteSink> Lines<W> {
    /// No note was taken. The notes are those of this actor. A page of `full` bytes is full; the opening takes memory for so many.
    ///
    /// # Errors
    ///
    /// The writer comes back for want of memory.
    pub fn try_new(alloc: Global, actor: ActorNo, full: usize, writer: W) -> Result<Self, W>
        requires { IsBlank (W.contents writer) }
        ensures ok { IfOk result (λ lines. lines ≡ record { actor = actor; writer = writer; pending = []; has = []; refusals = 0; shortages = 0; refused = [] }) }
        ensures err { IfErr result (λ back. back ≡ writer) }
    {
        match Outlet::new(alloc, full, writer) {
            Ok(outlet) => Ok(Lines {
                actor,
                outlet,
                full,
                has: History::new(),
                refusals: 0,
                shortages: 0,
                refused_at: History::new(),
            }),
            Err(writer) => Err(writer),
        }
    }

    /// Whose notes they are.
    pub fn actor(&self) -> ActorNo
        ensures { result ≡ self.now.actor }
    {
        self.actor
    }

    /// How often notes were refused.
    pub fn refusals(&self) -> u64
        ensures { result ≡ self.now.refusals }
    {
        self.refusals
    }

    /// How often notes were refused for want of memory. All other refusals were for a write that failed.
    pub fn shortages(&self) -> u64
        ensures { result ≡ self.now.shortages }
    {
        self.shortages
    }

    /// The text that is still to be written. What was written and this are together the lines of all notes that were taken.
    pub fn pending(&self) -> &[u8]
        ensures value { result.now ≡ self.now.pending }
        ensures text { HoldsText W.contents self.now }
    {
        self.outlet.pending()
    }

    /// The writer.
    pub fn writer(&self) -> &W
        ensures value { result.now ≡ self.now.writer }
        ensures text { HoldsText W.contents self.now }
    {
        self.outlet.writer()
    }

    /// Writes all that is pending, and tells the writer that no more comes for now. What isn't written stays pending.
    ///
    /// # Errors
    ///
    /// `DeviceFault` where a write or the flush fails.
    pub fn flush(&mut self) -> Result<(), DeviceFault>
        ensures same { self.new ≡ record self.old { writer = self.new.writer; pending = self.new.pending } }
        ensures writes { Writes (W.contents self.old.writer) (W.contents self.new.writer) self.old.pending self.new.pending }
        ensures ok { OnOk result (self.new.pending ≡ []) }
        ensures failed { OnErr result (HasFailedSince W.tries W.interrupts W.fails self.old.writer self.new.writer) }
        ensures tried { IsNoFewer (W.tries self.old.writer) (W.tries self.new.writer) }
    {
        self.outlet.flush()
    }

    /// Writes all that is pending, and gives the writer back. All lines are written then, and nothing else.
    ///
    /// # Errors
    ///
    /// If a write or the flush fails, the sink comes back. What isn't written stays pending.
    pub fn finish(self) -> Result<W, Lines<W>>
        ensures ok { IfOk result (λ writer. HasWritten W.contents writer (text_of (actor_lines self.actor self.has))) }
        ensures err { IfErr result (λ back. back ≡ record self { writer = back.writer; pending = back.pending }) }
        ensures failed { IfErr result (λ back. HasFailedSince W.tries W.interrupts W.fails self.writer back.writer) }
    {
        let mut lines = self;
        match lines.flush() {
            Ok(()) => Ok(lines.outlet.into_writer()),
            Err(_) => Err(lines),
        }
    }

    /// Writes all that is pending, if the page is full. What isn't written stays pending.
    fn make_room(&mut self) -> Result<(), DeviceFault>
        ensures same { self.new ≡ record self.old { writer = self.new.writer; pending = self.new.pending } }
        ensures writes { Writes (W.contents self.old.writer) (W.contents self.new.writer) self.old.pending self.new.pending }
        ensures failed { OnErr result (HasFailedSince W.tries W.interrupts W.fails self.old.writer self.new.writer) }
    {
        if self.outlet.page_len() < self.full {
            return Ok(());
        }
        self.outlet.write_out()
    }

    /// Puts the lines of these notes behind what is pending, or leaves all as it is.
    fn put(&mut self, notes: &[Note<u64>]) -> Result<(), AllocError>
        ensures ok { OnOk result (self.new ≡ record self.old { pending = self.old.pending ++ notes_text self.old.actor notes.now; has = reverse notes.now ++ self.old.has }) }
        ensures err { OnErr result (self.new ≡ self.old) }
    {
        self.outlet.put(self.actor, notes)?;
        lengthen(&mut self.has, notes);
        Ok(())
    }

    /// Counts a refusal.
    fn refuse(&mut self) -> Result<(), Refused>
        ensures same { self.new ≡ record self.old { refusals = min (self.old.refusals + 1) (2 ^ 64 - 1); refused = self.old.refused ++ length self.old.has ∷ [] } }
        ensures err { IsErr result }
    {
        self.refusals = self.refusals.saturating_add(1);
        self.refused_at = self.refused_at.with(&self.has);
        Err(Refused)
    }

    /// Counts a refusal for want of memory.
    fn refuse_for_memory(&mut self) -> Result<(), Refused>
        ensures same { self.new ≡ record self.old { refusals = min (self.old.refusals + 1) (2 ^ 64 - 1); shortages = min (self.old.shortages + 1) (2 ^ 64 - 1); refused = self.old.refused ++ length self.old.has ∷ [] } }
        ensures err { IsErr result }
    {
        self.shortages = self.shortages.saturating_add(1);
        self.refuse()
    }
}

impl<W: text_bytes::ByteSink + Drop> Sink for Lines<W> {
    ghost has = { λ lines. lines.has };

    ghost refused = { λ lines count. Contains lines.refused count };

    ghost mark = { λ lines. lines.actor };

    fn take(&mut self, notes: &[Note<u64>]) -> Result<(), Refused>
        ensures ok { OnOk result (self.new.has ≡ reverse notes.now ++ self.old.has) }
        ensures err { OnErr result (self.new.has ≡ self.old.has) }
        ensures told { OnErr result (Contains self.new.refused (length self.old.has)) }
        ensures refusals { (count : ℕ) → Contains self.old.refused count → Contains self.new.refused count }
        ensures actor { self.new.actor ≡ self.old.actor }
        ensures ok_counts { OnOk result ((self.new.refusals ≡ self.old.refusals) × (self.new.shortages ≡ self.old.shortages) × (self.new.refused ≡ self.old.refused)) }
        ensures counted { OnErr result ((self.new.refusals ≡ min (self.old.refusals + 1) (2 ^ 64 - 1)) × (self.new.refused ≡ self.old.refused ++ length self.old.has ∷ [])) }
        ensures why { OnErr result (IsRefused W.tries W.interrupts W.fails self.old self.new) }
        // An older text is written first, so that a failed write refuses the notes before a line of them is put.
        ensures ok_writes { OnOk result (Writes (W.contents self.old.writer) (W.contents self.new.writer) (self.old.pending ++ notes_text self.old.actor notes.now) self.new.pending) }
        ensures err_writes { OnErr result (Writes (W.contents self.old.writer) (W.contents self.new.writer) self.old.pending self.new.pending) }
    {
        if self.make_room().is_err() {
            return self.refuse();
        }
        if self.put(notes).is_err() {
            return self.refuse_for_memory();
        }
        // What isn't written now stays pending: the notes were taken.
        let _room = self.make_room();
        Ok(())
    }
}
