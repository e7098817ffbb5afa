//! A writer, and the text that it hasn't got yet.

ghost use Rattle.std.specs.Prelude.{◌≡◌, ◌++◌, [], codes, IfErr, IfOk, OnErr, OnOk};
ghost use Rattle.text_bytes.specs.Tries.{HasFailedSince, IsNoFewer};
ghost use Rattle.text_words.specs.Notes.{note_line};
ghost use Rattle.note_sinks.specs.Outlets.{notes_text, Writes};

use crate::writes::write_rest;
use base_words::{ActorNo, Note};
use std::alloc::{AllocError, Global};
use std::marker::Model;
use text_bytes::{ByteSink, DeviceFault};
use text_words::NoteLine;

/// A line has at most 128 bytes with its line feed.
const LONGEST_LINE: usize = 128;

/// A writer, and the text that it hasn't got yet.
///
/// A contract sees both.
#[derive(Drop)]
pub struct Outlet<W> {
    writer: W,
    page: Vec<u8>,
    /// So many bytes of the page are written.
    written: usize,
    /// The line that is put last.
    line: String,
}

impl<W> Model for Outlet<W> {
    ghost use Rattle.note_sinks.specs.Outlets.{OutletView};

    ghost Value = { OutletView W };

    ghost use Rattle.std.specs.Prelude.{◌≤◌, drop, length};

    ghost view = { λ outlet. record { writer = outlet.writer; pending = drop outlet.written outlet.page.items } };

    ghost invariant = { λ outlet. outlet.written ≤ length outlet.page.items };
}

/// Puts the line of one note behind the page, or leaves the page as it is.
fn put_line(
    actor: ActorNo,
    note: Note<u64>,
    line: &mut String,
    page: &mut Vec<u8>,
) -> Result<(), AllocError>
    ensures ok { OnOk result (page.new.items ≡ page.old.items ++ (note_line actor note ++ codes "\n")) }
    ensures err { OnErr result (page.new.items ≡ page.old.items) }
{
    line.clear();
    let text = NoteLine(actor, note);
    match writeln!(line, "{text}") {
        Ok(()) => page.extend_from_slice(line.as_bytes()),
        Err(_) => Err(AllocError),
    }
}

/// Puts the lines of these notes behind the page, the oldest first, or leaves the page as it is.
fn put_lines(
    actor: ActorNo,
    notes: &[Note<u64>],
    line: &mut String,
    page: &mut Vec<u8>,
) -> Result<(), AllocError>
    ensures ok { OnOk result (page.new.items ≡ page.old.items ++ notes_text actor notes.now) }
    ensures err { OnErr result (page.new.items ≡ page.old.items) }
{
    let count = page.len();
    for note in notes {
        if put_line(actor, *note, line, page).is_err() {
            page.truncate(count);
            return Err(AllocError);
        }
    }
    Ok(())
}

impl<W> Outlet<W> {
    /// Nothing is pending. Takes memory for so many bytes.
    ///
    /// # Errors
    ///
    /// The writer comes back for want of memory.
    pub fn new(alloc: Global, capacity: usize, writer: W) -> Result<Self, W>
        ensures ok { IfOk result (λ outlet. outlet ≡ record { writer = writer; pending = [] }) }
        ensures err { IfErr result (λ back. back ≡ writer) }
    {
        let Ok(page) = Vec::with_capacity(alloc, capacity) else {
            return Err(writer);
        };
        let Ok(line) = String::with_capacity(alloc, LONGEST_LINE) else {
            return Err(writer);
        };
        Ok(Outlet {
            writer,
            page,
            written: 0,
            line,
        })
    }

    /// What is still to be written.
    pub fn pending(&self) -> &[u8]
        ensures { result.now ≡ self.now.pending }
    {
        &self.page[self.written..]
    }

    /// The writer.
    pub fn writer(&self) -> &W
        ensures { result.now ≡ self.now.writer }
    {
        &self.writer
    }

    /// The writer. What is pending is lost.
    pub fn into_writer(self) -> W
        ensures { result ≡ self.writer }
    {
        self.writer
    }

    /// How many bytes stand on the page, those that are written already counted too.
    pub fn page_len(&self) -> usize {
        self.page.len()
    }

    /// Puts the lines of these notes behind what is pending, the oldest first, or leaves all as it is.
    ///
    /// # Errors
    ///
    /// `AllocError` for want of memory.
    pub fn put(&mut self, actor: ActorNo, notes: &[Note<u64>]) -> Result<(), AllocError>
        ensures ok { OnOk result (self.new ≡ record self.old { pending = self.old.pending ++ notes_text actor notes.now }) }
        ensures err { OnErr result (self.new ≡ self.old) }
    {
        put_lines(actor, notes, &mut self.line, &mut self.page)
    }
}

impl<W: ByteSink> Outlet<W> {
    /// Writes all that is pending. What isn't written stays pending.
    ///
    /// # Errors
    ///
    /// `DeviceFault` where a write fails.
    pub fn write_out(&mut self) -> Result<(), DeviceFault>
        ensures writes { Writes (W.contents self.old.writer) (W.contents self.new.writer) self.old.pending self.new.pending }
        ensures ok { OnOk result (self.new.pending ≡ []) }
        ensures failed { OnErr result (HasFailedSince W.tries W.interrupts W.fails self.old.writer self.new.writer) }
        ensures tried { IsNoFewer (W.tries self.old.writer) (W.tries self.new.writer) }
    {
        write_rest(&mut self.writer, &self.page, &mut self.written)?;
        self.page.clear();
        self.written = 0;
        Ok(())
    }

    /// Writes all that is pending, and tells the writer that no more comes for now.
    ///
    /// # Errors
    ///
    /// `DeviceFault` where a write or the flush fails.
    pub fn flush(&mut self) -> Result<(), DeviceFault>
        ensures writes { Writes (W.contents self.old.writer) (W.contents self.new.writer) self.old.pending self.new.pending }
        ensures ok { OnOk result (self.new.pending ≡ []) }
        ensures failed { OnErr result (HasFailedSince W.tries W.interrupts W.fails self.old.writer self.new.writer) }
        ensures tried { IsNoFewer (W.tries self.old.writer) (W.tries self.new.writer) }
    {
        self.write_out()?;
        text_bytes::flush(&mut self.writer)
    }
}
