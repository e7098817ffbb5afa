//! The polls of all cores as rows with commas.

ghost use Rattle.std.specs.Prelude.{◌≡◌, ◌++◌, codes, IfOk, OnOk, string_bytes};
ghost use Rattle.text_journal.specs.Handed.{nothing_handed};
ghost use Rattle.fairview_report.specs.PollTexts as spec;

use crate::poll_line::PollLine;
use base_words::{CoreNo, Note};
use judge_view::{Poll, PollWalk};
use std::alloc::{AllocError, Global};
use text_journal::NoteTaker;

/// The first line.
const HEAD: &str = "core,turn,queue,name,step,time,virtual_runtime,end\n";

/// The rows of the polls so far, by core and turn, behind a first line that names the columns. The notes are not kept.
#[derive(Drop)]
pub struct PollRows {
    alloc: Global,
    cores: u8,
    /// The actor whose notes come now.
    actor: u8,
    walk: PollWalk,
    page: String,
}

impl PollRows {
    /// Before the first note.
    ///
    /// # Errors
    ///
    /// `AllocError` for want of memory.
    pub fn new(alloc: Global) -> Result<Self, AllocError>
        ensures { IfOk result (λ rows. spec.HasRows rows nothing_handed) }
    {
        let mut page = String::new(alloc);
        page.push_str(HEAD)?;
        Ok(PollRows {
            alloc,
            cores: 1,
            actor: 0,
            walk: PollWalk::new(alloc),
            page,
        })
    }
}

impl NoteTaker for PollRows {
    type Whole = String;

    ghost use Rattle.std.specs.Prelude.{◌≡◌, string_bytes};
    ghost use Rattle.text_journal.specs.Handed.{assembly_handed};
    ghost use Rattle.fairview_report.specs.PollTexts.{HasRows, polls_text};

    ghost has = { λ rows handed. HasRows rows handed };

    ghost makes = { λ page handed. string_bytes page ≡ polls_text (assembly_handed handed) };

    fn begin(&mut self, cores: u8, _cap: u16, _burst: u8) -> Result<(), AllocError> {
        self.cores = cores;
        Ok(())
    }

    fn take(&mut self, note: &Note<u64>) -> Result<(), AllocError> {
        let poll = self.walk.add(note)?;
        if self.actor < self.cores {
            return put_told(CoreNo(self.actor), poll, &mut self.page);
        }
        Ok(())
    }

    fn next_actor(&mut self) -> Result<(), AllocError> {
        self.actor = self.actor.saturating_add(1);
        self.walk = PollWalk::new(self.alloc);
        Ok(())
    }

    fn finish(self) -> Result<String, AllocError> {
        Ok(self.page)
    }
}

/// Puts the row of a poll, if there is one.
fn put_told(core: CoreNo, poll: Option<Poll>, page: &mut String) -> Result<(), AllocError>
    ensures { OnOk result (string_bytes page.new ≡ string_bytes page.old ++ spec.row_told core poll) }
{
    match poll {
        Some(poll) => put_row(PollLine(core, poll), page),
        None => Ok(()),
    }
}

/// Puts the row of a poll.
fn put_row(line: PollLine, page: &mut String) -> Result<(), AllocError>
    ensures { OnOk result (string_bytes page.new ≡ string_bytes page.old ++ (spec.poll_row line.0 line.1 ++ codes "\n")) }
{
    writeln!(page, "{line}")?;
    Ok(())
}
