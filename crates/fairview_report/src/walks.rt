//! What is told of the journals of a text, without the journals.

ghost use Rattle.std.specs.Prelude.{◌≡◌, ◌+◌, length};
ghost use Rattle.text_journal.specs.Handed.{nothing_handed};
ghost use Rattle.fairview_report.specs.Walks.{AreWalked};

use crate::walk::CoreWalk;
use base_words::Note;
use std::alloc::{AllocError, Global};
use std::mem::replace;
use text_journal::NoteTaker;

/// What was told of the journals of the actors before, and the walk over the journal of the actor whose notes come now.
#[derive(Drop)]
pub struct Walks<W: CoreWalk> {
    alloc: Global,
    cores: u8,
    burst: u8,
    each: Vec<W::Told>,
    now: W,
}

/// What was told of the journals of all actors: of the cores by number, and then of the outside actor.
#[derive(Drop)]
pub struct Walked<W: CoreWalk> {
    pub cores: u8,
    pub burst: u8,
    pub each: Vec<W::Told>,
    ghost sized: { length each.items ≡ cores + 1 },
}

impl<W: CoreWalk> Walks<W> {
    /// Before the first note.
    pub fn new(alloc: Global) -> Self
        ensures { AreWalked W.knows W.tells result.cores result.burst result.each.items result.now nothing_handed }
    {
        Walks {
            alloc,
            cores: 1,
            burst: 1,
            each: Vec::new(alloc),
            now: W::start(alloc, 1),
        }
    }
}

impl<W: CoreWalk> NoteTaker for Walks<W> {
    type Whole = Walked<W>;

    ghost use Rattle.fairview_report.specs.Walks.{AreWalked, IsWalked};

    ghost has = { λ walks handed. AreWalked W.knows W.tells walks.cores walks.burst walks.each.items walks.now handed };

    ghost makes = { λ walked handed. IsWalked W.tells walked.cores walked.burst walked.each.items handed };

    fn begin(&mut self, cores: u8, _cap: u16, burst: u8) -> Result<(), AllocError> {
        self.cores = cores;
        self.burst = burst;
        self.now = W::start(self.alloc, burst);
        Ok(())
    }

    fn take(&mut self, note: &Note<u64>) -> Result<(), AllocError> {
        self.now.read(note)
    }

    fn next_actor(&mut self) -> Result<(), AllocError> {
        let walk = replace(&mut self.now, W::start(self.alloc, self.burst));
        self.each.push(walk.into_told())?;
        Ok(())
    }

    fn finish(self) -> Result<Walked<W>, AllocError> {
        let Walks {
            alloc: _,
            cores,
            burst,
            mut each,
            now,
        } = self;
        each.push(now.into_told())?;
        Ok(Walked { cores, burst, each })
    }
}
