//! Who keeps the journals of a text.

ghost use Rattle.std.specs.Prelude.{◌≡◌};
ghost use Rattle.text_journal.specs.Handed.{nothing_handed};

use crate::taker::NoteTaker;
use base_words::Note;
use note_journal::{Assembly, Journal};
use std::alloc::{AllocError, Global};
use std::marker::Model;
use std::mem::replace;

/// Who keeps all notes: the journals of the actors before, and the notes so far of the actor whose notes come now.
#[derive(Drop)]
pub struct Keeper {
    cores: u8,
    cap: u16,
    burst: u8,
    earlier: Vec<Journal<u64>>,
    notes: Journal<u64>,
    alloc: Global,
}

impl Model for Keeper {
    ghost use Rattle.std.specs.Prelude.{map};
    ghost use Rattle.text_journal.specs.Handed.{Handed};

    ghost Value = { Handed };

    ghost view = { λ keeper. record {
      cores = keeper.cores;
      cap = keeper.cap;
      burst = keeper.burst;
      earlier = map (λ journal. journal.notes) keeper.earlier.items;
      notes = keeper.notes.notes;
    } };
}

impl Keeper {
    /// Before the second line.
    pub fn new(alloc: Global) -> Keeper
        ensures { result ≡ nothing_handed }
    {
        Keeper {
            cores: 1,
            cap: 1,
            burst: 1,
            earlier: Vec::new(alloc),
            notes: Journal::of(Vec::new(alloc)),
            alloc,
        }
    }
}

impl NoteTaker for Keeper {
    type Whole = Assembly;

    ghost use Rattle.std.specs.Prelude.{◌≡◌};
    ghost use Rattle.text_journal.specs.Handed.{assembly_handed};

    ghost has = { λ keeper handed. handed ≡ keeper };

    ghost makes = { λ assembly handed. assembly ≡ assembly_handed handed };

    fn begin(&mut self, cores: u8, cap: u16, burst: u8) -> Result<(), AllocError> {
        self.cores = cores;
        self.cap = cap;
        self.burst = burst;
        Ok(())
    }

    fn take(&mut self, note: &Note<u64>) -> Result<(), AllocError> {
        self.notes.try_push(self.alloc, *note)
    }

    fn next_actor(&mut self) -> Result<(), AllocError> {
        let notes = replace(&mut self.notes, Journal::of(Vec::new(self.alloc)));
        self.earlier.push(notes)?;
        Ok(())
    }

    fn finish(self) -> Result<Assembly, AllocError> {
        let Keeper {
            cores,
            cap,
            burst,
            mut earlier,
            notes,
            alloc: _,
        } = self;
        earlier.push(notes)?;
        Ok(Assembly::of_burst(cores, cap, burst, earlier))
    }
}
