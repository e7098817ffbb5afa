//! Sets of names.

ghost use Rattle.std.specs.Prelude.{◌≡◌, OnErr, OnOk, []};
ghost use Rattle.note_facts.specs.Names.{has_name, AddsName};

use crate::names::NameTable;
use base_words::JobId;
use std::alloc::{AllocError, Global};
use std::marker::Model;

/// A set of names. A look-up and a change take as many steps as the digits of their count.
#[derive(Drop)]
pub struct NameSet {
    names: NameTable<()>,
}

impl Model for NameSet {
    ghost use Rattle.note_facts.specs.Names.{Entries};

    ghost Value = { Entries (Unit {0}) };

    ghost view = { λ set. set.names };
}

impl NameSet {
    /// No name.
    pub fn new(alloc: Global) -> Self
        ensures { result ≡ [] }
    {
        NameSet {
            names: NameTable::new(alloc),
        }
    }

    /// Whether the name is in the set.
    pub fn has(&self, name: &JobId) -> bool
        ensures { result ≡ has_name self.now name.now }
    {
        self.names.get(name).is_some()
    }

    /// Adds the name, if there is one.
    pub fn add(&mut self, name: Option<JobId>) -> Result<(), AllocError>
        ensures added { OnOk result (AddsName self.old self.new name) }
        ensures refused { OnErr result (self.new ≡ self.old) }
    {
        let Some(name) = name else {
            return Ok(());
        };
        self.names.set(name, ())
    }
}
