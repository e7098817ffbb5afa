//! What is known under each name.

ghost use Rattle.std.specs.Prelude.{◌≡◌, OnOk, OnErr, []};
ghost use Rattle.note_facts.specs.Names.{known, SetsOne, SetsEntry, KeepsFirst};

use base_words::JobId;
use std::alloc::{AllocError, Global};
use std::collections::BTreeMap;
use std::marker::Model;

/// A value under each of some names. A look-up and a change take as many steps as the digits of their count.
///
/// A contract sees the list of what is known (`known`).
#[derive(Drop)]
pub struct NameTable<V: Copy> {
    // By sender, receiver and number.
    values: BTreeMap<(u8, u8, u64), V>,
}

impl<V: Copy> Model for NameTable<V> {
    ghost use Rattle.note_facts.specs.Names.{Entries};

    ghost Value = { Entries V };

    ghost view = { λ table. table.values.entries };
}

fn parts(name: JobId) -> (u8, u8, u64)
    ensures { result ≡ (name.from, name.to, name.number) }
{
    (name.from.0, name.to.0, name.number)
}

impl<V: Copy> NameTable<V> {
    /// Nothing is known yet.
    pub fn new(alloc: Global) -> Self
        ensures { result ≡ [] }
    {
        NameTable {
            values: BTreeMap::new(alloc),
        }
    }

    /// What is known under this name.
    pub fn get(&self, name: &JobId) -> Option<V>
        ensures { result ≡ known self.now name.now }
    {
        self.values.get(&parts(*name)).copied()
    }

    /// From now on this is known under the name.
    pub fn set(&mut self, name: JobId, value: V) -> Result<(), AllocError>
        ensures set { OnOk result (SetsOne self.old self.new name value) }
        ensures kept { OnErr result (self.new ≡ self.old) }
    {
        match self.values.insert(parts(name), value) {
            Ok(_) => Ok(()),
            Err(_) => Err(AllocError),
        }
    }

    /// From now on this is known under its name, if there is anything to know.
    pub fn set_told(&mut self, told: Option<(JobId, V)>) -> Result<(), AllocError>
        ensures set { OnOk result (SetsEntry self.old self.new told) }
        ensures refused { OnErr result (self.new ≡ self.old) }
    {
        match told {
            Some((name, value)) => self.set(name, value),
            None => Ok(()),
        }
    }

    /// From now on this is known under its name, if there is anything to know and nothing was known there.
    pub fn keep_first(&mut self, told: Option<(JobId, V)>) -> Result<(), AllocError>
        ensures set { OnOk result (KeepsFirst self.old self.new told) }
        ensures refused { OnErr result (self.new ≡ self.old) }
    {
        let Some((name, value)) = told else {
            return Ok(());
        };
        if self.get(&name).is_some() {
            return Ok(());
        }
        self.set(name, value)
    }
}
